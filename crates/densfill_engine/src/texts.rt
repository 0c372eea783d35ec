//! The texts of a book's fill: the fill library and the report.
ghost use Rattle.std.specs.Prelude.{◌≡◌, ◌&&◌, ◌||◌, ◌<◌, ℤ, IfErr, IfOk};
ghost use Rattle.fill_raster.specs.Lattice.{in_tile, tiles};
ghost use Rattle.fill_job.specs.Plans.{drawn_squares, plan_of};
ghost use Rattle.fill_core.specs.Accounts.{state_of};
ghost use Rattle.fill_state.specs.Filling.{is_filled};
ghost use Rattle.fill_parts.specs.Needs.{row_of};
ghost use Rattle.fill_parts.specs.PartChip.{is_row_in, rows_fill};
ghost use Rattle.fill_parts.specs.Told.{tiles_in};
ghost use Rattle.gds_out.specs.FillText as spec;
ghost use Rattle.gds_out.specs.Places.{AreOfTiles, marked_by};
ghost use Rattle.densfill_engine.specs.Views.{FitsIn, places_told, report_told};

use crate::refusal::RunFault;
use crate::view::Told;
use fill_core::FillBook;
use fill_parts::ToldRows;
use fill_raster::Marks;
use fill_report::{OutOfMemory, report, rows_report};
use fill_state::Filled as Places;
use gds_join::{fill_text, no_places};
use gds_out::fill_library;
use std::alloc::{AllocError, Global};

/// A complete fill, as the program hands it out: both texts are made before one of them is written.
#[derive(Drop)]
pub struct Filled {
    /// The fill library: a GDSII library of the boxes of all filled places that are told, with the units and dates of the design.
    pub library: Vec<u8>,
    /// The density report of metal and fill.
    pub report: Vec<u8>,
}

/// The filled places of each tile, in the order of the tiles.
fn marks_of<B: FillBook>(alloc: Global, book: &B) -> Result<Vec<&Marks>, AllocError>
    ensures tiles { IfOk result (λ v. AreOfTiles (plan_of (B.account book.now).rules).raster v.items) }
    ensures marked { IfOk result (λ v. marked_by v.items ≡ (state_of (B.account book.now)).fill) }
{
    let mut marks = Vec::new(alloc);
    for tile in 0..book.rules().raster().tiles() {
        marks.push(book.marks(tile))?;
    }
    Ok(marks)
}

/// Whether a row of tiles is told.
fn is_told(told: &ToldRows, row: u32) -> bool
    ensures { result ≡ is_row_in (tiles_in told.now) row }
{
    told.tiles.start <= row && row < told.tiles.end
}

/// Takes in the filled places of a tile, if its row is told.
fn take_told<B: FillBook>(filled: &mut Places, book: &B, told: &ToldRows, tile: u32)
    requires raster { filled.old.raster ≡ (plan_of (B.account book.now).rules).raster }
    requires tile { tile < tiles (plan_of (B.account book.now).rules).raster }
    ensures raster { filled.new.raster ≡ filled.old.raster }
    ensures told { let a = B.account book.now in (i j : ℤ) → is_filled filled.new i j
        ≡ is_filled filled.old i j || ((in_tile (plan_of a.rules).raster tile i j && (state_of a).fill i j) && is_row_in (tiles_in told.now) (row_of (plan_of a.rules).raster tile)) }
{
    if is_told(told, book.rules().raster().tile_row(tile)) {
        filled.take_in(tile, book.marks(tile));
    }
}

/// The filled places of the rows of tiles that are told.
fn told_places<B: FillBook>(alloc: Global, book: &B, told: &ToldRows) -> Result<Places, AllocError>
    ensures raster { IfOk result (λ f. f.raster ≡ (plan_of (B.account book.now).rules).raster) }
    ensures told { let a = B.account book.now in IfOk result (λ f. is_filled f ≡ rows_fill (plan_of a.rules) (tiles_in told.now) (state_of a).fill) }
{
    let rules = book.rules();
    let mut filled = no_places(alloc, rules)?;
    for tile in 0..rules.raster().tiles() {
        take_told(&mut filled, book, told, tile);
    }
    Ok(filled)
}

/// The library of the places that are told, with these units and dates.
fn library_of<B: FillBook>(
    alloc: Global,
    book: &B,
    told: &Told,
    units: &[u8; 16],
    dates: &[u8; 24],
) -> Result<Vec<u8>, AllocError>
    ensures { let a = B.account book.now in IfOk result (λ v. v.items ≡ spec.fill_text units.now dates.now a.rules (places_told told.now (plan_of a.rules) (state_of a).fill)) }
{
    match told {
        Told::Everything => {
            let marks = marks_of(alloc, book)?;
            fill_library(alloc, units, dates, book.rules(), marks)
        }
        Told::Rows(rows) => {
            let places = told_places(alloc, book, rows)?;
            fill_text(alloc, units, dates, book.rules(), &places)
        }
    }
}

/// The lines of metal and fill that are told.
fn report_of<B: FillBook>(alloc: Global, book: &B, told: &Told) -> Result<Vec<u8>, OutOfMemory>
    requires { FitsIn (B.account book.now).rules told.now }
    ensures { let a = B.account book.now in let s = state_of a in IfOk result (λ v. v.items ≡ report_told told.now a.rules (drawn_squares s.layers) s.fill) }
{
    match told {
        Told::Everything => report(alloc, book),
        Told::Rows(rows) => {
            let windows = rows.windows.start..rows.windows.end;
            rows_report(alloc, book, windows, rows.below)
        }
    }
}

/// The texts of what is told of a book's metal and fill, with these units and dates in the library.
pub(crate) fn texts_of<B: FillBook>(
    alloc: Global,
    book: &B,
    told: &Told,
    units: &[u8; 16],
    dates: &[u8; 24],
) -> Result<Filled, RunFault>
    requires { FitsIn (B.account book.now).rules told.now }
    ensures library { let a = B.account book.now in IfOk result (λ f. f.library.items ≡ spec.fill_text units.now dates.now a.rules (places_told told.now (plan_of a.rules) (state_of a).fill)) }
    ensures report { let a = B.account book.now in let s = state_of a in IfOk result (λ f. f.report.items ≡ report_told told.now a.rules (drawn_squares s.layers) s.fill) }
    ensures refused { IfErr result (λ e. e ≡ RunFault.Memory) }
{
    let library = library_of(alloc, book, told, units, dates)?;
    let report = report_of(alloc, book, told)?;
    Ok(Filled { library, report })
}
