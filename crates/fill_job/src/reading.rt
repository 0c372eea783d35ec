//! What of a design the work on a tile depends on.
ghost use Rattle.std.specs.Prelude.{◌≡◌, ◌↔◌, ◌&&◌, ◌<◌, ◌≤◌, ◌≤ℤ◌, ℕ, ℤ, pos, true, IsTrue, IfOk};
ghost use Rattle.fill_base.specs.Counts.{is_between};
ghost use Rattle.fill_region.specs.Runs.{holds};
ghost use Rattle.fill_raster.specs.Lattice.{tiles};
ghost use Rattle.fill_text.specs.ValuesOfRules.{values_of};
ghost use Rattle.fill_job.specs.Basis.{windows_in};
ghost use Rattle.fill_job.specs.Plans.{plan_of};
ghost use Rattle.fill_job.specs.ReadSets.{touches};

use crate::basis::Basis;
use crate::shared::{Pieces, SharedRules};
use fill_base::Rect;
use fill_raster::Raster;
use fill_region::Region;
use fill_text::Rules;
use std::alloc::{AllocError, Global};
use std::ops::Range;

/// The windows of a set, kept as unit squares, in these columns and rows.
fn within(
    alloc: Global,
    low: &Region,
    columns: Range<u32>,
    rows: Range<u32>,
) -> Result<Region, AllocError>
    requires columns { columns.end ≤ 1048576 }
    requires rows { rows.end ≤ 1048576 }
    ensures { IfOk result (λ r. (x y : ℤ) → holds r x y ≡ (holds low.now x y && (is_between (pos columns.start) (pos columns.end) x && is_between (pos rows.start) (pos rows.end) y))) }
{
    if columns.start >= columns.end || rows.start >= rows.end {
        return Ok(Region::empty(alloc));
    }
    let range = Rect::from_edges(
        i64::from(columns.start),
        i64::from(rows.start),
        i64::from(columns.end),
        i64::from(rows.end),
    );
    low.clip(alloc, &range)
}

/// The windows of a set, kept as unit squares, that share a square with the bounding rectangle of the tile's boxes.
fn touching(alloc: Global, rules: &Rules, low: &Region, tile: u32) -> Result<Region, AllocError>
    requires { tile < tiles (plan_of (values_of rules.now)).raster }
    ensures inside { IfOk result (λ r. (x y : ℤ) → holds r x y ≡ true → (pos 0 ≤ℤ x) × (pos 0 ≤ℤ y)) }
    ensures low { IfOk result (λ r. (a b : ℕ) → windows_in r a b ≡ (windows_in low.now a b && touches (plan_of (values_of rules.now)) tile a b)) }
{
    let bounds = rules.raster().halo(tile, 0);
    let (columns, rows) = rules.windows().touching(&bounds);
    within(alloc, low, columns, rows)
}

impl Basis {
    /// What is read for a tile: the rules and the pieces of the design as given, and which windows that touch the tile are low.
    pub(crate) fn read(
        alloc: Global,
        rules: SharedRules,
        pieces: Pieces,
        low: &Region,
        tile: u32,
    ) -> Result<Basis, AllocError>
        requires { tile < tiles (plan_of rules).raster }
        ensures rules { IfOk result (λ b. b.rules ≡ rules) }
        ensures pieces { IfOk result (λ b. b.pieces ≡ pieces) }
        ensures low { IfOk result (λ b. (a c : ℕ) → windows_in b.low a c ≡ (windows_in low.now a c && touches (plan_of rules) tile a c)) }
    {
        let low = touching(alloc, rules.rules(), low, tile)?;
        Ok(Basis { rules, pieces, low })
    }
}

/// Whether two sets of windows, kept as unit squares, have the same windows of a row, from one column on and before another.
fn same_in_row(part: &Region, low: &Region, left: u32, right: u32, b: u32) -> bool
    ensures { IsTrue result ↔ ((a : ℕ) → left ≤ a → a < right → windows_in part.now a b ≡ windows_in low.now a b) }
{
    for a in left..right {
        if part.has(i64::from(a), i64::from(b)) != low.has(i64::from(a), i64::from(b)) {
            return false;
        }
    }
    true
}

/// The same of some rows, between the same columns each.
fn same_in_rows(part: &Region, low: &Region, left: u32, right: u32, bottom: u32, top: u32) -> bool
    ensures { IsTrue result ↔ ((a b : ℕ) → left ≤ a → a < right → bottom ≤ b → b < top → windows_in part.now a b ≡ windows_in low.now a b) }
{
    for b in bottom..top {
        if !same_in_row(part, low, left, right, b) {
            return false;
        }
    }
    true
}

/// Whether the windows of a set that touch the tile are those of another set, all of which touch it. Takes no memory.
pub(crate) fn same_touching(rules: &Rules, part: &Region, low: &Region, tile: u32) -> bool
    requires tile { tile < tiles (plan_of (values_of rules.now)).raster }
    requires part { (a b : ℕ) → windows_in part.now a b ≡ true → touches (plan_of (values_of rules.now)) tile a b ≡ true }
    ensures { IsTrue result ↔ ((a b : ℕ) → windows_in part.now a b ≡ (windows_in low.now a b && touches (plan_of (values_of rules.now)) tile a b)) }
{
    let bounds = rules.raster().halo(tile, 0);
    let (columns, rows) = rules.windows().touching(&bounds);
    same_in_rows(part, low, columns.start, columns.end, rows.start, rows.end)
}
