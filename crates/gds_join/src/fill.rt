//! A fill library, read.
ghost use Rattle.std.specs.Prelude.{◌≡◌, ℤ, false, true, IfErr, IfOk, length};
ghost use Rattle.gds_grammar.specs.Values.{contents_of};
ghost use Rattle.fill_state.specs.Filling.{is_filled};
ghost use Rattle.fill_text.specs.ValuesOfRules.{values_of};
ghost use Rattle.gds_out.specs.FillText as spec;
ghost use Rattle.gds_out.specs.Laws.{raster_in};
ghost use Rattle.gds_out.specs.Places.{AreOfTiles, marked_by};
ghost use Rattle.gds_join.specs.Joins.{IsUnread};
ghost use Rattle.gds_join.specs.Reading.{IsFillText, places_in};
ghost use Rattle.gds_join.specs.steps.Strips.{AreStripsOf, IsUnreadIf};

use crate::error::PartError;
use crate::number::has_few_references;
use crate::reading::fill_library_places;
use fill_job::laws::rules_make_a_plan;
use fill_raster::Marks;
use fill_state::Filled;
use fill_text::Rules;
use gds_grammar::{Library, read_library};
use gds_out::{Strip, fill_library};
use std::alloc::{AllocError, Global};

/// What a fill library says: units, dates and places.
#[derive(Drop)]
pub struct PartFill {
    /// The data of UNITS.
    pub units: [u8; 16],
    /// The data of BGNLIB.
    pub dates: [u8; 24],
    /// The filled places.
    pub filled: Filled,
}

/// No place of the rules' raster.
///
/// # Errors
/// `AllocError` where memory is refused.
pub fn no_places(alloc: Global, rules: &Rules) -> Result<Filled, AllocError>
    ensures raster { IfOk result (λ f. f.raster ≡ raster_in rules.now) }
    ensures none { IfOk result (λ f. (i j : ℤ) → is_filled f i j ≡ false) }
{
    rules_make_a_plan(rules);
    Filled::none(alloc, rules.raster())
}

/// The marks of all tiles, in their order.
fn tile_marks(alloc: Global, filled: &Filled) -> Result<Vec<&Marks>, AllocError>
    ensures tiles { IfOk result (λ v. AreOfTiles filled.now.raster v.items) }
    ensures marked { IfOk result (λ v. marked_by v.items ≡ is_filled filled.now) }
{
    let count = filled.raster().tiles();
    let mut marks = Vec::new(alloc);
    for tile in 0..count {
        marks.push(filled.marks(tile))?;
    }
    Ok(marks)
}

/// The fills of parts as strips of the chip's raster.
///
/// # Errors
/// `AllocError` where memory is refused.
pub(crate) fn strips_of(alloc: Global, fills: &[Filled]) -> Result<Vec<Strip<'_>>, AllocError>
    ensures { IfOk result (λ v. AreStripsOf fills.now v.items) }
{
    let mut strips = Vec::with_capacity(alloc, fills.len())?;
    for fill in fills {
        strips.push(Strip {
            raster: fill.raster(),
            marks: tile_marks(alloc, fill)?,
        })?;
    }
    Ok(strips)
}

/// The text of the fill library of these units, dates and places.
///
/// # Errors
/// `AllocError` where memory is refused.
pub fn fill_text(
    alloc: Global,
    units: &[u8; 16],
    dates: &[u8; 24],
    rules: &Rules,
    filled: &Filled,
) -> Result<Vec<u8>, AllocError>
    requires { filled.now.raster ≡ raster_in rules.now }
    ensures units { length units.now ≡ 16 }
    ensures dates { length dates.now ≡ 24 }
    ensures text { IfOk result (λ text. text.items ≡ spec.fill_text units.now dates.now (values_of rules.now) (is_filled filled.now)) }
{
    let marks = tile_marks(alloc, filled)?;
    fill_library(alloc, units, dates, rules, marks)
}

/// The places of the rules' raster at whose corner a reference of the library stands, or without `some` no place.
///
/// # Errors
/// `AllocError` where memory is refused.
fn places_of(
    alloc: Global,
    rules: &Rules,
    library: &Library<'_>,
    some: bool,
) -> Result<Filled, AllocError>
    ensures raster { IfOk result (λ f. f.raster ≡ raster_in rules.now) }
    ensures some { IfOk result (λ f. some ≡ true → is_filled f ≡ places_in (raster_in rules.now) (contents_of library.now)) }
    ensures none { IfOk result (λ f. some ≡ false → (i j : ℤ) → is_filled f i j ≡ false) }
{
    let mut filled = no_places(alloc, rules)?;
    if some {
        fill_library_places(rules, &mut filled, library);
    }
    Ok(filled)
}

/// The fill that the bytes of a fill library of these rules say, which has no place unless `some`: what its references say, where
/// that, written again, gives these bytes. References beyond the number of places that a raster may have are not looked at.
///
/// # Errors
/// `Library` where they are no library, `NotAFill` where they are no such fill library, `Memory` where memory is refused.
pub(crate) fn read_fill_of(
    alloc: Global,
    bytes: &[u8],
    rules: &Rules,
    some: bool,
) -> Result<PartFill, PartError>
    ensures fill { IfOk result (λ p. IsFillText rules.now bytes.now p.units p.dates (is_filled p.filled)) }
    ensures none { IfOk result (λ p. some ≡ false → (i j : ℤ) → is_filled p.filled i j ≡ false) }
    ensures raster { IfOk result (λ p. p.filled.raster ≡ raster_in rules.now) }
    ensures refused { IfErr result (IsUnreadIf (values_of rules.now) some bytes.now) }
{
    rules_make_a_plan(rules);
    let library = read_library(alloc, bytes)?;
    if !has_few_references(&library) {
        return Err(PartError::NotAFill);
    }
    let filled = places_of(alloc, rules, &library, some)?;
    let text = fill_text(alloc, &library.units, &library.dates, rules, &filled)?;
    if text.as_slice() != bytes {
        return Err(PartError::NotAFill);
    }
    Ok(PartFill {
        units: library.units,
        dates: library.dates,
        filled,
    })
}

/// The fill that the bytes of a fill library of these rules say.
///
/// # Errors
/// `Library` where they are no library, `NotAFill` where they are no fill library of these rules, `Memory` where memory is refused.
pub fn read_fill(alloc: Global, bytes: &[u8], rules: &Rules) -> Result<PartFill, PartError>
    ensures fill { IfOk result (λ p. IsFillText rules.now bytes.now p.units p.dates (is_filled p.filled)) }
    ensures raster { IfOk result (λ p. p.filled.raster ≡ raster_in rules.now) }
    ensures refused { IfErr result (IsUnread (values_of rules.now) bytes.now) }
{
    read_fill_of(alloc, bytes, rules, true)
}
