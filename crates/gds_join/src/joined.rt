//! The parts of a chip, taken one after another.
ghost use Rattle.std.specs.Prelude.{◌≡◌, ◌+◌, ◌<◌, ◌≤◌, ◌++◌, ◌∷◌, [], ℤ, if◌then◌else◌, true, false, Some, None, IfErr, IfOk, IfSome, is_some};
ghost use Rattle.std.specs.Option.{unwrap_or};
ghost use Rattle.fill_state.specs.Filling.{is_filled};
ghost use Rattle.fill_text.specs.ValuesOfChips.{chip_values};
ghost use Rattle.fill_text.specs.ValuesOfRules.{values_of};
ghost use Rattle.fill_parts.specs.Cuts.{Part};
ghost use Rattle.fill_parts.specs.Laws.{part};
ghost use Rattle.fill_parts.specs.PartChip.{own_alone};
ghost use Rattle.gds_out.specs.FillText.{fill_text};
ghost use Rattle.gds_out.specs.Laws.{raster_in};
ghost use Rattle.gds_join.specs.Fills.{filled_in};
ghost use Rattle.gds_join.specs.Joined.{IsFillBelow, IsJoinedSo, design_of};
ghost use Rattle.gds_join.specs.Joins.{Design, IsNoPart, IsOfDesign, IsOtherDesign, IsPartRefused, IsPartText, IsTaken, IsUnreadOf};
ghost use Rattle.gds_join.specs.Reading.{IsFillOf};

use crate::error::PartError;
use crate::fill::{PartFill, read_fill, read_fill_of, strips_of};
use crate::meeting::meets;
use fill_parts::{Part, PartRulesError};
use fill_state::Filled;
use fill_text::{ChipRules, Rules};
use gds_out::{Sheet, sheet_library};
use std::alloc::{AllocError, Global};

/// What the first part says of all.
#[derive(Drop)]
pub struct First {
    /// The data of UNITS.
    pub units: [u8; 16],
    /// The data of BGNLIB.
    pub dates: [u8; 24],
    /// The rules of its own rows of tiles.
    pub rules: Rules,
}

/// The parts of a chip of any size that are taken so far, one after another.
#[derive(Drop)]
pub struct Joined {
    /// The rules of the chip.
    pub chip: ChipRules,
    /// The same, where one run takes the chip.
    pub whole: Option<Rules>,
    /// How many parts there are to be.
    pub count: u32,
    /// How many there are.
    pub taken: u32,
    /// What the first of them says of all.
    pub first: Option<First>,
    /// The places of each that has rows of tiles of its own.
    pub fills: Vec<Filled>,
}

/// A part's fill, and the rules that it was read under.
#[derive(Drop)]
struct OwnFill {
    rules: Rules,
    fill: PartFill,
}

/// Whether a part has the units and dates of the first one.
fn is_of_design(design: Option<([u8; 16], [u8; 24])>, fill: &PartFill) -> bool
    ensures same { result ≡ true → IsOfDesign design fill.now.units fill.now.dates }
    ensures other { result ≡ false → IsOtherDesign design fill.now.units fill.now.dates }
{
    let Some(first) = design else {
        return true;
    };
    if first.0 != fill.units {
        return false;
    }
    first.1 == fill.dates
}

/// The fill that a part's library says.
///
/// # Errors
/// `TooManyPlaces` where the part's own rows of tiles have more than 2^24 places, `Library` where the bytes are no library,
/// `NotAFill` where they are no fill library of these rows, `Memory` where memory is refused.
fn read_own(alloc: Global, chip: &ChipRules, part: Part, bytes: &[u8]) -> Result<OwnFill, PartError>
    ensures rules { IfOk result (λ o. values_of o.rules ≡ own_alone (chip_values chip.now) part) }
    ensures raster { IfOk result (λ o. o.fill.filled.raster ≡ raster_in o.rules) }
    ensures fill { IfOk result (λ o. IsPartText (chip_values chip.now) part o.fill.units o.fill.dates bytes.now (is_filled o.fill.filled)) }
    ensures refused { IfErr result (IsUnreadOf (chip_values chip.now) part bytes.now) }
{
    chip.keeps_faultless();
    part.keeps_few();
    let rules = match part.own_rules(alloc, chip) {
        Ok(rules) => rules,
        Err(PartRulesError::Places) => return Err(PartError::TooManyPlaces),
        Err(_) => return Err(PartError::Memory),
    };
    let fill = read_fill_of(alloc, bytes, &rules, part.has_tiles(chip))?;
    Ok(OwnFill { rules, fill })
}

impl Joined {
    /// No part yet, of so many, of a chip with these rules; the whole rules where one run takes the chip.
    pub fn begin(alloc: Global, chip: ChipRules, whole: Option<Rules>, count: u32) -> Joined
        requires count { (1 ≤ count) × (count ≤ 4096) }
        requires whole { IfSome whole (λ w. values_of w ≡ chip_values chip) }
        ensures joined { IsJoinedSo result }
        ensures chip { result.chip ≡ chip }
        ensures whole { result.whole ≡ whole }
        ensures count { (result.count ≡ count) × (result.taken ≡ 0) }
        ensures none { (design_of result.first ≡ None) × ((i j : ℤ) → filled_in result.fills.items i j ≡ false) }
    {
        Joined {
            chip,
            whole,
            count,
            taken: 0,
            first: None,
            fills: Vec::new(alloc),
        }
    }

    /// The units and dates of the first part.
    fn design(&self) -> Option<([u8; 16], [u8; 24])>
        ensures { result ≡ design_of self.now.first }
    {
        match &self.first {
            Some(first) => Some((first.units, first.dates)),
            None => None,
        }
    }

    /// Why a fill that isn't the next part's is refused.
    fn why_not(&self, fill: &PartFill, _bytes: &[u8]) -> PartError
        requires fill { IsFillOf (chip_values self.now.chip) _bytes.now fill.now.units fill.now.dates (is_filled fill.now.filled) }
        requires other { IsNoPart (chip_values self.now.chip) (part self.now.taken self.now.count) _bytes.now }
        ensures { IsPartRefused (chip_values self.now.chip) (is_some self.now.whole) (part self.now.taken self.now.count) (design_of self.now.first) (filled_in self.now.fills.items) _bytes.now result }
    {
        if !is_of_design(self.design(), fill) {
            return PartError::OtherDesign;
        }
        if meets(&self.fills, &fill.filled) {
            PartError::PlaceTwice
        } else {
            PartError::OtherRows
        }
    }

    /// Why bytes that are no library of the next part are refused.
    fn misfit(&self, alloc: Global, bytes: &[u8]) -> PartError
        requires whole { IfSome self.now.whole (λ w. values_of w ≡ chip_values self.now.chip) }
        requires other { IsNoPart (chip_values self.now.chip) (part self.now.taken self.now.count) bytes.now }
        ensures { IsPartRefused (chip_values self.now.chip) (is_some self.now.whole) (part self.now.taken self.now.count) (design_of self.now.first) (filled_in self.now.fills.items) bytes.now result }
    {
        let Some(rules) = &self.whole else {
            return PartError::NotAFill;
        };
        match read_fill(alloc, bytes, rules) {
            Ok(fill) => self.why_not(&fill, bytes),
            Err(error) => error,
        }
    }

    /// Why bytes that are not read as the next part's library are refused.
    fn refusal(&self, alloc: Global, bytes: &[u8], error: PartError) -> PartError
        requires whole { IfSome self.now.whole (λ w. values_of w ≡ chip_values self.now.chip) }
        requires unread { IsUnreadOf (chip_values self.now.chip) (part self.now.taken self.now.count) bytes.now error }
        ensures { IsPartRefused (chip_values self.now.chip) (is_some self.now.whole) (part self.now.taken self.now.count) (design_of self.now.first) (filled_in self.now.fills.items) bytes.now result }
    {
        match error {
            PartError::NotAFill => self.misfit(alloc, bytes),
            PartError::Library(_) | PartError::TooManyPlaces | PartError::Memory => error,
            PartError::OtherDesign | PartError::PlaceTwice | PartError::OtherRows => error,
        }
    }

    /// The parts with one more, whose units and dates are those of the first.
    fn with(self, own: OwnFill, has_tiles: bool) -> Result<Joined, AllocError>
        requires joined { IsJoinedSo self }
        requires more { self.taken < self.count }
        requires rules { (k : Part) × (values_of own.rules ≡ own_alone (chip_values self.chip) k) }
        requires fill { has_tiles ≡ true → IsFillBelow (chip_values self.chip) self.count (self.taken + 1) own.fill.filled }
        ensures joined { IfOk result IsJoinedSo }
        ensures same { IfOk result (λ j. (j.chip ≡ self.chip) × (j.whole ≡ self.whole) × (j.count ≡ self.count) × (j.taken ≡ self.taken + 1)) }
        ensures design { IfOk result (λ j. design_of j.first ≡ Some (unwrap_or (design_of self.first) (own.fill.units, own.fill.dates))) }
        ensures fills { IfOk result (λ j. j.fills.items ≡ (if has_tiles then self.fills.items ++ own.fill.filled ∷ [] else self.fills.items)) }
    {
        let OwnFill { rules, fill } = own;
        let PartFill {
            units,
            dates,
            filled,
        } = fill;
        let Joined {
            chip,
            whole,
            count,
            taken,
            first,
            mut fills,
        } = self;
        if has_tiles {
            fills.push(filled)?;
        }
        let first = first.unwrap_or(First {
            units,
            dates,
            rules,
        });
        Ok(Joined {
            chip,
            whole,
            count,
            taken: taken + 1,
            first: Some(first),
            fills,
        })
    }

    /// Takes the library of the next part, behind those of the parts before it.
    ///
    /// # Errors
    /// `TooManyPlaces` where the part's own rows of tiles have more than 2^24 places, `Library` where the bytes are no library,
    /// `NotAFill` where they are no fill library of the part, nor, of a chip that one run takes, of any other; `OtherDesign` where units or
    /// dates are others than the first part's, `PlaceTwice` where a part before it fills one of its places, `OtherRows` where one is
    /// of another part's tiles, `Memory` where memory is refused.
    pub fn take(self, alloc: Global, bytes: &[u8]) -> Result<Joined, PartError>
        requires joined { IsJoinedSo self }
        requires more { self.taken < self.count }
        ensures joined { IfOk result IsJoinedSo }
        ensures same { IfOk result (λ j. (j.chip ≡ self.chip) × (j.whole ≡ self.whole) × (j.count ≡ self.count) × (j.taken ≡ self.taken + 1)) }
        ensures taken { IfOk result (λ j. (d : Design) × (design_of j.first ≡ Some d) × IsTaken (chip_values self.chip) (part self.taken self.count) (design_of self.first) (filled_in self.fills.items) (filled_in j.fills.items) bytes.now d) }
        ensures refused { IfErr result (IsPartRefused (chip_values self.chip) (is_some self.whole) (part self.taken self.count) (design_of self.first) (filled_in self.fills.items) bytes.now) }
    {
        self.chip.keeps_faultless();
        let part = Part::new(self.taken + 1, self.count).unwrap();
        let own = match read_own(alloc, &self.chip, part, bytes) {
            Ok(own) => own,
            Err(error) => return Err(self.refusal(alloc, bytes, error)),
        };
        if !is_of_design(self.design(), &own.fill) {
            return Err(PartError::OtherDesign);
        }
        let has_tiles = part.has_tiles(&self.chip);
        let joined = self.with(own, has_tiles)?;
        Ok(joined)
    }

    /// The fill library of the places of all parts that are taken.
    ///
    /// # Errors
    /// `AllocError` where memory is refused.
    pub fn text(&self, alloc: Global) -> Result<Vec<u8>, AllocError>
        requires joined { IsJoinedSo self.now }
        requires some { 0 < self.now.taken }
        ensures { IfOk result (λ text. (d : Design) × (design_of self.now.first ≡ Some d) × (text.items ≡ fill_text d.0 d.1 (chip_values self.now.chip) (filled_in self.now.fills.items))) }
    {
        let first = self.first.as_ref().unwrap();
        let strips = strips_of(alloc, &self.fills)?;
        let sheet = Sheet {
            rules: &first.rules,
            up: self.chip.place_rows(),
            strips: &strips,
        };
        sheet_library(alloc, &first.units, &first.dates, &sheet)
    }
}
