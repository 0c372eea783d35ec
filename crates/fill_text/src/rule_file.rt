//! The reader of a rule file.
ghost use Rattle.std.specs.Prelude.{◌≡◌, true, get_or, None, option_map, IfOk, if◌then◌else◌};
ghost use Rattle.fill_text.specs.Chips.{chip_of};
ghost use Rattle.fill_text.specs.Refusals.{seen, Gives};
ghost use Rattle.fill_base.specs.Sides.{sides_of};
ghost use Rattle.fill_area.specs.Grid.{clipped_to};
ghost use Rattle.fill_text.specs.RectTests.{rect_with};
ghost use Rattle.fill_text.specs.Grids.{grid_with};
ghost use Rattle.fill_text.specs.Rasters.{raster_with};
ghost use Rattle.fill_text.specs.Rules as spec;
ghost use Rattle.fill_text.specs.Rules.{are_layers};
ghost use Rattle.fill_text.specs.steps.Entries as step;
ghost use Rattle.fill_text.specs.steps.Entries.{found_in};
ghost use Rattle.fill_text.specs.ValuesOfChips.{chip_values};
ghost use Rattle.fill_text.specs.ValuesOfRules.{key_values, values_of};

use crate::chip::ChipRules;
use crate::entries::Entries;
use crate::keys::{Key, NumberKey, OptionalKey, TextKey};
use crate::rows::rows;
use crate::rule_error::RuleError;
use crate::rules::{KeyValues, Numbers, Rules, Texts};
use crate::sides::rect_from;
use fill_area::Windows;
use fill_base::{Point, Rect};
use fill_raster::{Raster, RasterError};
use std::alloc::Global;

/// The frame that the numbers make, if it holds a square.
fn frame_in(numbers: &Numbers) -> Option<Rect>
    ensures { option_map sides_of result ≡ rect_with (spec.frame_of numbers.now.values) }
{
    rect_from(
        numbers.value(NumberKey::FrameX1),
        numbers.value(NumberKey::FrameY1),
        numbers.value(NumberKey::FrameX2),
        numbers.value(NumberKey::FrameY2),
    )
}

/// The windows that the numbers make, if there are at most 2^20, each within the coordinates.
fn windows_in(numbers: &Numbers) -> Option<Windows>
    ensures { result ≡ grid_with (spec.whole_windows numbers.now.values) }
{
    let origin = Point {
        x: numbers.value(NumberKey::WinX),
        y: numbers.value(NumberKey::WinY),
    };
    let size = (
        numbers.value(NumberKey::WinW),
        numbers.value(NumberKey::WinH),
    );
    let step = (
        numbers.value(NumberKey::WinStepX),
        numbers.value(NumberKey::WinStepY),
    );
    let count = (numbers.window_columns(), numbers.window_rows());
    Windows::new(origin, size, step, count).ok()
}

/// The raster that the numbers make in the frame.
fn raster_in(numbers: &Numbers, frame: Rect) -> Result<Raster, RuleError>
    requires { sides_of frame ≡ spec.frame_of numbers.now.values }
    ensures { result ≡ raster_with (spec.raster_of numbers.now.values) (spec.number_in numbers.now.values NumberKey.FillSpacing) }
{
    let size = (
        numbers.value(NumberKey::BoxW),
        numbers.value(NumberKey::BoxH),
    );
    let step = (
        numbers.value(NumberKey::StepX),
        numbers.value(NumberKey::StepY),
    );
    let origin = Point {
        x: numbers.value(NumberKey::OriginX),
        y: numbers.value(NumberKey::OriginY),
    };
    let fill_spacing = numbers.value(NumberKey::FillSpacing);
    let tile = (numbers.tile_columns(), numbers.tile_rows());
    match Raster::new(frame, size, step, origin, fill_spacing, tile) {
        Ok(raster) => Ok(raster),
        Err(RasterError::BadPitch) => Err(RuleError::BadPitch),
        Err(RasterError::TooManyPlaces) => Err(RuleError::TooManyPlaces),
    }
}

/// The windows, of which what is out of the frame counts nothing where it is ignored.
fn counted(windows: Windows, ignores: bool, frame: &Rect) -> Windows
    ensures { result ≡ if ignores then clipped_to windows (sides_of frame.now) else windows }
{
    if ignores {
        windows.clipped_to(frame)
    } else {
        windows
    }
}

/// What is asked of the densities and of the two cells' names.
#[tactic(auto, unfolding(crate::specs::steps::Entries::densities_and_cells))]
fn densities_and_cells(values: &KeyValues) -> Result<(), RuleError>
    ensures { result ≡ step.densities_and_cells (key_values values.now) }
{
    let numbers = &values.numbers;
    if numbers.value(NumberKey::Max) < numbers.value(NumberKey::Min) {
        return Err(RuleError::BadRule {
            key: Key::Number(NumberKey::Max),
        });
    }
    let texts = &values.texts;
    if texts.fill_top == texts.fill_cell {
        return Err(RuleError::BadRule {
            key: Key::Text(TextKey::FillTop),
        });
    }
    Ok(())
}

/// What is asked of the values together.
#[tactic(auto, unfolding(crate::specs::steps::Entries::checked))]
pub(crate) fn checked(values: KeyValues) -> Result<Rules, RuleError>
    ensures { seen values_of result ≡ step.checked (key_values values) }
{
    densities_and_cells(&values)?;
    let KeyValues {
        numbers,
        texts,
        also,
        keep,
        ignores,
    } = values;
    let frame = frame_in(&numbers).ok_or(RuleError::BadRect)?;
    let windows = windows_in(&numbers).ok_or(RuleError::BadWindows)?;
    let raster = raster_in(&numbers, frame)?;
    Ok(Rules {
        numbers,
        texts,
        also,
        keep,
        ignores,
        frame,
        windows: counted(windows, ignores, &frame),
        raster,
    })
}

/// What is asked of a chip's values together: as of rules, but not how many windows and places there are.
#[tactic(auto, unfolding(crate::specs::steps::Entries::checked_chip))]
fn checked_chip(values: KeyValues) -> Result<ChipRules, RuleError>
    ensures { seen chip_values result ≡ step.checked_chip (key_values values) }
{
    densities_and_cells(&values)?;
    let KeyValues {
        numbers,
        texts,
        also,
        keep,
        ignores,
    } = values;
    frame_in(&numbers).ok_or(RuleError::BadRect)?;
    if !numbers.has_windows_within() {
        return Err(RuleError::BadWindows);
    }
    if !numbers.keeps_pitch() {
        return Err(RuleError::BadPitch);
    }
    Ok(ChipRules {
        numbers,
        texts,
        also,
        keep,
        ignores,
    })
}

/// The values that were found, none of which may miss.
#[tactic(auto, unfolding(crate::specs::steps::Entries::all_values))]
fn all_values(entries: Entries) -> Result<KeyValues, RuleError>
    requires numbers { step.AreRanged (found_in entries).numbers }
    requires texts { step.AreAllowed (found_in entries).texts }
    requires optionals { step.AreOptional (found_in entries).optionals }
    ensures { seen key_values result ≡ step.all_values (found_in entries) }
{
    let numbers = Numbers::new(entries.all_numbers()?);
    let Entries {
        numbers: _,
        top,
        fill_lib,
        fill_cell,
        fill_top,
        optionals,
        also,
        padding,
    } = entries;
    let top = top.ok_or(missing(TextKey::Top))?;
    let fill_lib = fill_lib.ok_or(missing(TextKey::FillLib))?;
    let fill_cell = fill_cell.ok_or(missing(TextKey::FillCell))?;
    let fill_top = fill_top.ok_or(missing(TextKey::FillTop))?;
    let keep = keep_found(optionals, !also.keep.is_empty())?;
    Ok(KeyValues {
        numbers,
        texts: Texts {
            top,
            fill_lib,
            fill_cell,
            fill_top,
        },
        also,
        keep,
        ignores: padding.unwrap_or(false),
    })
}

/// The layer and the data type of the keep-outs, both or neither of which were found, and both where `further` layers were.
fn keep_found(optionals: [Option<i64>; 2], further: bool) -> Result<Option<(i64, i64)>, RuleError>
    requires { step.AreOptional optionals }
    ensures pair { result ≡ step.pair_found (get_or optionals 0 None) (get_or optionals 1 None) further }
    ensures layers { IfOk result (λ keep. are_layers keep ≡ true) }
{
    match (optionals[0], optionals[1]) {
        (Some(layer), Some(datatype)) => Ok(Some((layer, datatype))),
        (Some(_), None) => Err(RuleError::BadRule {
            key: Key::Optional(OptionalKey::KeepDatatype),
        }),
        (None, None) if !further => Ok(None),
        (None, _) => Err(RuleError::BadRule {
            key: Key::Optional(OptionalKey::KeepLayer),
        }),
    }
}

fn missing(key: TextKey) -> RuleError
    ensures { result ≡ RuleError.BadRule (Key.Text key) }
{
    RuleError::BadRule {
        key: Key::Text(key),
    }
}

/// The values that the records of a rule file give, each of which its key allows.
fn values_in(alloc: Global, text: &[u8]) -> Result<KeyValues, RuleError>
    ensures { Gives RuleError.Memory key_values result (step.values_in text.now) }
{
    let mut entries = Entries::new(alloc);
    let mut line = 0u64;
    for row in rows(alloc, text) {
        let row = row?;
        line += 1;
        entries.take_row(alloc, line, &row)?;
    }
    all_values(entries)
}

/// The rules of a rule file: records `key,value` of comma-separated fields with no header, in any order. Each key stands exactly
/// once, but those that may be left out, and those that may stand up to 63 times (this project's profile).
///
/// # Errors
/// The first refusal. Record by record: `BadRow` for other than two fields and for a key that is unknown or may not stand once
/// more, then `BadNumber` for a value that writes no number or no layer, then `BadRule` for one that its key doesn't allow. Then
/// `BadRule` for the first key in table order that is missing, for the first of `keep_layer` and `keep_datatype` that is missing
/// where the other or `also_keep` stands, for `max` below `min` and for `fill_top` equal to `fill_cell`; then `BadRect` for a
/// frame that holds no square, `BadWindows` for more than 2^20 windows or one that leaves the coordinates, `BadPitch` for a
/// step below the box's side and the fill spacing, and `TooManyPlaces` for more than 2^24 places for a box in the frame.
/// `Memory` where memory runs out.
pub fn read_rules(alloc: Global, text: &[u8]) -> Result<Rules, RuleError>
    ensures { Gives RuleError.Memory values_of result (spec.rules_of text.now) }
{
    checked(values_in(alloc, text)?)
}

/// The rules of a chip of any size, of a rule file as [`read_rules`] reads it, however many windows and places it asks for.
///
/// # Errors
/// The first refusal, in the order of [`read_rules`]; but `BadWindows` comes only for a window that leaves the coordinates,
/// and `TooManyPlaces` never. `Memory` where memory runs out.
pub fn read_chip_rules(alloc: Global, text: &[u8]) -> Result<ChipRules, RuleError>
    ensures { Gives RuleError.Memory chip_values result (chip_of text.now) }
{
    checked_chip(values_in(alloc, text)?)
}
