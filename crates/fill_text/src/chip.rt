//! The rules of a chip of any size, and of some of its rows alone.
ghost use Rattle.std.specs.Prelude.{◌≡◌, true, None};
ghost use Rattle.fill_text.specs.Chips.{chip_faults};
ghost use Rattle.fill_text.specs.Refusals.{first_some};
ghost use Rattle.fill_text.specs.Rules.{are_layers};
ghost use Rattle.fill_text.specs.ValuesOfRules.{values_from};

use crate::keys::NumberKey;
use crate::rule_error::RuleError;
use crate::rule_file::checked;
use crate::rules::{AlsoLayers, KeyValues, Numbers, Rules, Texts};
use std::alloc::Global;

/// The rows of tiles and of windows that are left of a chip: the frame's edges below and above them, in database units,
/// and which windows there are.
#[derive(Clone, Copy, Debug, PartialEq, Eq)]
pub struct ChipRows {
    /// The frame's lower edge.
    pub bottom: i64,
    /// The frame's upper edge.
    pub top: i64,
    /// The lower edge of the windows of the first row.
    pub first_window: i64,
    /// How many rows of windows there are.
    pub windows: u32,
}

/// The rules of a chip of any size: the value of each key of a rule file, however many windows and places they make.
#[derive(Debug, Drop)]
pub struct ChipRules {
    pub(crate) numbers: Numbers,
    pub(crate) texts: Texts,
    pub(crate) also: AlsoLayers,
    pub(crate) keep: Option<(i64, i64)>,
    pub(crate) ignores: bool,
    pub ghost faultless: { first_some (chip_faults (values_from numbers texts also keep ignores)) ≡ None },
    pub ghost layered: { are_layers keep ≡ true },
}

impl ChipRules {
    ghost use Rattle.fill_area.specs.Axes as areas;
    ghost use Rattle.fill_area.specs.Axes.{IsCount};
    ghost use Rattle.fill_base.specs.Coordinates.{IsCoordinate};
    ghost use Rattle.fill_raster.specs.Axes.{IsAxis};
    ghost use Rattle.fill_text.specs.Chips.{AreChipNumbers, judged, with_rows};
    ghost use Rattle.fill_text.specs.Refusals.{Gives};
    ghost use Rattle.fill_text.specs.Rules.{raster_of, whole_windows};
    ghost use Rattle.fill_text.specs.ValuesOfChips.{chip_values};
    ghost use Rattle.fill_text.specs.ValuesOfRules.{values_of};

    /// The windows of a column, upwards.
    pub fn window_rows(&self) -> fill_area::Axis
        ensures value { result ≡ (whole_windows (chip_values self.now).numbers).up }
        ensures axis { areas.IsAxis result }
    {
        self.keeps_faultless();
        self.numbers.windows_up()
    }

    /// The places of a column of the raster, upwards.
    pub fn place_rows(&self) -> fill_raster::Axis
        ensures value { result ≡ (raster_of (chip_values self.now).numbers).up }
        ensures axis { IsAxis result }
    {
        self.keeps_faultless();
        self.numbers.places_up()
    }

    /// Whether what lies beside the frame counts nothing.
    pub fn ignores_padding(&self) -> bool
        ensures { result ≡ (chip_values self.now).ignores }
    {
        self.ignores
    }

    /// The values have no fault, and their numbers are those that a plan of any size asks for. This does nothing when it
    /// runs: its contract is the law.
    pub fn keeps_faultless(&self)
        ensures faultless { first_some (chip_faults (chip_values self.now)) ≡ None }
        ensures numbers { AreChipNumbers (chip_values self.now) }
    {}

    /// The rules of a part of the chip: the same values, but with these rows.
    ///
    /// # Errors
    /// The first refusal of the rules with these rows: `BadRect` for a frame that holds no square, `BadWindows` for more
    /// than 2^20 windows or one that leaves the coordinates, and `TooManyPlaces` for more than 2^24 places for a box in the
    /// frame. `Memory` where memory runs out.
    pub fn with_rows(&self, alloc: Global, rows: ChipRows) -> Result<Rules, RuleError>
        requires bottom { IsCoordinate rows.bottom }
        requires top { IsCoordinate rows.top }
        requires first_window { IsCoordinate rows.first_window }
        requires windows { IsCount rows.windows }
        ensures { Gives RuleError.Memory values_of result (judged (with_rows (chip_values self.now) rows)) }
    {
        checked(KeyValues {
            numbers: self.numbers_with(rows),
            texts: self.texts.copy(alloc)?,
            also: self.also.copy(alloc)?,
            keep: self.keep,
            ignores: self.ignores,
        })
    }

    /// The numbers with these rows.
    fn numbers_with(&self, rows: ChipRows) -> Numbers
        requires bottom { IsCoordinate rows.bottom }
        requires top { IsCoordinate rows.top }
        requires first_window { IsCoordinate rows.first_window }
        requires windows { IsCount rows.windows }
        ensures { result.values ≡ (with_rows (chip_values self.now) rows).numbers }
    {
        self.numbers
            .with_value(NumberKey::FrameY1, rows.bottom)
            .with_value(NumberKey::FrameY2, rows.top)
            .with_value(NumberKey::WinY, rows.first_window)
            .with_value(NumberKey::WinNy, i64::from(rows.windows))
    }
}
