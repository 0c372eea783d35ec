//! The rules that a rule file gives: a number or a text for each key.
ghost use Rattle.std.specs.Prelude.{◌≡◌, ◌≤ℤ◌, ◌↔◌, ◌&&◌, true, false, [], bytes_eq, slice_set, IfOk, IsTrue, unsigned_abs};
ghost use Rattle.fill_base.specs.Sides.{sides_of};
ghost use Rattle.fill_raster.specs.Lattice.{KeepsPitch};
ghost use Rattle.fill_text.specs.Grids.{is_axis};
ghost use Rattle.fill_text.specs.Keys.{IsWithin, number_rule};
ghost use Rattle.fill_text.specs.Rasters as pitch;
ghost use Rattle.fill_text.specs.Rules as spec;
ghost use Rattle.fill_text.specs.declared.keys.NumberKey.{NumberKey};
ghost use Rattle.fill_text.specs.declared.keys.TextKey.TheVariants as TextKey;

use crate::keys::{AlsoKey, NUMBER_COUNT, NumberKey};
use fill_area::Windows;
use fill_base::{Layer, Rect};
use fill_raster::Raster;
use std::alloc::{AllocError, Global};

/// The numbers of the rules, each in the range of its key.
#[derive(Clone, Copy, Debug, PartialEq, Eq)]
pub struct Numbers {
    values: [i64; NUMBER_COUNT],
    pub ghost low: { (key : NumberKey) → (number_rule key).low ≤ℤ spec.number_in values key },
    pub ghost high: { (key : NumberKey) → spec.number_in values key ≤ℤ (number_rule key).high },
}

impl Numbers {
    /// The numbers at the indices of their keys.
    pub fn new(values: [i64; NUMBER_COUNT]) -> Numbers
        requires low { (key : NumberKey) → (number_rule key).low ≤ℤ spec.number_in values key }
        requires high { (key : NumberKey) → spec.number_in values key ≤ℤ (number_rule key).high }
        ensures { result.values ≡ values }
    {
        Numbers { values }
    }

    /// The number of a key.
    pub fn value(&self, key: NumberKey) -> i64
        ensures { result ≡ spec.number_in self.now.values key }
    {
        self.values[key.index()]
    }

    /// How many columns of windows there are.
    pub fn window_columns(&self) -> u32
        ensures { result ≡ unsigned_abs (spec.number_in self.now.values NumberKey.WinNx) }
    {
        self.value(NumberKey::WinNx) as u32
    }

    /// How many rows of windows there are.
    pub fn window_rows(&self) -> u32
        ensures { result ≡ unsigned_abs (spec.number_in self.now.values NumberKey.WinNy) }
    {
        self.value(NumberKey::WinNy) as u32
    }

    /// The windows of a row, from left to right.
    pub(crate) fn windows_across(&self) -> fill_area::Axis
        ensures { result ≡ (spec.whole_windows self.now.values).across }
    {
        fill_area::Axis {
            first: self.value(NumberKey::WinX),
            length: self.value(NumberKey::WinW),
            step: self.value(NumberKey::WinStepX),
            count: self.window_columns(),
        }
    }

    /// The windows of a column, upwards.
    pub(crate) fn windows_up(&self) -> fill_area::Axis
        ensures { result ≡ (spec.whole_windows self.now.values).up }
    {
        fill_area::Axis {
            first: self.value(NumberKey::WinY),
            length: self.value(NumberKey::WinH),
            step: self.value(NumberKey::WinStepY),
            count: self.window_rows(),
        }
    }

    /// The places of a column of the raster, upwards.
    pub(crate) fn places_up(&self) -> fill_raster::Axis
        ensures { result ≡ (spec.raster_of self.now.values).up }
    {
        fill_raster::Axis {
            low: self.value(NumberKey::FrameY1),
            high: self.value(NumberKey::FrameY2),
            length: self.value(NumberKey::BoxH),
            step: self.value(NumberKey::StepY),
            origin: self.value(NumberKey::OriginY),
            band: self.tile_rows(),
        }
    }

    /// Whether each window lies within the coordinates.
    pub(crate) fn has_windows_within(&self) -> bool
        ensures { result ≡ (is_axis (spec.whole_windows self.now.values).across && is_axis (spec.whole_windows self.now.values).up) }
    {
        self.windows_across().is_within() & self.windows_up().is_within()
    }

    /// Whether both steps are at least the side of a box and the fill spacing.
    pub(crate) fn keeps_pitch(&self) -> bool
        ensures { result ≡ pitch.keeps_pitch (spec.raster_of self.now.values) (spec.number_in self.now.values NumberKey.FillSpacing) }
    {
        let spacing = self.value(NumberKey::FillSpacing);
        let across = self.value(NumberKey::BoxW) + spacing <= self.value(NumberKey::StepX);
        let up = self.value(NumberKey::BoxH) + spacing <= self.value(NumberKey::StepY);
        across & up
    }

    /// The same numbers, but this one for a key.
    pub(crate) fn with_value(&self, key: NumberKey, number: i64) -> Numbers
        requires { IsWithin key number }
        ensures { result.values ≡ slice_set self.now.values (number_rule key).index number }
    {
        let mut values = self.values;
        values[key.index()] = number;
        Numbers::new(values)
    }

    /// How many columns of places a tile has.
    pub fn tile_columns(&self) -> u32
        ensures { result ≡ unsigned_abs (spec.number_in self.now.values NumberKey.TileNx) }
    {
        self.value(NumberKey::TileNx) as u32
    }

    /// How many rows of places a tile has.
    pub fn tile_rows(&self) -> u32
        ensures { result ≡ unsigned_abs (spec.number_in self.now.values NumberKey.TileNy) }
    {
        self.value(NumberKey::TileNy) as u32
    }
}

/// The texts of the rules.
#[derive(Debug, Drop, PartialEq, Eq)]
pub struct Texts {
    /// The name of the design's top cell.
    pub top: Vec<u8>,
    /// The name of the fill library.
    pub fill_lib: Vec<u8>,
    /// The name of the cell of one fill box.
    pub fill_cell: Vec<u8>,
    /// The name of the fill library's top cell.
    pub fill_top: Vec<u8>,
    pub ghost top_allowed: { spec.is_text TextKey.Top top.items ≡ true },
    pub ghost fill_lib_allowed: { spec.is_text TextKey.FillLib fill_lib.items ≡ true },
    pub ghost fill_cell_allowed: { spec.is_text TextKey.FillCell fill_cell.items ≡ true },
    pub ghost fill_top_allowed: { spec.is_text TextKey.FillTop fill_top.items ≡ true },
}

/// The further layers of the metal, the layers of fill that the design brings, and the further layers of the keep-outs: each list in
/// the order of the rule file.
#[derive(Debug, Drop, PartialEq, Eq)]
pub struct AlsoLayers {
    /// Those of the metal.
    pub metal: Vec<Layer>,
    /// Those of the existing fill.
    pub fill: Vec<Layer>,
    /// Those of the keep-outs.
    pub keep: Vec<Layer>,
}

/// The value of each key of a rule file, before anything is asked of them together.
#[derive(Drop)]
pub(crate) struct KeyValues {
    pub(crate) numbers: Numbers,
    pub(crate) texts: Texts,
    pub(crate) also: AlsoLayers,
    pub(crate) keep: Option<(i64, i64)>,
    pub(crate) ignores: bool,
    pub ghost layered: { spec.are_layers keep ≡ true },
}

/// The rules of a check and a fill: the value of each key of a rule file, and the frame, the windows and the raster that
/// they make.
#[derive(Drop)]
#[derive_where(Debug, PartialEq, Eq)]
pub struct Rules {
    pub(crate) numbers: Numbers,
    pub(crate) texts: Texts,
    pub(crate) also: AlsoLayers,
    pub(crate) keep: Option<(i64, i64)>,
    pub(crate) ignores: bool,
    // These follow from the numbers, so a comparison leaves them out.
    #[derive_where(skip(EqHashOrd))]
    pub(crate) frame: Rect,
    #[derive_where(skip(EqHashOrd))]
    pub(crate) windows: Windows,
    #[derive_where(skip(EqHashOrd))]
    pub(crate) raster: Raster,
    pub ghost windowed: { windows ≡ spec.windows_with numbers.values ignores },
    pub ghost placed: { raster ≡ spec.raster_of numbers.values },
    pub ghost pitched: { KeepsPitch (spec.raster_of numbers.values) (spec.number_in numbers.values NumberKey.FillSpacing) },
    pub ghost apart: { bytes_eq texts.fill_top.items texts.fill_cell.items ≡ false },
    pub ghost framed: { sides_of frame ≡ spec.frame_of numbers.values },
    pub ghost layered: { spec.are_layers keep ≡ true },
}

impl Texts {
    ghost use Rattle.fill_text.specs.ValuesOfRules.{SameTexts};

    /// The same texts once more.
    pub(crate) fn copy(&self, alloc: Global) -> Result<Texts, AllocError>
        ensures { IfOk result (λ t. SameTexts t self.now) }
    {
        Ok(Texts {
            top: self.top.to_vec(alloc)?,
            fill_lib: self.fill_lib.to_vec(alloc)?,
            fill_cell: self.fill_cell.to_vec(alloc)?,
            fill_top: self.fill_top.to_vec(alloc)?,
        })
    }
}

impl AlsoLayers {
    ghost use Rattle.fill_text.specs.ValuesOfRules.{SameLayers, also_of};

    /// No layer yet.
    pub(crate) fn new(alloc: Global) -> AlsoLayers
        ensures metal { result.metal.items ≡ [] }
        ensures fill { result.fill.items ≡ [] }
        ensures keep { result.keep.items ≡ [] }
    {
        AlsoLayers {
            metal: Vec::new(alloc),
            fill: Vec::new(alloc),
            keep: Vec::new(alloc),
        }
    }

    /// The layers of a key.
    pub(crate) fn of(&self, key: AlsoKey) -> &[Layer]
        ensures { result.now ≡ also_of self.now key }
    {
        match key {
            AlsoKey::Metal => &self.metal,
            AlsoKey::Fill => &self.fill,
            AlsoKey::Keep => &self.keep,
        }
    }

    /// The same layers once more.
    pub(crate) fn copy(&self, alloc: Global) -> Result<AlsoLayers, AllocError>
        ensures { IfOk result (λ a. SameLayers a self.now) }
    {
        Ok(AlsoLayers {
            metal: self.metal.to_vec(alloc)?,
            fill: self.fill.to_vec(alloc)?,
            keep: self.keep.to_vec(alloc)?,
        })
    }
}

impl Rules {
    ghost use Rattle.fill_text.specs.ValuesOfRules.{values_of};

    /// The number of a key.
    pub fn number(&self, key: NumberKey) -> i64
        ensures value { result ≡ spec.value_of (values_of self.now) key }
        ensures low { (number_rule key).low ≤ℤ result }
        ensures high { result ≤ℤ (number_rule key).high }
    {
        self.numbers.value(key)
    }

    /// The same rules once more.
    ///
    /// # Errors
    /// `AllocError` where memory is refused.
    pub fn copy(&self, alloc: Global) -> Result<Rules, AllocError>
        ensures { IfOk result (λ r. values_of r ≡ values_of self.now) }
    {
        Ok(Rules {
            numbers: self.numbers,
            texts: self.texts.copy(alloc)?,
            also: self.also.copy(alloc)?,
            keep: self.keep,
            ignores: self.ignores,
            frame: self.frame,
            windows: self.windows,
            raster: self.raster,
        })
    }

    /// Whether all values are the same, which `==` tells.
    pub fn same_as(&self, other: &Rules) -> bool
        ensures { IsTrue result ↔ (values_of self.now ≡ values_of other.now) }
    {
        self == other
    }
}
