//! The value of each rule. Lengths, gaps and coordinates are in database units.
ghost use Rattle.std.specs.Prelude.{◌≡◌, true, IfOk, IfSome, option_map};
ghost use Rattle.fill_base.specs.Sides.{sides_of};
ghost use Rattle.fill_raster.specs.Lattice.{KeepsPitch};
ghost use Rattle.fill_text.specs.Keys.{IsWithin};
ghost use Rattle.fill_text.specs.Limits.{AreShares};
ghost use Rattle.fill_text.specs.Rules as spec;
ghost use Rattle.fill_text.specs.Rules.{value_of};
ghost use Rattle.fill_text.specs.ValuesOfRules.{values_of};

use crate::keys::{AlsoKey, NumberKey};
use crate::limits::Limits;
use crate::rules::Rules;
use fill_area::Windows;
use fill_base::{Layer, Rect};
use fill_raster::Raster;
use std::alloc::{AllocError, Global};

/// The first layer, if there is one, and then the others.
fn listed(alloc: Global, first: Option<Layer>, others: &[Layer]) -> Result<Vec<Layer>, AllocError>
    ensures { IfOk result (λ layers. layers.items ≡ spec.behind first others.now) }
{
    let mut layers = Vec::new(alloc);
    if let Some(first) = first {
        layers.push(first)?;
    }
    layers.extend_from_slice(others)?;
    Ok(layers)
}

impl Rules {
    /// The frame, in which every fill box lies.
    pub fn frame(&self) -> Rect
        ensures { sides_of result ≡ spec.frame_of (values_of self.now).numbers }
    {
        self.frame
    }

    /// The density windows.
    pub fn windows(&self) -> Windows
        ensures { result ≡ spec.windows_of (values_of self.now) }
    {
        self.windows
    }

    /// The places where a fill box may stand, and their tiles.
    pub fn raster(&self) -> Raster
        ensures raster { result ≡ spec.raster_of (values_of self.now).numbers }
        ensures pitch { KeepsPitch result (value_of (values_of self.now) NumberKey.FillSpacing) }
    {
        self.raster
    }

    /// The frame's left edge.
    pub fn frame_x1(&self) -> i64
        ensures value { result ≡ value_of (values_of self.now) NumberKey.FrameX1 }
        ensures range { IsWithin NumberKey.FrameX1 result }
    {
        self.number(NumberKey::FrameX1)
    }

    /// The frame's lower edge.
    pub fn frame_y1(&self) -> i64
        ensures value { result ≡ value_of (values_of self.now) NumberKey.FrameY1 }
        ensures range { IsWithin NumberKey.FrameY1 result }
    {
        self.number(NumberKey::FrameY1)
    }

    /// The frame's right edge.
    pub fn frame_x2(&self) -> i64
        ensures value { result ≡ value_of (values_of self.now) NumberKey.FrameX2 }
        ensures range { IsWithin NumberKey.FrameX2 result }
    {
        self.number(NumberKey::FrameX2)
    }

    /// The frame's upper edge.
    pub fn frame_y2(&self) -> i64
        ensures value { result ≡ value_of (values_of self.now) NumberKey.FrameY2 }
        ensures range { IsWithin NumberKey.FrameY2 result }
    {
        self.number(NumberKey::FrameY2)
    }

    /// The width of a fill box, 1 to 2^20.
    pub fn box_w(&self) -> i64
        ensures value { result ≡ value_of (values_of self.now) NumberKey.BoxW }
        ensures range { IsWithin NumberKey.BoxW result }
    {
        self.number(NumberKey::BoxW)
    }

    /// The height of a fill box, 1 to 2^20.
    pub fn box_h(&self) -> i64
        ensures value { result ≡ value_of (values_of self.now) NumberKey.BoxH }
        ensures range { IsWithin NumberKey.BoxH result }
    {
        self.number(NumberKey::BoxH)
    }

    /// How far the next column of the raster is to the right, 1 to 2^20.
    pub fn step_x(&self) -> i64
        ensures value { result ≡ value_of (values_of self.now) NumberKey.StepX }
        ensures range { IsWithin NumberKey.StepX result }
    {
        self.number(NumberKey::StepX)
    }

    /// How far the next row of the raster is upwards, 1 to 2^20.
    pub fn step_y(&self) -> i64
        ensures value { result ≡ value_of (values_of self.now) NumberKey.StepY }
        ensures range { IsWithin NumberKey.StepY result }
    {
        self.number(NumberKey::StepY)
    }

    /// Where the boxes of the raster's column zero have their left edge.
    pub fn origin_x(&self) -> i64
        ensures value { result ≡ value_of (values_of self.now) NumberKey.OriginX }
        ensures range { IsWithin NumberKey.OriginX result }
    {
        self.number(NumberKey::OriginX)
    }

    /// Where the boxes of the raster's line zero have their lower edge.
    pub fn origin_y(&self) -> i64
        ensures value { result ≡ value_of (values_of self.now) NumberKey.OriginY }
        ensures range { IsWithin NumberKey.OriginY result }
    {
        self.number(NumberKey::OriginY)
    }

    /// The least gap between a fill box and drawn metal, 0 to 2^20.
    pub fn spacing(&self) -> i64
        ensures value { result ≡ value_of (values_of self.now) NumberKey.Spacing }
        ensures range { IsWithin NumberKey.Spacing result }
    {
        self.number(NumberKey::Spacing)
    }

    /// The least gap between two fill boxes, 0 to 2^20.
    pub fn fill_spacing(&self) -> i64
        ensures value { result ≡ value_of (values_of self.now) NumberKey.FillSpacing }
        ensures range { IsWithin NumberKey.FillSpacing result }
    {
        self.number(NumberKey::FillSpacing)
    }

    /// The width of a density window, 1 to 2^20.
    pub fn win_w(&self) -> i64
        ensures value { result ≡ value_of (values_of self.now) NumberKey.WinW }
        ensures range { IsWithin NumberKey.WinW result }
    {
        self.number(NumberKey::WinW)
    }

    /// The height of a density window, 1 to 2^20.
    pub fn win_h(&self) -> i64
        ensures value { result ≡ value_of (values_of self.now) NumberKey.WinH }
        ensures range { IsWithin NumberKey.WinH result }
    {
        self.number(NumberKey::WinH)
    }

    /// How far the next column of windows is to the right, 1 to 2^20.
    pub fn win_step_x(&self) -> i64
        ensures value { result ≡ value_of (values_of self.now) NumberKey.WinStepX }
        ensures range { IsWithin NumberKey.WinStepX result }
    {
        self.number(NumberKey::WinStepX)
    }

    /// How far the next row of windows is upwards, 1 to 2^20.
    pub fn win_step_y(&self) -> i64
        ensures value { result ≡ value_of (values_of self.now) NumberKey.WinStepY }
        ensures range { IsWithin NumberKey.WinStepY result }
    {
        self.number(NumberKey::WinStepY)
    }

    /// The left edge of the windows of the first column.
    pub fn win_x(&self) -> i64
        ensures value { result ≡ value_of (values_of self.now) NumberKey.WinX }
        ensures range { IsWithin NumberKey.WinX result }
    {
        self.number(NumberKey::WinX)
    }

    /// The lower edge of the windows of the first row.
    pub fn win_y(&self) -> i64
        ensures value { result ≡ value_of (values_of self.now) NumberKey.WinY }
        ensures range { IsWithin NumberKey.WinY result }
    {
        self.number(NumberKey::WinY)
    }

    /// How many columns of windows there are, 1 to 2^20.
    pub fn win_nx(&self) -> i64
        ensures value { result ≡ value_of (values_of self.now) NumberKey.WinNx }
        ensures range { IsWithin NumberKey.WinNx result }
    {
        self.number(NumberKey::WinNx)
    }

    /// How many rows of windows there are, 1 to 2^20.
    pub fn win_ny(&self) -> i64
        ensures value { result ≡ value_of (values_of self.now) NumberKey.WinNy }
        ensures range { IsWithin NumberKey.WinNy result }
    {
        self.number(NumberKey::WinNy)
    }

    /// The least density, in millionths.
    pub fn min(&self) -> i64
        ensures value { result ≡ value_of (values_of self.now) NumberKey.Min }
        ensures range { IsWithin NumberKey.Min result }
    {
        self.number(NumberKey::Min)
    }

    /// The greatest density, in millionths, at least the least one.
    pub fn max(&self) -> i64
        ensures value { result ≡ value_of (values_of self.now) NumberKey.Max }
        ensures range { IsWithin NumberKey.Max result }
    {
        self.number(NumberKey::Max)
    }

    /// The least and the greatest density.
    pub fn limits(&self) -> Limits
        ensures value { result ≡ spec.limits_of (values_of self.now) }
        ensures range { AreShares result }
    {
        Limits {
            least: self.min(),
            most: self.max(),
        }
    }

    /// How many columns of places a tile has, 1 to 4,096.
    pub fn tile_nx(&self) -> i64
        ensures value { result ≡ value_of (values_of self.now) NumberKey.TileNx }
        ensures range { IsWithin NumberKey.TileNx result }
    {
        self.number(NumberKey::TileNx)
    }

    /// How many rows of places a tile has, 1 to 4,096.
    pub fn tile_ny(&self) -> i64
        ensures value { result ≡ value_of (values_of self.now) NumberKey.TileNy }
        ensures range { IsWithin NumberKey.TileNy result }
    {
        self.number(NumberKey::TileNy)
    }

    /// The number of the checked layer, 0 to 65,535.
    pub fn layer(&self) -> i64
        ensures value { result ≡ value_of (values_of self.now) NumberKey.Layer }
        ensures range { IsWithin NumberKey.Layer result }
    {
        self.number(NumberKey::Layer)
    }

    /// The data type of the checked layer, 0 to 65,535.
    pub fn datatype(&self) -> i64
        ensures value { result ≡ value_of (values_of self.now) NumberKey.Datatype }
        ensures range { IsWithin NumberKey.Datatype result }
    {
        self.number(NumberKey::Datatype)
    }

    /// The data type of the fill boxes, 0 to 65,535.
    pub fn fill_datatype(&self) -> i64
        ensures value { result ≡ value_of (values_of self.now) NumberKey.FillDatatype }
        ensures range { IsWithin NumberKey.FillDatatype result }
    {
        self.number(NumberKey::FillDatatype)
    }

    /// The data type of the keep-outs, 0 to 65,535, if they have a layer.
    pub fn keep_datatype(&self) -> Option<i64>
        ensures value { result ≡ option_map (λ k. k.1) (values_of self.now).keep }
        ensures range { IfSome result (λ n. spec.is_layer n ≡ true) }
    {
        let (_, data_type) = self.keep?;
        Some(data_type)
    }

    /// Whether padding is ignored, so that what is out of the frame counts nothing; the key is `padding`.
    pub fn ignores_padding(&self) -> bool
        ensures { result ≡ (values_of self.now).ignores }
    {
        self.ignores
    }

    /// The checked layer.
    pub fn metal_layer(&self) -> Layer
        ensures { result ≡ spec.metal_layer (values_of self.now) }
    {
        Layer {
            layer: self.number(NumberKey::Layer) as u16,
            data_type: self.number(NumberKey::Datatype) as u16,
        }
    }

    /// The layer of the keep-outs, if there are any.
    pub fn keep_layer(&self) -> Option<Layer>
        ensures { result ≡ spec.keep_layer (values_of self.now) }
    {
        let (layer, data_type) = self.keep?;
        Some(Layer {
            layer: layer as u16,
            data_type: data_type as u16,
        })
    }

    /// The layers of the metal: the checked one, and then those of `also_metal`, in the order of the rule file.
    ///
    /// # Errors
    /// `AllocError` where memory is refused.
    pub fn metal_layers(&self, alloc: Global) -> Result<Vec<Layer>, AllocError>
        ensures { IfOk result (λ layers. layers.items ≡ spec.metal_layers (values_of self.now)) }
    {
        listed(
            alloc,
            Some(self.metal_layer()),
            self.also.of(AlsoKey::Metal),
        )
    }

    /// The layers of the existing fill, which the design brings: those of `also_fill`, in the order of the rule file.
    pub fn existing_layers(&self) -> &[Layer]
        ensures { result.now ≡ spec.existing_layers (values_of self.now) }
    {
        self.also.of(AlsoKey::Fill)
    }

    /// The layers of the keep-outs: the first, if there are any, and then those of `also_keep`, in the order of the rule file.
    ///
    /// # Errors
    /// `AllocError` where memory is refused.
    pub fn keep_layers(&self, alloc: Global) -> Result<Vec<Layer>, AllocError>
        ensures { IfOk result (λ layers. layers.items ≡ spec.keep_layers (values_of self.now)) }
    {
        listed(alloc, self.keep_layer(), self.also.of(AlsoKey::Keep))
    }

    /// The layer of the fill boxes.
    pub fn fill_layer(&self) -> Layer
        ensures { result ≡ spec.fill_layer (values_of self.now) }
    {
        Layer {
            layer: self.number(NumberKey::FillLayer) as u16,
            data_type: self.number(NumberKey::FillDatatype) as u16,
        }
    }

    /// The name of the design's top cell, 1 to 1,024 bytes.
    pub fn top(&self) -> &[u8]
        ensures { result.now ≡ (values_of self.now).top }
    {
        &self.texts.top
    }

    /// The name of the fill library, 1 to 32 of A-Z a-z 0-9 _ ? $.
    pub fn fill_lib(&self) -> &[u8]
        ensures value { result.now ≡ (values_of self.now).fill_lib }
        ensures allowed { spec.is_fill_name result.now ≡ true }
    {
        &self.texts.fill_lib
    }

    /// The name of the cell of one fill box, 1 to 32 of A-Z a-z 0-9 _ ? $.
    pub fn fill_cell(&self) -> &[u8]
        ensures value { result.now ≡ (values_of self.now).fill_cell }
        ensures allowed { spec.is_fill_name result.now ≡ true }
    {
        &self.texts.fill_cell
    }

    /// The name of the fill library's top cell, another one, 1 to 32 of A-Z a-z 0-9 _ ? $.
    pub fn fill_top(&self) -> &[u8]
        ensures value { result.now ≡ (values_of self.now).fill_top }
        ensures allowed { spec.is_fill_name result.now ≡ true }
    {
        &self.texts.fill_top
    }
}
