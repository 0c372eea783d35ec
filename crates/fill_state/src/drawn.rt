//! What counts of a design after edits: its metal and its existing fill.
ghost use Rattle.std.specs.Prelude.{◌≡◌, ◌<◌, ◌&&◌, not, ℤ, pos, IfOk};
ghost use Rattle.fill_base.specs.Squares.{squares, area_of};
ghost use Rattle.fill_area.specs.Density.{window_area};
ghost use Rattle.fill_region.specs.Runs.{holds};
ghost use Rattle.fill_core.specs.Machine.{metal_after};
ghost use Rattle.fill_state.specs.Layers.{in_layer, is_drawn};
ghost use Rattle.fill_state.specs.steps.Beside.{beside_after};

use crate::layer::EditedLayer;
use fill_area::Windows;
use fill_base::Rect;
use fill_job::Piece;
use fill_region::Region;
use fill_text::Edit;
use std::alloc::{AllocError, Global};
use std::marker::Model;

/// The metal of a design after edits, and its existing fill, which no edit changes: a cut of metal takes nothing off it. What of the
/// existing fill isn't metal too is kept as a layer of its own, so an area is the sum of two, and where there is no existing fill
/// nothing is kept for it.
#[derive(Drop)]
pub struct DrawnLayer {
    metal: EditedLayer,
    existing: Piece,
    beside: EditedLayer,
}

impl Model for DrawnLayer {
    ghost use Rattle.fill_state.specs.Layers.{Drawn};
    ghost use Rattle.fill_state.specs.steps.Beside.{LiesBeside};

    ghost Value = { Drawn };

    ghost view = { λ d. record { metal = d.metal; existing = d.existing } };

    ghost invariant = { λ d. LiesBeside (record { metal = d.metal; existing = d.existing }) d.beside };
}

/// What of the existing fill isn't metal: its own piece once more where there is none.
fn bare(alloc: Global, metal: &Piece, existing: &Piece) -> Result<Piece, AllocError>
    ensures { IfOk result (λ p. (x y : ℤ) → holds p x y ≡ holds existing.now x y && not (holds metal.now x y)) }
{
    if existing.region().is_empty() {
        return existing.share();
    }
    Piece::new(alloc, existing.region().minus(alloc, metal.region())?)
}

/// Metal after an edit.
fn metal_edited(alloc: Global, metal: &EditedLayer, edit: Edit) -> Result<EditedLayer, AllocError>
    ensures { IfOk result (λ l. (x y : ℤ) → in_layer l x y ≡ metal_after edit (in_layer metal.now) x y) }
{
    match edit {
        Edit::Add(rect) => metal.with_rect(alloc, &rect),
        Edit::Cut(rect) => metal.without_rect(alloc, &rect),
        Edit::Keep(_) => metal.copy(alloc),
    }
}

/// What of the existing fill isn't metal after an edit.
fn beside_edited(
    alloc: Global,
    existing: &Region,
    beside: &EditedLayer,
    edit: Edit,
) -> Result<EditedLayer, AllocError>
    ensures { IfOk result (λ l. (x y : ℤ) → in_layer l x y ≡ beside_after edit (holds existing.now) (in_layer beside.now) x y) }
{
    match edit {
        Edit::Add(rect) => beside.without_rect(alloc, &rect),
        Edit::Cut(rect) => beside.with_part(alloc, existing, &rect),
        Edit::Keep(_) => beside.copy(alloc),
    }
}

impl DrawnLayer {
    /// The metal and the existing fill before any edit.
    ///
    /// # Errors
    /// `AllocError` where memory is refused.
    pub fn open(alloc: Global, metal: Piece, existing: Piece) -> Result<DrawnLayer, AllocError>
        ensures metal { IfOk result (λ d. (x y : ℤ) → in_layer d.metal x y ≡ holds metal x y) }
        ensures existing { IfOk result (λ d. d.existing ≡ existing) }
    {
        let beside = bare(alloc, &metal, &existing)?;
        Ok(DrawnLayer {
            metal: EditedLayer::open(alloc, metal),
            existing,
            beside: EditedLayer::open(alloc, beside),
        })
    }

    /// The metal.
    pub fn metal(&self) -> &EditedLayer
        ensures { result.now ≡ self.now.metal }
    {
        &self.metal
    }

    /// Metal and existing fill after an edit.
    ///
    /// # Errors
    /// `AllocError` where memory is refused.
    pub fn after(&self, alloc: Global, edit: Edit) -> Result<DrawnLayer, AllocError>
        ensures metal { IfOk result (λ d. (x y : ℤ) → in_layer d.metal x y ≡ metal_after edit (in_layer self.now.metal) x y) }
        ensures existing { IfOk result (λ d. d.existing ≡ self.now.existing) }
    {
        Ok(DrawnLayer {
            metal: metal_edited(alloc, &self.metal, edit)?,
            existing: self.existing.share()?,
            beside: beside_edited(alloc, self.existing.region(), &self.beside, edit)?,
        })
    }

    /// What of a rectangle is metal or existing fill.
    ///
    /// # Errors
    /// `AllocError` where memory is refused.
    pub fn clip(&self, alloc: Global, rect: &Rect) -> Result<Region, AllocError>
        ensures squares { IfOk result (λ r. (x y : ℤ) → holds r x y ≡ is_drawn self.now x y && squares rect.now x y) }
    {
        let metal = self.metal.clip(alloc, rect)?;
        let existing = self.existing.region().clip(alloc, rect)?;
        if existing.is_empty() {
            return Ok(metal);
        }
        metal.union(alloc, &existing)
    }

    /// What of a rectangle is metal and no existing fill.
    ///
    /// # Errors
    /// `AllocError` where memory is refused.
    pub fn metal_alone(&self, alloc: Global, rect: &Rect) -> Result<Region, AllocError>
        ensures squares { IfOk result (λ r. (x y : ℤ) → holds r x y ≡ (in_layer self.now.metal x y && not (holds self.now.existing x y)) && squares rect.now x y) }
    {
        let metal = self.metal.clip(alloc, rect)?;
        let existing = self.existing.region().clip(alloc, rect)?;
        if existing.is_empty() {
            return Ok(metal);
        }
        metal.minus(alloc, &existing)
    }

    /// How many squares of the window are metal or existing fill. Takes no memory.
    pub fn area_in(&self, window: &Rect) -> i64
        ensures { result ≡ pos (area_of (is_drawn self.now) window.now) }
    {
        self.metal.area_in(window) + self.beside.area_in(window)
    }

    /// How many squares that count of the window in a column and a row are metal or existing fill. Takes no memory.
    pub fn counted_in(&self, windows: &Windows, column: u32, row: u32) -> i64
        requires column { column < windows.now.across.count }
        requires row { row < windows.now.up.count }
        ensures { result ≡ pos (window_area (is_drawn self.now) windows.now column row) }
    {
        match windows.part(column, row) {
            Some(window) => self.area_in(&window),
            None => 0,
        }
    }
}
