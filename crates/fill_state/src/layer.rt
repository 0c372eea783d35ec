//! A layer of a design after edits.
ghost use Rattle.std.specs.Prelude.{◌≡◌, ◌&&◌, ◌||◌, not, ℤ, pos, true, IfOk};
ghost use Rattle.fill_base.specs.Squares.{squares, area_of};
ghost use Rattle.fill_region.specs.Runs.{holds};
ghost use Rattle.fill_state.specs.Layers.{in_layer};

use fill_area::area_in;
use fill_base::Rect;
use fill_job::Piece;
use fill_region::Region;
use std::alloc::{AllocError, Global};
use std::marker::Model;

/// The squares of a layer, in database units: those that it was opened with, but for what edits cut of them, and what edits added.
/// What it was opened with is held together with the forms before, so an edit takes the memory of what edits have touched,
/// however large the layer is.
#[derive(Drop)]
pub struct EditedLayer {
    opening: Piece,
    cut: Region,
    added: Region,
}

impl Model for EditedLayer {
    ghost use Rattle.fill_state.specs.Layers.{Layered, IsLayered};

    ghost Value = { Layered };

    ghost view = { λ l. record { opening = l.opening; cut = l.cut; added = l.added } };

    ghost invariant = { λ l. IsLayered (record { opening = l.opening; cut = l.cut; added = l.added }) };
}

impl EditedLayer {
    /// The layer before any edit.
    pub fn open(alloc: Global, opening: Piece) -> EditedLayer
        ensures squares { (x y : ℤ) → in_layer result x y ≡ holds opening x y }
    {
        EditedLayer {
            opening,
            cut: Region::empty(alloc),
            added: Region::empty(alloc),
        }
    }

    /// The same layer once more.
    ///
    /// # Errors
    /// `AllocError` where memory is refused.
    pub fn copy(&self, alloc: Global) -> Result<EditedLayer, AllocError>
        ensures { IfOk result (λ l. l ≡ self.now) }
    {
        Ok(EditedLayer {
            opening: self.opening.share()?,
            cut: self.cut.copy(alloc)?,
            added: self.added.copy(alloc)?,
        })
    }

    /// The squares of the layer, and those of a region that lies within a rectangle.
    fn with_squares(
        &self,
        alloc: Global,
        region: &Region,
        within: &Rect,
    ) -> Result<EditedLayer, AllocError>
        requires { (x y : ℤ) → holds region.now x y ≡ true → squares within.now x y ≡ true }
        ensures squares { IfOk result (λ l. (x y : ℤ) → in_layer l x y ≡ in_layer self.now x y || holds region.now x y) }
    {
        let there = self.opening.region().clip(alloc, within)?;
        let beside = region.minus(alloc, &there)?;
        Ok(EditedLayer {
            opening: self.opening.share()?,
            cut: self.cut.minus(alloc, region)?,
            added: self.added.union(alloc, &beside)?,
        })
    }

    /// The squares of the layer, and those of a rectangle.
    ///
    /// # Errors
    /// `AllocError` where memory is refused.
    pub fn with_rect(&self, alloc: Global, rect: &Rect) -> Result<EditedLayer, AllocError>
        ensures squares { IfOk result (λ l. (x y : ℤ) → in_layer l x y ≡ in_layer self.now x y || squares rect.now x y) }
    {
        self.with_squares(alloc, &Region::one(alloc, rect)?, rect)
    }

    /// The squares of the layer, and those of a region within a rectangle.
    ///
    /// # Errors
    /// `AllocError` where memory is refused.
    pub fn with_part(
        &self,
        alloc: Global,
        region: &Region,
        rect: &Rect,
    ) -> Result<EditedLayer, AllocError>
        ensures squares { IfOk result (λ l. (x y : ℤ) → in_layer l x y ≡ in_layer self.now x y || (holds region.now x y && squares rect.now x y)) }
    {
        self.with_squares(alloc, &region.clip(alloc, rect)?, rect)
    }

    /// The squares of the layer that aren't those of a rectangle.
    ///
    /// # Errors
    /// `AllocError` where memory is refused.
    pub fn without_rect(&self, alloc: Global, rect: &Rect) -> Result<EditedLayer, AllocError>
        ensures squares { IfOk result (λ l. (x y : ℤ) → in_layer l x y ≡ in_layer self.now x y && not (squares rect.now x y)) }
    {
        let there = self.opening.region().clip(alloc, rect)?;
        Ok(EditedLayer {
            opening: self.opening.share()?,
            cut: self.cut.union(alloc, &there)?,
            added: self.added.without_rect(alloc, rect)?,
        })
    }

    /// The squares of the layer within a rectangle.
    ///
    /// # Errors
    /// `AllocError` where memory is refused.
    pub fn clip(&self, alloc: Global, rect: &Rect) -> Result<Region, AllocError>
        ensures squares { IfOk result (λ r. (x y : ℤ) → holds r x y ≡ in_layer self.now x y && squares rect.now x y) }
    {
        let there = self.opening.region().clip(alloc, rect)?;
        let cut = self.cut.clip(alloc, rect)?;
        let added = self.added.clip(alloc, rect)?;
        there.minus(alloc, &cut)?.union(alloc, &added)
    }

    /// How many squares of the window are in the layer. Takes no memory.
    pub fn area_in(&self, window: &Rect) -> i64
        ensures { result ≡ pos (area_of (in_layer self.now) window.now) }
    {
        let there = area_in(self.opening.region(), window);
        there - area_in(&self.cut, window) + area_in(&self.added, window)
    }
}
