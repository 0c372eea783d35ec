//! What an edit makes of metal.
ghost use Rattle.std.specs.Prelude.{◌≡◌, ◌&&◌, ℤ, true, false, not, IfOk};
ghost use Rattle.fill_base.specs.Squares.{squares};
ghost use Rattle.fill_region.specs.Runs.{holds};
ghost use Rattle.fill_sums.specs.declared.moving.Way.TheVariants.{Up, Down};

use crate::moving::Way;
use fill_base::Rect;
use fill_region::Region;
use std::alloc::{AllocError, Global};

/// Metal that comes or goes, within a rectangle.
#[derive(Drop)]
pub struct Difference {
    /// Whether it comes or goes.
    pub way: Way,
    /// The way back.
    pub back: Way,
    /// The squares that come or go.
    pub metal: Region,
    /// A rectangle that has them all.
    pub within: Rect,
}

impl Difference {
    /// What of a rectangle is no metal yet comes.
    ///
    /// # Errors
    /// `AllocError` where memory is refused.
    pub fn added(alloc: Global, metal: &Region, rect: Rect) -> Result<Difference, AllocError>
        ensures way { IfOk result (λ d. d.way ≡ Up) }
        ensures back { IfOk result (λ d. d.back ≡ Down) }
        ensures metal { IfOk result (λ d. (x y : ℤ) → holds d.metal x y ≡ (squares rect x y && not (holds metal.now x y))) }
        ensures within { IfOk result (λ d. (x y : ℤ) → holds d.metal x y ≡ true → squares d.within x y ≡ true) }
    {
        Ok(Difference {
            way: Way::Up,
            back: Way::Down,
            metal: Region::one(alloc, &rect)?.minus(alloc, &metal.clip(alloc, &rect)?)?,
            within: rect,
        })
    }

    /// What of a rectangle is metal goes.
    ///
    /// # Errors
    /// `AllocError` where memory is refused.
    pub fn cut(alloc: Global, metal: &Region, rect: Rect) -> Result<Difference, AllocError>
        ensures way { IfOk result (λ d. d.way ≡ Down) }
        ensures back { IfOk result (λ d. d.back ≡ Up) }
        ensures metal { IfOk result (λ d. (x y : ℤ) → holds d.metal x y ≡ (holds metal.now x y && squares rect x y)) }
        ensures within { IfOk result (λ d. (x y : ℤ) → holds d.metal x y ≡ true → squares d.within x y ≡ true) }
    {
        Ok(Difference {
            way: Way::Down,
            back: Way::Up,
            metal: metal.clip(alloc, &rect)?,
            within: rect,
        })
    }

    /// Nothing comes or goes.
    pub fn none(alloc: Global, rect: Rect) -> Difference
        ensures way { result.way ≡ Up }
        ensures back { result.back ≡ Down }
        ensures metal { (x y : ℤ) → holds result.metal x y ≡ false }
    {
        Difference {
            way: Way::Up,
            back: Way::Down,
            metal: Region::empty(alloc),
            within: rect,
        }
    }
}
