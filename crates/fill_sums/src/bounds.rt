//! The rectangle around a region.
ghost use Rattle.std.specs.Prelude.{◌≡◌, ℤ, true};
ghost use Rattle.fill_base.specs.Squares.{squares};
ghost use Rattle.fill_region.specs.Runs.{holds};

use fill_base::{HIGHEST, LOWEST, Rect};
use fill_region::Region;

/// A rectangle that holds every square of a region, by one walk over its runs. Of a region without squares it is some square.
pub(crate) fn bounds(region: &Region) -> Rect
    ensures { (x y : ℤ) → holds region.now x y ≡ true → squares result x y ≡ true }
{
    let (mut left, mut right) = (HIGHEST, LOWEST);
    let (mut bottom, mut top) = (HIGHEST, LOWEST);
    for run in region.runs() {
        left = left.min(run.x1());
        right = right.max(run.x2());
        bottom = bottom.min(run.y1());
        top = top.max(run.y2());
    }
    if (left < right) & (bottom < top) {
        Rect::from_edges(left, bottom, right, top)
    } else {
        Rect::from_edges(LOWEST, LOWEST, LOWEST + 1, LOWEST + 1)
    }
}
