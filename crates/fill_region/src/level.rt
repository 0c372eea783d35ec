//! Those of a list of runs that lie level with some rows, found by a search.
ghost use Rattle.std.specs.Prelude.{◌≡◌, ℤ, ◌≤ℤ◌, ◌<ℤ◌};
ghost use Rattle.std.specs.List.{Contains};
ghost use Rattle.fill_spans.specs.Columns.{IsRisingBy};
ghost use Rattle.fill_region.specs.Near.{IsStretch, IsTallest};
ghost use Rattle.fill_region.specs.Squares.{covered};

use fill_base::{LOWEST, Rect};

/// The height of the tallest rectangle, in rows of squares: 0 where there is none.
pub(crate) fn tallest(rects: &[Rect]) -> i64
    ensures { IsTallest rects.now result }
{
    let mut height: i64 = 0;
    'rects: for rect in rects {
        height = height.max(rect.y2() - rect.y1());
    }
    height
}

/// The rectangles that have squares in the rows from `bottom` on and below `top`, with some that end below them: of those by their
/// lower edges what lies between two cuts, as none is taller than `height`.
pub(crate) fn level_with(rects: &[Rect], height: i64, bottom: i64, top: i64) -> &[Rect]
    requires rising { IsRisingBy (λ r. r.y1) rects.now }
    requires tallest { IsTallest rects.now height }
    ensures among { (r : Rect) → Contains result.now r → Contains rects.now r }
    ensures stretch { IsStretch result.now rects.now }
    ensures cover { (x y : ℤ) → bottom ≤ℤ y → y <ℤ top → covered result.now x y ≡ covered rects.now x y }
{
    let low = bottom.max(LOWEST) - height;
    let end = rects.partition_point(|rect| rect.y1() < top);
    let begin = rects.partition_point(|rect| rect.y1() <= low);
    let (lower, _) = rects.split_at(end);
    let (_, level) = lower.split_at(begin.min(end));
    level
}
