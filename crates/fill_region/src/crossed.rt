//! The intervals of a row of squares, by the rectangles that cross it.
ghost use Rattle.std.specs.Prelude.{◌≡◌, ℤ, ◌≤ℤ◌, ◌<ℤ◌, All, IfOk};
ghost use Rattle.std.specs.Int.{int_max};
ghost use Rattle.fill_base.specs.Sides.{sides, sides_of};
ghost use Rattle.fill_spans.specs.Columns.{IsRisingBy};
ghost use Rattle.fill_region.specs.Squares.{covered};
ghost use Rattle.fill_region.specs.Steps.{AreRunsOf, IsRow};

use fill_base::Rect;
use std::alloc::{AllocError, Global};

/// What of the rectangle lies between two lines, both of which it reaches.
fn between(rect: &Rect, bottom: i64, top: i64) -> Rect
    requires tall { bottom <ℤ top }
    requires low { rect.now.y1 ≤ℤ bottom }
    requires high { top ≤ℤ rect.now.y2 }
    ensures { sides_of result ≡ sides rect.now.x1 bottom rect.now.x2 top }
{
    Rect::from_edges(rect.x1(), bottom, rect.x2(), top)
}

/// An interval that goes on as far to the right as the rectangle does.
fn longer(interval: &Rect, rect: &Rect) -> Rect
    ensures { sides_of result ≡ sides interval.now.x1 interval.now.y1 (int_max interval.now.x2 rect.now.x2) interval.now.y2 }
{
    let right = interval.x2().max(rect.x2());
    Rect::from_edges(interval.x1(), interval.y1(), right, interval.y2())
}

/// The intervals of the rows between two lines, by the rectangles that cross them all.
pub(crate) fn crossed_intervals(
    alloc: Global,
    crossing: &[Rect],
    bottom: i64,
    top: i64,
) -> Result<Vec<Rect>, AllocError>
    requires rising { IsRisingBy (λ r. r.x1) crossing.now }
    requires tall { bottom <ℤ top }
    requires low { All (λ r. r.y1 ≤ℤ bottom) crossing.now }
    requires high { All (λ r. top ≤ℤ r.y2) crossing.now }
    ensures runs { IfOk result (λ v. AreRunsOf (covered v.items) v.items) }
    ensures same { IfOk result (λ v. (x y : ℤ) → bottom ≤ℤ y → y <ℤ top → covered v.items x y ≡ covered crossing.now x y) }
    ensures row { IfOk result (λ v. IsRow bottom top v.items) }
{
    let mut row = Vec::with_capacity(alloc, crossing.len())?;
    let Some((first, rest)) = crossing.split_first() else {
        return Ok(row);
    };
    let mut last = between(first, bottom, top);
    'rest: for rect in rest {
        if last.x2() < rect.x1() {
            row.push(last)?;
            last = between(rect, bottom, top);
        } else {
            last = longer(&last, rect);
        }
    }
    row.push(last)?;
    Ok(row)
}
