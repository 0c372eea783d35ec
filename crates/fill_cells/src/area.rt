//! The area that rectangles cover in one part of the plane.
ghost use Rattle.std.specs.Prelude.{◌≡◌, ◌&&◌, false, ℤ, pos, ◌<ℤ◌, ◌≤ℤ◌, IfOk, IfSome};
ghost use Rattle.fill_base.specs.Coordinates.{lowest, highest};
ghost use Rattle.fill_base.specs.Squares.{area_of, squares};
ghost use Rattle.fill_region.specs.Squares.{covered};
ghost use Rattle.fill_cells.specs.steps.Halves.{AreHalves};

use crate::pieces::within;
use crate::skyline::counted_area;
use fill_area::shared_area;
use fill_base::Rect;
use std::alloc::{AllocError, Global};

/// So many rectangles are counted at once.
const FEW: usize = 1024;

/// So many are looked at pair by pair first.
const PAIRED: usize = 16;

/// How many unit squares of the part some rectangle covers. Few rectangles that lie apart are summed, without any memory. Many are cut
/// at the middle of the part and counted in its halves, so that a pile of large ones costs little: it is one rectangle wherever one of
/// them covers all. The list may be in another order afterwards; `towers` is memory that is used again.
///
/// # Errors
/// `AllocError` where memory is refused.
pub(crate) fn covered_area(
    alloc: Global,
    towers: &mut Vec<Rect>,
    rects: &mut [Rect],
    part: &Rect,
) -> Result<i64, AllocError>
    ensures { IfOk result (λ n. n ≡ pos (area_of (covered rects.old) part.now)) }
{
    if let Some(area) = apart_area(rects, part) {
        return Ok(area);
    }
    match halves(rects, part) {
        Some((first, second)) => {
            let mut in_first = within(alloc, rects, &first)?;
            let below = covered_area(alloc, towers, &mut in_first, &first)?;
            let mut in_second = within(alloc, rects, &second)?;
            let above = covered_area(alloc, towers, &mut in_second, &second)?;
            Ok(below + above)
        }
        None => counted_area(towers, rects, part),
    }
}

/// How many unit squares of the part few rectangles cover of which no two share a square, else `None`.
fn apart_area(rects: &[Rect], part: &Rect) -> Option<i64>
    ensures { IfSome result (λ n. n ≡ pos (area_of (covered rects.now) part.now)) }
{
    if rects.len() > PAIRED {
        return None;
    }
    let mut area = 0;
    for (k, rect) in rects.iter().enumerate() {
        if meets_any(rect, &rects[..k]) {
            return None;
        }
        area += shared_area(rect, part);
    }
    Some(area)
}

/// Whether a rectangle shares a square with one of the others. All of them are looked at, with no branch that is guessed wrong.
fn meets_any(rect: &Rect, others: &[Rect]) -> bool
    ensures { false ≡ result → (x y : ℤ) → covered others.now x y && squares rect.now x y ≡ false }
{
    let mut any = false;
    for other in others {
        any |= meets(other, rect);
    }
    any
}

/// Whether two rectangles share a square.
fn meets(a: &Rect, b: &Rect) -> bool
    ensures { false ≡ result → (x y : ℤ) → squares a.now x y && squares b.now x y ≡ false }
{
    (a.x1() < b.x2()) & (b.x1() < a.x2()) & (a.y1() < b.y2()) & (b.y1() < a.y2())
}

/// The halves of a part in which many rectangles begin or end, cut across those edges of which there are more.
fn halves(rects: &[Rect], part: &Rect) -> Option<(Rect, Rect)>
    ensures { IfSome result (λ h. AreHalves part.now h.0 h.1) }
{
    if rects.len() <= FEW {
        return None;
    }
    let across = rects
        .iter()
        .filter(|rect| rect.x1() > part.x1() || rect.x2() < part.x2())
        .count();
    let up = rects
        .iter()
        .filter(|rect| rect.y1() > part.y1() || rect.y2() < part.y2())
        .count();
    if across >= up {
        halves_across(part)
    } else {
        halves_up(part)
    }
}

/// The left and the right half, where the part is wider than one square.
fn halves_across(part: &Rect) -> Option<(Rect, Rect)>
    ensures { IfSome result (λ h. AreHalves part.now h.0 h.1) }
{
    let middle = middle(part.x1(), part.x2())?;
    let left = Rect::from_edges(part.x1(), part.y1(), middle, part.y2());
    let right = Rect::from_edges(middle, part.y1(), part.x2(), part.y2());
    Some((left, right))
}

/// The lower and the upper half, where the part is taller than one square.
fn halves_up(part: &Rect) -> Option<(Rect, Rect)>
    ensures { IfSome result (λ h. AreHalves part.now h.0 h.1) }
{
    let middle = middle(part.y1(), part.y2())?;
    let lower = Rect::from_edges(part.x1(), part.y1(), part.x2(), middle);
    let upper = Rect::from_edges(part.x1(), middle, part.x2(), part.y2());
    Some((lower, upper))
}

/// The cut midway between two, or none where they are neighbours.
fn middle(lo: i64, hi: i64) -> Option<i64>
    requires low { lowest ≤ℤ lo }
    requires ordered { lo <ℤ hi }
    requires high { hi ≤ℤ highest }
    ensures { IfSome result (λ m. (lo <ℤ m) × (m <ℤ hi)) }
{
    let middle = lo + (hi - lo) / 2;
    if lo < middle && middle < hi {
        Some(middle)
    } else {
        None
    }
}
