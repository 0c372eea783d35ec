//! Lines that cut the plane in two.
ghost use Rattle.std.specs.Prelude.{◌≡◌, ℤ, ◌&&◌, false, IfOk, IfSome, IfNone};
ghost use Rattle.fill_base.specs.Squares.{squares};
ghost use Rattle.fill_bands.specs.Squares.{covered};
ghost use Rattle.fill_region.specs.Steps.{before, behind};
ghost use Rattle.fill_region.specs.declared.lines.Line.TheVariants.{Upright, Level};

use fill_base::Rect;
use std::alloc::{AllocError, Global};

/// A line that cuts the plane in two.
#[derive(Clone, Copy)]
pub(crate) enum Line {
    /// At a column: what lies left of it comes first.
    Upright(i64),
    /// At a row: what lies below it comes first.
    Level(i64),
}

/// What of the rectangle lies left of the column.
fn left_of(rect: &Rect, at: i64) -> Option<Rect>
    ensures some { IfSome result (λ r. (x y : ℤ) → squares r x y ≡ before (Upright at) (squares rect.now) x y) }
    ensures none { IfNone result ((x y : ℤ) → before (Upright at) (squares rect.now) x y ≡ false) }
{
    if rect.x1() < at {
        let right = rect.x2().min(at);
        Some(Rect::from_edges(rect.x1(), rect.y1(), right, rect.y2()))
    } else {
        None
    }
}

/// What of the rectangle lies in the column or right of it.
fn right_from(rect: &Rect, at: i64) -> Option<Rect>
    ensures some { IfSome result (λ r. (x y : ℤ) → squares r x y ≡ behind (Upright at) (squares rect.now) x y) }
    ensures none { IfNone result ((x y : ℤ) → behind (Upright at) (squares rect.now) x y ≡ false) }
{
    if at < rect.x2() {
        let left = rect.x1().max(at);
        Some(Rect::from_edges(left, rect.y1(), rect.x2(), rect.y2()))
    } else {
        None
    }
}

/// What of the rectangle lies below the row.
fn below(rect: &Rect, at: i64) -> Option<Rect>
    ensures some { IfSome result (λ r. (x y : ℤ) → squares r x y ≡ before (Level at) (squares rect.now) x y) }
    ensures none { IfNone result ((x y : ℤ) → before (Level at) (squares rect.now) x y ≡ false) }
{
    if rect.y1() < at {
        let top = rect.y2().min(at);
        Some(Rect::from_edges(rect.x1(), rect.y1(), rect.x2(), top))
    } else {
        None
    }
}

/// What of the rectangle lies in the row or above it.
fn up_from(rect: &Rect, at: i64) -> Option<Rect>
    ensures some { IfSome result (λ r. (x y : ℤ) → squares r x y ≡ behind (Level at) (squares rect.now) x y) }
    ensures none { IfNone result ((x y : ℤ) → behind (Level at) (squares rect.now) x y ≡ false) }
{
    if at < rect.y2() {
        let bottom = rect.y1().max(at);
        Some(Rect::from_edges(rect.x1(), bottom, rect.x2(), rect.y2()))
    } else {
        None
    }
}

/// What of the rectangle lies before the line.
fn part_before(rect: &Rect, line: Line) -> Option<Rect>
    ensures some { IfSome result (λ r. (x y : ℤ) → squares r x y ≡ before line (squares rect.now) x y) }
    ensures none { IfNone result ((x y : ℤ) → before line (squares rect.now) x y ≡ false) }
{
    match line {
        Line::Upright(at) => left_of(rect, at),
        Line::Level(at) => below(rect, at),
    }
}

/// What of the rectangle lies behind the line.
fn part_behind(rect: &Rect, line: Line) -> Option<Rect>
    ensures some { IfSome result (λ r. (x y : ℤ) → squares r x y ≡ behind line (squares rect.now) x y) }
    ensures none { IfNone result ((x y : ℤ) → behind line (squares rect.now) x y ≡ false) }
{
    match line {
        Line::Upright(at) => right_from(rect, at),
        Line::Level(at) => up_from(rect, at),
    }
}

/// What of the rectangles lies before the line.
pub(crate) fn first_half(alloc: Global, rects: &[Rect], line: Line) -> Result<Vec<Rect>, AllocError>
    ensures { IfOk result (λ v. (x y : ℤ) → covered v.items x y ≡ before line (covered rects.now) x y) }
{
    let mut parts = Vec::new(alloc);
    'rects: for rect in rects {
        match part_before(rect, line) {
            Some(part) => parts.push(part)?,
            None => {}
        }
    }
    Ok(parts)
}

/// What of the rectangles lies behind the line.
pub(crate) fn second_half(
    alloc: Global,
    rects: &[Rect],
    line: Line,
) -> Result<Vec<Rect>, AllocError>
    ensures { IfOk result (λ v. (x y : ℤ) → covered v.items x y ≡ behind line (covered rects.now) x y) }
{
    let mut parts = Vec::new(alloc);
    'rects: for rect in rects {
        match part_behind(rect, line) {
            Some(part) => parts.push(part)?,
            None => {}
        }
    }
    Ok(parts)
}
