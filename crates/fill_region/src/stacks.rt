//! Runs that go on from one row of squares to the next.
ghost use Rattle.std.specs.Prelude.{◌≡◌, ◌↔◌, ◌||◌, ◌≤◌, length, true, false, ℤ, Bool, IsTrue, IfOk, IfSome, IfNone, OnOk, List};
ghost use Rattle.std.specs.List.{Contains};
ghost use Rattle.std.specs.List.Sorted.{IsPermutation};
ghost use Rattle.fill_spans.specs.Columns.{IsRisingBy};
ghost use Rattle.fill_base.specs.Sides.{sides, sides_of};
ghost use Rattle.fill_region.specs.Steps.{StandsOn, HasLower, AreOfOneRow, MeetAt, AreGoneOn, AreBegun, AreStacked, AreLeftOf, IsPlaceOf};

use fill_base::Rect;
use std::alloc::{AllocError, Global};

/// The rectangles by their left edges.
fn from_left(mut rects: Vec<Rect>) -> Result<Vec<Rect>, AllocError>
    ensures same { IfOk result (λ v. IsPermutation rects.items v.items) }
    ensures rising { IfOk result (λ v. IsRisingBy (λ r. r.x1) v.items) }
{
    rects.sort_by_key(|rect| rect.x1())?;
    Ok(rects)
}

/// Whether `upper` begins where `lower` ends, between the same sides.
fn stands_on(upper: &Rect, lower: &Rect) -> bool
    ensures { IsTrue result ↔ StandsOn upper.now lower.now }
{
    (lower.y2() == upper.y1()) & (lower.x1() == upper.x1()) & (lower.x2() == upper.x2())
}

/// Where in the row the rectangles that begin at the column or right of it do begin, by halving.
fn place_of(row: &[Rect], column: i64) -> usize
    requires { IsRisingBy (λ r. r.x1) row.now }
    ensures { IsPlaceOf row.now column result }
{
    row.partition_point(|rect| rect.x1() < column)
}

/// The same by steps, where those before `from` begin left of the column.
pub(crate) fn next_place(row: &[Rect], from: usize, column: i64) -> usize
    requires rising { IsRisingBy (λ r. r.x1) row.now }
    requires within { from ≤ length row.now }
    requires passed { AreLeftOf row.now from column }
    ensures { IsPlaceOf row.now column result }
{
    let mut k = from;
    'row: while k < row.len() && row[k].x1() < column {
        k += 1;
    }
    k
}

/// The rectangle of the row that stands on this one. `k` is where those that begin in its column do begin.
pub(crate) fn upon(row: &[Rect], k: usize, lower: &Rect) -> Option<Rect>
    requires rising { IsRisingBy (λ r. r.x1) row.now }
    requires place { IsPlaceOf row.now lower.now.x1 k }
    ensures some { IfSome result (λ r. StandsOn r lower.now) }
    ensures among { IfSome result (Contains row.now) }
    ensures none { IfNone result (AreOfOneRow row.now → (r : Rect) → Contains row.now r → StandsOn r lower.now → ⊥) }
{
    if k < row.len() && stands_on(&row[k], lower) {
        Some(row[k])
    } else {
        None
    }
}

/// The rectangle of the row that this one stands on. `k` is where those that begin in its column do begin.
pub(crate) fn under(row: &[Rect], k: usize, upper: &Rect) -> Option<Rect>
    requires rising { IsRisingBy (λ r. r.x1) row.now }
    requires place { IsPlaceOf row.now upper.now.x1 k }
    ensures some { IfSome result (λ r. StandsOn upper.now r) }
    ensures among { IfSome result (Contains row.now) }
    ensures none { IfNone result (AreOfOneRow row.now → (r : Rect) → Contains row.now r → StandsOn upper.now r → ⊥) }
{
    if k < row.len() && stands_on(upper, &row[k]) {
        Some(row[k])
    } else {
        None
    }
}

/// Whether the rectangle stands on one of the row.
fn is_upon(upper: &Rect, row: &[Rect]) -> bool
    requires { IsRisingBy (λ r. r.x1) row.now }
    ensures some { result ≡ true → HasLower upper.now row.now }
    ensures none { result ≡ false → AreOfOneRow row.now → (r : Rect) → Contains row.now r → StandsOn upper.now r → ⊥ }
{
    match under(row, place_of(row, upper.x1()), upper) {
        Some(_) => true,
        None => false,
    }
}

/// The rectangle from the lower edge of one to the upper edge of another that stands on it.
pub(crate) fn both(lower: &Rect, upper: &Rect) -> Rect
    requires { StandsOn upper.now lower.now }
    ensures { sides_of result ≡ sides lower.now.x1 lower.now.y1 lower.now.x2 upper.now.y2 }
{
    Rect::from_edges(lower.x1(), lower.y1(), lower.x2(), upper.y2())
}

/// Of the lower runs those that an upper one stands on, as far as that one goes. The others have ended.
fn going_on(
    alloc: Global,
    lower: &[Rect],
    upper: &[Rect],
    ended: &mut Vec<Rect>,
) -> Result<Vec<Rect>, AllocError>
    requires { IsRisingBy (λ r. r.x1) upper.now }
    ensures { IfOk result (λ v. (p : ℤ → ℤ → Bool) (at : ℤ) → MeetAt p at lower.now upper.now → AreGoneOn p lower.now upper.now ended.old.items v.items ended.new.items) }
{
    let mut runs = Vec::new(alloc);
    'lower: for rect in lower {
        match upon(upper, place_of(upper, rect.x1()), rect) {
            Some(above) => runs.push(both(rect, &above))?,
            None => ended.push(*rect)?,
        }
    }
    Ok(runs)
}

/// Puts those of the upper runs that stand on no lower one: they begin at the line.
fn put_begun(upper: &[Rect], lower: &[Rect], runs: &mut Vec<Rect>) -> Result<(), AllocError>
    requires { IsRisingBy (λ r. r.x1) lower.now }
    ensures { OnOk result ((p : ℤ → ℤ → Bool) (at : ℤ) (before_ended ended : List Rect) → MeetAt p at lower.now upper.now → AreGoneOn p lower.now upper.now before_ended runs.old.items ended → AreBegun p upper.now runs.old.items runs.new.items) }
{
    'upper: for rect in upper {
        if !is_upon(rect, lower) {
            runs.push(*rect)?;
        }
    }
    Ok(())
}

/// The runs on both sides of a line, of which `lower` end there and `upper` begin there: those that go on across it or begin at
/// it. Those that end at it are put to `ended`.
pub(crate) fn stacked(
    alloc: Global,
    lower: Vec<Rect>,
    upper: Vec<Rect>,
    ended: &mut Vec<Rect>,
) -> Result<Vec<Rect>, AllocError>
    ensures { IfOk result (λ v. (p : ℤ → ℤ → Bool) (at : ℤ) → MeetAt p at lower.items upper.items → AreStacked p lower.items upper.items ended.old.items v.items ended.new.items) }
{
    let from_lower = from_left(lower)?;
    let from_upper = from_left(upper)?;
    let mut runs = going_on(alloc, &from_lower, &from_upper, ended)?;
    put_begun(&from_upper, &from_lower, &mut runs)?;
    Ok(runs)
}
