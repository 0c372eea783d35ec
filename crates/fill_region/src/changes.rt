//! What an operation with a second set changes of a first one's runs: those alone that the second comes near.
ghost use Rattle.std.specs.Prelude.{◌≡◌, ◌↔◌, true, ℤ, [], IsTrue, IfOk, IfSome, IfNone};
ghost use Rattle.fill_base.specs.Squares.{squares};
ghost use Rattle.fill_spans.specs.Operations.{applied};
ghost use Rattle.fill_region.specs.Changes.{IsAside, ArePartedBy, unchanged};
ghost use Rattle.fill_region.specs.Squares.{covered};
ghost use Rattle.fill_region.specs.Steps.{AreRunsOf};

use crate::cuts::runs_alone;
use crate::operands::Operands;
use fill_base::Rect;
use fill_spans::Operation;
use std::alloc::{AllocError, Global};

/// Whether two rectangles share no square, and no edge or corner either.
fn is_aside(first: &Rect, second: &Rect) -> bool
    ensures { IsTrue result ↔ IsAside first.now second.now }
{
    (first.x2() < second.x1())
        | (second.x2() < first.x1())
        | (first.y2() < second.y1())
        | (second.y2() < first.y1())
}

/// The runs that come near the frame, and those aside of it.
fn near_and_far(
    alloc: Global,
    runs: &[Rect],
    frame: &Rect,
) -> Result<(Vec<Rect>, Vec<Rect>), AllocError>
    ensures { IfOk result (λ v. ArePartedBy frame.now runs.now v.0.items v.1.items) }
{
    let mut near = Vec::new(alloc);
    let mut far = Vec::new(alloc);
    'runs: for rect in runs {
        if is_aside(rect, frame) {
            far.push(*rect)?;
        } else {
            near.push(*rect)?;
        }
    }
    Ok((near, far))
}

/// The least rectangle around two.
fn around(first: &Rect, second: &Rect) -> Rect
    ensures first { (x y : ℤ) → squares first.now x y ≡ true → squares result x y ≡ true }
    ensures second { (x y : ℤ) → squares second.now x y ≡ true → squares result x y ≡ true }
{
    Rect::from_edges(
        first.x1().min(second.x1()),
        first.y1().min(second.y1()),
        first.x2().max(second.x2()),
        first.y2().max(second.y2()),
    )
}

/// A rectangle around all, or `None` where there is none.
fn hull(rects: &[Rect]) -> Option<Rect>
    ensures some { IfSome result (λ h. (x y : ℤ) → covered rects.now x y ≡ true → squares h x y ≡ true) }
    ensures none { IfNone result (rects.now ≡ []) }
{
    let mut hull = *rects.first()?;
    'rects: for rect in rects {
        hull = around(&hull, rect);
    }
    Some(hull)
}

/// What the operation keeps of runs that the second set doesn't come near.
fn kept_far(operation: Operation, mut far: Vec<Rect>) -> Vec<Rect>
    ensures { result.items ≡ unchanged operation far.items }
{
    match operation {
        Operation::Union | Operation::Minus => {}
        Operation::Meet => far.clear(),
    }
    far
}

/// The runs of the squares that the operation keeps of two sets, of which `first` are the runs of one, and `second` rectangles that
/// hold the other, in any order.
pub(crate) fn combined_runs(
    alloc: Global,
    operation: Operation,
    first: &[Rect],
    second: &[Rect],
) -> Result<Vec<Rect>, AllocError>
    requires { AreRunsOf (covered first.now) first.now }
    ensures { IfOk result (λ v. AreRunsOf (λ x y. applied operation (covered first.now x y) (covered second.now x y)) v.items) }
{
    let Some(hull) = hull(second) else {
        return Ok(kept_far(operation, Vec::from_slice(alloc, first)?));
    };
    let (near, far) = near_and_far(alloc, first, &hull)?;
    let operands = Operands {
        operation,
        first: near,
        second: Vec::from_slice(alloc, second)?,
    };
    let mut changed = runs_alone(alloc, operands)?;
    let mut runs = kept_far(operation, far);
    runs.append(&mut changed)?;
    Ok(runs)
}
