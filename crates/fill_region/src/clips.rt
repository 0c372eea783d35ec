//! Runs of a set, clipped at a frame.
ghost use Rattle.std.specs.Prelude.{◌≡◌, ◌&&◌, IfOk};
ghost use Rattle.fill_base.specs.Squares.{squares};
ghost use Rattle.fill_region.specs.Clips.{lies_inside, ArePartsWithin};
ghost use Rattle.fill_region.specs.Near.{AreSomeRuns};
ghost use Rattle.fill_region.specs.Squares.{covered};
ghost use Rattle.fill_region.specs.Steps.{AreRunsOf};

use crate::cuts::runs_alone;
use crate::operands::Operands;
use fill_base::Rect;
use std::alloc::{AllocError, Global};

/// Whether the rectangle reaches neither the frame's left side nor its right one.
fn is_inner(rect: &Rect, frame: &Rect) -> bool
    ensures { result ≡ lies_inside frame.now rect.now }
{
    (frame.x1() < rect.x1()) & (rect.x2() < frame.x2())
}

/// What of the rectangles lies within the frame: the parts that reach neither its left side nor its right one, and the others.
fn clips_within(
    alloc: Global,
    rects: &[Rect],
    frame: &Rect,
) -> Result<(Vec<Rect>, Vec<Rect>), AllocError>
    ensures { IfOk result (λ v. ArePartsWithin rects.now frame.now v.0.items v.1.items) }
{
    let mut inner = Vec::new(alloc);
    let mut beside = Vec::new(alloc);
    'rects: for rect in rects {
        let Some(part) = rect.clip(frame) else {
            continue;
        };
        if is_inner(&part, frame) {
            inner.push(part)?;
        } else {
            beside.push(part)?;
        }
    }
    Ok((inner, beside))
}

/// The runs of the squares that some rectangle holds, in any order.
fn runs_of(alloc: Global, rects: Vec<Rect>) -> Result<Vec<Rect>, AllocError>
    ensures { IfOk result (λ v. AreRunsOf (covered rects.items) v.items) }
{
    if rects.is_empty() {
        return Ok(rects);
    }
    runs_alone(alloc, Operands::of_list(alloc, rects))
}

/// The runs of what some runs of a set hold within the frame, in any order. A clipped run that reaches neither the frame's left side
/// nor its right one is a run of that; the others may go on upwards in one another.
pub(crate) fn clipped_runs(
    alloc: Global,
    runs: &[Rect],
    frame: &Rect,
) -> Result<Vec<Rect>, AllocError>
    requires { AreSomeRuns runs.now }
    ensures { IfOk result (λ v. AreRunsOf (λ x y. covered runs.now x y && squares frame.now x y) v.items) }
{
    let (mut clipped, beside) = clips_within(alloc, runs, frame)?;
    let mut joined = runs_of(alloc, beside)?;
    clipped.append(&mut joined)?;
    Ok(clipped)
}
