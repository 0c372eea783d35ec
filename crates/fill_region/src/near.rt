//! Those of a list of runs that reach into a frame.
ghost use Rattle.std.specs.Prelude.{◌≡◌, true, ℤ, IfOk};
ghost use Rattle.std.specs.List.{Contains, filter};
ghost use Rattle.fill_base.specs.Squares.{squares};
ghost use Rattle.fill_region.specs.Clips.{overlap};
ghost use Rattle.fill_region.specs.Near.{AreSomeRuns};
ghost use Rattle.fill_region.specs.Squares.{covered};

use fill_base::Rect;
use std::alloc::{AllocError, Global};

/// Whether the rectangles share a square.
fn meets(rect: &Rect, frame: &Rect) -> bool
    ensures { result ≡ overlap rect.now frame.now }
{
    (rect.x1() < frame.x2())
        & (frame.x1() < rect.x2())
        & (rect.y1() < frame.y2())
        & (frame.y1() < rect.y2())
}

/// Those of the runs that share a square with the frame, whole and in their order.
///
/// # Errors
/// `AllocError` where memory is refused.
pub fn runs_near(alloc: Global, runs: &[Rect], frame: &Rect) -> Result<Vec<Rect>, AllocError>
    ensures near { IfOk result (λ v. v.items ≡ filter (λ r. overlap r frame.now) runs.now) }
    ensures runs { AreSomeRuns runs.now → IfOk result (λ v. AreSomeRuns v.items) }
    ensures squares { IfOk result (λ v. (x y : ℤ) → squares frame.now x y ≡ true → covered v.items x y ≡ covered runs.now x y) }
    ensures among { IfOk result (λ v. (r : Rect) → Contains v.items r → Contains runs.now r) }
{
    let mut near = Vec::new(alloc);
    'runs: for rect in runs {
        if meets(rect, frame) {
            near.push(*rect)?;
        }
    }
    Ok(near)
}
