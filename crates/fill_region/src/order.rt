//! The order of runs in a list.
ghost use Rattle.std.specs.Prelude.{◌≡◌, true, false, ℤ, Bool, map, IfOk};
ghost use Rattle.std.specs.List.Sorted.{IsPermutation};
ghost use Rattle.fill_region.specs.Runs.{sides_of, Precedes, AreRuns, holds};
ghost use Rattle.fill_region.specs.Steps.{AreRunsOf, AreNotFalling, AreOrdered};

use fill_base::Rect;
use std::alloc::{AllocError, Global};

/// Whether the first begins in a lower row, or in the same row further left.
fn precedes(first: &Rect, second: &Rect) -> bool
    ensures yes { result ≡ true → Precedes (sides_of first.now) (sides_of second.now) }
    ensures no { result ≡ false → Precedes (sides_of first.now) (sides_of second.now) → ⊥ }
{
    if first.y1() == second.y1() {
        first.x1() < second.x1()
    } else {
        first.y1() < second.y1()
    }
}

/// The rectangles from the lowest row upwards, and in a row from left to right.
fn sorted(mut rects: Vec<Rect>) -> Result<Vec<Rect>, AllocError>
    ensures same { IfOk result (λ v. IsPermutation rects.items v.items) }
    ensures rising { IfOk result (λ v. AreNotFalling v.items) }
{
    rects.sort_by_key(|rect| (rect.y1(), rect.x1()))?;
    Ok(rects)
}

/// The same, each once. Of rectangles that begin in one square only runs of one set are the same.
fn each_once(alloc: Global, rects: &[Rect]) -> Result<Vec<Rect>, AllocError>
    requires { AreNotFalling rects.now }
    ensures { IfOk result (λ v. AreOrdered rects.now v.items) }
{
    let mut ordered = Vec::with_capacity(alloc, rects.len())?;
    'rects: for k in 0..rects.len() {
        if k == 0 || precedes(&rects[k - 1], &rects[k]) {
            ordered.push(rects[k])?;
        }
    }
    Ok(ordered)
}

/// The runs of a set in their order.
pub(crate) fn in_order(alloc: Global, runs: Vec<Rect>) -> Result<Vec<Rect>, AllocError>
    ensures canonical { IfOk result (λ v. (p : ℤ → ℤ → Bool) → AreRunsOf p runs.items → AreRuns (map sides_of v.items)) }
    ensures squares { IfOk result (λ v. (p : ℤ → ℤ → Bool) → AreRunsOf p runs.items → (x y : ℤ) → holds (map sides_of v.items) x y ≡ p x y) }
{
    let sorted = sorted(runs)?;
    let ordered = each_once(alloc, &sorted)?;
    Ok(ordered)
}
