//! The columns of many rectangles, joined into one rising list of edges.
ghost use Rattle.std.specs.Prelude.{◌≡◌, ◌⊎◌, ◌++◌, ◌∷◌, [], ℤ, ◌<ℤ◌, ◌≤ℤ◌, IfOk, OnOk};
ghost use Rattle.fill_spans.specs.Spans.{inside, IsCanonical};
ghost use Rattle.fill_spans.specs.Columns.{has_column, IsRisingBy};
ghost use Rattle.fill_spans.specs.Gaps.{GapPut};

use fill_base::Rect;
use std::alloc::{AllocError, Global};

/// The edges of the columns in which some rectangle has squares, in one walk over the rectangles.
pub(crate) fn joined(alloc: Global, rects: &[Rect]) -> Result<Vec<i32>, AllocError>
    requires { IsRisingBy (λ r. r.x1) rects.now }
    ensures canonical { IfOk result (λ v. IsCanonical v.items) }
    ensures members { IfOk result (λ v. (x : ℤ) → inside v.items x ≡ has_column rects.now x) }
{
    let Some((first, rest)) = rects.split_first() else {
        return Ok(Vec::new(alloc));
    };
    let mut edges = Vec::with_capacity(alloc, rects.len().saturating_mul(2))?;
    edges.push(first.x1() as i32)?;
    let mut end = first.x2() as i32;
    for rect in rest {
        put_gap(&mut edges, end, rect.x1() as i32)?;
        end = end.max(rect.x2() as i32);
    }
    edges.push(end)?;
    edges.shrink_to_fit();
    Ok(edges)
}

/// Ends the interval that is open at `end`, and begins another at `next`, where there is a gap
/// between them.
fn put_gap(edges: &mut Vec<i32>, end: i32, next: i32) -> Result<(), AllocError>
    ensures { OnOk result (GapPut end next edges.old.items edges.new.items) }
{
    if end < next {
        edges.push(end)?;
        edges.push(next)?;
    }
    Ok(())
}
