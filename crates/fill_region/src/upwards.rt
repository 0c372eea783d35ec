//! Runs below and above a row, joined.
ghost use Rattle.std.specs.Prelude.{ℤ, Bool, IfOk};
ghost use Rattle.fill_region.specs.Steps.{AreRunsOf, before, behind};
ghost use Rattle.fill_region.specs.declared.lines.Line.TheVariants.{Level};

use crate::edges::{Edge, parted};
use crate::stacks::stacked;
use fill_base::Rect;
use std::alloc::{AllocError, Global};

/// The runs of a set, of which `lower` are those of what lies below the row, and `upper` those of the rest.
pub(crate) fn joined_upwards(
    alloc: Global,
    lower: Vec<Rect>,
    upper: Vec<Rect>,
    at: i64,
) -> Result<Vec<Rect>, AllocError>
    ensures { IfOk result (λ v. (p : ℤ → ℤ → Bool) → AreRunsOf (before (Level at) p) lower.items → AreRunsOf (behind (Level at) p) upper.items → AreRunsOf p v.items) }
{
    let (ending, mut runs) = parted(alloc, lower, Edge::Top, at)?;
    let (beginning, mut others) = parted(alloc, upper, Edge::Bottom, at)?;
    let mut going_on = stacked(alloc, ending, beginning, &mut runs)?;
    runs.append(&mut others)?;
    runs.append(&mut going_on)?;
    Ok(runs)
}
