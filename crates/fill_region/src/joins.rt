//! Runs on both sides of a line, joined.
ghost use Rattle.std.specs.Prelude.{◌≡◌, ℤ, Bool, IfOk};
ghost use Rattle.fill_region.specs.Steps.{AreRunsOf, before, behind};
ghost use Rattle.fill_region.specs.declared.lines.Line.TheVariants.{Upright, Level};

use crate::edges::{Edge, parted};
use crate::lines::Line;
use crate::sweep::runs_swept;
use crate::upwards::joined_upwards;
use fill_base::Rect;
use std::alloc::{AllocError, Global};

/// The runs of a set, of which `left` are those of what lies left of the column, and `right` those of the rest. Runs that don't
/// touch the column stay; those that do make rows of one interval each.
fn joined_across(
    alloc: Global,
    left: Vec<Rect>,
    right: Vec<Rect>,
    at: i64,
) -> Result<Vec<Rect>, AllocError>
    ensures { IfOk result (λ v. (p : ℤ → ℤ → Bool) → AreRunsOf (before (Upright at) p) left.items → AreRunsOf (behind (Upright at) p) right.items → AreRunsOf p v.items) }
{
    let (mut touching, mut runs) = parted(alloc, left, Edge::Right, at)?;
    let (mut touching_too, mut others) = parted(alloc, right, Edge::Left, at)?;
    touching.append(&mut touching_too)?;
    let mut across = runs_swept(alloc, &touching)?;
    runs.append(&mut others)?;
    runs.append(&mut across)?;
    Ok(runs)
}

/// The runs of a set, of which `first` are those of what lies before the line, and `second` those of what lies behind it.
pub(crate) fn joined(
    alloc: Global,
    first: Vec<Rect>,
    second: Vec<Rect>,
    line: Line,
) -> Result<Vec<Rect>, AllocError>
    ensures { IfOk result (λ v. (p : ℤ → ℤ → Bool) → AreRunsOf (before line p) first.items → AreRunsOf (behind line p) second.items → AreRunsOf p v.items) }
{
    match line {
        Line::Upright(at) => joined_across(alloc, first, second, at),
        Line::Level(at) => joined_upwards(alloc, first, second, at),
    }
}
