//! The rectangles of one strip of a boundary: between two lines, where the same edges cross each row.

ghost use Rattle.std.specs.Prelude.{◌≡◌, ◌==◌, not, true, false, ℤ, ◌≤ℤ◌, ◌<ℤ◌, ◌&&◌, ◌||◌, OnOk};
ghost use Rattle.fill_base.specs.Coordinates.{lowest, highest};
ghost use Rattle.fill_base.specs.Counts.{is_between};
ghost use Rattle.fill_region.specs.Squares.{covered};
ghost use Rattle.gds_shape.specs.steps.Edges.{left_of, going, AreRisingBy};

use crate::edge::Edge;
use fill_base::{LOWEST, Rect};
use std::alloc::AllocError;

/// Appends the rectangle between two neighbouring edges, where it lies inside and holds a square.
pub fn put_gap(
    out: &mut Vec<Rect>,
    left: i64,
    right: i64,
    bottom: i64,
    top: i64,
    inside: bool,
) -> Result<(), AllocError>
    requires left { lowest ≤ℤ left }
    requires right { right ≤ℤ highest }
    requires low { lowest ≤ℤ bottom }
    requires tall { bottom <ℤ top }
    requires high { top ≤ℤ highest }
    ensures { OnOk result ((x y : ℤ) → covered out.new.items x y
        ≡ (covered out.old.items x y || ((is_between left right x && is_between bottom top y) && inside))) }
{
    if !inside || left >= right {
        return Ok(());
    }
    out.push(Rect::from_edges(left, bottom, right, top))?;
    Ok(())
}

/// Appends the squares from `bottom` to `top` that have as many edges upwards at their left as
/// downwards, or not: where the two numbers differ, the winding number isn't 0.
pub fn put_strip(
    out: &mut Vec<Rect>,
    crossing: &[Edge],
    bottom: i64,
    top: i64,
) -> Result<(), AllocError>
    requires rising { AreRisingBy (λ e. e.x) crossing.now }
    requires closed { going true crossing.now ≡ going false crossing.now }
    requires low { lowest ≤ℤ bottom }
    requires tall { bottom <ℤ top }
    requires high { top ≤ℤ highest }
    ensures { OnOk result ((x y : ℤ) → covered out.new.items x y
        ≡ (covered out.old.items x y || (not (left_of true crossing.now x == left_of false crossing.now x)
        && is_between bottom top y))) }
{
    let mut left = LOWEST;
    let mut ups = 0usize;
    let mut downs = 0usize;
    'walk: for edge in crossing {
        put_gap(out, left, edge.x, bottom, top, ups != downs)?;
        ups += usize::from(edge.up);
        downs += usize::from(!edge.up);
        left = edge.x;
    }
    Ok(())
}
