//! What a boundary covers, by one sweep upwards over the lines at which its upright edges begin or
//! end.

ghost use Rattle.std.specs.Prelude.{◌≡◌, ◌||◌, ◌≤◌, ℤ, ◌≤ℤ◌, ◌<ℤ◌, [], length, map, All, OnOk};
ghost use Rattle.std.specs.List.Sorted.{IsPartitionPoint};
ghost use Rattle.fill_base.specs.Coordinates.{highest};
ghost use Rattle.fill_region.specs.Squares.{covered};
ghost use Rattle.gds_shape.specs.Winding.{covers, IsManhattan, IsClosed, IsPoint};
ghost use Rattle.gds_shape.specs.Moves.{moved};
ghost use Rattle.gds_shape.specs.steps.Edges.{AreRisingBy};
ghost use Rattle.gds_shape.specs.steps.Lines.{IsNextLine, IsCrossed};

use crate::edge::Edge;
use crate::edges::edges_of;
use crate::strip::put_strip;
use fill_base::{HIGHEST, LOWEST, Point, Rect};
use std::alloc::{AllocError, Global};

/// How many edges begin at the line or below.
fn begun_at(edges: &[Edge], line: i64) -> usize
    requires { AreRisingBy (λ e. e.bottom) edges.now }
    ensures within { result ≤ length edges.now }
    ensures parted { IsPartitionPoint (λ e. e.bottom ≤ℤ line) (λ e. line <ℤ e.bottom) edges.now result }
{
    edges.partition_point(|edge| edge.bottom <= line)
}

/// The lowest line at which an edge begins, or the highest coordinate where there is none.
fn first_bottom(edges: &[Edge]) -> i64
    requires { AreRisingBy (λ e. e.bottom) edges.now }
    ensures { IsNextLine edges.now [] result }
{
    match edges.first() {
        Some(edge) => edge.bottom,
        None => HIGHEST,
    }
}

/// The lowest line at which an edge of `later` begins or one of `crossing` ends, or the highest
/// coordinate where there is none.
fn next_line(later: &[Edge], crossing: &[Edge]) -> i64
    requires { AreRisingBy (λ e. e.bottom) later.now }
    ensures { IsNextLine later.now crossing.now result }
{
    let mut line = first_bottom(later);
    for edge in crossing {
        line = line.min(edge.top);
    }
    line
}

/// Takes in the edges that begin at the line, and out those that end there or below. They stay
/// sorted from left to right.
fn cross(crossing: &mut Vec<Edge>, begun: &[Edge], line: i64) -> Result<(), AllocError>
    ensures { OnOk result (IsCrossed line crossing.old.items begun.now crossing.new.items) }
{
    crossing.extend_from_slice(begun)?;
    crossing.retain(|edge| edge.top > line);
    crossing.sort_by_key(|edge| edge.x)?;
    Ok(())
}

/// Appends the squares that the boundary covers once each point is moved by `by`, as rectangles that
/// share none: a sort, and at each line at which an edge begins or ends a walk over those that cross
/// it.
pub fn put_swept(
    alloc: Global,
    out: &mut Vec<Rect>,
    points: &[Point],
    by: Point,
) -> Result<(), AllocError>
    requires manhattan { IsManhattan (map (moved by) points.now) }
    requires closed { IsClosed (map (moved by) points.now) }
    requires within { All IsPoint (map (moved by) points.now) }
    ensures { OnOk result ((x y : ℤ) → covered out.new.items x y
        ≡ (covered out.old.items x y || covers (map (moved by) points.now) x y)) }
{
    let sorted = edges_of(alloc, points, by)?;
    let mut later = sorted.as_slice();
    let mut crossing = Vec::new(alloc);
    let mut line = LOWEST;
    'sweep: while line < HIGHEST {
        let (begun, rest) = later.split_at(begun_at(later, line));
        cross(&mut crossing, begun, line)?;
        let next = next_line(rest, &crossing);
        put_strip(out, &crossing, line, next)?;
        later = rest;
        line = next;
    }
    Ok(())
}
