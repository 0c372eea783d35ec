//! The upright edges of a boundary, from the lowest on.

ghost use Rattle.std.specs.Prelude.{◌≡◌, ◌++◌, ◌∷◌, [], ℤ, Bool, map, All, IfOk, OnOk, IfSome, IfNone, option_to_list, count_by};
ghost use Rattle.gds_shape.specs.Winding.{edges, IsAligned, IsManhattan, IsPoint};
ghost use Rattle.gds_shape.specs.Moves.{moved};
ghost use Rattle.gds_shape.specs.steps.Edges.{passes, passing, IsEdge, AreRisingBy};

use crate::edge::Edge;
use fill_base::Point;
use std::alloc::{AllocError, Global};

/// The point, moved by `by`.
pub fn moved(point: Point, by: Point) -> Point
    requires { IsPoint (moved by point) }
    ensures { result ≡ moved by point }
{
    Point {
        x: point.x + by.x,
        y: point.y + by.y,
    }
}

/// The upright edge from one point to the other, or `None` where they are level.
fn edge_between(from: Point, to: Point) -> Option<Edge>
    requires aligned { IsAligned (from, to) }
    requires begins { IsPoint from }
    requires ends { IsPoint to }
    ensures some { IfSome result (λ e. IsEdge from to e) }
    ensures none { IfNone result (from.y ≡ to.y) }
{
    if from.y < to.y {
        return Some(Edge {
            x: from.x,
            bottom: from.y,
            top: to.y,
            up: true,
        });
    }
    if to.y < from.y {
        return Some(Edge {
            x: from.x,
            bottom: to.y,
            top: from.y,
            up: false,
        });
    }
    None
}

/// Appends the edge, if there is one.
fn put(edges: &mut Vec<Edge>, edge: Option<Edge>) -> Result<(), AllocError>
    ensures { OnOk result (edges.new.items ≡ edges.old.items ++ option_to_list edge) }
{
    if let Some(edge) = edge {
        edges.push(edge)?;
    }
    Ok(())
}

/// The upright edges between neighbouring points, each moved by `by`, in the order of the points.
fn edges_along(alloc: Global, points: &[Point], by: Point) -> Result<Vec<Edge>, AllocError>
    requires manhattan { IsManhattan (map (moved by) points.now) }
    requires within { All IsPoint (map (moved by) points.now) }
    ensures { IfOk result (λ v. (way : Bool) (x y : ℤ) →
        passing way v.items x y ≡ count_by (passes way x y) (edges (map (moved by) points.now))) }
{
    let mut edges = Vec::new(alloc);
    let mut rest = points;
    'edges: while rest.len() > 1 {
        let from = moved(rest[0], by);
        let to = moved(rest[1], by);
        put(&mut edges, edge_between(from, to))?;
        let (_, after) = rest.split_at(1);
        rest = after;
    }
    Ok(edges)
}

/// The upright edges between neighbouring points, each moved by `by`, by their lower ends.
pub fn edges_of(alloc: Global, points: &[Point], by: Point) -> Result<Vec<Edge>, AllocError>
    requires manhattan { IsManhattan (map (moved by) points.now) }
    requires within { All IsPoint (map (moved by) points.now) }
    ensures rising { IfOk result (λ v. AreRisingBy (λ e. e.bottom) v.items) }
    ensures same { IfOk result (λ v. (way : Bool) (x y : ℤ) →
        passing way v.items x y ≡ count_by (passes way x y) (edges (map (moved by) points.now))) }
{
    let mut edges = edges_along(alloc, points, by)?;
    edges.sort_by_key(|edge| edge.bottom)?;
    Ok(edges)
}
