//! How far points and rectangles go to each side.

ghost use Rattle.std.specs.Prelude.{◌≡◌, ◌<◌, length, map, IfSome, IfNone};
ghost use Rattle.gds_shape.specs.Extents.{at_point, joined, IsExtent, IsNarrow, IsNear, corner_move};

use crate::bounds::Bounds;
use fill_base::{HIGHEST, LOWEST, Point};

/// A point as a rectangle of no extent.
fn at_point(point: Point) -> Bounds
    ensures { result ≡ at_point point }
{
    Bounds {
        left: point.x,
        bottom: point.y,
        right: point.x,
        top: point.y,
    }
}

/// The least rectangle around both.
pub fn joined(a: Bounds, b: Bounds) -> Bounds
    ensures { result ≡ joined a b }
{
    Bounds {
        left: a.left.min(b.left),
        bottom: a.bottom.min(b.bottom),
        right: a.right.max(b.right),
        top: a.top.max(b.top),
    }
}

/// The least rectangle around the points of a boundary, in database units.
pub fn points_extent(points: &[Point]) -> Bounds
    requires { 0 < length points.now }
    ensures { IsExtent (map at_point points.now) result }
{
    let mut extent = at_point(points[0]);
    'points: for point in points {
        extent = joined(extent, at_point(*point));
    }
    extent
}

/// The least rectangle around the segments of a path, in database units.
pub fn bounds_extent(all: &[Bounds]) -> Bounds
    requires { 0 < length all.now }
    ensures { IsExtent all.now result }
{
    let mut extent = all[0];
    'all: for bounds in all {
        extent = joined(extent, *bounds);
    }
    extent
}

/// The greatest width and height that coordinates allow.
const WIDEST: i64 = HIGHEST - LOWEST;

/// How far a rectangle has to move so that it begins at the least coordinates, or `None` where it's
/// wider or taller than all coordinates.
pub fn move_to_corner(extent: Bounds) -> Option<Point>
    requires { IsNear extent }
    ensures some { IfSome result (λ by. IsNarrow extent × (by ≡ corner_move extent)) }
    ensures none { IfNone result (¬ IsNarrow extent) }
{
    if extent.right - extent.left > WIDEST {
        return None;
    }
    if extent.top - extent.bottom > WIDEST {
        return None;
    }
    Some(Point {
        x: LOWEST - extent.left,
        y: LOWEST - extent.bottom,
    })
}
