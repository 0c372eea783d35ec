//! Boundaries: closed chains of points. A square is covered where the upright edges to its right
//! that span its row, those upwards counted as 1 and those downwards as -1, don't add up to 0.

ghost use Rattle.std.specs.Prelude.{◌≡◌, ◌↔◌, ◌||◌, ◌<◌, ◌-ℤ◌, ◌⊎◌, ℤ, length, map, All, IsTrue, Err, IfErr, IfOk, OnOk};
ghost use Rattle.fill_region.specs.Runs.{holds, AreRuns};
ghost use Rattle.fill_region.specs.Squares.{covered};
ghost use Rattle.gds_shape.specs.Winding.{covers, IsAligned, IsManhattan, IsClosed, IsPoint};
ghost use Rattle.gds_shape.specs.Moves.{moved};
ghost use Rattle.gds_record.specs.Numbers.{IsStored};
ghost use Rattle.gds_shape.specs.Extents.{at_point, IsExtent, IsNarrow, IsNear, LiesWithin, corner_move};
ghost use Rattle.gds_shape.specs.Boxes.{GoesRound, IsBox, is_in_box};

use crate::bounds::Bounds;
use crate::edges::moved;
use crate::error::ShapeError;
use crate::extent::{move_to_corner, points_extent};
use crate::lines::put_swept;
use crate::strip::put_gap;
use fill_base::{Point, Rect, is_coordinate};
use fill_region::Region;
use std::alloc::{AllocError, Global};

/// Whether the points agree in one coordinate.
fn is_aligned(from: Point, to: Point) -> bool
    ensures { IsTrue result ↔ IsAligned (from, to) }
{
    from.x == to.x || from.y == to.y
}

/// Whether all neighbouring points agree in one coordinate.
pub fn is_manhattan(points: &[Point]) -> bool
    ensures { IsTrue result ↔ IsManhattan points.now }
{
    let mut rest = points;
    'edges: while rest.len() > 1 {
        if !is_aligned(rest[0], rest[1]) {
            return false;
        }
        let (_, after) = rest.split_at(1);
        rest = after;
    }
    true
}

/// Whether both numbers of the point are coordinates.
fn is_point(point: &Point) -> bool
    ensures { IsTrue result ↔ IsPoint point.now }
{
    is_coordinate(point.x) && is_coordinate(point.y)
}

/// Whether all numbers of the points are coordinates.
fn are_in_range(points: &[Point]) -> bool
    ensures { IsTrue result ↔ All IsPoint points.now }
{
    points.iter().all(|point| is_point(point))
}

/// Whether the four corners make a rectangle, in either direction.
fn goes_round(a: Point, b: Point, c: Point, d: Point) -> bool
    ensures { IsTrue result → GoesRound a b c d }
{
    if a.x == b.x {
        b.y == c.y && c.x == d.x && d.y == a.y
    } else {
        a.y == b.y && b.x == c.x && c.y == d.y && d.x == a.x
    }
}

/// Whether the boundary is one rectangle of five points.
fn is_box(points: &[Point]) -> bool
    ensures { IsTrue result → IsBox points.now }
{
    match points {
        [a, b, c, d, _] => goes_round(*a, *b, *c, *d),
        _ => false,
    }
}

/// Appends the rectangle of two opposite corners, where it holds a square.
fn put_box(out: &mut Vec<Rect>, from: Point, to: Point) -> Result<(), AllocError>
    requires from { IsPoint from }
    requires to { IsPoint to }
    ensures { OnOk result ((x y : ℤ) → covered out.new.items x y
        ≡ (covered out.old.items x y || is_in_box from to x y)) }
{
    let left = from.x.min(to.x);
    let right = from.x.max(to.x);
    let bottom = from.y.min(to.y);
    let top = from.y.max(to.y);
    if bottom >= top {
        return Ok(());
    }
    put_gap(out, left, right, bottom, top, true)?;
    Ok(())
}

/// Appends the squares that the boundary covers once each point is moved by `by`, as rectangles that
/// share none. A boundary that is one rectangle costs no sort and no memory beside its place in the
/// list.
pub fn put_boundary(
    alloc: Global,
    out: &mut Vec<Rect>,
    points: &[Point],
    by: Point,
) -> Result<(), AllocError>
    requires manhattan { IsManhattan points.now }
    requires closed { IsClosed points.now }
    requires within { All IsPoint (map (moved by) points.now) }
    ensures { OnOk result ((x y : ℤ) → covered out.new.items x y
        ≡ (covered out.old.items x y || covers points.now (x -ℤ by.x) (y -ℤ by.y))) }
{
    if is_box(points) {
        put_box(out, moved(points[0], by), moved(points[2], by))?;
        return Ok(());
    }
    put_swept(alloc, out, points, by)?;
    Ok(())
}

/// Appends the squares that the boundary covers, moved so that its extent begins at the least
/// coordinates, and answers the extent. Nothing is appended where it's wider or taller than all
/// coordinates.
pub fn put_boundary_at_corner(
    alloc: Global,
    out: &mut Vec<Rect>,
    points: &[Point],
) -> Result<Bounds, AllocError>
    requires filled { 0 < length points.now }
    requires manhattan { IsManhattan points.now }
    requires closed { IsClosed points.now }
    requires stored { All IsStored points.now }
    ensures extent { IfOk result (λ b. IsExtent (map at_point points.now) b) }
    ensures near { IfOk result IsNear }
    ensures inside { IfOk result (LiesWithin (covers points.now)) }
    ensures added { IfOk result (λ b. IsNarrow b → (x y : ℤ) → covered out.new.items x y
        ≡ (covered out.old.items x y || covers points.now (x -ℤ (corner_move b).x) (y -ℤ (corner_move b).y))) }
    ensures wide { IfOk result (λ b. (¬ IsNarrow b) → out.new.items ≡ out.old.items) }
{
    let extent = points_extent(points);
    match move_to_corner(extent) {
        Some(by) => {
            put_boundary(alloc, out, points, by)?;
            Ok(extent)
        }
        None => Ok(extent),
    }
}

/// The squares that the boundary of these points covers, in database units.
///
/// # Errors
/// `NotManhattan` where two neighbouring points differ in both coordinates, else `OutOfRange` where a
/// point passes the coordinates from -2^30 to 2^30, or `Memory` where memory is refused.
pub fn boundary_region(alloc: Global, points: &[Point]) -> Result<Region, ShapeError>
    requires filled { 0 < length points.now }
    requires closed { IsClosed points.now }
    ensures not_manhattan { (result ≡ Err ShapeError.NotManhattan) ↔ ¬ IsManhattan points.now }
    ensures out_of_range { (result ≡ Err ShapeError.OutOfRange)
        ↔ (IsManhattan points.now × (¬ All IsPoint points.now)) }
    ensures refused { IfErr result (λ e. (e ≡ ShapeError.NotManhattan) ⊎ (e ≡ ShapeError.OutOfRange) ⊎ (e ≡ ShapeError.Memory)) }
    ensures region { IfOk result AreRuns }
    ensures squares { IfOk result (λ r. (x y : ℤ) → holds r x y ≡ covers points.now x y) }
{
    if !is_manhattan(points) {
        return Err(ShapeError::NotManhattan);
    }
    if !are_in_range(points) {
        return Err(ShapeError::OutOfRange);
    }
    let mut rects = Vec::new(alloc);
    put_boundary(alloc, &mut rects, points, Point { x: 0, y: 0 })?;
    let region = Region::from_rects(alloc, &rects)?;
    Ok(region)
}
