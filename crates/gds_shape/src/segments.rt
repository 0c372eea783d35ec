//! The segments of a path as rectangles.

ghost use Rattle.std.specs.Prelude.{◌≡◌, ◌||◌, ◌-ℤ◌, ℤ, drop, map, All, IsTrue, ◌↔◌, IfOk, OnOk};
ghost use Rattle.std.specs.Ordering.{int_eq};
ghost use Rattle.std.specs.List.{list_any};
ghost use Rattle.fill_base.specs.Coordinates.{IsCoordinate};
ghost use Rattle.fill_region.specs.Squares.{covered};
ghost use Rattle.gds_record.specs.Numbers.{IsStored};
ghost use Rattle.gds_shape.specs.Moves.{moved_bounds};
ghost use Rattle.gds_shape.specs.Paths.{low_end, high_end, segment, segments, ending, in_bounds, AreInRange};
ghost use Rattle.gds_shape.specs.steps.Ranges.{IsStretch};

use crate::bounds::Bounds;
use crate::strip::put_gap;
use fill_base::{Point, Rect, is_coordinate};
use std::alloc::{AllocError, Global};

/// The lesser end of a segment from `a` to `b`.
fn low_end(a: i64, b: i64, before: i64, after: i64) -> i64
    requires a { IsStretch a }
    requires b { IsStretch b }
    requires before { IsStretch before }
    requires after { IsStretch after }
    ensures { result ≡ low_end a b before after }
{
    if a < b { a - before } else { b - after }
}

/// The greater end of a segment from `a` to `b`.
fn high_end(a: i64, b: i64, before: i64, after: i64) -> i64
    requires a { IsStretch a }
    requires b { IsStretch b }
    requires before { IsStretch before }
    requires after { IsStretch after }
    ensures { result ≡ high_end a b before after }
{
    if a < b { b + after } else { a + before }
}

/// Whether the segment goes up or down.
fn is_upright(from: Point, to: Point) -> bool
    ensures { result ≡ int_eq from.x to.x }
{
    from.x == to.x
}

/// The rectangle of a segment, `half` to both sides and so far past its ends.
fn segment(from: Point, to: Point, half: i64, before: i64, after: i64) -> Bounds
    requires from { IsStored from }
    requires to { IsStored to }
    requires half { IsStretch half }
    requires before { IsStretch before }
    requires after { IsStretch after }
    ensures { result ≡ segment from to half before after }
{
    if is_upright(from, to) {
        return Bounds {
            left: from.x - half,
            bottom: low_end(from.y, to.y, before, after),
            right: from.x + half,
            top: high_end(from.y, to.y, before, after),
        };
    }
    Bounds {
        left: low_end(from.x, to.x, before, after),
        bottom: from.y - half,
        right: high_end(from.x, to.x, before, after),
        top: from.y + half,
    }
}

/// How far the first segment goes past its end: half the width where another follows.
fn ending(half: i64, after: i64, corners: &[Point]) -> i64
    ensures { result ≡ ending half after (drop 2 corners.now) }
{
    if corners.len() > 2 { half } else { after }
}

/// The rectangles of the segments between corners, in their order.
pub fn segments_along(
    alloc: Global,
    corners: &[Point],
    half: i64,
    before: i64,
    after: i64,
) -> Result<Vec<Bounds>, AllocError>
    requires stored { All IsStored corners.now }
    requires half { IsStretch half }
    requires before { IsStretch before }
    requires after { IsStretch after }
    ensures { IfOk result (λ v. v.items ≡ segments half before after corners.now) }
{
    let mut made = Vec::new(alloc);
    let mut rest = corners;
    let mut longer = before;
    'segments: while rest.len() > 1 {
        let end = ending(half, after, rest);
        made.push(segment(rest[0], rest[1], half, longer, end))?;
        let (_, behind) = rest.split_at(1);
        rest = behind;
        longer = half;
    }
    Ok(made)
}

/// Whether both numbers are coordinates.
fn are_coordinates(x: i64, y: i64) -> bool
    ensures { IsTrue result ↔ (IsCoordinate x × IsCoordinate y) }
{
    is_coordinate(x) && is_coordinate(y)
}

/// Whether the four edges are coordinates.
pub fn is_in_range(bounds: &Bounds) -> bool
    ensures { IsTrue result ↔ AreInRange bounds.now }
{
    are_coordinates(bounds.left, bounds.bottom) && are_coordinates(bounds.right, bounds.top)
}

/// Whether all edges are coordinates.
pub fn are_in_range(all: &[Bounds]) -> bool
    ensures { IsTrue result ↔ All AreInRange all.now }
{
    all.iter().all(|bounds| is_in_range(bounds))
}

/// The rectangle, moved by `by`.
fn moved_bounds(bounds: Bounds, by: Point) -> Bounds
    requires { AreInRange (moved_bounds by bounds) }
    ensures { result ≡ moved_bounds by bounds }
{
    Bounds {
        left: bounds.left + by.x,
        bottom: bounds.bottom + by.y,
        right: bounds.right + by.x,
        top: bounds.top + by.y,
    }
}

/// Appends the rectangle, where it holds a square.
fn put_one(out: &mut Vec<Rect>, bounds: Bounds) -> Result<(), AllocError>
    requires { AreInRange bounds }
    ensures { OnOk result ((x y : ℤ) → covered out.new.items x y
        ≡ (covered out.old.items x y || in_bounds bounds x y)) }
{
    if bounds.bottom >= bounds.top {
        return Ok(());
    }
    put_gap(
        out,
        bounds.left,
        bounds.right,
        bounds.bottom,
        bounds.top,
        true,
    )?;
    Ok(())
}

/// Appends the squares of the rectangles, each moved by `by`.
pub fn put_bounds(out: &mut Vec<Rect>, all: &[Bounds], by: Point) -> Result<(), AllocError>
    requires { All AreInRange (map (moved_bounds by) all.now) }
    ensures { OnOk result ((x y : ℤ) → covered out.new.items x y
        ≡ (covered out.old.items x y || list_any (λ b. in_bounds b (x -ℤ by.x) (y -ℤ by.y)) all.now)) }
{
    'all: for bounds in all {
        put_one(out, moved_bounds(*bounds, by))?;
    }
    Ok(())
}
