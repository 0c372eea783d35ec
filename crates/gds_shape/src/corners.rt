//! The corners of a path: its points but for those that equal a neighbour or lie between them.

ghost use Rattle.std.specs.Prelude.{◌≡◌, ◌∷◌, ◌++◌, [], List, IfOk, OnOk};
ghost use Rattle.fill_base.specs.declared.place.Point.{Point};
ghost use Rattle.gds_shape.specs.Paths.{is_inside, goes_on, is_inner, is_dropped, corners_from, corners, on_one_line, doubles_back};

use fill_base::Point;
use std::alloc::{AllocError, Global};

/// Whether `b` lies strictly between `a` and `c`.
fn is_inside(a: i64, b: i64, c: i64) -> bool
    ensures { result ≡ is_inside a b c }
{
    (a < b && b < c) || (c < b && b < a)
}

/// Whether the first three numbers are one, and the middle one of the others lies strictly between
/// its neighbours.
fn goes_on(a: i64, b: i64, c: i64, d: i64, e: i64, f: i64) -> bool
    ensures { result ≡ goes_on a b c d e f }
{
    a == b && b == c && is_inside(d, e, f)
}

/// Whether the point in the middle lies strictly between its neighbours on one line.
fn is_inner(from: Point, to: Point, next: Point) -> bool
    ensures { result ≡ is_inner from to next }
{
    goes_on(from.x, to.x, next.x, from.y, to.y, next.y)
        || goes_on(from.y, to.y, next.y, from.x, to.x, next.x)
}

/// Whether the point in the middle equals a neighbour or lies strictly between them on one line.
fn is_dropped(from: Point, to: Point, next: Point) -> bool
    ensures { result ≡ is_dropped from to next }
{
    from == to || to == next || is_inner(from, to, next)
}

/// Takes in the next point. What begins the segment that ends there is the answer; the corner before
/// it is appended, unless the segment only grew.
fn take_in(kept: &mut Vec<Point>, from: Point, to: Point, next: Point) -> Result<Point, AllocError>
    ensures { IfOk result (λ start. (rest : List Point) → kept.new.items ++ corners_from start next rest
        ≡ kept.old.items ++ corners_from from to (next ∷ rest)) }
{
    if is_dropped(from, to, next) {
        return Ok(from);
    }
    kept.push(from)?;
    Ok(to)
}

/// Appends the last segment's ends, or the one point that all are equal to.
fn put_last(kept: &mut Vec<Point>, from: Point, to: Point) -> Result<(), AllocError>
    ensures { OnOk result (kept.new.items ≡ kept.old.items ++ corners_from from to []) }
{
    kept.push(from)?;
    if from != to {
        kept.push(to)?;
    }
    Ok(())
}

/// The corners of a path.
pub fn corners_of(alloc: Global, points: &[Point]) -> Result<Vec<Point>, AllocError>
    ensures { IfOk result (λ v. v.items ≡ corners points.now) }
{
    let mut kept = Vec::new(alloc);
    let Some(first) = points.first() else {
        return Ok(kept);
    };
    let mut from = *first;
    let mut to = *first;
    'points: for point in points {
        from = take_in(&mut kept, from, to, *point)?;
        to = *point;
    }
    put_last(&mut kept, from, to)?;
    Ok(kept)
}

/// Whether three points lie on one line along an axis.
fn on_one_line(p: Point, q: Point, r: Point) -> bool
    ensures { result ≡ on_one_line p q r }
{
    (p.x == q.x && q.x == r.x) || (p.y == q.y && q.y == r.y)
}

/// Whether a segment between corners goes back along the one before it.
pub fn doubles_back(corners: &[Point]) -> bool
    ensures { result ≡ doubles_back corners.now }
{
    let mut rest = corners;
    'corners: while rest.len() > 2 {
        if on_one_line(rest[0], rest[1], rest[2]) {
            return true;
        }
        let (_, after) = rest.split_at(1);
        rest = after;
    }
    false
}
