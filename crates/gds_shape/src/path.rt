//! Paths: wires of even width along an axis. A path covers the rectangles of the segments between
//! its corners; a path without a width, or with one corner, covers nothing and isn't checked.

ghost use Rattle.std.specs.Prelude.{◌≡◌, ◌⊎◌, ◌||◌, ◌-ℤ◌, [], not, pos, ℤ, None, Some, All, MatchResult, IfOk, IfErr, IfSome, IfNone};
ghost use Rattle.std.specs.List.{list_any};
ghost use Rattle.std.specs.Ordering.{int_eq};
ghost use Rattle.gds_grammar.specs.Values.{wire_of};
ghost use Rattle.fill_region.specs.Runs.{holds, AreRuns};
ghost use Rattle.fill_region.specs.Squares.{covered};
ghost use Rattle.gds_shape.specs.Extents.{IsExtent, IsNarrow, IsNear, LiesWithin, corner_move};
ghost use Rattle.gds_shape.specs.Winding.{edges};
ghost use Rattle.gds_shape.specs.steps.Ranges.{IsStretch};
ghost use Rattle.gds_shape.specs.Paths.{is_slanted, width_of, type_of, half_of, extension, begin_of, end_of, has_round_end, has_odd_width, has_bad_extension, fault_among, path_fault, segments_of, path_covers, AreInRange, IsPathRefusal};

use crate::boundary::is_manhattan;
use crate::bounds::Bounds;
use crate::corners::{corners_of, doubles_back};
use crate::error::ShapeError;
use crate::extent::{bounds_extent, move_to_corner};
use crate::segments::{are_in_range, put_bounds, segments_along};
use fill_base::{Point, Rect};
use fill_region::Region;
use gds_grammar::Path;
use std::alloc::{AllocError, Global};

/// WIDTH, 0 where it is left out.
fn width_of(path: &Path) -> i32
    ensures { result ≡ width_of (wire_of path.now) }
{
    path.width.unwrap_or(0)
}

/// PATHTYPE, 0 where it is left out.
fn type_of(path: &Path) -> u16
    ensures { result ≡ type_of (wire_of path.now) }
{
    path.path_type.unwrap_or(0)
}

/// Half the absolute value of WIDTH.
fn half_of(path: &Path) -> i64
    ensures value { result ≡ half_of (wire_of path.now) }
    ensures small { IsStretch result }
{
    i64::from(width_of(path).unsigned_abs() / 2)
}

/// How far the path goes past one of its ends: by its type.
fn extension(path_type: u16, half: i64, given: Option<i32>) -> i64
    requires { IsStretch half }
    ensures value { result ≡ extension path_type half given }
    ensures small { IsStretch result }
{
    match path_type {
        2 => half,
        4 => i64::from(given.unwrap_or(0)),
        _ => 0,
    }
}

/// How far the path goes past its first corner.
fn begin_of(path: &Path) -> i64
    ensures value { result ≡ begin_of (wire_of path.now) }
    ensures small { IsStretch result }
{
    extension(type_of(path), half_of(path), path.begin_extension)
}

/// How far the path goes past its last corner.
fn end_of(path: &Path) -> i64
    ensures value { result ≡ end_of (wire_of path.now) }
    ensures small { IsStretch result }
{
    extension(type_of(path), half_of(path), path.end_extension)
}

fn has_round_end(path: &Path) -> bool
    ensures { result ≡ has_round_end (wire_of path.now) }
{
    !matches!(type_of(path), 0 | 2 | 4)
}

fn has_odd_width(path: &Path) -> bool
    ensures { result ≡ has_odd_width (wire_of path.now) }
{
    width_of(path).unsigned_abs() % 2 == 1
}

fn has_bad_extension(path: &Path) -> bool
    ensures { result ≡ has_bad_extension (wire_of path.now) }
{
    type_of(path) == 4 && (begin_of(path) < 0 || end_of(path) < 0)
}

/// Whether a segment lies along no axis.
fn has_slanted(corners: &[Point]) -> bool
    ensures { result ≡ list_any is_slanted (edges corners.now) }
{
    !is_manhattan(corners)
}

/// Why a path with these corners is refused.
fn fault_among(path: &Path, corners: &[Point]) -> Option<ShapeError>
    ensures { result ≡ fault_among (wire_of path.now) corners.now }
{
    if has_slanted(corners) {
        return Some(ShapeError::NotManhattan);
    }
    if has_round_end(path) {
        return Some(ShapeError::RoundEnd);
    }
    if has_odd_width(path) {
        return Some(ShapeError::OddWidth);
    }
    if doubles_back(corners) {
        return Some(ShapeError::DoublesBack);
    }
    if has_bad_extension(path) {
        return Some(ShapeError::BadExtension);
    }
    None
}

/// Whether the path has a width.
fn has_width(path: &Path) -> bool
    ensures { result ≡ not (int_eq (width_of (wire_of path.now)) (pos 0)) }
{
    width_of(path) != 0
}

/// The rectangles of the path's segments, which together are what it covers; none where it has no
/// width, or where its points are all equal.
///
/// # Errors
/// `NotManhattan` where a segment lies along no axis, else `RoundEnd`, `OddWidth`, `DoublesBack` or
/// `BadExtension`, the first in this order, or `Memory` where memory is refused.
pub fn path_segments(alloc: Global, path: &Path) -> Result<Vec<Bounds>, ShapeError>
    ensures is { MatchResult result
        (λ v. (path_fault (wire_of path.now) ≡ None) × (v.items ≡ segments_of (wire_of path.now)))
        (λ e. (e ≡ ShapeError.Memory) ⊎ (path_fault (wire_of path.now) ≡ Some e)) }
    ensures near { IfOk result (λ v. All IsNear v.items) }
{
    if !has_width(path) {
        return Ok(Vec::new(alloc));
    }
    let points = path.points.to_vec(alloc)?;
    let corners = corners_of(alloc, &points)?;
    if corners.len() < 2 {
        return Ok(Vec::new(alloc));
    }
    if let Some(fault) = fault_among(path, &corners) {
        return Err(fault);
    }
    let half = half_of(path);
    let segments = segments_along(alloc, &corners, half, begin_of(path), end_of(path))?;
    Ok(segments)
}

/// Appends the squares that the path covers, moved so that the extent of its segments begins at the
/// least coordinates, and answers the extent; `None` where the path covers nothing. Nothing is
/// appended where it's wider or taller than all coordinates.
///
/// # Errors
/// Those of `path_segments`, or `Memory` where memory is refused.
pub fn put_path_at_corner(
    alloc: Global,
    out: &mut Vec<Rect>,
    path: &Path,
) -> Result<Option<Bounds>, ShapeError>
    ensures fine { IfOk result (λ o. path_fault (wire_of path.now) ≡ None) }
    ensures none { IfOk result (λ o. IfNone o ((segments_of (wire_of path.now) ≡ []) × (out.new.items ≡ out.old.items))) }
    ensures segments { IfOk result (λ o. All IsNear (segments_of (wire_of path.now))) }
    ensures extent { IfOk result (λ o. IfSome o (λ b. IsExtent (segments_of (wire_of path.now)) b × IsNear b
        × LiesWithin (path_covers (wire_of path.now)) b)) }
    ensures added { IfOk result (λ o. IfSome o (λ b. IsNarrow b → (x y : ℤ) → covered out.new.items x y
        ≡ (covered out.old.items x y || path_covers (wire_of path.now) (x -ℤ (corner_move b).x) (y -ℤ (corner_move b).y)))) }
    ensures wide { IfOk result (λ o. IfSome o (λ b. (¬ IsNarrow b) → out.new.items ≡ out.old.items)) }
    ensures refused { IfErr result (λ e. (e ≡ ShapeError.Memory) ⊎ (path_fault (wire_of path.now) ≡ Some e)) }
{
    let segments = path_segments(alloc, path)?;
    if segments.is_empty() {
        return Ok(None);
    }
    let extent = bounds_extent(&segments);
    match move_to_corner(extent) {
        Some(by) => {
            put_bounds(out, &segments, by)?;
            Ok(Some(extent))
        }
        None => Ok(Some(extent)),
    }
}

/// The squares that the path covers, in database units.
///
/// # Errors
/// Those of `path_segments`, else `OutOfRange` where a segment's rectangle passes the coordinates
/// from -2^30 to 2^30, or `Memory` where memory is refused.
pub fn path_region(alloc: Global, path: &Path) -> Result<Region, ShapeError>
    ensures ok { IfOk result (λ r. AreRuns r × (path_fault (wire_of path.now) ≡ None)
        × All AreInRange (segments_of (wire_of path.now))) }
    ensures squares { IfOk result (λ r. (x y : ℤ) → holds r x y ≡ path_covers (wire_of path.now) x y) }
    ensures refused { IfErr result (λ e. IsPathRefusal (wire_of path.now) e) }
{
    let segments = path_segments(alloc, path)?;
    if !are_in_range(&segments) {
        return Err(ShapeError::OutOfRange);
    }
    let mut rects = Vec::new(alloc);
    put_bounds(&mut rects, &segments, Point { x: 0, y: 0 })?;
    let region = Region::from_rects(alloc, &rects)?;
    Ok(region)
}
