//! The shapes of some layers: each is filled once, and then carried to each of its copies.

ghost use Rattle.std.specs.Prelude.{◌≡◌, ◌⊎◌, ◌||◌, ◌↔◌, true, false, ℤ, [], None, Some, All, IfOk, IfErr, IfSome, IfNone, OnOk};
ghost use Rattle.fill_base.specs.Squares.{squares};
ghost use Rattle.fill_region.specs.Squares.{covered};
ghost use Rattle.gds_shape.specs.Paths.{AreInRange};
ghost use Rattle.gds_shape.specs.Extents.{IsNear};
ghost use Rattle.gds_grammar.specs.Values.{shape_of, shape_of_path};
ghost use Rattle.gds_cells.specs.Placements.{carried, carried_bounds, composed};
ghost use Rattle.gds_cells.specs.Shapes.{is_shape, covers_of, shape_fault, refusal_of, StaysInRange};
ghost use Rattle.gds_cells.specs.steps.Filled.{rects_in};
ghost use Rattle.gds_cells.specs.steps.Prepared.{edges_of, way_back};
ghost use Rattle.gds_cells.specs.steps.Ranges.{IsWithin};

use crate::error::FlattenError;
use crate::filled::Filled;
use crate::placement::Placement;
use crate::shape::Shape;
use fill_base::{LOWEST, Layer, Point, Rect};
use fill_region::Region;
use gds_grammar::{Boundary, Element, Path};
use gds_shape::{
    Bounds, ShapeError, is_in_range, is_manhattan, put_boundary_at_corner, put_path_at_corner,
};
use std::alloc::{AllocError, Global};
use std::slice;

impl From<ShapeError> for FlattenError {
    ghost from_gives = { λ error refusal. refusal ≡ refusal_of error };

    fn from(error: ShapeError) -> FlattenError {
        match error {
            ShapeError::NotManhattan => FlattenError::NotManhattan,
            ShapeError::RoundEnd => FlattenError::RoundEnd,
            ShapeError::OddWidth => FlattenError::OddWidth,
            ShapeError::DoublesBack => FlattenError::DoublesBack,
            ShapeError::BadExtension => FlattenError::BadExtension,
            ShapeError::OutOfRange => FlattenError::OutOfRange,
            ShapeError::Memory => FlattenError::Memory,
        }
    }
}

/// Whether the element is a boundary or path of one of the layers.
fn is_shape(element: &Element<'_>, layers: &[Layer]) -> bool
    ensures { result ≡ is_shape layers.now (shape_of element.now) }
{
    match element {
        Element::Boundary(boundary) => layers.contains(&boundary.layer),
        Element::Path(path) => layers.contains(&path.layer),
        Element::Ref(_) | Element::Array(_) => false,
    }
}

/// As many rectangles as this are made runs; fewer take less time to carry than runs to make.
const MANY: usize = 16;

/// Makes many rectangles fewer, with the same squares: the runs of these.
fn join(alloc: Global, rects: &mut Vec<Rect>) -> Result<(), AllocError>
    ensures { OnOk result ((x y : ℤ) → covered rects.new.items x y ≡ covered rects.old.items x y) }
{
    if rects.len() >= MANY {
        let region = Region::from_rects(alloc, rects)?;
        *rects = region.pieces(alloc)?;
    }
    Ok(())
}

/// The boundary, filled in the empty list of rectangles; `points` is room for its points.
fn boundary_shape<'a, 'b>(
    alloc: Global,
    points: &mut Vec<Point>,
    rects: &mut Vec<Rect>,
    element: &'a Element<'b>,
    boundary: &Boundary<'_>,
) -> Result<Shape<'a, 'b>, FlattenError>
    requires is { element.now ≡ Element.Boundary boundary.now }
    requires empty { rects.old.items ≡ [] }
    ensures empty { IfOk result (λ s. rects.new.items ≡ []) }
    ensures fine { IfOk result (λ s. shape_fault (shape_of element.now) ≡ None) }
    ensures same { IfOk result (λ s. s.element.now ≡ element.now) }
    ensures refused { IfErr result (λ e. (e ≡ FlattenError.Memory) ⊎ (shape_fault (shape_of element.now) ≡ Some e)) }
{
    boundary.points.put(points)?;
    if !is_manhattan(points) {
        return Err(FlattenError::NotManhattan);
    }
    let extent = put_boundary_at_corner(alloc, rects, points)?;
    join(alloc, rects)?;
    let filled = Filled::taken(alloc, rects, Some(extent))?;
    Ok(Shape { element, filled })
}

/// The path, filled in the empty list.
fn path_shape<'a, 'b>(
    alloc: Global,
    rects: &mut Vec<Rect>,
    element: &'a Element<'b>,
    path: &Path<'_>,
) -> Result<Shape<'a, 'b>, FlattenError>
    requires is { shape_of element.now ≡ shape_of_path path.now }
    requires empty { rects.old.items ≡ [] }
    ensures empty { IfOk result (λ s. rects.new.items ≡ []) }
    ensures fine { IfOk result (λ s. shape_fault (shape_of element.now) ≡ None) }
    ensures same { IfOk result (λ s. s.element.now ≡ element.now) }
    ensures refused { IfErr result (λ e. (e ≡ FlattenError.Memory) ⊎ (shape_fault (shape_of element.now) ≡ Some e)) }
{
    let extent = put_path_at_corner(alloc, rects, path)?;
    let filled = Filled::taken(alloc, rects, extent)?;
    Ok(Shape { element, filled })
}

/// The element, filled, if it's a boundary or path of one of the layers; `None` for every other
/// one, which isn't looked at. The lists are room for its points, and one to fill it in, empty before and
/// afterwards.
///
/// # Errors
/// `NotManhattan`, `RoundEnd`, `OddWidth`, `DoublesBack` or `BadExtension`, the first in this order
/// that the shape has, or `Memory` where memory is refused.
pub fn shape_of<'a, 'b>(
    alloc: Global,
    points: &mut Vec<Point>,
    rects: &mut Vec<Rect>,
    element: &'a Element<'b>,
    layers: &[Layer],
) -> Result<Option<Shape<'a, 'b>>, FlattenError>
    requires { rects.old.items ≡ [] }
    ensures empty { IfOk result (λ o. rects.new.items ≡ []) }
    ensures none { IfOk result (λ o. IfNone o (is_shape layers.now (shape_of element.now) ≡ false)) }
    ensures some { IfOk result (λ o. IfSome o (λ s. (is_shape layers.now (shape_of element.now) ≡ true)
        × (shape_fault (shape_of element.now) ≡ None) × (s.element.now ≡ element.now))) }
    ensures refused { IfErr result (λ e. (e ≡ FlattenError.Memory)
        ⊎ ((is_shape layers.now (shape_of element.now) ≡ true) × (shape_fault (shape_of element.now) ≡ Some e))) }
{
    if !is_shape(element, layers) {
        return Ok(None);
    }
    match element {
        Element::Boundary(boundary) => Ok(Some(boundary_shape(
            alloc, points, rects, element, boundary,
        )?)),
        Element::Path(path) => Ok(Some(path_shape(alloc, rects, element, path)?)),
        Element::Ref(_) | Element::Array(_) => Ok(None),
    }
}

/// The edges of a rectangle.
fn edges_of(rect: &Rect) -> Bounds
    ensures { result ≡ edges_of rect.now }
{
    Bounds {
        left: rect.x1(),
        bottom: rect.y1(),
        right: rect.x2(),
        top: rect.y2(),
    }
}

/// Where a rectangle goes.
pub fn carried_bounds(at: &Placement, bounds: &Bounds) -> Bounds
    requires within { IsWithin 258 at.now }
    requires near { IsNear bounds.now }
    ensures { result ≡ carried_bounds at.now bounds.now }
{
    let (x1, y1) = (
        at.point_x(bounds.left, bounds.bottom),
        at.point_y(bounds.left, bounds.bottom),
    );
    let (x2, y2) = (
        at.point_x(bounds.right, bounds.top),
        at.point_y(bounds.right, bounds.top),
    );
    Bounds {
        left: x1.min(x2),
        bottom: y1.min(y2),
        right: x1.max(x2),
        top: y1.max(y2),
    }
}

/// The squares of a rectangle, carried so.
fn carried_rect(at: &Placement, rect: &Rect) -> Rect
    requires within { IsWithin 258 at.now }
    requires inside { AreInRange (carried_bounds at.now (edges_of rect.now)) }
    ensures { (x y : ℤ) → squares result x y ≡ carried at.now (squares rect.now) x y }
{
    let edges = carried_bounds(at, &edges_of(rect));
    Rect::from_edges(edges.left, edges.bottom, edges.right, edges.top)
}

/// Appends the squares of the rectangles, carried so.
fn carry_pieces(pieces: &[Rect], at: &Placement, out: &mut Vec<Rect>) -> Result<(), AllocError>
    requires within { IsWithin 258 at.now }
    requires inside { All (λ r. AreInRange (carried_bounds at.now (edges_of r))) pieces.now }
    ensures { OnOk result ((x y : ℤ) → covered out.new.items x y
        ≡ (covered out.old.items x y || carried at.now (covered pieces.now) x y)) }
{
    'pieces: for piece in pieces {
        out.push(carried_rect(at, piece))?;
    }
    Ok(())
}

/// The same of the rectangles that a shape covers.
fn carry_filled(filled: &Filled, at: &Placement, out: &mut Vec<Rect>) -> Result<(), AllocError>
    requires within { IsWithin 258 at.now }
    requires inside { All (λ r. AreInRange (carried_bounds at.now (edges_of r))) (rects_in filled.now) }
    ensures { OnOk result ((x y : ℤ) → covered out.new.items x y
        ≡ (covered out.old.items x y || carried at.now (covered (rects_in filled.now)) x y)) }
{
    match filled {
        Filled::Whole(one) => carry_pieces(slice::from_ref(&one.rect()), at, out),
        Filled::Parts(parts) => carry_pieces(&parts.rects, at, out),
    }
}

/// How pieces at the corner are carried where the shape is carried so.
fn from_corner(at: &Placement, extent: &Bounds) -> Placement
    requires within { IsWithin 257 at.now }
    requires near { IsNear extent.now }
    ensures is { result ≡ composed at.now (way_back extent.now) }
    ensures within { IsWithin 258 result }
{
    at.after(&Placement::shift(extent.left - LOWEST, extent.bottom - LOWEST))
}

/// Appends the squares that the shape covers, carried so.
///
/// # Errors
/// `OutOfRange` where its points or the rectangles of its segments would pass the coordinates from
/// -2^30 to 2^30, or `Memory` where memory is refused.
pub fn carry_shape(
    shape: &Shape<'_, '_>,
    at: &Placement,
    out: &mut Vec<Rect>,
) -> Result<(), FlattenError>
    requires { IsWithin 257 at.now }
    ensures inside { OnOk result (StaysInRange at.now (shape_of shape.now.element.now)) }
    ensures added { OnOk result ((x y : ℤ) → covered out.new.items x y
        ≡ (covered out.old.items x y || carried at.now (covers_of (shape_of shape.now.element.now)) x y)) }
    ensures refused { IfErr result (λ e. (e ≡ FlattenError.Memory)
        ⊎ ((e ≡ FlattenError.OutOfRange) × (StaysInRange at.now (shape_of shape.now.element.now) → ⊥))) }
{
    let Some(extent) = shape.filled.extent() else {
        return Ok(());
    };
    if !is_in_range(&carried_bounds(at, &extent)) {
        return Err(FlattenError::OutOfRange);
    }
    carry_filled(&shape.filled, &from_corner(at, &extent), out)?;
    Ok(())
}
