//! The cuts of a mesh along an axis: where windows have so many sides that cells between them would be far more than the rectangles, the
//! edges of these.
ghost use Rattle.std.specs.Prelude.{◌≡◌, ℤ, IfOk, OnOk, All};
ghost use Rattle.std.specs.List.{Contains, flat_map};
ghost use Rattle.std.specs.Vec.{vec_items};
ghost use Rattle.fill_area.specs.Parts.{AreParts};
ghost use Rattle.fill_base.specs.Coordinates.{IsCoordinate};
ghost use Rattle.fill_cells.specs.Mesh.{AreCuts};
ghost use Rattle.fill_region.specs.Squares.{covered};
ghost use Rattle.fill_measure.specs.steps.Ends.{AreAmong};
ghost use Rattle.fill_measure.specs.steps.Uniform.{IsUniformAboutEnds, along};
ghost use Rattle.fill_measure.specs.steps.Edges.{HoldEdges, IsFromTo};

use crate::cuts::{cuts_of, with_clip};
use crate::lists::count_of;
use fill_area::Parts;
use fill_base::Rect;
use fill_cells::cuts_at;
use std::alloc::{AllocError, Global};

/// Windows with so many sides along an axis are cut by them, however few the rectangles are.
const FEW_SIDES: usize = 65_536;

/// An axis of the plane.
#[derive(Clone, Copy)]
pub(crate) enum Direction {
    /// From left to right.
    Across,
    /// Upwards.
    Up,
}

/// The cuts of a mesh of rectangles along an axis: both ends of each span, and further cuts where these are further apart than the pitch.
/// Where the spans have many ends and the rectangles have fewer edges, the cuts are at the edges: from one to the next
/// the set of squares is uniform, so that an area up to an end amid them is told by theirs.
pub(crate) fn mesh_cuts(
    alloc: Global,
    lists: &[Vec<Rect>],
    parts: Parts,
    direction: Direction,
    pitch: u64,
) -> Result<Vec<i64>, AllocError>
    requires { AreParts parts }
    ensures cuts { IfOk result (λ v. AreCuts v.items) }
    ensures among { IfOk result (λ v. AreAmong v.items parts) }
    ensures uniform { IfOk result (λ v. IsUniformAboutEnds (along direction (covered (flat_map vec_items lists.now))) v.items parts) }
{
    let sides = 2 * parts.axis.count as usize;
    if sides <= FEW_SIDES || sides <= count_of(lists).saturating_mul(2) {
        cuts_of(alloc, parts, pitch)
    } else {
        edge_cuts(alloc, lists, parts, direction)
    }
}

/// The cuts at the rectangles' edges, and at the numbers between which spans count.
fn edge_cuts(
    alloc: Global,
    lists: &[Vec<Rect>],
    parts: Parts,
    direction: Direction,
) -> Result<Vec<i64>, AllocError>
    requires { AreParts parts }
    ensures cuts { IfOk result (λ v. AreCuts v.items) }
    ensures among { IfOk result (λ v. AreAmong v.items parts) }
    ensures uniform { IfOk result (λ v. IsUniformAboutEnds (along direction (covered (flat_map vec_items lists.now))) v.items parts) }
{
    let edges = edges_of(alloc, lists, direction)?;
    let numbers = with_clip(edges, parts)?;
    Ok(cuts_at(numbers))
}

/// Both edges of each rectangle.
fn edges_of(
    alloc: Global,
    lists: &[Vec<Rect>],
    direction: Direction,
) -> Result<Vec<i64>, AllocError>
    ensures coordinates { IfOk result (λ v. All IsCoordinate v.items) }
    ensures edges { IfOk result (λ v. HoldEdges direction (flat_map vec_items lists.now) v.items) }
{
    let mut edges = Vec::new(alloc);
    for list in lists {
        put_edges(&mut edges, list, direction)?;
    }
    Ok(edges)
}

/// Puts both edges of each rectangle to numbers.
fn put_edges(numbers: &mut Vec<i64>, rects: &[Rect], direction: Direction) -> Result<(), AllocError>
    requires coordinates { All IsCoordinate numbers.old.items }
    ensures coordinates { OnOk result (All IsCoordinate numbers.new.items) }
    ensures kept { OnOk result ((z : ℤ) → Contains numbers.old.items z → Contains numbers.new.items z) }
    ensures edges { OnOk result (HoldEdges direction rects.now numbers.new.items) }
{
    for rect in rects {
        let (begin, end) = extent(rect, direction);
        numbers.push(begin)?;
        numbers.push(end)?;
    }
    Ok(())
}

/// From where to where a rectangle reaches along an axis.
fn extent(rect: &Rect, direction: Direction) -> (i64, i64)
    ensures { IsFromTo direction rect.now result.0 result.1 }
{
    match direction {
        Direction::Across => (rect.x1(), rect.x2()),
        Direction::Up => (rect.y1(), rect.y2()),
    }
}
