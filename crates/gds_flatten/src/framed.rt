//! Finds what lies within a frame: only copies of cells whose extent meets it are entered, and what lies within as a whole is kept to be carried.

ghost use Rattle.std.specs.Prelude.{◌≡◌, ◌+◌, ◌-◌, ◌<◌, ◌<ℤ◌, ◌≤◌, ◌^◌, ◌&&◌, ◌||◌, ◌++◌, ℤ, true, false, List, map, IfOk, IfErr, OnOk};
ghost use Rattle.std.specs.List.{flat_map};
ghost use Rattle.std.specs.Vec.{vec_items};
ghost use Rattle.fill_base.specs.Squares.{squares};
ghost use Rattle.fill_region.specs.Squares.{covered};
ghost use Rattle.gds_grammar.specs.Values.{shape_of};
ghost use Rattle.gds_cells.specs.declared.cell.Cell.{Cell};
ghost use Rattle.gds_cells.specs.Copies.{carry_copy, copies};
ghost use Rattle.gds_cells.specs.Placements.{carried, carried_bounds};
ghost use Rattle.gds_cells.specs.Shapes.{covers_of, StaysInRange};
ghost use Rattle.gds_cells.specs.steps.Counting.{AreCounted};
ghost use Rattle.gds_cells.specs.steps.Prepared.{IsOrdered};
ghost use Rattle.gds_cells.specs.steps.Ranges.{IsWithin};
ghost use Rattle.gds_cells.specs.steps.Walks.{shape_copies, hierarchy};
ghost use Rattle.gds_flatten.specs.Frames.{overlap, meets};
ghost use Rattle.gds_flatten.specs.steps.Finding.{IsReady, IsFound, IsRefusalOn};
ghost use Rattle.gds_flatten.specs.steps.Framing.{extent_at, IsMissed, IsStrictly, AreInside, IsFine, AreHeld};
ghost use Rattle.gds_flatten.specs.steps.Roots.{turns_copies};

use crate::corners::{are_close, turns_extent};
use crate::found::{Found, Framed, MOST};
use crate::turns::Turns;
use crate::walk::{cell_at, turns_of};
use fill_base::Rect;
use gds_cells::{FlattenError, Placement, Shape, carried_bounds, carry_shape, number_at};
use gds_shape::Bounds;
use std::alloc::{AllocError, Global};

/// Whether the numbers from `a` up to `b` and those from `c` up to `d` overlap.
fn overlap(a: i64, b: i64, c: i64, d: i64) -> bool
    ensures { result ≡ overlap a b c d }
{
    a < d && c < b
}

/// Whether the rectangle and the bounds share a square.
pub fn meets(frame: &Rect, bounds: &Bounds) -> bool
    ensures { result ≡ meets frame.now bounds.now }
{
    overlap(bounds.left, bounds.right, frame.x1(), frame.x2())
        && overlap(bounds.bottom, bounds.top, frame.y1(), frame.y2())
}

/// Appends the squares that both rectangles hold.
fn put_common(out: &mut Vec<Rect>, rect: &Rect, frame: &Rect) -> Result<(), AllocError>
    ensures { OnOk result ((x y : ℤ) → covered out.new.items x y ≡ (covered out.old.items x y || (squares rect.now x y && squares frame.now x y))) }
{
    if let Some(part) = rect.clip(frame) {
        out.push(part)?;
    }
    Ok(())
}

/// Appends the squares of the rectangles that the frame holds too.
fn put_clipped(out: &mut Vec<Rect>, rects: &[Rect], frame: &Rect) -> Result<(), AllocError>
    ensures { OnOk result ((x y : ℤ) → covered out.new.items x y ≡ (covered out.old.items x y || (covered rects.now x y && squares frame.now x y))) }
{
    'rects: for rect in rects {
        put_common(out, rect, frame)?;
    }
    Ok(())
}

/// The squares of all these rectangles that the frame holds too.
pub fn clipped(alloc: Global, parts: &[Vec<Rect>], frame: &Rect) -> Result<Vec<Rect>, AllocError>
    ensures { IfOk result (λ v. (x y : ℤ) → covered v.items x y ≡ (covered (flat_map vec_items parts.now) x y && squares frame.now x y)) }
{
    let mut kept = Vec::new(alloc);
    'parts: for part in parts {
        put_clipped(&mut kept, part, frame)?;
    }
    Ok(kept)
}

/// Where an extent goes.
pub fn carried_extent(at: &Placement, bounds: &Bounds) -> Bounds
    requires within { IsWithin 258 at.now }
    requires fine { IsFine bounds.now }
    ensures { result ≡ carried_bounds at.now bounds.now }
{
    let (x1, y1) = (
        at.point_x(bounds.left, bounds.bottom),
        at.point_y(bounds.left, bounds.bottom),
    );
    let (x2, y2) = (
        at.point_x(bounds.right, bounds.top),
        at.point_y(bounds.right, bounds.top),
    );
    Bounds {
        left: x1.min(x2),
        bottom: y1.min(y2),
        right: x1.max(x2),
        top: y1.max(y2),
    }
}

/// Counts so many copies more.
///
/// # Errors
/// `TooManyShapes` where there are more than 4,000,000 then.
fn count_copies(copies: usize, more: usize) -> Result<usize, FlattenError>
    requires before { copies ≤ 4000000 }
    requires more { more ≤ 2 ^ 60 }
    ensures counted { IfOk result (λ n. n ≡ copies + more) }
    ensures few { IfOk result (λ n. n ≤ 4000000) }
    ensures refused { IfErr result (λ e. (e ≡ FlattenError.TooManyShapes) × (4000000 < copies + more)) }
{
    let total = copies + more;
    if total > MOST {
        return Err(FlattenError::TooManyShapes);
    }
    Ok(total)
}

/// Appends what the shape covers, carried so, unless it passes the range: then the design is refused for it, and nothing is appended.
fn carry_if_inside(
    shape: &Shape<'_, '_>,
    at: &Placement,
    out: &mut Vec<Rect>,
) -> Result<(), FlattenError>
    requires { IsWithin 257 at.now }
    ensures added { OnOk result (StaysInRange at.now (shape_of shape.now.element.now) → (x y : ℤ) → covered out.new.items x y
        ≡ (covered out.old.items x y || carried at.now (covers_of (shape_of shape.now.element.now)) x y)) }
    ensures refused { IfErr result (λ e. e ≡ FlattenError.Memory) }
{
    match carry_shape(shape, at, out) {
        Ok(()) => Ok(()),
        Err(FlattenError::OutOfRange) => Ok(()),
        Err(error) => Err(error),
    }
}

/// Counts the shape, carried so, and appends what it covers, where its extent meets the frame.
fn find_shape(
    framed: &Framed<'_, '_, '_>,
    shape: &Shape<'_, '_>,
    at: &Placement,
    found: &mut Found,
) -> Result<(), FlattenError>
    requires { IsWithin 257 at.now }
    ensures found { OnOk result (IsFound framed.now (shape_copies at.now shape.now) found.old found.new) }
    ensures refused { IfErr result (IsRefusalOn framed.now.frame.now (shape_copies at.now shape.now) found.old) }
{
    let Some(extent) = shape.filled.extent() else {
        return Ok(());
    };
    if !meets(framed.frame, &carried_bounds(at, &extent)) {
        return Ok(());
    }
    found.copies = count_copies(found.copies, 1)?;
    carry_if_inside(shape, at, &mut found.rects)?;
    Ok(())
}

/// The same of all these shapes.
fn find_shapes(
    framed: &Framed<'_, '_, '_>,
    shapes: &[Shape<'_, '_>],
    at: &Placement,
    found: &mut Found,
) -> Result<(), FlattenError>
    requires { IsWithin 257 at.now }
    ensures found { OnOk result (IsFound framed.now (flat_map (shape_copies at.now) shapes.now) found.old found.new) }
    ensures refused { IfErr result (IsRefusalOn framed.now.frame.now (flat_map (shape_copies at.now) shapes.now) found.old) }
{
    'shapes: for shape in shapes {
        find_shape(framed, shape, at, found)?;
    }
    Ok(())
}

/// The same of the shapes of all chunks.
fn find_own(
    framed: &Framed<'_, '_, '_>,
    chunks: &[Vec<Shape<'_, '_>>],
    at: &Placement,
    found: &mut Found,
) -> Result<(), FlattenError>
    requires { IsWithin 257 at.now }
    ensures found { OnOk result (IsFound framed.now (flat_map (shape_copies at.now) (flat_map vec_items chunks.now)) found.old found.new) }
    ensures refused { IfErr result (IsRefusalOn framed.now.frame.now (flat_map (shape_copies at.now) (flat_map vec_items chunks.now)) found.old) }
{
    'chunks: for chunk in chunks {
        find_shapes(framed, chunk, at, found)?;
    }
    Ok(())
}

/// The extent of the cell at the index, or `None` where it draws nothing.
pub fn extent_at(extents: &[Option<Bounds>], index: usize) -> Option<Bounds>
    ensures { result ≡ extent_at extents.now index }
{
    match extents.get(index) {
        Some(extent) => *extent,
        None => None,
    }
}

/// Whether the extent lies strictly within the frame.
fn holds(frame: &Rect, extent: &Bounds) -> bool
    ensures { result ≡ true → IsStrictly frame.now extent.now }
{
    are_between(frame.x1(), extent.left, extent.right, frame.x2())
        && are_between(frame.y1(), extent.bottom, extent.top, frame.y2())
}

/// Whether the second number lies above the first, and the third below the fourth.
fn are_between(a: i64, b: i64, c: i64, d: i64) -> bool
    ensures { result ≡ true → (a <ℤ b) × (c <ℤ d) }
{
    a < b && c < d
}

/// How what single references draw lies to a frame.
#[derive(Clone, Copy, Debug, PartialEq, Eq)]
enum Sight {
    /// None of it meets the frame.
    Apart,
    /// All of it lies strictly within.
    Inside,
    /// Neither is known.
    Across,
}

/// How what lies in the extent, carried so, lies to the frame.
fn sight_of(extent: &Bounds, at: &Placement, frame: &Rect) -> Sight
    requires within { IsWithin 258 at.now }
    requires ordered { IsOrdered extent.now }
    ensures apart { result ≡ Sight.Apart → meets frame.now (carried_bounds at.now extent.now) ≡ false }
    ensures inside { result ≡ Sight.Inside → IsStrictly frame.now (carried_bounds at.now extent.now) }
{
    if !are_close(extent) {
        return Sight::Across;
    }
    let carried = carried_extent(at, extent);
    if !meets(frame, &carried) {
        Sight::Apart
    } else if holds(frame, &carried) {
        Sight::Inside
    } else {
        Sight::Across
    }
}

/// How what the single references draw lies to the frame.
fn sight_at(framed: &Framed<'_, '_, '_>, turns: &Turns) -> Sight
    requires ready { IsReady framed.now }
    requires held { AreHeld framed.now.cells.now framed.now.extents.now turns.now.depth turns.now.link.cell }
    ensures apart { result ≡ Sight.Apart → IsMissed framed.now.frame.now (turns_copies framed.now.cells.now turns.now) }
    ensures inside { result ≡ Sight.Inside → AreInside framed.now.frame.now (turns_copies framed.now.cells.now turns.now) }
{
    let Some(extent) = extent_at(framed.extents, turns.link.cell) else {
        return Sight::Apart;
    };
    let end = turns.first + turns.number;
    let all = turns_extent(&turns.link, turns.first, end, &extent);
    sight_of(&all, &turns.placement, framed.frame)
}

/// Counts the copies that the single references draw, which become one of the roots.
fn put_root(
    framed: &Framed<'_, '_, '_>,
    turns: &Turns,
    found: &mut Found,
) -> Result<(), FlattenError>
    requires counted { AreCounted framed.now.cells.now framed.now.counts.now turns.now.depth turns.now.link.cell }
    requires ready { IsReady framed.now }
    requires inside { AreInside framed.now.frame.now (turns_copies framed.now.cells.now turns.now) }
    ensures found { OnOk result (IsFound framed.now (turns_copies framed.now.cells.now turns.now) found.old found.new) }
    ensures refused { IfErr result (IsRefusalOn framed.now.frame.now (turns_copies framed.now.cells.now turns.now) found.old) }
{
    let more = turns.count(number_at(framed.counts, turns.link.cell));
    let copies = count_copies(found.copies, more)?;
    found.roots.push(*turns)?;
    found.copies = copies;
    found.inside += more;
    Ok(())
}

/// The first half of single references, and the second.
fn halves(turns: &Turns) -> (Turns, Turns)
    requires { 1 < turns.now.number }
    ensures cells { (result.0.link.cell ≡ turns.now.link.cell) × (result.1.link.cell ≡ turns.now.link.cell) }
    ensures depths { (result.0.depth ≡ turns.now.depth) × (result.1.depth ≡ turns.now.depth) }
    ensures fewer { (result.0.number < turns.now.number) × (result.1.number < turns.now.number) }
    ensures copies { (cells : List Cell) → turns_copies cells turns.now ≡ turns_copies cells result.0 ++ turns_copies cells result.1 }
{
    let half = turns.number / 2;
    let front = Turns {
        link: turns.link,
        first: turns.first,
        number: half,
        placement: turns.placement,
        depth: turns.depth,
    };
    let back = Turns {
        link: turns.link,
        first: turns.first + half,
        number: turns.number - half,
        placement: turns.placement,
        depth: turns.depth,
    };
    (front, back)
}

/// Finds what single references draw on the frame. Where an extent that holds what all of them draw doesn't meet the frame, none
/// is looked at; where it lies within, all are a root; else each half is looked at, and a single one is entered.
#[cycle(find)]
pub fn find_turns(
    framed: &Framed<'_, '_, '_>,
    turns: &Turns,
    found: &mut Found,
) -> Result<(), FlattenError>
    requires ready { IsReady framed.now }
    requires counted { AreCounted framed.now.cells.now framed.now.counts.now turns.now.depth turns.now.link.cell }
    requires held { AreHeld framed.now.cells.now framed.now.extents.now turns.now.depth turns.now.link.cell }
    ensures found { OnOk result (IsFound framed.now (turns_copies framed.now.cells.now turns.now) found.old found.new) }
    ensures refused { IfErr result (IsRefusalOn framed.now.frame.now (turns_copies framed.now.cells.now turns.now) found.old) }
{
    match sight_at(framed, turns) {
        Sight::Apart => return Ok(()),
        Sight::Inside => return put_root(framed, turns, found),
        Sight::Across => {}
    }
    if turns.number == 1 {
        let inner = turns.placement.after(&turns.link.single(turns.first));
        return find_cell(framed, turns.depth, turns.link.cell, &inner, found);
    }
    let (front, back) = halves(turns);
    find_turns(framed, &front, found)?;
    find_turns(framed, &back, found)
}

/// Finds what a cell draws on the frame by chains of so many cells, carried so.
#[cycle(find)]
fn find_cell(
    framed: &Framed<'_, '_, '_>,
    depth: u32,
    index: usize,
    at: &Placement,
    found: &mut Found,
) -> Result<(), FlattenError>
    requires deep { depth ≤ 256 }
    requires within { IsWithin (257 - depth) at.now }
    requires ready { IsReady framed.now }
    requires counted { AreCounted framed.now.cells.now framed.now.counts.now depth index }
    requires held { AreHeld framed.now.cells.now framed.now.extents.now depth index }
    ensures found { OnOk result (IsFound framed.now (map (carry_copy at.now) (copies (hierarchy framed.now.cells.now) depth index)) found.old found.new) }
    ensures refused { IfErr result (IsRefusalOn framed.now.frame.now (map (carry_copy at.now) (copies (hierarchy framed.now.cells.now) depth index)) found.old) }
{
    let Some(cell) = cell_at(framed.cells, depth, index) else {
        return Ok(());
    };
    find_own(framed, cell.shapes.as_slice(), at, found)?;
    let links = cell.links.as_slice();
    'links: for link in links {
        find_turns(framed, &turns_of(link, at, depth - 1), found)?;
    }
    Ok(())
}
