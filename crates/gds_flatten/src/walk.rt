//! Carries what a cell draws, with all that it refers to: all of its copies, or a stretch of them.

ghost use Rattle.std.specs.Prelude.{◌≡◌, ◌⊎◌, ◌-◌, ◌*◌, ◌≤◌, ◌<◌, List, [], length, Some, map, slice_get, IfOk, IfErr, IfNone, IfSome, OnOk};
ghost use Rattle.std.specs.List.{flat_map};
ghost use Rattle.std.specs.Vec.{vec_items};
ghost use Rattle.gds_cells.specs.Copies.{carry_copy, copies};
ghost use Rattle.gds_cells.specs.steps.Counting.{AreCounted};
ghost use Rattle.gds_cells.specs.steps.Ranges.{IsWithin};
ghost use Rattle.gds_cells.specs.declared.cell.Cell.{Cell};
ghost use Rattle.gds_cells.specs.steps.Walks.{shape_copies, link_copies, hierarchy, part, top_copies, IsDrawn, IsRefusal};
ghost use Rattle.gds_flatten.specs.steps.Roots.{turns_copies, roots_copies, AreRooted};

use crate::chain::chain_from;
use crate::stretch::Stretch;
use crate::turns::Turns;
use fill_base::{Point, Rect};
use gds_cells::{Cell, FlattenError, Link, Placement, Shape, carry_shape, number_at};

/// How many cells a chain may have, the top among them.
const DEEPEST: u32 = 256;

/// Appends what the shapes cover, carried so.
fn carry_shapes(
    shapes: &[Shape<'_, '_>],
    at: &Placement,
    out: &mut Vec<Rect>,
) -> Result<(), FlattenError>
    requires { IsWithin 257 at.now }
    ensures drawn { OnOk result (IsDrawn (flat_map (shape_copies at.now) shapes.now)
        out.old.items out.new.items) }
    ensures refused { IfErr result (IsRefusal (flat_map (shape_copies at.now) shapes.now)) }
{
    'shapes: for shape in shapes {
        carry_shape(shape, at, out)?;
    }
    Ok(())
}

/// The stretch of a cell's shapes, each of which is one copy.
fn own_stretch<'a, 'b, 's>(shapes: &'s [Shape<'a, 'b>], stretch: Stretch) -> &'s [Shape<'a, 'b>]
    ensures { result.now ≡ part stretch.from stretch.to shapes.now }
{
    let end = stretch.to.min(shapes.len());
    let start = stretch.from.min(end);
    &shapes[start..end]
}

/// Appends a stretch of what the shapes of all chunks cover, carried so, and answers what is left of the stretch behind them.
fn carry_own(
    chunks: &[Vec<Shape<'_, '_>>],
    at: &Placement,
    stretch: Stretch,
    out: &mut Vec<Rect>,
) -> Result<Stretch, FlattenError>
    requires { IsWithin 257 at.now }
    ensures drawn { IfOk result (λ rest. IsDrawn (part stretch.from stretch.to (flat_map (shape_copies at.now) (flat_map vec_items chunks.now)))
        out.old.items out.new.items) }
    ensures from { IfOk result (λ rest. rest.from ≡ stretch.from - length (flat_map vec_items chunks.now)) }
    ensures to { IfOk result (λ rest. rest.to ≡ stretch.to - length (flat_map vec_items chunks.now)) }
    ensures refused { IfErr result (IsRefusal (flat_map (shape_copies at.now) (flat_map vec_items chunks.now))) }
{
    let mut rest = stretch;
    'chunks: for chunk in chunks {
        carry_shapes(own_stretch(chunk, rest), at, out)?;
        rest = rest.behind(chunk.len());
    }
    Ok(rest)
}

/// The cell at the index, or `None` where it draws nothing by chains of so many cells.
pub fn cell_at<'a, 'b, 's>(
    cells: &'s [Cell<'a, 'b>],
    depth: u32,
    index: usize,
) -> Option<&'s Cell<'a, 'b>>
    ensures none { IfNone result (copies (hierarchy cells.now) depth index ≡ []) }
    ensures some { IfSome result (λ c. (0 < depth) × (slice_get cells.now index ≡ Some c.now)) }
{
    if depth == 0 {
        return None;
    }
    match cells.get(index) {
        Some(cell) => Some(cell),
        None => None,
    }
}

/// All single references of a link, carried so.
pub fn turns_of(link: &Link, at: &Placement, depth: u32) -> Turns
    requires deep { depth ≤ 256 }
    requires within { IsWithin (256 - depth) at.now }
    ensures cell { result.link.cell ≡ link.now.cell }
    ensures depth { result.depth ≡ depth }
    ensures number { result.number ≡ link.now.columns * link.now.rows }
    ensures copies { (cells : List Cell) → turns_copies cells result ≡ link_copies at.now (copies (hierarchy cells) depth) link.now }
{
    Turns {
        link: *link,
        first: 0,
        number: link.columns * link.rows,
        placement: *at,
        depth,
    }
}

/// Appends a stretch of what single references draw. Only those are followed of which the stretch has copies.
#[cycle(carry)]
pub fn carry_turns(
    cells: &[Cell<'_, '_>],
    counts: &[usize],
    turns: &Turns,
    stretch: Stretch,
    out: &mut Vec<Rect>,
) -> Result<(), FlattenError>
    requires counted { AreCounted cells.now counts.now turns.now.depth turns.now.link.cell }
    ensures drawn { OnOk result (IsDrawn (part stretch.from stretch.to (turns_copies cells.now turns.now)) out.old.items out.new.items) }
    ensures refused { IfErr result (IsRefusal (turns_copies cells.now turns.now)) }
{
    let each = number_at(counts, turns.link.cell);
    if turns.count(each) <= stretch.from {
        return Ok(());
    }
    let begin = turns.begin(each, stretch);
    let end = turns.end(each, stretch);
    let chain = chain_from(cells, counts, turns.depth, turns.link.cell);
    'turns: for turn in begin..end {
        let single = turns
            .placement
            .after(&turns.link.single(turns.first + turn));
        let inner = single.after(&chain.placement);
        let rest = stretch.behind(turn as usize * each);
        carry_cell(cells, counts, chain.depth, chain.cell, &inner, rest, out)?;
    }
    Ok(())
}

/// Appends a stretch of what a cell draws by chains of so many cells, carried so. What comes before and
/// behind the stretch is passed by its count.
#[cycle(carry)]
fn carry_cell(
    cells: &[Cell<'_, '_>],
    counts: &[usize],
    depth: u32,
    index: usize,
    at: &Placement,
    stretch: Stretch,
    out: &mut Vec<Rect>,
) -> Result<(), FlattenError>
    requires deep { depth ≤ 256 }
    requires within { IsWithin (257 - depth) at.now }
    requires counted { AreCounted cells.now counts.now depth index }
    ensures drawn { OnOk result (IsDrawn (part stretch.from stretch.to (map (carry_copy at.now) (copies (hierarchy cells.now) depth index)))
        out.old.items out.new.items) }
    ensures refused { IfErr result (IsRefusal (map (carry_copy at.now) (copies (hierarchy cells.now) depth index))) }
{
    let Some(cell) = cell_at(cells, depth, index) else {
        return Ok(());
    };
    let mut rest = carry_own(cell.shapes.as_slice(), at, stretch, out)?;
    let links = cell.links.as_slice();
    'links: for link in links {
        if rest.to == 0 {
            return Ok(());
        }
        let turns = turns_of(link, at, depth - 1);
        carry_turns(cells, counts, &turns, rest, out)?;
        rest = rest.behind(turns.count(number_at(counts, link.cell)));
    }
    Ok(())
}

/// Appends a stretch of what the roots draw, one after another.
pub fn carry_roots(
    cells: &[Cell<'_, '_>],
    counts: &[usize],
    roots: &[Turns],
    stretch: Stretch,
    out: &mut Vec<Rect>,
) -> Result<(), FlattenError>
    requires { AreRooted cells.now counts.now roots.now }
    ensures drawn { OnOk result (IsDrawn (part stretch.from stretch.to (roots_copies cells.now roots.now)) out.old.items out.new.items) }
    ensures refused { IfErr result (IsRefusal (roots_copies cells.now roots.now)) }
{
    let mut rest = stretch;
    'roots: for root in roots {
        if rest.to == 0 {
            return Ok(());
        }
        carry_turns(cells, counts, root, rest, out)?;
        rest = rest.behind(root.count(number_at(counts, root.link.cell)));
    }
    Ok(())
}

/// The top, as a single reference to it.
pub fn top_turns(top: usize) -> Turns
    ensures cell { result.link.cell ≡ top }
    ensures depth { result.depth ≡ 256 }
    ensures copies { (cells : List Cell) → turns_copies cells result ≡ top_copies cells top }
{
    let still = Placement::shift(0, 0);
    let step = Point { x: 0, y: 0 };
    let link = Link {
        cell: top,
        placement: still,
        columns: 1,
        rows: 1,
        column_step: step,
        row_step: step,
    };
    turns_of(&link, &still, DEEPEST)
}
