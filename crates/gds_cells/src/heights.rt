//! How long the chains of references are that begin at a cell.

ghost use Rattle.std.specs.Prelude.{ℕ, ◌<◌, ◌≤◌, ◌^◌, ◌↔◌, length, IfOk, IsTrue};
ghost use Rattle.gds_cells.specs.Graphs.{item, IsTooDeep};
ghost use Rattle.gds_cells.specs.steps.Searches.{IsIn, IsOrdered};
ghost use Rattle.gds_cells.specs.steps.Heights.{IsHeight, IsGreater, IsOver, IsAbove};
ghost use Rattle.gds_cells.specs.steps.Rows.{rows};

use crate::search::{links, number_at};
use std::alloc::{AllocError, Global};

/// More references than a chain may have: the cells of a chain are one more, and at most 256.
const TOO_MANY: usize = 256;

/// The greater number.
fn greater(a: usize, b: usize) -> usize
    ensures { IsGreater a b result }
{
    if a < b { b } else { a }
}

/// One more than the height, at most `TOO_MANY`.
fn height_over(height: usize) -> usize
    requires { height ≤ 256 }
    ensures { IsOver height result }
{
    if height < TOO_MANY {
        height + 1
    } else {
        TOO_MANY
    }
}

/// One more than the greatest height of the cells of the row, at most `TOO_MANY`.
fn height_above(row: &[usize], heights: &[usize]) -> usize
    requires { (c : ℕ) → item heights.now c ≤ 256 }
    ensures { IsAbove row.now heights.now result }
{
    let mut height = 0;
    'cells: for cell in row {
        height = greater(height, height_over(number_at(heights, *cell)));
    }
    height
}

/// The height of each cell of the order, at the cell's index.
fn heights_of(
    alloc: Global,
    graph: &[Vec<usize>],
    order: &[usize],
) -> Result<Vec<usize>, AllocError>
    requires ordered { IsOrdered (rows graph.now) order.now }
    requires within { (q : ℕ) → q < length order.now → item order.now q ≤ length (rows graph.now) }
    requires few { length graph.now < 2 ^ 62 }
    ensures { IfOk result (λ v. (q : ℕ) → q < length order.now
        → IsHeight (rows graph.now) (item order.now q) (item v.items (item order.now q))) }
{
    let mut heights = Vec::from_elem(alloc, 0, graph.len() + 1)?;
    'cells: for cell in order {
        heights[*cell] = height_above(links(graph, *cell), &heights);
    }
    Ok(heights)
}

/// Whether a chain of 256 references, so of 257 cells, begins at the top.
pub fn is_too_deep(
    alloc: Global,
    graph: &[Vec<usize>],
    order: &[usize],
    top: usize,
) -> Result<bool, AllocError>
    requires ordered { IsOrdered (rows graph.now) order.now }
    requires within { (q : ℕ) → q < length order.now → item order.now q ≤ length (rows graph.now) }
    requires top { IsIn order.now top }
    requires few { length graph.now < 2 ^ 62 }
    ensures { IfOk result (λ deep. IsTrue deep ↔ IsTooDeep (rows graph.now) top) }
{
    let heights = heights_of(alloc, graph, order)?;
    Ok(number_at(&heights, top) >= TOO_MANY)
}
