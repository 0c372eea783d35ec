//! How many copies of shapes cells draw, counted before any is made.

ghost use Rattle.std.specs.Prelude.{◌≡◌, ℕ, ◌+◌, ◌*◌, ◌<◌, ◌≤◌, ◌^◌, length, IfOk};
ghost use Rattle.std.specs.List.{flat_map};
ghost use Rattle.std.specs.Vec.{vec_items};
ghost use Rattle.gds_cells.specs.Graphs.{Graph, item};
ghost use Rattle.gds_cells.specs.steps.Counting.{IsCapped, counted, AreRight, IsTied, IsCount};
ghost use Rattle.gds_cells.specs.steps.Searches.{IsOrdered};

use crate::cell::Cell;
use crate::link::Link;
use crate::search::number_at;
use crate::shape::Shape;
use std::alloc::{AllocError, Global};

/// One more copy than a design may have.
pub const TOO_MANY: usize = 4_000_001;

/// The number, at most `TOO_MANY`.
fn capped(number: usize) -> usize
    ensures { IsCapped number result }
{
    if number < TOO_MANY { number } else { TOO_MANY }
}

/// The copies that a link stands for, each single reference with so many.
pub fn count_link(link: &Link, each: usize) -> usize
    requires { each ≤ 4000001 }
    ensures value { result ≡ (link.now.columns * link.now.rows) * each }
    ensures few { result ≤ 2 ^ 60 }
{
    let turns = (link.columns * link.rows) as usize;
    turns * each
}

/// How many shapes the chunks have, at most `TOO_MANY`.
fn count_own(chunks: &[Vec<Shape<'_, '_>>]) -> usize
    ensures { IsCapped (length (flat_map vec_items chunks.now)) result }
{
    let mut total = 0;
    'chunks: for chunk in chunks {
        total = capped(total + capped(chunk.len()));
    }
    total
}

/// How many copies the cell draws, at most `TOO_MANY`, by the counts of those that it refers to.
fn count_cell(cell: &Cell<'_, '_>, counts: &[usize]) -> usize
    requires { (c : ℕ) → item counts.now c ≤ 4000001 }
    ensures { (f : ℕ → ℕ) → AreRight f counts.now cell.now.links.items
        → IsCapped (counted f cell.now) result }
{
    let mut total = count_own(&cell.shapes);
    let links = cell.links.as_slice();
    'links: for link in links {
        let more = count_link(link, number_at(counts, link.cell));
        total = capped(total + more);
    }
    total
}

/// The number of copies that each cell of the order draws, at most `TOO_MANY`, at the cell's index;
/// 0 for all others.
pub fn counts_of(
    alloc: Global,
    cells: &[Cell<'_, '_>],
    order: &[usize],
) -> Result<Vec<usize>, AllocError>
    requires within { (q : ℕ) → q < length order.now → item order.now q < length cells.now }
    requires few { length cells.now < 2 ^ 62 }
    ensures most { IfOk result (λ v. (c : ℕ) → item v.items c ≤ 4000001) }
    ensures right { IfOk result (λ v. (g : Graph) → IsOrdered g order.now
        → ((q : ℕ) → q < length order.now → IsTied g cells.now (item order.now q))
        → (q : ℕ) → q < length order.now → IsCount g cells.now (item order.now q) (item v.items (item order.now q))) }
{
    let mut counts = Vec::from_elem(alloc, 0, cells.len())?;
    'cells: for cell in order {
        counts[*cell] = count_cell(&cells[*cell], &counts);
    }
    Ok(counts)
}
