//! A search in depth through the cells, from the top: which are reached, whether one refers to
//! itself, and an order in which each cell stands behind all that it refers to.

ghost use Rattle.std.specs.Prelude.{◌≡◌, ◌+◌, ◌-◌, ◌<◌, ◌≤◌, ◌^◌, ◌==◌, [], not, length, IfOk, OnOk};
ghost use Rattle.std.specs.List.{sum};
ghost use Rattle.gds_cells.specs.Graphs.{IsWhole, next, item};
ghost use Rattle.gds_cells.specs.steps.Searches.{begun, opened, passed, closed, IsSearch};
ghost use Rattle.gds_cells.specs.steps.Rows.{rows, state_of};

use std::alloc::{AllocError, Global};

/// How far a search has come.
#[derive(Debug, Drop)]
pub struct Search {
    /// From the top down to the cell that's searched.
    pub trail: Vec<usize>,
    /// For each cell 0 where it isn't found, else 1 and the references passed, and 1 when it's
    /// closed.
    pub steps: Vec<usize>,
    /// The closed cells, each behind all that it refers to.
    pub order: Vec<usize>,
    /// Whether a cell refers to itself, at once or through others.
    pub cyclic: bool,
}

/// The cells that the cell refers to.
pub fn links(graph: &[Vec<usize>], cell: usize) -> &[usize]
    ensures { result.now ≡ next (rows graph.now) cell }
{
    match graph.get(cell) {
        Some(row) => row.as_slice(),
        None => &[],
    }
}

/// The number at the index, 0 where there is none.
pub fn number_at(numbers: &[usize], index: usize) -> usize
    ensures { result ≡ item numbers.now index }
{
    numbers.get(index).copied().unwrap_or(0)
}

/// The last number, 0 where there is none.
fn last_of(numbers: &[usize]) -> usize
    ensures { result ≡ item numbers.now (length numbers.now - 1) }
{
    numbers.last().copied().unwrap_or(0)
}

/// Opens a cell that's found.
fn open(search: &mut Search, cell: usize) -> Result<(), AllocError>
    requires { cell < length search.old.steps.items }
    ensures { OnOk result (state_of search.new ≡ opened cell (state_of search.old)) }
{
    search.steps[cell] = 1;
    search.trail.push(cell)?;
    Ok(())
}

/// Passes a reference of the cell, to an open one where `again`.
fn pass(search: &mut Search, cell: usize, again: bool)
    requires within { cell < length search.old.steps.items }
    requires fits { item search.old.steps.items cell + 1 < 2 ^ 64 }
    ensures { state_of search.new ≡ passed cell again (state_of search.old) }
{
    search.steps[cell] += 1;
    search.cyclic |= again;
}

/// Closes the cell at the end of the trail.
fn close(search: &mut Search, cell: usize) -> Result<(), AllocError>
    requires within { cell < length search.old.steps.items }
    requires fits { item search.old.steps.items cell + 1 < 2 ^ 64 }
    ensures { OnOk result (state_of search.new
        ≡ closed cell (state_of search.old)) }
{
    search.order.push(cell)?;
    search.steps[cell] += 1;
    search.trail.pop();
    Ok(())
}

/// Whether the cell isn't closed, where it's found.
fn is_unclosed(graph: &[Vec<usize>], search: &Search, cell: usize) -> bool
    ensures { result ≡ not (item search.now.steps.items cell == length (next (rows graph.now) cell) + 2) }
{
    number_at(&search.steps, cell) != links(graph, cell).len() + 2
}

/// Goes on by one step from the cell at the end of the trail: to a cell that it refers to, past the
/// reference, or back.
fn step(graph: &[Vec<usize>], search: &mut Search, top: usize) -> Result<(), AllocError>
    requires whole { IsWhole (rows graph.now) }
    requires searched { IsSearch (rows graph.now) top (state_of search.old) }
    requires on { 0 < length search.old.trail.items }
    ensures searched { OnOk result (IsSearch (rows graph.now) top (state_of search.new)) }
    ensures further { OnOk result (sum search.new.steps.items ≡ sum search.old.steps.items + 1) }
{
    let cell = last_of(&search.trail);
    let row = links(graph, cell);
    let passed = number_at(&search.steps, cell) - 1;
    if passed == row.len() {
        close(search, cell)?;
        return Ok(());
    }
    let found = number_at(row, passed);
    if number_at(&search.steps, found) == 0 {
        open(search, found)?;
        return Ok(());
    }
    let again = is_unclosed(graph, search, found);
    pass(search, cell, again);
    Ok(())
}

/// A search that has found the top alone.
fn begin(alloc: Global, cells: usize, top: usize) -> Result<Search, AllocError>
    requires top { top ≤ cells }
    requires few { cells < 2 ^ 62 }
    ensures { IfOk result (λ s. state_of s ≡ begun cells top) }
{
    let mut steps = Vec::from_elem(alloc, 0, cells + 1)?;
    steps[top] = 1;
    let mut trail = Vec::new(alloc);
    trail.push(top)?;
    Ok(Search {
        trail,
        steps,
        order: Vec::new(alloc),
        cyclic: false,
    })
}

/// Searches all cells that the top reaches.
pub fn search_from(alloc: Global, graph: &[Vec<usize>], top: usize) -> Result<Search, AllocError>
    requires whole { IsWhole (rows graph.now) }
    requires top { top < length graph.now }
    ensures ended { IfOk result (λ s. s.trail.items ≡ []) }
    ensures searched { IfOk result (λ s. IsSearch (rows graph.now) top (state_of s)) }
{
    let mut found = begin(alloc, graph.len(), top)?;
    'cells: while !found.trail.is_empty() {
        step(graph, &mut found, top)?;
    }
    Ok(found)
}
