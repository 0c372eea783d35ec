//! The cells that the top reaches, with their shapes filled and their references resolved.

ghost use Rattle.std.specs.Prelude.{◌≡◌, ◌⊎◌, length, IfOk, IfErr, map};
ghost use Rattle.gds_grammar.specs.Values.{cell_of};
ghost use Rattle.gds_cells.specs.Designs.{graph_of};
ghost use Rattle.gds_cells.specs.steps.Rows.{rows};
ghost use Rattle.gds_cells.specs.steps.Built.{AreBuilt, IsFaultAmong};

use crate::cell::Cell;
use crate::elements::cell_of;
use crate::error::FlattenError;
use crate::graph::elements_at;
use crate::search::{links, number_at};
use fill_base::Layer;
use gds_grammar::{Cells, Element};
use std::alloc::Global;
use std::thread::Threads;

/// The cells of the library that have a step, built; the others are empty.
///
/// # Errors
/// The first fault of a reference or shape in the order of the file, of the cells that have a step,
/// or `Memory` where memory is refused.
pub fn cells_of<'a, 'b>(
    rt: &(impl Threads + Sync),
    alloc: Global,
    cells: &'a Cells<'b>,
    graph: &[Vec<usize>],
    steps: &[usize],
    layers: &[Layer],
) -> Result<Vec<Cell<'a, 'b>>, FlattenError>
    requires graph { rows graph.now ≡ graph_of (map cell_of cells.now.entries) }
    ensures built { IfOk result (λ v. AreBuilt (map cell_of cells.now.entries) layers.now steps.now
        (length (map cell_of cells.now.entries)) v.items) }
    ensures refused { IfErr result (λ e. (e ≡ FlattenError.Memory)
        ⊎ IsFaultAmong (map cell_of cells.now.entries) layers.now steps.now e) }
{
    let mut built = Vec::new(alloc);
    'cells: for index in 0..cells.len() {
        if number_at(steps, index) == 0 {
            built.push(Cell {
                shapes: Vec::new(alloc),
                links: Vec::new(alloc),
            })?;
            continue 'cells;
        }
        let elements = elements_at(cells, index);
        let cell = cell_of(rt, alloc, cells, elements, links(graph, index), layers)?;
        built.push(cell)?;
    }
    Ok(built)
}
