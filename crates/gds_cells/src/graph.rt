//! Which cells refer to which, each name looked up once for each reference.

ghost use Rattle.std.specs.Prelude.{◌≡◌, ◌≤◌, ◌<◌, length, IfOk, map};
ghost use Rattle.std.specs.Option.{option_map};
ghost use Rattle.gds_grammar.specs.Values.{cell_of, shape_of};
ghost use Rattle.gds_cells.specs.Designs.{index_of, elements_at, targets, graph_of};
ghost use Rattle.gds_cells.specs.References.{name_of};
ghost use Rattle.gds_cells.specs.steps.Rows.{rows};

use gds_grammar::{Cells, Element};
use std::alloc::{AllocError, Global};

/// The index of the cell of this name, the number of cells where none has it.
pub fn index_of(cells: &Cells<'_>, name: &[u8]) -> usize
    ensures value { result ≡ index_of (map cell_of cells.now.entries) name.now }
    ensures within { result ≤ length cells.now.entries }
{
    cells.get_index_of(name).unwrap_or(cells.len())
}

/// The elements of the cell at the index.
pub fn elements_at<'a, 'b>(cells: &'a Cells<'b>, index: usize) -> &'a [Element<'b>]
    requires { index < length cells.now.entries }
    ensures { map shape_of result.now ≡ elements_at (map cell_of cells.now.entries) index }
{
    let (_, elements) = cells.get_index(index).unwrap();
    elements.as_slice()
}

/// The name of the cell that the element refers to.
pub fn name_of<'b>(element: &Element<'b>) -> Option<&'b [u8]>
    ensures { option_map (λ n. n.now) result ≡ name_of (shape_of element.now) }
{
    match element {
        Element::Ref(reference) => Some(reference.cell),
        Element::Array(array) => Some(array.cell),
        Element::Boundary(_) | Element::Path(_) => None,
    }
}

/// The cells that the elements refer to, reference by reference.
fn targets_of(
    alloc: Global,
    cells: &Cells<'_>,
    elements: &[Element<'_>],
) -> Result<Vec<usize>, AllocError>
    ensures { IfOk result (λ v. v.items ≡ targets (map cell_of cells.now.entries) (map shape_of elements.now)) }
{
    let mut found = Vec::new(alloc);
    'elements: for element in elements {
        if let Some(name) = name_of(element) {
            found.push(index_of(cells, name))?;
        }
    }
    Ok(found)
}

/// The cells that each cell refers to.
pub fn graph_of(alloc: Global, cells: &Cells<'_>) -> Result<Vec<Vec<usize>>, AllocError>
    ensures { IfOk result (λ v. rows v.items ≡ graph_of (map cell_of cells.now.entries)) }
{
    let mut graph = Vec::new(alloc);
    'cells: for index in 0..cells.len() {
        let row = targets_of(alloc, cells, elements_at(cells, index))?;
        graph.push(row)?;
    }
    Ok(graph)
}
