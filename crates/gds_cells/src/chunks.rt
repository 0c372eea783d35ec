//! Chunks of a cell's elements: their shapes filled and their references resolved.

ghost use Rattle.std.specs.Prelude.{◌≡◌, ◌⊎◌, ℕ, List, [], ◌∷◌, ◌++◌, length, None, Some, true, is_some, IfOk, IfErr, IfSome, IfNone, OnOk, map};
ghost use Rattle.gds_grammar.specs.Values.{shape_of, Shape};
ghost use Rattle.gds_cells.specs.Designs.{Entry, index_of, targets, element_fault, AreFine};
ghost use Rattle.gds_cells.specs.Links.{singles};
ghost use Rattle.gds_cells.specs.References.{placements_of, name_of, reference_fault};
ghost use Rattle.gds_cells.specs.steps.Built.{Leads, IsAdded, IsChunk, IsFaulty};

use crate::cell::Chunk;
use crate::error::FlattenError;
use crate::graph::{index_of, name_of};
use crate::link::Link;
use crate::reference::{array_link, reference_link};
use crate::search::number_at;
use crate::shapes::shape_of;
use fill_base::{Layer, Point, Rect};
use gds_grammar::{Cells, Element};
use std::alloc::Global;

/// What tells the cells that elements refer to.
#[derive(Clone, Copy)]
pub enum Targets<'a, 'b> {
    /// These cells in turn.
    Row(&'a [usize]),
    /// The names of all cells, each of which is looked up.
    Names(&'a Cells<'b>),
}

/// The index of the cell that the element refers to, if it refers to any, where so many elements before it do.
fn target_of(to: Targets<'_, '_>, element: &Element<'_>, before: usize) -> usize
    ensures { (entries : List Entry) (earlier later : List Shape) → Leads to.entry entries (earlier ++ (shape_of element.now) ∷ later)
        → before ≡ length (targets entries earlier) → (name : List ℕ) → name_of (shape_of element.now) ≡ Some name → result ≡ index_of entries name }
{
    match to {
        Targets::Row(row) => number_at(row, before),
        Targets::Names(cells) => match name_of(element) {
            Some(name) => index_of(cells, name),
            None => cells.len(),
        },
    }
}

/// The link of an element that refers to the cell at the index, or `None` for a shape.
fn link_of(element: &Element<'_>, cell: usize) -> Result<Option<Link>, FlattenError>
    ensures none { IfOk result (λ o. IfNone o (name_of (shape_of element.now) ≡ None)) }
    ensures some { IfOk result (λ o. IfSome o (λ l. (reference_fault (shape_of element.now) ≡ None)
        × (l.cell ≡ cell) × (singles l ≡ placements_of (shape_of element.now)) × (is_some (name_of (shape_of element.now)) ≡ true))) }
    ensures refused { IfErr result (λ e. reference_fault (shape_of element.now) ≡ Some e) }
{
    match element {
        Element::Ref(reference) => Ok(Some(reference_link(cell, reference)?)),
        Element::Array(array) => Ok(Some(array_link(cell, array)?)),
        Element::Boundary(_) | Element::Path(_) => Ok(None),
    }
}

/// Adds an element, which refers to the cell at the index if it refers to any. The lists, room for points
/// and an empty one to fill a shape in, serve all elements in turn.
fn add_element<'a, 'b>(
    alloc: Global,
    points: &mut Vec<Point>,
    rects: &mut Vec<Rect>,
    chunk: &mut Chunk<'a, 'b>,
    element: &'a Element<'b>,
    index: usize,
    layers: &[Layer],
) -> Result<(), FlattenError>
    requires { rects.old.items ≡ [] }
    ensures empty { OnOk result (rects.new.items ≡ []) }
    ensures added { OnOk result (IsAdded (shape_of element.now) layers.now index chunk.old chunk.new) }
    ensures refused { IfErr result (λ e. (e ≡ FlattenError.Memory)
        ⊎ (element_fault layers.now (shape_of element.now) ≡ Some e)) }
{
    if let Some(shape) = shape_of(alloc, points, rects, element, layers)? {
        chunk.shapes.push(shape)?;
        return Ok(());
    }
    if let Some(link) = link_of(element, index)? {
        chunk.links.push(link)?;
    }
    Ok(())
}

/// The chunk of these elements, which refer to the cells that the targets tell.
pub fn chunk_of<'a, 'b>(
    alloc: Global,
    to: Targets<'_, '_>,
    elements: &'a [Element<'b>],
    layers: &[Layer],
) -> Result<Chunk<'a, 'b>, FlattenError>
    ensures built { IfOk result (λ chunk. (entries : List Entry) → Leads to.entry entries (map shape_of elements.now) → IsChunk entries layers.now (map shape_of elements.now) chunk) }
    ensures fine { IfOk result (λ chunk. AreFine layers.now (map shape_of elements.now)) }
    ensures refused { IfErr result (λ e. (e ≡ FlattenError.Memory)
        ⊎ IsFaulty layers.now (map shape_of elements.now) e) }
{
    let mut chunk = Chunk {
        shapes: Vec::new(alloc),
        links: Vec::new(alloc),
    };
    let mut points = Vec::new(alloc);
    let mut rects = Vec::new(alloc);
    'elements: for element in elements {
        let index = target_of(to, element, chunk.links.len());
        add_element(
            alloc,
            &mut points,
            &mut rects,
            &mut chunk,
            element,
            index,
            layers,
        )?;
    }
    Ok(chunk)
}
