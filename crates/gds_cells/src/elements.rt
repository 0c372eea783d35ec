//! A cell, built of its elements: in one chunk, or in several at once.

ghost use Rattle.std.specs.Prelude.{◌≡◌, ◌⊎◌, ℕ, List, IfOk, IfErr, map};
ghost use Rattle.fill_base.specs.declared.layer.Layer.{Layer};
ghost use Rattle.gds_grammar.specs.Values.{cell_of, shape_of, Shape};
ghost use Rattle.gds_cells.specs.Designs.{Entry, targets, AreFine};
ghost use Rattle.gds_cells.specs.steps.Built.{IsChunk, IsCell, IsFaulty, AreChunks};

use crate::cell::{Cell, Chunk};
use crate::chunks::{Targets, chunk_of};
use crate::error::FlattenError;
use fill_base::Layer;
use gds_grammar::{Cells, Element};
use rayon::prelude::*;
use std::alloc::Global;
use std::thread::Threads;

/// The elements of a cell are cut into at most so many chunks, which threads build.
const MOST_CHUNKS: usize = 16;

/// A chunk has so many elements or more, or all that are left: fewer take no longer than a thread needs to begin. A cell of more elements is built in
/// chunks where more of them are shapes than references, whose names are looked up again then.
const LEAST_CHUNK: usize = 8_192;

/// The cell of these elements, which refer to the cells of the row in turn. Several threads build one of many.
///
/// # Errors
/// The first fault of a reference or shape in the order of the file, or `Memory` where memory is refused.
pub fn cell_of<'a, 'b>(
    rt: &(impl Threads + Sync),
    alloc: Global,
    cells: &Cells<'_>,
    elements: &'a [Element<'b>],
    row: &[usize],
    layers: &[Layer],
) -> Result<Cell<'a, 'b>, FlattenError>
    requires row { row.now ≡ targets (map cell_of cells.now.entries) (map shape_of elements.now) }
    ensures built { IfOk result (λ cell. IsCell (map cell_of cells.now.entries) layers.now (map shape_of elements.now) cell) }
    ensures fine { IfOk result (λ cell. AreFine layers.now (map shape_of elements.now)) }
    ensures refused { IfErr result (λ e. (e ≡ FlattenError.Memory)
        ⊎ IsFaulty layers.now (map shape_of elements.now) e) }
{
    if elements.len() <= row.len().saturating_mul(2).max(LEAST_CHUNK) {
        return whole_cell(alloc, elements, row, layers);
    }
    cell_by_chunks(rt, alloc, cells, elements, layers)
}

/// The cell of these elements, which refer to the cells of the row in turn. One chunk is made of them.
fn whole_cell<'a, 'b>(
    alloc: Global,
    elements: &'a [Element<'b>],
    row: &[usize],
    layers: &[Layer],
) -> Result<Cell<'a, 'b>, FlattenError>
    ensures built { IfOk result (λ cell. (entries : List Entry) → row.now ≡ targets entries (map shape_of elements.now) → IsCell entries layers.now (map shape_of elements.now) cell) }
    ensures fine { IfOk result (λ cell. AreFine layers.now (map shape_of elements.now)) }
    ensures refused { IfErr result (λ e. (e ≡ FlattenError.Memory)
        ⊎ IsFaulty layers.now (map shape_of elements.now) e) }
{
    let chunk = chunk_of(alloc, Targets::Row(row), elements, layers)?;
    let mut shapes = Vec::new(alloc);
    shapes.push(chunk.shapes)?;
    Ok(Cell {
        shapes,
        links: chunk.links,
    })
}

/// The cell of these elements, whose chunks several threads build. Their references lead to the cells that have their names, which are looked up.
fn cell_by_chunks<'a, 'b>(
    rt: &(impl Threads + Sync),
    alloc: Global,
    cells: &Cells<'_>,
    elements: &'a [Element<'b>],
    layers: &[Layer],
) -> Result<Cell<'a, 'b>, FlattenError>
    ensures built { IfOk result (λ cell. IsCell (map cell_of cells.now.entries) layers.now (map shape_of elements.now) cell) }
    ensures fine { IfOk result (λ cell. AreFine layers.now (map shape_of elements.now)) }
    ensures refused { IfErr result (λ e. (e ≡ FlattenError.Memory)
        ⊎ IsFaulty layers.now (map shape_of elements.now) e) }
{
    let size = elements.len().div_ceil(MOST_CHUNKS).max(LEAST_CHUNK);
    let chunks = elements
        .par_chunks(size)
        .map(
            move |chunk: &[Element]| -> Result<Chunk, FlattenError>
                ensures built { IfOk result (λ built. IsChunk (map cell_of cells.entry.now.entries) layers.entry.now (map shape_of chunk.entry.now) built) }
                ensures fine { IfOk result (λ built. AreFine layers.entry.now (map shape_of chunk.entry.now)) }
                ensures refused { IfErr result (λ e. (e ≡ FlattenError.Memory)
                    ⊎ IsFaulty layers.entry.now (map shape_of chunk.entry.now) e) }
            { chunk_of(alloc, Targets::Names(cells), chunk, layers) },
        )
        .collect::<Vec<Result<Chunk, FlattenError>>>(rt, alloc)?;
    joined(alloc, chunks)
}

/// The cell of all chunks, or the first refusal.
fn joined<'a, 'b>(
    alloc: Global,
    chunks: Vec<Result<Chunk<'a, 'b>, FlattenError>>,
) -> Result<Cell<'a, 'b>, FlattenError>
    ensures built { IfOk result (λ cell. (entries : List Entry) (layers : List Layer) (size : ℕ) (elements : List Shape) →
        AreChunks entries layers size elements chunks.entry.items → IsCell entries layers elements cell) }
    ensures fine { IfOk result (λ cell. (entries : List Entry) (layers : List Layer) (size : ℕ) (elements : List Shape) →
        AreChunks entries layers size elements chunks.entry.items → AreFine layers elements) }
    ensures refused { IfErr result (λ e. (entries : List Entry) (layers : List Layer) (size : ℕ) (elements : List Shape) →
        AreChunks entries layers size elements chunks.entry.items → (e ≡ FlattenError.Memory) ⊎ IsFaulty layers elements e) }
{
    let mut shapes = Vec::with_capacity(alloc, chunks.len())?;
    let mut links = Vec::new(alloc);
    for chunk in chunks {
        let mut chunk = chunk?;
        shapes.push(chunk.shapes)?;
        links.append(&mut chunk.links)?;
    }
    Ok(Cell { shapes, links })
}
