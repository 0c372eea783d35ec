//! The rectangles that meet each row of cells, listed in parallel: chunks of them are looked through at once, and a row has what all
//! chunks list for it.
ghost use Rattle.std.specs.Prelude.{◌≡◌, ◌||◌, ◌^◌, ℤ, ◌<◌, ◌≤◌, length, All, IfOk, OnOk};
ghost use Rattle.std.specs.List.{flat_map};
ghost use Rattle.std.specs.Vec.{vec_items};
ghost use Rattle.fill_region.specs.Squares.{covered};
ghost use Rattle.fill_cells.specs.Mesh.{AreCuts, covered_at};
ghost use Rattle.fill_measure.specs.steps.Chunks.{AreChunkLists, IsChunk, covered_by_chunks, listed_by_chunks};

use fill_base::Rect;
use fill_cells::by_row;
use rayon::prelude::*;
use std::alloc::{AllocError, Global};
use std::thread::Threads;

/// The rectangles are cut into about so many chunks, which threads look through.
const MOST_PARTS: usize = 16;

/// A chunk has about so many rectangles or more, or all of a list that is shorter.
const LEAST_PART: usize = 4_096;

/// No chunk has more, so that four bytes hold a place in it.
const MOST_IN_CHUNK: usize = 1 << 32;

/// A chunk of the rectangles, and which of them meet each row of cells.
#[derive(Drop)]
pub(crate) struct Chunk<'a> {
    /// The rectangles.
    rects: &'a [Rect],
    /// For each row the places of those that meet it.
    rows: Vec<Vec<u32>>,
}

/// The chunks of the lists, each with those of its rectangles that meet each row between neighbouring cuts.
pub(crate) fn by_chunks<'a>(
    rt: &(impl Threads + Sync),
    alloc: Global,
    lists: &'a [Vec<Rect>],
    up: &[i64],
) -> Result<Vec<Chunk<'a>>, AllocError>
    requires { AreCuts up.now }
    ensures { IfOk result (λ v. AreChunkLists up.now (covered (flat_map vec_items lists.now)) v.items) }
{
    chunks_of(alloc, lists)?
        .par_iter()
        .with_min_len(1)
        .map(
            |chunk: &&[Rect]| -> Result<Chunk, AllocError>
                requires cuts { AreCuts up.now }
                requires few { length chunk.now.now ≤ 2 ^ 32 }
                ensures { IfOk result (λ p. IsChunk up.entry.now chunk.entry.now.now p) }
            { listed(alloc, chunk, up) },
        )
        .collect::<Result<Vec<Chunk>, AllocError>>(rt, alloc)?
}

/// A chunk with its lists.
fn listed<'a>(alloc: Global, rects: &'a [Rect], up: &[i64]) -> Result<Chunk<'a>, AllocError>
    requires cuts { AreCuts up.now }
    requires few { length rects.now ≤ 2 ^ 32 }
    ensures { IfOk result (λ p. IsChunk up.now rects.now p) }
{
    let rows = by_row(alloc, rects, up)?;
    Ok(Chunk { rects, rows })
}

/// Chunks of the lists, which together have all their rectangles.
fn chunks_of(alloc: Global, lists: &[Vec<Rect>]) -> Result<Vec<&[Rect]>, AllocError>
    ensures whole { IfOk result (λ v. (x y : ℤ) → covered_by_chunks v.items x y ≡ covered (flat_map vec_items lists.now) x y) }
    ensures few { IfOk result (λ v. All (λ chunk. length chunk.now ≤ 2 ^ 32) v.items) }
{
    let size = count_of(lists).div_ceil(MOST_PARTS).max(LEAST_PART);
    let mut chunks = Vec::new(alloc);
    for list in lists {
        put_chunks(&mut chunks, list, size)?;
    }
    Ok(chunks)
}

/// How many rectangles the lists have.
pub(crate) fn count_of(lists: &[Vec<Rect>]) -> usize {
    let mut count: usize = 0;
    for list in lists {
        count = count.saturating_add(list.len());
    }
    count
}

/// Cuts a list into chunks of about a size.
fn put_chunks<'a>(
    chunks: &mut Vec<&'a [Rect]>,
    list: &'a [Rect],
    size: usize,
) -> Result<(), AllocError>
    requires few { All (λ chunk. length chunk.now ≤ 2 ^ 32) chunks.old.items }
    ensures whole { OnOk result ((x y : ℤ) → covered_by_chunks chunks.new.items x y ≡ (covered_by_chunks chunks.old.items x y || covered list.now x y)) }
    ensures few { OnOk result (All (λ chunk. length chunk.now ≤ 2 ^ 32) chunks.new.items) }
{
    let count = list.len().saturating_add(size / 2) / size.max(1);
    let each = list.len().div_ceil(count.max(1)).clamp(1, MOST_IN_CHUNK);
    for chunk in list.chunks(each) {
        chunks.push(chunk)?;
    }
    Ok(())
}

/// The rectangles that all chunks list for the row at `j`.
pub(crate) fn row_of(alloc: Global, chunks: &[Chunk], j: usize) -> Result<Vec<Rect>, AllocError>
    requires { All (λ chunk. j < length chunk.rows.items) chunks.now }
    ensures { IfOk result (λ v. (x y : ℤ) → covered v.items x y ≡ listed_by_chunks j chunks.now x y) }
{
    let mut row = Vec::new(alloc);
    for chunk in chunks {
        put_listed(&mut row, chunk.rects, &chunk.rows[j])?;
    }
    Ok(row)
}

/// Puts the rectangles at these places to a row.
fn put_listed(row: &mut Vec<Rect>, rects: &[Rect], places: &[u32]) -> Result<(), AllocError>
    ensures { OnOk result ((x y : ℤ) → covered row.new.items x y ≡ (covered row.old.items x y || covered_at rects.now places.now x y)) }
{
    row.reserve(places.len())?;
    for place in places {
        if let Some(rect) = rects.get(*place as usize) {
            row.push(*rect)?;
        }
    }
    Ok(())
}
