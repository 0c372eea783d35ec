//! The prefix sums of bands of neighbouring rows of cells, measured in parallel straight from rectangles.
ghost use Rattle.std.specs.Prelude.{◌≡◌, ◌+◌, ◌*◌, ◌<◌, ◌≤◌, IfOk};
ghost use Rattle.fill_cells.specs.Mesh.{gaps};
ghost use Rattle.fill_measure.specs.steps.Meshes.{AreAllPrefixSumsOf, ArePrefixSumsOf, AreBandsOf, IsBandOf, squares_of};
ghost use Rattle.fill_measure.specs.steps.Chunks.{AreChunkLists};

use crate::lists::{Chunk, by_chunks, row_of};
use crate::mesh::Mesh;
use crate::prefix_sums::PrefixSums;
use fill_base::Rect;
use fill_cells::row_areas;
use rayon::prelude::*;
use std::alloc::{AllocError, Global};
use std::thread::Threads;

/// The rows of cells are cut into at most so many bands of neighbours, which threads measure.
const MOST_BANDS: usize = 64;

impl Mesh<'_> {
    /// The prefix sums of a mesh of rectangles. Chunks of the rectangles are shared out to rows in parallel, and then bands of rows are
    /// measured so. A thread holds the rectangles of one row at a time, and uses the lists of its cells again for the next.
    pub(crate) fn prefix_sums(
        &self,
        rt: &(impl Threads + Sync),
        alloc: Global,
    ) -> Result<PrefixSums, AllocError>
        ensures { IfOk result (λ c. AreAllPrefixSumsOf self.now c) }
    {
        let listed = by_chunks(rt, alloc, self.lists, self.up)?;
        let rows = self.up.len() - 1;
        let height = rows.div_ceil(MOST_BANDS).max(1);
        let bands = self.bands(rt, alloc, &listed, height)?;
        self.put_together(alloc, height, bands)
    }

    /// The prefix sums of each band of `height` rows, of which the last may have fewer.
    fn bands(
        &self,
        rt: &(impl Threads + Sync),
        alloc: Global,
        chunks: &[Chunk],
        height: usize,
    ) -> Result<Vec<Vec<i64>>, AllocError>
        requires height { 0 < height }
        requires chunks { AreChunkLists self.now.up.now (squares_of self.now) chunks.now }
        ensures { IfOk result (λ v. AreBandsOf self.now height v.items) }
    {
        let rows = self.up.len() - 1;
        (0..rows.div_ceil(height))
            .into_par_iter()
            .with_min_len(1)
            .map_init(
                || -> Vec<Vec<Rect>> { Vec::new(alloc) },
                move |held: &mut Vec<Vec<Rect>>, k: usize| -> Result<Vec<i64>, AllocError>
                    requires within { (k * height < rows) × (rows ≡ gaps self.now.up.now) }
                    requires chunks { AreChunkLists self.now.up.now (squares_of self.now) chunks.now }
                    ensures { IfOk result (λ v. IsBandOf self.entry.now height k v.items) }
                {
                    let from = k * height;
                    self.band(alloc, held, chunks, from, height.min(rows - from))
                },
            )
            .collect::<Result<Vec<Vec<i64>>, AllocError>>(rt, alloc)?
    }

    /// The prefix sums on the cuts of `count` rows of cells from row `from` on, above the lowest of these cuts. The lists of a row's
    /// cells are used again for the next.
    fn band(
        &self,
        alloc: Global,
        held: &mut Vec<Vec<Rect>>,
        chunks: &[Chunk],
        from: usize,
        count: usize,
    ) -> Result<Vec<i64>, AllocError>
        requires chunks { AreChunkLists self.now.up.now (squares_of self.now) chunks.now }
        requires within { from + count ≤ gaps self.now.up.now }
        ensures { IfOk result (λ v. ArePrefixSumsOf self.now from (count + 1) v.items) }
    {
        let mut prefix_sums = self.lowest(alloc, count)?;
        for k in 0..count {
            let j = from + k;
            let rects = row_of(alloc, chunks, j)?;
            let row = row_areas(alloc, held, rects, self.across, self.up[j], self.up[j + 1])?;
            self.add_cut(from, k, &row, &mut prefix_sums)?;
        }
        Ok(prefix_sums)
    }
}
