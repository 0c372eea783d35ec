//! How many covered squares lie below and left of each crossing of two cuts: an area between cuts is a difference of such numbers.
ghost use Rattle.std.specs.Prelude.{◌≡◌, ◌+◌, ◌-◌, ◌*◌, ◌<◌, ◌≤◌, pos, IfOk, OnOk, length, replicate};
ghost use Rattle.fill_cells.specs.Mesh.{gaps};
ghost use Rattle.fill_measure.specs.steps.Meshes.{AreAllPrefixSumsOf, AreBelow, ArePrefixSumsOf, AreBandsOf, IsBandOf, IsRowOf};

use crate::mesh::Mesh;
use std::alloc::{AllocError, Global};

/// The prefix sums of a mesh, by bands of neighbouring rows of cells.
#[derive(Drop)]
pub(crate) struct PrefixSums {
    /// So many rows are in each band, but for the last one, which may have fewer.
    pub(crate) height: usize,
    /// For each band, cut by cut from its lowest on, how many covered squares lie left of each cut across and above its lowest cut.
    pub(crate) bands: Vec<Vec<i64>>,
    /// For each band how many lie left of each cut across and below its lowest cut.
    pub(crate) below: Vec<i64>,
}

impl Mesh<'_> {
    /// The prefix sums on a lowest cut, below which nothing lies. There is room for those of so many further cuts.
    pub(crate) fn lowest(&self, alloc: Global, cuts: usize) -> Result<Vec<i64>, AllocError>
        ensures { IfOk result (λ v. v.items ≡ replicate (length self.now.across.now) (pos 0)) }
    {
        let mut prefix_sums = Vec::from_elem(alloc, 0, self.across.len())?;
        prefix_sums.reserve(cuts.saturating_mul(self.across.len()))?;
        Ok(prefix_sums)
    }

    /// Adds the prefix sums of the cut above a row of cells, which is row `k` of the band that begins with row `from`.
    pub(crate) fn add_cut(
        &self,
        from: usize,
        k: usize,
        row: &[i64],
        prefix_sums: &mut Vec<i64>,
    ) -> Result<(), AllocError>
        requires within { from + k < gaps self.now.up.now }
        requires row { IsRowOf self.now (from + k) row.now }
        requires prefix_sums { ArePrefixSumsOf self.now from (k + 1) prefix_sums.old.items }
        ensures { OnOk result (ArePrefixSumsOf self.now from (k + 2) prefix_sums.new.items) }
    {
        let below = k * self.across.len();
        let mut total = 0;
        prefix_sums.push(0)?;
        for i in 0..self.across.len() - 1 {
            total += row[i];
            prefix_sums.push(prefix_sums[below + i + 1] + total)?;
        }
        Ok(())
    }

    /// The prefix sums of all bands of `height` rows, with what lies below each.
    pub(crate) fn put_together(
        &self,
        alloc: Global,
        height: usize,
        bands: Vec<Vec<i64>>,
    ) -> Result<PrefixSums, AllocError>
        requires { AreBandsOf self.now height bands.items }
        ensures { IfOk result (λ c. AreAllPrefixSumsOf self.now c) }
    {
        let mut below = self.lowest(alloc, bands.len())?;
        for k in 1..bands.len() {
            self.add_band(height, k, &bands[k - 1], &mut below)?;
        }
        Ok(PrefixSums {
            height,
            bands,
            below,
        })
    }

    /// Adds what lies below the band at `k`, by what lies below the one before and what that one has on its highest cut.
    fn add_band(
        &self,
        height: usize,
        k: usize,
        band: &[i64],
        below: &mut Vec<i64>,
    ) -> Result<(), AllocError>
        requires within { (1 ≤ k) × (k * height ≤ gaps self.now.up.now) }
        requires band { IsBandOf self.now height (k - 1) band.now }
        requires below { AreBelow self.now height k below.old.items }
        ensures { OnOk result (AreBelow self.now height (k + 1) below.new.items) }
    {
        let width = self.across.len();
        let (last, top) = ((k - 1) * width, height * width);
        for i in 0..width {
            below.push(below[last + i] + band[top + i])?;
        }
        Ok(())
    }
}
