//! The areas of windows whose sides are cuts, by sums: each is a difference of four.
ghost use Rattle.std.specs.Prelude.{◌≡◌, ℤ, pos, Bool, ◌+◌, ◌*◌, ◌/◌, ◌%◌, ◌<◌, ◌≤◌, IfOk, All, length, get_or};
ghost use Rattle.fill_area.specs.Density.{AreMeasured, IsArea, window_area};
ghost use Rattle.fill_base.specs.Squares.{area_between};
ghost use Rattle.fill_area.specs.Grid.{IsGrid, parts_across, parts_up};
ghost use Rattle.fill_cells.specs.Mesh.{AreCuts};
ghost use Rattle.fill_measure.specs.Sums.{AreSumsOf, areas_from};
ghost use Rattle.fill_measure.specs.steps.PrefixSums.{block_area};
ghost use Rattle.fill_measure.specs.steps.Ends.{AreAmong};
ghost use Rattle.fill_measure.specs.steps.Meshes.{AreSums};
ghost use Rattle.fill_measure.specs.steps.Sides.{IsSide, coordinate_of};
ghost use Rattle.fill_measure.specs.steps.Uniform.{IsUniform, turned};

use crate::prefix_sums::PrefixSums;
use crate::sides::{Side, sides_of};
use crate::sums::WindowSums;
use fill_area::Windows;
use rayon::prelude::*;
use std::alloc::{AllocError, Global};
use std::thread::Threads;

impl WindowSums {
    /// The sums of these windows, each of whose sides is one of the cuts or stands amid two, where the set is uniform.
    pub(crate) fn new(
        alloc: Global,
        windows: &Windows,
        across: Vec<i64>,
        up: Vec<i64>,
        prefix_sums: PrefixSums,
    ) -> Result<WindowSums, AllocError>
        requires across_cuts { AreCuts across.items }
        requires up_cuts { AreCuts up.items }
        requires across { AreAmong across.items (parts_across windows.now) }
        requires up { AreAmong up.items (parts_up windows.now) }
        requires measured { ∥ ((p : ℤ → ℤ → Bool) × AreSums p windows.now across.items up.items prefix_sums) ∥₁ }
        ensures windows { IfOk result (λ s. s.windows ≡ windows.now) }
        ensures sums { IfOk result (λ s. (p : ℤ → ℤ → Bool) → AreSums p windows.now across.items up.items prefix_sums → AreSumsOf p s) }
    {
        let columns = sides_of(alloc, windows.parts_across(), &across)?;
        let rows = sides_of(alloc, windows.parts_up(), &up)?;
        Ok(WindowSums {
            windows: *windows,
            across,
            up,
            prefix_sums,
            columns,
            rows,
        })
    }

    /// The windows.
    pub fn windows(&self) -> &Windows
        ensures { result.now ≡ self.now.windows }
    {
        &self.windows
    }

    /// How many squares lie below the cut upwards at `j` and left of the cut across at `i`.
    fn number(&self, j: usize, i: usize) -> i64
        requires cut { j < length self.now.up.items }
        requires column { i < length self.now.across.items }
        ensures { (p : ℤ → ℤ → Bool) → AreSumsOf p self.now → (d : ℤ) → result ≡ pos (block_area p self.now.across.items self.now.up.items 0 0 i j d) }
    {
        let width = self.across.len();
        let height = self.prefix_sums.height;
        let k = (j / height).min(self.prefix_sums.bands.len() - 1);
        let band = self.prefix_sums.bands[k].as_slice();
        self.prefix_sums.below[k * width + i] + band[(j - k * height) * width + i]
    }

    /// How many squares lie below the cut upwards at `j` and left of a side across.
    fn left_of(&self, j: usize, column: Side) -> i64
        requires cut { j < length self.now.up.items }
        requires column { IsSide self.now.across.items column }
        requires uniform { 0 < column.past → (p : ℤ → ℤ → Bool) → AreSumsOf p self.now → IsUniform p self.now.across.items column.cut }
        ensures { (p : ℤ → ℤ → Bool) → AreSumsOf p self.now → (d : ℤ) → let across = self.now.across.items in let up = self.now.up.items in
            result ≡ pos (area_between p (get_or across 0 d) (get_or up 0 d) (coordinate_of across column d) (get_or up j d)) }
    {
        let count = self.number(j, column.cut);
        if column.past == 0 {
            return count;
        }
        let next = self.number(j, column.cut + 1);
        let gap = self.across[column.cut + 1].abs_diff(self.across[column.cut]);
        column.grown(count, next, gap)
    }

    /// How many squares lie below a side upwards and left of a side across.
    fn below(&self, row: Side, column: Side) -> i64
        requires column { IsSide self.now.across.items column }
        requires row { IsSide self.now.up.items row }
        requires uniform_across { 0 < column.past → (p : ℤ → ℤ → Bool) → AreSumsOf p self.now → IsUniform p self.now.across.items column.cut }
        requires uniform_up { 0 < row.past → (p : ℤ → ℤ → Bool) → AreSumsOf p self.now → IsUniform (turned p) self.now.up.items row.cut }
        ensures { (p : ℤ → ℤ → Bool) → AreSumsOf p self.now → (d : ℤ) → let across = self.now.across.items in let up = self.now.up.items in
            result ≡ pos (area_between p (get_or across 0 d) (get_or up 0 d) (coordinate_of across column d) (coordinate_of up row d)) }
    {
        let count = self.left_of(row.cut, column);
        if row.past == 0 {
            return count;
        }
        let next = self.left_of(row.cut + 1, column);
        let gap = self.up[row.cut + 1].abs_diff(self.up[row.cut]);
        row.grown(count, next, gap)
    }

    /// The area of the window in column `a` and row `b`.
    pub fn area(&self, a: u32, b: u32) -> i64
        requires column { a < self.now.windows.across.count }
        requires row { b < self.now.windows.up.count }
        ensures is { (p : ℤ → ℤ → Bool) → AreSumsOf p self.now → result ≡ pos (window_area p self.now.windows a b) }
    {
        let (column, row) = (self.columns[a as usize], self.rows[b as usize]);
        let above = self.below(row.end, column.end) - self.below(row.end, column.begin);
        let below = self.below(row.begin, column.end) - self.below(row.begin, column.begin);
        above - below
    }

    /// The areas of `count` windows from the one at place `from` on, row by row.
    ///
    /// # Errors
    /// `AllocError` where memory is refused.
    pub fn areas_from(
        &self,
        alloc: Global,
        from: usize,
        count: usize,
    ) -> Result<Vec<i64>, AllocError>
        requires { from + count ≤ self.now.windows.across.count * self.now.windows.up.count }
        ensures areas { IfOk result (λ v. (p : ℤ → ℤ → Bool) → AreSumsOf p self.now → v.items ≡ areas_from p self.now.windows from count) }
        ensures count { IfOk result (λ v. length v.items ≡ count) }
        ensures grid { IfOk result (λ v. IsGrid self.now.windows) }
        ensures bounded { IfOk result (λ v. All IsArea v.items) }
    {
        let mut areas = Vec::with_capacity(alloc, count.min(self.windows.len()))?;
        for i in 0..count {
            let (a, b) = self.windows.column_and_row(from + i);
            areas.push(self.area(a, b))?;
        }
        Ok(areas)
    }

    /// The areas of all windows, row by row, as threads find them.
    pub(crate) fn areas(
        &self,
        rt: &(impl Threads + Sync),
        alloc: Global,
    ) -> Result<Vec<i64>, AllocError>
        ensures areas { IfOk result (λ v. (p : ℤ → ℤ → Bool) → AreSumsOf p self.now → AreMeasured p self.now.windows v.items) }
        ensures bounded { IfOk result (λ v. All IsArea v.items) }
    {
        (0..self.windows.len())
            .into_par_iter()
            .map(
                |i: usize| -> i64
                    requires { i < self.now.windows.across.count * self.now.windows.up.count }
                    ensures { let g = self.entry.now.windows in (p : ℤ → ℤ → Bool) → AreSumsOf p self.entry.now → result ≡ pos (window_area p g (i % g.across.count) (i / g.across.count)) }
                {
                    let (a, b) = self.windows.column_and_row(i);
                    self.area(a, b)
                },
            )
            .collect(rt, alloc)
    }
}
