//! What is to be carried of a design: its copies are counted, and several threads carry stretches of them at once.

ghost use Rattle.std.specs.Prelude.{◌≡◌, ◌+◌, ◌*◌, ◌≤◌, ◌<◌, [], length, IfOk, IfErr};
ghost use Rattle.std.specs.List.{flat_map};
ghost use Rattle.std.specs.Vec.{vec_items};
ghost use Rattle.gds_cells.specs.steps.Walks.{part, IsDrawn, IsRefusal};
ghost use Rattle.gds_flatten.specs.steps.Roots.{roots_copies, AreRooted};

use crate::stretch::Stretch;
use crate::turns::Turns;
use crate::walk::carry_roots;
use fill_base::Rect;
use gds_cells::{Cell, FlattenError};
use rayon::prelude::*;
use std::alloc::Global;
use std::thread::Threads;

/// The copies are cut into at most so many stretches, which threads carry.
const MOST_STRETCHES: usize = 16;

/// A stretch has so many copies or more, or all that are left: fewer take no longer than a thread needs to begin.
const LEAST_STRETCH: usize = 4_096;

/// Cells, and what of them is to be carried: 4,000,000 copies or fewer.
#[derive(Drop)]
pub struct Design<'a, 'b> {
    /// The cells, by index.
    pub cells: Vec<Cell<'a, 'b>>,
    /// How many copies each cell draws.
    pub counts: Vec<usize>,
    /// What is carried.
    pub roots: Vec<Turns>,
    /// How many copies that draws.
    pub number: usize,
    pub ghost all: { number ≡ length (roots_copies cells.items roots.items) },
    pub ghost few: { number ≤ 4000000 },
}

impl Design<'_, '_> {
    /// The rectangles of all copies in parts, each of a stretch of them that a thread carries.
    pub fn parts(
        &self,
        rt: &(impl Threads + Sync),
        alloc: Global,
    ) -> Result<Vec<Vec<Rect>>, FlattenError>
        requires counted { AreRooted self.now.cells.items self.now.counts.items self.now.roots.items }
        ensures drawn { IfOk result (λ v. IsDrawn (roots_copies self.now.cells.items self.now.roots.items) [] (flat_map vec_items v.items)) }
        ensures refused { IfErr result (IsRefusal (roots_copies self.now.cells.items self.now.roots.items)) }
    {
        let size = self.number.div_ceil(MOST_STRETCHES).max(LEAST_STRETCH);
        (0..self.number.div_ceil(size))
            .into_par_iter()
            .with_min_len(1)
            .map(
                move |index: usize| -> Result<Vec<Rect>, FlattenError>
                    requires counted { AreRooted self.now.cells.items self.now.counts.items self.now.roots.items }
                    requires few { size ≤ 4000000 }
                    requires within { index * size < self.now.number }
                    ensures drawn { IfOk result (λ v. IsDrawn (part (index * size) (index * size + size)
                        (roots_copies self.entry.now.cells.items self.entry.now.roots.items)) [] v.items) }
                    ensures refused { IfErr result (IsRefusal (roots_copies self.entry.now.cells.items self.entry.now.roots.items)) }
                { self.part(alloc, size, index) },
            )
            .collect::<Result<Vec<Vec<Rect>>, FlattenError>>(rt, alloc)?
    }

    /// The rectangles of the stretch at the index, where each stretch has so many copies.
    fn part(&self, alloc: Global, size: usize, index: usize) -> Result<Vec<Rect>, FlattenError>
        requires counted { AreRooted self.now.cells.items self.now.counts.items self.now.roots.items }
        requires few { size ≤ 4000000 }
        requires within { index * size < self.now.number }
        ensures drawn { IfOk result (λ v. IsDrawn (part (index * size) (index * size + size)
            (roots_copies self.now.cells.items self.now.roots.items)) [] v.items) }
        ensures refused { IfErr result (IsRefusal (roots_copies self.now.cells.items self.now.roots.items)) }
    {
        let from = index * size;
        let stretch = Stretch {
            from,
            to: (from + size).min(self.number),
        };
        let mut rects = Vec::with_capacity(alloc, stretch.to - stretch.from)?;
        carry_roots(&self.cells, &self.counts, &self.roots, stretch, &mut rects)?;
        Ok(rects)
    }
}
