//! The work on one tile, to be done apart from the design.
ghost use Rattle.std.specs.Prelude.{◌≡◌, ◌<◌, ℕ, true, IfOk, IfErr};
ghost use Rattle.fill_raster.specs.Lattice.{tiles};
ghost use Rattle.fill_job.specs.Basis.{layers_of, plan_by, read_by, windows_in};
ghost use Rattle.fill_job.specs.Plans.{Layers, plan_of};
ghost use Rattle.fill_job.specs.ReadSets.{layers_near, read_set, touches};

use crate::basis::Basis;
use crate::proposal::Proposal;
use crate::shared::{Pieces, SharedRules};
use fill_raster::Marks;
use fill_region::Region;
use std::alloc::{AllocError, Global};

/// A tile of a version of a design, with all that the wanted places of the tile depend on.
#[derive(Drop)]
pub struct Job {
    pub(crate) version: u64,
    pub(crate) tile: u32,
    pub(crate) basis: Basis,
    pub ghost exists: { tile < tiles (plan_by basis).raster },
    pub ghost reads: { (a b : ℕ) → windows_in basis.low a b ≡ true → touches (plan_by basis) tile a b ≡ true },
}

impl Job {
    /// The work on a tile of a version of a design: its rules, what of its layers is near to the tile, and its windows whose share is
    /// below the least, each as a unit square, the window in column `a` and row `b` as the square `(a, b)`. Of the windows the job
    /// copies those that share a square with the bounding rectangle of the tile's boxes; rules and pieces it holds together with
    /// others.
    ///
    /// # Errors
    /// `AllocError` where memory is refused.
    pub fn new(
        alloc: Global,
        version: u64,
        tile: u32,
        rules: SharedRules,
        pieces: Pieces,
        low: &Region,
    ) -> Result<Job, AllocError>
        requires tile { tile < tiles (plan_of rules).raster }
        ensures version { IfOk result (λ j. j.version ≡ version) }
        ensures tile { IfOk result (λ j. j.tile ≡ tile) }
        ensures read { (layers : Layers) → layers_of pieces ≡ layers_near (plan_of rules) layers tile → IfOk result (λ j. read_by j.basis ≡ read_set rules layers (windows_in low.now) tile) }
    {
        let basis = Basis::read(alloc, rules, pieces, low, tile)?;
        Ok(Job {
            version,
            tile,
            basis,
        })
    }

    /// The version of the design that was read.
    pub fn version(&self) -> u64
        ensures { result ≡ self.now.version }
    {
        self.version
    }

    /// The tile.
    pub fn tile(&self) -> u32
        ensures { result ≡ self.now.tile }
    {
        self.tile
    }

    /// The proposal to fill the wanted places of the tile.
    ///
    /// # Errors
    /// The job itself where memory is refused.
    pub fn propose(self, alloc: Global) -> Result<Proposal, Job>
        ensures version { IfOk result (λ p. p.version ≡ self.version) }
        ensures tile { IfOk result (λ p. p.tile ≡ self.tile) }
        ensures read { IfOk result (λ p. p.basis ≡ self.basis) }
        ensures back { IfErr result (λ j. j ≡ self) }
    {
        let Ok(mut marks) = Marks::none(alloc, &self.basis.rules.raster(), self.tile) else {
            return Err(self);
        };
        let Ok(()) = self.basis.mark_tile(alloc, self.tile, &mut marks) else {
            return Err(self);
        };
        Ok(Proposal {
            version: self.version,
            tile: self.tile,
            basis: self.basis,
            marks,
        })
    }
}
