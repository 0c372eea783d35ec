//! The places of one tile that a job proposes to fill.
ghost use Rattle.std.specs.Prelude.{◌≡◌, ◌↔◌, ◌<◌, ℕ, ℤ, true, IsTrue};
ghost use Rattle.fill_raster.specs.Lattice.{tiles};
ghost use Rattle.fill_raster.specs.Marks.{count_marked, is_marked};
ghost use Rattle.fill_job.specs.Basis.{layers_in, plan_by, read_by, windows_in};
ghost use Rattle.fill_text.specs.ValuesOfRules.{values_of};
ghost use Rattle.fill_job.specs.Plans.{Layers, plan_of};
ghost use Rattle.fill_job.specs.ReadSets.{layers_near, read_set, touches, wanted_of};

use crate::basis::Basis;
use crate::reading::same_touching;
use fill_raster::{Marks, Place};
use fill_region::Region;
use fill_text::Rules;

/// The wanted places of a tile, with the version and the read set of the job that they were found by. Only `Job::propose`
/// makes one.
#[derive(Drop)]
pub struct Proposal {
    pub(crate) version: u64,
    pub(crate) tile: u32,
    pub(crate) basis: Basis,
    pub(crate) marks: Marks,
    pub ghost exists: { tile < tiles (plan_by basis).raster },
    pub ghost reads: { (a b : ℕ) → windows_in basis.low a b ≡ true → touches (plan_by basis) tile a b ≡ true },
    pub ghost marked: { (i j : ℤ) → is_marked marks i j ≡ wanted_of (read_by basis) tile i j },
}

impl Proposal {
    /// The version of the design that was read.
    pub fn version(&self) -> u64
        ensures { result ≡ self.now.version }
    {
        self.version
    }

    /// The tile.
    pub fn tile(&self) -> u32
        ensures { result ≡ self.now.tile }
    {
        self.tile
    }

    /// How many places are marked.
    pub fn count(&self) -> u32
        ensures { result ≡ count_marked self.now.marks }
    {
        self.marks.count()
    }

    /// Whether a place is marked, which is so where it is wanted.
    pub fn has(&self, place: Place) -> bool
        ensures { result ≡ wanted_of (read_by self.now.basis) self.now.tile place.i place.j }
    {
        self.marks.has(place)
    }

    /// Whether the rules and all that was read are what there is to read now: these rules, this metal, existing fill and these keep-outs
    /// near to the tile, and of these low windows those that touch the tile. Versions are not compared. Takes no memory.
    pub fn matches(
        &self,
        rules: &Rules,
        metal: &Region,
        fill: &Region,
        keep: &Region,
        low: &Region,
    ) -> bool
        ensures { (layers : Layers) → layers_in metal.now fill.now keep.now ≡ layers_near (plan_of (values_of rules.now)) layers self.now.tile → IsTrue result ↔ (read_by self.now.basis ≡ read_set (values_of rules.now) layers (windows_in low.now) self.now.tile) }
    {
        let basis = &self.basis;
        let same_rules = basis.rules.rules().same_as(rules);
        let same_metal = *basis.pieces.metal.region() == *metal;
        let same_fill = *basis.pieces.fill.region() == *fill;
        let same_keep = *basis.pieces.keep.region() == *keep;
        let same_low = same_touching(basis.rules.rules(), &basis.low, low, self.tile);
        (same_rules & (same_metal & (same_fill & same_keep))) & same_low
    }

    /// The marks.
    pub fn marks(&self) -> &Marks
        ensures { result.now ≡ self.now.marks }
    {
        &self.marks
    }
}
