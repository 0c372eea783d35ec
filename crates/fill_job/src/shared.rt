//! Rules and squares of a design that jobs and books hold together.
ghost use Rattle.std.specs.Arc.{arc_value};
ghost use Rattle.std.specs.Prelude.{◌≡◌, List, IfOk};
ghost use Rattle.fill_region.specs.Runs.{Sides};
ghost use Rattle.fill_raster.specs.Lattice.{KeepsPitch};
ghost use Rattle.fill_text.specs.Rules as spec;
ghost use Rattle.fill_text.specs.Keys.{IsWithin};
ghost use Rattle.fill_text.specs.Rules.{Values, value_of};
ghost use Rattle.fill_text.specs.ValuesOfRules.{values_of};
ghost use Rattle.fill_text.specs.declared.keys.NumberKey.TheVariants as NumberKey;
ghost use Rattle.fill_job.specs.Plans.{IsPlan, plan_of};

use crate::laws::rules_make_a_plan;
use fill_area::Windows;
use fill_raster::Raster;
use fill_region::Region;
use fill_text::Rules;
use std::alloc::{AllocError, Global};
use std::marker::Model;
use std::sync::Arc;

/// Rules that several may hold together.
#[derive(Drop)]
pub struct SharedRules {
    rules: Arc<Rules>,
}

impl Model for SharedRules {
    ghost use Rattle.std.specs.Arc.{arc_value};
    ghost use Rattle.fill_text.specs.Rules.{Values};
    ghost use Rattle.fill_text.specs.ValuesOfRules.{values_of};

    ghost Value = { Values };

    ghost view = { λ r. values_of (arc_value r.rules) };
}

impl SharedRules {
    /// Rules with one holder.
    ///
    /// # Errors
    /// `AllocError` where memory is refused.
    pub fn new(alloc: Global, rules: Rules) -> Result<SharedRules, AllocError>
        ensures { IfOk result (λ r. r ≡ values_of rules) }
    {
        let rules = Arc::new(alloc, rules)?;
        Ok(SharedRules { rules })
    }

    /// The same rules, with one holder more.
    ///
    /// # Errors
    /// `AllocError` where their count is at its end.
    pub fn share(&self) -> Result<SharedRules, AllocError>
        ensures { IfOk result (λ r. r ≡ self.now) }
    {
        let rules = Arc::try_clone(&self.rules)?;
        Ok(SharedRules { rules })
    }

    /// The rules.
    pub fn rules(&self) -> &Rules
        ensures { values_of result.now ≡ self.now }
    {
        &self.rules
    }

    /// The density windows.
    pub fn windows(&self) -> Windows
        ensures { result ≡ spec.windows_of self.now }
    {
        self.rules.windows()
    }

    /// The places where a fill box may stand, and their tiles.
    pub fn raster(&self) -> Raster
        ensures raster { result ≡ spec.raster_of self.now.numbers }
        ensures pitch { KeepsPitch result (value_of self.now NumberKey.FillSpacing) }
    {
        self.rules.raster()
    }

    /// The least gap between a fill box and metal.
    pub fn spacing(&self) -> i64
        ensures value { result ≡ value_of self.now NumberKey.Spacing }
        ensures range { IsWithin NumberKey.Spacing result }
    {
        self.rules.spacing()
    }

    /// The least gap between a fill box and existing fill, and between two boxes.
    pub fn fill_spacing(&self) -> i64
        ensures value { result ≡ value_of self.now NumberKey.FillSpacing }
        ensures range { IsWithin NumberKey.FillSpacing result }
    {
        self.rules.fill_spacing()
    }

    /// The least density, in millionths.
    pub fn min(&self) -> i64
        ensures value { result ≡ value_of self.now NumberKey.Min }
        ensures range { IsWithin NumberKey.Min result }
    {
        self.rules.min()
    }

    /// Tells what rules keep: they make a plan. Does nothing at run time.
    pub fn make_a_plan(&self)
        ensures { IsPlan (plan_of self.now) }
    {
        rules_make_a_plan(self.rules());
    }
}

/// Squares of a layer, as those in the halo of a tile, that several may hold together.
#[derive(Drop)]
pub struct Piece {
    region: Arc<Region>,
}

impl Model for Piece {
    ghost use Rattle.std.specs.Prelude.{List};
    ghost use Rattle.std.specs.Arc.{arc_value};
    ghost use Rattle.fill_region.specs.Runs.{Sides};

    ghost Value = { List Sides };

    ghost view = { λ p. arc_value p.region };
}

impl Piece {
    /// A piece with one holder.
    ///
    /// # Errors
    /// `AllocError` where memory is refused.
    pub fn new(alloc: Global, region: Region) -> Result<Piece, AllocError>
        ensures { IfOk result (λ p. p ≡ region) }
    {
        let region = Arc::new(alloc, region)?;
        Ok(Piece { region })
    }

    /// The same piece, with one holder more.
    ///
    /// # Errors
    /// `AllocError` where their count is at its end.
    pub fn share(&self) -> Result<Piece, AllocError>
        ensures { IfOk result (λ p. p ≡ self.now) }
    {
        let region = Arc::try_clone(&self.region)?;
        Ok(Piece { region })
    }

    /// The squares.
    pub fn region(&self) -> &Region
        ensures { result.now ≡ self.now }
    {
        &self.region
    }
}

/// What of a design the work on a tile depends on.
#[derive(Drop)]
pub struct Pieces {
    /// The metal in the tile's halo.
    pub metal: Piece,
    /// The existing fill in its halo, as far as the fill spacing.
    pub fill: Piece,
    /// The keep-outs in the bounding rectangle of its boxes.
    pub keep: Piece,
}
