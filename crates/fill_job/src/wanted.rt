//! Which places are wanted by what was read.
ghost use Rattle.std.specs.Prelude.{◌≡◌, ◌↔◌, ◌&&◌, ◌||◌, ◌<◌, ℤ, pos, ◌<ℤ◌, true, false, length, IsTrue, IfOk, OnOk};
ghost use Rattle.std.specs.Ordering.{int_eq};
ghost use Rattle.fill_base.specs.Counts.{is_between, span_len};
ghost use Rattle.fill_base.specs.Sides.{sides_of};
ghost use Rattle.fill_region.specs.Runs.{holds};
ghost use Rattle.fill_raster.specs.Lattice.{in_raster, in_tile, tiles};
ghost use Rattle.fill_raster.specs.Marks.{in_block, is_marked};
ghost use Rattle.fill_text.specs.Rules as rules;
ghost use Rattle.fill_base.specs.Limits.{IsSpacing};
ghost use Rattle.fill_job.specs.Plans.{is_suitable, is_taken, wanted};
ghost use Rattle.fill_job.specs.Basis.{layers_by, plan_by, windows_in};
ghost use Rattle.fill_job.specs.steps.Reaches.{AreMet, AreOfAll, AreReaches, AreTaken};
ghost use Rattle.fill_job.specs.steps.Windows.{HoldsIn};

use crate::basis::Basis;
use fill_base::Rect;
use fill_raster::{Marks, Place};
use fill_region::Region;
use fill_size::{is_clear, mark_met};
use std::alloc::{AllocError, Global};

/// The columns that the boxes of a part of a row reach, with the distance on both sides that they keep to metal, with that to existing
/// fill, and alone as keep-outs meet them.
#[derive(Drop)]
struct Reaches {
    metal: Vec<(i64, i64)>,
    fill: Vec<(i64, i64)>,
    keep: Vec<(i64, i64)>,
}

impl Basis {
    /// Whether some low window holds the whole rectangle.
    fn is_in_low(&self, rect: &Rect) -> bool
        ensures { IsTrue result ↔ HoldsIn (rules.windows_of self.now.rules) self.now.low (sides_of rect.now) }
    {
        let (columns, rows) = self.rules.windows().containing(rect);
        if columns.start >= columns.end || rows.start >= rows.end {
            return false;
        }
        let range = Rect::from_edges(
            i64::from(columns.start),
            i64::from(rows.start),
            i64::from(columns.end),
            i64::from(rows.end),
        );
        !is_clear(&self.low, &range, 0)
    }

    /// Whether a place of the raster, taken or not, is free and lies wholly in a low window.
    fn is_suitable(&self, place: Place, taken: bool) -> bool
        requires raster { in_raster (plan_by self.now).raster place.i place.j ≡ true }
        requires taken { taken ≡ is_taken (plan_by self.now) (layers_by self.now) place.i place.j }
        ensures { result ≡ is_suitable (plan_by self.now) (layers_by self.now) (windows_in self.now.low) place.i place.j }
    {
        !taken && self.is_in_low(&self.rules.raster().box_of(place))
    }

    /// The columns that the boxes of a part of a row reach, each with a distance on both sides: the same for every row.
    fn reaches(
        &self,
        alloc: Global,
        distance: i64,
        left: i64,
        right: i64,
        j: i64,
    ) -> Result<Vec<(i64, i64)>, AllocError>
        requires distance { IsSpacing distance }
        requires some { left <ℤ right }
        requires places { (i : ℤ) → is_between left right i ≡ true → in_raster (plan_by self.now).raster i j ≡ true }
        ensures { IfOk result (λ v. AreReaches (plan_by self.now).raster distance left right v.items) }
    {
        let mut reaches = Vec::new(alloc);
        for i in left..right {
            let rect = self.rules.raster().box_of(Place { i, j });
            reaches.push((rect.x1() - distance, rect.x2() + distance))?;
        }
        Ok(reaches)
    }

    /// Marks the places of a part of a row whose boxes a region meets at a distance: near each of its runs in the lines around them. A
    /// region without squares costs nothing.
    fn mark_near(
        &self,
        region: &Region,
        distance: i64,
        left: i64,
        right: i64,
        j: i64,
        reaches: &[(i64, i64)],
        near: &mut [bool],
    )
        requires distance { IsSpacing distance }
        requires some { left <ℤ right }
        requires places { (i : ℤ) → is_between left right i ≡ true → in_raster (plan_by self.now).raster i j ≡ true }
        requires reaches { AreReaches (plan_by self.now).raster distance left right reaches.now }
        requires count { length near.old ≡ span_len left right }
        ensures count { length near.new ≡ span_len left right }
        ensures near { AreMet (plan_by self.now).raster distance (holds region.now) left j near.old near.new }
    {
        if region.is_empty() {
            return;
        }
        let rect = self.rules.raster().box_of(Place { i: left, j });
        mark_met(
            region,
            reaches,
            rect.y1() - distance,
            rect.y2() + distance,
            near,
        );
    }

    /// Marks the places of a part of a row that metal, existing fill or a keep-out takes.
    fn mark_taken(&self, left: i64, right: i64, j: i64, reaches: &Reaches, taken: &mut [bool])
        requires some { left <ℤ right }
        requires places { (i : ℤ) → is_between left right i ≡ true → in_raster (plan_by self.now).raster i j ≡ true }
        requires reaches { AreOfAll (plan_by self.now) left right reaches.now }
        requires count { length taken.old ≡ span_len left right }
        ensures count { length taken.new ≡ span_len left right }
        ensures taken { AreTaken (plan_by self.now) (layers_by self.now) left j taken.new }
    {
        taken.fill(false);
        let pieces = &self.pieces;
        let (metal, spacing) = (pieces.metal.region(), self.rules.spacing());
        self.mark_near(metal, spacing, left, right, j, &reaches.metal, taken);
        let (fill, spacing) = (pieces.fill.region(), self.rules.fill_spacing());
        self.mark_near(fill, spacing, left, right, j, &reaches.fill, taken);
        let keep = pieces.keep.region();
        self.mark_near(keep, 0, left, right, j, &reaches.keep, taken);
    }

    /// Marks the suitable places of a part of a row of the raster.
    fn mark_row(&self, left: i64, right: i64, j: i64, taken: &[bool], marks: &mut Marks)
        requires places { (i : ℤ) → is_between left right i ≡ true → in_raster (plan_by self.now).raster i j ≡ true }
        requires block { (i : ℤ) → is_between left right i ≡ true → in_block marks.old.block i j ≡ true }
        requires count { length taken.now ≡ span_len left right }
        requires taken { AreTaken (plan_by self.now) (layers_by self.now) left j taken.now }
        ensures block { marks.new.block ≡ marks.old.block }
        ensures marked { (k l : ℤ) → is_marked marks.new k l ≡ (is_marked marks.old k l || (int_eq l j && (is_between left right k && is_suitable (plan_by self.now) (layers_by self.now) (windows_in self.now.low) k l))) }
    {
        let mut index = 0;
        for i in left..right {
            let place = Place { i, j };
            if self.is_suitable(place, taken[index]) {
                marks.set(place);
            }
            index += 1;
        }
    }

    /// Marks the suitable places of a range of columns and a range of rows of the raster.
    fn mark_rows(
        &self,
        left: i64,
        right: i64,
        bottom: i64,
        top: i64,
        reaches: &Reaches,
        taken: &mut [bool],
        marks: &mut Marks,
    )
        requires some { left <ℤ right }
        requires places { (i j : ℤ) → (is_between left right i && is_between bottom top j) ≡ true → in_raster (plan_by self.now).raster i j ≡ true }
        requires reaches { AreOfAll (plan_by self.now) left right reaches.now }
        requires count { length taken.old ≡ span_len left right }
        requires block { (i j : ℤ) → (is_between left right i && is_between bottom top j) ≡ true → in_block marks.old.block i j ≡ true }
        requires none { (i j : ℤ) → is_marked marks.old i j ≡ false }
        ensures { (i j : ℤ) → is_marked marks.new i j ≡ (is_between bottom top j && (is_between left right i && is_suitable (plan_by self.now) (layers_by self.now) (windows_in self.now.low) i j)) }
    {
        for j in bottom..top {
            self.mark_taken(left, right, j, reaches, taken);
            self.mark_row(left, right, j, taken, marks);
        }
    }

    /// Marks the wanted places of a tile.
    ///
    /// # Errors
    /// `AllocError` where memory is refused.
    pub(crate) fn mark_tile(
        &self,
        alloc: Global,
        tile: u32,
        marks: &mut Marks,
    ) -> Result<(), AllocError>
        requires tile { tile < tiles (plan_by self.now).raster }
        requires block { (i j : ℤ) → in_block marks.old.block i j ≡ in_tile (plan_by self.now).raster tile i j }
        requires none { (i j : ℤ) → is_marked marks.old i j ≡ false }
        ensures { OnOk result ((i j : ℤ) → is_marked marks.new i j ≡ wanted (plan_by self.now) (layers_by self.now) (windows_in self.now.low) tile i j) }
    {
        let (columns, rows) = self.rules.raster().places(tile);
        let (left, right) = (columns.start, columns.end);
        let (rules, j) = (&self.rules, rows.start);
        let reaches = Reaches {
            metal: self.reaches(alloc, rules.spacing(), left, right, j)?,
            fill: self.reaches(alloc, rules.fill_spacing(), left, right, j)?,
            keep: self.reaches(alloc, 0, left, right, j)?,
        };
        let mut taken = Vec::from_elem(alloc, false, reaches.keep.len())?;
        self.mark_rows(
            left, right, rows.start, rows.end, &reaches, &mut taken, marks,
        );
        Ok(())
    }
}
