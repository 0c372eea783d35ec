//! Regions.
ghost use Rattle.std.specs.Prelude.{◌≡◌, ◌↔◌, ◌&&◌, ◌||◌, not, false, true, ℤ, ◌≤ℤ◌, ◌<ℤ◌, List, map, IsTrue, IfOk};
ghost use Rattle.std.specs.Cmp.Lexicographic.{pointwise, lists_per};
ghost use Rattle.fill_base.specs.Coordinates.{IsInRange};
ghost use Rattle.fill_base.specs.Squares.{squares};
ghost use Rattle.fill_spans.specs.Operations.{applied};
ghost use Rattle.fill_region.specs.Comparison.{same_sides, sides_per};
ghost use Rattle.fill_region.specs.Near.{AreSomeRuns};
ghost use Rattle.fill_region.specs.Squares.{covered};
ghost use Rattle.fill_region.specs.Operands.{wanted};
ghost use Rattle.fill_region.specs.Runs.{sides_of, holds, AreApart, AreInOrder, AreRuns};

use crate::changes::combined_runs;
use crate::clips::clipped_runs;
use crate::cuts::{runs_alone, runs_together};
use crate::level::{level_with, tallest};
use crate::operands::Operands;
use crate::order::in_order;
use crate::parts::is_covered;
use fill_base::Rect;
use fill_spans::Operation;
use std::alloc::{AllocError, Global};
use std::marker::Model;
use std::thread::Threads;

/// A set of unit squares, in database units: its runs, from the lowest row upwards and in a row from left to right.
#[derive(Drop)]
pub struct Region {
    runs: Vec<Rect>,
    /// No run is taller, in rows of squares.
    height: i64,
}

impl Model for Region {
    ghost use Rattle.std.specs.Prelude.{List, map};
    ghost use Rattle.fill_region.specs.Near.{IsTallest};
    ghost use Rattle.fill_region.specs.Runs.{Sides, sides_of, AreRuns};

    ghost Value = { List Sides };

    ghost view = { λ r. map sides_of r.runs.items };

    ghost invariant = { λ r. AreRuns (map sides_of r.runs.items) × IsTallest r.runs.items r.height };
}

impl PartialEq for Region {
    ghost eq = { pointwise same_sides };

    ghost laws = { lists_per sides_per };

    /// Whether both regions have the same squares.
    fn eq(&self, other: &Region) -> bool
        ensures eq { result ≡ pointwise same_sides self.now other.now }
        ensures same { IsTrue result ↔ ((x y : ℤ) → holds self.now x y ≡ holds other.now x y) }
    {
        self.runs == other.runs
    }
}

impl Region {
    /// The region without squares.
    pub fn empty(alloc: Global) -> Region
        ensures squares { (x y : ℤ) → holds result x y ≡ false }
    {
        Region {
            runs: Vec::new(alloc),
            height: 0,
        }
    }

    /// The region of these runs.
    fn of(runs: Vec<Rect>) -> Region
        requires { AreRuns (map sides_of runs.items) }
        ensures { result ≡ map sides_of runs.items }
    {
        let height = tallest(&runs);
        Region { runs, height }
    }

    /// The squares that the operation keeps.
    fn kept(alloc: Global, operands: Operands) -> Result<Region, AllocError>
        ensures squares { IfOk result (λ r. (x y : ℤ) → holds r x y ≡ wanted operands x y) }
    {
        let unordered = runs_alone(alloc, operands)?;
        let runs = in_order(alloc, unordered)?;
        Ok(Region::of(runs))
    }

    /// The squares of one rectangle.
    ///
    /// # Errors
    /// `AllocError` where there is no memory for the run.
    pub fn one(alloc: Global, rect: &Rect) -> Result<Region, AllocError>
        ensures squares { IfOk result (λ r. (x y : ℤ) → holds r x y ≡ squares rect.now x y) }
    {
        Region::from_rects(alloc, &[*rect])
    }

    /// The squares that some rectangle holds, on the calling thread alone.
    ///
    /// # Errors
    /// `AllocError` where there is no memory for the runs.
    pub fn from_rects(alloc: Global, rects: &[Rect]) -> Result<Region, AllocError>
        ensures squares { IfOk result (λ r. (x y : ℤ) → holds r x y ≡ covered rects.now x y) }
    {
        Region::kept(alloc, Operands::of_rects(alloc, rects)?)
    }

    /// The squares of some runs of a set within the frame. It costs a look at each run, and a sweep of those alone that reach the
    /// frame's left or right side.
    ///
    /// # Errors
    /// `AllocError` where there is no memory for the runs.
    pub fn of_runs(alloc: Global, runs: &[Rect], frame: &Rect) -> Result<Region, AllocError>
        requires { AreSomeRuns runs.now }
        ensures squares { IfOk result (λ r. (x y : ℤ) → holds r x y ≡ (covered runs.now x y && squares frame.now x y)) }
    {
        let clipped = clipped_runs(alloc, runs, frame)?;
        let runs = in_order(alloc, clipped)?;
        Ok(Region::of(runs))
    }

    /// The squares that the operation keeps of this region and the other.
    fn combined(
        &self,
        alloc: Global,
        operation: Operation,
        other: &Region,
    ) -> Result<Region, AllocError>
        ensures squares { IfOk result (λ r. (x y : ℤ) → holds r x y ≡ applied operation (holds self.now x y) (holds other.now x y)) }
    {
        let unordered = combined_runs(alloc, operation, &self.runs, &other.runs)?;
        let runs = in_order(alloc, unordered)?;
        Ok(Region::of(runs))
    }

    /// The squares in either region.
    ///
    /// # Errors
    /// `AllocError` where there is no memory for the runs.
    pub fn union(&self, alloc: Global, other: &Region) -> Result<Region, AllocError>
        ensures squares { IfOk result (λ r. (x y : ℤ) → holds r x y ≡ holds self.now x y || holds other.now x y) }
    {
        self.combined(alloc, Operation::Union, other)
    }

    /// The squares in this region and not in the other.
    ///
    /// # Errors
    /// `AllocError` where there is no memory for the runs.
    pub fn minus(&self, alloc: Global, other: &Region) -> Result<Region, AllocError>
        ensures squares { IfOk result (λ r. (x y : ℤ) → holds r x y ≡ holds self.now x y && not (holds other.now x y)) }
    {
        self.combined(alloc, Operation::Minus, other)
    }

    /// The squares in both regions.
    ///
    /// # Errors
    /// `AllocError` where there is no memory for the runs.
    pub fn meet(&self, alloc: Global, other: &Region) -> Result<Region, AllocError>
        ensures squares { IfOk result (λ r. (x y : ℤ) → holds r x y ≡ holds self.now x y && holds other.now x y) }
    {
        self.combined(alloc, Operation::Meet, other)
    }

    /// The squares of the region, and those of a rectangle.
    ///
    /// # Errors
    /// `AllocError` where there is no memory for the runs.
    pub fn with_rect(&self, alloc: Global, rect: &Rect) -> Result<Region, AllocError>
        ensures squares { IfOk result (λ r. (x y : ℤ) → holds r x y ≡ holds self.now x y || squares rect.now x y) }
    {
        self.union(alloc, &Region::one(alloc, rect)?)
    }

    /// The squares of the region that aren't those of a rectangle.
    ///
    /// # Errors
    /// `AllocError` where there is no memory for the runs.
    pub fn without_rect(&self, alloc: Global, rect: &Rect) -> Result<Region, AllocError>
        ensures squares { IfOk result (λ r. (x y : ℤ) → holds r x y ≡ holds self.now x y && not (squares rect.now x y)) }
    {
        self.minus(alloc, &Region::one(alloc, rect)?)
    }

    /// The squares of the region within the rectangle.
    ///
    /// # Errors
    /// `AllocError` where there is no memory for the runs.
    pub fn clip(&self, alloc: Global, rect: &Rect) -> Result<Region, AllocError>
        ensures squares { IfOk result (λ r. (x y : ℤ) → holds r x y ≡ holds self.now x y && squares rect.now x y) }
    {
        Region::of_runs(alloc, self.runs_level(rect.y1(), rect.y2()), rect)
    }

    /// The same region once more.
    ///
    /// # Errors
    /// `AllocError` where memory is refused.
    pub fn copy(&self, alloc: Global) -> Result<Region, AllocError>
        ensures { IfOk result (λ r. r ≡ self.now) }
    {
        let runs = Vec::from_slice(alloc, &self.runs)?;
        Ok(Region {
            runs,
            height: self.height,
        })
    }

    /// The runs as a list of its own.
    ///
    /// # Errors
    /// `AllocError` where memory is refused.
    pub fn pieces(&self, alloc: Global) -> Result<Vec<Rect>, AllocError>
        ensures listed { IfOk result (λ v. map sides_of v.items ≡ self.now) }
        ensures cover { IfOk result (λ v. (x y : ℤ) → covered v.items x y ≡ holds self.now x y) }
        ensures ordered { IfOk result (λ v. AreInOrder (map sides_of v.items)) }
    {
        Vec::from_slice(alloc, self.runs())
    }

    /// Whether the region has no square.
    pub fn is_empty(&self) -> bool
        ensures { IsTrue result ↔ ((x y : ℤ) → holds self.now x y ≡ false) }
    {
        self.runs.is_empty()
    }

    /// Whether the square with its lower left corner at `(x, y)` is in the region.
    pub fn has(&self, x: i64, y: i64) -> bool
        ensures { result ≡ holds self.now x y }
    {
        is_covered(&self.runs, x, y)
    }

    /// The runs, from the lowest row upwards and in a row from left to right. No two share a square.
    pub fn runs(&self) -> &[Rect]
        ensures listed { map sides_of result.now ≡ self.now }
        ensures cover { (x y : ℤ) → covered result.now x y ≡ holds self.now x y }
        ensures canonical { AreRuns self.now }
        ensures apart { AreApart self.now }
        ensures some { AreSomeRuns result.now }
        ensures in_range { (x y : ℤ) → holds self.now x y ≡ true → IsInRange x y }
    {
        &self.runs
    }

    /// Runs that hold all squares of the region in the rows from `bottom` on and below `top`, and none beside it, found by a search.
    /// Some that end below these rows may be among them; no two share a square.
    pub fn runs_level(&self, bottom: i64, top: i64) -> &[Rect]
        ensures cover { (x y : ℤ) → bottom ≤ℤ y → y <ℤ top → covered result.now x y ≡ holds self.now x y }
        ensures inside { (x y : ℤ) → covered result.now x y ≡ true → holds self.now x y ≡ true }
        ensures apart { AreApart (map sides_of result.now) }
        ensures some { AreSomeRuns result.now }
        ensures in_range { (x y : ℤ) → holds self.now x y ≡ true → IsInRange x y }
    {
        level_with(&self.runs, self.height, bottom, top)
    }
}

/// The squares that some rectangle holds, on all threads that there are.
///
/// # Errors
/// `AllocError` where there is no memory for the runs.
pub fn region_of_rects<R: Threads + Sync>(
    rt: &R,
    alloc: Global,
    rects: &[Rect],
) -> Result<Region, AllocError>
    ensures squares { IfOk result (λ r. (x y : ℤ) → holds r x y ≡ covered rects.now x y) }
{
    let operands = Operands::of_rects(alloc, rects)?;
    let unordered = runs_together(rt, alloc, operands)?;
    let runs = in_order(alloc, unordered)?;
    Ok(Region::of(runs))
}
