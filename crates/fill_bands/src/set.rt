//! Sets of unit squares as bands.
ghost use Rattle.std.specs.Prelude.{◌≡◌, ◌&&◌, ◌||◌, not, List, ℤ, IfOk};
ghost use Rattle.fill_spans.specs.Operations.{applied};
ghost use Rattle.fill_bands.specs.Bands.{holds, IsBanded};
ghost use Rattle.fill_bands.specs.Squares.{covered};

use crate::bands::merged;
use crate::lines::bands_of;
use crate::shared::SharedRow;
use fill_base::Rect;
use fill_spans::Operation;
use std::alloc::{AllocError, Global};
use std::marker::Model;

/// A set of unit squares, in database units: bands from the lowest to the highest, each with its
/// bottom and its row of intervals.
#[derive(Drop)]
pub struct Bands {
    bands: Vec<(i32, SharedRow)>,
}

impl Model for Bands {
    ghost Value = { List (ℤ × List ℤ) };

    ghost view = { λ r. r.bands.items };

    ghost invariant = { λ r. IsBanded r.bands.items };
}

impl Bands {
    /// The squares that some rectangle holds, by one sweep upwards: a sort, and at each line at which a
    /// rectangle begins or ends a walk over those that cross it. A pile of rectangles that lie all over one
    /// another is swept in halves, which are united.
    ///
    /// # Errors
    /// `AllocError` where there is no memory for the bands.
    pub fn from_rects(alloc: Global, rects: &[Rect]) -> Result<Bands, AllocError>
        ensures squares { IfOk result (λ r. (x y : ℤ) → holds r x y ≡ covered rects.now x y) }
    {
        let bands = bands_of(alloc, rects)?;
        Ok(Bands { bands })
    }

    /// The squares that `operation` keeps, in one sweep over both.
    fn combined(
        &self,
        alloc: Global,
        operation: Operation,
        other: &Bands,
    ) -> Result<Bands, AllocError>
        ensures squares { IfOk result (λ r. (x y : ℤ) → holds r x y ≡ applied operation (holds self.now x y) (holds other.now x y)) }
    {
        let bands = merged(alloc, operation, &self.bands, &other.bands)?;
        Ok(Bands { bands })
    }

    /// The squares in either set.
    pub fn union(&self, alloc: Global, other: &Bands) -> Result<Bands, AllocError>
        ensures squares { IfOk result (λ r. (x y : ℤ) → holds r x y ≡ holds self.now x y || holds other.now x y) }
    {
        self.combined(alloc, Operation::Union, other)
    }

    /// The squares in this set and not in the other.
    pub fn minus(&self, alloc: Global, other: &Bands) -> Result<Bands, AllocError>
        ensures squares { IfOk result (λ r. (x y : ℤ) → holds r x y ≡ holds self.now x y && not (holds other.now x y)) }
    {
        self.combined(alloc, Operation::Minus, other)
    }

    /// The squares in both sets.
    pub fn meet(&self, alloc: Global, other: &Bands) -> Result<Bands, AllocError>
        ensures squares { IfOk result (λ r. (x y : ℤ) → holds r x y ≡ holds self.now x y && holds other.now x y) }
    {
        self.combined(alloc, Operation::Meet, other)
    }

    /// The bands from the lowest to the highest, each with its bottom and its row.
    pub(crate) fn bands(&self) -> &[(i32, SharedRow)]
        ensures bands { result.now ≡ self.now }
        ensures banded { IsBanded result.now }
    {
        &self.bands
    }
}
