//! Two lists of rectangles, and the operation on their squares.
ghost use Rattle.std.specs.Prelude.{◌≡◌, true, ℤ, IfOk};
ghost use Rattle.fill_bands.specs.Bands.{holds};
ghost use Rattle.fill_region.specs.Operands.{wanted};
ghost use Rattle.fill_region.specs.Squares.{covered};
ghost use Rattle.fill_region.specs.Steps.{before, behind};

use crate::lines::{Line, first_half, second_half};
use fill_bands::Bands;
use fill_base::Rect;
use fill_spans::Operation;
use std::alloc::{AllocError, Global};

/// Two lists of rectangles, and the operation on their squares that is asked for.
#[derive(Drop)]
pub(crate) struct Operands {
    pub(crate) operation: Operation,
    pub(crate) first: Vec<Rect>,
    pub(crate) second: Vec<Rect>,
}

impl Operands {
    /// The squares that some rectangle holds.
    pub(crate) fn of_rects(alloc: Global, rects: &[Rect]) -> Result<Operands, AllocError>
        ensures { IfOk result (λ o. (x y : ℤ) → wanted o x y ≡ covered rects.now x y) }
    {
        Ok(Operands {
            operation: Operation::Union,
            first: Vec::from_slice(alloc, rects)?,
            second: Vec::new(alloc),
        })
    }

    /// The squares that some rectangle of the list holds, which isn't copied.
    pub(crate) fn of_list(alloc: Global, rects: Vec<Rect>) -> Operands
        ensures { (x y : ℤ) → wanted result x y ≡ covered rects.items x y }
    {
        Operands {
            operation: Operation::Union,
            first: rects,
            second: Vec::new(alloc),
        }
    }

    /// How many rectangles there are.
    pub(crate) fn len(&self) -> usize {
        self.first.len().saturating_add(self.second.len())
    }

    /// What of both lies before the line.
    pub(crate) fn before(&self, alloc: Global, line: Line) -> Result<Operands, AllocError>
        ensures { IfOk result (λ h. (x y : ℤ) → wanted h x y ≡ before line (wanted self.now) x y) }
    {
        Ok(Operands {
            operation: self.operation,
            first: first_half(alloc, &self.first, line)?,
            second: first_half(alloc, &self.second, line)?,
        })
    }

    /// What of both lies behind the line.
    pub(crate) fn behind(&self, alloc: Global, line: Line) -> Result<Operands, AllocError>
        ensures { IfOk result (λ h. (x y : ℤ) → wanted h x y ≡ behind line (wanted self.now) x y) }
    {
        Ok(Operands {
            operation: self.operation,
            first: second_half(alloc, &self.first, line)?,
            second: second_half(alloc, &self.second, line)?,
        })
    }

    /// Whether the operation keeps the squares of the first list, as the second is empty.
    pub(crate) fn keeps_first(&self) -> bool
        ensures { result ≡ true → (x y : ℤ) → wanted self.now x y ≡ covered self.now.first.items x y }
    {
        match self.operation {
            Operation::Union | Operation::Minus => self.second.is_empty(),
            Operation::Meet => false,
        }
    }

    /// The squares that the operation keeps, as bands.
    pub(crate) fn bands(&self, alloc: Global) -> Result<Bands, AllocError>
        ensures { IfOk result (λ r. (x y : ℤ) → holds r x y ≡ wanted self.now x y) }
    {
        let first = Bands::from_rects(alloc, &self.first)?;
        if self.keeps_first() {
            return Ok(first);
        }
        let second = Bands::from_rects(alloc, &self.second)?;
        match self.operation {
            Operation::Union => first.union(alloc, &second),
            Operation::Minus => first.minus(alloc, &second),
            Operation::Meet => first.meet(alloc, &second),
        }
    }
}
