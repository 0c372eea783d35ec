//! Rows that sets of bands share.
ghost use Rattle.std.specs.Prelude.{◌≡◌, ℤ, IfOk, List};
ghost use Rattle.std.specs.Ordering.{int_eq};
ghost use Rattle.std.specs.Cmp.Lexicographic.{pointwise, lists_per};
ghost use Rattle.std.specs.Cmp.{int_eq_equiv, partial_equiv_from_equiv};
ghost use Rattle.std.specs.Arc.{arc_value};

use fill_spans::Spans;
use std::alloc::{AllocError, Global};
use std::marker::Model;
use std::sync::Arc;

/// A row. Sets that have the same row in a band may hold it together.
#[derive(Drop)]
pub struct SharedRow {
    spans: Arc<Spans>,
}

impl Model for SharedRow {
    ghost Value = { List ℤ };

    ghost view = { λ r. arc_value r.spans };
}

impl PartialEq for SharedRow {
    ghost eq = { pointwise int_eq };

    ghost laws = { lists_per (partial_equiv_from_equiv int_eq_equiv) };

    /// Whether both rows have the same members.
    fn eq(&self, other: &SharedRow) -> bool
        ensures eq { result ≡ pointwise int_eq self.now other.now }
    {
        self.spans() == other.spans()
    }
}

impl SharedRow {
    /// A row, held by one set.
    ///
    /// # Errors
    /// `AllocError` where memory is refused.
    pub(crate) fn new(alloc: Global, spans: Spans) -> Result<SharedRow, AllocError>
        ensures { IfOk result (λ r. r ≡ spans) }
    {
        let spans = Arc::new(alloc, spans)?;
        Ok(SharedRow { spans })
    }

    /// The members of the row.
    pub(crate) fn spans(&self) -> &Spans
        ensures { result.now ≡ self.now }
    {
        &self.spans
    }

    /// The same row, held by one set more.
    ///
    /// # Errors
    /// `AllocError` where the count of its holders is at its end.
    pub(crate) fn share(&self) -> Result<SharedRow, AllocError>
        ensures { IfOk result (λ r. r ≡ self.now) }
    {
        let spans = Arc::try_clone(&self.spans)?;
        Ok(SharedRow { spans })
    }
}
