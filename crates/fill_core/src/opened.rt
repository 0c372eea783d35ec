//! What a book was opened with, as its type knows it.
ghost use Rattle.fill_core.specs.Terms.{Terms, no_terms};

use std::marker::Brand;
use std::sync::ledger::Ledger;

/// A ledger of the calls of one book. Its type knows what that book was opened with, which whoever opens the book picks beside
/// the ledger's name.
pub trait Opened: Ledger {
    ghost terms: { Terms };
}

impl Opened for Brand {
    ghost terms = { no_terms };
}
