//! What a book was opened with.
ghost use Rattle.std.specs.Prelude.{◌≡◌, ◌||◌, ℤ, IfOk};
ghost use Rattle.fill_region.specs.Runs.{holds};
ghost use Rattle.fill_text.specs.ValuesOfRules.{values_of};

use fill_core::Opened;
use fill_job::{Piece, Pieces, SharedRules};
use fill_region::Region;
use fill_text::Rules;
use std::alloc::{AllocError, Global};
use std::marker::PhantomData;

/// The design that a book opens on.
#[derive(Drop)]
pub struct Opening {
    /// The squares of drawn metal.
    pub metal: Region,
    /// Those of existing fill, which the design itself brings. They count as metal does, and boxes keep the fill spacing to them.
    pub fill: Region,
    /// Those of keep-outs.
    pub keep: Region,
}

/// The rules, the metal, the existing fill and the keep-outs that a book was opened with, and how many events its history may have. They
/// are the terms of its ledger of calls.
#[derive(Drop)]
pub struct Origin<C: Opened> {
    pub(crate) rules: SharedRules,
    pub(crate) opening: Piece,
    pub(crate) existing: Piece,
    pub(crate) keep: Piece,
    pub(crate) most: u64,
    of: PhantomData<C>,
    pub ghost under: { record { rules = rules; opening = opening; existing = existing; keep = keep; most = most } ≡ C.terms },
}

impl<C: Opened> Origin<C> {
    /// The origin of a book with these rules and this design, which it holds with others.
    ///
    /// # Errors
    /// `AllocError` where memory is refused.
    pub(crate) fn new(
        alloc: Global,
        rules: Rules,
        design: &Pieces,
        most: u64,
    ) -> Result<Origin<C>, AllocError>
        requires { record { rules = values_of rules; opening = design.now.metal; existing = design.now.fill; keep = design.now.keep; most = most } ≡ C.terms }
        ensures rules { IfOk result (λ o. o.rules ≡ values_of rules) }
        ensures opening { IfOk result (λ o. o.opening ≡ design.now.metal) }
        ensures existing { IfOk result (λ o. o.existing ≡ design.now.fill) }
        ensures keep { IfOk result (λ o. o.keep ≡ design.now.keep) }
        ensures most { IfOk result (λ o. o.most ≡ most) }
    {
        let rules = SharedRules::new(alloc, rules)?;
        let opening = design.metal.share()?;
        let existing = design.fill.share()?;
        let keep = design.keep.share()?;
        Ok(Origin {
            rules,
            opening,
            existing,
            keep,
            most,
            of: PhantomData,
        })
    }

    /// What counts of the design: the metal's own piece once more where there is no existing fill, which takes no memory.
    ///
    /// # Errors
    /// `AllocError` where memory is refused.
    pub(crate) fn drawn(&self, alloc: Global) -> Result<Piece, AllocError>
        ensures { IfOk result (λ p. (x y : ℤ) → holds p x y ≡ holds self.now.opening x y || holds self.now.existing x y) }
    {
        let (metal, existing) = (self.opening.region(), self.existing.region());
        if existing.is_empty() {
            return self.opening.share();
        }
        Piece::new(alloc, metal.union(alloc, existing)?)
    }
}
