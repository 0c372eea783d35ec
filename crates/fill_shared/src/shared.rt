//! The shared book: one lock, and calls that each hold it once.
ghost use Rattle.std.specs.Prelude.{◌≡◌, ◌↔◌, ◌<◌, ◌≤◌, ◌-◌, ◌∷◌, Err, IfErr, IfOk, IfSome, IsErr, OnErr, length};
ghost use Rattle.fill_job.specs.Basis.{read_by};
ghost use Rattle.fill_core.specs.Accounts.{Account, IsCommitted, IsEdited, IsKeeping, terms_of};
ghost use Rattle.fill_core.specs.Shares.{AllParts, IsWhole, totals_of};
ghost use Rattle.fill_shared.specs.Passes.{HasCounted, calls_of, parts_of, split_among, together};
ghost use Rattle.fill_shared.specs.Sharing.{AtSomePoint, IsFull, IsLook, IsSeen};

use fill_core::{BookError, Edit, FillBook, Pass, Reply};
use fill_job::{Job, Proposal};
use std::alloc::{AllocError, Global};
use std::sync::{Mutex, Wait};

/// A pass of a book of this type.
pub type PassOf<B> = Pass<
    <B as FillBook>::Calls,
    <B as FillBook>::Placed,
    <B as FillBook>::Withdrawn,
>;

/// The book of a fill, shared by callers in many threads. Each call holds the one lock once, so what it answers was so at one
/// point of a history of a book that was opened as this one: at least as many events had happened by then as the caller's pass has
/// calls. Which history that is no clause can say of a value under a lock; what the callers counted is compared in `close`.
#[derive(Drop)]
pub struct Shared<B: FillBook> {
    book: Mutex<B>,
}

/// What there is to do.
#[derive(Drop)]
pub enum Look {
    /// The work on the next tile that isn't in.
    Work(Job),
    /// Every tile is in at this version.
    Complete {
        /// The version.
        version: u64,
    },
}

/// The total of a window at some point of a book's history.
#[derive(Clone, Copy, Debug, PartialEq, Eq)]
pub struct Seen {
    /// The version.
    pub version: u64,
    /// How many events had happened.
    pub events: u64,
    /// The area of metal, existing fill and boxes together in the window, in unit squares.
    pub total: i64,
}

/// Memory was refused: the book and its pass, as they were.
#[derive(Drop)]
pub struct NotOpened<B: FillBook> {
    /// The book.
    pub book: B,
    /// Its pass.
    pub pass: PassOf<B>,
}

/// The passes that were handed in do not hold all parts: the shared book and these passes, as they were.
#[derive(Drop)]
pub struct PassMissing<B: FillBook> {
    /// The shared book.
    pub shared: Shared<B>,
    /// The passes.
    pub passes: Vec<PassOf<B>>,
}

/// How many of the 1,024 parts these passes lack.
fn missing_parts<B: FillBook>(passes: &[PassOf<B>]) -> u64
    ensures { result ≡ 1024 - parts_of passes.now }
{
    let mut missing = 1024u64;
    for pass in passes {
        missing = missing.saturating_sub(pass.parts());
    }
    missing
}

/// Takes passes of one book together, and tells what the book keeps.
fn join_all<B: FillBook>(book: &mut B, mut pass: PassOf<B>, mut others: Vec<PassOf<B>>) -> PassOf<B>
    requires { AllParts B.Calls.parts B.Placed.parts B.Withdrawn.parts }
    ensures same { B.account book.new ≡ B.account book.old }
    ensures sums { result ≡ together (pass ∷ others.items) }
    ensures keeping { IsKeeping (B.account book.old) }
    ensures terms { terms_of (B.account book.old) ≡ B.Calls.terms }
    ensures most { result.parts ≤ 1024 }
    ensures whole { result.parts ≡ 1024 → IsWhole result (totals_of (B.account book.old).history) }
{
    while let Some(mut other) = others.pop() {
        book.audit(&mut pass);
        book.audit(&mut other);
        pass.join(other);
    }
    book.audit(&mut pass);
    pass
}

impl<B: FillBook> Shared<B> {
    /// Shares a book among so many callers. Each gets a pass with a part or more; the first keeps what was counted, and the
    /// others begin at 0.
    ///
    /// # Errors
    /// The book and the pass where memory is refused.
    pub fn open(
        alloc: Global,
        book: B,
        mut pass: PassOf<B>,
        callers: u32,
    ) -> Result<(Shared<B>, Vec<PassOf<B>>), NotOpened<B>>
        requires all { pass.parts ≡ 1024 }
        requires callers { (0 < callers) × (callers ≤ 1024) }
        ensures split { IfOk result (λ r. r.1.items ≡ split_among pass callers) }
        ensures count { IfOk result (λ r. length r.1.items ≡ callers) }
        ensures parts { IfOk result (λ r. parts_of r.1.items ≡ 1024) }
        ensures calls { IfOk result (λ r. calls_of r.1.items ≡ pass.calls) }
        ensures err { IfErr result (λ e. (e.book ≡ book) × (e.pass ≡ pass)) }
    {
        let Ok(mut passes) = Vec::with_capacity(alloc, callers as usize) else {
            return Err(NotOpened { book, pass });
        };
        for _ in 1..callers {
            passes.push_reserved(pass.split_off(1));
        }
        let Ok(()) = passes.insert(0, pass) else {
            unreachable!();
        };
        let book = Mutex::new(book);
        Ok((Shared { book }, passes))
    }

    /// What there is to do next: the work on the first tile at or after `from` that isn't in, else on the first such tile of
    /// all; where there is none, the version is complete.
    ///
    /// # Errors
    /// `AllocError` where memory is refused.
    pub fn look<R: Wait>(
        &self,
        rt: &R,
        alloc: Global,
        pass: &mut PassOf<B>,
        from: u32,
    ) -> Result<Look, AllocError>
        requires { AllParts B.Calls.parts B.Placed.parts B.Withdrawn.parts }
        ensures same { pass.new ≡ pass.old }
        ensures seen { IfOk result (λ look. AtSomePoint B.Calls.terms pass.old.calls (λ a. IsLook a from look)) }
    {
        let mut guard = self.book.lock(rt);
        let book = &mut *guard;
        book.audit(pass);
        match book.next(from) {
            Some(tile) => Ok(Look::Work(book.job(alloc, tile)?)),
            None => Ok(Look::Complete {
                version: book.version(),
            }),
        }
    }

    /// Brings the marked places of a tile, as `FillBook::commit`.
    ///
    /// # Errors
    /// `HistoryFull` where the history is full, else `Memory` where memory is refused; the pass is then as before.
    pub fn commit<R: Wait>(
        &self,
        rt: &R,
        alloc: Global,
        pass: &mut PassOf<B>,
        proposal: &Proposal,
    ) -> Result<Reply, BookError>
        requires { AllParts B.Calls.parts B.Placed.parts B.Withdrawn.parts }
        ensures written { let p = proposal.now in IfOk result (λ reply. AtSomePoint B.Calls.terms pass.old.calls (λ a. (b : Account) × IsCommitted a b pass.old pass.new p.version p.tile (read_by p.basis) reply)) }
        ensures full { result ≡ Err BookError.HistoryFull → AtSomePoint B.Calls.terms pass.old.calls IsFull }
        ensures err { OnErr result (pass.new ≡ pass.old) }
    {
        let mut guard = self.book.lock(rt);
        let book = &mut *guard;
        book.audit(pass);
        book.commit(alloc, pass, proposal)
    }

    /// Edits the metal or the keep-outs, as `FillBook::edit`.
    ///
    /// # Errors
    /// `HistoryFull` where the history is full, else `Memory` where memory is refused; the pass is then as before.
    pub fn edit<R: Wait>(
        &self,
        rt: &R,
        alloc: Global,
        pass: &mut PassOf<B>,
        edit: Edit,
    ) -> Result<Reply, BookError>
        requires { AllParts B.Calls.parts B.Placed.parts B.Withdrawn.parts }
        ensures written { IfOk result (λ reply. AtSomePoint B.Calls.terms pass.old.calls (λ a. (b : Account) × IsEdited a b pass.old pass.new edit reply)) }
        ensures full { result ≡ Err BookError.HistoryFull → AtSomePoint B.Calls.terms pass.old.calls IsFull }
        ensures err { OnErr result (pass.new ≡ pass.old) }
    {
        let mut guard = self.book.lock(rt);
        let book = &mut *guard;
        book.audit(pass);
        book.edit(alloc, pass, edit)
    }

    /// The total of the window of column `a` and row `b`, with the version and the number of events at which it is so; `None`
    /// where the book's rules have no such window.
    pub fn total<R: Wait>(&self, rt: &R, pass: &mut PassOf<B>, a: u32, b: u32) -> Option<Seen>
        requires { AllParts B.Calls.parts B.Placed.parts B.Withdrawn.parts }
        ensures same { pass.new ≡ pass.old }
        ensures seen { AtSomePoint B.Calls.terms pass.old.calls (λ k. IsSeen k a b result) }
        ensures counted { IfSome result (λ seen. pass.old.calls ≤ seen.events) }
    {
        let mut guard = self.book.lock(rt);
        let book = &mut *guard;
        book.audit(pass);
        let windows = book.rules().windows();
        if a < windows.columns() && b < windows.rows() {
            Some(Seen {
                version: book.version(),
                events: book.history().len(),
                total: book.total(a, b),
            })
        } else {
            None
        }
    }

    /// Takes the book back, with all its passes as one. Its calls are then the events of the history, and what it placed less
    /// what it withdrew the boxes of the fill.
    ///
    /// # Errors
    /// `PassMissing` with the shared book and the passes where these hold fewer than 1,024 parts.
    pub fn close(self, mut passes: Vec<PassOf<B>>) -> Result<(B, PassOf<B>), PassMissing<B>>
        requires { AllParts B.Calls.parts B.Placed.parts B.Withdrawn.parts }
        ensures missing { IsErr result ↔ (parts_of passes.items < 1024) }
        ensures err { IfErr result (λ e. (e.shared ≡ self) × (e.passes ≡ passes)) }
        ensures sums { IfOk result (λ r. r.1 ≡ together passes.items) }
        ensures keeping { IfOk result (λ r. IsKeeping (B.account r.0)) }
        ensures terms { IfOk result (λ r. terms_of (B.account r.0) ≡ B.Calls.terms) }
        ensures counted { IfOk result (λ r. HasCounted (B.account r.0) r.1) }
    {
        if missing_parts::<B>(&passes) > 0 {
            return Err(PassMissing {
                shared: self,
                passes,
            });
        }
        let Some(pass) = passes.pop() else {
            unreachable!();
        };
        let mut book = self.book.into_inner();
        let pass = join_all(&mut book, pass, passes);
        Ok((book, pass))
    }
}
