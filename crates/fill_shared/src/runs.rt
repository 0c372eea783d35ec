//! Runs: workers fill a book while an editor makes the edits, and what comes of it is compared with what was handed in.
ghost use Rattle.std.specs.Prelude.{◌≡◌, ◌↔◌, ◌⊎◌, ◌+◌, ◌*◌, ◌<◌, ◌≤◌, [], Err, IfNone, IfOk, IfSome, IsTrue, length, map, slice_index_or, take};
ghost use Rattle.fill_text.specs.Script.{change_of};
ghost use Rattle.fill_core.specs.Accounts.{IsKeeping, state_of, terms_of};
ghost use Rattle.fill_core.specs.Histories.{entries_of};
ghost use Rattle.fill_core.specs.Shares.{AllParts};
ghost use Rattle.fill_shared.specs.Passes.{HasCounted};
ghost use Rattle.fill_shared.specs.Rounds.{HasRun};
ghost use Rattle.fill_shared.specs.Runs.{IsFinished, IsMixed, IsNoBeginning, IsUnedited, IsUnfinished, changes_in};
ghost use Rattle.fill_shared.specs.declared.runs.RunError.TheVariants as error;

use crate::gate::Gate;
use crate::round::{RoundLost, rounds};
use crate::shared::PassOf;
use fill_core::{Edit, Event, FillBook, History};
use std::alloc::{AllocError, Global};
use std::sync::Wait;
use std::thread::Threads;

/// Why a run did not finish.
#[derive(Drop)]
pub enum RunError<B: FillBook> {
    /// Memory was refused, to a worker, the editor or the run itself. The book is dropped.
    Memory,
    /// The edits in the book's history do not begin those handed in.
    Mixed {
        /// The book.
        book: B,
        /// Its pass.
        pass: PassOf<B>,
    },
    /// Not all edits were made, as the history was full, or a tile is left that isn't in.
    Unfinished {
        /// The book.
        book: B,
        /// Its pass.
        pass: PassOf<B>,
    },
}

impl<B: FillBook> From<AllocError> for RunError<B> {
    ghost from_gives = { λ _ e. e ≡ error.Memory };

    fn from(_error: AllocError) -> RunError<B> {
        RunError::Memory
    }
}

impl<B: FillBook> From<RoundLost> for RunError<B> {
    ghost from_gives = { λ _ e. e ≡ error.Memory };

    fn from(_error: RoundLost) -> RunError<B> {
        RunError::Memory
    }
}

/// Whether two edits are of one kind and of one rectangle.
fn are_same(a: Edit, b: Edit) -> bool
    ensures { IsTrue result ↔ (change_of a ≡ change_of b) }
{
    match (a, b) {
        (Edit::Add(r), Edit::Add(s)) => r == s,
        (Edit::Cut(r), Edit::Cut(s)) => r == s,
        (Edit::Keep(r), Edit::Keep(s)) => r == s,
        _ => false,
    }
}

/// Whether the edit at `k` is this one.
fn is_edit_at(edits: &[Edit], k: usize, edit: Edit) -> bool
    ensures { IsTrue result ↔ ((k < length edits.now) × (change_of edit ≡ change_of (slice_index_or edits.now k edit))) }
{
    k < edits.len() && are_same(edit, edits[k])
}

/// How many of the edits a history has, where its edits are the first of them, in their order.
fn edits_made(history: &History, edits: &[Edit]) -> Option<usize>
    ensures most { IfSome result (λ made. made ≤ length edits.now) }
    ensures made { IfSome result (λ made. changes_in (entries_of history.now) ≡ map change_of (take made edits.now)) }
    ensures none { IfNone result (IsNoBeginning (entries_of history.now) edits.now) }
{
    let mut made = 0;
    for entry in history.entries() {
        match entry.event {
            Event::Commit { .. } => {}
            Event::Edit(edit) => {
                if !is_edit_at(edits, made, edit) {
                    return None;
                }
                made += 1;
            }
        }
    }
    Some(made)
}

/// Compares a book's edits with those handed in.
fn settle<B: FillBook>(
    book: B,
    pass: PassOf<B>,
    edits: &[Edit],
) -> Result<(B, PassOf<B>), RunError<B>>
    requires keeping { IsKeeping (B.account book) }
    requires terms { terms_of (B.account book) ≡ B.Calls.terms }
    requires counted { HasCounted (B.account book) pass }
    ensures same { IfOk result (λ r. (r.0 ≡ book) × (r.1 ≡ pass)) }
    ensures back { (b : _) (p : _) → (result ≡ Err (error.Unfinished b p)) ⊎ (result ≡ Err (error.Mixed b p)) → (b ≡ book) × (p ≡ pass) }
    ensures finished { IfOk result (λ r. IsFinished B.Calls.terms edits.now (B.account r.0) r.1) }
    ensures unfinished { (b : _) (p : _) → result ≡ Err (error.Unfinished b p) → IsUnfinished B.Calls.terms edits.now (B.account b) p }
    ensures mixed { (b : _) (p : _) → result ≡ Err (error.Mixed b p) → IsMixed B.Calls.terms edits.now (B.account b) p }
{
    let Some(made) = edits_made(book.history(), edits) else {
        return Err(RunError::Mixed { book, pass });
    };
    if made < edits.len() || !book.is_complete() {
        return Err(RunError::Unfinished { book, pass });
    }
    Ok((book, pass))
}

/// Fills a book: so many workers bring tile after tile, each in a thread of its own and in at most `limit` turns, while one editor
/// makes the edits in their order. Where the version isn't complete after that, the workers have as many turns once more, without
/// the editor. Worker `k` of `n` starts at the tile `k * tiles / n`. What comes back was opened as the book handed in, and its
/// edits are those handed in. Without edits its fill is one function of the design and the rules, whatever the number of workers.
///
/// # Errors
/// `Memory` where memory is refused, to whichever worker, the editor or the run itself; `Mixed` where the book's edits do not begin
/// those handed in; `Unfinished` where not all edits were made or a tile is left that isn't in.
pub fn run<B: FillBook + Send, G: Gate + Sync, R: Threads + Wait + Sync>(
    rt: &R,
    alloc: Global,
    mut book: B,
    mut pass: PassOf<B>,
    edits: &[Edit],
    workers: u32,
    gate: &G,
    limit: u64,
) -> Result<(B, PassOf<B>), RunError<B>>
    requires ledgers { AllParts B.Calls.parts B.Placed.parts B.Withdrawn.parts }
    requires pass { pass.parts ≡ 1024 }
    requires workers { (0 < workers) × (workers ≤ 64) }
    ensures finished { IfOk result (λ r. IsFinished (terms_of (B.account book)) edits.now (B.account r.0) r.1) }
    ensures ended { IfOk result (λ r. HasRun (terms_of (B.account book)) edits.now workers limit pass (B.account r.0) r.1) }
    ensures unedited { edits.now ≡ [] → IfOk result (λ r. IsUnedited (terms_of (B.account book)) (state_of (B.account r.0))) }
    ensures brief { IfOk result (λ r. r.1.calls ≤ pass.calls + (length edits.now + 2 * (workers * limit))) }
    ensures unfinished { (b : _) (p : _) → result ≡ Err (error.Unfinished b p) → IsUnfinished (terms_of (B.account book)) edits.now (B.account b) p × HasRun (terms_of (B.account book)) edits.now workers limit pass (B.account b) p }
    ensures mixed { (b : _) (p : _) → result ≡ Err (error.Mixed b p) → IsMixed (terms_of (B.account book)) edits.now (B.account b) p × HasRun (terms_of (B.account book)) edits.now workers limit pass (B.account b) p }
{
    book.audit(&mut pass);
    let (book, pass) = rounds(rt, alloc, book, pass, edits, workers, gate, limit)?;
    settle(book, pass, edits)
}
