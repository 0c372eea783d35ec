//! What many workers do with a book beside the editor of a script.
ghost use Rattle.std.specs.Prelude.{◌≡◌, ◌+◌, ◌*◌, ◌<◌, ◌≤◌, length, IfOk};
ghost use Rattle.fill_core.specs.Accounts.{Account, terms_of};
ghost use Rattle.fill_core.specs.Shares.{AllParts, Held};
ghost use Rattle.fill_shared.specs.Rounds.{HasRun};
ghost use Rattle.fill_shared.specs.Runs.{IsFinished, IsMixed, IsUnfinished};
ghost use Rattle.densfill_engine.specs.Runs as spec;

use crate::crew::Crew;
use crate::refusal::RunFault;
use crate::turns::most_turns;
use fill_core::FillBook;
use fill_shared::{OpenGate, PassOf, RunError, run};
use fill_text::Edit;
use std::alloc::Global;
use std::sync::Wait;
use std::thread::Threads;

/// Fills a book by so many workers, each in a thread of its own, while the edits are made in one more. Where tiles are left after
/// that, the workers begin once more, without edits.
///
/// # Errors
/// `Unfinished` where an edit could not be made or a tile is left after that, `Mixed` where the edits of the book that comes back do
/// not begin those handed in, `Memory` where memory is refused.
pub fn fill_together<B: FillBook + Send, R: Threads + Wait + Sync>(
    rt: &R,
    alloc: Global,
    book: B,
    pass: PassOf<B>,
    edits: &[Edit],
    crew: Crew,
) -> Result<B, RunFault>
    requires ledgers { AllParts B.Calls.parts B.Placed.parts B.Withdrawn.parts }
    requires pass { pass.parts ≡ 1024 }
    requires workers { (0 < crew.workers) × (crew.workers ≤ 64) }
    ensures finished { let a = B.account book in IfOk result (λ b. (after : Held) × IsFinished (terms_of a) edits.now (B.account b) after
        × HasRun (terms_of a) edits.now crew.workers (spec.most_turns a.rules crew.limit) pass (B.account b) after
        × (after.calls ≤ pass.calls + (length edits.now + 2 * (crew.workers * spec.most_turns a.rules crew.limit)))) }
    ensures unfinished { let a = B.account book in result ≡ Err RunFault.Unfinished → (b : Account) × (after : Held) × IsUnfinished (terms_of a) edits.now b after
        × HasRun (terms_of a) edits.now crew.workers (spec.most_turns a.rules crew.limit) pass b after }
    ensures mixed { let a = B.account book in result ≡ Err RunFault.Mixed → (b : Account) × (after : Held) × IsMixed (terms_of a) edits.now b after
        × HasRun (terms_of a) edits.now crew.workers (spec.most_turns a.rules crew.limit) pass b after }
{
    let turns = most_turns(&book, crew.limit);
    match run(rt, alloc, book, pass, edits, crew.workers, &OpenGate, turns) {
        Ok((book, _)) => Ok(book),
        Err(RunError::Memory) => Err(RunFault::Memory),
        Err(RunError::Mixed { .. }) => Err(RunFault::Mixed),
        Err(RunError::Unfinished { .. }) => Err(RunFault::Unfinished),
    }
}
