//! What one worker does with a book: it brings tile after tile.
ghost use Rattle.std.specs.Prelude.{◌≡◌, ◌<◌, ◌≤◌, ◌+◌, ◌*◌, ◌^◌, ◌&&◌, ◌==◌, false, length, OnOk};
ghost use Rattle.fill_raster.specs.Lattice.{tiles};
ghost use Rattle.fill_job.specs.Plans.{plan_of};
ghost use Rattle.fill_core.specs.Accounts.{state_of};
ghost use Rattle.fill_core.specs.Machine.{IsComplete, with_tile};
ghost use Rattle.densfill_engine.specs.Runs.{IsFresh, IsRun, IsTooShort};
ghost use Rattle.densfill_engine.specs.Runs as spec;

use crate::refusal::RunFault;
use fill_core::{FillBook, Pass};
use std::alloc::Global;

/// Brings a tile that isn't in.
fn bring<B: FillBook>(
    alloc: Global,
    book: &mut B,
    pass: &mut Pass<B::Calls, B::Placed, B::Withdrawn>,
    tile: u32,
) -> Result<(), RunFault>
    requires tile { tile < tiles (plan_of (B.account book.old).rules).raster }
    requires out { (state_of (B.account book.old)).tiles_in tile ≡ false }
    ensures run { OnOk result (IsRun (B.account book.old) (B.account book.new) 1) }
    ensures brought { let a = B.account book.old in OnOk result (state_of (B.account book.new) ≡ with_tile (plan_of a.rules) (state_of a) tile) }
    ensures full { let a = B.account book.old in result ≡ Err RunFault.Unfinished → length a.history ≡ a.most }
    ensures own { result ≡ Err RunFault.Mixed → ⊥ }
{
    let job = book.job(alloc, tile)?;
    let Ok(proposal) = job.propose(alloc) else {
        return Err(RunFault::Memory);
    };
    book.commit(alloc, pass, &proposal)?;
    Ok(())
}

/// How many turns a worker has in a round: as many as the limit says, and without one a turn for each tile and one more.
pub fn most_turns<B: FillBook>(book: &B, limit: Option<u32>) -> u64
    ensures turns { result ≡ spec.most_turns (B.account book.now).rules limit }
    ensures few { result ≤ 2 ^ 32 }
{
    match limit {
        Some(turns) => u64::from(turns),
        None => u64::from(book.rules().raster().tiles()) + 1,
    }
}

/// Brings tile after tile, each the next after the one before, in the turns that one worker has in two rounds, until none is left
/// that isn't in.
///
/// # Errors
/// `Unfinished` where a tile is left after that, or the history is full; `Memory` where memory is refused.
pub fn fill_tiles<B: FillBook>(
    alloc: Global,
    book: &mut B,
    pass: &mut Pass<B::Calls, B::Placed, B::Withdrawn>,
    limit: Option<u32>,
) -> Result<(), RunFault>
    requires fresh { IsFresh (state_of (B.account book.old)) }
    ensures run { let a = B.account book.old in OnOk result (IsRun a (B.account book.new) (2 * spec.most_turns a.rules limit)) }
    ensures complete { OnOk result (IsComplete (plan_of (B.account book.new).rules) (state_of (B.account book.new))) }
    ensures unfinished { let a = B.account book.old in result ≡ Err RunFault.Unfinished → IsTooShort a.rules limit (length a.history) a.most }
    ensures own { result ≡ Err RunFault.Mixed → ⊥ }
{
    let turns = 2 * most_turns(book, limit);
    let mut from = 0;
    for _ in 0..turns {
        let Some(tile) = book.next(from) else {
            return Ok(());
        };
        bring(alloc, book, pass, tile)?;
        from = tile.saturating_add(1);
    }
    if book.is_complete() {
        Ok(())
    } else {
        Err(RunFault::Unfinished)
    }
}
