//! A worker: turn after turn it looks for a tile, proposes its places and brings them.
ghost use Rattle.std.specs.Prelude.{◌≡◌, ◌+◌, ◌<◌, ◌≤◌};
ghost use Rattle.fill_core.specs.Shares.{AllParts};
ghost use Rattle.fill_shared.specs.Working.{Ends, HasBrought, Turns};

use crate::gate::Gate;
use crate::shared::{Look, PassOf, Shared};
use fill_core::{BookError, FillBook};
use std::alloc::Global;
use std::ops::ControlFlow;
use std::sync::Wait;

/// How a worker's turns ended.
#[derive(Clone, Copy, Debug, PartialEq, Eq)]
pub enum WorkEnd {
    /// Every tile was in at this version.
    Done {
        /// The version.
        version: u64,
    },
    /// The worker had all the turns that it may have.
    Tired,
    /// The history was full.
    Full,
    /// Memory was refused.
    Memory,
}

/// One turn: the work on the next tile from a tile on is looked up, the gate is told, the tile's places are proposed while the
/// lock is free, and brought. What follows is the next turn, from the tile behind this one on, or the end.
fn turn<B: FillBook, G: Gate, R: Wait>(
    rt: &R,
    alloc: Global,
    shared: &Shared<B>,
    pass: &mut PassOf<B>,
    worker: u32,
    from: u32,
    gate: &G,
) -> ControlFlow<WorkEnd, u32>
    requires { AllParts B.Calls.parts B.Placed.parts B.Withdrawn.parts }
    ensures { Turns B.Calls.terms pass.old pass.new from result }
{
    let job = match shared.look(rt, alloc, pass, from) {
        Ok(Look::Work(job)) => job,
        Ok(Look::Complete { version }) => return ControlFlow::Break(WorkEnd::Done { version }),
        Err(_) => return ControlFlow::Break(WorkEnd::Memory),
    };
    let tile = job.tile();
    gate.pass(worker, tile);
    let Ok(proposal) = job.propose(alloc) else {
        return ControlFlow::Break(WorkEnd::Memory);
    };
    match shared.commit(rt, alloc, pass, &proposal) {
        Ok(_) => ControlFlow::Continue(tile + 1),
        Err(BookError::HistoryFull) => ControlFlow::Break(WorkEnd::Full),
        Err(BookError::Memory) => ControlFlow::Break(WorkEnd::Memory),
    }
}

/// Works on tile after tile, the first from `from` on, in at most `limit` turns. The end is `Done` where a turn finds every tile
/// in, and `Tired` where there was no such turn; `Full` where a tile was found that couldn't be brought, as the history was full.
/// The pass has what was counted until then, also where memory was refused.
pub fn work<B: FillBook, G: Gate, R: Wait>(
    rt: &R,
    alloc: Global,
    shared: &Shared<B>,
    pass: &mut PassOf<B>,
    worker: u32,
    from: u32,
    gate: &G,
    limit: u64,
) -> WorkEnd
    requires { AllParts B.Calls.parts B.Placed.parts B.Withdrawn.parts }
    ensures parts { pass.new.parts ≡ pass.old.parts }
    ensures end { Ends B.Calls.terms limit pass.old pass.new result }
    ensures brought { HasBrought B.Calls.terms limit from pass.old pass.new result }
{
    let mut next = from;
    for _ in 0..limit {
        match turn(rt, alloc, shared, pass, worker, next, gate) {
            ControlFlow::Continue(tile) => next = tile,
            ControlFlow::Break(end) => return end,
        }
    }
    WorkEnd::Tired
}
