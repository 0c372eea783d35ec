//! Rounds of a run: workers side by side, with the editor or without.
ghost use Rattle.std.specs.Prelude.{◌≡◌, ◌≢◌, ◌+◌, ◌*◌, ◌/◌, ◌<◌, ◌≤◌, ℕ, IfOk, length, map, slice_index_or, sum_by};
ghost use Rattle.std.specs.List.{All};
ghost use Rattle.fill_core.specs.Accounts.{IsKeeping, terms_of};
ghost use Rattle.fill_core.specs.Shares.{AllParts};
ghost use Rattle.fill_shared.specs.Passes.{HasCounted, calls_of, parts_of, together};
ghost use Rattle.fill_shared.specs.Rounds.{HasEdited, HasRested, HasRun, IsRound, IsRoundWithEditor};
ghost use Rattle.fill_shared.specs.steps.Rounds.{AreBeside, HasWorked, SeatsEnded};

use crate::gate::Gate;
use crate::shared::{PassOf, Shared};
use crate::worker::{WorkEnd, work};
use fill_core::{BookError, Edit, FillBook};
use std::alloc::{AllocError, AllocFailed, Global};
use std::sync::Wait;
use std::thread;
use std::thread::Threads;

/// Memory was refused in a round, and its book is dropped.
#[derive(Clone, Copy, Debug)]
pub(crate) struct RoundLost;

impl From<AllocError> for RoundLost {
    fn from(_error: AllocError) -> RoundLost {
        RoundLost
    }
}

impl<T: Drop> From<AllocFailed<T>> for RoundLost {
    fn from(_error: AllocFailed<T>) -> RoundLost {
        RoundLost
    }
}

/// A worker before its turns.
#[derive(Drop)]
struct Seat<B: FillBook> {
    worker: u32,
    from: u32,
    pass: PassOf<B>,
}

/// A worker after its turns.
#[derive(Drop)]
struct Rested<B: FillBook> {
    pass: PassOf<B>,
    end: WorkEnd,
}

/// The tile from which a worker starts: the workers, numbered from 0, share the tiles out evenly.
fn start_of(worker: u32, workers: u32, tiles: u32) -> u32
    requires { worker < workers }
    ensures { result ≡ worker * tiles / workers }
{
    (u64::from(worker) * u64::from(tiles) / u64::from(workers)) as u32
}

/// A worker for each pass, the workers numbered in their order.
fn seats_for<B: FillBook>(
    alloc: Global,
    passes: Vec<PassOf<B>>,
    tiles: u32,
) -> Result<Vec<Seat<B>>, AllocError>
    requires { length passes.items ≤ 64 }
    ensures kept { IfOk result (λ seats. map (λ s. s.pass) seats.items ≡ passes.items) }
    ensures count { IfOk result (λ seats. length seats.items ≡ length passes.items) }
    ensures parts { IfOk result (λ seats. sum_by (λ s. s.pass.parts) seats.items ≡ parts_of passes.items) }
    ensures calls { IfOk result (λ seats. sum_by (λ s. s.pass.calls) seats.items ≡ calls_of passes.items) }
    ensures starts { IfOk result (λ seats. (k : ℕ) (d : _) → k < length seats.items → (slice_index_or seats.items k d).from ≡ k * tiles / length passes.items) }
{
    let workers = passes.len() as u32;
    let mut seats = Vec::with_capacity(alloc, passes.len())?;
    let mut worker = 0;
    for pass in passes {
        let from = start_of(worker, workers, tiles);
        seats.push_reserved(Seat { worker, from, pass });
        worker += 1;
    }
    Ok(seats)
}

/// Lets each worker work in a thread of its own.
fn worked<B: FillBook + Send, G: Gate + Sync, R: Threads + Wait + Sync>(
    rt: &R,
    alloc: Global,
    shared: &Shared<B>,
    seats: Vec<Seat<B>>,
    gate: &G,
    limit: u64,
) -> Result<Vec<Rested<B>>, AllocError>
    requires { AllParts B.Calls.parts B.Placed.parts B.Withdrawn.parts }
    ensures count { IfOk result (λ all. length all.items ≡ length seats.items) }
    ensures each { IfOk result (λ all. (k : ℕ) (d e : _) → k < length seats.items → HasRested B.Calls.terms limit (slice_index_or seats.items k d).from (slice_index_or seats.items k d).pass (slice_index_or all.items k e).pass (slice_index_or all.items k e).end) }
{
    thread::map_vec(
        rt,
        seats,
        &|seat: Seat<B>| -> Rested<B>
            requires { AllParts B.Calls.parts B.Placed.parts B.Withdrawn.parts }
            ensures { HasRested B.Calls.terms limit seat.from seat.pass result.pass result.end }
        {
            let Seat {
                worker,
                from,
                mut pass,
            } = seat;
            let end = work(rt, alloc, shared, &mut pass, worker, from, gate, limit);
            Rested { pass, end }
        },
    )
}

/// The passes of workers after their turns.
fn passes_of<B: FillBook>(alloc: Global, all: Vec<Rested<B>>) -> Result<Vec<PassOf<B>>, RoundLost>
    ensures kept { IfOk result (λ passes. passes.items ≡ map (λ w. w.pass) all.items) }
    ensures ended { IfOk result (λ _. All (λ w. w.end ≢ WorkEnd.Memory) all.items) }
{
    let mut passes = Vec::with_capacity(alloc, all.len())?;
    for Rested { pass, end } in all {
        if end == WorkEnd::Memory {
            return Err(RoundLost);
        }
        passes.push_reserved(pass);
    }
    Ok(passes)
}

/// Lets all workers work, and takes their passes back.
fn work_all<B: FillBook + Send, G: Gate + Sync, R: Threads + Wait + Sync>(
    rt: &R,
    alloc: Global,
    shared: &Shared<B>,
    seats: Vec<Seat<B>>,
    gate: &G,
    limit: u64,
) -> Result<Vec<PassOf<B>>, RoundLost>
    requires { AllParts B.Calls.parts B.Placed.parts B.Withdrawn.parts }
    ensures parts { IfOk result (λ passes. parts_of passes.items ≡ sum_by (λ s. s.pass.parts) seats.items) }
    ensures calls { IfOk result (λ passes. calls_of passes.items ≤ sum_by (λ s. s.pass.calls) seats.items + length seats.items * limit) }
    ensures ended { IfOk result (λ passes. SeatsEnded (λ s. s.from) (λ s. s.pass) B.Calls.terms limit seats.items passes.items) }
{
    let all = worked(rt, alloc, shared, seats, gate, limit)?;
    passes_of(alloc, all)
}

/// Makes the edits in their order, until the history is full.
fn edit_all<B: FillBook, G: Gate, R: Wait>(
    rt: &R,
    alloc: Global,
    shared: &Shared<B>,
    mut pass: PassOf<B>,
    edits: &[Edit],
    gate: &G,
) -> Result<PassOf<B>, RoundLost>
    requires { AllParts B.Calls.parts B.Placed.parts B.Withdrawn.parts }
    ensures worked { IfOk result (λ after. HasWorked (length edits.now) pass after) }
    ensures edited { IfOk result (λ after. HasEdited B.Calls.terms edits.now pass after) }
{
    for k in 0..edits.len() {
        gate.edit(k as u64);
        match shared.edit(rt, alloc, &mut pass, edits[k]) {
            Ok(_) => {}
            Err(BookError::HistoryFull) => return Ok(pass),
            Err(BookError::Memory) => return Err(RoundLost),
        }
    }
    Ok(pass)
}

/// Lets all workers work beside an editor that makes the edits, and takes their passes back, the editor's last.
fn work_beside<B: FillBook + Send, G: Gate + Sync, R: Threads + Wait + Sync>(
    rt: &R,
    alloc: Global,
    shared: &Shared<B>,
    seats: Vec<Seat<B>>,
    editor: PassOf<B>,
    edits: &[Edit],
    gate: &G,
    limit: u64,
) -> Result<Vec<PassOf<B>>, RoundLost>
    requires { AllParts B.Calls.parts B.Placed.parts B.Withdrawn.parts }
    ensures parts { IfOk result (λ passes. parts_of passes.items ≡ sum_by (λ s. s.pass.parts) seats.items + editor.parts) }
    ensures calls { IfOk result (λ passes. calls_of passes.items ≤ sum_by (λ s. s.pass.calls) seats.items + editor.calls + (length seats.items * limit + length edits.now)) }
    ensures ended { IfOk result (λ passes. AreBeside (λ s. s.from) (λ s. s.pass) B.Calls.terms edits.now limit seats.items editor passes.items) }
{
    let (worked, edited) = thread::join(
        rt,
        || -> Result<Vec<PassOf<B>>, RoundLost>
            requires { AllParts B.Calls.parts B.Placed.parts B.Withdrawn.parts }
            ensures parts { IfOk result (λ passes. parts_of passes.items ≡ sum_by (λ s. s.pass.parts) seats.items) }
            ensures calls { IfOk result (λ passes. calls_of passes.items ≤ sum_by (λ s. s.pass.calls) seats.items + length seats.items * limit) }
            ensures ended { IfOk result (λ passes. SeatsEnded (λ s. s.from) (λ s. s.pass) B.Calls.terms limit seats.items passes.items) }
        { work_all(rt, alloc, shared, seats, gate, limit) },
        || -> Result<PassOf<B>, RoundLost>
            requires { AllParts B.Calls.parts B.Placed.parts B.Withdrawn.parts }
            ensures worked { IfOk result (λ after. HasWorked (length edits.entry.now) editor after) }
            ensures edited { IfOk result (λ after. HasEdited B.Calls.terms edits.entry.now editor after) }
        { edit_all(rt, alloc, shared, editor, edits, gate) },
    );
    let mut passes = worked?;
    passes.push(edited?)?;
    Ok(passes)
}

/// Takes the book back after a round.
fn close_round<B: FillBook>(shared: Shared<B>, passes: Vec<PassOf<B>>) -> (B, PassOf<B>)
    requires ledgers { AllParts B.Calls.parts B.Placed.parts B.Withdrawn.parts }
    requires passes { parts_of passes.items ≡ 1024 }
    ensures keeping { IsKeeping (B.account result.0) }
    ensures terms { terms_of (B.account result.0) ≡ B.Calls.terms }
    ensures counted { HasCounted (B.account result.0) result.1 }
    ensures joined { result.1 ≡ together passes.items }
{
    let Ok(closed) = shared.close(passes) else {
        unreachable!();
    };
    closed
}

/// One round of workers beside an editor that makes the edits.
fn round_with_editor<B: FillBook + Send, G: Gate + Sync, R: Threads + Wait + Sync>(
    rt: &R,
    alloc: Global,
    mut book: B,
    mut pass: PassOf<B>,
    edits: &[Edit],
    workers: u32,
    gate: &G,
    limit: u64,
) -> Result<(B, PassOf<B>), RoundLost>
    requires ledgers { AllParts B.Calls.parts B.Placed.parts B.Withdrawn.parts }
    requires pass { pass.parts ≡ 1024 }
    requires workers { (0 < workers) × (workers ≤ 64) }
    ensures keeping { IfOk result (λ r. IsKeeping (B.account r.0)) }
    ensures terms { IfOk result (λ r. terms_of (B.account r.0) ≡ B.Calls.terms) }
    ensures counted { IfOk result (λ r. HasCounted (B.account r.0) r.1) }
    ensures calls { IfOk result (λ r. r.1.calls ≤ pass.calls + (workers * limit + length edits.now)) }
    ensures ended { IfOk result (λ r. IsRoundWithEditor B.Calls.terms edits.now workers limit pass r.1) }
{
    book.audit(&mut pass);
    let tiles = book.rules().raster().tiles();
    let Ok((shared, mut passes)) = Shared::open(alloc, book, pass, workers + 1) else {
        return Err(RoundLost);
    };
    let Some(editor) = passes.pop() else {
        unreachable!();
    };
    let seats = seats_for::<B>(alloc, passes, tiles)?;
    let passes = work_beside(rt, alloc, &shared, seats, editor, edits, gate, limit)?;
    Ok(close_round(shared, passes))
}

/// One round of workers alone.
fn round_of_workers<B: FillBook + Send, G: Gate + Sync, R: Threads + Wait + Sync>(
    rt: &R,
    alloc: Global,
    mut book: B,
    mut pass: PassOf<B>,
    workers: u32,
    gate: &G,
    limit: u64,
) -> Result<(B, PassOf<B>), RoundLost>
    requires ledgers { AllParts B.Calls.parts B.Placed.parts B.Withdrawn.parts }
    requires pass { pass.parts ≡ 1024 }
    requires workers { (0 < workers) × (workers ≤ 64) }
    ensures keeping { IfOk result (λ r. IsKeeping (B.account r.0)) }
    ensures terms { IfOk result (λ r. terms_of (B.account r.0) ≡ B.Calls.terms) }
    ensures counted { IfOk result (λ r. HasCounted (B.account r.0) r.1) }
    ensures calls { IfOk result (λ r. r.1.calls ≤ pass.calls + workers * limit) }
    ensures ended { IfOk result (λ r. IsRound B.Calls.terms workers limit pass r.1) }
{
    book.audit(&mut pass);
    let tiles = book.rules().raster().tiles();
    let Ok((shared, passes)) = Shared::open(alloc, book, pass, workers) else {
        return Err(RoundLost);
    };
    let seats = seats_for::<B>(alloc, passes, tiles)?;
    let passes = work_all(rt, alloc, &shared, seats, gate, limit)?;
    Ok(close_round(shared, passes))
}

/// A round beside the editor, and another without it where the version isn't complete then.
pub(crate) fn rounds<B: FillBook + Send, G: Gate + Sync, R: Threads + Wait + Sync>(
    rt: &R,
    alloc: Global,
    book: B,
    pass: PassOf<B>,
    edits: &[Edit],
    workers: u32,
    gate: &G,
    limit: u64,
) -> Result<(B, PassOf<B>), RoundLost>
    requires ledgers { AllParts B.Calls.parts B.Placed.parts B.Withdrawn.parts }
    requires pass { pass.parts ≡ 1024 }
    requires workers { (0 < workers) × (workers ≤ 64) }
    ensures keeping { IfOk result (λ r. IsKeeping (B.account r.0)) }
    ensures terms { IfOk result (λ r. terms_of (B.account r.0) ≡ B.Calls.terms) }
    ensures counted { IfOk result (λ r. HasCounted (B.account r.0) r.1) }
    ensures calls { IfOk result (λ r. r.1.calls ≤ pass.calls + (length edits.now + 2 * (workers * limit))) }
    ensures ended { IfOk result (λ r. HasRun B.Calls.terms edits.now workers limit pass (B.account r.0) r.1) }
{
    let (book, pass) = round_with_editor(rt, alloc, book, pass, edits, workers, gate, limit)?;
    if book.is_complete() {
        return Ok((book, pass));
    }
    round_of_workers(rt, alloc, book, pass, workers, gate, limit)
}
