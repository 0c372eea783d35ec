//! Storms: proposals that come too late, from many threads at once, and what every thread did against what the history holds.
ghost use Rattle.std.specs.Prelude.{◌≡◌, ◌<◌, ◌≤◌};
ghost use Rattle.fill_core.specs.Shares.{AllParts};

use crate::book::assert_totals;
use crate::cases::{Count, added, assert_counts, assert_edit, close, finished};
use fill_base::Rect;
use fill_core::{Edit, Entry, Event, FillBook, Reply};
use fill_job::Proposal;
use fill_shared::{Gate, Look, OpenGate, PassMissing, PassOf, Seen, Shared, WorkEnd, work};
use std::alloc::Global;
use std::process::Abort;
use std::sync::Wait;
use std::test::Fail;
use std::thread;
use std::thread::Threads;

/// A caller and what it proposes.
#[derive(Drop)]
struct Proposer<B: FillBook> {
    pass: PassOf<B>,
    proposal: Proposal,
}

/// A proposer for each pass, of the tiles from 0 on.
fn proposers<B: FillBook>(
    rt: &(impl Abort + Wait),
    alloc: Global,
    shared: &Shared<B>,
    passes: Vec<PassOf<B>>,
) -> Result<Vec<Proposer<B>>, Fail>
    requires { AllParts B.Calls.parts B.Placed.parts B.Withdrawn.parts }
{
    let mut all = Vec::new(alloc);
    let mut tile = 0u32;
    for mut pass in passes {
        let Ok(Look::Work(job)) = shared.look(rt, alloc, &mut pass, tile) else {
            panic!(rt; "no work from tile {tile}");
        };
        let Ok(proposal) = job.propose(alloc) else {
            panic!(rt; "memory was refused");
        };
        all.push(Proposer { pass, proposal })?;
        tile = tile.wrapping_add(1);
    }
    Ok(all)
}

/// Lets all of them commit at once, each too late.
fn all_stale<B: FillBook + Send>(
    rt: &(impl Abort + Threads + Wait + Sync),
    alloc: Global,
    shared: &Shared<B>,
    proposers: Vec<Proposer<B>>,
) -> Result<Vec<PassOf<B>>, Fail>
    requires { AllParts B.Calls.parts B.Placed.parts B.Withdrawn.parts }
{
    let passes = thread::map_vec(
        rt,
        proposers,
        &|proposer: Proposer<B>| -> PassOf<B>
            requires { AllParts B.Calls.parts B.Placed.parts B.Withdrawn.parts }
        {
            let Proposer { mut pass, proposal } = proposer;
            let reply = shared.commit(rt, alloc, &mut pass, &proposal);
            assert!(rt; reply == Ok(Reply::Stale { at: 1 }));
            pass
        },
    )?;
    Ok(passes)
}

/// Asserts that these passes don't take a book back.
fn assert_missing<B: FillBook>(
    rt: &impl Abort,
    shared: Shared<B>,
    passes: Vec<PassOf<B>>,
) -> (Shared<B>, Vec<PassOf<B>>)
    requires { AllParts B.Calls.parts B.Placed.parts B.Withdrawn.parts }
{
    let count = passes.len();
    let Err(PassMissing { shared, passes }) = shared.close(passes) else {
        panic!(rt; "a pass is missing");
    };
    assert_eq!(rt; passes.len(), count);
    (shared, passes)
}

/// Eight proposals of one version come at once after an edit: none of them changes anything.
pub(crate) fn eight_stale<B: FillBook + Send>(
    rt: &(impl Abort + Threads + Wait + Sync),
    alloc: Global,
    book: B,
    pass: PassOf<B>,
) -> Result<(), Fail>
    requires ledgers { AllParts B.Calls.parts B.Placed.parts B.Withdrawn.parts }
    requires pass { pass.parts ≡ 1024 }
{
    let Ok((shared, mut passes)) = Shared::open(alloc, book, pass, 9) else {
        panic!(rt; "memory was refused");
    };
    let Some(mut editor) = passes.pop() else {
        panic!(rt; "a caller has no pass");
    };
    let all = proposers(rt, alloc, &shared, passes)?;
    let edit = added()?;
    assert_edit(
        rt,
        alloc,
        &shared,
        &mut editor,
        edit,
        Ok(Reply::Withdrawn(0)),
    );
    let passes = all_stale(rt, alloc, &shared, all)?;
    for (column, row) in [
        (0, 0),
        (1, 0),
        (2, 0),
        (0, 1),
        (1, 1),
        (2, 1),
        (0, 2),
        (1, 2),
        (2, 2),
    ] {
        let seen = Seen {
            version: 1,
            events: 9,
            total: if (column, row) == (0, 0) { 110 } else { 0 },
        };
        assert!(rt; shared.total(rt, &mut editor, column, row) == Some(seen));
    }
    let (shared, _) = assert_missing(rt, shared, Vec::new(alloc));
    let (shared, passes) = assert_missing(rt, shared, passes);
    close(rt, shared, passes, editor, [9, 0, 0], 0)?;
    Ok(())
}

/// Holds the worker back at its first tile until an edit is made.
#[derive(Drop)]
struct EditFirst {
    begun: Count,
    made: Count,
}

impl Gate for EditFirst {
    fn pass(&self, _worker: u32, _tile: u32) {
        if self.begun.raise() == 0 {
            self.made.wait_for(1);
        }
    }

    fn edit(&self, _k: u64) {}
}

/// Lets a worker work from the first tile on, and asserts how it ends.
fn worked<B: FillBook>(
    rt: &(impl Abort + Wait),
    alloc: Global,
    shared: &Shared<B>,
    mut pass: PassOf<B>,
    gate: &EditFirst,
    limit: u64,
    want: WorkEnd,
) -> PassOf<B>
    requires { AllParts B.Calls.parts B.Placed.parts B.Withdrawn.parts }
{
    let end = work(rt, alloc, shared, &mut pass, 0, 0, gate, limit);
    assert_eq!(rt; end, want);
    pass
}

/// Edits once the worker is at its first tile.
fn edited<B: FillBook>(
    rt: &(impl Abort + Wait),
    alloc: Global,
    shared: &Shared<B>,
    mut pass: PassOf<B>,
    gate: &EditFirst,
    edit: Edit,
) -> PassOf<B>
    requires { AllParts B.Calls.parts B.Placed.parts B.Withdrawn.parts }
{
    gate.begun.wait_for(1);
    let reply = shared.edit(rt, alloc, &mut pass, edit);
    assert!(rt; reply == Ok(Reply::Withdrawn(0)));
    gate.made.raise();
    pass
}

/// The entry of a tile that was brought for a version.
fn brought(version: u64, tile: u32, same: bool, reply: Reply) -> Entry {
    Entry {
        event: Event::Commit {
            version,
            tile,
            same,
        },
        reply,
    }
}

/// What a history holds where an edit comes while a worker is at the first tile: its proposal is too late, and then come the other tiles,
/// and that one at last.
fn entries_beside(edit: Edit) -> [Entry; 11] {
    let edited = Entry {
        event: Event::Edit(edit),
        reply: Reply::Withdrawn(0),
    };
    [
        edited,
        brought(0, 0, false, Reply::Stale { at: 1 }),
        brought(1, 1, true, Reply::Placed(16)),
        brought(1, 2, true, Reply::Placed(8)),
        brought(1, 3, true, Reply::Placed(16)),
        brought(1, 4, true, Reply::Placed(16)),
        brought(1, 5, true, Reply::Placed(8)),
        brought(1, 6, true, Reply::Placed(8)),
        brought(1, 7, true, Reply::Placed(8)),
        brought(1, 8, true, Reply::Placed(4)),
        brought(1, 0, true, Reply::Placed(15)),
    ]
}

/// A worker beside a caller that edits while the worker is at its first tile: one proposal is stale, and nine tiles come in.
fn work_beside_an_edit<B: FillBook + Send>(
    rt: &(impl Abort + Threads + Wait + Sync),
    alloc: Global,
    book: B,
    pass: PassOf<B>,
    limit: u64,
    want: WorkEnd,
) -> Result<(), Fail>
    requires ledgers { AllParts B.Calls.parts B.Placed.parts B.Withdrawn.parts }
    requires pass { pass.parts ≡ 1024 }
{
    let Ok((shared, mut passes)) = Shared::open(alloc, book, pass, 2) else {
        panic!(rt; "memory was refused");
    };
    let (Some(editor), Some(worker)) = (passes.pop(), passes.pop()) else {
        panic!(rt; "a caller has no pass");
    };
    let gate = EditFirst {
        begun: Count::new(),
        made: Count::new(),
    };
    let edit = added()?;
    let (worker, editor) = thread::join(
        rt,
        || -> PassOf<B>
            requires { AllParts B.Calls.parts B.Placed.parts B.Withdrawn.parts }
        { worked(rt, alloc, &shared, worker, &gate, limit, want) },
        || -> PassOf<B>
            requires { AllParts B.Calls.parts B.Placed.parts B.Withdrawn.parts }
        { edited(rt, alloc, &shared, editor, &gate, edit) },
    );
    assert!(rt; !gate.begun.is_late() && !gate.made.is_late());
    passes.push(worker)?;
    let book = close(rt, shared, passes, editor, [11, 99, 0], 99)?;
    assert!(rt; book.history().entries() == entries_beside(edit).as_slice());
    Ok(())
}

/// With a turn to see that every tile is in, the worker is done.
pub(crate) fn done_beside_an_edit<B: FillBook + Send>(
    rt: &(impl Abort + Threads + Wait + Sync),
    alloc: Global,
    book: B,
    pass: PassOf<B>,
) -> Result<(), Fail>
    requires ledgers { AllParts B.Calls.parts B.Placed.parts B.Withdrawn.parts }
    requires pass { pass.parts ≡ 1024 }
{
    work_beside_an_edit(rt, alloc, book, pass, 11, WorkEnd::Done { version: 1 })
}

/// Without that turn it is tired.
pub(crate) fn tired_beside_an_edit<B: FillBook + Send>(
    rt: &(impl Abort + Threads + Wait + Sync),
    alloc: Global,
    book: B,
    pass: PassOf<B>,
) -> Result<(), Fail>
    requires ledgers { AllParts B.Calls.parts B.Placed.parts B.Withdrawn.parts }
    requires pass { pass.parts ≡ 1024 }
{
    work_beside_an_edit(rt, alloc, book, pass, 10, WorkEnd::Tired)
}

/// Fifty edits, each undone by the next, come while four workers fill: all places are filled at last.
pub(crate) fn fifty_edits<B: FillBook + Send>(
    rt: &(impl Abort + Threads + Wait + Sync),
    alloc: Global,
    book: B,
    pass: PassOf<B>,
) -> Result<(), Fail>
    requires ledgers { AllParts B.Calls.parts B.Placed.parts B.Withdrawn.parts }
    requires pass { pass.parts ≡ 1024 }
{
    let rect = Rect::new(10, 10, 21, 20)?;
    let mut edits = Vec::new(alloc);
    for _ in 0..25 {
        edits.push(Edit::Add(rect))?;
        edits.push(Edit::Cut(rect))?;
    }
    let (book, pass) = finished(rt, alloc, book, pass, &edits, 4, &OpenGate, 10);
    assert_eq!(rt; (book.version(), book.count()), (50, 100));
    assert_eq!(rt; pass.placed().wrapping_sub(pass.withdrawn()), 100);
    assert_totals(rt, &book, 400);
    Ok(())
}

/// As many workers as a run may have fill nine tiles.
pub(crate) fn sixty_four_workers<B: FillBook + Send>(
    rt: &(impl Abort + Threads + Wait + Sync),
    alloc: Global,
    book: B,
    pass: PassOf<B>,
)
    requires ledgers { AllParts B.Calls.parts B.Placed.parts B.Withdrawn.parts }
    requires pass { pass.parts ≡ 1024 }
{
    let (book, pass) = finished(rt, alloc, book, pass, &[], 64, &OpenGate, 10);
    assert_eq!(rt;
        (book.count(), pass.placed(), pass.withdrawn()),
        (100, 100, 0)
    );
}

/// Holds each of eight workers back at its first tile until all are there.
#[derive(Drop)]
struct AllBegun {
    begun: Count,
}

impl Gate for AllBegun {
    fn pass(&self, _worker: u32, _tile: u32) {
        if self.begun.raise() < 8 {
            self.begun.wait_for(8);
        }
    }

    fn edit(&self, _k: u64) {}
}

/// Eight workers are each at a tile before one of them brings its own.
pub(crate) fn eight_workers<B: FillBook + Send>(
    rt: &(impl Abort + Threads + Wait + Sync),
    alloc: Global,
    book: B,
    pass: PassOf<B>,
)
    requires ledgers { AllParts B.Calls.parts B.Placed.parts B.Withdrawn.parts }
    requires pass { pass.parts ≡ 1024 }
{
    let gate = AllBegun {
        begun: Count::new(),
    };
    let (book, pass) = finished(rt, alloc, book, pass, &[], 8, &gate, 10);
    assert!(rt; !gate.begun.is_late());
    assert_counts(rt, &book, &pass, [pass.calls(), 100, 0], 100);
}

/// What a thread did, and how it was answered.
#[derive(Clone, Copy, PartialEq, Eq)]
enum Deed {
    /// The places of a tile were brought for a version.
    Commit(u64, u32, Reply),
    /// The metal was edited.
    Edit(Edit, Reply),
}

/// A thread's pass and the deeds that it has noted.
#[derive(Drop)]
struct Actor<B: FillBook> {
    number: u32,
    pass: PassOf<B>,
    last: Option<Proposal>,
    deeds: Vec<Deed>,
}

impl<B: FillBook> Actor<B> {
    /// Commits the last proposal, if there is one.
    fn commit(&mut self, rt: &(impl Abort + Wait), alloc: Global, shared: &Shared<B>) -> Option<()>
        requires { AllParts B.Calls.parts B.Placed.parts B.Withdrawn.parts }
    {
        let Some(proposal) = &self.last else {
            return Some(());
        };
        let reply = shared.commit(rt, alloc, &mut self.pass, proposal).ok()?;
        let deed = Deed::Commit(proposal.version(), proposal.tile(), reply);
        self.deeds.push(deed).ok()
    }

    /// Makes a square of metal.
    fn edit(
        &mut self,
        rt: &(impl Abort + Wait),
        alloc: Global,
        shared: &Shared<B>,
        k: u32,
    ) -> Option<()>
        requires { AllParts B.Calls.parts B.Placed.parts B.Withdrawn.parts }
    {
        let (x, y) = (i64::from(self.number), i64::from(k));
        let rect = Rect::new(x, y, x.wrapping_add(1), y.wrapping_add(1)).ok()?;
        let edit = Edit::Add(rect);
        let reply = shared.edit(rt, alloc, &mut self.pass, edit).ok()?;
        self.deeds.push(Deed::Edit(edit, reply)).ok()
    }

    /// Edits, commits once more, or looks for a tile and brings it, as the number of the turn says.
    fn turn(
        &mut self,
        rt: &(impl Abort + Wait),
        alloc: Global,
        shared: &Shared<B>,
        k: u32,
    ) -> Option<()>
        requires { AllParts B.Calls.parts B.Placed.parts B.Withdrawn.parts }
    {
        if k % 5 == 0 {
            return self.edit(rt, alloc, shared, k);
        }
        if k % 5 != 4 {
            let from = self.number.wrapping_add(k) % 9;
            let look = shared.look(rt, alloc, &mut self.pass, from).ok()?;
            let Look::Work(job) = look else {
                return Some(());
            };
            self.last = Some(job.propose(alloc).ok()?);
        }
        self.commit(rt, alloc, shared)
    }
}

/// An actor after its fifty turns.
fn acted<B: FillBook>(
    rt: &(impl Abort + Wait),
    alloc: Global,
    shared: &Shared<B>,
    mut actor: Actor<B>,
) -> Actor<B>
    requires { AllParts B.Calls.parts B.Placed.parts B.Withdrawn.parts }
{
    for k in 0..50 {
        assert!(rt; actor.turn(rt, alloc, shared, k).is_some());
    }
    actor
}

/// An actor for each pass, numbered from 0.
fn actors<B: FillBook>(alloc: Global, passes: Vec<PassOf<B>>) -> Result<Vec<Actor<B>>, Fail> {
    let mut all = Vec::new(alloc);
    let mut number = 0u32;
    for pass in passes {
        all.push(Actor {
            number,
            pass,
            last: None,
            deeds: Vec::new(alloc),
        })?;
        number = number.wrapping_add(1);
    }
    Ok(all)
}

/// The deed that an entry of a history tells of.
fn deed_of(entry: &Entry) -> Deed {
    match entry.event {
        Event::Commit { version, tile, .. } => Deed::Commit(version, tile, entry.reply),
        Event::Edit(edit) => Deed::Edit(edit, entry.reply),
    }
}

/// How often a deed was done.
fn times(deeds: &[Deed], deed: Deed) -> usize {
    deeds.iter().filter(|done| **done == deed).count()
}

/// Four threads edit, look, commit and commit once more: the history has just what they noted, each as often.
pub(crate) fn four_actors<B: FillBook + Send>(
    rt: &(impl Abort + Threads + Wait + Sync),
    alloc: Global,
    book: B,
    pass: PassOf<B>,
) -> Result<(), Fail>
    requires ledgers { AllParts B.Calls.parts B.Placed.parts B.Withdrawn.parts }
    requires pass { pass.parts ≡ 1024 }
{
    let Ok((shared, passes)) = Shared::open(alloc, book, pass, 4) else {
        panic!(rt; "memory was refused");
    };
    let all = thread::map_vec(
        rt,
        actors::<B>(alloc, passes)?,
        &|actor: Actor<B>| -> Actor<B>
            requires { AllParts B.Calls.parts B.Placed.parts B.Withdrawn.parts }
        { acted(rt, alloc, &shared, actor) },
    )?;
    let mut passes = Vec::new(alloc);
    let mut noted = Vec::new(alloc);
    for actor in all {
        passes.push(actor.pass)?;
        noted.extend_from_slice(&actor.deeds)?;
    }
    let Ok((book, pass)) = shared.close(passes) else {
        panic!(rt; "no pass is missing");
    };
    assert_eq!(rt; pass.calls() as usize, noted.len());
    assert_same_deeds(rt, alloc, &book, &noted)
}

/// Asserts that a history has these deeds, each as often.
fn assert_same_deeds<B: FillBook>(
    rt: &impl Abort,
    alloc: Global,
    book: &B,
    noted: &[Deed],
) -> Result<(), Fail> {
    let mut kept = Vec::new(alloc);
    for entry in book.history().entries() {
        kept.push(deed_of(entry))?;
    }
    assert_eq!(rt; kept.len(), noted.len());
    for deed in noted {
        assert_eq!(rt; times(&kept, *deed), times(noted, *deed));
    }
    Ok(())
}
