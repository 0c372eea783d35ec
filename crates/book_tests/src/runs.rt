//! Runs of workers and an editor, held at gates: what a gate is told, and that threads are at work at once.
ghost use Rattle.std.specs.Prelude.{◌≡◌, ◌<◌, ◌≤◌};
ghost use Rattle.fill_core.specs.Shares.{AllParts};

use crate::cases::{Count, added, assert_counts, finished, unfinished};
use fill_base::Rect;
use fill_core::{Edit, Entry, Event, FillBook, Reply};
use fill_shared::{Gate, OpenGate, PassOf};
use std::alloc::Global;
use std::process::Abort;
use std::sync::Wait;
use std::test::Fail;
use std::thread::Threads;

/// Holds each of two workers back at its first tile until both are there.
#[derive(Drop)]
struct Meeting {
    begun: Count,
}

impl Gate for Meeting {
    fn pass(&self, _worker: u32, _tile: u32) {
        if self.begun.raise() < 2 {
            self.begun.wait_for(2);
        }
    }

    fn edit(&self, _k: u64) {}
}

/// Two workers are each at a tile before one of them brings its own.
pub(crate) fn two_workers<B: FillBook + Send>(
    rt: &(impl Abort + Threads + Wait + Sync),
    alloc: Global,
    book: B,
    pass: PassOf<B>,
) -> Result<(), Fail>
    requires ledgers { AllParts B.Calls.parts B.Placed.parts B.Withdrawn.parts }
    requires pass { pass.parts ≡ 1024 }
{
    let gate = Meeting {
        begun: Count::new(),
    };
    let (book, pass) = finished(rt, alloc, book, pass, &[], 2, &gate, 10);
    assert!(rt; !gate.begun.is_late());
    assert_eq!(rt; (pass.placed(), pass.withdrawn()), (100, 0));
    assert_eq!(rt; book.count(), 100);
    Ok(())
}

/// Lets the first edit be made when the worker is at its first tile, and the worker go on when the second one is about to be made.
#[derive(Drop)]
struct Between {
    passes: Count,
    edits: Count,
}

impl Gate for Between {
    fn pass(&self, _worker: u32, _tile: u32) {
        if self.passes.raise() == 0 {
            self.edits.wait_for(2);
        }
    }

    fn edit(&self, _k: u64) {
        if self.edits.raise() == 0 {
            self.passes.wait_for(1);
        }
    }
}

/// Whether places found at version 0 were answered `Stale`.
fn is_old_and_stale(entry: &Entry) -> bool {
    matches!(entry.event, Event::Commit { version: 0, .. })
        && matches!(entry.reply, Reply::Stale { .. })
}

/// Asserts that an edit stands first, and that places found before it were brought too late.
fn assert_edited_first<B: FillBook>(rt: &impl Abort, book: &B, edit: Edit) {
    let entries = book.history().entries();
    let first = Entry {
        event: Event::Edit(edit),
        reply: Reply::Withdrawn(0),
    };
    assert!(rt; entries.first() == Some(&first));
    assert!(rt; entries.iter().any(|entry| is_old_and_stale(entry)));
}

/// The metal changes twice while a worker is at its first tile, so what it brings is stale.
pub(crate) fn edits_beside_a_worker<B: FillBook + Send>(
    rt: &(impl Abort + Threads + Wait + Sync),
    alloc: Global,
    book: B,
    pass: PassOf<B>,
) -> Result<(), Fail>
    requires ledgers { AllParts B.Calls.parts B.Placed.parts B.Withdrawn.parts }
    requires pass { pass.parts ≡ 1024 }
{
    let rect = Rect::new(10, 10, 21, 20)?;
    let gate = Between {
        passes: Count::new(),
        edits: Count::new(),
    };
    let edits = [Edit::Add(rect), Edit::Cut(rect)];
    let (book, _) = finished(rt, alloc, book, pass, &edits, 1, &gate, 10);
    assert!(rt; !gate.passes.is_late() && !gate.edits.is_late());
    assert_eq!(rt; (book.version(), book.count()), (2, 100));
    assert_edited_first(rt, &book, Edit::Add(rect));
    Ok(())
}

/// Holds the editor back until the worker is at its ninth tile.
#[derive(Drop)]
struct Late {
    passes: Count,
}

impl Gate for Late {
    fn pass(&self, _worker: u32, _tile: u32) {
        self.passes.raise();
    }

    fn edit(&self, _k: u64) {
        self.passes.wait_for(9);
    }
}

/// An edit comes when the worker is at its last tile: all tiles are worked on once more, and the edit is made once.
pub(crate) fn late_edit<B: FillBook + Send>(
    rt: &(impl Abort + Threads + Wait + Sync),
    alloc: Global,
    book: B,
    pass: PassOf<B>,
) -> Result<(), Fail>
    requires ledgers { AllParts B.Calls.parts B.Placed.parts B.Withdrawn.parts }
    requires pass { pass.parts ≡ 1024 }
{
    let gate = Late {
        passes: Count::new(),
    };
    let edits = [added()?];
    let (book, pass) = finished(rt, alloc, book, pass, &edits, 1, &gate, 9);
    assert!(rt; !gate.passes.is_late());
    assert_eq!(rt; (book.version(), book.count()), (1, 99));
    assert_eq!(rt; (pass.calls(), book.history().len()), (19, 19));
    Ok(())
}

/// Without turns no tile comes in.
pub(crate) fn no_turns<B: FillBook + Send>(
    rt: &(impl Abort + Threads + Wait + Sync),
    alloc: Global,
    book: B,
    pass: PassOf<B>,
)
    requires ledgers { AllParts B.Calls.parts B.Placed.parts B.Withdrawn.parts }
    requires pass { pass.parts ≡ 1024 }
{
    let (book, pass) = unfinished(rt, alloc, book, pass, &[], &OpenGate, 0);
    assert_counts(rt, &book, &pass, [0, 0, 0], 0);
}

/// A history of three events has no room for nine tiles.
pub(crate) fn three_events<B: FillBook + Send>(
    rt: &(impl Abort + Threads + Wait + Sync),
    alloc: Global,
    book: B,
    pass: PassOf<B>,
)
    requires ledgers { AllParts B.Calls.parts B.Placed.parts B.Withdrawn.parts }
    requires pass { pass.parts ≡ 1024 }
{
    let (book, pass) = unfinished(rt, alloc, book, pass, &[], &OpenGate, 10);
    assert_counts(rt, &book, &pass, [3, 40, 0], 40);
}

/// Holds each of three workers back at its first tile until all are there, and counts the calls that tell other numbers than such a
/// run has: a worker below three, a worker's first tile, and edits from 0 on.
#[derive(Drop)]
struct Numbered {
    begun: Count,
    edits: Count,
    first: Count,
    second: Count,
    third: Count,
    wrong: Count,
}

impl Numbered {
    fn new() -> Numbered {
        Numbered {
            begun: Count::new(),
            edits: Count::new(),
            first: Count::new(),
            second: Count::new(),
            third: Count::new(),
            wrong: Count::new(),
        }
    }

    /// The calls of a worker, and its first tile of nine.
    fn of(&self, worker: u32) -> Option<(&Count, u32)> {
        match worker {
            0 => Some((&self.first, 0)),
            1 => Some((&self.second, 3)),
            2 => Some((&self.third, 6)),
            _ => None,
        }
    }
}

impl Gate for Numbered {
    fn pass(&self, worker: u32, tile: u32) {
        match self.of(worker) {
            Some((calls, start)) => {
                if calls.raise() == 0 {
                    if tile != start {
                        self.wrong.raise();
                    }
                    self.begun.raise();
                    self.begun.wait_for(3);
                }
            }
            None => {
                self.wrong.raise();
            }
        }
    }

    fn edit(&self, k: u64) {
        self.begun.wait_for(3);
        if self.edits.raise() != k {
            self.wrong.raise();
        }
    }
}

/// Three workers begin at the first, the fourth and the seventh of nine tiles, and edits are numbered from 0 on.
pub(crate) fn three_workers<B: FillBook + Send>(
    rt: &(impl Abort + Threads + Wait + Sync),
    alloc: Global,
    book: B,
    pass: PassOf<B>,
) -> Result<(), Fail>
    requires ledgers { AllParts B.Calls.parts B.Placed.parts B.Withdrawn.parts }
    requires pass { pass.parts ≡ 1024 }
{
    let rect = Rect::new(10, 10, 21, 20)?;
    let edits = [Edit::Add(rect), Edit::Cut(rect), Edit::Keep(rect)];
    let gate = Numbered::new();
    let (book, _) = finished(rt, alloc, book, pass, &edits, 3, &gate, 100);
    assert!(rt; !gate.begun.is_late());
    assert_eq!(rt; (gate.wrong.raise(), gate.edits.raise()), (0, 3));
    assert_eq!(rt; (book.version(), book.count()), (3, 99));
    Ok(())
}

/// Holds the editor back until nine tiles were worked on, and counts the turns of two workers.
#[derive(Drop)]
struct Turns {
    all: Count,
    first: Count,
    second: Count,
}

impl Gate for Turns {
    fn pass(&self, worker: u32, _tile: u32) {
        if worker == 0 {
            self.first.raise();
        } else {
            self.second.raise();
        }
        self.all.raise();
    }

    fn edit(&self, _k: u64) {
        self.all.wait_for(9);
    }
}

/// Two workers of five turns bring nine tiles, an edit comes then, and both bring nine tiles once more in a second round: each has
/// more turns than one round gives.
pub(crate) fn two_rounds<B: FillBook + Send>(
    rt: &(impl Abort + Threads + Wait + Sync),
    alloc: Global,
    book: B,
    pass: PassOf<B>,
) -> Result<(), Fail>
    requires ledgers { AllParts B.Calls.parts B.Placed.parts B.Withdrawn.parts }
    requires pass { pass.parts ≡ 1024 }
{
    let gate = Turns {
        all: Count::new(),
        first: Count::new(),
        second: Count::new(),
    };
    let edits = [added()?];
    let (book, _) = finished(rt, alloc, book, pass, &edits, 2, &gate, 5);
    assert!(rt; !gate.all.is_late());
    assert_eq!(rt; (book.version(), book.count()), (1, 99));
    assert!(rt; gate.first.raise() > 5 && gate.second.raise() > 5);
    Ok(())
}

/// Holds the worker back until a third edit is about to be made.
#[derive(Drop)]
struct EditsFirst {
    edits: Count,
}

impl Gate for EditsFirst {
    fn pass(&self, _worker: u32, _tile: u32) {
        self.edits.wait_for(3);
    }

    fn edit(&self, _k: u64) {
        self.edits.raise();
    }
}

/// A history of two events has no room for a third edit, nor for a tile: the run is unfinished at version 2.
pub(crate) fn two_events<B: FillBook + Send>(
    rt: &(impl Abort + Threads + Wait + Sync),
    alloc: Global,
    book: B,
    pass: PassOf<B>,
) -> Result<(), Fail>
    requires ledgers { AllParts B.Calls.parts B.Placed.parts B.Withdrawn.parts }
    requires pass { pass.parts ≡ 1024 }
{
    let rect = Rect::new(10, 10, 21, 20)?;
    let edits = [Edit::Add(rect), Edit::Cut(rect), Edit::Keep(rect)];
    let gate = EditsFirst {
        edits: Count::new(),
    };
    let (book, pass) = unfinished(rt, alloc, book, pass, &edits, &gate, 10);
    assert!(rt; !gate.edits.is_late());
    assert_eq!(rt; book.version(), 2);
    assert_counts(rt, &book, &pass, [2, 0, 0], 0);
    Ok(())
}
