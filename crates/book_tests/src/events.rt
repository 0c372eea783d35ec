//! Histories, passes, and the definitions of the machine on small numbers.
ghost use Rattle.std.specs.Prelude.{◌≡◌, pos, None, Some};
ghost use Rattle.fill_core.specs.Boxes.{count_places, no_places, total_in};
ghost use Rattle.fill_core.specs.Shares.{AllParts};
ghost use Rattle.fill_core.specs.Tiles.{next_tile};
ghost use Rattle.fill_core.specs.steps.Worked.{ExistingFillIsWorked, RepliesAreWorked, StateIsWorked, all_but, corner, one_point, small};

use fill_base::Rect;
use fill_core::{BookError, Books, Edit, Entry, Event, History, Pass, Reply};
use std::alloc::Global;
use std::marker::Brand;
use std::process::Abort;
use std::sync::ledger::{Blank, Ledger};
use std::test::Fail;

/// The replies to a handful of events on four boxes, as they are worked out by hand.
fn replies_are_worked()
    ensures { RepliesAreWorked }
{}

/// And the state that they leave.
fn state_is_worked()
    ensures { StateIsWorked }
{}

/// Existing fill at the corner of the last box keeps it out, counts once below metal, and stays where the metal is cut.
fn existing_fill_is_worked()
    ensures { ExistingFillIsWorked }
{}

/// The box of place (0, 1) is the square at (0, 2): beside other metal it counts, on metal it doesn't count twice.
fn areas_of_boxes()
    ensures apart { total_in small corner.metal (one_point (pos 0) (pos 1)) 0 0 ≡ 2 }
    ensures alone { total_in small corner.metal no_places 0 0 ≡ 1 }
    ensures once { total_in small (one_point (pos 0) (pos 2)) (one_point (pos 0) (pos 1)) 0 0 ≡ 1 }
    ensures counted { count_places small.raster (one_point (pos 0) (pos 1)) ≡ 1 }
    ensures not_counted { count_places small.raster (one_point (pos 0) (pos 2)) ≡ 0 }
{}

/// Of nine tiles all but one are in, then all of them.
fn tiles_in_turn()
    ensures behind { next_tile 9 (all_but 4) 2 ≡ Some 4 }
    ensures there { next_tile 9 (all_but 4) 4 ≡ Some 4 }
    ensures around { next_tile 9 (all_but 4) 5 ≡ Some 4 }
    ensures beyond { next_tile 9 (all_but 4) 100 ≡ Some 4 }
    ensures done { next_tile 9 (all_but 9) 2 ≡ None }
    ensures no_tile { next_tile 0 (all_but 0) 0 ≡ None }
{}

#[test]
fn definitions_on_small_numbers(_rt: HostRuntime) -> Result<(), Fail> {
    replies_are_worked();
    state_is_worked();
    existing_fill_is_worked();
    areas_of_boxes();
    tiles_in_turn();
    Ok(())
}

/// An edit with its reply.
fn added() -> Result<Entry, Fail> {
    Ok(Entry {
        event: Event::Edit(Edit::Add(Rect::new(10, 10, 21, 20)?)),
        reply: Reply::Withdrawn(1),
    })
}

/// The commit of a tile at version 0, with its reply.
fn committed(tile: u32, reply: Reply) -> Entry {
    Entry {
        event: Event::Commit {
            version: 0,
            tile,
            same: true,
        },
        reply,
    }
}

/// The entry at `k` of a history that has it.
fn entry_at(rt: &impl Abort, history: &History, k: u64) -> Entry {
    if k >= history.len() {
        panic!(rt; "no entry {k}");
    }
    history.get(k)
}

#[test]
fn history_keeps_the_order(rt: HostRuntime) -> Result<(), Fail> {
    let mut history = History::new(rt.alloc());
    assert!(rt; history.is_empty());
    history.reserve()?;
    history.push(committed(0, Reply::Placed(16)));
    history.reserve()?;
    history.push(added()?);
    history.reserve()?;
    history.push(committed(1, Reply::Stale { at: 1 }));
    assert!(rt; !history.is_empty());
    assert_eq!(rt; history.len(), 3);
    assert_eq!(rt; entry_at(&rt, &history, 0), committed(0, Reply::Placed(16)));
    assert_eq!(rt; entry_at(&rt, &history, 1), added()?);
    assert_eq!(rt; entry_at(&rt, &history, 2).reply, Reply::Stale { at: 1 });
    assert_eq!(rt; history.entries().len(), 3);
    Ok(())
}

/// The numbers of a pass: parts, calls, places filled and places taken out.
fn numbers<C: Ledger, P: Ledger, W: Ledger>(pass: &Pass<C, P, W>) -> [u64; 4] {
    [pass.parts(), pass.calls(), pass.placed(), pass.withdrawn()]
}

/// Three callers count some calls, and are taken together again.
fn three_callers<C: Ledger, P: Ledger, W: Ledger>(
    rt: &impl Abort,
    calls: Blank,
    placed: Blank,
    withdrawn: Blank,
)
    requires names { (calls.name ≡ C.name) × (placed.name ≡ P.name) × (withdrawn.name ≡ W.name) }
    requires parts { (calls.parts ≡ C.parts) × (placed.parts ≡ P.parts) × (withdrawn.parts ≡ W.parts) }
    requires all { AllParts C.parts P.parts W.parts }
{
    let (mut books, mut first) = Books::<C, P, W>::open(calls, placed, withdrawn);
    assert_eq!(rt; numbers(&first), [1024, 0, 0, 0]);
    let mut second = first.split_off(1);
    let mut third = first.split_off(23);
    books.note(&mut first, 16, 0);
    books.note(&mut third, 0, 1);
    books.note(&mut second, 0, 0);
    assert_eq!(rt; numbers(&first), [1000, 1, 16, 0]);
    assert_eq!(rt; numbers(&second), [1, 1, 0, 0]);
    assert_eq!(rt; numbers(&third), [23, 1, 0, 1]);
    books.audit(&mut first);
    books.audit(&mut second);
    books.audit(&mut third);
    first.join(second);
    first.join(third);
    books.audit(&mut first);
    assert_eq!(rt; numbers(&first), [1024, 3, 16, 1]);
}

#[test]
fn three_callers_count_together(rt: HostRuntime) -> Result<(), Fail> {
    three_callers::<Brand, Brand, Brand>(&rt, Blank::new(1024), Blank::new(1024), Blank::new(1024));
    Ok(())
}

#[test]
fn errors_are_told_in_words(rt: HostRuntime) -> Result<(), Fail> {
    let alloc = rt.alloc();
    let full = format!(in alloc; "{}", BookError::HistoryFull)?;
    let memory = format!(in alloc; "{}", BookError::Memory)?;
    assert_eq!(rt; full.as_str(), "the history is full");
    assert_eq!(rt; memory.as_str(), "out of memory");
    Ok(())
}
