ghost use Rattle.std.specs.Prelude.{◌≡◌, ◌<◌, ◌≤◌, ◌^◌};
ghost use Rattle.fill_text.specs.ValuesOfRules.{values_of};
ghost use Rattle.fill_core.specs.Shares.{AllParts};

use crate::book::{Design, NOTHING, offered};
use crate::cases::{
    Count, NO_PLACES, Terms, USUAL_TERMS, added, assert_edit, assert_work, close, refuse_to_close,
    rules_in, shared_alone, shared_by_three,
};
use crate::refused::{refused_run, shared_calls};
use crate::runs::{
    edits_beside_a_worker, late_edit, no_turns, three_events, three_workers, two_events,
    two_rounds, two_workers,
};
use crate::storms::{
    done_beside_an_edit, eight_stale, eight_workers, fifty_edits, four_actors, sixty_four_workers,
    tired_beside_an_edit,
};
use fill_book::{Book, Opening};
use fill_core::{BookError, Edit, FillBook, Opened, Reply};
use fill_job::Proposal;
use fill_shared::{Look, PassOf, Seen, Shared, WorkEnd};
use fill_text::Rules;
use std::alloc::Global;
use std::marker::Brand;
use std::process::Abort;
use std::sync::Wait;
use std::sync::ledger::{Blank, Ledger};
use std::test::Fail;
use std::thread;
use std::thread::Threads;

/// The proposal of the next tile from a tile on.
fn proposal_from<B: FillBook>(
    rt: &(impl Abort + Wait),
    alloc: Global,
    shared: &Shared<B>,
    pass: &mut PassOf<B>,
    from: u32,
) -> Proposal
    requires { AllParts B.Calls.parts B.Placed.parts B.Withdrawn.parts }
{
    let Ok(Look::Work(job)) = shared.look(rt, alloc, pass, from) else {
        panic!(rt; "no work from tile {from}");
    };
    let Ok(proposal) = job.propose(alloc) else {
        panic!(rt; "memory was refused");
    };
    proposal
}

/// Looks from a tile on in one turn, and commits in a later one.
fn look_and_commit<B: FillBook>(
    rt: &(impl Abort + Wait),
    alloc: Global,
    shared: &Shared<B>,
    mut pass: PassOf<B>,
    turns: &Count,
    when: (u32, u64, u64),
    want: Reply,
) -> PassOf<B>
    requires { AllParts B.Calls.parts B.Placed.parts B.Withdrawn.parts }
{
    let (from, look, commit) = when;
    turns.wait_for(look);
    let proposal = proposal_from(rt, alloc, shared, &mut pass, from);
    turns.raise();
    assert_eq!(rt; proposal.tile(), from);
    turns.wait_for(commit);
    let reply = shared.commit(rt, alloc, &mut pass, &proposal);
    turns.raise();
    assert!(rt; reply == Ok(want));
    pass
}

/// Edits in a turn, and asks for the totals of a window that there is and of one that there isn't.
fn edit_and_ask<B: FillBook>(
    rt: &(impl Abort + Wait),
    alloc: Global,
    shared: &Shared<B>,
    mut pass: PassOf<B>,
    turns: &Count,
    turn: u64,
    edit: Edit,
) -> PassOf<B>
    requires { AllParts B.Calls.parts B.Placed.parts B.Withdrawn.parts }
{
    turns.wait_for(turn);
    let reply = shared.edit(rt, alloc, &mut pass, edit);
    assert!(rt; reply == Ok(Reply::Withdrawn(1)));
    let seen = Seen {
        version: 1,
        events: 2,
        total: 350,
    };
    assert!(rt; shared.total(rt, &mut pass, 0, 0) == Some(seen));
    assert!(rt; shared.total(rt, &mut pass, 3, 0).is_none());
    turns.raise();
    pass
}

/// Lets three callers play in three threads: two look, the first commits, the third edits and asks, and the second commits too
/// late.
fn in_three_threads<B: FillBook + Send>(
    rt: &(impl Abort + Threads + Wait + Sync),
    alloc: Global,
    shared: &Shared<B>,
    passes: (PassOf<B>, PassOf<B>, PassOf<B>),
    turns: &Count,
    edit: Edit,
) -> (PassOf<B>, PassOf<B>, PassOf<B>)
    requires { AllParts B.Calls.parts B.Placed.parts B.Withdrawn.parts }
{
    let (first, second, third) = passes;
    let placed = Reply::Placed(16);
    let stale = Reply::Stale { at: 1 };
    let ((first, second), third) = thread::join(
        rt,
        || -> (PassOf<B>, PassOf<B>)
            requires { AllParts B.Calls.parts B.Placed.parts B.Withdrawn.parts }
        {
            thread::join(
                rt,
                || -> PassOf<B>
                    requires { AllParts B.Calls.parts B.Placed.parts B.Withdrawn.parts }
                { look_and_commit(rt, alloc, shared, first, turns, (0, 0, 2), placed) },
                || -> PassOf<B>
                    requires { AllParts B.Calls.parts B.Placed.parts B.Withdrawn.parts }
                { look_and_commit(rt, alloc, shared, second, turns, (1, 1, 4), stale) },
            )
        },
        || -> PassOf<B>
            requires { AllParts B.Calls.parts B.Placed.parts B.Withdrawn.parts }
        { edit_and_ask(rt, alloc, shared, third, turns, 3, edit) },
    );
    (first, second, third)
}

/// Three callers play in three threads, and the book is closed with one pass missing and then with all.
fn three_passes<B: FillBook + Send>(
    rt: &(impl Abort + Threads + Wait + Sync),
    alloc: Global,
    book: B,
    pass: PassOf<B>,
) -> Result<(), Fail>
    requires ledgers { AllParts B.Calls.parts B.Placed.parts B.Withdrawn.parts }
    requires pass { pass.parts ≡ 1024 }
{
    let (shared, passes) = shared_by_three(rt, alloc, book, pass);
    let edit = added()?;
    let turns = Count::new();
    let (first, second, third) = in_three_threads(rt, alloc, &shared, passes, &turns, edit);
    assert!(rt; !turns.is_late());
    let (shared, passes) = refuse_to_close(rt, alloc, shared, first, second)?;
    close(rt, shared, passes, third, [3, 16, 1], 15)?;
    Ok(())
}

/// A fill is worked on alone, metal is added, and the next version is worked on.
fn fill_and_fill_again<B: FillBook>(
    rt: &(impl Abort + Wait),
    alloc: Global,
    book: B,
    pass: PassOf<B>,
) -> Result<(), Fail>
    requires ledgers { AllParts B.Calls.parts B.Placed.parts B.Withdrawn.parts }
    requires pass { pass.parts ≡ 1024 }
{
    let (shared, mut pass) = shared_alone(rt, alloc, book, pass);
    assert_work(rt, alloc, &shared, &mut pass, 0, WorkEnd::Tired);
    assert_work(
        rt,
        alloc,
        &shared,
        &mut pass,
        10,
        WorkEnd::Done { version: 0 },
    );
    let edit = added()?;
    assert_edit(rt, alloc, &shared, &mut pass, edit, Ok(Reply::Withdrawn(1)));
    assert_work(
        rt,
        alloc,
        &shared,
        &mut pass,
        10,
        WorkEnd::Done { version: 1 },
    );
    let book = close(rt, shared, Vec::new(alloc), pass, [19, 100, 1], 99)?;
    assert_placed_nothing(rt, &book, 10);
    Ok(())
}

/// A commit, an edit and a late commit are answered, and then the tiles are worked on.
fn work_after_calls<B: FillBook>(
    rt: &(impl Abort + Wait),
    alloc: Global,
    book: B,
    pass: PassOf<B>,
) -> Result<(), Fail>
    requires ledgers { AllParts B.Calls.parts B.Placed.parts B.Withdrawn.parts }
    requires pass { pass.parts ≡ 1024 }
{
    let (shared, mut pass) = shared_alone(rt, alloc, book, pass);
    let first = proposal_from(rt, alloc, &shared, &mut pass, 0);
    let late = proposal_from(rt, alloc, &shared, &mut pass, 1);
    assert!(rt; shared.commit(rt, alloc, &mut pass, &first) == Ok(Reply::Placed(16)));
    let edit = added()?;
    assert_edit(rt, alloc, &shared, &mut pass, edit, Ok(Reply::Withdrawn(1)));
    assert!(rt; shared.commit(rt, alloc, &mut pass, &late) == Ok(Reply::Stale { at: 1 }));
    assert_work(rt, alloc, &shared, &mut pass, 9, WorkEnd::Tired);
    assert_work(
        rt,
        alloc,
        &shared,
        &mut pass,
        1,
        WorkEnd::Done { version: 1 },
    );
    close(rt, shared, Vec::new(alloc), pass, [12, 100, 1], 99)?;
    Ok(())
}

/// The proposal of a book of other metal is foreign, and one that was answered comes too late.
fn foreign_and_already<B: FillBook>(
    rt: &(impl Abort + Wait),
    alloc: Global,
    book: B,
    pass: PassOf<B>,
    foreign: &Proposal,
) -> Result<(), Fail>
    requires ledgers { AllParts B.Calls.parts B.Placed.parts B.Withdrawn.parts }
    requires pass { pass.parts ≡ 1024 }
{
    let (shared, mut pass) = shared_alone(rt, alloc, book, pass);
    let own = proposal_from(rt, alloc, &shared, &mut pass, 0);
    assert!(rt; shared.commit(rt, alloc, &mut pass, foreign) == Ok(Reply::Foreign));
    assert!(rt; shared.commit(rt, alloc, &mut pass, &own) == Ok(Reply::Placed(16)));
    assert!(rt; shared.commit(rt, alloc, &mut pass, &own) == Ok(Reply::Already));
    close(rt, shared, Vec::new(alloc), pass, [3, 16, 0], 16)?;
    Ok(())
}

/// Asserts that the entries from one on are commits that filled no place.
fn assert_placed_nothing<B: FillBook>(rt: &impl Abort, book: &B, from: usize) {
    for entry in book.history().entries().iter().skip(from) {
        assert_eq!(rt; entry.reply, Reply::Placed(0));
    }
}

/// A history of one event takes one commit of a worker, and then no edit.
fn one_event<B: FillBook>(
    rt: &(impl Abort + Wait),
    alloc: Global,
    book: B,
    pass: PassOf<B>,
) -> Result<(), Fail>
    requires ledgers { AllParts B.Calls.parts B.Placed.parts B.Withdrawn.parts }
    requires pass { pass.parts ≡ 1024 }
{
    let (shared, mut pass) = shared_alone(rt, alloc, book, pass);
    assert_work(rt, alloc, &shared, &mut pass, 5, WorkEnd::Full);
    let edit = added()?;
    assert_edit(
        rt,
        alloc,
        &shared,
        &mut pass,
        edit,
        Err(BookError::HistoryFull),
    );
    close(rt, shared, Vec::new(alloc), pass, [1, 16, 0], 16)?;
    Ok(())
}

/// Where there is room for no box, there is nothing to do.
fn no_tile<B: FillBook>(
    rt: &(impl Abort + Wait),
    alloc: Global,
    book: B,
    pass: PassOf<B>,
) -> Result<(), Fail>
    requires ledgers { AllParts B.Calls.parts B.Placed.parts B.Withdrawn.parts }
    requires pass { pass.parts ≡ 1024 }
{
    let (shared, mut pass) = shared_alone(rt, alloc, book, pass);
    assert_work(
        rt,
        alloc,
        &shared,
        &mut pass,
        1,
        WorkEnd::Done { version: 0 },
    );
    close(rt, shared, Vec::new(alloc), pass, [0, 0, 0], 0)?;
    Ok(())
}

/// What is done with a book.
#[derive(Clone, Copy)]
enum Case {
    ThreePasses,
    FillAgain,
    AfterCalls,
    ForeignAndAlready,
    OneEvent,
    NoTile,
    TwoWorkers,
    EditsBeside,
    LateEdit,
    NoTurns,
    ThreeEvents,
    ThreeWorkers,
    TwoRounds,
    TwoEvents,
    EightStale,
    DoneBeside,
    TiredBeside,
    FiftyEdits,
    SixtyFour,
    EightWorkers,
    FourActors,
    RefusedCalls,
    RefusedRun,
}

impl Case {
    /// The book's frame, and how long its history may be.
    fn terms(self) -> Terms {
        match self {
            Case::NoTile => Terms {
                frame: NO_PLACES,
                ..USUAL_TERMS
            },
            Case::OneEvent => Terms {
                max_events: 1,
                ..USUAL_TERMS
            },
            Case::ThreeEvents => Terms {
                max_events: 3,
                ..USUAL_TERMS
            },
            Case::TwoEvents => Terms {
                max_events: 2,
                ..USUAL_TERMS
            },
            _ => USUAL_TERMS,
        }
    }
}

/// Plays a case with a book.
fn play<B: FillBook + Send>(
    rt: &(impl Abort + Threads + Wait + Sync),
    alloc: Global,
    book: B,
    pass: PassOf<B>,
    case: Case,
) -> Result<(), Fail>
    requires ledgers { AllParts B.Calls.parts B.Placed.parts B.Withdrawn.parts }
    requires pass { pass.parts ≡ 1024 }
{
    match case {
        Case::ThreePasses => three_passes(rt, alloc, book, pass),
        Case::FillAgain => fill_and_fill_again(rt, alloc, book, pass),
        Case::AfterCalls => work_after_calls(rt, alloc, book, pass),
        Case::ForeignAndAlready => {
            let foreign = offered(rt, alloc, Design::of_metal(&[[10, 10, 21, 20]]))?;
            foreign_and_already(rt, alloc, book, pass, &foreign)
        }
        Case::OneEvent => one_event(rt, alloc, book, pass),
        Case::NoTile => no_tile(rt, alloc, book, pass),
        Case::TwoWorkers => two_workers(rt, alloc, book, pass),
        Case::EditsBeside => edits_beside_a_worker(rt, alloc, book, pass),
        Case::LateEdit => late_edit(rt, alloc, book, pass),
        Case::NoTurns => {
            no_turns(rt, alloc, book, pass);
            Ok(())
        }
        Case::ThreeEvents => {
            three_events(rt, alloc, book, pass);
            Ok(())
        }
        Case::ThreeWorkers => three_workers(rt, alloc, book, pass),
        Case::TwoRounds => two_rounds(rt, alloc, book, pass),
        Case::TwoEvents => two_events(rt, alloc, book, pass),
        _ => storm(rt, alloc, book, pass, case),
    }
}

/// Plays a storm with a book.
fn storm<B: FillBook + Send>(
    rt: &(impl Abort + Threads + Wait + Sync),
    alloc: Global,
    book: B,
    pass: PassOf<B>,
    case: Case,
) -> Result<(), Fail>
    requires ledgers { AllParts B.Calls.parts B.Placed.parts B.Withdrawn.parts }
    requires pass { pass.parts ≡ 1024 }
{
    match case {
        Case::EightStale => eight_stale(rt, alloc, book, pass),
        Case::DoneBeside => done_beside_an_edit(rt, alloc, book, pass),
        Case::TiredBeside => tired_beside_an_edit(rt, alloc, book, pass),
        Case::FiftyEdits => fifty_edits(rt, alloc, book, pass),
        Case::SixtyFour => {
            sixty_four_workers(rt, alloc, book, pass);
            Ok(())
        }
        Case::EightWorkers => {
            eight_workers(rt, alloc, book, pass);
            Ok(())
        }
        Case::FourActors => four_actors(rt, alloc, book, pass),
        Case::RefusedCalls => shared_calls(rt, alloc, book, pass),
        Case::RefusedRun => refused_run(rt, alloc, book, pass),
        _ => panic!(rt; "the case is no storm"),
    }
}

/// Opens a book for a case and plays it.
fn open_and_play<C: Opened + Send + Sync, P: Ledger + Send + Sync, W: Ledger + Send + Sync>(
    rt: &(impl Abort + Threads + Wait + Sync),
    alloc: Global,
    calls: Blank,
    placed: Blank,
    withdrawn: Blank,
    opening: Opening,
    rules: Rules,
    most: u64,
    case: Case,
) -> Result<(), Fail>
    requires names { (calls.name ≡ C.name) × (placed.name ≡ P.name) × (withdrawn.name ≡ W.name) }
    requires parts { (calls.parts ≡ C.parts) × (placed.parts ≡ P.parts) × (withdrawn.parts ≡ W.parts) }
    requires all { AllParts C.parts P.parts W.parts }
    requires most { most ≤ 2 ^ 32 }
    requires terms { record { rules = values_of rules; opening = opening.metal; existing = opening.fill; keep = opening.keep; most = most } ≡ C.terms }
{
    let (book, pass) = Book::<C, P, W>::open(
        rt, alloc, calls, placed, withdrawn, opening, rules, most,
    )?;
    play(rt, alloc, book, pass, case)
}

/// Plays a case in a book with ledgers of its own.
fn play_by(
    rt: &(impl Abort + Threads + Wait + Sync),
    alloc: Global,
    case: Case,
) -> Result<(), Fail> {
    let Terms { frame, max_events } = case.terms();
    open_and_play::<Brand, Brand, Brand>(
        rt,
        alloc,
        Blank::new(1024),
        Blank::new(1024),
        Blank::new(1024),
        NOTHING.opening(alloc)?,
        rules_in(alloc, frame)?,
        u64::from(max_events),
        case,
    )
}

#[test]
fn three_callers_in_three_threads(rt: HostRuntime) -> Result<(), Fail> {
    play_by(&rt, rt.alloc(), Case::ThreePasses)
}

#[test]
fn a_worker_fills_and_fills_again(rt: HostRuntime) -> Result<(), Fail> {
    play_by(&rt, rt.alloc(), Case::FillAgain)
}

#[test]
fn a_worker_works_after_other_calls(rt: HostRuntime) -> Result<(), Fail> {
    play_by(&rt, rt.alloc(), Case::AfterCalls)
}

#[test]
fn a_foreign_and_a_repeated_proposal_are_told(rt: HostRuntime) -> Result<(), Fail> {
    play_by(&rt, rt.alloc(), Case::ForeignAndAlready)
}

#[test]
fn a_full_history_ends_the_work(rt: HostRuntime) -> Result<(), Fail> {
    play_by(&rt, rt.alloc(), Case::OneEvent)
}

#[test]
fn a_raster_without_places_is_done(rt: HostRuntime) -> Result<(), Fail> {
    play_by(&rt, rt.alloc(), Case::NoTile)
}

#[test]
fn two_workers_work_at_once(rt: HostRuntime) -> Result<(), Fail> {
    play_by(&rt, rt.alloc(), Case::TwoWorkers)
}

#[test]
fn an_editor_edits_beside_a_worker(rt: HostRuntime) -> Result<(), Fail> {
    play_by(&rt, rt.alloc(), Case::EditsBeside)
}

#[test]
fn a_late_edit_is_made_once(rt: HostRuntime) -> Result<(), Fail> {
    play_by(&rt, rt.alloc(), Case::LateEdit)
}

#[test]
fn a_run_without_turns_is_unfinished(rt: HostRuntime) -> Result<(), Fail> {
    play_by(&rt, rt.alloc(), Case::NoTurns)
}

#[test]
fn a_run_into_a_full_history_is_unfinished(rt: HostRuntime) -> Result<(), Fail> {
    play_by(&rt, rt.alloc(), Case::ThreeEvents)
}

#[test]
fn workers_begin_at_their_tiles_and_edits_are_numbered(rt: HostRuntime) -> Result<(), Fail> {
    play_by(&rt, rt.alloc(), Case::ThreeWorkers)
}

#[test]
fn a_second_round_is_by_all_workers(rt: HostRuntime) -> Result<(), Fail> {
    play_by(&rt, rt.alloc(), Case::TwoRounds)
}

#[test]
fn a_history_too_short_for_the_edits_is_unfinished(rt: HostRuntime) -> Result<(), Fail> {
    play_by(&rt, rt.alloc(), Case::TwoEvents)
}

#[test]
fn eight_late_proposals_change_nothing(rt: HostRuntime) -> Result<(), Fail> {
    play_by(&rt, rt.alloc(), Case::EightStale)
}

#[test]
fn a_worker_beside_an_edit_is_done_or_tired(rt: HostRuntime) -> Result<(), Fail> {
    play_by(&rt, rt.alloc(), Case::DoneBeside)?;
    play_by(&rt, rt.alloc(), Case::TiredBeside)
}

#[test]
fn fifty_edits_beside_four_workers(rt: HostRuntime) -> Result<(), Fail> {
    play_by(&rt, rt.alloc(), Case::FiftyEdits)
}

#[test]
fn sixty_four_workers_fill_a_hundred_places(rt: HostRuntime) -> Result<(), Fail> {
    play_by(&rt, rt.alloc(), Case::SixtyFour)
}

#[test]
fn eight_workers_work_at_once(rt: HostRuntime) -> Result<(), Fail> {
    play_by(&rt, rt.alloc(), Case::EightWorkers)
}

#[test]
fn a_history_has_what_four_threads_did(rt: HostRuntime) -> Result<(), Fail> {
    play_by(&rt, rt.alloc(), Case::FourActors)
}

#[test]
fn a_shared_book_is_as_it_was_where_memory_is_refused(rt: HostRuntime) -> Result<(), Fail> {
    play_by(&rt, rt.alloc(), Case::RefusedCalls)
}

#[test]
fn a_run_is_complete_or_tells_of_want_of_memory(rt: HostRuntime) -> Result<(), Fail> {
    play_by(&rt, rt.alloc(), Case::RefusedRun)
}
