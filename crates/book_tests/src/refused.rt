//! Calls that are refused memory, and are made again. In the gate none is refused: `tools/refuse.py` runs each of these tests over and
//! over, and refuses another growth each time.
ghost use Rattle.std.specs.Prelude.{◌≡◌};
ghost use Rattle.fill_core.specs.Shares.{AllParts};

use crate::book::{
    Case, Design, HUNDRED_PLACES, Kind, NINE_WINDOWS, Step, bring, offered, rules_of,
    run as run_case, run_in, total_of, usual_rules,
};
use crate::cases::{added, close};
use fill_core::{BookError, Edit, FillBook, Pass, Reply};
use fill_job::Proposal;
use fill_shared::{Look, NotOpened, OpenGate, PassOf, RunError, Shared, WorkEnd, run, work};
use std::alloc::Global;
use std::process::Abort;
use std::sync::Wait;
use std::test::Fail;
use std::thread::Threads;

/// More bytes than there are: a growth of so many, which is refused, tells that those behind it count.
const BEGIN: usize = 1 << 46;

/// The same tells that they count no more.
const END: usize = (1 << 46) + 1;

/// From here on growths count.
pub(crate) fn begin(alloc: Global) {
    let _ = Vec::<u8>::with_capacity(alloc, BEGIN);
}

/// From here on they don't.
pub(crate) fn end(alloc: Global) {
    let _ = Vec::<u8>::with_capacity(alloc, END);
}

/// What a book and its pass tell.
#[derive(Clone, Copy, Debug, PartialEq, Eq)]
struct Told {
    version: u64,
    events: u64,
    boxes: u32,
    next: Option<u32>,
    counted: [u64; 3],
    totals: i64,
}

/// What a book and its pass tell now.
fn state_of<B: FillBook>(
    rt: &impl Abort,
    book: &B,
    pass: &Pass<B::Calls, B::Placed, B::Withdrawn>,
) -> Told {
    let windows = book.rules().windows();
    let mut totals = 0i64;
    for b in 0..windows.rows() {
        for a in 0..windows.columns() {
            totals = totals
                .wrapping_mul(10_007)
                .wrapping_add(total_of(rt, book, a, b));
        }
    }
    Told {
        version: book.version(),
        events: book.history().len(),
        boxes: book.count(),
        next: book.next(0),
        counted: [pass.calls(), pass.placed(), pass.withdrawn()],
        totals,
    }
}

/// The answer to a proposal. Where memory is refused, the book and the pass tell what they did, and the call is made again.
pub(crate) fn committed<B: FillBook>(
    rt: &impl Abort,
    alloc: Global,
    book: &mut B,
    pass: &mut Pass<B::Calls, B::Placed, B::Withdrawn>,
    proposal: &Proposal,
) -> Result<Reply, Fail> {
    let before = state_of(rt, book, pass);
    let mut reply = book.commit(alloc, pass, proposal);
    if reply == Err(BookError::Memory) {
        assert_eq!(rt; state_of(rt, book, pass), before);
        reply = book.commit(alloc, pass, proposal);
    }
    Ok(reply?)
}

/// The answer to an edit, in the same way.
pub(crate) fn edited<B: FillBook>(
    rt: &impl Abort,
    alloc: Global,
    book: &mut B,
    pass: &mut Pass<B::Calls, B::Placed, B::Withdrawn>,
    edit: Edit,
) -> Result<Reply, Fail> {
    let before = state_of(rt, book, pass);
    let mut reply = book.edit(alloc, pass, edit);
    if reply == Err(BookError::Memory) {
        assert_eq!(rt; state_of(rt, book, pass), before);
        reply = book.edit(alloc, pass, edit);
    }
    Ok(reply?)
}

/// A commit with each of its four answers, and an edit of each kind over existing fill, of windows that padding counts in or doesn't.
#[test]
fn a_book_is_as_it_was_where_memory_is_refused(rt: HostRuntime) -> Result<(), Fail> {
    let alloc = rt.alloc();
    for padding in ["zero", "ignore"] {
        let windows = format!(in alloc; "{NINE_WINDOWS}min,300000\npadding,{padding}\n")?;
        run_in(
            &rt,
            alloc,
            rules_of(alloc, HUNDRED_PLACES, windows.as_str())?,
            Design {
                metal: &[[80, 80, 84, 84]],
                fill: &[[19, 19, 21, 21]],
                keep: &[[50, 50, 60, 60]],
            },
            &[
                Step::Hold(0),
                Step::Begin,
                Step::Commit(1, Reply::Placed(16)),
                Step::Late(0, Reply::Placed(16)),
                Step::Late(0, Reply::Already),
                Step::Add([10, 10, 21, 20], 1),
                Step::Late(0, Reply::Stale { at: 1 }),
                Step::Cut([10, 10, 21, 20], 0),
                Step::Keep([10, 10, 21, 20], 0),
                Step::End,
                Step::Fill,
            ],
        )?;
    }
    Ok(())
}

/// The fourth answer.
#[test]
fn a_foreign_proposal_where_memory_is_refused(rt: HostRuntime) -> Result<(), Fail> {
    let steps = [
        Step::Begin,
        Step::Late(0, Reply::Foreign),
        Step::Commit(0, Reply::Placed(16)),
        Step::End,
        Step::Counts(16, 2),
    ];
    let other = Design::of_metal(&[[10, 10, 21, 20]]);
    bring(&rt, rt.alloc(), other, &steps)
}

/// A book on metal and existing fill, which share two squares, that brings a tile once it is open.
const OPENED: &[Step] = &[
    Step::End,
    Step::NineTotals([112, 0, 0, 0, 0, 0, 0, 0, 0]),
    Step::Commit(0, Reply::Placed(15)),
    Step::NineTotals([352, 96, 0, 96, 36, 0, 0, 0, 0]),
];

/// The case of that book.
fn opening(alloc: Global) -> Result<Case<'static>, Fail> {
    let design = Design {
        metal: &[[10, 10, 21, 20]],
        fill: &[[19, 19, 21, 21]],
        keep: &[],
    };
    Ok(Case {
        rules: usual_rules(alloc, 300_000)?,
        opening: design.opening(alloc)?,
        max_events: 10,
        held: Vec::new(alloc),
        steps: OPENED,
    })
}

/// Where memory is refused, the book is opened once more.
#[test]
fn a_book_opens_or_tells_of_want_of_memory(rt: HostRuntime) -> Result<(), Fail> {
    let alloc = rt.alloc();
    for kind in [Kind::Plain, Kind::Running] {
        let case = opening(alloc)?;
        begin(alloc);
        let opened = run_case(&rt, alloc, kind, case)?;
        end(alloc);
        assert!(rt; opened || run_case(&rt, alloc, kind, opening(alloc)?)?);
    }
    Ok(())
}

/// Commits alone, of which a book with running sums meets a growth each at most. The first proposal is of other metal.
#[test]
fn commits_where_memory_is_refused(rt: HostRuntime) -> Result<(), Fail> {
    let steps = [
        Step::Hold(1),
        Step::Hold(2),
        Step::Begin,
        Step::Late(1, Reply::Placed(16)),
        Step::Late(2, Reply::Placed(8)),
        Step::Late(1, Reply::Already),
        Step::Late(0, Reply::Foreign),
        Step::End,
        Step::Counts(24, 4),
    ];
    let other = Design::of_metal(&[[10, 10, 21, 20]]);
    bring(&rt, rt.alloc(), other, &steps)
}

/// Shares a book with one caller. Where memory is refused, book and pass are handed back and shared once more.
fn shared_again<B: FillBook>(
    rt: &impl Abort,
    alloc: Global,
    book: B,
    pass: PassOf<B>,
) -> (Shared<B>, PassOf<B>)
    requires { pass.parts ≡ 1024 }
{
    let before = state_of(rt, &book, &pass);
    let opened = match Shared::open(alloc, book, pass, 1) {
        Ok(opened) => Ok(opened),
        Err(NotOpened { book, pass }) => {
            assert_eq!(rt; state_of(rt, &book, &pass), before);
            Shared::open(alloc, book, pass, 1)
        }
    };
    let Ok((shared, mut passes)) = opened else {
        panic!(rt; "memory was refused twice");
    };
    let Some(pass) = passes.pop() else {
        panic!(rt; "a caller has no pass");
    };
    (shared, pass)
}

/// What a shared book tells of its first window: version, events and total; and the pass's calls.
fn seen<B: FillBook>(
    rt: &(impl Abort + Wait),
    shared: &Shared<B>,
    pass: &mut PassOf<B>,
) -> (u64, u64, i64, u64)
    requires { AllParts B.Calls.parts B.Placed.parts B.Withdrawn.parts }
{
    match shared.total(rt, pass, 0, 0) {
        Some(seen) => (seen.version, seen.events, seen.total, pass.calls()),
        None => panic!(rt; "a window is missing"),
    }
}

/// The proposal of the next tile from a tile on. A refused look is made again, and so is a refused proposal.
fn proposed<B: FillBook>(
    rt: &(impl Abort + Wait),
    alloc: Global,
    shared: &Shared<B>,
    pass: &mut PassOf<B>,
    from: u32,
) -> Proposal
    requires { AllParts B.Calls.parts B.Placed.parts B.Withdrawn.parts }
{
    let before = seen(rt, shared, pass);
    let mut look = shared.look(rt, alloc, pass, from);
    if look.is_err() {
        assert_eq!(rt; seen(rt, shared, pass), before);
        look = shared.look(rt, alloc, pass, from);
    }
    let Ok(Look::Work(job)) = look else {
        panic!(rt; "no work from tile {from}");
    };
    let proposal = match job.propose(alloc) {
        Ok(proposal) => Ok(proposal),
        Err(job) => job.propose(alloc),
    };
    let Ok(proposal) = proposal else {
        panic!(rt; "memory was refused twice");
    };
    proposal
}

/// Asserts the answer to a proposal; where memory is refused, nothing is written, and the call is made again.
fn assert_commit<B: FillBook>(
    rt: &(impl Abort + Wait),
    alloc: Global,
    shared: &Shared<B>,
    pass: &mut PassOf<B>,
    proposal: &Proposal,
    want: Reply,
)
    requires { AllParts B.Calls.parts B.Placed.parts B.Withdrawn.parts }
{
    let before = seen(rt, shared, pass);
    let mut reply = shared.commit(rt, alloc, pass, proposal);
    if reply == Err(BookError::Memory) {
        assert_eq!(rt; seen(rt, shared, pass), before);
        reply = shared.commit(rt, alloc, pass, proposal);
    }
    assert!(rt; reply == Ok(want));
}

/// Asserts that an edit takes out so many boxes, in the same way.
fn assert_edit<B: FillBook>(
    rt: &(impl Abort + Wait),
    alloc: Global,
    shared: &Shared<B>,
    pass: &mut PassOf<B>,
    edit: Edit,
    want: u32,
)
    requires { AllParts B.Calls.parts B.Placed.parts B.Withdrawn.parts }
{
    let before = seen(rt, shared, pass);
    let mut reply = shared.edit(rt, alloc, pass, edit);
    if reply == Err(BookError::Memory) {
        assert_eq!(rt; seen(rt, shared, pass), before);
        reply = shared.edit(rt, alloc, pass, edit);
    }
    assert!(rt; reply == Ok(Reply::Withdrawn(want)));
}

/// Lets a worker work; where memory is refused it stops with the calls that were written, and a second worker goes on.
fn assert_done<B: FillBook>(
    rt: &(impl Abort + Wait),
    alloc: Global,
    shared: &Shared<B>,
    pass: &mut PassOf<B>,
    version: u64,
)
    requires { AllParts B.Calls.parts B.Placed.parts B.Withdrawn.parts }
{
    let mut ended = work(rt, alloc, shared, pass, 0, 0, &OpenGate, 20);
    if ended == WorkEnd::Memory {
        let (_, events, _, calls) = seen(rt, shared, pass);
        assert_eq!(rt; events, calls);
        ended = work(rt, alloc, shared, pass, 0, 0, &OpenGate, 20);
    }
    assert_eq!(rt; ended, WorkEnd::Done { version });
}

/// Each call of a shared book.
pub(crate) fn shared_calls<B: FillBook>(
    rt: &(impl Abort + Threads + Wait + Sync),
    alloc: Global,
    book: B,
    pass: PassOf<B>,
) -> Result<(), Fail>
    requires ledgers { AllParts B.Calls.parts B.Placed.parts B.Withdrawn.parts }
    requires pass { pass.parts ≡ 1024 }
{
    let foreign = offered(rt, alloc, Design::of_metal(&[[10, 10, 21, 20]]))?;
    let edit = added()?;
    let passes = Vec::with_capacity(alloc, 1)?;
    begin(alloc);
    let (shared, mut pass) = shared_again(rt, alloc, book, pass);
    assert_commit(rt, alloc, &shared, &mut pass, &foreign, Reply::Foreign);
    let proposal = proposed(rt, alloc, &shared, &mut pass, 0);
    assert_commit(rt, alloc, &shared, &mut pass, &proposal, Reply::Placed(16));
    assert_commit(rt, alloc, &shared, &mut pass, &proposal, Reply::Already);
    assert_edit(rt, alloc, &shared, &mut pass, edit, 1);
    assert_commit(
        rt,
        alloc,
        &shared,
        &mut pass,
        &proposal,
        Reply::Stale { at: 1 },
    );
    assert_done(rt, alloc, &shared, &mut pass, 1);
    end(alloc);
    close(rt, shared, passes, pass, [14, 100, 1], 99)?;
    Ok(())
}

/// A run with an edit ends complete, or for want of memory.
pub(crate) fn refused_run<B: FillBook + Send>(
    rt: &(impl Abort + Threads + Wait + Sync),
    alloc: Global,
    book: B,
    pass: PassOf<B>,
) -> Result<(), Fail>
    requires ledgers { AllParts B.Calls.parts B.Placed.parts B.Withdrawn.parts }
    requires pass { pass.parts ≡ 1024 }
{
    let edits = [added()?];
    begin(alloc);
    let ran = run(rt, alloc, book, pass, &edits, 2, &OpenGate, 20);
    end(alloc);
    match ran {
        Ok((book, pass)) => {
            assert!(rt; book.is_complete());
            assert_eq!(rt; (book.version(), book.count()), (1, 99));
            assert_eq!(rt; pass.calls(), book.history().len());
        }
        Err(error) => match error {
            RunError::Memory => {}
            RunError::Mixed { .. } => panic!(rt; "the run is told as mixed"),
            RunError::Unfinished { .. } => panic!(rt; "the run is told as unfinished"),
        },
    }
    Ok(())
}
