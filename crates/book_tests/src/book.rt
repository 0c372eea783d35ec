//! Both books, what is done with them step by step, and what must come of it.
ghost use Rattle.std.specs.Prelude.{◌≡◌, ◌≤◌, ◌^◌};
ghost use Rattle.fill_text.specs.ValuesOfRules.{values_of};
ghost use Rattle.fill_core.specs.Shares.{AllParts};

use crate::refused::{begin, committed, edited, end};
use fill_base::{Place, Rect};
use fill_book::{Book, Opening, PlainBook};
use fill_core::{BookError, Edit, FillBook, Opened, Pass, Reply};
use fill_job::Proposal;
use fill_region::Region;
use fill_text::{Rules, read_rules};
use std::alloc::Global;
use std::marker::Brand;
use std::process::Abort;
use std::sync::ledger::{Blank, Ledger};
use std::test::Fail;
use std::thread::Threads;

/// Boxes of 4 by 4 that keep a gap of two to metal, in tiles of four by four places.
pub(crate) const BOXES: &str = "box_w,4
box_h,4
spacing,2
tile_nx,4
tile_ny,4
layer,7
datatype,0
fill_layer,10
fill_datatype,1
top,TOP
fill_lib,FILL
fill_cell,BOX4
fill_top,FILLTOP
max,800000
";

/// Ten by ten places at steps of 10.
pub(crate) const HUNDRED_PLACES: &str = "frame_x1,0
frame_y1,0
frame_x2,100
frame_y2,100
step_x,10
step_y,10
origin_x,3
origin_y,3
fill_spacing,2
";

/// Twenty-five by twenty-five boxes that touch one another.
pub(crate) const TOUCHING_BOXES: &str = "frame_x1,0
frame_y1,0
frame_x2,100
frame_y2,100
step_x,4
step_y,4
origin_x,0
origin_y,0
fill_spacing,0
";

/// A frame that has room for no box.
pub(crate) const NO_PLACES: &str = "frame_x1,0
frame_y1,0
frame_x2,5
frame_y2,5
step_x,10
step_y,10
origin_x,3
origin_y,3
fill_spacing,2
";

/// A thousand and twenty-four by as many places.
pub(crate) const MILLION_PLACES: &str = "frame_x1,0
frame_y1,0
frame_x2,10240
frame_y2,10240
step_x,10
step_y,10
origin_x,3
origin_y,3
fill_spacing,2
";

/// Nine windows of 50 by 50 at steps of 25; the least share is left out.
pub(crate) const NINE_WINDOWS: &str = "win_w,50
win_h,50
win_step_x,25
win_step_y,25
win_x,0
win_y,0
win_nx,3
win_ny,3
";

/// One window over all that is low below 500 squares.
pub(crate) const ONE_WINDOW: &str = "win_w,100
win_h,100
win_step_x,100
win_step_y,100
win_x,0
win_y,0
win_nx,1
win_ny,1
min,50000
";

/// The rules with these places and windows.
pub(crate) fn rules_of(alloc: Global, places: &str, windows: &str) -> Result<Rules, Fail> {
    let text = format!(in alloc; "{BOXES}{places}{windows}")?;
    Ok(read_rules(alloc, text.as_bytes())?)
}

/// A hundred places, and nine windows with this least share.
pub(crate) fn usual_rules(alloc: Global, least: u32) -> Result<Rules, Fail> {
    let windows = format!(in alloc; "{NINE_WINDOWS}min,{least}\n")?;
    rules_of(alloc, HUNDRED_PLACES, windows.as_str())
}

/// The rectangle with these left, bottom, right and upper edges.
pub(crate) fn rect_of(corners: [i64; 4]) -> Result<Rect, Fail> {
    let [x1, y1, x2, y2] = corners;
    Ok(Rect::new(x1, y1, x2, y2)?)
}

/// The rectangles that a design draws.
#[derive(Clone, Copy)]
pub(crate) struct Design<'a> {
    pub(crate) metal: &'a [[i64; 4]],
    pub(crate) fill: &'a [[i64; 4]],
    pub(crate) keep: &'a [[i64; 4]],
}

/// A design that draws nothing.
pub(crate) const NOTHING: Design<'static> = Design {
    metal: &[],
    fill: &[],
    keep: &[],
};

impl<'a> Design<'a> {
    /// The design that draws metal alone.
    pub(crate) fn of_metal(metal: &'a [[i64; 4]]) -> Design<'a> {
        Design { metal, ..NOTHING }
    }

    /// The design that draws existing fill alone.
    pub(crate) fn of_fill(fill: &'a [[i64; 4]]) -> Design<'a> {
        Design { fill, ..NOTHING }
    }

    /// The design that draws keep-outs alone.
    pub(crate) fn of_keep(keep: &'a [[i64; 4]]) -> Design<'a> {
        Design { keep, ..NOTHING }
    }

    /// What a book of the design opens on.
    pub(crate) fn opening(self, alloc: Global) -> Result<Opening, Fail> {
        Ok(Opening {
            metal: region_of(alloc, self.metal)?,
            fill: region_of(alloc, self.fill)?,
            keep: region_of(alloc, self.keep)?,
        })
    }
}

/// One thing that is done with a book, or asked of it, with what must come of it.
#[derive(Clone, Copy)]
pub(crate) enum Step {
    /// A proposal of a tile is made and committed.
    Commit(u32, Reply),
    /// A proposal of a tile is made and laid aside.
    Hold(u32),
    /// A proposal that was laid aside is committed.
    Late(usize, Reply),
    /// Tile after tile is committed until none is left.
    Fill,
    /// A rectangle is added, which takes out so many boxes.
    Add([i64; 4], u32),
    /// A rectangle is cut out, which takes out so many boxes.
    Cut([i64; 4], u32),
    /// Boxes are to keep out of a rectangle from now on, which takes out so many of them.
    Keep([i64; 4], u32),
    /// The history is full: for a proposal that was laid aside, and for an edit.
    Full(usize),
    /// The total of a window.
    Total(u32, u32, i64),
    /// The total of each window is the same.
    Totals(i64),
    /// The totals of three by three windows, row by row.
    NineTotals([i64; 9]),
    /// The area of metal and existing fill in a window.
    Drawn(u32, u32, i64),
    /// Just these of a hundred places are empty.
    Empty(&'static [Place]),
    /// How many places are filled, and how many calls were answered.
    Counts(u32, u64),
    /// The version, and whether it is complete.
    Version(u64, bool),
    /// From here on growths count.
    Begin,
    /// From here on they don't.
    End,
}

/// The proposal of a tile. A job or a proposal that is refused memory is asked for again.
pub(crate) fn proposal_of<B: FillBook>(
    rt: &impl Abort,
    alloc: Global,
    book: &B,
    tile: u32,
) -> Result<Proposal, Fail> {
    if tile >= book.rules().raster().tiles() {
        panic!(rt; "no tile {tile}");
    }
    let job = match book.job(alloc, tile) {
        Ok(job) => job,
        Err(_) => book.job(alloc, tile)?,
    };
    let proposal = match job.propose(alloc) {
        Ok(proposal) => Ok(proposal),
        Err(job) => job.propose(alloc),
    };
    let Ok(proposal) = proposal else {
        panic!(rt; "memory was refused twice");
    };
    Ok(proposal)
}

/// The total of a window.
pub(crate) fn total_of<B: FillBook>(rt: &impl Abort, book: &B, a: u32, b: u32) -> i64 {
    let windows = book.rules().windows();
    if a >= windows.columns() || b >= windows.rows() {
        panic!(rt; "no window {a}, {b}");
    }
    book.total(a, b)
}

/// The area of metal and existing fill in a window.
pub(crate) fn drawn_of<B: FillBook>(rt: &impl Abort, book: &B, a: u32, b: u32) -> i64 {
    let windows = book.rules().windows();
    if a >= windows.columns() || b >= windows.rows() {
        panic!(rt; "no window {a}, {b}");
    }
    book.drawn(a, b)
}

/// Asserts that each window has this total.
pub(crate) fn assert_totals<B: FillBook>(rt: &impl Abort, book: &B, want: i64) {
    let windows = book.rules().windows();
    for b in 0..windows.rows() {
        for a in 0..windows.columns() {
            assert_eq!(rt; total_of(rt, book, a, b), want, "window {a}, {b}");
        }
    }
}

/// Asserts that three by three windows have these totals, row by row.
pub(crate) fn assert_nine_totals<B: FillBook>(rt: &impl Abort, book: &B, want: [i64; 9]) {
    for k in 0..9u32 {
        let total = total_of(rt, book, k % 3, k / 3);
        assert_eq!(rt; want.get(k as usize).copied(), Some(total), "window {k}");
    }
}

/// Asserts that just these of ten by ten places are empty.
pub(crate) fn assert_empty<B: FillBook>(rt: &impl Abort, book: &B, empty: &[Place]) {
    let raster = book.rules().raster();
    for k in 0..100i64 {
        let place = Place {
            i: k % 10,
            j: k / 10,
        };
        let filled = raster.has(place) && book.has(place);
        let wanted = !empty.iter().any(|other| *other == place);
        assert_eq!(rt; filled, wanted, "place {k}");
    }
}

/// The proposal that was laid aside at `k`.
pub(crate) fn held_at<'a>(rt: &impl Abort, held: &'a [Proposal], k: usize) -> &'a Proposal {
    match held.get(k) {
        Some(proposal) => proposal,
        None => panic!(rt; "no proposal {k}"),
    }
}

/// Commits tile after tile until none is left.
pub(crate) fn fill_all<B: FillBook>(
    rt: &impl Abort,
    alloc: Global,
    book: &mut B,
    pass: &mut Pass<B::Calls, B::Placed, B::Withdrawn>,
) -> Result<(), Fail> {
    for _ in 0..book.rules().raster().tiles() {
        if let Some(tile) = book.next(0) {
            let proposal = proposal_of(rt, alloc, book, tile)?;
            book.commit(alloc, pass, &proposal)?;
        }
    }
    assert_eq!(rt; book.next(0), None);
    Ok(())
}

/// Asserts that the history takes neither a commit nor an edit.
pub(crate) fn assert_full<B: FillBook>(
    rt: &impl Abort,
    alloc: Global,
    book: &mut B,
    pass: &mut Pass<B::Calls, B::Placed, B::Withdrawn>,
    proposal: &Proposal,
) -> Result<(), Fail> {
    let full = Err(BookError::HistoryFull);
    assert!(rt; book.commit(alloc, pass, proposal) == full);
    let edit = Edit::Add(rect_of([10, 10, 21, 20])?);
    assert!(rt; book.edit(alloc, pass, edit) == full);
    Ok(())
}

/// Asserts what a book tells of itself.
pub(crate) fn assert_told<B: FillBook>(rt: &impl Abort, book: &B, step: Step) {
    match step {
        Step::Total(a, b, want) => assert_eq!(rt; total_of(rt, book, a, b), want),
        Step::Totals(want) => assert_totals(rt, book, want),
        Step::NineTotals(want) => assert_nine_totals(rt, book, want),
        Step::Drawn(a, b, want) => assert_eq!(rt; drawn_of(rt, book, a, b), want),
        Step::Empty(places) => assert_empty(rt, book, places),
        Step::Version(version, complete) => {
            assert_eq!(rt; book.version(), version);
            assert_eq!(rt; book.is_complete(), complete);
        }
        _ => panic!(rt; "no question"),
    }
}

/// Takes a step.
pub(crate) fn take<B: FillBook>(
    rt: &impl Abort,
    alloc: Global,
    book: &mut B,
    pass: &mut Pass<B::Calls, B::Placed, B::Withdrawn>,
    held: &mut Vec<Proposal>,
    step: Step,
) -> Result<(), Fail> {
    match step {
        Step::Commit(tile, want) => {
            let proposal = proposal_of(rt, alloc, book, tile)?;
            assert_eq!(rt; committed(rt, alloc, book, pass, &proposal)?, want);
        }
        Step::Hold(tile) => held.push(proposal_of(rt, alloc, book, tile)?)?,
        Step::Late(k, want) => {
            let proposal = held_at(rt, held, k);
            assert_eq!(rt; committed(rt, alloc, book, pass, proposal)?, want);
        }
        Step::Fill => fill_all(rt, alloc, book, pass)?,
        Step::Add(corners, want) => {
            let edit = Edit::Add(rect_of(corners)?);
            assert_eq!(rt;
                edited(rt, alloc, book, pass, edit)?,
                Reply::Withdrawn(want)
            );
        }
        Step::Cut(corners, want) => {
            let edit = Edit::Cut(rect_of(corners)?);
            assert_eq!(rt;
                edited(rt, alloc, book, pass, edit)?,
                Reply::Withdrawn(want)
            );
        }
        Step::Keep(corners, want) => {
            let edit = Edit::Keep(rect_of(corners)?);
            assert_eq!(rt;
                edited(rt, alloc, book, pass, edit)?,
                Reply::Withdrawn(want)
            );
        }
        Step::Begin => begin(alloc),
        Step::End => end(alloc),
        Step::Full(k) => assert_full(rt, alloc, book, pass, held_at(rt, held, k))?,
        Step::Counts(places, calls) => {
            assert_eq!(rt; (book.count(), pass.calls()), (places, calls));
            assert_eq!(rt; book.history().len(), calls);
        }
        question => assert_told(rt, book, question),
    }
    Ok(())
}

/// A book's opening, and what is done with it.
#[derive(Drop)]
pub(crate) struct Case<'a> {
    pub(crate) rules: Rules,
    pub(crate) opening: Opening,
    pub(crate) max_events: u32,
    pub(crate) held: Vec<Proposal>,
    pub(crate) steps: &'a [Step],
}

/// Which of the two books.
#[derive(Clone, Copy)]
pub(crate) enum Kind {
    /// The one that measures each window anew.
    Plain,
    /// The one with running sums.
    Running,
}

/// Takes the steps.
pub(crate) fn take_all<B: FillBook>(
    rt: &impl Abort,
    alloc: Global,
    book: &mut B,
    pass: &mut Pass<B::Calls, B::Placed, B::Withdrawn>,
    held: &mut Vec<Proposal>,
    steps: &[Step],
) -> Result<(), Fail> {
    for step in steps {
        take(rt, alloc, book, pass, held, *step)?;
    }
    Ok(())
}

/// Opens a book and takes the steps. Where memory for the opening is refused, says that it did not open.
pub(crate) fn play<C: Opened + Send + Sync, P: Ledger + Send + Sync, W: Ledger + Send + Sync>(
    rt: &(impl Abort + Threads + Sync),
    alloc: Global,
    calls: Blank,
    placed: Blank,
    withdrawn: Blank,
    kind: Kind,
    most: u64,
    case: Case<'_>,
) -> Result<bool, Fail>
    requires names { (calls.name ≡ C.name) × (placed.name ≡ P.name) × (withdrawn.name ≡ W.name) }
    requires parts { (calls.parts ≡ C.parts) × (placed.parts ≡ P.parts) × (withdrawn.parts ≡ W.parts) }
    requires all { AllParts C.parts P.parts W.parts }
    requires most { most ≤ 2 ^ 32 }
    requires terms { record { rules = values_of case.rules; opening = case.opening.metal; existing = case.opening.fill; keep = case.opening.keep; most = most } ≡ C.terms }
{
    let Case {
        rules,
        opening,
        mut held,
        steps,
        ..
    } = case;
    match kind {
        Kind::Plain => {
            let opened = PlainBook::<C, P, W>::open(
                rt, alloc, calls, placed, withdrawn, opening, rules, most,
            );
            let Ok((mut book, mut pass)) = opened else {
                return Ok(false);
            };
            take_all(rt, alloc, &mut book, &mut pass, &mut held, steps)?;
        }
        Kind::Running => {
            let opened = Book::<C, P, W>::open(
                rt, alloc, calls, placed, withdrawn, opening, rules, most,
            );
            let Ok((mut book, mut pass)) = opened else {
                return Ok(false);
            };
            take_all(rt, alloc, &mut book, &mut pass, &mut held, steps)?;
        }
    }
    Ok(true)
}

/// Plays a case in a book with ledgers of its own, and says whether it opened.
pub(crate) fn run(
    rt: &(impl Abort + Threads + Sync),
    alloc: Global,
    kind: Kind,
    case: Case<'_>,
) -> Result<bool, Fail> {
    play::<Brand, Brand, Brand>(
        rt,
        alloc,
        Blank::new(1024),
        Blank::new(1024),
        Blank::new(1024),
        kind,
        u64::from(case.max_events),
        case,
    )
}

/// The region of these rectangles.
pub(crate) fn region_of(alloc: Global, rects: &[[i64; 4]]) -> Result<Region, Fail> {
    let mut list = Vec::new(alloc);
    for corners in rects {
        list.push(rect_of(*corners)?)?;
    }
    Ok(Region::from_rects(alloc, &list)?)
}

/// Takes the steps in both books, of these rules, that open on these rectangles of metal.
pub(crate) fn run_on(
    rt: &(impl Abort + Threads + Sync),
    alloc: Global,
    rules: Rules,
    metal: &[[i64; 4]],
    steps: &[Step],
) -> Result<(), Fail> {
    run_in(rt, alloc, rules, Design::of_metal(metal), steps)
}

/// The same in books that open on this design.
pub(crate) fn run_in(
    rt: &(impl Abort + Threads + Sync),
    alloc: Global,
    rules: Rules,
    design: Design<'_>,
    steps: &[Step],
) -> Result<(), Fail> {
    for kind in [Kind::Plain, Kind::Running] {
        let case = Case {
            rules: rules.copy(alloc)?,
            opening: design.opening(alloc)?,
            max_events: 1000,
            held: Vec::new(alloc),
            steps,
        };
        assert!(rt; run(rt, alloc, kind, case)?);
    }
    Ok(())
}

/// The proposal of tile 0 of a book that opens on a design.
pub(crate) fn offer<C: Opened + Send + Sync, P: Ledger + Send + Sync, W: Ledger + Send + Sync>(
    rt: &(impl Abort + Threads + Sync),
    alloc: Global,
    calls: Blank,
    placed: Blank,
    withdrawn: Blank,
    opening: Opening,
    rules: Rules,
) -> Result<Proposal, Fail>
    requires names { (calls.name ≡ C.name) × (placed.name ≡ P.name) × (withdrawn.name ≡ W.name) }
    requires parts { (calls.parts ≡ C.parts) × (placed.parts ≡ P.parts) × (withdrawn.parts ≡ W.parts) }
    requires all { AllParts C.parts P.parts W.parts }
    requires terms { record { rules = values_of rules; opening = opening.metal; existing = opening.fill; keep = opening.keep; most = 10 } ≡ C.terms }
{
    let (book, _pass) = Book::<C, P, W>::open(
        rt, alloc, calls, placed, withdrawn, opening, rules, 10,
    )?;
    proposal_of(rt, alloc, &book, 0)
}

/// That proposal, of a book with ledgers of its own.
pub(crate) fn offered(
    rt: &(impl Abort + Threads + Sync),
    alloc: Global,
    design: Design<'_>,
) -> Result<Proposal, Fail> {
    offer::<Brand, Brand, Brand>(
        rt,
        alloc,
        Blank::new(1024),
        Blank::new(1024),
        Blank::new(1024),
        design.opening(alloc)?,
        usual_rules(alloc, 300_000)?,
    )
}

/// Takes the steps in both books, of a design that draws nothing, with that proposal laid aside.
pub(crate) fn bring(
    rt: &(impl Abort + Threads + Sync),
    alloc: Global,
    design: Design<'_>,
    steps: &[Step],
) -> Result<(), Fail> {
    for kind in [Kind::Plain, Kind::Running] {
        let mut held = Vec::new(alloc);
        held.push(offered(rt, alloc, design)?)?;
        let case = Case {
            rules: usual_rules(alloc, 300_000)?,
            opening: NOTHING.opening(alloc)?,
            max_events: 10,
            held,
            steps,
        };
        assert!(rt; run(rt, alloc, kind, case)?);
    }
    Ok(())
}
