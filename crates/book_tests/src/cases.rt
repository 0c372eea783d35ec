//! What the tests of shared books and of runs open.
ghost use Rattle.std.specs.Prelude.{◌≡◌, ◌≤◌, ◌<◌};
ghost use Rattle.fill_core.specs.Shares.{AllParts};

use fill_base::Rect;
use fill_core::{BookError, Edit, FillBook, Pass, Reply};
use fill_shared::{Gate, OpenGate, PassMissing, PassOf, RunError, Shared, WorkEnd, run, work};
use fill_text::{Rules, read_rules};
use once_cell::race::OnceBool;
use std::alloc::Global;
use std::array;
use std::process::Abort;
use std::sync::Wait;
use std::test::Fail;
use std::thread::Threads;

/// Boxes of 4 by 4 that keep a gap of two to metal and to one another, in tiles of four by four places.
const BOXES: &str = "box_w,4
box_h,4
spacing,2
fill_spacing,2
step_x,10
step_y,10
origin_x,3
origin_y,3
tile_nx,4
tile_ny,4
layer,7
datatype,0
fill_layer,10
fill_datatype,1
top,TOP
fill_lib,FILL
fill_cell,BOX4
fill_top,FILLTOP
";

/// Nine windows of 50 by 50 at steps of 25 that are low below 750 squares.
const WINDOWS: &str = "win_w,50
win_h,50
win_step_x,25
win_step_y,25
win_x,0
win_y,0
win_nx,3
win_ny,3
min,300000
max,800000
";

/// A frame of ten by ten places, in nine tiles.
pub(crate) const HUNDRED_PLACES: &str = "frame_x1,0
frame_y1,0
frame_x2,100
frame_y2,100
";

/// A frame that has room for no box.
pub(crate) const NO_PLACES: &str = "frame_x1,0
frame_y1,0
frame_x2,5
frame_y2,5
";

/// The rules with this frame.
pub(crate) fn rules_in(alloc: Global, frame: &str) -> Result<Rules, Fail> {
    let text = format!(in alloc; "{BOXES}{WINDOWS}{frame}")?;
    Ok(read_rules(alloc, text.as_bytes())?)
}

/// The edit that adds metal beside the box of place (1, 1).
pub(crate) fn added() -> Result<Edit, Fail> {
    Ok(Edit::Add(Rect::new(10, 10, 21, 20)?))
}

/// A rule file's frame, and how many events a book's history may have.
#[derive(Clone, Copy)]
pub(crate) struct Terms {
    pub(crate) frame: &'static str,
    pub(crate) max_events: u32,
}

/// A hundred places, and a long history.
pub(crate) const USUAL_TERMS: Terms = Terms {
    frame: HUNDRED_PLACES,
    max_events: 1000,
};

/// How often a flag is looked at before a test gives up.
const LOOKS: u32 = 1 << 30;

/// A number that threads raise, sixteen at most, and that others wait for: so many of its flags are set.
#[derive(Drop)]
pub(crate) struct Count {
    flags: [OnceBool; 16],
    late: OnceBool,
}

impl Count {
    /// It begins at 0.
    pub(crate) fn new() -> Count {
        Count {
            flags: array::from_fn(|_| OnceBool::new()),
            late: OnceBool::new(),
        }
    }

    /// Raises it by one, and tells what it was.
    pub(crate) fn raise(&self) -> u64 {
        for k in 0..self.flags.len() {
            if self.flags[k].set(true).is_ok() {
                return k as u64;
            }
        }
        self.flags.len() as u64
    }

    /// Looks at it until it is so high, or often enough.
    pub(crate) fn wait_for(&self, least: u64) {
        let Some(flag) = self.flags.iter().take(least as usize).last() else {
            return;
        };
        for _ in 0..LOOKS {
            if flag.get().is_some() {
                return;
            }
        }
        let _ = self.late.set(true);
    }

    /// Whether it did not come to be so high.
    pub(crate) fn is_late(&self) -> bool {
        self.late.get().is_some()
    }
}

/// Asserts what a pass and its book have counted.
pub(crate) fn assert_counts<B: FillBook>(
    rt: &impl Abort,
    book: &B,
    pass: &PassOf<B>,
    numbers: [u64; 3],
    boxes: u32,
) {
    assert_eq!(rt; [pass.calls(), pass.placed(), pass.withdrawn()], numbers);
    assert_eq!(rt; book.history().len(), pass.calls());
    assert_eq!(rt; book.count(), boxes);
}

/// Shares a book with one caller.
pub(crate) fn shared_alone<B: FillBook>(
    rt: &impl Abort,
    alloc: Global,
    book: B,
    pass: PassOf<B>,
) -> (Shared<B>, PassOf<B>)
    requires { pass.parts ≡ 1024 }
{
    let Ok((shared, mut passes)) = Shared::open(alloc, book, pass, 1) else {
        panic!(rt; "memory was refused");
    };
    let Some(pass) = passes.pop() else {
        panic!(rt; "a caller has no pass");
    };
    (shared, pass)
}

/// Shares a book among three callers.
pub(crate) fn shared_by_three<B: FillBook>(
    rt: &impl Abort,
    alloc: Global,
    book: B,
    pass: PassOf<B>,
) -> (Shared<B>, (PassOf<B>, PassOf<B>, PassOf<B>))
    requires { pass.parts ≡ 1024 }
{
    let Ok((shared, mut passes)) = Shared::open(alloc, book, pass, 3) else {
        panic!(rt; "memory was refused");
    };
    let (Some(third), Some(second), Some(first)) = (passes.pop(), passes.pop(), passes.pop()) else {
        panic!(rt; "three callers have three passes");
    };
    (shared, (first, second, third))
}

/// Asserts that a book isn't handed out with a pass missing.
pub(crate) fn refuse_to_close<B: FillBook>(
    rt: &impl Abort,
    alloc: Global,
    shared: Shared<B>,
    first: PassOf<B>,
    second: PassOf<B>,
) -> Result<(Shared<B>, Vec<PassOf<B>>), Fail>
    requires { AllParts B.Calls.parts B.Placed.parts B.Withdrawn.parts }
{
    let mut passes = Vec::new(alloc);
    passes.push(first)?;
    passes.push(second)?;
    let Err(PassMissing { shared, passes }) = shared.close(passes) else {
        panic!(rt; "a pass is missing");
    };
    assert_eq!(rt; passes.len(), 2);
    Ok((shared, passes))
}

/// Takes a book back with these passes and the last one, and asserts what was counted.
pub(crate) fn close<B: FillBook>(
    rt: &impl Abort,
    shared: Shared<B>,
    mut passes: Vec<PassOf<B>>,
    last: PassOf<B>,
    numbers: [u64; 3],
    boxes: u32,
) -> Result<B, Fail>
    requires { AllParts B.Calls.parts B.Placed.parts B.Withdrawn.parts }
{
    passes.push(last)?;
    let Ok((book, pass)) = shared.close(passes) else {
        panic!(rt; "no pass is missing");
    };
    assert_counts(rt, &book, &pass, numbers, boxes);
    Ok(book)
}

/// Lets a worker have so many turns, from the first tile on, and asserts how they end.
pub(crate) fn assert_work<B: FillBook>(
    rt: &(impl Abort + Wait),
    alloc: Global,
    shared: &Shared<B>,
    pass: &mut PassOf<B>,
    limit: u64,
    want: WorkEnd,
)
    requires { AllParts B.Calls.parts B.Placed.parts B.Withdrawn.parts }
{
    let end = work(rt, alloc, shared, pass, 0, 0, &OpenGate, limit);
    assert_eq!(rt; end, want);
}

/// Makes an edit, and asserts its answer.
pub(crate) fn assert_edit<B: FillBook>(
    rt: &(impl Abort + Wait),
    alloc: Global,
    shared: &Shared<B>,
    pass: &mut PassOf<B>,
    edit: Edit,
    want: Result<Reply, BookError>,
)
    requires { AllParts B.Calls.parts B.Placed.parts B.Withdrawn.parts }
{
    let reply = shared.edit(rt, alloc, pass, edit);
    assert!(rt; reply == want);
}

/// A run that finishes.
pub(crate) fn finished<B: FillBook + Send, G: Gate + Sync>(
    rt: &(impl Abort + Threads + Wait + Sync),
    alloc: Global,
    book: B,
    pass: PassOf<B>,
    edits: &[Edit],
    workers: u32,
    gate: &G,
    limit: u64,
) -> (B, PassOf<B>)
    requires ledgers { AllParts B.Calls.parts B.Placed.parts B.Withdrawn.parts }
    requires pass { pass.parts ≡ 1024 }
    requires workers { (0 < workers) × (workers ≤ 64) }
{
    let Ok(ran) = run(rt, alloc, book, pass, edits, workers, gate, limit) else {
        panic!(rt; "the run does not finish");
    };
    ran
}

/// A run of one worker that stays unfinished.
pub(crate) fn unfinished<B: FillBook + Send, G: Gate + Sync>(
    rt: &(impl Abort + Threads + Wait + Sync),
    alloc: Global,
    book: B,
    pass: PassOf<B>,
    edits: &[Edit],
    gate: &G,
    limit: u64,
) -> (B, PassOf<B>)
    requires ledgers { AllParts B.Calls.parts B.Placed.parts B.Withdrawn.parts }
    requires pass { pass.parts ≡ 1024 }
{
    match run(rt, alloc, book, pass, edits, 1, gate, limit) {
        Err(RunError::Unfinished { book, pass }) => (book, pass),
        _ => panic!(rt; "the run is not told as unfinished"),
    }
}
