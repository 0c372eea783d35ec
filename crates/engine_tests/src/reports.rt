ghost use Rattle.std.specs.Prelude.{◌≡◌};
ghost use Rattle.fill_text.specs.ValuesOfRules.{values_of};
ghost use Rattle.fill_core.specs.Shares.{AllParts};

use fill_base::Rect;
use fill_book::{Book, Opening, PlainBook};
use fill_core::{FillBook, Opened, Pass};
use fill_region::Region;
use fill_report::report;
use fill_text::{Rules, read_rules};
use std::alloc::Global;
use std::marker::Brand;
use std::process::Abort;
use std::sync::ledger::{Blank, Ledger};
use std::test::Fail;
use std::thread::Threads;

/// Boxes of 4 by 4 at steps of 10 in a frame of 100 by 100, in tiles of five by five places, and two windows of 50 by 100.
const RULES: &str = "frame_x1,0
frame_y1,0
frame_x2,100
frame_y2,100
box_w,4
box_h,4
step_x,10
step_y,10
origin_x,3
origin_y,3
spacing,2
fill_spacing,2
win_w,50
win_h,100
win_step_x,50
win_step_y,100
win_x,0
win_y,0
win_nx,2
win_ny,1
min,160000
max,210000
tile_nx,5
tile_ny,5
layer,7
datatype,0
fill_layer,10
fill_datatype,1
top,TOP
fill_lib,FILL
fill_cell,BOX4
fill_top,FILLTOP
";

/// Commits tile after tile until none is left.
fn fill_all<B: FillBook>(
    rt: &impl Abort,
    alloc: Global,
    book: &mut B,
    pass: &mut Pass<B::Calls, B::Placed, B::Withdrawn>,
) -> Result<(), Fail> {
    for _ in 0..book.rules().raster().tiles() {
        if let Some(tile) = book.next(0) {
            let Ok(proposal) = book.job(alloc, tile)?.propose(alloc) else {
                panic!(rt; "memory was refused");
            };
            book.commit(alloc, pass, &proposal)?;
        }
    }
    Ok(())
}

/// Asserts the report of a book.
fn assert_report<B: FillBook>(
    rt: &impl Abort,
    alloc: Global,
    book: &B,
    want: &[u8],
) -> Result<(), Fail> {
    let text = report(alloc, book)?;
    assert_eq!(rt; text.as_slice(), want);
    Ok(())
}

/// The report before any box is placed.
const BEFORE: &[u8] =
    b"0,0,0,0,50,100,400,0,400,80000,LOW\n1,0,50,0,100,100,1000,0,1000,200000,OK\n";

/// The report with all boxes.
const AFTER: &[u8] =
    b"0,0,0,0,50,100,400,736,1136,227200,HIGH\n1,0,50,0,100,100,1000,0,1000,200000,OK\n";

/// Asserts the report of a book before and after it is filled.
fn report_twice<B: FillBook>(
    rt: &impl Abort,
    alloc: Global,
    book: &mut B,
    pass: &mut Pass<B::Calls, B::Placed, B::Withdrawn>,
) -> Result<(), Fail> {
    assert_report(rt, alloc, book, BEFORE)?;
    fill_all(rt, alloc, book, pass)?;
    assert_report(rt, alloc, book, AFTER)
}

/// Asserts both reports of a book on this design, one with running sums or one that measures each window anew.
fn open_and_report<C: Opened + Send + Sync, P: Ledger + Send + Sync, W: Ledger + Send + Sync>(
    rt: &(impl Abort + Threads + Sync),
    alloc: Global,
    calls: Blank,
    placed: Blank,
    withdrawn: Blank,
    rules: Rules,
    opening: Opening,
    is_running: bool,
) -> Result<(), Fail>
    requires names { (calls.name ≡ C.name) × (placed.name ≡ P.name) × (withdrawn.name ≡ W.name) }
    requires parts { (calls.parts ≡ C.parts) × (placed.parts ≡ P.parts) × (withdrawn.parts ≡ W.parts) }
    requires all { AllParts C.parts P.parts W.parts }
    requires terms { record { rules = values_of rules; opening = opening.metal; existing = opening.fill; keep = opening.keep; most = 100 } ≡ C.terms }
{
    if is_running {
        let (mut book, mut pass) = Book::<C, P, W>::open(
            rt, alloc, calls, placed, withdrawn, opening, rules, 100,
        )?;
        return report_twice(rt, alloc, &mut book, &mut pass);
    }
    let (mut book, mut pass) = PlainBook::<C, P, W>::open(
        rt, alloc, calls, placed, withdrawn, opening, rules, 100,
    )?;
    report_twice(rt, alloc, &mut book, &mut pass)
}

/// On the left, metal of 20 by 20 leaves 46 of 50 boxes, each of 16 squares; on the right, a fifth of the window is metal, which is not
/// low.
fn report_of_a_book(
    rt: &(impl Abort + Threads + Sync),
    alloc: Global,
    is_running: bool,
) -> Result<(), Fail> {
    let rules = read_rules(alloc, format!(in alloc; "{RULES}")?.as_bytes())?;
    let opening = Opening {
        metal: Region::from_rects(
            alloc,
            &[Rect::new(0, 0, 20, 20)?, Rect::new(90, 0, 100, 100)?],
        )?,
        fill: Region::empty(alloc),
        keep: Region::empty(alloc),
    };
    open_and_report::<Brand, Brand, Brand>(
        rt,
        alloc,
        Blank::new(1024),
        Blank::new(1024),
        Blank::new(1024),
        rules,
        opening,
        is_running,
    )
}

#[test]
fn reports_of_both_books(rt: HostRuntime) -> Result<(), Fail> {
    report_of_a_book(&rt, rt.alloc(), false)?;
    report_of_a_book(&rt, rt.alloc(), true)
}
