//! The plain book and the one with running sums, side by side on existing fill, through edits and commits that are drawn by lot.
ghost use Rattle.std.specs.Prelude.{◌≡◌, ◌<◌, IfOk};
ghost use Rattle.fill_text.specs.ValuesOfRules.{values_of};
ghost use Rattle.fill_core.specs.Shares.{AllParts};

use crate::book::{Design, drawn_of, proposal_of, total_of};
use crate::cases::HUNDRED_PLACES;
use fill_area::{Windows, area_in};
use fill_base::{Place, Rect};
use fill_book::{Book, Opening, PlainBook};
use fill_core::{Edit, FillBook, Opened, Pass, Reply};
use fill_region::Region;
use fill_text::{Rules, read_rules};
use std::alloc::Global;
use std::marker::Brand;
use std::process::Abort;
use std::sync::ledger::{Blank, Ledger};
use std::test::Fail;
use std::thread::Threads;

/// Boxes of 4 by 4 that keep a gap of two, in tiles of four by four places.
const BOXES: &str = "box_w,4
box_h,4
spacing,2
fill_spacing,2
step_x,10
step_y,10
origin_x,3
origin_y,3
tile_nx,4
tile_ny,4
layer,7
datatype,0
fill_layer,10
fill_datatype,1
top,TOP
fill_lib,FILL
fill_cell,BOX4
fill_top,FILLTOP
max,800000
";

/// Square windows: side, step, the first one's left and lower edge, how many each way, the least share, and the padding.
type Layout = (u32, u32, i32, u32, u32, &'static str);

/// Windows side by side, over each other by a half, three quarters and seven eighths, with gaps between them, and partly and
/// wholly beside the frame.
const LAYOUTS: &[Layout] = &[
    (20, 20, 0, 5, 300_000, "zero"),
    (40, 20, 0, 4, 200_000, "zero"),
    (40, 10, 0, 6, 250_000, "ignore"),
    (40, 5, 20, 6, 180_000, "zero"),
    (10, 25, 0, 4, 300_000, "zero"),
    (50, 30, -60, 7, 150_000, "zero"),
    (50, 30, -60, 7, 150_000, "ignore"),
];

/// Existing fill between boxes, and some that takes the places of four.
const DESIGN: Design<'static> = Design {
    metal: &[],
    fill: &[[29, 0, 31, 100], [60, 61, 75, 78]],
    keep: &[],
};

/// How many steps each pair of books takes.
const STEPS: u32 = 60;

fn rules_with(alloc: Global, layout: Layout) -> Result<Rules, Fail> {
    let (side, step, at, many, least, padding) = layout;
    let text = format!(in alloc;
        "{BOXES}{HUNDRED_PLACES}win_w,{side}\nwin_h,{side}\nwin_step_x,{step}\nwin_step_y,{step}\n"
    )?;
    let more = format!(in alloc;
        "{text}win_x,{at}\nwin_y,{at}\nwin_nx,{many}\nwin_ny,{many}\nmin,{least}\npadding,{padding}\n"
    )?;
    Ok(read_rules(alloc, more.as_bytes())?)
}

/// Numbers by a fixed rule, which look as if drawn by lot.
#[derive(Drop)]
struct Lot {
    state: u32,
}

impl Lot {
    /// The next number below `n`.
    fn below(&mut self, n: u32) -> u32
        requires { 0 < n }
    {
        self.state = self
            .state
            .wrapping_mul(1_664_525)
            .wrapping_add(1_013_904_223);
        (self.state >> 8) % n
    }

    /// A rectangle that touches the frame, and may pass its right and upper edge.
    fn rect(&mut self) -> Result<Rect, Fail> {
        let x = i64::from(self.below(95));
        let y = i64::from(self.below(95));
        let w = i64::from(self.below(24));
        let h = i64::from(self.below(24));
        Ok(Rect::new(x, y, x + w + 1, y + h + 1)?)
    }
}

/// What is done with both books.
#[derive(Clone, Copy)]
enum Step {
    /// An edit.
    Change(Edit),
    /// A new proposal of a tile is committed.
    Bring(u32),
}

fn step_of(lot: &mut Lot) -> Result<Step, Fail> {
    let kind = lot.below(20);
    let rect = lot.rect()?;
    let tile = lot.below(9);
    Ok(match kind {
        0..=2 => Step::Change(Edit::Add(rect)),
        3..=5 => Step::Change(Edit::Cut(rect)),
        6 => Step::Change(Edit::Keep(rect)),
        _ => Step::Bring(tile),
    })
}

/// Where the steps come from.
#[derive(Clone, Copy)]
enum Source {
    /// They are drawn by lot.
    Lot,
    /// The kth adds, cuts or commits by what is left of k over three, at a corner that goes by 37 and 53.
    Rule,
}

/// The kth step by the rule.
fn step_by_rule(k: u32) -> Result<Step, Fail> {
    let x = i64::from(k.wrapping_mul(37) % 90);
    let y = i64::from(k.wrapping_mul(53) % 90);
    let rect = Rect::new(x, y, x + 7, y + 5)?;
    Ok(match k % 3 {
        0 => Step::Change(Edit::Add(rect)),
        1 => Step::Change(Edit::Cut(rect)),
        _ => Step::Bring(k % 9),
    })
}

/// The reply of a book.
fn take<B: FillBook>(
    rt: &impl Abort,
    alloc: Global,
    book: &mut B,
    pass: &mut Pass<B::Calls, B::Placed, B::Withdrawn>,
    step: Step,
) -> Result<Reply, Fail> {
    match step {
        Step::Change(edit) => Ok(book.edit(alloc, pass, edit)?),
        Step::Bring(tile) => {
            let proposal = proposal_of(rt, alloc, book, tile)?;
            Ok(book.commit(alloc, pass, &proposal)?)
        }
    }
}

/// What is drawn follows a step. No edit changes the existing fill.
fn follow(alloc: Global, drawn: &mut Opening, step: Step) -> Result<(), Fail> {
    match step {
        Step::Change(Edit::Add(rect)) => drawn.metal = drawn.metal.with_rect(alloc, &rect)?,
        Step::Change(Edit::Cut(rect)) => drawn.metal = drawn.metal.without_rect(alloc, &rect)?,
        Step::Change(Edit::Keep(rect)) => drawn.keep = drawn.keep.with_rect(alloc, &rect)?,
        Step::Bring(_) => {}
    }
    Ok(())
}

/// The boxes of a book as a region.
fn boxes_of<B: FillBook>(alloc: Global, book: &B) -> Result<Region, Fail> {
    let raster = book.rules().raster();
    let mut boxes = Vec::new(alloc);
    for k in 0..100i64 {
        let place = Place {
            i: k % 10,
            j: k / 10,
        };
        if raster.has(place) && book.has(place) {
            boxes.push(raster.box_of(place))?;
        }
    }
    Ok(Region::from_rects(alloc, &boxes)?)
}

/// The area of a set in what counts of a window.
fn counted(rt: &impl Abort, windows: &Windows, region: &Region, a: u32, b: u32) -> i64 {
    if a >= windows.columns() || b >= windows.rows() {
        panic!(rt; "no window {a}, {b}");
    }
    match windows.part(a, b) {
        Some(part) => area_in(region, &part),
        None => 0,
    }
}

/// Asserts that both books have the totals of metal, existing fill and boxes, in each window, and no box on a keep-out.
fn assert_same<A: FillBook, B: FillBook>(
    rt: &impl Abort,
    alloc: Global,
    plain: &A,
    running: &B,
    drawn: &Opening,
) -> Result<(), Fail> {
    assert_eq!(rt; plain.count(), running.count());
    let boxes = boxes_of(alloc, running)?;
    assert!(rt; boxes.meet(alloc, &drawn.keep)?.is_empty());
    let design = drawn.metal.union(alloc, &drawn.fill)?;
    let all = design.union(alloc, &boxes)?;
    let windows = running.rules().windows();
    for b in 0..windows.rows() {
        for a in 0..windows.columns() {
            let total = total_of(rt, running, a, b);
            assert_eq!(rt; total, counted(rt, &windows, &all, a, b));
            assert_eq!(rt; total, total_of(rt, plain, a, b));
            let area = counted(rt, &windows, &design, a, b);
            assert_eq!(rt; drawn_of(rt, running, a, b), area);
            assert_eq!(rt; drawn_of(rt, plain, a, b), area);
        }
    }
    Ok(())
}

/// Both books, with their passes.
#[derive(Drop)]
struct Pair<A: FillBook, B: FillBook> {
    plain: A,
    plain_pass: Pass<A::Calls, A::Placed, A::Withdrawn>,
    running: B,
    running_pass: Pass<B::Calls, B::Placed, B::Withdrawn>,
}

/// Takes steps in both books, and asserts after each that they agree.
fn take_steps<A: FillBook, B: FillBook>(
    rt: &impl Abort,
    alloc: Global,
    pair: &mut Pair<A, B>,
    source: Source,
    steps: u32,
) -> Result<(), Fail> {
    let mut lot = Lot { state: 1 };
    let mut drawn = DESIGN.opening(alloc)?;
    for k in 0..steps {
        let step = match source {
            Source::Lot => step_of(&mut lot)?,
            Source::Rule => step_by_rule(k)?,
        };
        follow(alloc, &mut drawn, step)?;
        let one = take(rt, alloc, &mut pair.plain, &mut pair.plain_pass, step)?;
        let other = take(rt, alloc, &mut pair.running, &mut pair.running_pass, step)?;
        assert_eq!(rt; one, other);
        assert_same(rt, alloc, &pair.plain, &pair.running, &drawn)?;
    }
    Ok(())
}

/// The blank ledgers of a book, and what it is opened with.
#[derive(Drop)]
struct Start {
    calls: Blank,
    placed: Blank,
    withdrawn: Blank,
    opening: Opening,
    rules: Rules,
}

/// The start of a book of these rules.
fn start_with(alloc: Global, rules: &Rules) -> Result<Start, Fail>
    ensures { IfOk result (λ s. AllParts s.calls.parts s.placed.parts s.withdrawn.parts) }
{
    Ok(Start {
        calls: Blank::new(1024),
        placed: Blank::new(1024),
        withdrawn: Blank::new(1024),
        opening: DESIGN.opening(alloc)?,
        rules: rules.copy(alloc)?,
    })
}

/// Opens both books and takes the steps.
fn both<
    C: Opened + Send + Sync,
    P: Ledger + Send + Sync,
    W: Ledger + Send + Sync,
    D: Opened + Send + Sync,
    Q: Ledger + Send + Sync,
    X: Ledger + Send + Sync,
>(
    rt: &(impl Abort + Threads + Sync),
    alloc: Global,
    plain: Start,
    running: Start,
    source: Source,
    steps: u32,
) -> Result<(), Fail>
    requires names { (plain.calls.name ≡ C.name) × (plain.placed.name ≡ P.name) × (plain.withdrawn.name ≡ W.name) }
    requires parts { (plain.calls.parts ≡ C.parts) × (plain.placed.parts ≡ P.parts) × (plain.withdrawn.parts ≡ W.parts) }
    requires all { AllParts C.parts P.parts W.parts }
    requires terms { record { rules = values_of plain.rules; opening = plain.opening.metal; existing = plain.opening.fill; keep = plain.opening.keep; most = 1000 } ≡ C.terms }
    requires other_names { (running.calls.name ≡ D.name) × (running.placed.name ≡ Q.name) × (running.withdrawn.name ≡ X.name) }
    requires other_parts { (running.calls.parts ≡ D.parts) × (running.placed.parts ≡ Q.parts) × (running.withdrawn.parts ≡ X.parts) }
    requires other_all { AllParts D.parts Q.parts X.parts }
    requires other_terms { record { rules = values_of running.rules; opening = running.opening.metal; existing = running.opening.fill; keep = running.opening.keep; most = 1000 } ≡ D.terms }
{
    let Start {
        calls,
        placed,
        withdrawn,
        opening,
        rules,
    } = plain;
    let (plain, plain_pass) = PlainBook::<C, P, W>::open(
        rt, alloc, calls, placed, withdrawn, opening, rules, 1000,
    )?;
    let Start {
        calls,
        placed,
        withdrawn,
        opening,
        rules,
    } = running;
    let (running, running_pass) = Book::<D, Q, X>::open(
        rt, alloc, calls, placed, withdrawn, opening, rules, 1000,
    )?;
    let mut pair = Pair {
        plain,
        plain_pass,
        running,
        running_pass,
    };
    take_steps(rt, alloc, &mut pair, source, steps)
}

/// Replies, counts and all numbers of all windows agree, and are those of metal, existing fill and boxes.
#[test]
fn both_books_agree(rt: HostRuntime) -> Result<(), Fail> {
    let alloc = rt.alloc();
    for layout in LAYOUTS {
        let rules = rules_with(alloc, *layout)?;
        both::<Brand, Brand, Brand, Brand, Brand, Brand>(
            &rt,
            alloc,
            start_with(alloc, &rules)?,
            start_with(alloc, &rules)?,
            Source::Lot,
            STEPS,
        )?;
    }
    Ok(())
}

/// The same of two hundred steps by a rule, over nine windows.
#[test]
fn both_books_agree_by_rule(rt: HostRuntime) -> Result<(), Fail> {
    let alloc = rt.alloc();
    let rules = rules_with(alloc, (50, 25, 0, 3, 300_000, "zero"))?;
    both::<Brand, Brand, Brand, Brand, Brand, Brand>(
        &rt,
        alloc,
        start_with(alloc, &rules)?,
        start_with(alloc, &rules)?,
        Source::Rule,
        200,
    )
}
