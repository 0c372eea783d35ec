//! Worked cases of both books.

use crate::book::{
    Case, Design, HUNDRED_PLACES, Kind, MILLION_PLACES, NINE_WINDOWS, NO_PLACES, NOTHING,
    ONE_WINDOW, Step, TOUCHING_BOXES, bring, rules_of, run, run_in, run_on, usual_rules,
};
use fill_base::Place;
use fill_core::Reply;
use std::test::Fail;

#[test]
fn windows_low_at_the_opening_are_filled(rt: HostRuntime) -> Result<(), Fail> {
    let rules = usual_rules(rt.alloc(), 160_000)?;
    run_on(
        &rt,
        rt.alloc(),
        rules,
        &[],
        &[
            Step::Version(0, false),
            Step::Commit(0, Reply::Placed(16)),
            Step::Commit(8, Reply::Placed(4)),
            Step::Fill,
            Step::Totals(400),
            Step::Counts(100, 9),
            Step::Version(0, true),
        ],
    )
}

#[test]
fn solid_metal_takes_no_box(rt: HostRuntime) -> Result<(), Fail> {
    let rules = usual_rules(rt.alloc(), 300_000)?;
    run_on(
        &rt,
        rt.alloc(),
        rules,
        &[[0, 0, 100, 100]],
        &[
            Step::Commit(4, Reply::Placed(0)),
            Step::Commit(0, Reply::Placed(0)),
            Step::Commit(1, Reply::Placed(0)),
            Step::Commit(2, Reply::Placed(0)),
            Step::Commit(3, Reply::Placed(0)),
            Step::Commit(5, Reply::Placed(0)),
            Step::Commit(6, Reply::Placed(0)),
            Step::Commit(7, Reply::Placed(0)),
            Step::Commit(8, Reply::Placed(0)),
            Step::Totals(2500),
            Step::Counts(0, 9),
            Step::Version(0, true),
        ],
    )
}

/// An edit comes between a proposal and its commit.
#[test]
fn a_late_proposal_is_stale(rt: HostRuntime) -> Result<(), Fail> {
    let rules = usual_rules(rt.alloc(), 300_000)?;
    run_on(
        &rt,
        rt.alloc(),
        rules,
        &[],
        &[
            Step::Hold(0),
            Step::Add([10, 10, 21, 20], 0),
            Step::Late(0, Reply::Stale { at: 1 }),
            Step::NineTotals([110, 0, 0, 0, 0, 0, 0, 0, 0]),
            Step::Commit(0, Reply::Placed(15)),
            Step::NineTotals([350, 96, 0, 96, 36, 0, 0, 0, 0]),
        ],
    )
}

/// Two tiles bring 512 of the 500 squares that the window needs.
#[test]
fn a_window_that_has_risen_stays_low(rt: HostRuntime) -> Result<(), Fail> {
    let rules = rules_of(rt.alloc(), HUNDRED_PLACES, ONE_WINDOW)?;
    run_on(
        &rt,
        rt.alloc(),
        rules,
        &[],
        &[
            Step::Commit(0, Reply::Placed(16)),
            Step::Commit(1, Reply::Placed(16)),
            Step::Totals(512),
            Step::Commit(2, Reply::Placed(8)),
            Step::Fill,
            Step::Totals(1600),
            Step::Counts(100, 9),
        ],
    )
}

#[test]
fn a_tile_comes_in_once(rt: HostRuntime) -> Result<(), Fail> {
    let rules = usual_rules(rt.alloc(), 300_000)?;
    run_on(
        &rt,
        rt.alloc(),
        rules,
        &[],
        &[
            Step::Hold(0),
            Step::Hold(0),
            Step::Late(0, Reply::Placed(16)),
            Step::Late(1, Reply::Already),
            Step::Late(0, Reply::Already),
            Step::Counts(16, 3),
        ],
    )
}

#[test]
fn metal_added_twice_counts_once(rt: HostRuntime) -> Result<(), Fail> {
    let rules = usual_rules(rt.alloc(), 300_000)?;
    run_on(
        &rt,
        rt.alloc(),
        rules,
        &[],
        &[
            Step::Add([10, 10, 21, 20], 0),
            Step::Total(0, 0, 110),
            Step::Add([10, 10, 21, 20], 0),
            Step::Total(0, 0, 110),
            Step::Cut([10, 10, 21, 20], 0),
            Step::Totals(0),
            Step::Version(3, false),
        ],
    )
}

/// Metal at both sides leaves the windows of the middle column low.
#[test]
fn places_partly_in_a_low_window_stay_empty(rt: HostRuntime) -> Result<(), Fail> {
    let rules = usual_rules(rt.alloc(), 300_000)?;
    run_on(
        &rt,
        rt.alloc(),
        rules,
        &[[0, 0, 18, 100], [82, 0, 100, 100]],
        &[
            Step::Commit(0, Reply::Placed(4)),
            Step::Commit(1, Reply::Placed(12)),
            Step::Commit(2, Reply::Placed(0)),
            Step::Fill,
            Step::Counts(40, 9),
            Step::NineTotals([1060, 320, 1060, 1060, 320, 1060, 1060, 320, 1060]),
        ],
    )
}

/// The place beside the metal that is added.
const ONE: &[Place] = &[Place { i: 1, j: 1 }];

/// The places beside metal that is wider by one.
const TWO: &[Place] = &[Place { i: 1, j: 1 }, Place { i: 2, j: 1 }];

#[test]
fn added_metal_takes_out_one_box(rt: HostRuntime) -> Result<(), Fail> {
    let rules = usual_rules(rt.alloc(), 300_000)?;
    run_on(
        &rt,
        rt.alloc(),
        rules,
        &[],
        &[
            Step::Fill,
            Step::Totals(400),
            Step::Add([10, 10, 21, 20], 1),
            Step::Empty(ONE),
            Step::NineTotals([494, 400, 400, 400, 400, 400, 400, 400, 400]),
            Step::Counts(99, 10),
            Step::Version(1, false),
            Step::Fill,
            Step::Counts(99, 19),
            Step::Version(1, true),
        ],
    )
}

/// The window at the corner loses both boxes and gains twelve columns of ten; its neighbour loses two columns of a box.
#[test]
fn wider_metal_takes_out_two_boxes(rt: HostRuntime) -> Result<(), Fail> {
    let rules = usual_rules(rt.alloc(), 300_000)?;
    run_on(
        &rt,
        rt.alloc(),
        rules,
        &[],
        &[
            Step::Fill,
            Step::Add([10, 10, 22, 20], 2),
            Step::Empty(TWO),
            Step::NineTotals([488, 392, 400, 400, 400, 400, 400, 400, 400]),
            Step::Counts(98, 10),
        ],
    )
}

#[test]
fn touching_boxes_cover_all(rt: HostRuntime) -> Result<(), Fail> {
    let windows = format!(in rt.alloc(); "{NINE_WINDOWS}min,300000\n")?;
    let rules = rules_of(rt.alloc(), TOUCHING_BOXES, windows.as_str())?;
    run_on(
        &rt,
        rt.alloc(),
        rules,
        &[],
        &[Step::Fill, Step::Totals(2500), Step::Counts(625, 49)],
    )
}

#[test]
fn a_raster_without_places_is_complete(rt: HostRuntime) -> Result<(), Fail> {
    let rules = rules_of(rt.alloc(), NO_PLACES, ONE_WINDOW)?;
    run_on(
        &rt,
        rt.alloc(),
        rules,
        &[],
        &[Step::Version(0, true), Step::Fill, Step::Counts(0, 0)],
    )
}

#[test]
fn a_full_history_takes_nothing(rt: HostRuntime) -> Result<(), Fail> {
    let alloc = rt.alloc();
    for kind in [Kind::Plain, Kind::Running] {
        let case = Case {
            rules: usual_rules(alloc, 300_000)?,
            opening: NOTHING.opening(alloc)?,
            max_events: 1,
            held: Vec::new(alloc),
            steps: &[
                Step::Hold(1),
                Step::Hold(0),
                Step::Commit(0, Reply::Placed(16)),
                Step::Full(0),
                Step::Full(1),
                Step::Counts(16, 1),
                Step::Total(0, 0, 256),
            ],
        };
        assert!(rt; run(&rt, alloc, kind, case)?);
    }
    Ok(())
}

#[test]
fn other_designs_near_the_tile_are_foreign(rt: HostRuntime) -> Result<(), Fail> {
    let steps = [
        Step::Late(0, Reply::Foreign),
        Step::Counts(0, 1),
        Step::Commit(0, Reply::Placed(16)),
        Step::Late(0, Reply::Already),
    ];
    for design in [
        Design::of_metal(&[[10, 10, 21, 20]]),
        Design::of_fill(&[[10, 10, 21, 20]]),
        Design::of_keep(&[[10, 10, 20, 20]]),
    ] {
        bring(&rt, rt.alloc(), design, &steps)?;
    }
    Ok(())
}

/// A keep-out is read where the tile's boxes lie, metal and existing fill where they may be too near to them.
#[test]
fn what_is_far_from_the_tile_is_not_read(rt: HostRuntime) -> Result<(), Fail> {
    let steps = [
        Step::Late(0, Reply::Placed(16)),
        Step::Late(0, Reply::Already),
    ];
    for design in [
        Design::of_metal(&[[80, 80, 90, 90]]),
        Design::of_fill(&[[80, 80, 90, 90]]),
        Design::of_keep(&[[1, 1, 3, 3]]),
    ] {
        bring(&rt, rt.alloc(), design, &steps)?;
    }
    Ok(())
}

/// A box is taken out where it shares a square with a keep-out, and nowhere else.
#[test]
fn keep_outs_take_out_what_they_share(rt: HostRuntime) -> Result<(), Fail> {
    let rules = usual_rules(rt.alloc(), 300_000)?;
    run_on(
        &rt,
        rt.alloc(),
        rules,
        &[],
        &[
            Step::Fill,
            Step::Keep([57, 50, 63, 60], 0),
            Step::Totals(400),
            Step::Version(1, false),
            Step::Keep([56, 50, 64, 60], 2),
            Step::Total(1, 1, 368),
            Step::Total(2, 1, 368),
            Step::Total(1, 2, 368),
            Step::Total(2, 2, 368),
            Step::Total(0, 0, 400),
            Step::Fill,
            Step::Total(1, 1, 368),
            Step::Cut([0, 0, 100, 100], 0),
            Step::Fill,
            Step::Counts(98, 30),
            Step::Version(3, true),
        ],
    )
}

#[test]
fn books_open_with_keep_outs(rt: HostRuntime) -> Result<(), Fail> {
    let rules = usual_rules(rt.alloc(), 300_000)?;
    run_in(
        &rt,
        rt.alloc(),
        rules,
        Design::of_keep(&[[50, 50, 60, 60]]),
        &[
            Step::Totals(0),
            Step::Fill,
            Step::Total(0, 0, 400),
            Step::Total(1, 1, 384),
            Step::Total(2, 2, 384),
            Step::Counts(99, 9),
        ],
    )
}

/// Ten by ten places whose boxes keep a gap of four to one another and to existing fill.
const FOUR_APART: &str = "frame_x1,0
frame_y1,0
frame_x2,100
frame_y2,100
step_x,10
step_y,10
origin_x,3
origin_y,3
fill_spacing,4
";

/// The second place of the lowest row.
const SECOND: &[Place] = &[Place { i: 1, j: 0 }];

/// The first two places of the lowest row.
const FIRST_TWO: &[Place] = &[Place { i: 0, j: 0 }, Place { i: 1, j: 0 }];

/// The first box of the lowest row ends at 7, the second begins at 13. From 11 to 12 is gaps of four and one away from them, from 10 to
/// 11 gaps of three and two: too near to both for existing fill, and to neither for metal, to which boxes keep two.
#[test]
fn boxes_keep_the_fill_spacing_to_existing_fill(rt: HostRuntime) -> Result<(), Fail> {
    let alloc = rt.alloc();
    let rules = rules_of(alloc, FOUR_APART, ONE_WINDOW)?;
    for (design, empty) in [
        (Design::of_fill(&[[11, 3, 12, 7]]), SECOND),
        (Design::of_fill(&[[10, 3, 11, 7]]), FIRST_TWO),
        (Design::of_metal(&[[10, 3, 11, 7]]), &[]),
    ] {
        let rules = rules.copy(alloc)?;
        run_in(&rt, alloc, rules, design, &[Step::Fill, Step::Empty(empty)])?;
    }
    Ok(())
}

/// Metal and existing fill share fifty squares. Cuts leave the 150 of the fill, which go on taking the places of two boxes.
#[test]
fn a_cut_leaves_existing_fill(rt: HostRuntime) -> Result<(), Fail> {
    let rules = rules_of(rt.alloc(), HUNDRED_PLACES, ONE_WINDOW)?;
    let design = Design {
        metal: &[[0, 0, 10, 10]],
        fill: &[[5, 0, 20, 10]],
        keep: &[],
    };
    run_in(
        &rt,
        rt.alloc(),
        rules,
        design,
        &[
            Step::Drawn(0, 0, 200),
            Step::Cut([0, 0, 100, 100], 0),
            Step::Drawn(0, 0, 150),
            Step::Add([10, 0, 30, 10], 0),
            Step::Drawn(0, 0, 250),
            Step::Cut([0, 0, 100, 100], 0),
            Step::Drawn(0, 0, 150),
            Step::Fill,
            Step::Counts(98, 12),
            Step::Totals(1718),
        ],
    )
}

/// A window with five hundred squares, its least share, gets no box. With one square less it gets all but five, which would lie on them.
#[test]
fn existing_fill_brings_a_window_to_its_least_share(rt: HostRuntime) -> Result<(), Fail> {
    let alloc = rt.alloc();
    let rules = rules_of(alloc, HUNDRED_PLACES, ONE_WINDOW)?;
    for (design, boxes, total) in [
        (Design::of_fill(&[[0, 0, 50, 10]]), 0, 500),
        (Design::of_fill(&[[0, 0, 50, 9], [0, 9, 49, 10]]), 95, 2019),
    ] {
        let rules = rules.copy(alloc)?;
        let steps = [Step::Fill, Step::Counts(boxes, 9), Step::Totals(total)];
        run_in(&rt, alloc, rules, design, &steps)?;
    }
    Ok(())
}

/// Five by five windows, of which those of the last two columns and rows lie partly or wholly beside the frame.
const WINDOWS_BESIDE: &str = "win_w,50
win_h,50
win_step_x,25
win_step_y,25
win_x,0
win_y,0
win_nx,5
win_ny,5
min,300000
";

/// Metal beside the frame counts where padding does; boxes lie in the frame.
#[test]
fn parts_of_windows_count(rt: HostRuntime) -> Result<(), Fail> {
    let alloc = rt.alloc();
    for (padding, with_metal) in [("zero", 1620), ("ignore", 620)] {
        let windows = format!(in alloc; "{WINDOWS_BESIDE}padding,{padding}\n")?;
        let rules = rules_of(alloc, HUNDRED_PLACES, windows.as_str())?;
        run_on(
            &rt,
            alloc,
            rules,
            &[],
            &[
                Step::Fill,
                Step::Total(2, 2, 400),
                Step::Total(3, 0, 200),
                Step::Total(3, 3, 100),
                Step::Total(4, 0, 0),
                Step::Add([90, 0, 120, 50], 5),
                Step::Total(3, 0, with_metal),
                Step::Cut([90, 0, 120, 50], 0),
                Step::Total(3, 0, 120),
            ],
        )?;
    }
    Ok(())
}

/// The box of place (0, 0) ends at 7, that of (1, 0) begins at 13.
#[test]
fn a_million_places_and_one_edit(rt: HostRuntime) -> Result<(), Fail> {
    let rules = rules_of(rt.alloc(), MILLION_PLACES, ONE_WINDOW)?;
    run_on(
        &rt,
        rt.alloc(),
        rules,
        &[],
        &[
            Step::Commit(0, Reply::Placed(16)),
            Step::Totals(256),
            Step::Add([0, 0, 8, 8], 1),
            Step::Totals(304),
            Step::Counts(15, 2),
        ],
    )
}
