//! Regions clipped by a frame: what ends at its sides, reaches over them or touches them from outside.

use crate::squares::{rect_of, rects_of, repeated};
use fill_base::Rect;
use fill_region::{Region, runs_near};
use std::alloc::Global;
use std::test::Fail;

/// Whether these are the runs within the frame, by each way to them: clipped, of the runs near to it, and met with it.
fn lie_within(alloc: Global, region: &Region, frame: &Rect, wanted: &[Rect]) -> Result<bool, Fail> {
    let clipped = region.clip(alloc, frame)?;
    let whole = Region::of_runs(alloc, region.runs(), frame)?;
    let near = runs_near(alloc, region.runs(), frame)?;
    let some = Region::of_runs(alloc, &near, frame)?;
    let met = region.meet(alloc, &Region::one(alloc, frame)?)?;
    let twice = clipped.clip(alloc, frame)?;
    let by_clips = clipped.runs() == wanted && whole.runs() == wanted && some.runs() == wanted;
    Ok(by_clips && met.runs() == wanted && twice.runs() == wanted)
}

/// Whether the rectangles have these runs within the frame from (0, 0) to (10, 10).
fn lie_within_ten(alloc: Global, rects: &[[i64; 4]], runs: &[[i64; 4]]) -> Result<bool, Fail> {
    let region = Region::from_rects(alloc, &rects_of(alloc, rects)?)?;
    lie_within(
        alloc,
        &region,
        &rect_of([0, 0, 10, 10])?,
        &rects_of(alloc, runs)?,
    )
}

#[test]
fn runs_end_at_a_frame_reach_over_it_and_touch_it(rt: HostRuntime) -> Result<(), Fail> {
    let alloc = rt.alloc();
    let cases: [([i64; 4], &[[i64; 4]]); 23] = [
        // they end at its left, right, lower and upper side, and at all four
        ([0, 3, 2, 5], &[[0, 3, 2, 5]]),
        ([8, 3, 10, 5], &[[8, 3, 10, 5]]),
        ([3, 0, 5, 2], &[[3, 0, 5, 2]]),
        ([3, 8, 5, 10], &[[3, 8, 5, 10]]),
        ([0, 0, 10, 10], &[[0, 0, 10, 10]]),
        // they reach over each, over two opposite ones, over a corner, and over all four
        ([-3, 3, 2, 5], &[[0, 3, 2, 5]]),
        ([8, 3, 13, 5], &[[8, 3, 10, 5]]),
        ([3, -3, 5, 2], &[[3, 0, 5, 2]]),
        ([3, 8, 5, 13], &[[3, 8, 5, 10]]),
        ([-3, 3, 13, 5], &[[0, 3, 10, 5]]),
        ([3, -3, 5, 13], &[[3, 0, 5, 10]]),
        ([-3, -3, 2, 2], &[[0, 0, 2, 2]]),
        ([9, 9, 12, 12], &[[9, 9, 10, 10]]),
        ([-3, -3, 13, 13], &[[0, 0, 10, 10]]),
        ([-1, -1, 11, 1], &[[0, 0, 10, 1]]),
        // they touch it from outside by an edge or a corner
        ([-3, 3, 0, 5], &[]),
        ([10, 3, 13, 5], &[]),
        ([3, -3, 5, 0], &[]),
        ([3, 10, 5, 13], &[]),
        ([-2, -2, 0, 0], &[]),
        ([10, 10, 12, 12], &[]),
        ([-2, 10, 0, 12], &[]),
        ([-20, 0, -10, 10], &[]),
    ];
    for (rect, runs) in cases {
        assert!(rt; lie_within_ten(alloc, &[rect], runs)?, "{rect:?}");
    }
    Ok(())
}

/// Rectangles, and their runs within the frame from (0, 0) to (10, 10).
const CUT_TO_EQUAL_SIDES: &[(&[[i64; 4]], &[[i64; 4]])] = &[
    // cut at the left, at the right, and at both
    (&[[-3, 2, 5, 4], [-1, 4, 5, 6]], &[[0, 2, 5, 6]]),
    (&[[5, 2, 12, 4], [5, 4, 15, 6]], &[[5, 2, 10, 6]]),
    (&[[-3, 2, 12, 4], [-1, 4, 15, 6]], &[[0, 2, 10, 6]]),
    (
        &[[-3, 2, 12, 4], [-1, 4, 15, 6], [-2, 6, 11, 8]],
        &[[0, 2, 10, 8]],
    ),
    // one of them ends there without being cut
    (&[[0, 2, 5, 4], [-1, 4, 5, 6]], &[[0, 2, 5, 6]]),
    (&[[5, 2, 12, 4], [5, 4, 10, 6]], &[[5, 2, 10, 6]]),
    // the lower or the upper end is cut as well
    (&[[-3, -3, 5, 1], [-1, 1, 5, 3]], &[[0, 0, 5, 3]]),
    (&[[-3, 7, 5, 8], [-1, 8, 5, 12]], &[[0, 7, 5, 10]]),
    // two pairs in the same rows
    (
        &[[-3, 2, 3, 4], [7, 2, 12, 4], [-1, 4, 3, 6], [7, 4, 13, 6]],
        &[[0, 2, 3, 6], [7, 2, 10, 6]],
    ),
    // the other sides differ, a row lies between, or the one between is narrower
    (
        &[[-3, 2, 5, 4], [-1, 4, 6, 6]],
        &[[0, 2, 5, 4], [0, 4, 6, 6]],
    ),
    (
        &[[-3, 2, 5, 4], [-1, 5, 5, 7]],
        &[[0, 2, 5, 4], [0, 5, 5, 7]],
    ),
    (
        &[[-3, 2, 5, 4], [-1, 4, 4, 6], [-2, 6, 5, 8]],
        &[[0, 2, 5, 4], [0, 4, 4, 6], [0, 6, 5, 8]],
    ),
    // one that is cut to a column of its own beside one that touches from outside
    (
        &[[-3, 2, 1, 4], [-5, 4, 0, 6], [-2, 6, 1, 8]],
        &[[0, 2, 1, 4], [0, 6, 1, 8]],
    ),
    // a ring about the frame's inside, three thick
    (
        &[
            [-2, -2, 12, 1],
            [-2, 1, 1, 9],
            [9, 1, 12, 9],
            [-2, 9, 12, 12],
        ],
        &[[0, 0, 10, 1], [0, 1, 1, 9], [9, 1, 10, 9], [0, 9, 10, 10]],
    ),
];

#[test]
fn runs_that_a_frame_cuts_to_equal_sides_become_one(rt: HostRuntime) -> Result<(), Fail> {
    let alloc = rt.alloc();
    for (rects, runs) in CUT_TO_EQUAL_SIDES {
        assert!(rt; lie_within_ten(alloc, rects, runs)?, "{rects:?}");
    }
    Ok(())
}

/// 300 rows, each a column further to the left and to the right than the one below: within a frame they are one run, as they
/// are where it cuts one side alone and the other side is straight.
#[test]
fn stairs_cut_by_a_frame_are_one_run(rt: HostRuntime) -> Result<(), Fail> {
    let alloc = rt.alloc();
    let frame = rect_of([0, 0, 30, 300])?;
    for (first, further, run) in [
        ([-1, 0, 31, 1], [-1, 1, 1, 1], [0, 0, 30, 300]),
        ([-1, 0, 20, 1], [-1, 1, 0, 1], [0, 0, 20, 300]),
        ([10, 0, 31, 1], [0, 1, 1, 1], [10, 0, 30, 300]),
    ] {
        let rows = repeated(alloc, 300, first, further)?;
        let region = Region::from_rects(alloc, &rows)?;
        assert!(rt; region.runs() == rows.as_slice());
        assert!(rt;
            lie_within(alloc, &region, &frame, &[rect_of(run)?])?,
            "{run:?}"
        );
    }
    // every second row ends a column earlier
    let mut rows = Vec::new(alloc);
    let mut wanted = Vec::new(alloc);
    for y in 0..300i64 {
        let (left, right, above) = (
            y.wrapping_neg(),
            (y & 1).wrapping_add(20),
            y.wrapping_add(1),
        );
        rows.push(rect_of([left, y, right, above])?)?;
        wanted.push(rect_of([0, y, right, above])?)?;
    }
    let region = Region::from_rects(alloc, &rows)?;
    assert!(rt; lie_within(alloc, &region, &frame, &wanted)?);
    Ok(())
}

/// What is near to a frame is whole, and what only touches the frame isn't near.
#[test]
fn runs_near_a_frame_are_whole(rt: HostRuntime) -> Result<(), Fail> {
    let alloc = rt.alloc();
    let runs = rects_of(
        alloc,
        &[
            [3, -5, 4, 0],
            [5, -5, 6, 1],
            [-4, 2, 0, 3],
            [4, 2, 5, 3],
            [10, 2, 12, 3],
            [-4, 4, 1, 5],
            [9, 4, 12, 5],
            [-9, 7, 19, 8],
            [5, 9, 6, 20],
            [7, 10, 8, 12],
        ],
    )?;
    let region = Region::from_rects(alloc, &runs)?;
    assert!(rt; region.runs() == runs.as_slice());
    let near = runs_near(alloc, region.runs(), &rect_of([0, 0, 10, 10])?)?;
    let wanted = rects_of(
        alloc,
        &[
            [5, -5, 6, 1],
            [4, 2, 5, 3],
            [-4, 4, 1, 5],
            [9, 4, 12, 5],
            [-9, 7, 19, 8],
            [5, 9, 6, 20],
        ],
    )?;
    assert!(rt; near.as_slice() == wanted.as_slice());
    Ok(())
}

/// Runs level with some rows are found whole, also one that begins far below, and none that begins above or ends long before.
#[test]
fn runs_level_with_rows_are_whole(rt: HostRuntime) -> Result<(), Fail> {
    let alloc = rt.alloc();
    let runs = rects_of(alloc, &[[0, 0, 10, 2], [20, 1, 30, 9], [0, 8, 10, 10]])?;
    let region = Region::from_rects(alloc, &runs)?;
    let upper = rects_of(alloc, &[[20, 1, 30, 9], [0, 8, 10, 10]])?;
    let lowest = rects_of(alloc, &[[0, 0, 10, 2]])?;
    assert!(rt; region.runs_level(8, 9) == upper.as_slice());
    assert!(rt; region.runs_level(-5, 1) == lowest.as_slice());
    assert!(rt; region.runs_level(0, 20) == runs.as_slice());
    assert!(rt; region.runs_level(18, 19).is_empty());
    Ok(())
}
