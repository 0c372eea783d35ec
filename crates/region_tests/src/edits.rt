//! Single rectangles added to regions and taken off again: the runs before and after are written by hand.

use crate::squares::{rect_of, rects_of, repeated};
use fill_region::Region;
use std::alloc::Global;
use std::test::Fail;

/// Whether the first runs become the second when the rectangle is added, and the first again when it is taken off.
fn turns_into(
    alloc: Global,
    before: &[[i64; 4]],
    rect: [i64; 4],
    after: &[[i64; 4]],
) -> Result<bool, Fail> {
    let (low, high) = (rects_of(alloc, before)?, rects_of(alloc, after)?);
    let rect = rect_of(rect)?;
    let first = Region::from_rects(alloc, &low)?;
    let second = first.with_rect(alloc, &rect)?;
    let third = second.without_rect(alloc, &rect)?;
    let again = Region::from_rects(alloc, &high)?.without_rect(alloc, &rect)?;
    let back = again.with_rect(alloc, &rect)?;
    let forth = second.runs() == high.as_slice() && back.runs() == high.as_slice();
    Ok(forth && third.runs() == low.as_slice() && again.runs() == low.as_slice())
}

#[test]
fn what_touches_by_an_edge_or_a_corner_is_added_and_taken_off(rt: HostRuntime) -> Result<(), Fail> {
    let alloc = rt.alloc();
    let block: &[[i64; 4]] = &[[0, 0, 4, 4]];
    let edits: [([i64; 4], &[[i64; 4]]); 16] = [
        // the whole of its right, left, upper and lower edge
        ([4, 0, 6, 4], &[[0, 0, 6, 4]]),
        ([-3, 0, 0, 4], &[[-3, 0, 4, 4]]),
        ([0, 4, 4, 5], &[[0, 0, 4, 5]]),
        ([0, -9, 4, 0], &[[0, -9, 4, 4]]),
        // its lowest row, a row between, and its highest row, to the right
        ([4, 0, 6, 1], &[[0, 0, 6, 1], [0, 1, 4, 4]]),
        ([4, 1, 6, 2], &[[0, 0, 4, 1], [0, 1, 6, 2], [0, 2, 4, 4]]),
        ([4, 3, 6, 4], &[[0, 0, 4, 3], [0, 3, 6, 4]]),
        // the whole of its left edge and a row more at both ends
        (
            [-2, -1, 0, 5],
            &[[-2, -1, 0, 0], [-2, 0, 4, 4], [-2, 4, 0, 5]],
        ),
        // some of its upper edge, some of its lower edge, and more than either
        ([1, 4, 3, 6], &[[0, 0, 4, 4], [1, 4, 3, 6]]),
        ([-1, -2, 2, 0], &[[-1, -2, 2, 0], [0, 0, 4, 4]]),
        ([-1, 4, 5, 5], &[[0, 0, 4, 4], [-1, 4, 5, 5]]),
        // its four corners
        ([4, 4, 6, 6], &[[0, 0, 4, 4], [4, 4, 6, 6]]),
        ([-2, 4, 0, 6], &[[0, 0, 4, 4], [-2, 4, 0, 6]]),
        ([4, -2, 6, 0], &[[4, -2, 6, 0], [0, 0, 4, 4]]),
        ([-2, -2, 0, 0], &[[-2, -2, 0, 0], [0, 0, 4, 4]]),
        // apart from it by one column
        ([5, 0, 6, 4], &[[0, 0, 4, 4], [5, 0, 6, 4]]),
    ];
    for (rect, after) in edits {
        assert!(rt; turns_into(alloc, block, rect, after)?, "{rect:?}");
    }
    Ok(())
}

/// Runs, a rectangle that shares no square with them, and the runs of all.
const JOINED_AND_SPLIT: &[(&[[i64; 4]], [i64; 4], &[[i64; 4]])] = &[
    // one run of two: beside one another, and one on the other
    (&[[0, 0, 2, 4], [4, 0, 6, 4]], [2, 0, 4, 4], &[[0, 0, 6, 4]]),
    (&[[0, 0, 6, 1], [0, 3, 6, 4]], [0, 1, 6, 3], &[[0, 0, 6, 4]]),
    // of two with a corner free, at the lower and at the upper end
    (&[[0, 0, 2, 2], [0, 2, 4, 4]], [2, 0, 4, 2], &[[0, 0, 4, 4]]),
    (&[[0, 0, 4, 2], [2, 2, 4, 4]], [0, 2, 2, 4], &[[0, 0, 4, 4]]),
    // of three: a notch at the left, below and above
    (
        &[[0, 0, 6, 1], [2, 1, 6, 3], [0, 3, 6, 4]],
        [0, 1, 2, 3],
        &[[0, 0, 6, 4]],
    ),
    (
        &[[0, 0, 2, 2], [4, 0, 6, 2], [0, 2, 6, 4]],
        [2, 0, 4, 2],
        &[[0, 0, 6, 4]],
    ),
    (
        &[[0, 0, 6, 2], [0, 2, 2, 4], [4, 2, 6, 4]],
        [2, 2, 4, 4],
        &[[0, 0, 6, 4]],
    ),
    // of four: a hole
    (
        &[[0, 0, 6, 1], [0, 1, 2, 3], [4, 1, 6, 3], [0, 3, 6, 4]],
        [2, 1, 4, 3],
        &[[0, 0, 6, 4]],
    ),
    // five of two that stand: a bridge in their middle
    (
        &[[0, 0, 2, 5], [4, 0, 6, 5]],
        [2, 2, 4, 3],
        &[
            [0, 0, 2, 2],
            [4, 0, 6, 2],
            [0, 2, 6, 3],
            [0, 3, 2, 5],
            [4, 3, 6, 5],
        ],
    ),
    // a run between widened at its other side, and three runs of one
    (
        &[[1, 0, 3, 2], [1, 2, 4, 3], [1, 3, 3, 5]],
        [0, 2, 1, 3],
        &[[1, 0, 3, 2], [0, 2, 4, 3], [1, 3, 3, 5]],
    ),
    (
        &[[1, 0, 3, 5]],
        [3, 2, 4, 3],
        &[[1, 0, 3, 2], [1, 2, 4, 3], [1, 3, 3, 5]],
    ),
];

#[test]
fn runs_are_joined_and_split_in_two_three_and_four(rt: HostRuntime) -> Result<(), Fail> {
    let alloc = rt.alloc();
    for (before, rect, after) in JOINED_AND_SPLIT {
        assert!(rt;
            turns_into(alloc, before, *rect, after)?,
            "{rect:?} of {before:?}"
        );
    }
    Ok(())
}

/// Two runs with two rows in common.
const TWO: &[[i64; 4]] = &[[0, 0, 4, 4], [6, 2, 9, 4]];

/// A rectangle, and the runs of both with it and without it.
const OVER_TWO: &[([i64; 4], &[[i64; 4]], &[[i64; 4]])] = &[
    // within a run, a whole run, and all
    (
        [1, 1, 3, 4],
        TWO,
        &[[0, 0, 4, 1], [0, 1, 1, 4], [3, 1, 4, 4], [6, 2, 9, 4]],
    ),
    ([0, 0, 4, 4], TWO, &[[6, 2, 9, 4]]),
    ([0, 0, 9, 4], &[[0, 0, 9, 4]], &[]),
    ([-1, -1, 10, 5], &[[-1, -1, 10, 5]], &[]),
    // over a corner, over both in their common rows, and over the gap between them
    (
        [-1, 3, 1, 5],
        &[[0, 0, 4, 3], [6, 2, 9, 4], [-1, 3, 4, 4], [-1, 4, 1, 5]],
        &[[0, 0, 4, 3], [6, 2, 9, 4], [1, 3, 4, 4]],
    ),
    ([0, 2, 9, 4], &[[0, 0, 4, 2], [0, 2, 9, 4]], &[[0, 0, 4, 2]]),
    (
        [3, 3, 7, 4],
        &[[0, 0, 4, 3], [6, 2, 9, 3], [0, 3, 9, 4]],
        &[[0, 0, 4, 3], [6, 2, 9, 3], [0, 3, 3, 4], [7, 3, 9, 4]],
    ),
];

/// A rectangle that shares squares with the runs isn't taken off as it was added.
#[test]
fn rectangles_over_runs_leave_what_they_do_not_hold(rt: HostRuntime) -> Result<(), Fail> {
    let alloc = rt.alloc();
    let region = Region::from_rects(alloc, &rects_of(alloc, TWO)?)?;
    for (edges, with, without) in OVER_TWO {
        let rect = rect_of(*edges)?;
        let (more, less) = (rects_of(alloc, with)?, rects_of(alloc, without)?);
        assert!(rt;
            region.with_rect(alloc, &rect)?.runs() == more.as_slice(),
            "with {edges:?}"
        );
        assert!(rt;
            region.without_rect(alloc, &rect)?.runs() == less.as_slice(),
            "without {edges:?}"
        );
    }
    Ok(())
}

/// An edit among 300 wires, each way: a gap that is filled makes one run of two, and a bridge across it splits them.
#[test]
fn edits_among_many_wires_change_two_of_them(rt: HostRuntime) -> Result<(), Fail> {
    let alloc = rt.alloc();
    let lying = repeated(alloc, 300, [0, 0, 90, 1], [0, 2, 0, 2])?;
    let region = Region::from_rects(alloc, &lying)?;
    let bridged = region.with_rect(alloc, &rect_of([40, 301, 60, 302])?)?;
    let mut runs = repeated(alloc, 151, [0, 0, 90, 1], [0, 2, 0, 2])?;
    runs.push(rect_of([40, 301, 60, 302])?)?;
    runs.extend_from_slice(&repeated(alloc, 149, [0, 302, 90, 303], [0, 2, 0, 2])?)?;
    assert!(rt; bridged.runs() == runs.as_slice());
    let filled = bridged.with_rect(alloc, &rect_of([0, 301, 90, 302])?)?;
    let mut runs = repeated(alloc, 150, [0, 0, 90, 1], [0, 2, 0, 2])?;
    runs.push(rect_of([0, 300, 90, 303])?)?;
    runs.extend_from_slice(&repeated(alloc, 148, [0, 304, 90, 305], [0, 2, 0, 2])?)?;
    assert!(rt; filled.runs() == runs.as_slice());
    let again = filled.without_rect(alloc, &rect_of([-5, 301, 95, 302])?)?;
    assert!(rt; again.runs() == lying.as_slice());

    let standing = repeated(alloc, 300, [0, 0, 1, 90], [2, 0, 2, 0])?;
    let region = Region::from_rects(alloc, &standing)?;
    let filled = region.with_rect(alloc, &rect_of([301, 0, 302, 90])?)?;
    let mut runs = repeated(alloc, 150, [0, 0, 1, 90], [2, 0, 2, 0])?;
    runs.push(rect_of([300, 0, 303, 90])?)?;
    runs.extend_from_slice(&repeated(alloc, 148, [304, 0, 305, 90], [2, 0, 2, 0])?)?;
    assert!(rt; filled.runs() == runs.as_slice());
    let bridged = filled.without_rect(alloc, &rect_of([301, 0, 302, 40])?)?;
    let mut runs = repeated(alloc, 150, [0, 0, 1, 90], [2, 0, 2, 0])?;
    runs.extend_from_slice(&rects_of(alloc, &[[300, 0, 301, 40], [302, 0, 303, 40]])?)?;
    runs.extend_from_slice(&repeated(alloc, 148, [304, 0, 305, 90], [2, 0, 2, 0])?)?;
    runs.push(rect_of([300, 40, 303, 90])?)?;
    assert!(rt; bridged.runs() == runs.as_slice());
    let again = bridged.without_rect(alloc, &rect_of([301, -5, 302, 95])?)?;
    assert!(rt; again.runs() == standing.as_slice());
    Ok(())
}
