//! Lists so long that they are cut in two, of blocks that begin and end just where they are cut. Each block is there many
//! times, so that most rectangles meet in one line, and a cut along it crosses none of them.

use crate::squares::{count_of, make, parts_of, rect_of, rects_of, repeated};
use fill_base::Rect;
use std::alloc::Global;
use std::test::Fail;

/// Each block so many times, one after another and all of them again.
fn piled(alloc: Global, blocks: &[[i64; 4]], times: u32) -> Result<Vec<Rect>, Fail> {
    let mut rects = Vec::new(alloc);
    for _ in 0..times {
        rects.extend_from_slice(&rects_of(alloc, blocks)?)?;
    }
    Ok(rects)
}

/// The blocks on one side of a line, those on its other side, and the runs of both.
type Courses = (
    &'static [[i64; 4]],
    &'static [[i64; 4]],
    &'static [[i64; 4]],
);

/// Blocks that end at the lowest row.
const BELOW: &[[i64; 4]] = &[[0, -5, 10, 0], [20, -5, 30, 0], [40, -5, 50, 0]];

/// Blocks that end at column 0.
const LEFT: &[[i64; 4]] = &[[-5, 0, 0, 10], [-5, 20, 0, 30], [-5, 40, 0, 50]];

/// Courses that meet in the lowest row.
const IN_A_ROW: &[Courses] = &[
    // equal sides, one column more to the left, and half of the columns
    (
        BELOW,
        &[[0, 0, 10, 5], [19, 0, 30, 5], [45, 0, 55, 5]],
        &[
            [0, -5, 10, 5],
            [20, -5, 30, 0],
            [40, -5, 50, 0],
            [19, 0, 30, 5],
            [45, 0, 55, 5],
        ],
    ),
    // all of them equal
    (
        BELOW,
        &[[0, 0, 10, 5], [20, 0, 30, 5], [40, 0, 50, 5]],
        &[[0, -5, 10, 5], [20, -5, 30, 5], [40, -5, 50, 5]],
    ),
    // corner to corner alone
    (
        BELOW,
        &[[10, 0, 20, 5], [30, 0, 40, 5], [50, 0, 60, 5]],
        &[
            [0, -5, 10, 0],
            [20, -5, 30, 0],
            [40, -5, 50, 0],
            [10, 0, 20, 5],
            [30, 0, 40, 5],
            [50, 0, 60, 5],
        ],
    ),
    // side by side: one interval below the line and above it
    (
        &[[0, -5, 10, 0], [10, -5, 20, 0], [20, -5, 30, 0]],
        &[[0, 0, 15, 5], [15, 0, 25, 5], [25, 0, 30, 5]],
        &[[0, -5, 30, 5]],
    ),
];

/// The same turned: courses that meet in column 0.
const IN_A_COLUMN: &[Courses] = &[
    // equal rows, one row more below, and half of the rows
    (
        LEFT,
        &[[0, 0, 5, 10], [0, 19, 5, 30], [0, 45, 5, 55]],
        &[
            [-5, 0, 5, 10],
            [0, 19, 5, 20],
            [-5, 20, 5, 30],
            [-5, 40, 0, 45],
            [-5, 45, 5, 50],
            [0, 50, 5, 55],
        ],
    ),
    // all of them equal
    (
        LEFT,
        &[[0, 0, 5, 10], [0, 20, 5, 30], [0, 40, 5, 50]],
        &[[-5, 0, 5, 10], [-5, 20, 5, 30], [-5, 40, 5, 50]],
    ),
    // corner to corner alone
    (
        LEFT,
        &[[0, 10, 5, 20], [0, 30, 5, 40], [0, 50, 5, 60]],
        &[
            [-5, 0, 0, 10],
            [0, 10, 5, 20],
            [-5, 20, 0, 30],
            [0, 30, 5, 40],
            [-5, 40, 0, 50],
            [0, 50, 5, 60],
        ],
    ),
    // one on the other on both sides of the line
    (
        &[[-5, 0, 0, 10], [-5, 10, 0, 20], [-5, 20, 0, 30]],
        &[[0, 0, 5, 15], [0, 15, 5, 25], [0, 25, 5, 30]],
        &[[-5, 0, 5, 30]],
    ),
];

/// Three blocks end at a line and three begin there: 60 times each for a sweep of either course, 1,500 times for threads.
#[test]
fn courses_that_meet_in_a_line_are_joined_where_they_are_equal(
    rt: HostRuntime,
) -> Result<(), Fail> {
    let alloc = rt.alloc();
    for courses in [IN_A_ROW, IN_A_COLUMN] {
        for (first, second, runs) in courses {
            let wanted = rects_of(alloc, runs)?;
            for times in [1, 60, 1_500] {
                let mut rects = piled(alloc, first, times)?;
                rects.extend_from_slice(&piled(alloc, second, times)?)?;
                let is_so = make(&rt, alloc, &rects, &wanted)?;
                assert!(rt; is_so, "{times} times {first:?} and {second:?}");
            }
        }
    }
    Ok(())
}

/// 10,000 single squares: all of a block, every second row, every second column, and every second square.
#[test]
fn single_squares_of_a_block_are_joined_over_all_cuts(rt: HostRuntime) -> Result<(), Fail> {
    let alloc = rt.alloc();
    let block = rects_of(alloc, &[[-50, -50, 50, 50]])?;
    let lying = repeated(alloc, 100, [-50, -100, 50, -99], [0, 2, 0, 2])?;
    let standing = repeated(alloc, 100, [-100, -50, -99, 50], [2, 0, 2, 0])?;
    for runs in [&block, &lying, &standing] {
        let squares = parts_of(alloc, runs, 1, 1)?;
        assert!(rt; squares.len() == 10_000);
        assert!(rt; make(&rt, alloc, &squares, runs)?);
    }
    let mut chequers = Vec::new(alloc);
    for y in -50..50i64 {
        let left = (y & 1).wrapping_sub(100);
        let row = [left, y, left.wrapping_add(1), y.wrapping_add(1)];
        chequers.extend_from_slice(&repeated(alloc, 100, row, [2, 0, 2, 0])?)?;
    }
    assert!(rt; chequers.len() == 10_000 && count_of(&chequers) == 10_000);
    assert!(rt; make(&rt, alloc, &chequers, &chequers)?);
    Ok(())
}

/// One wire of 9,000 pieces that overlap by half, either way, and a second one that lies or stands against its end.
#[test]
fn a_wire_of_many_pieces_is_one_run(rt: HostRuntime) -> Result<(), Fail> {
    let alloc = rt.alloc();
    let mut lying = repeated(alloc, 9_000, [0, 0, 20, 3], [10, 0, 10, 0])?;
    let wire = rects_of(alloc, &[[0, 0, 90_010, 3]])?;
    assert!(rt; make(&rt, alloc, &lying, &wire)?);
    lying.push(rect_of([90_010, 1, 90_011, 9])?)?;
    let bent = rects_of(
        alloc,
        &[[0, 0, 90_010, 1], [0, 1, 90_011, 3], [90_010, 3, 90_011, 9]],
    )?;
    assert!(rt; make(&rt, alloc, &lying, &bent)?);

    let mut standing = repeated(alloc, 9_000, [0, 0, 3, 20], [0, 10, 0, 10])?;
    let wire = rects_of(alloc, &[[0, 0, 3, 90_010]])?;
    assert!(rt; make(&rt, alloc, &standing, &wire)?);
    standing.push(rect_of([1, 90_010, 9, 90_011])?)?;
    let bent = rects_of(alloc, &[[0, 0, 3, 90_010], [1, 90_010, 9, 90_011]])?;
    assert!(rt; make(&rt, alloc, &standing, &bent)?);
    Ok(())
}
