//! What the tests of regions share: lists of rectangles, numbers that look random, and squares that are counted one by one.

use fill_base::Rect;
use fill_region::{Region, region_of_rects};
use std::alloc::Global;
use std::test::Fail;
use std::thread::Threads;

/// A rectangle by its left, lower, right and upper edge.
pub(crate) fn rect_of(corners: [i64; 4]) -> Result<Rect, Fail> {
    let [x1, y1, x2, y2] = corners;
    Ok(Rect::new(x1, y1, x2, y2)?)
}

/// Rectangles by their left, lower, right and upper edges.
pub(crate) fn rects_of(alloc: Global, corners: &[[i64; 4]]) -> Result<Vec<Rect>, Fail> {
    let mut rects = Vec::new(alloc);
    for edges in corners {
        rects.push(rect_of(*edges)?)?;
    }
    Ok(rects)
}

/// Whether the rectangles make these runs: on all threads, on one, and from the last rectangle to the first.
pub(crate) fn make<R: Threads + Sync>(
    rt: &R,
    alloc: Global,
    rects: &[Rect],
    runs: &[Rect],
) -> Result<bool, Fail> {
    let together = region_of_rects(rt, alloc, rects)?;
    let alone = Region::from_rects(alloc, rects)?;
    let mut backwards = Vec::from_slice(alloc, rects)?;
    backwards.reverse();
    let last_first = Region::from_rects(alloc, &backwards)?;
    Ok(together.runs() == runs && alone.runs() == runs && last_first.runs() == runs)
}

/// How many squares the rectangles hold, those of several as often.
pub(crate) fn count_of(rects: &[Rect]) -> i64 {
    let mut count = 0i64;
    for rect in rects {
        count = count.wrapping_add(rect.area());
    }
    count
}

/// Appends the rows of a rectangle from `bottom` to `top`, in parts of so many columns, or fewer at its right edge.
fn push_row(
    parts: &mut Vec<Rect>,
    rect: &Rect,
    bottom: i64,
    top: i64,
    wide: i64,
) -> Result<(), Fail> {
    let mut left = rect.x1();
    for _ in rect.x1()..rect.x2() {
        if left < rect.x2() {
            let right = left.wrapping_add(wide).min(rect.x2());
            parts.push(rect_of([left, bottom, right, top])?)?;
            left = right;
        }
    }
    Ok(())
}

/// Appends a rectangle in parts of so many columns and rows, or fewer at its right and upper edges.
fn push_parts(parts: &mut Vec<Rect>, rect: &Rect, wide: i64, tall: i64) -> Result<(), Fail> {
    let mut bottom = rect.y1();
    for _ in rect.y1()..rect.y2() {
        if bottom < rect.y2() {
            let top = bottom.wrapping_add(tall).min(rect.y2());
            push_row(parts, rect, bottom, top, wide)?;
            bottom = top;
        }
    }
    Ok(())
}

/// The rectangles in parts of so many columns and rows, or fewer at their right and upper edges.
pub(crate) fn parts_of(
    alloc: Global,
    rects: &[Rect],
    wide: i64,
    tall: i64,
) -> Result<Vec<Rect>, Fail> {
    let mut parts = Vec::new(alloc);
    for rect in rects {
        push_parts(&mut parts, rect, wide, tall)?;
    }
    Ok(parts)
}

/// So many rectangles: the first, and then each with its edges so much further than those of the one before.
pub(crate) fn repeated(
    alloc: Global,
    count: u32,
    first: [i64; 4],
    further: [i64; 4],
) -> Result<Vec<Rect>, Fail> {
    let mut rects = Vec::new(alloc);
    let [mut x1, mut y1, mut x2, mut y2] = first;
    let [left, lower, right, upper] = further;
    for _ in 0..count {
        rects.push(rect_of([x1, y1, x2, y2])?)?;
        x1 = x1.wrapping_add(left);
        y1 = y1.wrapping_add(lower);
        x2 = x2.wrapping_add(right);
        y2 = y2.wrapping_add(upper);
    }
    Ok(rects)
}

/// Numbers that look random: a linear congruential generator.
#[derive(Drop)]
pub(crate) struct Dice {
    state: u32,
}

impl Dice {
    /// The generator of this seed.
    pub(crate) fn new(seed: u32) -> Dice {
        Dice { state: seed }
    }

    /// A number below the given one; 0 where that is 0.
    pub(crate) fn below(&mut self, end: u32) -> i64 {
        self.state = self
            .state
            .wrapping_mul(1_664_525)
            .wrapping_add(1_013_904_223);
        i64::from((self.state >> 16).checked_rem(end).unwrap_or(0))
    }
}

/// The bits of the squares from column `left` on and before `right`: the lowest bit is column -32, the highest 31.
fn bits(left: i64, right: i64) -> u64 {
    let mut bits = 0;
    for place in 0..64u32 {
        let column = i64::from(place).wrapping_sub(32);
        if left <= column && column < right {
            bits |= 1u64.wrapping_shl(place);
        }
    }
    bits
}

/// The squares of a row that some rectangle holds.
fn row_of(rects: &[Rect], y: i64) -> u64 {
    let mut row = 0;
    for rect in rects {
        if rect.y1() <= y && y < rect.y2() {
            row |= bits(rect.x1(), rect.x2());
        }
    }
    row
}

/// The squares that the rectangles hold of a grid: its rows from -31 to 30, with a bit for each column.
pub(crate) fn grid_of(alloc: Global, rects: &[Rect]) -> Result<Vec<u64>, Fail> {
    let mut rows = Vec::new(alloc);
    for y in -31..31i64 {
        rows.push(row_of(rects, y))?;
    }
    Ok(rows)
}

/// The longest intervals of a row from column -31 to 30: where they begin, and where they end.
fn intervals(alloc: Global, row: u64) -> Result<Vec<(i64, i64)>, Fail> {
    let mut found = Vec::new(alloc);
    let mut begin = None;
    for place in 1..64u32 {
        let column = i64::from(place).wrapping_sub(32);
        let is_held = row.wrapping_shr(place) & 1 == 1;
        match (begin, is_held) {
            (None, true) => begin = Some(column),
            (Some(left), false) => {
                found.push((left, column))?;
                begin = None;
            }
            _ => {}
        }
    }
    Ok(found)
}

/// Whether the row has these squares, but neither the one before nor the one after.
fn has_interval(row: u64, left: i64, right: i64) -> bool {
    row & bits(left.wrapping_sub(1), right.wrapping_add(1)) == bits(left, right)
}

/// The row in which an interval ends that is one from row `y` upwards.
fn top_of(grid: &[u64], y: i64, left: i64, right: i64) -> i64 {
    let mut top = y;
    for (row, at) in grid.iter().zip(-31..31i64) {
        if at == top && has_interval(*row, left, right) {
            top = top.wrapping_add(1);
        }
    }
    top
}

/// The runs of a grid by what a run is: an interval that isn't one of the row below, with all rows upwards in which it is one.
pub(crate) fn runs_of_grid(alloc: Global, grid: &[u64]) -> Result<Vec<Rect>, Fail> {
    let mut runs = Vec::new(alloc);
    let mut below = 0;
    for (row, y) in grid.iter().zip(-31..31i64) {
        for (left, right) in &intervals(alloc, *row)? {
            if !has_interval(below, *left, *right) {
                let top = top_of(grid, y, *left, *right);
                runs.push(rect_of([*left, y, *right, top])?)?;
            }
        }
        below = *row;
    }
    Ok(runs)
}

/// Each square of a grid as a rectangle of its own.
pub(crate) fn single_squares(alloc: Global, grid: &[u64]) -> Result<Vec<Rect>, Fail> {
    let mut singles = Vec::new(alloc);
    for (row, y) in grid.iter().zip(-31..31i64) {
        for place in 1..63u32 {
            if row.wrapping_shr(place) & 1 == 1 {
                let x = i64::from(place).wrapping_sub(32);
                singles.push(rect_of([x, y, x.wrapping_add(1), y.wrapping_add(1)])?)?;
            }
        }
    }
    Ok(singles)
}
