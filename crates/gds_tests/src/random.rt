//! Random designs: what lies in a frame is what all of the design draws, met with the frame.

use crate::designs::{RIGHT, Turn, put_array, put_boundary, put_single};
use crate::records::{CHECKED, METAL, begin_cell, finished, head, name_of, put};
use fill_base::Rect;
use fill_region::Region;
use gds_flatten::{flatten, flatten_within};
use gds_grammar::read_library;
use std::alloc::Global;
use std::test::*;
use std::thread::Threads;

/// Numbers that look random: a linear congruential generator.
#[derive(Drop)]
struct Dice {
    state: u32,
}

impl Dice {
    /// A number below the given one; 0 where that is 0.
    fn below(&mut self, end: u16) -> i32 {
        self.state = self
            .state
            .wrapping_mul(1_664_525)
            .wrapping_add(1_013_904_223);
        let number = (self.state >> 16).checked_rem(u32::from(end));
        i32::try_from(number.unwrap_or(0)).unwrap_or(0)
    }

    /// A number from `-end` on and below `end`.
    fn around(&mut self, end: u16) -> i32 {
        let number = self.below(end.saturating_mul(2));
        number.wrapping_sub(i32::from(end))
    }
}

/// One of the eight orientations.
fn turn_of(dice: &mut Dice) -> Turn {
    let flags = if dice.below(2) == 0 { 0 } else { 0x8000 };
    let angle = match dice.below(4) {
        0 => 0,
        1 => RIGHT,
        2 => 0x42b4_0000,
        _ => 0x4310_e000,
    };
    Some((flags, angle))
}

/// Appends a rectangle near the origin.
fn put_rect(bytes: &mut Vec<u8>, dice: &mut Dice) -> Result<(), Fail> {
    let (x, y) = (dice.around(20), dice.around(20));
    let right = x.wrapping_add(dice.below(9)).wrapping_add(1);
    let top = y.wrapping_add(dice.below(9)).wrapping_add(1);
    let points = [(x, y), (right, y), (right, top), (x, top), (x, y)];
    put_boundary(bytes, METAL, &points)
}

/// Appends an array of up to four by four of the cell, in steps to any side or none.
fn put_grid(bytes: &mut Vec<u8>, dice: &mut Dice, cell: u16) -> Result<(), Fail> {
    let (columns, rows) = (dice.below(4).wrapping_add(1), dice.below(4).wrapping_add(1));
    let (x, y) = (dice.around(60), dice.around(60));
    let right = (
        x.wrapping_add(columns.wrapping_mul(dice.around(30))),
        y.wrapping_add(columns.wrapping_mul(dice.around(30))),
    );
    let up = (
        x.wrapping_add(rows.wrapping_mul(dice.around(30))),
        y.wrapping_add(rows.wrapping_mul(dice.around(30))),
    );
    let counts = (
        u16::try_from(columns).unwrap_or(1),
        u16::try_from(rows).unwrap_or(1),
    );
    put_array(bytes, cell, turn_of(dice), counts, &[(x, y), right, up])
}

/// The bytes of a design four cells deep: each has two rectangles, and refers to the next one singly and by an array.
fn random_design(alloc: Global, dice: &mut Dice) -> Result<Vec<u8>, Fail> {
    let mut bytes = head(alloc)?;
    for cell in 0..4u16 {
        begin_cell(&mut bytes, cell)?;
        put_rect(&mut bytes, dice)?;
        if cell < 3 {
            let below = cell.wrapping_add(1);
            let origin = (dice.around(60), dice.around(60));
            put_single(&mut bytes, below, turn_of(dice), origin)?;
            put_grid(&mut bytes, dice, below)?;
        }
        put_rect(&mut bytes, dice)?;
        put(&mut bytes, 7, 0, &[])?;
    }
    finished(bytes)
}

/// A frame near the origin.
fn frame_of(dice: &mut Dice) -> Result<Rect, Fail> {
    let (x, y) = (i64::from(dice.around(150)), i64::from(dice.around(150)));
    let right = x.wrapping_add(i64::from(dice.below(80))).wrapping_add(1);
    let top = y.wrapping_add(i64::from(dice.below(80))).wrapping_add(1);
    Ok(Rect::new(x, y, right, top)?)
}

/// How many of so many frames hold something else than the design met with them.
fn wrong_frames(
    rt: &(impl Threads + Sync),
    alloc: Global,
    dice: &mut Dice,
    frames: u32,
) -> Result<u32, Fail> {
    let bytes = random_design(alloc, dice)?;
    let library = read_library(alloc, &bytes)?;
    let whole = flatten(rt, alloc, &library, &name_of(0), &[CHECKED])?;
    let mut wrong = 0u32;
    for _ in 0..frames {
        let frame = frame_of(dice)?;
        let part = flatten_within(rt, alloc, &library, &name_of(0), &[CHECKED], &frame)?;
        if Region::from_rects(alloc, &part)? != whole.clip(alloc, &frame)? {
            wrong = wrong.wrapping_add(1);
        }
    }
    Ok(wrong)
}

#[test]
fn frames_of_random_designs(rt: HostRuntime) -> Result<(), Fail> {
    let mut dice = Dice { state: 1 };
    for _ in 0..12u32 {
        assert_eq!(rt; wrong_frames(&rt, rt.alloc(), &mut dice, 200)?, 0);
    }
    Ok(())
}
