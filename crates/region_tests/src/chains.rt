//! Chains of random operations on a board of 24 by 24 squares: after each step, the runs are those of the squares.

use crate::squares::{Dice, grid_of, rect_of, runs_of_grid, single_squares};
use fill_base::Rect;
use fill_region::{Region, region_of_rects, runs_near};
use std::alloc::Global;
use std::test::Fail;

/// What a step keeps of the squares before it and those of its rectangles.
#[derive(Clone, Copy)]
enum Kept {
    Either,
    FirstAlone,
    Both,
}

/// A rectangle of the board, which begins at (-12, -12). Thin ones are as frequent as wide ones.
fn rect_on_board(dice: &mut Dice) -> Result<Rect, Fail> {
    let left = dice.below(24).wrapping_sub(12);
    let bottom = dice.below(24).wrapping_sub(12);
    let (mut wide, mut tall) = (dice.below(12), dice.below(12));
    match dice.below(3) {
        0 => wide = 0,
        1 => tall = 0,
        _ => {}
    }
    let right = left.wrapping_add(wide).wrapping_add(1).min(12);
    let top = bottom.wrapping_add(tall).wrapping_add(1).min(12);
    rect_of([left, bottom, right, top])
}

/// So many rectangles of the board.
fn rects_on_board(alloc: Global, dice: &mut Dice, count: i64) -> Result<Vec<Rect>, Fail> {
    let mut rects = Vec::new(alloc);
    for _ in 0..count {
        rects.push(rect_on_board(dice)?)?;
    }
    Ok(rects)
}

/// A frame about the middle of the board, which reaches over some of the board's sides.
fn frame_on_board(dice: &mut Dice) -> Result<Rect, Fail> {
    let left = dice.below(14).wrapping_sub(15);
    let bottom = dice.below(14).wrapping_sub(15);
    let right = dice.below(14).wrapping_add(2);
    let top = dice.below(14).wrapping_add(2);
    rect_of([left, bottom, right, top])
}

/// A region and its squares.
#[derive(Drop)]
struct Counted {
    region: Region,
    grid: Vec<u64>,
}

impl Counted {
    /// Whether the runs are those of the squares.
    fn agrees(&self, alloc: Global) -> Result<bool, Fail> {
        let runs = runs_of_grid(alloc, &self.grid)?;
        Ok(self.region.runs() == runs.as_slice())
    }

    /// The squares that a step keeps.
    fn grid_after(&self, alloc: Global, kept: Kept, rects: &[Rect]) -> Result<Vec<u64>, Fail> {
        let second = grid_of(alloc, rects)?;
        let mut rows = Vec::new(alloc);
        for (a, b) in self.grid.iter().zip(&second) {
            rows.push(match kept {
                Kept::Either => *a | *b,
                Kept::FirstAlone => *a & !*b,
                Kept::Both => *a & *b,
            })?;
        }
        Ok(rows)
    }

    /// A step with a region of several rectangles.
    fn with_region(&self, alloc: Global, dice: &mut Dice, kept: Kept) -> Result<Counted, Fail> {
        let count = match kept {
            Kept::Both => 24,
            _ => dice.below(6).wrapping_add(1),
        };
        let rects = rects_on_board(alloc, dice, count)?;
        let other = Region::from_rects(alloc, &rects)?;
        let region = match kept {
            Kept::Either => self.region.union(alloc, &other)?,
            Kept::FirstAlone => self.region.minus(alloc, &other)?,
            Kept::Both => self.region.meet(alloc, &other)?,
        };
        let grid = self.grid_after(alloc, kept, &rects)?;
        Ok(Counted { region, grid })
    }

    /// A step with one rectangle.
    fn with_one(&self, alloc: Global, dice: &mut Dice, kept: Kept) -> Result<Counted, Fail> {
        let rect = match kept {
            Kept::Both => frame_on_board(dice)?,
            _ => rect_on_board(dice)?,
        };
        let region = match kept {
            Kept::Either => self.region.with_rect(alloc, &rect)?,
            Kept::FirstAlone => self.region.without_rect(alloc, &rect)?,
            Kept::Both => self.region.clip(alloc, &rect)?,
        };
        let grid = self.grid_after(alloc, kept, &[rect])?;
        Ok(Counted { region, grid })
    }

    /// A step that takes what lies in a frame from the runs near to it.
    fn near(&self, alloc: Global, dice: &mut Dice) -> Result<Counted, Fail> {
        let frame = frame_on_board(dice)?;
        let near = runs_near(alloc, self.region.runs(), &frame)?;
        let region = Region::of_runs(alloc, &near, &frame)?;
        let grid = self.grid_after(alloc, Kept::Both, &[frame])?;
        Ok(Counted { region, grid })
    }

    /// Any step. Half of them add squares.
    fn step(&self, alloc: Global, dice: &mut Dice) -> Result<Counted, Fail> {
        match dice.below(10) {
            0 | 1 | 2 => self.with_region(alloc, dice, Kept::Either),
            3 | 4 => self.with_one(alloc, dice, Kept::Either),
            5 => self.with_region(alloc, dice, Kept::FirstAlone),
            6 => self.with_one(alloc, dice, Kept::FirstAlone),
            7 => self.with_region(alloc, dice, Kept::Both),
            8 => self.with_one(alloc, dice, Kept::Both),
            _ => self.near(alloc, dice),
        }
    }
}

#[test]
fn a_thousand_chains_keep_the_runs_of_their_squares(rt: HostRuntime) -> Result<(), Fail> {
    let alloc = rt.alloc();
    let mut dice = Dice::new(72);
    for chain in 0..1_000u32 {
        let count = dice.below(14);
        let rects = rects_on_board(alloc, &mut dice, count)?;
        let mut counted = Counted {
            region: region_of_rects(&rt, alloc, &rects)?,
            grid: grid_of(alloc, &rects)?,
        };
        assert!(rt; counted.agrees(alloc)?, "chain {chain} at its beginning");
        for step in 0..6u32 {
            counted = counted.step(alloc, &mut dice)?;
            assert!(rt; counted.agrees(alloc)?, "chain {chain} after step {step}");
        }
        let singles = single_squares(alloc, &counted.grid)?;
        let anew = Region::from_rects(alloc, &singles)?;
        assert!(rt; anew == counted.region, "chain {chain} from its squares");
        assert!(rt;
            anew.runs() == counted.region.runs(),
            "chain {chain} from its squares"
        );
    }
    Ok(())
}

/// Three ways to the same squares, of two random sets: their union is what either has alone and what both have.
#[test]
fn sets_put_together_anew_are_the_same_lists(rt: HostRuntime) -> Result<(), Fail> {
    let alloc = rt.alloc();
    let mut dice = Dice::new(24);
    for pair in 0..300u32 {
        let first = rects_on_board(alloc, &mut dice, 10)?;
        let second = rects_on_board(alloc, &mut dice, 10)?;
        let (a, b) = (
            Region::from_rects(alloc, &first)?,
            Region::from_rects(alloc, &second)?,
        );
        let (left, right) = (a.minus(alloc, &b)?, b.minus(alloc, &a)?);
        let both = a.meet(alloc, &b)?;
        let union = left.union(alloc, &right)?.union(alloc, &both)?;
        let mut rects = first;
        rects.extend_from_slice(&second)?;
        let runs = runs_of_grid(alloc, &grid_of(alloc, &rects)?)?;
        assert!(rt; union.runs() == runs.as_slice(), "pair {pair}");
        assert!(rt;
            a.union(alloc, &b)?.runs() == runs.as_slice(),
            "pair {pair}"
        );
        assert!(rt;
            union.minus(alloc, &right)?.runs() == a.runs(),
            "pair {pair}"
        );
    }
    Ok(())
}
