//! The density windows of a layer.
ghost use Rattle.std.specs.Prelude.{◌≡◌, ◌↔◌, ℕ, ℤ, Bool, None, IfSome, ◌<◌, ◌*◌, ◌/◌, ◌%◌, ◌≤◌, ◌*ℤ◌, IsTrue, IsOk, IfOk};
ghost use Rattle.fill_base.specs.Squares.{squares};
ghost use Rattle.fill_area.specs.Axes.{IsAxis, IsIndex, IsTouching, IsContaining, IsRangeOf};
ghost use Rattle.fill_base.specs.Sides.{sides_of};
ghost use Rattle.fill_area.specs.Grid.{Grid, IsGrid, all_coordinates, clipped_to, counted_size, grid_of, parts_across, parts_up, window_left, window_right, window_bottom, window_top};
ghost use Rattle.fill_area.specs.Parts.{AreParts};
ghost use Rattle.fill_area.specs.Sharing.{IsWindow, ShareASquare, Holds, in_clip, option_squares, part_squares, window_squares};
ghost use Rattle.fill_area.specs.Density.{IsArea, option_area, window_area};

use crate::axis::Axis;
use crate::parts::{Clip, Parts};
use fill_base::{HIGHEST, LOWEST, Point, Rect};
use std::marker::Model;
use std::ops::Range;
use thiserror::Error;

/// Numbers that make no grid of windows.
#[derive(Clone, Copy, Debug, PartialEq, Eq, Error)]
#[error("a window's size, step, count or place is out of its limits")]
pub struct BadWindows;

/// Windows within these edges count whole.
const ALL_COORDINATES: Clip = Clip {
    left: LOWEST,
    bottom: LOWEST,
    right: HIGHEST,
    top: HIGHEST,
};

/// The largest number of windows of a grid.
const MOST_WINDOWS: u64 = 1_048_576;

/// A grid of equal density windows: they may overlap, touch or leave gaps. The window in column `a` and
/// row `b` lies where the span at index `a` across and the one at index `b` upwards cross. (KLayout's
/// `with_density` with a tile size, step, origin and count.) What counts of each window is what lies within one rectangle, the same for
/// all: a whole window, unless the windows were clipped.
#[derive(Clone, Copy, Debug, PartialEq, Eq)]
pub struct Windows {
    across: Axis,
    up: Axis,
    clip: Clip,
}

impl Model for Windows {
    ghost Value = { Grid };

    ghost view = { λ w. record { across = w.across; up = w.up; clip = w.clip } };

    ghost invariant = { λ w. IsGrid (record { across = w.across; up = w.up; clip = w.clip }) };

    ghost inverse = { λ g. record { across = g.across; up = g.up; clip = g.clip } };
}

/// Whether there are at most 2^20 windows.
fn are_few(columns: u32, rows: u32) -> bool
    ensures { IsTrue result ↔ (columns * rows ≤ 1048576) }
{
    u64::from(columns) * u64::from(rows) <= MOST_WINDOWS
}

impl Windows {
    /// The windows with their first lower left corner, their size (width, height), their steps to
    /// the right and upwards, and their numbers of columns and rows.
    ///
    /// # Errors
    /// `BadWindows` where a side, a step or a count is not from 1 to 2^20, where there are more than
    /// 2^20 windows, or where a window leaves the range of coordinates.
    pub fn new(
        origin: Point,
        size: (i64, i64),
        step: (i64, i64),
        count: (u32, u32),
    ) -> Result<Windows, BadWindows>
        ensures ok { IsOk result ↔ IsGrid (grid_of origin size step count) }
        ensures grid { IfOk result (λ w. w ≡ grid_of origin size step count) }
    {
        let across = Axis {
            first: origin.x,
            length: size.0,
            step: step.0,
            count: count.0,
        };
        let up = Axis {
            first: origin.y,
            length: size.1,
            step: step.1,
            count: count.1,
        };
        if across.is_within() & up.is_within() & are_few(across.count, up.count) {
            Ok(Windows {
                across,
                up,
                clip: ALL_COORDINATES,
            })
        } else {
            Err(BadWindows)
        }
    }

    /// The windows of a row, from left to right.
    pub fn across(&self) -> Axis
        ensures value { result ≡ self.now.across }
        ensures axis { IsAxis result }
    {
        self.across
    }

    /// The windows of a column, upwards.
    pub fn up(&self) -> Axis
        ensures value { result ≡ self.now.up }
        ensures axis { IsAxis result }
    {
        self.up
    }

    /// How many columns of windows there are.
    pub fn columns(&self) -> u32
        ensures { result ≡ self.now.across.count }
    {
        self.across.count
    }

    /// How many rows of windows there are.
    pub fn rows(&self) -> u32
        ensures { result ≡ self.now.up.count }
    {
        self.up.count
    }

    /// The same windows, of which only what lies within the rectangle counts.
    pub fn clipped_to(&self, rect: &Rect) -> Windows
        ensures { result ≡ clipped_to self.now (sides_of rect.now) }
    {
        Windows {
            clip: Clip {
                left: rect.x1(),
                bottom: rect.y1(),
                right: rect.x2(),
                top: rect.y2(),
            },
            ..*self
        }
    }

    /// What counts of the windows of a row, from left to right.
    pub fn parts_across(&self) -> Parts
        ensures value { result ≡ parts_across self.now }
        ensures parts { AreParts result }
    {
        Parts {
            axis: self.across,
            low: self.clip.left,
            high: self.clip.right,
        }
    }

    /// What counts of the windows of a column, upwards.
    pub fn parts_up(&self) -> Parts
        ensures value { result ≡ parts_up self.now }
        ensures parts { AreParts result }
    {
        Parts {
            axis: self.up,
            low: self.clip.bottom,
            high: self.clip.top,
        }
    }

    /// What counts of the window in column `a` and row `b`, if something does.
    pub fn part(&self, a: u32, b: u32) -> Option<Rect>
        requires column { a < self.now.across.count }
        requires row { b < self.now.up.count }
        ensures squares { (x y : ℤ) → part_squares self.now a b x y ≡ option_squares result x y }
        ensures area { (p : ℤ → ℤ → Bool) → window_area p self.now a b ≡ option_area p result }
    {
        let (x1, x2) = self.parts_across().extent(a);
        let (y1, y2) = self.parts_up().extent(b);
        if x1 < x2 && y1 < y2 {
            Some(Rect::from_edges(x1, y1, x2, y2))
        } else {
            None
        }
    }

    /// How many squares count of the window in column `a` and row `b`.
    pub fn counted_size(&self, a: u32, b: u32) -> i64
        requires column { a < self.now.across.count }
        requires row { b < self.now.up.count }
        ensures size { result ≡ counted_size self.now a b }
        ensures area { IsArea result }
    {
        let (x1, x2) = self.parts_across().extent(a);
        let (y1, y2) = self.parts_up().extent(b);
        (x2 - x1) * (y2 - y1)
    }

    /// The rectangle within which windows count, unless they count whole.
    pub fn clip(&self) -> Option<Rect>
        ensures some { IfSome result (λ r. (x y : ℤ) → squares r x y ≡ in_clip self.now x y) }
        ensures none { (result ≡ None) → self.now.clip ≡ all_coordinates }
        ensures grid { IsGrid self.now }
    {
        if self.clip == ALL_COORDINATES {
            return None;
        }
        let clip = self.clip;
        Some(Rect::from_edges(clip.left, clip.bottom, clip.right, clip.top))
    }

    /// The window in column `a` and row `b`.
    pub fn rect(&self, a: u32, b: u32) -> Rect
        requires column { a < self.now.across.count }
        requires row { b < self.now.up.count }
        ensures left { result.x1 ≡ window_left self.now a }
        ensures bottom { result.y1 ≡ window_bottom self.now b }
        ensures right { result.x2 ≡ window_right self.now a }
        ensures top { result.y2 ≡ window_top self.now b }
    {
        let (x1, x2) = self.across().extent(a);
        let (y1, y2) = self.up().extent(b);
        Rect::from_edges(x1, y1, x2, y2)
    }
}

impl Windows {
    /// How many windows there are, at most 2^20.
    pub fn len(&self) -> usize
        ensures count { result ≡ self.now.across.count * self.now.up.count }
        ensures few { result ≤ 1048576 }
        ensures grid { IsGrid self.now }
    {
        self.across.count as usize * self.up.count as usize
    }

    /// The column and the row of the window at index `k` of the list.
    pub fn column_and_row(&self, k: usize) -> (u32, u32)
        requires { k < self.now.across.count * self.now.up.count }
        ensures column { result.0 ≡ k % self.now.across.count }
        ensures row { result.1 ≡ k / self.now.across.count }
        ensures in_columns { result.0 < self.now.across.count }
        ensures in_rows { result.1 < self.now.up.count }
    {
        let columns = self.across.count as usize;
        ((k % columns) as u32, (k / columns) as u32)
    }
}

impl Windows {
    /// The columns and the rows of the windows that share a square with the rectangle: exactly the
    /// windows whose column is in the first range and whose row is in the second.
    pub fn touching(&self, rect: &Rect) -> (Range<u32>, Range<u32>)
        ensures columns { IsRangeOf (IsTouching self.now.across rect.now.x1 rect.now.x2) self.now.across.count result.0.start result.0.end }
        ensures rows { IsRangeOf (IsTouching self.now.up rect.now.y1 rect.now.y2) self.now.up.count result.1.start result.1.end }
        ensures windows { (a b : ℕ) → (IsIndex result.0.start result.0.end a × IsIndex result.1.start result.1.end b) ↔ (IsWindow self.now a b × ShareASquare (window_squares self.now a b) (squares rect.now)) }
    {
        let columns = self.across().touching(rect.x1(), rect.x2());
        let rows = self.up().touching(rect.y1(), rect.y2());
        (columns, rows)
    }

    /// The columns and the rows of the windows that hold the whole rectangle: exactly the windows
    /// whose column is in the first range and whose row is in the second.
    pub fn containing(&self, rect: &Rect) -> (Range<u32>, Range<u32>)
        ensures columns { IsRangeOf (IsContaining self.now.across rect.now.x1 rect.now.x2) self.now.across.count result.0.start result.0.end }
        ensures rows { IsRangeOf (IsContaining self.now.up rect.now.y1 rect.now.y2) self.now.up.count result.1.start result.1.end }
        ensures windows { (a b : ℕ) → (IsIndex result.0.start result.0.end a × IsIndex result.1.start result.1.end b) ↔ (IsWindow self.now a b × Holds (window_squares self.now a b) (squares rect.now)) }
    {
        let columns = self.across().containing(rect.x1(), rect.x2());
        let rows = self.up().containing(rect.y1(), rect.y2());
        (columns, rows)
    }
}
