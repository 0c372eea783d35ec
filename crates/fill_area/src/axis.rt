//! Equal spans at even steps along a line: the windows of a row from left to right, or those of a column
//! upwards.
ghost use Rattle.std.specs.Prelude.{◌≡◌, ◌↔◌, ◌<◌, ◌-◌, IsTrue};
ghost use Rattle.fill_base.specs.Coordinates.{IsCoordinate};
ghost use Rattle.fill_base.specs.Limits.{IsLength};
ghost use Rattle.fill_area.specs.Axes.{IsCount, IsAxis, IsExtent, IsTouching, IsContaining, IsRangeOf, axis_end};
ghost use Rattle.fill_area.specs.steps.Begun.{IsBegun, IsLimit};

use fill_base::{HIGHEST, is_coordinate};
use std::ops::Range;

/// The longest side and step of a window, in database units.
const LONGEST: i64 = 1_048_576;

/// The largest number of windows in one column or row.
const MOST_WINDOWS: u32 = 1_048_576;

/// Spans of one length along a line, in database units: the first begins at `first`, and each further
/// one a step after the one before.
#[derive(Clone, Copy, Debug, PartialEq, Eq)]
pub struct Axis {
    /// Where the first span begins.
    pub first: i64,
    /// How long each span is.
    pub length: i64,
    /// How far one span begins after the one before.
    pub step: i64,
    /// How many spans there are.
    pub count: u32,
}

fn is_length(z: i64) -> bool
    ensures { IsTrue result ↔ IsLength z }
{
    1 <= z && z <= LONGEST
}

fn is_count(n: u32) -> bool
    ensures { IsTrue result ↔ IsCount n }
{
    1 <= n && n <= MOST_WINDOWS
}

impl Axis {
    /// Whether length, step and count are from 1 to 2^20, and all spans within the coordinates.
    pub fn is_within(self) -> bool
        ensures { IsTrue result ↔ IsAxis self }
    {
        if !(is_length(self.length)
            & is_length(self.step)
            & is_count(self.count)
            & is_coordinate(self.first))
        {
            return false;
        }
        self.last_end() <= HIGHEST
    }

    /// Where the last span ends.
    fn last_end(self) -> i64
        requires length { IsLength self.length }
        requires step { IsLength self.step }
        requires count { IsCount self.count }
        requires first { IsCoordinate self.first }
        ensures { result ≡ axis_end self (self.count - 1) }
    {
        self.first + i64::from(self.count - 1) * self.step + self.length
    }

    /// Both ends of the span at index `a`, in database units.
    pub fn extent(self, a: u32) -> (i64, i64)
        requires axis { IsAxis self }
        requires index { a < self.count }
        ensures { IsExtent self a result.0 result.1 }
    {
        let lo = self.first + i64::from(a) * self.step;
        (lo, lo + self.length)
    }

    /// How many of the spans begin below `limit`. They are the first ones.
    fn begun_below(self, limit: i64) -> u32
        requires first { IsCoordinate self.first }
        requires step { IsLength self.step }
        requires limit { IsLimit limit }
        ensures { IsBegun self limit result }
    {
        if limit <= self.first {
            return 0;
        }
        let steps = ((limit - self.first) as u64).div_ceil(self.step as u64);
        if steps < u64::from(self.count) {
            steps as u32
        } else {
            self.count
        }
    }

    /// The indexes of the spans that share a number with the range from `lo` on and below `hi`.
    pub fn touching(self, lo: i64, hi: i64) -> Range<u32>
        requires axis { IsAxis self }
        requires low { IsCoordinate lo }
        requires high { IsCoordinate hi }
        ensures { IsRangeOf (IsTouching self lo hi) self.count result.start result.end }
    {
        let start = self.begun_below(lo - self.length + 1);
        start..self.begun_below(hi).max(start)
    }

    /// The indexes of the spans that hold the range from `lo` on and below `hi`.
    pub(crate) fn containing(self, lo: i64, hi: i64) -> Range<u32>
        requires axis { IsAxis self }
        requires low { IsCoordinate lo }
        requires high { IsCoordinate hi }
        ensures { IsRangeOf (IsContaining self lo hi) self.count result.start result.end }
    {
        let start = self.begun_below(hi - self.length);
        start..self.begun_below(lo + 1).max(start)
    }
}
