//! One of the parts that a chip is cut into.
ghost use Rattle.std.specs.Prelude.{◌≡◌, ◌↔◌, ◌<◌, ◌≤◌, ◌+◌, ◌-◌, IsSome, IfSome};
ghost use Rattle.fill_parts.specs.Cuts as spec;
ghost use Rattle.fill_parts.specs.Cuts.{IsPart, first_row, has_row, past_row};

use std::marker::Model;
use std::ops::Range;

/// The largest number of parts.
const MOST_PARTS: u32 = 4096;

/// One of so many parts, each with its rows of windows and its rows of tiles.
#[derive(Clone, Copy, Debug, PartialEq, Eq)]
pub struct Part {
    number: u32,
    count: u32,
}

impl Model for Part {
    ghost Value = { spec.Part };

    ghost view = { λ p. record { number = p.number; count = p.count } };

    ghost invariant = { λ p. IsPart (record { number = p.number; count = p.count }) };

    ghost inverse = { λ p. record { number = p.number; count = p.count } };
}

impl Part {
    /// Part `number` of `count`, numbered from 1 on: of 1 to 4,096 parts.
    pub fn new(number: u32, count: u32) -> Option<Part>
        ensures some { IsSome result ↔ ((1 ≤ number) × (number ≤ count) × (count ≤ 4096)) }
        ensures part { IfSome result (λ p. p ≡ record { number = number - 1; count = count }) }
    {
        if number < 1 || number > count || count > MOST_PARTS {
            return None;
        }
        Some(Part {
            number: number - 1,
            count,
        })
    }

    /// The last of as many parts.
    pub fn last(self) -> Part
        ensures { result ≡ record { number = self.count - 1; count = self.count } }
    {
        Part {
            number: self.count - 1,
            count: self.count,
        }
    }

    /// Which part it is, from 1 on.
    pub fn number(self) -> u32
        ensures { result ≡ self.number + 1 }
    {
        self.number + 1
    }

    /// How many parts there are.
    pub fn count(self) -> u32
        ensures { result ≡ self.count }
    {
        self.count
    }

    /// Tells what the type keeps: it is one of at most 4,096 parts. Does nothing at run time.
    pub fn keeps_few(self)
        ensures { IsPart self }
    {
        let _count = self.count;
    }

    /// Where a part of this number begins in so many rows.
    fn cut(self, rows: u32, number: u32) -> u32
        requires { number ≤ self.count }
        ensures cut { result ≡ spec.cut rows self.count number }
        ensures within { result ≤ rows }
    {
        (u64::from(number) * u64::from(rows) / u64::from(self.count)) as u32
    }

    /// The rows of the part, of so many rows.
    pub fn rows(self, rows: u32) -> Range<u32>
        ensures first { result.start ≡ first_row self rows }
        ensures past { result.end ≡ past_row self rows }
        ensures order { result.start ≤ result.end }
        ensures within { result.end ≤ rows }
    {
        let number = self.number;
        self.cut(rows, number)..self.cut(rows, number + 1)
    }

    /// Whether the part has a row, of so many rows.
    pub fn has_row(self, rows: u32, row: u32) -> bool
        ensures { result ≡ has_row self rows row }
    {
        let own = self.rows(rows);
        own.start <= row && row < own.end
    }
}
