//! The rows of a set of bands between two lines, one after the other.
ghost use Rattle.std.specs.Prelude.{◌≡◌, ℤ, ◌≤ℤ◌, ◌<ℤ◌, true, false};
ghost use Rattle.std.specs.Iterator.{at_most};
ghost use Rattle.fill_base.specs.Counts.{span_len};
ghost use Rattle.fill_base.specs.Coordinates.{IsInRange};
ghost use Rattle.fill_bands.specs.Bands.{holds};
ghost use Rattle.fill_bands.specs.Rows.{Upwards, GivesRow};

use crate::Bands;
use crate::bands::{bottom_at, first_above};
use crate::shared::SharedRow;
use fill_spans::Spans;
use std::marker::Model;

/// Lines of a set that have the same squares: those from `bottom` on and below `top`, in database
/// units.
#[derive(Clone, Copy)]
pub struct Row<'a> {
    /// The first of the lines.
    pub bottom: i64,
    /// The line after the last one.
    pub top: i64,
    /// The columns of the squares in each of the lines.
    pub spans: &'a Spans,
}

/// The rows of a set of bands between two lines, upwards. What lies between them and in no row holds no
/// square.
#[derive(Drop)]
pub struct Rows<'a> {
    bands: &'a [(i32, SharedRow)],
    /// The index of the band above the line `from`: its row is that of the band before.
    next: usize,
    from: i64,
    top: i64,
}

impl<'a> Model for Rows<'a> {
    ghost use Rattle.fill_bands.specs.Rows.{Upwards};

    ghost Value = { Upwards };

    ghost use Rattle.fill_bands.specs.steps.Rows.{IsAtBand};

    ghost view = { λ r. record { region = r.bands.now; from = r.from; top = r.top } };

    ghost invariant = { λ r. IsAtBand r.bands.now r.from r.top r.next };
}

impl Bands {
    /// The rows in the lines from `bottom` on and below `top`, in database units: a search for the
    /// first, and a step for each further one.
    pub fn rows(&self, bottom: i64, top: i64) -> Rows<'_>
        ensures region { result.region ≡ self.now }
        ensures begins { bottom ≤ℤ result.from }
        ensures within { bottom ≤ℤ top → result.from ≤ℤ top }
        ensures top { result.top ≡ top }
        ensures passed { (x y : ℤ) → bottom ≤ℤ y → y <ℤ result.from → holds self.now x y ≡ false }
        ensures in_range { (x y : ℤ) → holds self.now x y ≡ true → IsInRange x y }
    {
        let bands = self.bands();
        let next = first_above(bands, bottom).max(1);
        let first = i64::from(bottom_at(bands, next - 1));
        let from = bottom.max(first.min(top));
        Rows {
            bands,
            next,
            from,
            top,
        }
    }
}

impl<'a> Iterator for Rows<'a> {
    type Item = Row<'a>;

    ghost remaining = { λ s. at_most (span_len s.from s.top) };

    ghost next_gives = { GivesRow };

    fn next(&mut self) -> Option<Row<'a>> {
        if self.from >= self.top || self.next >= self.bands.len() {
            return None;
        }
        let spans = self.bands[self.next - 1].1.spans();
        let bottom = self.from;
        let top = self.top.min(i64::from(bottom_at(self.bands, self.next)));
        self.from = top;
        self.next += 1;
        Some(Row { bottom, top, spans })
    }
}
