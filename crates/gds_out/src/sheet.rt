//! What a fill library is written of: rasters one above the other, with the marks of their tiles.

ghost use Rattle.std.specs.Prelude.{◌≡◌, option_map};
ghost use Rattle.fill_raster.specs.Axes.{IsAxis, first, is_on, past};
ghost use Rattle.gds_out.specs.Strips.{strip_at};

use fill_raster::{Axis, Marks, Raster};
use fill_text::Rules;
use std::ops::Range;

/// Some rows of a raster as a raster of their own, with the marks of its tiles.
#[derive(Drop)]
pub struct Strip<'a> {
    /// The raster of these rows.
    pub raster: Raster,
    /// The marks of each of its tiles, in their order.
    pub marks: Vec<&'a Marks>,
}

/// What a fill library is written of: the rules, and the rows of a raster of any size, in strips.
#[derive(Clone, Copy)]
pub struct Sheet<'a> {
    /// Names and numbers are those of these rules, and so are the columns of the raster.
    pub rules: &'a Rules,
    /// The rows of the raster.
    pub up: Axis,
    /// The strips, each with the rows that it has.
    pub strips: &'a [Strip<'a>],
}

/// Whether a raster has a row.
fn has_row(raster: Raster, j: i64) -> bool
    ensures { result ≡ is_on raster.up j }
{
    let rows = raster.rows();
    (rows.start <= j) & (j < rows.end)
}

impl<'a> Sheet<'a> {
    /// The rows of the raster, upwards.
    pub(crate) fn rows(&self) -> Range<i64>
        requires { IsAxis self.now.up }
        ensures first { result.start ≡ first self.now.up }
        ensures past { result.end ≡ past self.now.up }
    {
        let up = self.up;
        let first = -(up.origin - up.low).div_euclid(up.step);
        let last = (up.high - up.length - up.origin).div_euclid(up.step);
        first..first.max(last + 1)
    }

    /// The first strip that has a row.
    pub(crate) fn strip_at(&self, j: i64) -> Option<&Strip<'a>>
        ensures { option_map (λ s. s.now) result ≡ strip_at self.now.strips.now j }
    {
        self.strips.iter().find(|strip| has_row(strip.raster, j))
    }
}
