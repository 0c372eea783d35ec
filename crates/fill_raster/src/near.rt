//! The places of a raster whose boxes are near a rectangle.
ghost use Rattle.std.specs.Prelude.{◌≡◌, ◌↔◌, ◌&&◌, ◌≤ℤ◌, ◌<ℤ◌, ◌+ℤ◌, ◌-ℤ◌, ℤ, pos, negsuc};
ghost use Rattle.fill_base.specs.Counts.{is_between};
ghost use Rattle.fill_base.specs.Limits.{IsSpacing};
ghost use Rattle.fill_raster.specs.Axes.{IsAxis, box_begin, first, is_on_within, past};
ghost use Rattle.fill_raster.specs.Lattice.{is_near};

use crate::axis::Axis;
use crate::raster::Raster;
use fill_base::Rect;
use std::ops::Range;

impl Axis {
    /// The place past all whose box begins at `z` or before.
    pub(crate) fn begun(self, z: i64) -> i64
        requires axis { IsAxis self }
        requires least { negsuc 2147483647 ≤ℤ z }
        requires most { z ≤ℤ pos 2147483648 }
        ensures { (i : ℤ) → (i <ℤ result) ↔ (box_begin self i ≤ℤ z) }
    {
        (z - self.origin).div_euclid(self.step) + 1
    }

    /// The places of the raster whose box shares a number with the range from `low` on and below `high`.
    fn near(self, low: i64, high: i64) -> Range<i64>
        requires axis { IsAxis self }
        requires least { negsuc 1074790399 ≤ℤ low }
        requires ordered { low <ℤ high }
        requires most { high ≤ℤ pos 1074790400 }
        ensures least { first self ≤ℤ result.start }
        ensures ordered { result.start ≤ℤ result.end }
        ensures most { result.end ≤ℤ past self }
        ensures places { (i : ℤ) → is_between result.start result.end i ≡ is_on_within self low high i }
    {
        let before = self.begun(low - self.length);
        let behind = self.begun(high - 1);
        let start = self.past().min(self.first().max(before));
        start..start.max(self.past().min(behind))
    }
}

impl Raster {
    /// The columns and the rows of the places whose box is nearer to a rectangle than a spacing: exactly the places of the
    /// raster with their `i` in the first range and their `j` in the second. The spacing is 0 to 2^20 database units; at 0
    /// these are the places whose box shares a square with the rectangle.
    pub fn near(&self, rect: &Rect, spacing: i64) -> (Range<i64>, Range<i64>)
        requires { IsSpacing spacing }
        ensures least { (first self.now.across ≤ℤ result.0.start) × (first self.now.up ≤ℤ result.1.start) }
        ensures ordered { (result.0.start ≤ℤ result.0.end) × (result.1.start ≤ℤ result.1.end) }
        ensures most { (result.0.end ≤ℤ past self.now.across) × (result.1.end ≤ℤ past self.now.up) }
        ensures places { (i j : ℤ) → (is_between result.0.start result.0.end i && is_between result.1.start result.1.end j) ≡ is_near self.now rect.now spacing i j }
    {
        let columns = self.across().near(rect.x1() - spacing, rect.x2() + spacing);
        let rows = self.up().near(rect.y1() - spacing, rect.y2() + spacing);
        (columns, rows)
    }
}
