//! The bands of an axis that begin or end below a line.
ghost use Rattle.std.specs.Prelude.{◌≡◌, ◌≤ℤ◌, pos, negsuc, ℤ};
ghost use Rattle.std.specs.Int.{int_min};
ghost use Rattle.fill_base.specs.Counts.{span_len};
ghost use Rattle.fill_raster.specs.Axes.{IsAxis, first, past};
ghost use Rattle.fill_raster.specs.Level.{AreBegun, AreEnded};

use crate::axis::Axis;

impl Axis {
    /// How many places of the raster lie before a place.
    fn places_before(self, i: i64) -> u64
        requires { IsAxis self }
        ensures { result ≡ span_len (first self) (int_min i (past self)) }
    {
        let first = self.first();
        first.max(i.min(self.past())).abs_diff(first)
    }

    /// How many bands have their first box begin below a line. They are the lowest ones. The line may lie 2^20 database units beyond
    /// the coordinates.
    pub fn bands_begun(self, line: i64) -> u32
        requires axis { IsAxis self }
        requires least { negsuc 1074790399 ≤ℤ line }
        requires most { line ≤ℤ pos 1074790400 }
        ensures { AreBegun self line result }
    {
        let places = self.places_before(self.begun(line - 1));
        places.div_ceil(u64::from(self.band)) as u32
    }

    /// How many bands have their last box end at a line or below it. They are the lowest ones. The line may lie 2^20 database units
    /// beyond the coordinates.
    pub fn bands_ended(self, line: i64) -> u32
        requires axis { IsAxis self }
        requires least { negsuc 1074790399 ≤ℤ line }
        requires most { line ≤ℤ pos 1074790400 }
        ensures { AreEnded self line result }
    {
        let places = self.places_before(self.begun(line - self.length));
        if places == self.extent() {
            return self.bands();
        }
        (places / u64::from(self.band)) as u32
    }
}
