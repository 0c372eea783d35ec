//! What comes or goes.
ghost use Rattle.std.specs.Prelude.{◌≡◌, ◌<◌, ◌≤◌, pos, ◌+ℤ◌};
ghost use Rattle.fill_base.specs.Squares.{area_of};
ghost use Rattle.fill_area.specs.Density.{window_area};
ghost use Rattle.fill_sums.specs.steps.Moving.{AreAlike};

use fill_area::{Windows, area_in, shared_area};
use fill_base::Rect;
use fill_region::Region;

/// Neighbouring columns of windows, in each of which a set has that area.
#[derive(Clone, Copy)]
pub(crate) struct Alike {
    /// The first column.
    pub(crate) from: u32,
    /// The column past the last one.
    pub(crate) to: u32,
    /// How many squares of each window are in the set.
    pub(crate) area: i64,
}

/// A set of squares.
#[derive(Clone, Copy)]
pub(crate) enum Shape<'a> {
    /// Those of a box.
    Box(&'a Rect),
    /// Those of a region.
    Metal(&'a Region),
}

impl<'a> Shape<'a> {
    ghost use Rattle.fill_sums.specs.steps.Shapes.{squares_of};

    /// How many squares of a rectangle are in the set.
    fn area_in(self, window: &Rect) -> i64
        ensures { result ≡ pos (area_of (squares_of self.entry) window.now) }
    {
        match self {
            Shape::Box(rect) => shared_area(rect, window),
            Shape::Metal(region) => area_in(region, window),
        }
    }

    /// How many squares that count of the window in column `a` and row `b` are in the set.
    pub(crate) fn counted_in(self, windows: &Windows, a: u32, b: u32) -> i64
        requires column { a < windows.now.across.count }
        requires row { b < windows.now.up.count }
        ensures { result ≡ pos (window_area (squares_of self.entry) windows.now a b) }
    {
        match windows.part(a, b) {
            Some(part) => self.area_in(&part),
            None => 0,
        }
    }

    /// The columns, from one on and before another, of those windows of row `b` that hold all of a box, where windows count whole; of
    /// anything else none.
    pub(crate) fn alike_in(self, windows: &Windows, left: u32, right: u32, b: u32) -> Alike
        requires ordered { left ≤ right }
        requires columns { right ≤ windows.now.across.count }
        requires row { b < windows.now.up.count }
        ensures from { left ≤ result.from }
        ensures ordered { result.from ≤ result.to }
        ensures to { result.to ≤ right }
        ensures alike { AreAlike (squares_of self.entry) windows.now result.from result.to b result.area }
    {
        if let Shape::Box(rect) = self {
            let (columns, rows) = windows.containing(rect);
            if rows.start <= b && b < rows.end && windows.clip().is_none() {
                let from = columns.start.clamp(left, right);
                return Alike {
                    from,
                    to: columns.end.clamp(from, right),
                    area: rect.area(),
                };
            }
        }
        Alike {
            from: left,
            to: left,
            area: 0,
        }
    }
}
