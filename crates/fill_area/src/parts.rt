//! What counts of the windows along an axis.
ghost use Rattle.std.specs.Prelude.{◌<◌};
ghost use Rattle.fill_area.specs.Parts.{AreParts, IsPart};

use crate::axis::Axis;

/// A rectangle by its four edges, in database units: what of a window lies within it counts.
#[derive(Clone, Copy, Debug, PartialEq, Eq)]
pub struct Clip {
    /// The left edge.
    pub left: i64,
    /// The lower edge.
    pub bottom: i64,
    /// The right edge.
    pub right: i64,
    /// The upper edge.
    pub top: i64,
}

/// The spans of an axis, of which what lies from one number on and below another counts, in database units.
#[derive(Clone, Copy, Debug, PartialEq, Eq)]
pub struct Parts {
    /// The spans.
    pub axis: Axis,
    /// Numbers count from this one on.
    pub low: i64,
    /// Numbers count below this one.
    pub high: i64,
}

impl Parts {
    /// Both ends of what counts of the span at index `a`, in database units: one number where nothing of it does.
    pub fn extent(self, a: u32) -> (i64, i64)
        requires parts { AreParts self }
        requires index { a < self.axis.count }
        ensures { IsPart self a result.0 result.1 }
    {
        let (begin, end) = self.axis.extent(a);
        (
            begin.max(self.low).min(self.high),
            end.max(self.low).min(self.high),
        )
    }
}
