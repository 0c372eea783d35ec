//! Points as the data of XY holds them.

ghost use Rattle.std.specs.Prelude.{◌≡◌, ◌%◌, All, length, OnOk, IfOk};
ghost use Rattle.gds_record.specs.Numbers.{IsStored};
ghost use Rattle.gds_grammar.specs.Points.{points_of};

use fill_base::Point;
use gds_record::point;
use std::alloc::{AllocError, Global};

/// The points of an element in database units, in the order of the file. They stay in the bytes that
/// they were read from, eight bytes each.
#[derive(Clone, Copy, Debug)]
pub struct Points<'a> {
    /// The data of XY.
    pub xy: &'a [u8],
    pub ghost whole: { length xy.now % 8 ≡ 0 },
}

impl Points<'_> {
    /// The points as a list.
    ///
    /// # Errors
    /// `AllocError` where memory is refused.
    pub fn to_vec(&self, alloc: Global) -> Result<Vec<Point>, AllocError>
        ensures value { IfOk result (λ v. v.items ≡ points_of self.now.xy.now) }
        ensures stored { IfOk result (λ v. All IsStored v.items) }
    {
        let mut points = Vec::new(alloc);
        self.put(&mut points)?;
        Ok(points)
    }

    /// Puts the points into a list, in place of what stood there.
    ///
    /// # Errors
    /// `AllocError` where memory is refused.
    pub fn put(&self, points: &mut Vec<Point>) -> Result<(), AllocError>
        ensures value { OnOk result (points.new.items ≡ points_of self.now.xy.now) }
        ensures stored { OnOk result (All IsStored points.new.items) }
    {
        points.clear();
        points.reserve(self.xy.len() / 8)?;
        let mut rest = self.xy;
        'points: while !rest.is_empty() {
            let (first, after) = rest.split_at(8);
            points.push(point(first))?;
            rest = after;
        }
        Ok(())
    }
}
