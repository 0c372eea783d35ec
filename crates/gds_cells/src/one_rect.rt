//! A shape that is one rectangle.

ghost use Rattle.std.specs.Prelude.{◌≡◌, ◌≤ℤ◌, ◌<ℤ◌, IfSome};
ghost use Rattle.fill_base.specs.Coordinates.{lowest, highest};

use fill_base::{LOWEST, Rect};
use gds_shape::Bounds;

/// A rectangle that begins at the least coordinates, and an extent that is as large: of the one the right and upper edges are kept,
/// of the other the left and lower ones.
#[derive(Debug, Drop)]
pub struct OneRect {
    left: i32,
    bottom: i32,
    right: i32,
    top: i32,
    pub ghost wide: { lowest <ℤ right },
    pub ghost tall: { lowest <ℤ top },
    pub ghost narrow: { right ≤ℤ highest },
    pub ghost low: { top ≤ℤ highest },
}

impl OneRect {
    ghost use Rattle.gds_cells.specs.steps.Filled.{extent_of, rect_of};

    /// The rectangle and the extent, where the one begins at the least coordinates and the other is as large.
    pub fn of(rect: &Rect, extent: &Bounds) -> Option<OneRect>
        ensures rect { IfSome result (λ one. rect_of one ≡ rect.now) }
        ensures extent { IfSome result (λ one. extent_of one ≡ extent.now) }
    {
        if rect.x1() != LOWEST || rect.y1() != LOWEST {
            return None;
        }
        let one = OneRect {
            left: i32::try_from(extent.left).ok()?,
            bottom: i32::try_from(extent.bottom).ok()?,
            right: rect.x2() as i32,
            top: rect.y2() as i32,
        };
        if one.extent() == *extent {
            Some(one)
        } else {
            None
        }
    }

    /// The rectangle.
    pub fn rect(&self) -> Rect
        ensures { result ≡ rect_of self.now }
    {
        Rect::from_edges(LOWEST, LOWEST, i64::from(self.right), i64::from(self.top))
    }

    /// The extent.
    pub fn extent(&self) -> Bounds
        ensures { result ≡ extent_of self.now }
    {
        let (left, bottom) = (i64::from(self.left), i64::from(self.bottom));
        Bounds {
            left,
            bottom,
            right: left + (i64::from(self.right) - LOWEST),
            top: bottom + (i64::from(self.top) - LOWEST),
        }
    }
}
