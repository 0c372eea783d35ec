//! Whether rectangles keep a spacing.
ghost use Rattle.std.specs.Prelude.{◌≡◌, ◌↔◌, ℤ, true, IsTrue};
ghost use Rattle.fill_base.specs.Coordinates.{IsCoordinate, IsInRange};
ghost use Rattle.fill_base.specs.Squares.{squares};
ghost use Rattle.fill_region.specs.Runs.{holds};
ghost use Rattle.fill_base.specs.Limits.{IsSpacing};
ghost use Rattle.fill_size.specs.Distance.{AreNear, HasSquare, InConflict};

use crate::overlap::have_common;
use fill_base::Rect;
use fill_region::Region;

/// Whether two rectangles are too near: the greater of their gaps in x and in y is below `spacing`,
/// or they share a square (KLayout's `space` in the square metric). A gap equal to the spacing is
/// allowed. The spacing is 0 to 2^20 database units.
pub fn conflicts(a: &Rect, b: &Rect, spacing: i64) -> bool
    requires { IsSpacing spacing }
    ensures { IsTrue result ↔ InConflict (squares a.now) (squares b.now) spacing }
{
    are_near(a.x1(), a.x2(), b.x1(), b.x2(), spacing)
        & are_near(a.y1(), a.y2(), b.y1(), b.y2(), spacing)
}

/// Whether the ranges from `a` below `b` and from `c` below `d` are nearer than the spacing.
fn are_near(a: i64, b: i64, c: i64, d: i64, spacing: i64) -> bool
    requires first { IsCoordinate b }
    requires second { IsCoordinate d }
    requires spacing { IsSpacing spacing }
    ensures { IsTrue result ↔ AreNear a b c d spacing }
{
    (a < d + spacing) & (c < b + spacing)
}

/// Whether no square of the region is too near to the rectangle: by a look at each run that is level with it, without memory. The
/// spacing is 0 to 2^20 database units.
pub fn is_clear(region: &Region, rect: &Rect, spacing: i64) -> bool
    requires { IsSpacing spacing }
    ensures { IsTrue result ↔ ¬ InConflict (holds region.now) (squares rect.now) spacing }
{
    !has_square(
        region,
        rect.x1() - spacing,
        rect.y1() - spacing,
        rect.x2() + spacing,
        rect.y2() + spacing,
    )
}

/// Whether some square of the region lies between these edges.
pub(crate) fn has_square(region: &Region, left: i64, bottom: i64, right: i64, top: i64) -> bool
    ensures found { IsTrue result ↔ HasSquare (holds region.now) left bottom right top }
    ensures in_range { (x y : ℤ) → holds region.now x y ≡ true → IsInRange x y }
{
    region
        .runs_level(bottom, top)
        .iter()
        .any(|run| is_met(run, left, bottom, right, top))
}

/// Whether some square of the rectangle lies between these edges.
fn is_met(rect: &Rect, left: i64, bottom: i64, right: i64, top: i64) -> bool
    ensures { IsTrue result ↔ HasSquare (squares rect.now) left bottom right top }
{
    have_common(rect.x1(), rect.x2(), left, right) & have_common(rect.y1(), rect.y2(), bottom, top)
}
