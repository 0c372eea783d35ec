//! Which squares a list of rectangles holds.
ghost use Rattle.std.specs.Prelude.{◌≡◌};
ghost use Rattle.fill_base.specs.Counts as Counts;
ghost use Rattle.fill_base.specs.Squares.{squares};
ghost use Rattle.fill_region.specs.Squares.{covered};

use fill_base::Rect;

/// Whether a number is `lo` or more and below `hi`.
fn is_between(lo: i64, hi: i64, x: i64) -> bool
    ensures { result ≡ Counts.is_between lo hi x }
{
    (lo <= x) & (x < hi)
}

/// Whether the rectangle holds the square with its lower left corner at `(x, y)`.
fn has_square(rect: &Rect, x: i64, y: i64) -> bool
    ensures { result ≡ squares rect.now x y }
{
    is_between(rect.x1(), rect.x2(), x) & is_between(rect.y1(), rect.y2(), y)
}

/// Whether some rectangle holds the square with its lower left corner at `(x, y)`.
pub(crate) fn is_covered(rects: &[Rect], x: i64, y: i64) -> bool
    ensures { result ≡ covered rects.now x y }
{
    'rects: for rect in rects {
        if has_square(rect, x, y) {
            return true;
        }
    }
    false
}
