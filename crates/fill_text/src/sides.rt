//! A rectangle from four numbers that a text gives.
ghost use Rattle.std.specs.Prelude.{◌≡◌, option_map};
ghost use Rattle.fill_base.specs.Sides.{sides_of, sides};
ghost use Rattle.fill_text.specs.RectTests.{rect_with};

use fill_base::Rect;

/// The rectangle with these edges, in database units, if they are in range and hold a square.
pub fn rect_from(x1: i64, y1: i64, x2: i64, y2: i64) -> Option<Rect>
    ensures { option_map sides_of result ≡ rect_with (sides x1 y1 x2 y2) }
{
    Rect::new(x1, y1, x2, y2).ok()
}
