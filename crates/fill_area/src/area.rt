//! The area of a region in one window, and when a share is too little or too much.
ghost use Rattle.std.specs.Prelude.{◌≡◌, ◌↔◌, pos, ◌*ℤ◌, IsTrue};
ghost use Rattle.fill_base.specs.Squares.{area_of, squares};
ghost use Rattle.fill_region.specs.Runs.{holds};
ghost use Rattle.fill_area.specs.Density.{IsBelow, IsAbove, IsArea, IsShare};

use fill_base::Rect;
use fill_region::Region;

/// How many squares of the window are in the region: the sum of what each of its runs level with the window shares with it.
pub fn area_in(region: &Region, window: &Rect) -> i64
    ensures { result ≡ pos (area_of (holds region.now) window.now) }
{
    let mut total = 0;
    for run in region.runs_level(window.y1(), window.y2()) {
        total += shared_area(run, window);
    }
    total
}

/// How many unit squares two rectangles share.
pub fn shared_area(rect: &Rect, part: &Rect) -> i64
    ensures { result ≡ pos (area_of (squares rect.now) part.now) }
{
    match rect.clip(part) {
        Some(piece) => piece.area(),
        None => 0,
    }
}

/// Whether a total is less than `min` parts in a million of a window's area.
pub fn is_low(total: i64, min: i64, area: i64) -> bool
    requires total { IsArea total }
    requires min { IsShare min }
    requires area { IsArea area }
    ensures { IsTrue result ↔ IsBelow total min area }
{
    total * 1_000_000 < min * area
}

/// Whether a total is more than `max` parts in a million of a window's area.
pub fn is_high(total: i64, max: i64, area: i64) -> bool
    requires total { IsArea total }
    requires max { IsShare max }
    requires area { IsArea area }
    ensures { IsTrue result ↔ IsAbove total max area }
{
    total * 1_000_000 > max * area
}
