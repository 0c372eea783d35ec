//! How far apart the cuts of a mesh are to be, so that its cells are neither too large nor too small for the rectangles. Areas are
//! right at any pitch: it bears on time and memory alone.
ghost use Rattle.std.specs.Prelude.{◌<◌};
ghost use Rattle.fill_area.specs.Parts.{AreParts};

use crate::lists::count_of;
use fill_area::{Axis, Parts, Windows};
use fill_base::Rect;

/// About so many rectangles are looked at, at even distances in their lists: enough to know them all by, and soon done.
const SAMPLES: usize = 4096;

/// So many rectangles that lie apart are to be in a cell: more take longer to tell apart, and fewer do not repay the cell's own work.
const FEW: u64 = 7;

/// So many are to be in it where they overlap or are long: smaller cells would have the same rectangles over and over.
const MANY: u64 = 256;

/// A cell is measured in quarters of the rectangles' mean width and height: a finer measure shows no better cells.
const QUARTERS: u64 = 4;

/// Rectangles lie apart where a cell that has few of them is so many quarters wide and tall: it is four times as wide and as tall as
/// they are, and few of them cross its sides.
const APART: u64 = 16;

/// Further cuts make about so many parts of an axis at most.
const MOST_PARTS: u64 = 4096;

/// And about so many cells at most, where windows stand in one row or in one column: the mesh stays small.
const MOST_CELLS: u64 = 4_194_304;

/// There are about so many rows or more, unless they are lower than the rectangles or make too many cells then: all processors have rows
/// to measure.
const LEAST_ROWS: u64 = 16;

/// How far apart cuts are to be, in database units.
#[derive(Clone, Copy)]
pub(crate) struct Pitch {
    /// Those across.
    pub across: u64,
    /// Those upwards.
    pub up: u64,
}

/// How large a rectangle is, in database units.
#[derive(Clone, Copy)]
struct Size {
    width: u64,
    height: u64,
}

/// What some of the rectangles are like.
#[derive(Clone, Copy)]
struct Looks {
    /// How many are looked at.
    looked: u64,
    /// How many of these share a square with the rectangle around all windows.
    met: u64,
    /// How wide these are together.
    width: u64,
    /// How tall they are together.
    height: u64,
}

/// The pitch at which a cell has few of the rectangles where they lie apart, and else many.
pub(crate) fn pitch_of(lists: &[Vec<Rect>], windows: &Windows) -> Pitch {
    let (across, up) = (ends(windows.parts_across()), ends(windows.parts_up()));
    let count = count_of(lists);
    let looks = looks_of(lists, count / SAMPLES + 1, across, up);
    let within = (count as u64).saturating_mul(looks.met) / looks.looked.max(1);
    let whole = Size {
        width: across.1.abs_diff(across.0),
        height: up.1.abs_diff(up.0),
    };
    let each = whole.width.saturating_mul(whole.height) / within.max(1);
    let mean = mean_size(looks);
    let few = quarters_for(FEW, each, mean);
    let quarters = if few >= APART {
        few
    } else {
        quarters_for(MANY, each, mean)
    };
    let width = least_pitch(whole.width, windows.up());
    let height = least_pitch(whole.height, windows.across());
    let rows = (whole.height / LEAST_ROWS).max(mean.height);
    Pitch {
        across: in_quarters(mean.width, quarters).max(width),
        up: in_quarters(mean.height, quarters).min(rows).max(height),
    }
}

/// Where what counts of the first span begins, and where that of the last one ends.
fn ends(parts: Parts) -> (i64, i64)
    requires { AreParts parts }
{
    let (begin, _) = parts.extent(0);
    let (_, end) = parts.extent(parts.axis.count - 1);
    (begin, end)
}

/// What the first of each so many rectangles of each list is like.
fn looks_of(lists: &[Vec<Rect>], step: usize, across: (i64, i64), up: (i64, i64)) -> Looks
    requires { 0 < step }
{
    let mut looks = Looks {
        looked: 0,
        met: 0,
        width: 0,
        height: 0,
    };
    for list in lists {
        look_through(&mut looks, list, step, across, up);
    }
    looks
}

/// Looks at the first of each so many rectangles of a list. Those outside the rectangle around all windows count for nothing else.
fn look_through(looks: &mut Looks, list: &[Rect], step: usize, across: (i64, i64), up: (i64, i64))
    requires { 0 < step }
{
    for part in list.chunks(step) {
        let rect = &part[0];
        looks.looked = looks.looked.saturating_add(1);
        let in_columns = rect.x1() < across.1 && across.0 < rect.x2();
        if in_columns && rect.y1() < up.1 && up.0 < rect.y2() {
            looks.met = looks.met.saturating_add(1);
            looks.width = looks.width.saturating_add(rect.x2().abs_diff(rect.x1()));
            looks.height = looks.height.saturating_add(rect.y2().abs_diff(rect.y1()));
        }
    }
}

/// How wide and how tall the rectangles are in the mean, and one more.
fn mean_size(looks: Looks) -> Size {
    let met = looks.met.max(1);
    Size {
        width: (looks.width / met).saturating_add(1),
        height: (looks.height / met).saturating_add(1),
    }
}

/// How many quarters of the mean size a cell has each way that holds so many rectangles, one to `each` squares: one at least.
fn quarters_for(count: u64, each: u64, mean: Size) -> u64 {
    let cell = each.saturating_mul(count);
    let area = mean.width.saturating_mul(mean.height).max(1);
    let square = cell.saturating_mul(QUARTERS * QUARTERS) / area;
    square.isqrt().max(1)
}

/// So many quarters of a length.
fn in_quarters(length: u64, quarters: u64) -> u64 {
    length.saturating_mul(quarters) / QUARTERS
}

/// How far apart cuts are at least that cut a length, where the windows have cuts at the spans of the other axis.
fn least_pitch(length: u64, other: Axis) -> u64 {
    let parts = (MOST_CELLS / u64::from(other.count).max(1)).clamp(1, MOST_PARTS);
    length.div_ceil(parts)
}
