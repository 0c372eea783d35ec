//! Numbers, one for each window, that rise or fall by the area of a set.
ghost use Rattle.std.specs.Prelude.{◌≡◌, ◌<◌, ◌≤◌, ◌*◌, ◌==◌, ◌&&◌, ℕ, ℤ, pos, true, length, get_or};
ghost use Rattle.fill_base.specs.Squares.{squares};
ghost use Rattle.fill_area.specs.Density.{IsArea, window_area};
ghost use Rattle.fill_area.specs.Grid.{IsGrid};
ghost use Rattle.fill_area.specs.Sharing.{IsWindow};
ghost use Rattle.fill_sums.specs.Numbers.{AreNumbers, IsMoved, StaysWithin, in_range, moved};
ghost use Rattle.fill_sums.specs.steps.Moving.{AreAlike, CanMove, IsMovedAt, IsRangeMoved};
ghost use Rattle.fill_sums.specs.steps.Shapes.{squares_of};

use crate::shape::{Alike, Shape};
use fill_area::Windows;
use fill_base::Rect;

/// Whether numbers rise or fall.
#[derive(Clone, Copy)]
pub enum Way {
    /// They rise.
    Up,
    /// They fall.
    Down,
}

/// The number of a window after the area of what comes or goes.
fn moved_by(way: Way, number: i64, area: i64) -> i64
    requires number { IsArea number }
    requires area { IsArea area }
    ensures { (n : ℕ) → area ≡ pos n → result ≡ moved way number n }
{
    match way {
        Way::Up => number + area,
        Way::Down => number - area,
    }
}

/// Moves the number of the window in column `a` and row `b`, in which the set has that area.
fn move_number(
    windows: &Windows,
    numbers: &mut [i64],
    way: Way,
    _shape: Shape<'_>,
    area: i64,
    a: u32,
    b: u32,
)
    requires grid { IsGrid windows.now }
    requires window { IsWindow windows.now a b }
    requires count { length numbers.old ≡ windows.now.across.count * windows.now.up.count }
    requires moves { CanMove way (squares_of _shape) windows.now numbers.old a b }
    requires area { area ≡ pos (window_area (squares_of _shape) windows.now a b) }
    ensures { IsMovedAt (λ c d. (c == a) && (d == b)) way (squares_of _shape.entry) windows.now numbers.old numbers.new }
{
    let k = b as usize * windows.columns() as usize + a as usize;
    numbers[k] = moved_by(way, numbers[k], area);
}

/// Moves the numbers of the windows of a row, from one column on and before another.
fn move_each(
    windows: &Windows,
    numbers: &mut [i64],
    way: Way,
    shape: Shape<'_>,
    left: u32,
    right: u32,
    b: u32,
)
    requires grid { IsGrid windows.now }
    requires ordered { left ≤ right }
    requires columns { right ≤ windows.now.across.count }
    requires row { b < windows.now.up.count }
    requires count { length numbers.old ≡ windows.now.across.count * windows.now.up.count }
    requires moves { (a : ℕ) → in_range left right a ≡ true → CanMove way (squares_of shape) windows.now numbers.old a b }
    ensures { IsMovedAt (λ c d. in_range left right c && (d == b)) way (squares_of shape.entry) windows.now numbers.old numbers.new }
{
    for a in left..right {
        let area = shape.counted_in(windows, a, b);
        move_number(windows, numbers, way, shape, area, a, b);
    }
}

/// Moves neighbouring numbers, each by the same area.
fn move_range(numbers: &mut [i64], way: Way, area: i64, from: usize, to: usize)
    requires ordered { from ≤ to }
    requires there { to ≤ length numbers.old }
    requires numbers { (k : ℕ) → in_range from to k ≡ true → IsArea (get_or numbers.old k (pos 0)) }
    requires area { IsArea area }
    ensures { (n : ℕ) → area ≡ pos n → IsRangeMoved from to way n numbers.old numbers.new }
{
    for k in from..to {
        numbers[k] = moved_by(way, numbers[k], area);
    }
}

/// The same of windows in which the set has one area: nothing is measured.
fn move_alike(
    windows: &Windows,
    numbers: &mut [i64],
    way: Way,
    _shape: Shape<'_>,
    alike: Alike,
    b: u32,
)
    requires grid { IsGrid windows.now }
    requires ordered { alike.from ≤ alike.to }
    requires columns { alike.to ≤ windows.now.across.count }
    requires row { b < windows.now.up.count }
    requires count { length numbers.old ≡ windows.now.across.count * windows.now.up.count }
    requires moves { (a : ℕ) → in_range alike.from alike.to a ≡ true → CanMove way (squares_of _shape) windows.now numbers.old a b }
    requires alike { AreAlike (squares_of _shape) windows.now alike.from alike.to b alike.area }
    ensures { IsMovedAt (λ c d. in_range alike.from alike.to c && (d == b)) way (squares_of _shape.entry) windows.now numbers.old numbers.new }
{
    if alike.from < alike.to {
        let row = b as usize * windows.columns() as usize;
        let (from, to) = (row + alike.from as usize, row + alike.to as usize);
        move_range(numbers, way, alike.area, from, to);
    }
}

/// Moves the numbers of the windows of a row, from one column on and before another. Of those that hold all of a box none is measured.
fn move_row(
    windows: &Windows,
    numbers: &mut [i64],
    way: Way,
    shape: Shape<'_>,
    left: u32,
    right: u32,
    b: u32,
)
    requires grid { IsGrid windows.now }
    requires ordered { left ≤ right }
    requires columns { right ≤ windows.now.across.count }
    requires row { b < windows.now.up.count }
    requires count { length numbers.old ≡ windows.now.across.count * windows.now.up.count }
    requires moves { (a : ℕ) → in_range left right a ≡ true → CanMove way (squares_of shape) windows.now numbers.old a b }
    ensures { IsMovedAt (λ c d. in_range left right c && (d == b)) way (squares_of shape.entry) windows.now numbers.old numbers.new }
{
    let alike = shape.alike_in(windows, left, right, b);
    move_each(windows, numbers, way, shape, left, alike.from, b);
    move_alike(windows, numbers, way, shape, alike, b);
    move_each(windows, numbers, way, shape, alike.to, right, b);
}

/// Moves the numbers of the windows of some rows, between the same columns each.
fn move_rows(
    windows: &Windows,
    numbers: &mut [i64],
    way: Way,
    shape: Shape<'_>,
    left: u32,
    right: u32,
    bottom: u32,
    top: u32,
)
    requires grid { IsGrid windows.now }
    requires ordered { left ≤ right }
    requires columns { right ≤ windows.now.across.count }
    requires upwards { bottom ≤ top }
    requires rows { top ≤ windows.now.up.count }
    requires count { length numbers.old ≡ windows.now.across.count * windows.now.up.count }
    requires moves { (a b : ℕ) → in_range left right a ≡ true → in_range bottom top b ≡ true → CanMove way (squares_of shape) windows.now numbers.old a b }
    ensures { IsMovedAt (λ c d. in_range left right c && in_range bottom top d) way (squares_of shape.entry) windows.now numbers.old numbers.new }
{
    for b in bottom..top {
        move_row(windows, numbers, way, shape, left, right, b);
    }
}

/// Moves the number of each window by the area in it of a set of squares that lies within a rectangle: no window is visited that
/// shares no square with the rectangle.
pub(crate) fn move_all(
    windows: &Windows,
    numbers: &mut [i64],
    way: Way,
    shape: Shape<'_>,
    within: &Rect,
)
    requires numbers { AreNumbers windows.now numbers.old }
    requires stays { StaysWithin way (squares_of shape) windows.now numbers.old }
    requires within { (x y : ℤ) → squares_of shape x y ≡ true → squares within.now x y ≡ true }
    ensures moved { IsMoved way (squares_of shape.entry) windows.now numbers.old numbers.new }
    ensures numbers { AreNumbers windows.now numbers.new }
{
    let (columns, rows) = windows.touching(within);
    move_rows(
        windows,
        numbers,
        way,
        shape,
        columns.start,
        columns.end,
        rows.start,
        rows.end,
    );
}
