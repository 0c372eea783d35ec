//! The windows that are low.
ghost use Rattle.std.specs.Prelude.{◌≡◌, ◌&&◌, ◌||◌, ◌+◌, ◌*◌, ◌<◌, ◌≤◌, ℕ, ℤ, pos, length, All, IfOk, OnOk};
ghost use Rattle.std.specs.Ordering.{int_eq};
ghost use Rattle.fill_base.specs.Counts.{is_between};
ghost use Rattle.fill_region.specs.Squares.{covered};
ghost use Rattle.fill_area.specs.Density.{IsArea, IsShare};
ghost use Rattle.fill_job.specs.Basis.{windows_in};
ghost use Rattle.fill_state.specs.Low.{low_by};
ghost use Rattle.fill_state.specs.steps.LowBefore.{AreLowBefore};

use fill_area::{Windows, is_low};
use fill_base::Rect;
use fill_region::Region;
use std::alloc::{AllocError, Global};
use std::ops::Range;

/// Whether the share of the window in a column and a row is below the least.
fn is_low_at(windows: &Windows, least: i64, totals: &[i64], column: u32, row: u32) -> bool
    requires column { column < windows.now.across.count }
    requires row { row < windows.now.up.count }
    requires count { length totals.now ≡ windows.now.across.count * windows.now.up.count }
    requires areas { All IsArea totals.now }
    requires least { IsShare least }
    ensures { result ≡ low_by windows.now least totals.now column row }
{
    let index = row as usize * windows.columns() as usize + column as usize;
    is_low(totals[index], least, windows.counted_size(column, row))
}

/// Puts the windows of a row in some columns behind the rectangles, as one rectangle; nothing where there is no column.
///
/// # Errors
/// `AllocError` where memory is refused.
fn put_run(low: &mut Vec<Rect>, columns: Range<u32>, row: u32) -> Result<(), AllocError>
    requires columns { columns.end ≤ 1048576 }
    requires row { row < 1048576 }
    ensures { OnOk result ((x y : ℤ) → covered low.new.items x y ≡ (covered low.old.items x y || (is_between (pos columns.start) (pos columns.end) x && int_eq y (pos row)))) }
{
    if columns.start < columns.end {
        let (left, right) = (i64::from(columns.start), i64::from(columns.end));
        let bottom = i64::from(row);
        low.push(Rect::from_edges(left, bottom, right, bottom + 1))?;
    }
    Ok(())
}

/// Puts the low windows of a row behind those of the rows below: each longest run of neighbours as one rectangle.
///
/// # Errors
/// `AllocError` where memory is refused.
fn put_row(
    windows: &Windows,
    least: i64,
    totals: &[i64],
    row: u32,
    low: &mut Vec<Rect>,
) -> Result<(), AllocError>
    requires row { row < windows.now.up.count }
    requires few { windows.now.up.count ≤ 1048576 }
    requires count { length totals.now ≡ windows.now.across.count * windows.now.up.count }
    requires areas { All IsArea totals.now }
    requires least { IsShare least }
    requires before { AreLowBefore windows.now least totals.now 0 row low.old.items }
    ensures { OnOk result (AreLowBefore windows.now least totals.now 0 (row + 1) low.new.items) }
{
    let columns = windows.across().count;
    let mut start = 0;
    for column in 0..columns {
        if !is_low_at(windows, least, totals, column, row) {
            put_run(low, start..column, row)?;
            start = column + 1;
        }
    }
    put_run(low, start..columns, row)
}

/// The windows whose share is below the least, row by row, each longest run of neighbours of a row as one rectangle.
///
/// # Errors
/// `AllocError` where memory is refused.
fn low_runs(
    alloc: Global,
    windows: &Windows,
    least: i64,
    totals: &[i64],
) -> Result<Vec<Rect>, AllocError>
    requires count { length totals.now ≡ windows.now.across.count * windows.now.up.count }
    requires areas { All IsArea totals.now }
    requires least { IsShare least }
    ensures { IfOk result (λ v. (a b : ℕ) → covered v.items (pos a) (pos b) ≡ low_by windows.now least totals.now a b) }
{
    let mut low = Vec::new(alloc);
    for row in 0..windows.up().count {
        put_row(windows, least, totals, row, &mut low)?;
    }
    Ok(low)
}

/// The windows whose share is below the least, in parts of a million, each as a unit square: the window in column `a` and
/// row `b` as the square `(a, b)`.
///
/// # Errors
/// `AllocError` where memory is refused.
pub fn low_windows(
    alloc: Global,
    windows: &Windows,
    least: i64,
    totals: &[i64],
) -> Result<Region, AllocError>
    requires count { length totals.now ≡ windows.now.across.count * windows.now.up.count }
    requires areas { All IsArea totals.now }
    requires least { IsShare least }
    ensures { IfOk result (λ r. (a b : ℕ) → windows_in r a b ≡ low_by windows.now least totals.now a b) }
{
    let low = low_runs(alloc, windows, least, totals)?;
    Region::from_rects(alloc, &low)
}
