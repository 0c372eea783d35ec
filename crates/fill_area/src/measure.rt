//! All windows of a grid, measured on the calling thread alone.
ghost use Rattle.std.specs.Prelude.{◌≡◌, ◌&&◌, ◌+◌, ◌*◌, ◌<◌, ℤ, pos, IfOk, OnOk, All};
ghost use Rattle.fill_base.specs.Coordinates.{lowest, highest};
ghost use Rattle.fill_base.specs.Counts.{is_between};
ghost use Rattle.fill_region.specs.Runs.{holds};
ghost use Rattle.fill_area.specs.Density.{AreMeasured, IsArea, window_area};
ghost use Rattle.fill_area.specs.Grid.{IsGrid, parts_up};
ghost use Rattle.fill_area.specs.Parts.{part_begin, part_end};
ghost use Rattle.fill_area.specs.steps.Measured.{AreFirst};

use crate::area::area_in;
use crate::windows::Windows;
use fill_base::{HIGHEST, LOWEST, Rect};
use fill_region::Region;
use std::alloc::{AllocError, Global};

/// How many squares that count of each window are in the region: row by row, the window in column `a` and row `b` at
/// `b * columns + a`. All on the calling thread alone.
///
/// # Errors
/// `AllocError` where memory is refused.
pub fn areas_in(alloc: Global, region: &Region, windows: &Windows) -> Result<Vec<i64>, AllocError>
    ensures areas { IfOk result (λ v. AreMeasured (holds region.now) windows.now v.items) }
    ensures bounded { IfOk result (λ v. All IsArea v.items) }
{
    let mut areas = Vec::with_capacity(alloc, windows.len())?;
    for b in 0..windows.rows() {
        put_row(alloc, region, windows, b, &mut areas)?;
    }
    Ok(areas)
}

/// Puts the areas of the windows in row `b` behind those of the rows below. For each window it looks at the runs near the row alone.
fn put_row(
    alloc: Global,
    region: &Region,
    windows: &Windows,
    b: u32,
    areas: &mut Vec<i64>,
) -> Result<(), AllocError>
    requires grid { IsGrid windows.now }
    requires row { b < windows.now.up.count }
    requires before { AreFirst (holds region.now) windows.now (b * windows.now.across.count) areas.old.items }
    ensures { OnOk result (AreFirst (holds region.now) windows.now ((b + 1) * windows.now.across.count) areas.new.items) }
{
    let near = counted_lines(alloc, region, windows, b)?;
    for a in 0..windows.columns() {
        areas.push(counted_area(&near, windows, a, b))?;
    }
    Ok(())
}

/// The squares of the region in the lines that count of the windows in row `b`.
fn counted_lines(
    alloc: Global,
    region: &Region,
    windows: &Windows,
    b: u32,
) -> Result<Region, AllocError>
    requires { b < windows.now.up.count }
    ensures { IfOk result (λ r. (x y : ℤ) → holds r x y ≡ holds region.now x y && (is_between lowest highest x && is_between (part_begin (parts_up windows.now) b) (part_end (parts_up windows.now) b) y)) }
{
    let (bottom, top) = windows.parts_up().extent(b);
    if bottom < top {
        region.clip(alloc, &Rect::from_edges(LOWEST, bottom, HIGHEST, top))
    } else {
        Ok(Region::empty(alloc))
    }
}

/// How many squares that count of the window in column `a` and row `b` are in the region.
fn counted_area(region: &Region, windows: &Windows, a: u32, b: u32) -> i64
    requires column { a < windows.now.across.count }
    requires row { b < windows.now.up.count }
    ensures { result ≡ pos (window_area (holds region.now) windows.now a b) }
{
    match windows.part(a, b) {
        Some(part) => area_in(region, &part),
        None => 0,
    }
}
