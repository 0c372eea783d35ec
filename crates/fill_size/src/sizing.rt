//! Regions grown on all sides.
ghost use Rattle.std.specs.Prelude.{◌≤ℤ◌, pos, true, ◌≡◌, ◌↔◌, ◌+ℤ◌, ◌-ℤ◌, ℤ, IsTrue, IfOk};
ghost use Rattle.fill_base.specs.Coordinates.{IsInRange};
ghost use Rattle.fill_region.specs.Runs.{holds};
ghost use Rattle.fill_base.specs.Limits.{IsSpacing};
ghost use Rattle.fill_size.specs.Distance.{IsSized, StaysInRange};
ghost use Rattle.fill_size.specs.Growth.{FitsGrown};

use crate::clearance::has_square;
use fill_base::{HIGHEST, LOWEST, Rect};
use fill_region::Region;
use std::alloc::{AllocError, Global};

/// Whether the region, grown by `d` database units on all sides, stays within the range of coordinates. Where `d` is
/// negative nothing is left, and that stays within.
pub fn fits(region: &Region, d: i64) -> bool
    ensures { IsTrue result ↔ StaysInRange (holds region.now) d }
{
    if d < 0 {
        return true;
    }
    has_margin(region, d.min(HIGHEST - LOWEST))
}

/// Whether no square of the region is nearer than `d` to an edge of the range of coordinates.
fn has_margin(region: &Region, d: i64) -> bool
    requires least { pos 0 ≤ℤ d }
    requires most { d ≤ℤ pos 2147483648 }
    ensures margin { IsTrue result ↔ StaysInRange (holds region.now) d }
    ensures in_range { (x y : ℤ) → holds region.now x y ≡ true → IsInRange x y }
{
    let left = has_square(region, LOWEST, LOWEST, LOWEST + d, HIGHEST);
    let right = has_square(region, HIGHEST - d, LOWEST, HIGHEST, HIGHEST);
    let bottom = has_square(region, LOWEST, LOWEST, HIGHEST, LOWEST + d);
    let top = has_square(region, LOWEST, HIGHEST - d, HIGHEST, HIGHEST);
    !(left | right | bottom | top)
}

/// The region grown by `d` on all sides, as by a square of half side `d`: right-angle corners stay
/// sharp (KLayout's `sized`). `d` is 0 to 2^20 database units.
pub fn sized(alloc: Global, region: &Region, d: i64) -> Result<Region, AllocError>
    requires growth { IsSpacing d }
    requires fits { StaysInRange (holds region.now) d }
    ensures { IfOk result (λ r. IsSized (holds region.now) d (holds r)) }
{
    let mut grown = Vec::new(alloc);
    for run in region.runs() {
        grown.push(grown_rect(run, d))?;
    }
    Region::from_rects(alloc, &grown)
}

/// The rectangle grown by `d` on all sides.
fn grown_rect(rect: &Rect, d: i64) -> Rect
    requires growth { IsSpacing d }
    requires fits { FitsGrown rect.now d }
    ensures left { result.x1 ≡ rect.now.x1 -ℤ d }
    ensures bottom { result.y1 ≡ rect.now.y1 -ℤ d }
    ensures right { result.x2 ≡ rect.now.x2 +ℤ d }
    ensures top { result.y2 ≡ rect.now.y2 +ℤ d }
{
    Rect::from_edges(rect.x1() - d, rect.y1() - d, rect.x2() + d, rect.y2() + d)
}
