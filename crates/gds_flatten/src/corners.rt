//! The extent of some of the single references of a link: that of the four corners of the rows and columns that hold them.

ghost use Rattle.std.specs.Prelude.{ℕ, ◌*◌, ◌/◌, ◌%◌, ◌<◌, ◌≤◌, ◌≡◌, true, IsTrue};
ghost use Rattle.gds_cells.specs.Links.{single};
ghost use Rattle.gds_cells.specs.Placements.{carried_bounds};
ghost use Rattle.gds_flatten.specs.steps.Framing.{IsFine};
ghost use Rattle.gds_cells.specs.steps.Prepared.{IsOrdered, IsPart};
ghost use Rattle.gds_cells.specs.steps.Ranges.{IsClose};

use crate::framed::carried_extent;
use gds_cells::Link;
use gds_shape::{Bounds, joined};

/// Numbers are close up to here: 2^45.
const FAR: i64 = 35_184_372_088_832;

/// Whether the number is close.
fn is_close(number: i64) -> bool
    ensures close { IsTrue result → IsClose number }
    ensures all { IsClose number → result ≡ true }
{
    -FAR <= number && number <= FAR
}

/// Whether both numbers are close.
fn both_close(a: i64, b: i64) -> bool
    ensures close { IsTrue result → (IsClose a × IsClose b) }
    ensures all { IsClose a → IsClose b → result ≡ true }
{
    is_close(a) && is_close(b)
}

/// Whether the four edges are close.
pub fn are_close(bounds: &Bounds) -> bool
    ensures all { IsClose bounds.now.left → IsClose bounds.now.bottom → IsClose bounds.now.right → IsClose bounds.now.top → result ≡ true }
    ensures close { IsTrue result → ((IsClose bounds.now.left × IsClose bounds.now.bottom) × (IsClose bounds.now.right × IsClose bounds.now.top)) }
{
    both_close(bounds.left, bounds.bottom) && both_close(bounds.right, bounds.top)
}

/// The extent of the single references in these columns and rows to a cell of this extent.
pub fn corners_extent(
    link: &Link,
    left: u32,
    right: u32,
    first: u32,
    last: u32,
    extent: &Bounds,
) -> Bounds
    requires columns { left ≤ right }
    requires right { right < link.now.columns }
    requires rows { first ≤ last }
    requires last { last < link.now.rows }
    requires fine { IsFine extent.now }
    ensures least { (w : Bounds) → ((k : ℕ) → k < link.now.columns * link.now.rows → IsPart w (carried_bounds (single link.now k) extent.now)) → IsPart w result }
    ensures around { (k : ℕ) → left ≤ k % link.now.columns → k % link.now.columns ≤ right → first ≤ k / link.now.columns → k / link.now.columns ≤ last
        → IsPart result (carried_bounds (single link.now k) extent.now) }
{
    let columns = link.columns;
    let below = joined(
        carried_extent(&link.single(first * columns + left), extent),
        carried_extent(&link.single(first * columns + right), extent),
    );
    let above = joined(
        carried_extent(&link.single(last * columns + left), extent),
        carried_extent(&link.single(last * columns + right), extent),
    );
    joined(below, above)
}

/// The first and the last column of the single references from one number up to another: all columns where they stand in several rows.
fn columns_of(link: &Link, from: u32, to: u32) -> (u32, u32)
    requires some { from < to }
    requires within { to ≤ link.now.columns * link.now.rows }
    ensures ordered { result.0 ≤ result.1 }
    ensures within { result.1 < link.now.columns }
    ensures all { (k : ℕ) → from ≤ k → k < to → (result.0 ≤ k % link.now.columns) × (k % link.now.columns ≤ result.1) }
{
    if from / link.columns == (to - 1) / link.columns {
        return (from % link.columns, (to - 1) % link.columns);
    }
    (0, link.columns - 1)
}

/// An extent that holds those of the single references from one number up to another.
pub fn turns_extent(link: &Link, from: u32, to: u32, extent: &Bounds) -> Bounds
    requires some { from < to }
    requires within { to ≤ link.now.columns * link.now.rows }
    requires fine { IsFine extent.now }
    ensures ordered { IsOrdered result }
    ensures around { (k : ℕ) → from ≤ k → k < to → IsPart result (carried_bounds (single link.now k) extent.now) }
{
    if to - from == 1 {
        return carried_extent(&link.single(from), extent);
    }
    let (left, right) = columns_of(link, from, to);
    let (first, last) = (from / link.columns, (to - 1) / link.columns);
    corners_extent(link, left, right, first, last, extent)
}
