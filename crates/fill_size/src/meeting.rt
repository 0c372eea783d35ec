//! Ranges of columns, marked where a region has a square in them.
ghost use Rattle.std.specs.Prelude.{◌≡◌, ◌≤ℤ◌, length};
ghost use Rattle.fill_base.specs.Coordinates.{IsCoordinate};
ghost use Rattle.fill_region.specs.Runs.{holds};
ghost use Rattle.fill_size.specs.Distance.{HasSquare};
ghost use Rattle.fill_size.specs.Ranges.{AreRising, AreMarked, HaveCommon, IsWidest};

use crate::overlap::have_common;
use fill_region::Region;

/// Marks the ranges in which the region has a square in the lines from `bottom` on and below `top`; those that are marked
/// stay so. A range is the columns from its first number on and below its second, in database units, and none begins
/// before one that stands before it. Only runs level with these lines are looked at, and of each only the ranges near it.
pub fn mark_met(region: &Region, ranges: &[(i64, i64)], bottom: i64, top: i64, marks: &mut [bool])
    requires count { length marks.old ≡ length ranges.now }
    requires rising { AreRising ranges.now }
    requires ordered { bottom ≤ℤ top }
    ensures count { length marks.new ≡ length marks.old }
    ensures marked { AreMarked (λ lo hi. HasSquare (holds region.now) lo bottom hi top) ranges.now marks.old marks.new }
{
    let width = widest(ranges);
    for run in region.runs_level(bottom, top) {
        if have_common(run.y1(), run.y2(), bottom, top) {
            mark_between(ranges, width, run.x1(), run.x2(), marks);
        }
    }
}

/// The width of the widest range, in columns: 0 where there is none.
fn widest(ranges: &[(i64, i64)]) -> i64
    requires { AreRising ranges.now }
    ensures { IsWidest ranges.now result }
{
    let mut width: i64 = 0;
    for range in ranges {
        width = width.max(range.1 - range.0);
    }
    width
}

/// Marks the ranges that have a column from `left` on and below `right`, which none does that begins further left of it than
/// the widest is wide.
fn mark_between(ranges: &[(i64, i64)], width: i64, left: i64, right: i64, marks: &mut [bool])
    requires count { length marks.old ≡ length ranges.now }
    requires rising { AreRising ranges.now }
    requires widest { IsWidest ranges.now width }
    requires left { IsCoordinate left }
    ensures count { length marks.new ≡ length marks.old }
    ensures marked { AreMarked (λ lo hi. HaveCommon lo hi left right) ranges.now marks.old marks.new }
{
    let near = left - width;
    let first = ranges.partition_point(|range| range.0 <= near);
    let end = ranges.partition_point(|range| range.0 < right);
    for a in first..end {
        let (lo, hi) = ranges[a];
        marks[a] |= have_common(lo, hi, left, right);
    }
}
