//! The rectangle that a chip needs of a design.
ghost use Rattle.std.specs.Prelude.{◌≡◌, ◌<◌, ◌≤◌};
ghost use Rattle.fill_base.specs.Limits.{IsSpacing};
ghost use Rattle.fill_base.specs.Sides.{sides_of};
ghost use Rattle.fill_text.specs.ValuesOfRules.{values_of};
ghost use Rattle.fill_job.specs.Plans.{plan_of};
ghost use Rattle.fill_parts.specs.Needs as spec;
ghost use Rattle.fill_parts.specs.Needs.{in_coordinates, needed_sides, round_windows};

use fill_area::Windows;
use fill_base::Rect;
use fill_job::laws::rules_make_a_plan;
use fill_text::Rules;
use std::ops::Range;

/// The rectangle round the windows of some rows.
pub(crate) fn around_windows(windows: &Windows, rows: &Range<u32>) -> Rect
    requires some { rows.now.start < rows.now.end }
    requires within { rows.now.end ≤ windows.now.up.count }
    ensures { sides_of result ≡ round_windows windows.now rows.now.start rows.now.end }
{
    let _ = windows.len();
    let first = windows.rect(0, rows.start);
    let last = windows.rect(windows.columns() - 1, rows.end - 1);
    Rect::from_edges(first.x1(), first.y1(), last.x2(), last.y2())
}

/// How far from a box metal or existing fill may lie that takes its place.
fn reach(rules: &Rules) -> i64
    ensures value { result ≡ spec.reach (plan_of (values_of rules.now)) }
    ensures range { IsSpacing result }
{
    rules.spacing().max(rules.fill_spacing())
}

/// The least rectangle round all that a chip of these rules looks at, as far as there are coordinates: its windows, and the boxes of its
/// places with the greater one of both spacings round them.
pub fn needed_rect(rules: &Rules) -> Rect
    ensures { sides_of result ≡ in_coordinates (needed_sides (plan_of (values_of rules.now))) }
{
    rules_make_a_plan(rules);
    let windows = rules.windows();
    let all = around_windows(&windows, &(0..windows.rows()));
    let raster = rules.raster();
    let tiles = raster.tiles();
    if tiles == 0 {
        return all;
    }
    let reach = reach(rules);
    let first = raster.halo(0, reach);
    let last = raster.halo(tiles - 1, reach);
    let left = all.x1().min(first.x1());
    let bottom = all.y1().min(first.y1());
    let right = all.x2().max(last.x2());
    let top = all.y2().max(last.y2());
    Rect::from_edges(left, bottom, right, top)
}
