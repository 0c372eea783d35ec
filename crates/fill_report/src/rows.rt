//! The report of some rows of windows: of a part of a chip.
ghost use Rattle.std.specs.Prelude.{◌≡◌, ◌*◌, ◌-◌, ◌≤◌, IfOk};
ghost use Rattle.std.specs.List.{flat_map};
ghost use Rattle.std.specs.Vec.{vec_items};
ghost use Rattle.fill_region.specs.Squares.{covered};
ghost use Rattle.fill_text.specs.Rules.{limits_of, windows_of};
ghost use Rattle.fill_text.specs.ValuesOfRules.{values_of};
ghost use Rattle.fill_report.specs.Report.{lines_above, measures_of, nothing};

use crate::error::OutOfMemory;
use crate::metal::section_by_sums;
use crate::window::Section;
use fill_base::Rect;
use fill_measure::sum_rects;
use fill_text::Rules;
use std::alloc::Global;
use std::ops::Range;
use std::thread::Threads;

/// The lines of some rows of the rules' windows, of the squares that some rectangle of some list holds: those that `report_of_rects` has
/// for these rows, but that each tells so many rows more than its own. The lists are taken, and let go of once the windows are measured.
///
/// # Errors
/// `OutOfMemory` where memory runs out.
pub fn rows_report_of_rects(
    rt: &(impl Threads + Sync),
    alloc: Global,
    lists: Vec<Vec<Rect>>,
    rules: &Rules,
    rows: Range<u32>,
    above: u32,
) -> Result<Vec<u8>, OutOfMemory>
    requires ordered { rows.start ≤ rows.end }
    requires within { rows.end ≤ (windows_of (values_of rules.now)).up.count }
    ensures { let v = values_of rules.now in let g = windows_of v in
        IfOk result (λ text. text.items ≡ lines_above above g (limits_of v) (measures_of (covered (flat_map vec_items lists.items)) nothing g) (rows.start * g.across.count) ((rows.end - rows.start) * g.across.count)) }
{
    let windows = rules.windows();
    let sums = sum_rects(rt, alloc, &lists, &windows)?;
    drop(lists);
    let _ = windows.len();
    let columns = windows.columns() as usize;
    let from = rows.start as usize * columns;
    let count = (rows.end - rows.start) as usize * columns;
    let section = Section { from, count, above };
    section_by_sums(alloc, &sums, section, rules.limits())
}
