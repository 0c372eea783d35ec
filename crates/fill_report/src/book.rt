//! The report of a book's metal, existing fill and fill.
ghost use Rattle.std.specs.Prelude.{◌≡◌, ◌+◌, ◌-◌, ◌*◌, ◌/◌, ◌%◌, ◌<◌, ◌≤◌, IfOk};
ghost use Rattle.fill_text.specs.Limits.{AreShares};
ghost use Rattle.fill_area.specs.Density.{IsArea};
ghost use Rattle.fill_job.specs.Plans.{IsPlan, drawn_squares, plan_of};
ghost use Rattle.fill_core.specs.Accounts.{state_of};
ghost use Rattle.fill_text.specs.Rules.{limits_of, windows_of};
ghost use Rattle.fill_report.specs.Report.{lines_above, measures_of};
ghost use Rattle.fill_report.specs.BookReport.{boxes_of, fill_report};

use crate::error::OutOfMemory;
use crate::line::Measures;
use crate::window::{Section, put_window};
use csv::{ByteRecord, Writer};
use fill_area::Windows;
use fill_core::FillBook;
use fill_job::laws::rules_make_a_plan;
use fill_text::Limits;
use std::alloc::Global;
use std::ops::Range;

/// The report of a book's design and fill, over the windows of its rules: one line a window with its
/// column and row, its edges, the areas of metal and existing fill together, of fill boxes and of all,
/// the share of all in parts of a million rounded down, and `LOW`, `HIGH` or `OK` (this project's profile).
///
/// # Errors
/// `OutOfMemory` where memory runs out.
pub fn report<B: FillBook>(alloc: Global, book: &B) -> Result<Vec<u8>, OutOfMemory>
    ensures { let a = B.account book.now in let s = state_of a in IfOk result (λ v. v.items ≡ fill_report a.rules (drawn_squares s.layers) s.fill) }
{
    let rules = book.rules();
    // A law: the rules make a plan, and under a plan no box of a fill has a square of metal or existing fill.
    rules_make_a_plan(rules);
    let windows = rules.windows();
    let section = Section {
        from: 0,
        count: windows.len(),
        above: 0,
    };
    book_lines(alloc, book, &windows, section, rules.limits())
}

/// The lines of some rows of windows in that report, which tell so many rows more than their own: where the book is that of some rows of a
/// chip, so many of the chip's rows are below it.
///
/// # Errors
/// `OutOfMemory` where memory runs out.
pub fn rows_report<B: FillBook>(
    alloc: Global,
    book: &B,
    rows: Range<u32>,
    above: u32,
) -> Result<Vec<u8>, OutOfMemory>
    requires ordered { rows.start ≤ rows.end }
    requires within { rows.end ≤ (windows_of (B.account book.now).rules).up.count }
    ensures { let a = B.account book.now in let s = state_of a in let g = windows_of a.rules in IfOk result (λ v. v.items ≡
        lines_above above g (limits_of a.rules) (measures_of (drawn_squares s.layers) (boxes_of (plan_of a.rules) s.fill) g) (rows.start * g.across.count) ((rows.end - rows.start) * g.across.count)) }
{
    let rules = book.rules();
    rules_make_a_plan(rules);
    let windows = rules.windows();
    let _ = windows.len();
    let columns = windows.columns() as usize;
    let from = rows.start as usize * columns;
    let count = (rows.end - rows.start) as usize * columns;
    let section = Section { from, count, above };
    book_lines(alloc, book, &windows, section, rules.limits())
}

/// The lines of so many of a book's windows from one on, row by row from the lowest, in a row from the left. A window is `LOW`
/// below the least density and `HIGH` above the greatest.
fn book_lines<B: FillBook>(
    alloc: Global,
    book: &B,
    windows: &Windows,
    section: Section,
    limits: Limits,
) -> Result<Vec<u8>, OutOfMemory>
    requires plan { IsPlan (plan_of (B.account book.now).rules) }
    requires windows { windows.now ≡ (plan_of (B.account book.now).rules).windows }
    requires limits { AreShares limits }
    requires within { section.from + section.count ≤ windows.now.across.count * windows.now.up.count }
    ensures { let a = B.account book.now in let s = state_of a in IfOk result (λ v. v.items ≡ lines_above section.above windows.now limits (measures_of (drawn_squares s.layers) (boxes_of (plan_of a.rules) s.fill) windows.now) section.from section.count) }
{
    let mut writer = Writer::from_writer(Vec::new(alloc));
    let mut row = ByteRecord::new(alloc);
    for k in section.from..section.from + section.count {
        let measures = measures_in(book, windows, k);
        let place = (k, section.above);
        put_window(&mut writer, &mut row, windows, place, measures, limits)?;
    }
    let text = writer.into_inner()?;
    Ok(text)
}

/// How many squares of the window at place `k` are metal or existing fill, in fill boxes, and either of both.
fn measures_in<B: FillBook>(book: &B, windows: &Windows, k: usize) -> Measures
    requires plan { IsPlan (plan_of (B.account book.now).rules) }
    requires windows { windows.now ≡ (plan_of (B.account book.now).rules).windows }
    requires within { k < windows.now.across.count * windows.now.up.count }
    ensures measures { let a = B.account book.now in let s = state_of a in result ≡ measures_of (drawn_squares s.layers) (boxes_of (plan_of a.rules) s.fill) windows.now (k % windows.now.across.count) (k / windows.now.across.count) }
    ensures total { IsArea result.total }
{
    let (a, b) = windows.column_and_row(k);
    let drawn = book.drawn(a, b);
    let total = book.total(a, b);
    Measures {
        drawn,
        fill: total - drawn,
        total,
    }
}
