//! The report of metal alone: of the rectangles that draw it, or of a region by its pieces.
ghost use Rattle.std.specs.Prelude.{◌≡◌, ℕ, ◌+◌, ◌-◌, ◌*◌, ◌<◌, ◌≤◌, min, ℤ, Bool, length, IfOk, All};
ghost use Rattle.std.specs.List.{flat_map};
ghost use Rattle.std.specs.Vec.{vec_items};
ghost use Rattle.fill_region.specs.Runs.{holds};
ghost use Rattle.fill_region.specs.Squares.{covered};
ghost use Rattle.fill_area.specs.Density.{IsArea};
ghost use Rattle.fill_text.specs.Limits.{AreShares};
ghost use Rattle.fill_text.specs.ValuesOfRules.{values_of};
ghost use Rattle.fill_measure.specs.Sums.{AreSumsOf};
ghost use Rattle.fill_report.specs.Report.{AreDrawn, lines_above, measures_of, report_text, nothing};
ghost use Rattle.fill_report.specs.RulesReport.{metal_report};

use crate::error::OutOfMemory;
use crate::line::Measures;
use crate::window::{Section, put_window};
use csv::{ByteRecord, Writer};
use fill_area::Windows;
use fill_base::Rect;
use fill_measure::{WindowSums, sum_rects};
use fill_region::Region;
use fill_text::{Limits, Rules};
use rayon::prelude::*;
use std::alloc::{AllocError, Global};
use std::thread::Threads;

/// The lines are made in at most so many sections.
const MOST_SECTIONS: usize = 32;

/// A section has the lines of so many windows or more, or of all that are left: fewer take no longer than a thread needs to begin.
const LEAST_SECTION: usize = 512;

/// A line is mostly no longer than so many bytes: each section has room for as many at the start.
const LINE: usize = 72;

/// The report of a region's metal without fill, over the windows of the rules: one line a window with
/// its column and row, its edges, the areas of metal, of fill (0) and of both, the share in parts of a
/// million rounded down, and `LOW`, `HIGH` or `OK` (this project's profile).
///
/// # Errors
/// `OutOfMemory` where memory runs out.
pub fn report_of(
    rt: &(impl Threads + Sync),
    alloc: Global,
    region: &Region,
    rules: &Rules,
) -> Result<Vec<u8>, OutOfMemory>
    ensures { IfOk result (λ v. v.items ≡ metal_report (holds region.now) (values_of rules.now)) }
{
    let lists = in_one_list(alloc, region)?;
    let sections = report_of_rects(rt, alloc, lists, rules)?;
    let text = joined(alloc, &sections)?;
    Ok(text)
}

/// The pieces of the region, as one list.
fn in_one_list(alloc: Global, region: &Region) -> Result<Vec<Vec<Rect>>, AllocError>
    ensures { IfOk result (λ lists. covered (flat_map vec_items lists.items) ≡ holds region.now) }
{
    let pieces = region.pieces(alloc)?;
    let mut lists = Vec::new(alloc);
    lists.push(pieces)?;
    Ok(lists)
}

/// The sections of a text, put together.
fn joined(alloc: Global, sections: &[Vec<u8>]) -> Result<Vec<u8>, AllocError>
    ensures { IfOk result (λ v. v.items ≡ flat_map vec_items sections.now) }
{
    sections.concat(alloc)
}

/// That report of the squares that some rectangle of some list holds, in sections that several threads make: one after another, they
/// are its text, which is nowhere put together. The lists are taken, and let go of once the windows are measured, before a line is
/// made.
///
/// # Errors
/// `OutOfMemory` where memory runs out.
pub fn report_of_rects(
    rt: &(impl Threads + Sync),
    alloc: Global,
    lists: Vec<Vec<Rect>>,
    rules: &Rules,
) -> Result<Vec<Vec<u8>>, OutOfMemory>
    ensures { IfOk result (λ v. flat_map vec_items v.items ≡ metal_report (covered (flat_map vec_items lists.items)) (values_of rules.now)) }
{
    let sums = sum_rects(rt, alloc, &lists, &rules.windows())?;
    drop(lists);
    lines_by_sums(rt, alloc, &sums, rules.limits())
}

/// The lines of windows by their sums, and no fill, in sections that are made at once: a section's windows are summed and written by one thread.
fn lines_by_sums(
    rt: &(impl Threads + Sync),
    alloc: Global,
    sums: &WindowSums,
    limits: Limits,
) -> Result<Vec<Vec<u8>>, OutOfMemory>
    requires limits { AreShares limits }
    ensures { IfOk result (λ v. (p : ℤ → ℤ → Bool) → AreSumsOf p sums.now → flat_map vec_items v.items ≡ report_text p nothing sums.now.windows limits) }
{
    let count = sums.windows().len();
    let size = section_size(count);
    (0..count.div_ceil(size))
        .into_par_iter()
        .with_min_len(1)
        .map(
            move |k: usize| -> Result<Vec<u8>, OutOfMemory>
                requires count { count ≡ sums.now.windows.across.count * sums.now.windows.up.count }
                requires within { k * size < count }
                requires limits { AreShares limits }
                ensures { let windows = sums.entry.now.windows in IfOk result (λ v. (p : ℤ → ℤ → Bool) → AreSumsOf p sums.entry.now → v.items ≡ lines_above 0 windows limits (measures_of p nothing windows) (k * size) (min size (count - k * size))) }
            {
                let from = k * size;
                let section = Section {
                    from,
                    count: size.min(count - from),
                    above: 0,
                };
                section_by_sums(alloc, sums, section, limits)
            },
        )
        .collect::<Result<Vec<Vec<u8>>, OutOfMemory>>(rt, alloc)?
}

/// The lines of some windows, by their sums, and no fill.
pub(crate) fn section_by_sums(
    alloc: Global,
    sums: &WindowSums,
    section: Section,
    limits: Limits,
) -> Result<Vec<u8>, OutOfMemory>
    requires within { section.from + section.count ≤ sums.now.windows.across.count * sums.now.windows.up.count }
    requires limits { AreShares limits }
    ensures { IfOk result (λ v. (p : ℤ → ℤ → Bool) → AreSumsOf p sums.now → v.items ≡ lines_above section.above sums.now.windows limits (measures_of p nothing sums.now.windows) section.from section.count) }
{
    let areas = sums.areas_from(alloc, section.from, section.count)?;
    let place = (section.from, section.above);
    lines_of(alloc, sums.windows(), &areas, place, limits)
}

/// Of how many windows a section has the lines, where there are so many windows.
fn section_size(count: usize) -> usize
    ensures { 0 < result }
{
    count.div_ceil(MOST_SECTIONS).max(LEAST_SECTION)
}

/// The lines of the windows from the one at a place on, with these areas of metal and no fill, which tell so many rows more than their own.
fn lines_of(
    alloc: Global,
    windows: &Windows,
    areas: &[i64],
    place: (usize, u32),
    limits: Limits,
) -> Result<Vec<u8>, OutOfMemory>
    requires within { place.0 + length areas.now ≤ windows.now.across.count * windows.now.up.count }
    requires areas { All IsArea areas.now }
    requires limits { AreShares limits }
    ensures { IfOk result (λ v. (measures : ℕ → ℕ → Measures) → AreDrawn windows.now place.0 areas.now measures → v.items ≡ lines_above place.1 windows.now limits measures place.0 (length areas.now)) }
{
    let (from, above) = place;
    let lines = areas.len().min(windows.len());
    let text = Vec::with_capacity(alloc, lines.saturating_mul(LINE))?;
    let mut writer = Writer::from_writer(text);
    let mut row = ByteRecord::new(alloc);
    for i in 0..areas.len() {
        let measures = Measures {
            drawn: areas[i],
            fill: 0,
            total: areas[i],
        };
        let at = (from + i, above);
        put_window(&mut writer, &mut row, windows, at, measures, limits)?;
    }
    let text = writer.into_inner()?;
    Ok(text)
}
