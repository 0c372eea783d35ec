//! The line of one window: where it lies, its areas, its share and its word.
ghost use Rattle.std.specs.Prelude.{◌≡◌, ◌++◌, ◌+◌, ◌*◌, ◌/◌, ◌%◌, ◌<◌, ℕ, List, Some, OnOk};
ghost use Rattle.fill_text.specs.Limits.{AreShares};
ghost use Rattle.fill_area.specs.Density.{IsArea};
ghost use Rattle.fill_report.specs.Report.{density_of, share_of, told_line};
ghost use Rattle.fill_report.specs.Writing.{IsReady, written};

use crate::error::OutOfMemory;
use crate::line::{Density, Measures, put_line};
use csv::{ByteRecord, Writer};
use fill_area::{Windows, is_high, is_low};
use fill_text::Limits;

/// So many windows from the one at place `from` on, whose lines tell so many rows more than their own: those of a chip of which they are
/// some rows.
#[derive(Clone, Copy)]
pub(crate) struct Section {
    pub from: usize,
    pub count: usize,
    pub above: u32,
}

/// Writes the line of the window at a place, which tells so many rows more than its own.
pub(crate) fn put_window(
    writer: &mut Writer<Vec<u8>>,
    row: &mut ByteRecord,
    windows: &Windows,
    place: (usize, u32),
    measures: Measures,
    limits: Limits,
) -> Result<(), OutOfMemory>
    requires ready { IsReady writer.old }
    requires within { place.0 < windows.now.across.count * windows.now.up.count }
    requires total { IsArea measures.total }
    requires limits { AreShares limits }
    ensures ready { OnOk result (IsReady writer.new) }
    ensures text { (front : List ℕ) → written writer.old ≡ Some front
        → OnOk result (written writer.new ≡ Some (front ++ told_line windows.now limits measures (place.0 % windows.now.across.count) (place.0 / windows.now.across.count) (place.1 + place.0 / windows.now.across.count))) }
{
    let (k, above) = place;
    let (a, b) = windows.column_and_row(k);
    let window = windows.rect(a, b);
    let size = windows.counted_size(a, b);
    let numbers = [
        i64::from(a),
        i64::from(above) + i64::from(b),
        window.x1(),
        window.y1(),
        window.x2(),
        window.y2(),
        measures.drawn,
        measures.fill,
        measures.total,
        share(measures.total, size),
    ];
    put_line(writer, row, &numbers, density(measures.total, limits, size))
}

/// A total in parts of a million of a window's size, rounded down; none where nothing counts.
fn share(total: i64, size: i64) -> i64
    requires total { IsArea total }
    requires size { IsArea size }
    ensures { result ≡ share_of total size }
{
    if 0 < size {
        total * 1_000_000 / size
    } else {
        0
    }
}

/// Whether a total is below the minimum of a window's size, above the maximum, or neither.
fn density(total: i64, limits: Limits, size: i64) -> Density
    requires total { IsArea total }
    requires limits { AreShares limits }
    requires size { IsArea size }
    ensures { result ≡ density_of total limits size }
{
    if is_low(total, limits.least, size) {
        Density::Low
    } else if is_high(total, limits.most, size) {
        Density::High
    } else {
        Density::Within
    }
}
