//! The rows of tiles and of windows that a part of a chip has as a smaller chip, found by arithmetic.
ghost use Rattle.std.specs.Prelude.{◌≡◌, ◌↔◌, ◌<◌, ◌≤◌, ◌⊎◌, ℕ, Bool, false, true, None, IfSome, ◌&&◌, ◌+◌, ◌-◌, if◌then◌else◌, int_le, min, nat_le};
ghost use Rattle.std.specs.Int.{int_max, int_min};
ghost use Rattle.fill_base.specs.Coordinates.{IsCoordinate};
ghost use Rattle.fill_area.specs.Axes as areas;
ghost use Rattle.fill_area.specs.Axes.{IsIndex, axis_begin, axis_end};
ghost use Rattle.fill_raster.specs.Axes.{IsAxis, band_begin, band_end, bands};
ghost use Rattle.fill_job.specs.Searches.{some_below};
ghost use Rattle.fill_parts.specs.PartRows.{chip_tiles, first_of, is_tile_row_level, is_window_row_level, looked_at_windows, looks_at_row, needed_tiles, past_of};

use crate::part::Part;
use fill_area::Axis as Spans;
use fill_raster::Axis as Places;
use std::ops::Range;

/// The rows of a part as a smaller chip, numbered as in the whole one.
#[derive(Debug, Drop, PartialEq, Eq)]
pub struct PartRows {
    /// Its rows of tiles.
    pub tiles: Range<u32>,
    /// Its rows of windows.
    pub windows: Range<u32>,
}

/// The rows of both ranges and those between them, of so many; where both are empty, from the number on and below 0.
fn joined(own: Range<u32>, level: Range<u32>, count: u32) -> Range<u32>
    requires own { own.end ≤ count }
    requires level { level.end ≤ count }
    ensures { (p : ℕ → Bool) → ((k : ℕ) → k < count → (p k ≡ true) ↔ (IsIndex own.start own.end k ⊎ IsIndex level.start level.end k)) → (result.start ≡ first_of p count) × (result.end ≡ past_of p count) }
{
    if own.start >= own.end {
        if level.start >= level.end {
            return count..0;
        }
        return level;
    }
    if level.start >= level.end {
        return own;
    }
    own.start.min(level.start)..own.end.max(level.end)
}

/// The rows of tiles whose boxes are level with some rows of windows, or with what lies between these.
fn level_tiles(places: Places, windows: Spans, rows: Range<u32>) -> Range<u32>
    requires places { IsAxis places }
    requires windows { areas.IsAxis windows }
    requires rows { rows.end ≤ windows.count }
    ensures within { result.end ≤ bands places }
    ensures level { (t : ℕ) → t < bands places → IsIndex result.start result.end t ↔ (is_tile_row_level places windows (record { from = rows.start; to = rows.end }) t ≡ true) }
{
    if rows.start >= rows.end {
        return 0..0;
    }
    let (bottom, _) = windows.extent(rows.start);
    let (_, top) = windows.extent(rows.end - 1);
    places.bands_ended(bottom)..places.bands_begun(top)
}

/// The rows of windows that are level with the boxes of some rows of tiles, or with what lies between these.
fn level_windows(places: Places, windows: Spans, rows: Range<u32>) -> Range<u32>
    requires places { IsAxis places }
    requires windows { areas.IsAxis windows }
    requires rows { rows.end ≤ bands places }
    ensures within { result.end ≤ windows.count }
    ensures level { (b : ℕ) → b < windows.count → IsIndex result.start result.end b ↔ (is_window_row_level places windows (record { from = rows.start; to = rows.end }) b ≡ true) }
{
    if rows.start >= rows.end {
        return 0..0;
    }
    windows.touching(places.band_begin(rows.start), places.band_end(rows.end - 1))
}

/// The last row of tiles, up to one, that begins at a line or below it; the lowest one where none does.
fn begun_up_to(places: Places, last: u32, line: i64) -> u32
    requires places { IsAxis places }
    requires last { last ≤ bands places }
    requires line { IsCoordinate line }
    ensures { result ≡ past_of (λ t. nat_le t last && int_le (band_begin places t) line) (bands places) - 1 }
{
    places.bands_begun(line + 1).min(last + 1).saturating_sub(1)
}

/// The row past the first one, from some on, that ends at a line or above it; the number of rows where none does.
fn ended_from(places: Places, needed: u32, first: u32, line: i64) -> u32
    requires places { IsAxis places }
    requires needed { needed ≤ bands places }
    requires first { first ≤ bands places }
    requires line { IsCoordinate line }
    ensures { result ≡ min (bands places) (first_of (λ t. (nat_le needed (t + 1) && nat_le first t) && int_le line (band_end places t)) (bands places) + 1) }
{
    let ended = places.bands_ended(line - 1);
    let last = needed.saturating_sub(1).max(first).max(ended);
    places.bands().min(last + 1)
}

/// The lines that the frame of some windows has to reach, from below and from above: those between which they may count, where
/// nothing beside the frame does; else any.
fn frame_lines(ignores: bool, places: Places, windows: Spans, looked_at: &Range<u32>) -> (i64, i64)
    requires places { IsAxis places }
    requires windows { areas.IsAxis windows }
    requires some { looked_at.now.start < looked_at.now.end }
    requires within { looked_at.now.end ≤ windows.count }
    ensures begins { result.0 ≡ (if ignores then int_max places.low (axis_begin windows looked_at.now.start) else places.high) }
    ensures ends { result.1 ≡ (if ignores then int_min places.high (axis_end windows (looked_at.now.end - 1)) else places.low) }
    ensures bottom { IsCoordinate result.0 }
    ensures top { IsCoordinate result.1 }
{
    if !ignores {
        return (places.high, places.low);
    }
    let (begin, _) = windows.extent(looked_at.start);
    let (_, end) = windows.extent(looked_at.end - 1);
    (places.low.max(begin), places.high.min(end))
}

impl Part {
    /// The rows of tiles whose fill has to be known: its own, those level with its windows, and those between.
    fn needed_tiles(self, places: Places, windows: Spans) -> Range<u32>
        requires places { IsAxis places }
        requires windows { areas.IsAxis windows }
        ensures from { result.start ≡ (needed_tiles self places windows).from }
        ensures to { result.end ≡ (needed_tiles self places windows).to }
    {
        let count = places.bands();
        let level = level_tiles(places, windows, self.rows(windows.count));
        joined(self.rows(count), level, count)
    }

    /// The rows of windows whose metal has to be known: its own, those level with those tiles, and those between.
    fn looked_at_windows(self, places: Places, windows: Spans) -> Range<u32>
        requires places { IsAxis places }
        requires windows { areas.IsAxis windows }
        ensures from { result.start ≡ (looked_at_windows self places windows).from }
        ensures to { result.end ≡ (looked_at_windows self places windows).to }
    {
        let level = level_windows(places, windows, self.needed_tiles(places, windows));
        joined(self.rows(windows.count), level, windows.count)
    }

    /// Its rows of tiles, where it looks at these windows: those that it needs and, where nothing beside a frame counts, as many
    /// below and above as it takes to cover what may count of the windows.
    fn chip_tiles(
        self,
        ignores: bool,
        places: Places,
        windows: Spans,
        looked_at: &Range<u32>,
    ) -> Range<u32>
        requires places { IsAxis places }
        requires windows { areas.IsAxis windows }
        requires from { looked_at.now.start ≡ (looked_at_windows self places windows).from }
        requires to { looked_at.now.end ≡ (looked_at_windows self places windows).to }
        requires some { looked_at.now.start < looked_at.now.end }
        ensures from { result.start ≡ (chip_tiles ignores self places windows).from }
        ensures to { result.end ≡ (chip_tiles ignores self places windows).to }
    {
        let needed = self.needed_tiles(places, windows);
        let (begins_by, ends_from) = frame_lines(ignores, places, windows, looked_at);
        let first = begun_up_to(places, needed.start, begins_by);
        first..ended_from(places, needed.end, first, ends_from)
    }

    /// The rows of the part as a smaller chip, of the rows of places and of windows of the whole one, of which all counts or nothing
    /// beside the frame; none where it looks at no window.
    pub fn chip_rows(self, ignores: bool, places: Places, windows: Spans) -> Option<PartRows>
        requires places { IsAxis places }
        requires windows { areas.IsAxis windows }
        ensures none { (result ≡ None) ↔ (some_below (looks_at_row self places windows) windows.count ≡ false) }
        ensures tiles { IfSome result (λ r. (r.tiles.start ≡ (chip_tiles ignores self places windows).from) × (r.tiles.end ≡ (chip_tiles ignores self places windows).to)) }
        ensures windows { IfSome result (λ r. (r.windows.start ≡ (looked_at_windows self places windows).from) × (r.windows.end ≡ (looked_at_windows self places windows).to)) }
    {
        let looked_at = self.looked_at_windows(places, windows);
        if looked_at.start >= looked_at.end {
            return None;
        }
        Some(PartRows {
            tiles: self.chip_tiles(ignores, places, windows, &looked_at),
            windows: looked_at,
        })
    }
}
