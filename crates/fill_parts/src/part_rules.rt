//! A part of a chip of any size as a smaller chip: its rules, and which of its rows are the part's own.
ghost use Rattle.std.specs.Prelude.{◌≡◌, ◌&&◌, ◌-◌, ◌≤◌, false, nat_lt, true, IfOk};
ghost use Rattle.fill_base.specs.Sides.{sides_of};
ghost use Rattle.fill_base.specs.Squares.{squares};
ghost use Rattle.fill_raster.specs.Axes.{IsAxis, bands};
ghost use Rattle.fill_report.specs.Report.{nothing};
ghost use Rattle.fill_text.specs.Refusals.{Gives};
ghost use Rattle.fill_text.specs.Rules.{raster_of, whole_windows, windows_of};
ghost use Rattle.fill_text.specs.ValuesOfChips.{chip_values};
ghost use Rattle.fill_text.specs.ValuesOfRules.{values_of};
ghost use Rattle.fill_job.specs.Plans.{PointSet, plan_of};
ghost use Rattle.fill_job.specs.Searches.{some_below};
ghost use Rattle.fill_parts.specs.Cuts.{first_row, past_row};
ghost use Rattle.fill_parts.specs.Needs.{in_coordinates, needed_sides};
ghost use Rattle.fill_parts.specs.PartChip.{HoldsPart, by_size, counted_from, looks_at, own_alone, own_tiles, part_alone, part_rules, rows_told};
ghost use Rattle.fill_parts.specs.PartRows.{chip_tiles, looked_at_windows, looks_at_row};
ghost use Rattle.fill_parts.specs.Smaller.{AreRowsOf, AreSome, bands_alone};
ghost use Rattle.fill_parts.specs.SmallerRules.{rules_alone};
ghost use Rattle.fill_parts.specs.Told.{tiles_in, windows_in};

use crate::chip::PartRows;
use crate::needs::{around_windows, needed_rect};
use crate::part::Part;
use fill_base::{LOWEST, Rect};
use fill_job::laws::rules_make_a_plan;
use fill_raster::Axis as Places;
use fill_text::{ChipRows, ChipRules, RuleError, Rules};
use std::alloc::Global;
use std::ops::Range;
use thiserror::Error;

/// Why a part of a chip has no rules of its own.
#[derive(Clone, Copy, Debug, PartialEq, Eq, Error)]
pub enum PartRulesError {
    /// There are more than 2^20 windows in the rows that it looks at.
    #[error("too many windows")]
    Windows,
    /// There are more than 2^24 places for a box in its rows of tiles.
    #[error("too many places")]
    Places,
    /// An allocation was refused.
    #[error("out of memory")]
    Memory,
}

/// The rows of a chip that are told: of a part, its own.
#[derive(Debug, Drop)]
pub struct ToldRows {
    /// The rows of tiles, counted from the chip's lowest one on.
    pub tiles: Range<u32>,
    /// The rows of windows, counted so.
    pub windows: Range<u32>,
    /// How many rows of windows lie below the chip's lowest one, where it is a part of a larger chip.
    pub below: u32,
}

/// A part of a chip as a smaller chip: all that it looks at, and nothing farther away.
#[derive(Debug, Drop)]
pub struct PartChip {
    /// Its rules: those of the whole chip with fewer rows of tiles and of windows.
    pub rules: Rules,
    /// Its rows that are the part's own.
    pub told: ToldRows,
    pub ghost ordered: { told.windows.start ≤ told.windows.end },
    pub ghost within: { told.windows.end ≤ (windows_of (values_of rules)).up.count },
}

/// The lower edge of the frame of some rows of tiles alone.
fn bottom_of(places: Places, tiles: &Range<u32>) -> i64
    requires places { IsAxis places }
    requires tiles { AreRowsOf (record { from = tiles.now.start; to = tiles.now.end }) (bands places) }
    ensures { result ≡ (bands_alone places (record { from = tiles.now.start; to = tiles.now.end })).low }
{
    if tiles.start == 0 {
        places.low
    } else {
        places.band_begin(tiles.start)
    }
}

/// The upper edge of the frame of some rows of tiles alone.
fn top_of(places: Places, tiles: &Range<u32>) -> i64
    requires places { IsAxis places }
    requires tiles { AreRowsOf (record { from = tiles.now.start; to = tiles.now.end }) (bands places) }
    ensures { result ≡ (bands_alone places (record { from = tiles.now.start; to = tiles.now.end })).high }
{
    if tiles.end == places.bands() {
        places.high
    } else {
        places.band_end(tiles.end - 1)
    }
}

/// Some rows, counted from another one on.
fn counted_from(rows: Range<u32>, low: u32) -> Range<u32>
    ensures from { result.start ≡ (counted_from low (record { from = rows.start; to = rows.end })).from }
    ensures to { result.end ≡ (counted_from low (record { from = rows.start; to = rows.end })).to }
{
    if rows.start >= rows.end {
        return 0..0;
    }
    rows.start.saturating_sub(low)..rows.end.saturating_sub(low)
}

/// The rules of some rows of tiles and of windows alone.
fn rules_alone(
    alloc: Global,
    chip: &ChipRules,
    tiles: &Range<u32>,
    windows: &Range<u32>,
) -> Result<Rules, PartRulesError>
    requires tiles { AreRowsOf (record { from = tiles.now.start; to = tiles.now.end }) (bands (raster_of (chip_values chip.now).numbers).up) }
    requires windows { AreSome (record { from = windows.now.start; to = windows.now.end }) (whole_windows (chip_values chip.now).numbers).up.count }
    ensures { Gives PartRulesError.Memory values_of result (by_size (rules_alone (chip_values chip.now) (record { from = tiles.now.start; to = tiles.now.end }) (record { from = windows.now.start; to = windows.now.end }))) }
{
    chip.keeps_faultless();
    let places = chip.place_rows();
    let (first_window, _) = chip.window_rows().extent(windows.start);
    let alone = ChipRows {
        bottom: bottom_of(places, tiles),
        top: top_of(places, tiles),
        first_window,
        windows: windows.end - windows.start,
    };
    match chip.with_rows(alloc, alone) {
        Ok(rules) => Ok(rules),
        Err(RuleError::BadWindows) => Err(PartRulesError::Windows),
        Err(RuleError::TooManyPlaces) => Err(PartRulesError::Places),
        Err(_) => Err(PartRulesError::Memory),
    }
}

impl Part {
    /// The rules of the part's rows alone.
    fn rules_of(
        self,
        alloc: Global,
        chip: &ChipRules,
        rows: &PartRows,
    ) -> Result<Rules, PartRulesError>
        requires looks { some_below (looks_at_row self (raster_of (chip_values chip.now).numbers).up (whole_windows (chip_values chip.now).numbers).up) (whole_windows (chip_values chip.now).numbers).up.count ≡ true }
        requires tiles { let t = chip_tiles (chip_values chip.now).ignores self (raster_of (chip_values chip.now).numbers).up (whole_windows (chip_values chip.now).numbers).up in (rows.now.tiles.start ≡ t.from) × (rows.now.tiles.end ≡ t.to) }
        requires windows { let w = looked_at_windows self (raster_of (chip_values chip.now).numbers).up (whole_windows (chip_values chip.now).numbers).up in (rows.now.windows.start ≡ w.from) × (rows.now.windows.end ≡ w.to) }
        ensures { Gives PartRulesError.Memory values_of result (by_size (part_alone (chip_values chip.now) self)) }
    {
        chip.keeps_faultless();
        rules_alone(alloc, chip, &rows.tiles, &rows.windows)
    }

    /// Whether some rows of tiles of a chip are the part's own.
    pub fn has_tiles(self, chip: &ChipRules) -> bool
        ensures { let n = bands (raster_of (chip_values chip.now).numbers).up in result ≡ nat_lt (first_row self n) (past_row self n) }
    {
        let own = self.rows(chip.place_rows().bands());
        own.start < own.end
    }

    /// The part's own rows of tiles, of so many; where it has none, the lowest of them.
    fn own_tiles(self, count: u32) -> Range<u32>
        ensures from { result.start ≡ (own_tiles self count).from }
        ensures to { result.end ≡ (own_tiles self count).to }
        ensures are { AreRowsOf (record { from = result.start; to = result.end }) count }
    {
        let own = self.rows(count);
        if own.start < own.end {
            own
        } else {
            0..count.min(1)
        }
    }

    /// The rules of the part's own rows of tiles alone, or where it has none of the lowest one: those under which its fill library is
    /// read. Of the windows they keep the lowest row.
    ///
    /// # Errors
    /// `Places` where these rows have more than 2^24 places. `Memory` where memory runs out.
    pub fn own_rules(self, alloc: Global, chip: &ChipRules) -> Result<Rules, PartRulesError>
        ensures { Gives PartRulesError.Memory values_of result (by_size (own_alone (chip_values chip.now) self)) }
    {
        chip.keeps_faultless();
        let tiles = self.own_tiles(chip.place_rows().bands());
        rules_alone(alloc, chip, &tiles, &(0..1))
    }

    /// The chip of a part that looks at no window, so has neither lines nor fill: that of the last part, of which none of the
    /// rows is this part's own.
    fn empty_chip(self, alloc: Global, chip: &ChipRules) -> Result<PartChip, PartRulesError>
        requires none { some_below (looks_at (plan_of (chip_values chip.now)) self) (plan_of (chip_values chip.now)).windows.up.count ≡ false }
        ensures rules { Gives PartRulesError.Memory (λ c. values_of c.rules) result (part_rules (chip_values chip.now) self) }
        ensures part { IfOk result (λ c. HoldsPart (chip_values chip.now) self (values_of c.rules) (tiles_in c.told) (windows_in c.told) c.told.below) }
    {
        self.keeps_few();
        chip.keeps_faultless();
        let last = self.last();
        let rows = last
            .chip_rows(
                chip.ignores_padding(),
                chip.place_rows(),
                chip.window_rows(),
            )
            .unwrap();
        let rules = last.rules_of(alloc, chip, &rows)?;
        rules_make_a_plan(&rules);
        Ok(PartChip {
            rules,
            told: ToldRows {
                tiles: 0..0,
                windows: 0..0,
                below: 0,
            },
        })
    }

    /// The part of a chip of any size as a smaller chip. Of any metal and keep-outs, the fill of its own rows of tiles is the part's
    /// fill, and the lines of its own rows of windows are the part's lines.
    ///
    /// # Errors
    /// `Windows` where there are more than 2^20 windows in the rows that the part looks at, then `Places` where there are more than
    /// 2^24 places in its rows of tiles; where it looks at no window, as for the last part. `Memory` where memory runs out.
    pub fn chip(self, alloc: Global, chip: &ChipRules) -> Result<PartChip, PartRulesError>
        ensures rules { Gives PartRulesError.Memory (λ c. values_of c.rules) result (part_rules (chip_values chip.now) self) }
        ensures part { IfOk result (λ c. HoldsPart (chip_values chip.now) self (values_of c.rules) (tiles_in c.told) (windows_in c.told) c.told.below) }
    {
        self.keeps_few();
        chip.keeps_faultless();
        let places = chip.place_rows();
        let windows = chip.window_rows();
        let Some(rows) = self.chip_rows(chip.ignores_padding(), places, windows) else {
            return self.empty_chip(alloc, chip);
        };
        let rules = self.rules_of(alloc, chip, &rows)?;
        rules_make_a_plan(&rules);
        Ok(PartChip {
            rules,
            told: ToldRows {
                tiles: counted_from(self.rows(places.bands()), rows.tiles.start),
                windows: counted_from(self.rows(windows.count), rows.windows.start),
                below: rows.windows.start,
            },
        })
    }
}

impl PartChip {
    /// The least rectangle round all that the part looks at, as far as there are coordinates.
    pub fn needed_rect(&self) -> Rect
        ensures { sides_of result ≡ in_coordinates (needed_sides (plan_of (values_of self.now.rules))) }
    {
        needed_rect(&self.rules)
    }

    /// The rectangle round the part's own windows; the square at the least coordinates where it has none. Of any metal, what lies within
    /// gives the part's lines without fill.
    pub fn window_rect(&self) -> Rect
        ensures { (metal : PointSet) → rows_told (values_of self.now.rules) (windows_in self.now.told) self.now.told.below (λ x y. metal x y && squares result x y) nothing
            ≡ rows_told (values_of self.now.rules) (windows_in self.now.told) self.now.told.below metal nothing }
    {
        rules_make_a_plan(&self.rules);
        let own = &self.told.windows;
        if own.start >= own.end {
            return Rect::from_edges(LOWEST, LOWEST, LOWEST + 1, LOWEST + 1);
        }
        around_windows(&self.rules.windows(), own)
    }
}
