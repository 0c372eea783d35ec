//! The filled places of a raster, tile by tile, and what their boxes take of a window.
ghost use Rattle.std.specs.Prelude.{◌≡◌, ◌&&◌, ◌||◌, not, ◌<◌, ◌≤◌, ◌^◌, ◌≤ℤ◌, ℤ, pos, true, false, All, IfOk};
ghost use Rattle.std.specs.Ordering.{int_eq};
ghost use Rattle.fill_base.specs.Counts.{is_between};
ghost use Rattle.fill_base.specs.Squares.{area_of};
ghost use Rattle.fill_area.specs.Density.{AreMeasured, IsArea, window_area};
ghost use Rattle.fill_raster.specs.Lattice.{KeepsPitch, in_raster, in_tile, tile_of, tiles};
ghost use Rattle.fill_raster.specs.Marks.{in_block, is_marked};
ghost use Rattle.fill_job.specs.Plans.{PointSet};
ghost use Rattle.fill_core.specs.Boxes.{count_places};
ghost use Rattle.fill_state.specs.Filling.{Filling, IsCounted, IsFilling, KeepsClear, boxes_of, in_places, is_filled, left_by, drawn_or_box};
ghost use Rattle.fill_state.specs.Layers.{is_drawn};
ghost use Rattle.fill_state.specs.steps.Taken.{AreApart, taken_in, taken_by_row, taken_by_rows};

use crate::drawn::DrawnLayer;
use crate::places::Places;
use fill_area::{Windows, shared_area};
use fill_base::{Place, Rect};
use fill_raster::{Marks, Raster};
use std::alloc::{AllocError, Global};
use std::marker::Model;
use std::ops::Range;

/// A raster, and the filled places of each of its tiles, with their number.
#[derive(Drop)]
pub struct Filled {
    raster: Raster,
    tiles: Vec<Marks>,
    count: u32,
}

impl Model for Filled {
    ghost Value = { Filling };

    ghost view = { λ f. record { raster = f.raster; marks = f.tiles.items } };

    ghost invariant = { λ f. IsCounted (record { raster = f.raster; marks = f.tiles.items }) f.count };
}

impl Filled {
    /// No place of a raster, with the room for all of them.
    ///
    /// # Errors
    /// `AllocError` where memory is refused.
    pub fn none(alloc: Global, raster: Raster) -> Result<Filled, AllocError>
        requires { KeepsPitch raster (pos 0) }
        ensures raster { IfOk result (λ f. f.raster ≡ raster) }
        ensures none { IfOk result (λ f. (i j : ℤ) → is_filled f i j ≡ false) }
    {
        let mut tiles = Vec::new(alloc);
        for tile in 0..raster.tiles() {
            tiles.push(Marks::none(alloc, &raster, tile)?)?;
        }
        Ok(Filled {
            raster,
            tiles,
            count: 0,
        })
    }

    /// The raster.
    pub fn raster(&self) -> Raster
        ensures { result ≡ self.now.raster }
    {
        self.raster
    }

    /// Tells what the type keeps: the boxes of two places share no square. Does nothing at run time.
    pub fn keeps_apart(&self)
        ensures { IsFilling self.now }
    {
        let _raster = self.raster;
    }

    /// The filled places of a tile.
    pub fn marks(&self, tile: u32) -> &Marks
        requires { tile < tiles self.now.raster }
        ensures tile { (i j : ℤ) → in_block result.now.block i j ≡ in_tile self.now.raster tile i j }
        ensures marked { (i j : ℤ) → is_marked result.now i j ≡ (in_tile self.now.raster tile i j && is_filled self.now i j) }
    {
        &self.tiles[tile as usize]
    }

    /// Whether a place is filled.
    pub fn has(&self, place: Place) -> bool
        ensures { result ≡ is_filled self.now place.i place.j }
    {
        self.raster.has(place) && self.tiles[self.raster.tile_of(place) as usize].has(place)
    }

    /// How many places are filled.
    pub fn count(&self) -> u32
        ensures { result ≡ count_places self.now.raster (is_filled self.now) }
    {
        self.count
    }

    /// Fills a place of a tile.
    pub fn set(&mut self, tile: u32, place: Place)
        requires tile { tile < tiles self.old.raster }
        requires place { in_tile self.old.raster tile place.i place.j ≡ true }
        ensures raster { self.new.raster ≡ self.old.raster }
        ensures filled { (i j : ℤ) → is_filled self.new i j ≡ is_filled self.old i j || (int_eq i place.i && int_eq j place.j) }
    {
        let tile = tile as usize;
        if !self.tiles[tile].has(place) {
            self.tiles[tile].set(place);
            self.count += 1;
        }
    }

    /// Empties a place.
    pub fn clear(&mut self, place: Place)
        requires { in_raster self.old.raster place.i place.j ≡ true }
        ensures raster { self.new.raster ≡ self.old.raster }
        ensures filled { (i j : ℤ) → is_filled self.new i j ≡ is_filled self.old i j && not (int_eq i place.i && int_eq j place.j) }
    {
        if self.has(place) {
            let tile = self.raster.tile_of(place) as usize;
            self.tiles[tile].clear(place);
            self.count -= 1;
        }
    }

    /// Fills the marked places of a row of a tile, in some columns.
    fn fill_row(&mut self, tile: u32, marks: &Marks, columns: &Range<i64>, j: i64)
        requires tile { tile < tiles self.old.raster }
        requires places { (i : ℤ) → is_between columns.now.start columns.now.end i ≡ true → in_tile self.old.raster tile i j ≡ true }
        ensures raster { self.new.raster ≡ self.old.raster }
        ensures filled { (k m : ℤ) → is_filled self.new k m ≡ is_filled self.old k m || (int_eq m j && (is_between columns.now.start columns.now.end k && is_marked marks.now k m)) }
    {
        for i in columns.start..columns.end {
            let place = Place { i, j };
            if marks.has(place) {
                self.set(tile, place);
            }
        }
    }

    /// Fills the marked places of a tile that are some of these.
    fn fill_rows(&mut self, tile: u32, marks: &Marks, places: &Places)
        requires tile { tile < tiles self.old.raster }
        requires places { (i j : ℤ) → in_places places.now i j ≡ true → in_tile self.old.raster tile i j ≡ true }
        ensures raster { self.new.raster ≡ self.old.raster }
        ensures filled { (k m : ℤ) → is_filled self.new k m ≡ is_filled self.old k m || (is_between places.now.rows.start places.now.rows.end m && (is_between places.now.columns.start places.now.columns.end k && is_marked marks.now k m)) }
    {
        for j in places.rows.start..places.rows.end {
            self.fill_row(tile, marks, &places.columns, j);
        }
    }

    /// Fills the marked places of a tile.
    pub fn take_in(&mut self, tile: u32, marks: &Marks)
        requires tile { tile < tiles self.old.raster }
        requires marked { (i j : ℤ) → is_marked marks.now i j ≡ true → in_tile self.old.raster tile i j ≡ true }
        ensures raster { self.new.raster ≡ self.old.raster }
        ensures filled { (i j : ℤ) → is_filled self.new i j ≡ is_filled self.old i j || is_marked marks.now i j }
    {
        let (columns, rows) = self.raster.places(tile);
        self.fill_rows(tile, marks, &Places { columns, rows });
    }

    /// Empties the places of a row, from one column on and before another.
    fn clear_row(&mut self, left: i64, right: i64, j: i64)
        requires { (i : ℤ) → is_between left right i ≡ true → in_raster self.old.raster i j ≡ true }
        ensures raster { self.new.raster ≡ self.old.raster }
        ensures filled { (k m : ℤ) → is_filled self.new k m ≡ is_filled self.old k m && not (is_between left right k && int_eq m j) }
    {
        for i in left..right {
            self.clear(Place { i, j });
        }
    }

    /// Empties the places of some rows, between the same columns each.
    fn clear_rows(&mut self, left: i64, right: i64, bottom: i64, top: i64)
        requires { (i j : ℤ) → is_between left right i && is_between bottom top j ≡ true → in_raster self.old.raster i j ≡ true }
        ensures raster { self.new.raster ≡ self.old.raster }
        ensures filled { (k m : ℤ) → is_filled self.new k m ≡ is_filled self.old k m && not (is_between left right k && is_between bottom top m) }
    {
        for j in bottom..top {
            self.clear_row(left, right, j);
        }
    }

    /// Empties some places of the raster.
    pub fn clear_places(&mut self, places: &Places)
        requires { (i j : ℤ) → in_places places.now i j ≡ true → in_raster self.old.raster i j ≡ true }
        ensures raster { self.new.raster ≡ self.old.raster }
        ensures filled { (i j : ℤ) → is_filled self.new i j ≡ is_filled self.old i j && not (in_places places.now i j) }
    {
        let (columns, rows) = (&places.columns, &places.rows);
        self.clear_rows(columns.start, columns.end, rows.start, rows.end);
    }

    /// Whether a place is of a tile.
    fn is_of_tile(&self, tile: usize, place: Place) -> bool
        ensures { result ≡ in_tile self.now.raster tile place.i place.j }
    {
        match self.tiles.get(tile) {
            Some(marks) => marks.has_place(place),
            None => false,
        }
    }

    /// The tile of a place. The tile that was looked in last is tried first, since most places share theirs with the one before.
    fn tile_after(&self, last: usize, place: Place) -> usize
        requires { in_raster self.now.raster place.i place.j ≡ true }
        ensures tile { result ≡ tile_of self.now.raster place.i place.j }
        ensures index { result < tiles self.now.raster }
    {
        if self.is_of_tile(last, place) {
            last
        } else {
            self.raster.tile_of(place) as usize
        }
    }

    /// Whether a place is filled, and none of those that are left out. Its tile is then the one that was looked in last.
    fn is_left(&self, last: &mut usize, out: &Places, place: Place) -> bool
        requires { in_raster self.now.raster place.i place.j ≡ true }
        ensures left { result ≡ left_by self.now out.now place.i place.j }
        ensures last { last.new ≡ tile_of self.now.raster place.i place.j }
    {
        *last = self.tile_after(*last, place);
        self.tiles[*last].has(place) && !out.has(place)
    }

    /// How many squares of a window the box of a place holds: none where it isn't filled, or is left out. Its tile is then the one
    /// that was looked in last.
    fn taken(&self, last: &mut usize, out: &Places, place: Place, window: &Rect) -> i64
        requires { in_raster self.now.raster place.i place.j ≡ true }
        ensures { result ≡ pos (taken_in self.now.raster (left_by self.now out.now) window.now place.i place.j) }
    {
        if self.is_left(last, out, place) {
            shared_area(&self.raster.box_of(place), window)
        } else {
            0
        }
    }

    /// How many squares of a window the boxes of a row hold, from one column on and before another, but for some places. The tile
    /// that was looked in last comes from the row before.
    fn taken_by_row(
        &self,
        last: &mut usize,
        out: &Places,
        window: &Rect,
        left: i64,
        right: i64,
        j: i64,
    ) -> i64
        requires ordered { left ≤ℤ right }
        requires apart { AreApart self.now.raster (left_by self.now out.now) }
        requires places { (i : ℤ) → is_between left right i ≡ true → in_raster self.now.raster i j ≡ true }
        ensures { result ≡ pos (taken_by_row self.now.raster (left_by self.now out.now) window.now left right j) }
    {
        let mut area = 0;
        for i in left..right {
            area += self.taken(last, out, Place { i, j }, window);
        }
        area
    }

    /// How many squares of a window the boxes of some rows hold, between the same columns each, but for some places.
    fn taken_by_rows(
        &self,
        out: &Places,
        window: &Rect,
        left: i64,
        right: i64,
        bottom: i64,
        top: i64,
    ) -> i64
        requires columns { left ≤ℤ right }
        requires rows { bottom ≤ℤ top }
        requires apart { AreApart self.now.raster (left_by self.now out.now) }
        requires places { (i j : ℤ) → is_between left right i && is_between bottom top j ≡ true → in_raster self.now.raster i j ≡ true }
        ensures { result ≡ pos (taken_by_rows self.now.raster (left_by self.now out.now) window.now left right bottom top) }
    {
        let mut area = 0;
        let mut last = 0;
        for j in bottom..top {
            area += self.taken_by_row(&mut last, out, window, left, right, j);
        }
        area
    }

    /// How many squares of a window the boxes of the filled places hold, but for some places.
    pub fn boxes_in(&self, out: &Places, window: &Rect) -> i64
        ensures { result ≡ pos (area_of (boxes_of self.now.raster (left_by self.now out.now)) window.now) }
    {
        let (columns, rows) = self.raster.near(window, 0);
        self.taken_by_rows(
            out,
            window,
            columns.start,
            columns.end,
            rows.start,
            rows.end,
        )
    }

    /// How many squares of a window are metal, existing fill or in a box of a filled place but for some, where no such box shares a
    /// square with metal or existing fill.
    pub fn total_in(&self, drawn: &DrawnLayer, out: &Places, window: &Rect) -> i64
        requires { KeepsClear self.now.raster (left_by self.now out.now) (is_drawn drawn.now) }
        ensures { result ≡ pos (area_of (drawn_or_box self.now.raster (left_by self.now out.now) (is_drawn drawn.now)) window.now) }
    {
        drawn.area_in(window) + self.boxes_in(out, window)
    }

    /// How many squares that count of the window in a column and a row the boxes of the filled places hold, but for some places.
    fn boxes_counted(&self, out: &Places, windows: &Windows, column: u32, row: u32) -> i64
        requires column { column < windows.now.across.count }
        requires row { row < windows.now.up.count }
        ensures area { result ≡ pos (window_area (boxes_of self.now.raster (left_by self.now out.now)) windows.now column row) }
        ensures few { (p : PointSet) → window_area p windows.now column row ≤ 2 ^ 62 }
    {
        match windows.part(column, row) {
            Some(window) => self.boxes_in(out, &window),
            None => 0,
        }
    }

    /// How many squares of each window are metal, existing fill or in a box of a filled place but for some: row by row, the window in
    /// column `a` and row `b` at `b * columns + a`.
    ///
    /// # Errors
    /// `AllocError` where memory is refused.
    pub fn totals(
        &self,
        alloc: Global,
        drawn: &DrawnLayer,
        out: &Places,
        windows: &Windows,
    ) -> Result<Vec<i64>, AllocError>
        requires { KeepsClear self.now.raster (left_by self.now out.now) (is_drawn drawn.now) }
        ensures areas { IfOk result (λ v. AreMeasured (drawn_or_box self.now.raster (left_by self.now out.now) (is_drawn drawn.now)) windows.now v.items) }
        ensures bounded { IfOk result (λ v. All IsArea v.items) }
    {
        let mut totals = Vec::with_capacity(alloc, windows.len())?;
        for k in 0..windows.len() {
            let (column, row) = windows.column_and_row(k);
            let area = drawn.counted_in(windows, column, row);
            totals.push(area + self.boxes_counted(out, windows, column, row))?;
        }
        Ok(totals)
    }
}
