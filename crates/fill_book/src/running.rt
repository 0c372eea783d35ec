//! Areas that are kept as running sums.
ghost use Rattle.std.specs.Prelude.{◌≡◌, ◌≤ℤ◌, ℤ, true};
ghost use Rattle.fill_base.specs.Counts.{is_between};
ghost use Rattle.fill_state.specs.Layers.{is_drawn};
ghost use Rattle.fill_raster.specs.Lattice.{in_raster};
ghost use Rattle.fill_sums.specs.Numbers.{AreNumbers, AreSums, IsMovedBy, StaysBy};
ghost use Rattle.fill_state.specs.Filling.{in_places, left_by, drawn_or_box};
ghost use Rattle.fill_book.specs.Standing.{IsEdited, StandFor, squares_in};
ghost use Rattle.fill_book.specs.steps.Following.{is_moved, taken_of_row, taken_of_rows, taken_out};

use crate::areas::Totals;
use crate::edited::Edited;
use crate::stored::Stored;
use fill_area::Windows;
use fill_base::Place;
use fill_job::SharedRules;
use fill_raster::{Marks, Raster};
use fill_region::Region;
use fill_state::{Filled, Places, low_windows};
use fill_sums::{Sums, Way};
use std::alloc::{AllocError, Global};
use std::ops::Range;

/// Places whose boxes come or go.
#[derive(Clone, Copy)]
enum Moved<'a> {
    /// Of the places of a tile, with its filled ones first, the marked places that aren't filled yet.
    New(&'a Marks, &'a Marks),
    /// The filled places among some.
    Out(&'a Filled, &'a Places),
}

impl<'a> Moved<'a> {
    /// Whether the box of a place comes or goes.
    fn has(self, place: Place) -> bool
        ensures { result ≡ is_moved self.entry place.i place.j }
    {
        match self {
            Moved::New(filled, marks) => marks.has(place) && !filled.has(place),
            Moved::Out(filled, places) => filled.has(place) && places.has(place),
        }
    }
}

/// Boxes of places of a raster that come or go.
#[derive(Drop)]
struct Boxes<'a> {
    way: Way,
    raster: Raster,
    moved: Moved<'a>,
}

/// Moves the sums by the boxes of a row, in some columns.
fn move_row(sums: &mut Sums, boxes: &Boxes<'_>, columns: &Range<i64>, j: i64)
    requires ordered { columns.now.start ≤ℤ columns.now.end }
    requires places { (i : ℤ) → is_between columns.now.start columns.now.end i ≡ true → in_raster boxes.now.raster i j ≡ true }
    requires numbers { AreNumbers sums.old.windows sums.old.total }
    requires stays { StaysBy boxes.now.way (taken_of_row boxes.now.raster (is_moved boxes.now.moved) sums.old.windows columns.now.start columns.now.end j) sums.old.windows sums.old.total }
    ensures windows { sums.new.windows ≡ sums.old.windows }
    ensures drawn { sums.new.drawn ≡ sums.old.drawn }
    ensures total { IsMovedBy boxes.now.way (taken_of_row boxes.now.raster (is_moved boxes.now.moved) sums.old.windows columns.now.start columns.now.end j) sums.old.windows sums.old.total sums.new.total }
{
    for i in columns.start..columns.end {
        let place = Place { i, j };
        if boxes.moved.has(place) {
            sums.move_box(boxes.way, &boxes.raster.box_of(place));
        }
    }
}

/// Moves the sums by the boxes of some places.
fn move_rows(sums: &mut Sums, boxes: &Boxes<'_>, places: &Places)
    requires ordered { places.now.columns.start ≤ℤ places.now.columns.end }
    requires upwards { places.now.rows.start ≤ℤ places.now.rows.end }
    requires places { (i j : ℤ) → in_places places.now i j ≡ true → in_raster boxes.now.raster i j ≡ true }
    requires numbers { AreNumbers sums.old.windows sums.old.total }
    requires stays { StaysBy boxes.now.way (taken_of_rows boxes.now.raster (is_moved boxes.now.moved) sums.old.windows places.now.columns.start places.now.columns.end places.now.rows.start places.now.rows.end) sums.old.windows sums.old.total }
    ensures windows { sums.new.windows ≡ sums.old.windows }
    ensures drawn { sums.new.drawn ≡ sums.old.drawn }
    ensures total { IsMovedBy boxes.now.way (taken_of_rows boxes.now.raster (is_moved boxes.now.moved) sums.old.windows places.now.columns.start places.now.columns.end places.now.rows.start places.now.rows.end) sums.old.windows sums.old.total sums.new.total }
{
    for j in places.rows.start..places.rows.end {
        move_row(sums, boxes, &places.columns, j);
    }
}

/// Tells what sums keep: a number for each window, within it. Does nothing at run time.
fn keep_within(sums: &Sums)
    ensures { AreSums sums.now }
{
    let _ = sums.totals();
}

/// Moves the sums by the boxes of the filled places among those that an edit takes out.
fn move_out(sums: &mut Sums, way: Way, stored: &Stored, out: &Places)
    requires on { (i j : ℤ) → in_places out.now i j ≡ true → in_raster stored.now.filled.raster i j ≡ true }
    requires columns { out.now.columns.start ≤ℤ out.now.columns.end }
    requires rows { out.now.rows.start ≤ℤ out.now.rows.end }
    requires stays { StaysBy way (taken_out stored.now out.now sums.old.windows) sums.old.windows sums.old.total }
    ensures windows { sums.new.windows ≡ sums.old.windows }
    ensures drawn { sums.new.drawn ≡ sums.old.drawn }
    ensures total { IsMovedBy way (taken_out stored.now out.now sums.old.windows) sums.old.windows sums.old.total sums.new.total }
{
    keep_within(sums);
    let boxes = Boxes {
        way,
        raster: stored.filled.raster(),
        moved: Moved::Out(&stored.filled, out),
    };
    move_rows(sums, &boxes, out);
}

/// Takes the boxes out that an edit takes out.
fn take_out(sums: &mut Sums, stored: &Stored, _windows: &Windows, edited: &Edited)
    requires stands { StandFor sums.old _windows.now (is_drawn stored.now.drawn) (squares_in stored.now) }
    requires edited { IsEdited stored.now edited.now }
    ensures { StandFor sums.new _windows.now (is_drawn stored.now.drawn) (drawn_or_box stored.now.filled.raster (left_by stored.now.filled edited.now.out) (is_drawn stored.now.drawn)) }
{
    stored.filled.keeps_apart();
    move_out(sums, Way::Down, stored, &edited.out);
}

/// Puts them back.
fn put_back(sums: &mut Sums, stored: &Stored, _windows: &Windows, edited: &Edited)
    requires stands { StandFor sums.old _windows.now (is_drawn stored.now.drawn) (drawn_or_box stored.now.filled.raster (left_by stored.now.filled edited.now.out) (is_drawn stored.now.drawn)) }
    requires edited { IsEdited stored.now edited.now }
    ensures { StandFor sums.new _windows.now (is_drawn stored.now.drawn) (squares_in stored.now) }
{
    stored.filled.keeps_apart();
    move_out(sums, Way::Up, stored, &edited.out);
}

impl Totals for Sums {
    ghost stand_for = { StandFor };

    fn of(
        alloc: Global,
        drawn: &Region,
        windows: &Windows,
        areas: Vec<i64>,
    ) -> Result<Sums, AllocError> {
        Sums::of_areas(alloc, drawn, windows, areas)
    }

    fn total(&self, _stored: &Stored, _windows: &Windows, a: u32, b: u32) -> i64 {
        Sums::total(self, a, b)
    }

    fn drawn(&self, _stored: &Stored, _windows: &Windows, a: u32, b: u32) -> i64 {
        Sums::drawn(self, a, b)
    }

    fn take_in(&mut self, stored: &Stored, _windows: &Windows, tile: u32, marks: &Marks) {
        keep_within(self);
        stored.filled.keeps_apart();
        let raster = stored.filled.raster();
        let (columns, rows) = raster.places(tile);
        let boxes = Boxes {
            way: Way::Up,
            raster,
            moved: Moved::New(stored.filled.marks(tile), marks),
        };
        move_rows(self, &boxes, &Places { columns, rows });
    }

    fn follow(&mut self, stored: &Stored, windows: &Windows, edited: &Edited) {
        take_out(self, stored, windows, edited);
        stored.filled.keeps_apart();
        let difference = &edited.difference;
        self.move_metal(difference.way, &difference.metal, &difference.within);
    }

    fn turn_back(&mut self, stored: &Stored, windows: &Windows, edited: &Edited) {
        stored.filled.keeps_apart();
        let difference = &edited.difference;
        self.move_metal(difference.back, &difference.metal, &difference.within);
        put_back(self, stored, windows, edited);
    }

    fn low(
        &self,
        alloc: Global,
        _stored: &Stored,
        rules: &SharedRules,
        _edited: &Edited,
    ) -> Result<Region, AllocError> {
        low_windows(alloc, &rules.windows(), rules.min(), self.totals())
    }
}
