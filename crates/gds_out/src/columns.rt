//! Where the filled places of a row begin and end.

ghost use Rattle.std.specs.Prelude.{◌≡◌, ◌≤ℤ◌, true, IfSome};
ghost use Rattle.fill_raster.specs.Axes.{first, past, is_on};
ghost use Rattle.gds_out.specs.Places.{AreOfTiles, marked_by};
ghost use Rattle.gds_out.specs.steps.Columns.{IsNext};

use fill_raster::{Marks, Place, Raster};

/// The first column from the place's on, in the place's row of a tile, whose place is marked, or is not, as `marked` asks; `None` where the
/// place is of another tile, or no such column stands in this one.
fn column_in_tile(
    _raster: Raster,
    marks: &[&Marks],
    tile: usize,
    place: Place,
    marked: bool,
) -> Option<i64>
    requires { AreOfTiles _raster marks.now }
    ensures { IfSome result (IsNext _raster (marked_by marks.now) place.i place.j marked) }
{
    let marks = marks.get(tile)?;
    if marks.has_place(place) {
        marks.first_from(place, marked)
    } else {
        None
    }
}

/// The first column from the place's on, in the place's row, whose place is marked, or is not, as `marked` asks; the column past
/// the last where there is none. A row goes on from tile to tile; that of the column is remembered in `last`.
fn column_from(
    raster: Raster,
    marks: &[&Marks],
    last: &mut usize,
    place: Place,
    marked: bool,
) -> i64
    requires tiles { AreOfTiles raster marks.now }
    requires from { first raster.across ≤ℤ place.i }
    requires to { place.i ≤ℤ past raster.across }
    requires row { is_on raster.up place.j ≡ true }
    ensures { IsNext raster (marked_by marks.now) place.i place.j marked result }
{
    let past = raster.columns().end;
    let mut i = place.i;
    while i < past {
        let here = Place { i, j: place.j };
        let tile = raster.tile_of(here);
        *last = tile as usize;
        if let Some(k) = marks[tile as usize].first_from(here, marked) {
            return k;
        }
        i = raster.places(tile).0.end;
    }
    past
}

/// The same, where the tile that was looked in last is tried first, since most places share theirs with the one before.
pub(crate) fn next_column(
    raster: Raster,
    marks: &[&Marks],
    last: &mut usize,
    place: Place,
    marked: bool,
) -> i64
    requires tiles { AreOfTiles raster marks.now }
    requires from { first raster.across ≤ℤ place.i }
    requires to { place.i ≤ℤ past raster.across }
    requires row { is_on raster.up place.j ≡ true }
    ensures { IsNext raster (marked_by marks.now) place.i place.j marked result }
{
    match column_in_tile(raster, marks, *last, place, marked) {
        Some(k) => k,
        None => column_from(raster, marks, last, place, marked),
    }
}
