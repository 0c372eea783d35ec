//! Rasters: the places where a fill box may stand, and the tiles that they are grouped into.
ghost use Rattle.std.specs.Prelude.{◌≡◌, ◌↔◌, ◌≤ℤ◌, ◌&&◌, ◌<◌, ◌%◌, ◌/◌, ◌<ℤ◌, ℤ, true, IsTrue, IsOk, IfOk, ◌-ℤ◌, ◌+ℤ◌};
ghost use Rattle.std.specs.Int.{int_max, int_min};
ghost use Rattle.fill_base.specs.Coordinates.{lowest, highest, IsCoordinate, IsInRange};
ghost use Rattle.fill_base.specs.Counts.{is_between};
ghost use Rattle.fill_base.specs.Limits.{IsLength, IsSpacing};
ghost use Rattle.fill_base.specs.Squares.{squares};
ghost use Rattle.fill_raster.specs.Axes.{IsAxis, IsBand, box_begin, box_end, first, past, bands};
ghost use Rattle.fill_raster.specs.Lattice as spec;
ghost use Rattle.fill_raster.specs.Marks.{IsBlock, in_block};
ghost use Rattle.fill_raster.specs.Lattice.{Lattice, IsLattice, KeepsPitch, HasFewPlaces, lattice_of, in_raster, in_tile, in_halo, box_squares, tile_left, tile_bottom, tile_right, tile_top};

use crate::axis::Axis;
use crate::block::Block;
use fill_base::{Place, Point, Rect};
use std::marker::Model;
use std::ops::Range;
use thiserror::Error;

/// Why numbers make no raster.
#[derive(Clone, Copy, Debug, PartialEq, Eq, Error)]
pub enum RasterError {
    /// A step is below the box's side and the fill spacing together, so boxes would stand too near.
    #[error("a step is below the side of a box and the fill spacing")]
    BadPitch,
    /// There are more than 2^24 places.
    #[error("the raster has more than 16777216 places")]
    TooManyPlaces,
}

/// The largest number of places of a raster.
const MOST_PLACES: u64 = 16_777_216;

/// The places `(i, j)`, for any whole numbers, whose box lies wholly in a frame: its lower left corner is `i` steps to the right
/// of the origin and `j` steps above it (KLayout's `fill` with a fixed origin). Places are grouped into tiles from the least
/// `i` and the least `j` on; the last tile of a row or column may be cut. Tiles are numbered from 0 by rows, lower rows first.
#[derive(Clone, Copy, Debug, PartialEq, Eq)]
pub struct Raster {
    across: Axis,
    up: Axis,
}

impl Model for Raster {
    ghost Value = { Lattice };

    ghost view = { λ r. record { across = r.across; up = r.up } };

    ghost invariant = { λ r. IsLattice (record { across = r.across; up = r.up }) };

    ghost inverse = { λ l. record { across = l.across; up = l.up } };
}

/// Whether both steps are at least the side of a box and the fill spacing.
fn keep_pitch(across: Axis, up: Axis, fill_spacing: i64) -> bool
    requires across { IsAxis across }
    requires up { IsAxis up }
    requires fill_spacing { IsSpacing fill_spacing }
    ensures { IsTrue result ↔ KeepsPitch (record { across = across; up = up }) fill_spacing }
{
    across.keeps_pitch(fill_spacing) & up.keeps_pitch(fill_spacing)
}

/// Whether so many columns and rows have at most 2^24 places.
fn are_few(across: Axis, up: Axis) -> bool
    requires across { IsAxis across }
    requires up { IsAxis up }
    ensures { IsTrue result ↔ HasFewPlaces (record { across = across; up = up }) }
{
    across.extent() * up.extent() <= MOST_PLACES
}

impl Raster {
    /// The raster of a frame, with the size of a box (width, height), the steps to the right and upwards, the lower left
    /// corner of the box of place (0, 0), and the places of a tile across and upwards, all in database units but the last.
    ///
    /// # Errors
    /// `BadPitch` where a step is below the box's side and the fill spacing, else `TooManyPlaces` where there are more
    /// than 2^24 places. A raster without places is none of these.
    pub fn new(
        frame: Rect,
        size: (i64, i64),
        step: (i64, i64),
        origin: Point,
        fill_spacing: i64,
        tile: (u32, u32),
    ) -> Result<Raster, RasterError>
        requires width { IsLength size.0 }
        requires height { IsLength size.1 }
        requires step_right { IsLength step.0 }
        requires step_up { IsLength step.1 }
        requires origin_x { IsCoordinate origin.x }
        requires origin_y { IsCoordinate origin.y }
        requires fill_spacing { IsSpacing fill_spacing }
        requires columns { IsBand tile.0 }
        requires rows { IsBand tile.1 }
        ensures ok { IsOk result ↔ (KeepsPitch (lattice_of frame size step origin tile) fill_spacing × HasFewPlaces (lattice_of frame size step origin tile)) }
        ensures bad_pitch { (result ≡ Err RasterError.BadPitch) ↔ ¬ KeepsPitch (lattice_of frame size step origin tile) fill_spacing }
        ensures too_many { (result ≡ Err RasterError.TooManyPlaces) ↔ (KeepsPitch (lattice_of frame size step origin tile) fill_spacing × ¬ HasFewPlaces (lattice_of frame size step origin tile)) }
        ensures raster { IfOk result (λ r. r ≡ lattice_of frame size step origin tile) }
    {
        let across = Axis {
            low: frame.x1(),
            high: frame.x2(),
            length: size.0,
            step: step.0,
            origin: origin.x,
            band: tile.0,
        };
        let up = Axis {
            low: frame.y1(),
            high: frame.y2(),
            length: size.1,
            step: step.1,
            origin: origin.y,
            band: tile.1,
        };
        Raster::checked(across, up, fill_spacing)
    }

    /// The raster of these columns and rows.
    fn checked(across: Axis, up: Axis, fill_spacing: i64) -> Result<Raster, RasterError>
        requires across { IsAxis across }
        requires up { IsAxis up }
        requires fill_spacing { IsSpacing fill_spacing }
        ensures ok { IsOk result ↔ (KeepsPitch (record { across = across; up = up }) fill_spacing × HasFewPlaces (record { across = across; up = up })) }
        ensures bad_pitch { (result ≡ Err RasterError.BadPitch) ↔ ¬ KeepsPitch (record { across = across; up = up }) fill_spacing }
        ensures too_many { (result ≡ Err RasterError.TooManyPlaces) ↔ (KeepsPitch (record { across = across; up = up }) fill_spacing × ¬ HasFewPlaces (record { across = across; up = up })) }
        ensures raster { IfOk result (λ r. r ≡ record { across = across; up = up }) }
    {
        if !keep_pitch(across, up, fill_spacing) {
            return Err(RasterError::BadPitch);
        }
        if !are_few(across, up) {
            return Err(RasterError::TooManyPlaces);
        }
        Ok(Raster { across, up })
    }

    /// The axis of the columns.
    pub(crate) fn across(&self) -> Axis
        ensures value { result ≡ self.now.across }
        ensures axis { IsAxis result }
    {
        self.across
    }

    /// The axis of the rows.
    pub(crate) fn up(&self) -> Axis
        ensures value { result ≡ self.now.up }
        ensures axis { IsAxis result }
    {
        self.up
    }

    /// The columns of the places, from left to right.
    pub fn columns(&self) -> Range<i64>
        ensures first { result.start ≡ first self.now.across }
        ensures past { result.end ≡ past self.now.across }
    {
        self.across.first()..self.across.past()
    }

    /// The rows of the places, upwards.
    pub fn rows(&self) -> Range<i64>
        ensures first { result.start ≡ first self.now.up }
        ensures past { result.end ≡ past self.now.up }
    {
        self.up.first()..self.up.past()
    }

    /// Whether a place is on the raster.
    pub fn has(&self, place: Place) -> bool
        ensures { result ≡ in_raster self.now place.i place.j }
    {
        self.across.has(place.i) & self.up.has(place.j)
    }

    /// The box of a place.
    pub fn box_of(&self, place: Place) -> Rect
        requires { in_raster self.now place.i place.j ≡ true }
        ensures squares { (x y : ℤ) → squares result x y ≡ box_squares self.now place.i place.j x y }
        ensures left { result.x1 ≡ box_begin self.now.across place.i }
        ensures bottom { result.y1 ≡ box_begin self.now.up place.j }
        ensures right { result.x2 ≡ box_end self.now.across place.i }
        ensures top { result.y2 ≡ box_end self.now.up place.j }
    {
        let (across, up) = (self.across, self.up);
        Rect::from_edges(
            across.box_begin(place.i),
            up.box_begin(place.j),
            across.box_end(place.i),
            up.box_end(place.j),
        )
    }

    /// How many tiles there are: none where the raster has no place.
    pub fn tiles(&self) -> u32
        ensures { result ≡ spec.tiles self.now }
    {
        self.up.bands() * self.across.bands()
    }

    /// How many columns of tiles there are.
    pub fn tile_columns(&self) -> u32
        ensures { result ≡ bands self.now.across }
    {
        self.across.bands()
    }

    /// How many rows of tiles there are.
    pub fn tile_rows(&self) -> u32
        ensures { result ≡ bands self.now.up }
    {
        self.up.bands()
    }

    /// The tile of a place.
    pub fn tile_of(&self, place: Place) -> u32
        requires { in_raster self.now place.i place.j ≡ true }
        ensures tile { result ≡ spec.tile_of self.now place.i place.j }
        ensures index { result < spec.tiles self.now }
    {
        self.up.band_of(place.j) * self.across.bands() + self.across.band_of(place.i)
    }

    /// The columns and the rows of a tile: its places are exactly those with their `i` in the first range and their `j` in
    /// the second.
    pub fn places(&self, tile: u32) -> (Range<i64>, Range<i64>)
        requires { tile < spec.tiles self.now }
        ensures columns { result.0.start <ℤ result.0.end }
        ensures rows { result.1.start <ℤ result.1.end }
        ensures places { (i j : ℤ) → (is_between result.0.start result.0.end i && is_between result.1.start result.1.end j) ≡ in_tile self.now tile i j }
    {
        let block = self.block(tile);
        (block.left..block.right, block.bottom..block.top)
    }

    /// The places of a tile.
    pub(crate) fn block(&self, tile: u32) -> Block
        requires { tile < spec.tiles self.now }
        ensures block { IsBlock result }
        ensures places { (i j : ℤ) → in_block result i j ≡ in_tile self.now tile i j }
    {
        let (column, row) = (self.tile_column(tile), self.tile_row(tile));
        Block {
            left: self.across.band_first(column),
            bottom: self.up.band_first(row),
            right: self.across.band_past(column),
            top: self.up.band_past(row),
        }
    }

    /// The halo of a tile: the bounding rectangle of its boxes, grown by the spacing on all sides, as far as there are
    /// coordinates. The spacing is 0 to 2^20 database units.
    pub fn halo(&self, tile: u32, spacing: i64) -> Rect
        requires tile { tile < spec.tiles self.now }
        requires spacing { IsSpacing spacing }
        ensures left { result.x1 ≡ int_max (tile_left self.now tile -ℤ spacing) lowest }
        ensures bottom { result.y1 ≡ int_max (tile_bottom self.now tile -ℤ spacing) lowest }
        ensures right { result.x2 ≡ int_min (tile_right self.now tile +ℤ spacing) highest }
        ensures top { result.y2 ≡ int_min (tile_top self.now tile +ℤ spacing) highest }
        ensures squares { (x y : ℤ) → IsInRange x y → squares result x y ≡ in_halo self.now tile spacing x y }
    {
        let (across, column) = (self.across, self.tile_column(tile));
        let (up, row) = (self.up, self.tile_row(tile));
        Rect::from_edges(
            across.halo_begin(column, spacing),
            up.halo_begin(row, spacing),
            across.halo_end(column, spacing),
            up.halo_end(row, spacing),
        )
    }

    /// The column of a tile, among the columns of tiles.
    fn tile_column(&self, tile: u32) -> u32
        requires { tile < spec.tiles self.now }
        ensures column { result ≡ tile % bands self.now.across }
        ensures index { result < bands self.now.across }
    {
        tile % self.across.bands()
    }

    /// The row of a tile, among the rows of tiles, from 0 on.
    pub fn tile_row(&self, tile: u32) -> u32
        requires { tile < spec.tiles self.now }
        ensures row { result ≡ tile / bands self.now.across }
        ensures index { result < bands self.now.up }
    {
        tile / self.across.bands()
    }
}
