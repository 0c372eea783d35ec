ghost use Rattle.std.specs.Prelude.{◌≡◌};
ghost use Rattle.fill_base.specs.Limits.{IsSpacing};

use fill_base::{HIGHEST, LOWEST, Point, Rect};
use fill_raster::{Marks, Place, Raster, RasterError};
use std::alloc::{AllocError, Global};
use std::process::Abort;
use std::test::Fail;

/// The box of a place that the raster has.
fn box_at(rt: &impl Abort, raster: &Raster, i: i64, j: i64) -> Rect {
    let place = Place { i, j };
    if !raster.has(place) {
        panic!(rt; "no place {place:?}");
    }
    raster.box_of(place)
}

/// The tile of a place that the raster has.
fn tile_at(rt: &impl Abort, raster: &Raster, i: i64, j: i64) -> u32 {
    let place = Place { i, j };
    if !raster.has(place) {
        panic!(rt; "no place {place:?}");
    }
    raster.tile_of(place)
}

/// The halo of a tile that the raster has.
fn halo_at(rt: &impl Abort, raster: &Raster, tile: u32, spacing: i64) -> Rect
    requires { IsSpacing spacing }
{
    if tile >= raster.tiles() {
        panic!(rt; "no tile {tile}");
    }
    raster.halo(tile, spacing)
}

/// Asserts which columns and rows of places a tile has.
fn assert_tile(rt: &impl Abort, raster: &Raster, tile: u32, columns: [i64; 2], rows: [i64; 2]) {
    if tile >= raster.tiles() {
        panic!(rt; "no tile {tile}");
    }
    let (i, j) = raster.places(tile);
    assert_eq!(rt; [i.start, i.end], columns, "columns of tile {tile}");
    assert_eq!(rt; [j.start, j.end], rows, "rows of tile {tile}");
}

/// How many places with both numbers from `lo` on and below `hi` the raster has.
fn count_places(raster: &Raster, lo: i32, hi: i32) -> u64 {
    let mut count = 0u64;
    for j in lo..hi {
        for i in lo..hi {
            let place = Place {
                i: i64::from(i),
                j: i64::from(j),
            };
            count = count.wrapping_add(u64::from(raster.has(place)));
        }
    }
    count
}

/// Boxes of 4 by 4 at steps of 10 from (3, 3) on, in a frame of 100 by 100.
fn full_raster(rt: &impl Abort) -> Raster {
    let origin = Point { x: 3, y: 3 };
    let Ok(frame) = Rect::new(0, 0, 100, 100) else {
        panic!(rt; "the frame is refused");
    };
    match Raster::new(frame, (4, 4), (10, 10), origin, 2, (4, 4)) {
        Ok(raster) => raster,
        Err(error) => panic!(rt; "{error}"),
    }
}

#[test]
fn full_raster_of_nine_tiles(rt: HostRuntime) -> Result<(), Fail> {
    let raster = full_raster(&rt);
    assert_eq!(rt; count_places(&raster, -3, 14), 100);
    assert_eq!(rt; raster.tiles(), 9);
    assert_tile(&rt, &raster, 0, [0, 4], [0, 4]);
    assert_tile(&rt, &raster, 1, [4, 8], [0, 4]);
    assert_tile(&rt, &raster, 2, [8, 10], [0, 4]);
    assert_tile(&rt, &raster, 3, [0, 4], [4, 8]);
    assert_tile(&rt, &raster, 4, [4, 8], [4, 8]);
    assert_tile(&rt, &raster, 5, [8, 10], [4, 8]);
    assert_tile(&rt, &raster, 6, [0, 4], [8, 10]);
    assert_tile(&rt, &raster, 7, [4, 8], [8, 10]);
    assert_tile(&rt, &raster, 8, [8, 10], [8, 10]);
    assert_eq!(rt; tile_at(&rt, &raster, 3, 3), 0);
    assert_eq!(rt; tile_at(&rt, &raster, 4, 3), 1);
    assert_eq!(rt; tile_at(&rt, &raster, 3, 4), 3);
    assert_eq!(rt; tile_at(&rt, &raster, 9, 9), 8);
    assert_eq!(rt; box_at(&rt, &raster, 0, 0), Rect::new(3, 3, 7, 7)?);
    assert_eq!(rt; box_at(&rt, &raster, 9, 2), Rect::new(93, 23, 97, 27)?);
    Ok(())
}

#[test]
fn halo_is_the_bounding_rectangle_grown_by_the_spacing(rt: HostRuntime) -> Result<(), Fail> {
    let raster = full_raster(&rt);
    assert_eq!(rt; halo_at(&rt, &raster, 0, 2), Rect::new(1, 1, 39, 39)?);
    assert_eq!(rt; halo_at(&rt, &raster, 0, 0), Rect::new(3, 3, 37, 37)?);
    assert_eq!(rt; halo_at(&rt, &raster, 5, 7), Rect::new(76, 36, 104, 84)?);
    assert_eq!(rt; halo_at(&rt, &raster, 8, 2), Rect::new(81, 81, 99, 99)?);
    Ok(())
}

/// Asserts the columns and the rows of the places near a rectangle.
fn assert_near(
    rt: &impl Abort,
    raster: &Raster,
    rect: &Rect,
    spacing: i64,
    columns: [i64; 2],
    rows: [i64; 2],
)
    requires { IsSpacing spacing }
{
    let (i, j) = raster.near(rect, spacing);
    assert_eq!(rt; [i.start, i.end], columns, "columns near {rect:?}");
    assert_eq!(rt; [j.start, j.end], rows, "rows near {rect:?}");
}

/// A box begins at 23 and the one before ends at 17: a gap of two to 21 is far enough, one to 22 is not.
#[test]
fn places_near_a_rectangle(rt: HostRuntime) -> Result<(), Fail> {
    let raster = full_raster(&rt);
    let wire = Rect::new(10, 10, 21, 20)?;
    assert_near(&rt, &raster, &wire, 2, [1, 2], [1, 2]);
    let wider = Rect::new(10, 10, 22, 20)?;
    assert_near(&rt, &raster, &wider, 2, [1, 3], [1, 2]);
    assert_near(&rt, &raster, &wider, 0, [1, 2], [1, 2]);
    let all = Rect::new(LOWEST, LOWEST, HIGHEST, HIGHEST)?;
    assert_near(&rt, &raster, &all, 1_048_576, [0, 10], [0, 10]);
    let (columns, _) = raster.near(&Rect::new(7, 0, 13, 9)?, 0);
    assert!(rt; columns.is_empty());
    Ok(())
}

#[test]
fn zero_spacing_lets_boxes_touch(rt: HostRuntime) -> Result<(), Fail> {
    let frame = Rect::new(0, 0, 100, 100)?;
    let raster = Raster::new(frame, (4, 4), (4, 4), Point { x: 0, y: 0 }, 0, (4, 4))?;
    assert_eq!(rt; count_places(&raster, -2, 30), 625);
    assert_eq!(rt; raster.tiles(), 49);
    assert_tile(&rt, &raster, 6, [24, 25], [0, 4]);
    assert_tile(&rt, &raster, 48, [24, 25], [24, 25]);
    assert_eq!(rt; box_at(&rt, &raster, 24, 0), Rect::new(96, 0, 100, 4)?);
    Ok(())
}

#[test]
fn pitch_is_judged_before_the_number_of_places(rt: HostRuntime) -> Result<(), Fail> {
    let (frame, origin) = (Rect::new(0, 0, 5000, 5000)?, Point { x: 3, y: 3 });
    let tile = (4, 4);
    let narrow = Raster::new(frame, (4, 4), (5, 10), origin, 2, tile);
    assert_eq!(rt; narrow, Err(RasterError::BadPitch));
    let low = Raster::new(frame, (4, 4), (10, 5), origin, 2, tile);
    assert_eq!(rt; low, Err(RasterError::BadPitch));
    assert!(rt; Raster::new(frame, (4, 4), (6, 6), origin, 2, tile).is_ok());
    let crowded = Raster::new(frame, (1, 1), (1, 1), origin, 1, tile);
    assert_eq!(rt; crowded, Err(RasterError::BadPitch));
    let many = Raster::new(frame, (1, 1), (1, 1), origin, 0, tile);
    assert_eq!(rt; many, Err(RasterError::TooManyPlaces));
    Ok(())
}

#[test]
fn so_many_places_and_no_more(rt: HostRuntime) -> Result<(), Fail> {
    let origin = Point { x: -7, y: 9 };
    let most = Rect::new(0, 0, 4096, 4096)?;
    let raster = Raster::new(most, (1, 1), (1, 1), origin, 0, (4096, 4096))?;
    assert_eq!(rt; raster.tiles(), 1);
    assert_tile(&rt, &raster, 0, [7, 4103], [-9, 4087]);
    let wide = Raster::new(
        Rect::new(0, 0, 4097, 4096)?,
        (1, 1),
        (1, 1),
        origin,
        0,
        (1, 1),
    );
    assert_eq!(rt; wide, Err(RasterError::TooManyPlaces));
    let high = Raster::new(
        Rect::new(0, 0, 1, (1 << 24) + 1)?,
        (1, 1),
        (1, 1),
        origin,
        0,
        (1, 1),
    );
    assert_eq!(rt; high, Err(RasterError::TooManyPlaces));
    Ok(())
}

#[test]
fn frame_too_small_for_a_box(rt: HostRuntime) -> Result<(), Fail> {
    let (small, origin) = (Rect::new(0, 0, 5, 5)?, Point { x: 3, y: 3 });
    let empty = Raster::new(small, (4, 4), (10, 10), origin, 2, (4, 4))?;
    assert_eq!(rt; empty.tiles(), 0);
    assert_eq!(rt; count_places(&empty, -9, 9), 0);
    let narrow = Raster::new(small, (4, 4), (5, 5), origin, 2, (4, 4));
    assert_eq!(rt; narrow, Err(RasterError::BadPitch));
    let line = Rect::new(LOWEST, 0, HIGHEST, 1)?;
    let none = Raster::new(line, (1, 2), (1, 2), Point { x: 0, y: 0 }, 0, (1, 1))?;
    assert_eq!(rt; none.tiles(), 0);
    assert!(rt; !none.has(Place { i: 0, j: 0 }));
    let whole = Raster::new(line, (1, 1), (1, 1), Point { x: 0, y: 0 }, 0, (1, 1));
    assert_eq!(rt; whole, Err(RasterError::TooManyPlaces));
    Ok(())
}

#[test]
fn raster_over_all_coordinates(rt: HostRuntime) -> Result<(), Fail> {
    let side = 1 << 20;
    let frame = Rect::new(LOWEST, LOWEST, HIGHEST, HIGHEST)?;
    let origin = Point {
        x: LOWEST,
        y: HIGHEST,
    };
    let raster = Raster::new(frame, (side, side), (side, side), origin, 0, (2000, 2048))?;
    assert_eq!(rt; raster.tiles(), 2);
    assert_tile(&rt, &raster, 1, [2000, 2048], [-2048, 0]);
    let corner = Rect::new(LOWEST, LOWEST, LOWEST + side, LOWEST + side)?;
    assert_eq!(rt; box_at(&rt, &raster, 0, -2048), corner);
    let last = Rect::new(HIGHEST - side, HIGHEST - side, HIGHEST, HIGHEST)?;
    assert_eq!(rt; box_at(&rt, &raster, 2047, -1), last);
    assert!(rt; !raster.has(Place { i: 2048, j: -1 }));
    assert!(rt;
        !raster.has(Place {
            i: i64::MIN,
            j: i64::MAX
        })
    );
    let right = LOWEST + 2000 * side;
    assert_eq!(rt;
        halo_at(&rt, &raster, 0, side),
        Rect::new(LOWEST, LOWEST, right + side, HIGHEST)?
    );
    assert_eq!(rt;
        halo_at(&rt, &raster, 1, 5),
        Rect::new(right - 5, LOWEST, HIGHEST, HIGHEST)?
    );
    Ok(())
}

#[test]
fn origin_far_outside_the_frame(rt: HostRuntime) -> Result<(), Fail> {
    let frame = Rect::new(-20, -20, -5, -5)?;
    let near = Raster::new(frame, (3, 3), (7, 7), Point { x: 1, y: 1 }, 4, (1, 2))?;
    assert_eq!(rt; near.tiles(), 2);
    assert_tile(&rt, &near, 0, [-3, -2], [-3, -1]);
    assert_eq!(rt; box_at(&rt, &near, -3, -2), Rect::new(-20, -13, -17, -10)?);
    assert!(rt; !near.has(Place { i: -4, j: -2 }));
    assert!(rt; !near.has(Place { i: -1, j: -2 }));
    let origin = Point {
        x: HIGHEST,
        y: LOWEST,
    };
    let far = Raster::new(frame, (3, 3), (7, 7), origin, 4, (2, 2))?;
    assert_eq!(rt; far.tiles(), 1);
    assert_tile(
        &rt,
        &far,
        0,
        [-153391692, -153391690],
        [153391687, 153391689],
    );
    let corner = Rect::new(-20, -15, -17, -12)?;
    assert_eq!(rt; box_at(&rt, &far, -153391692, 153391687), corner);
    Ok(())
}

/// Marks a place of the tile.
fn mark(rt: &impl Abort, marks: &mut Marks, i: i64, j: i64) {
    let place = Place { i, j };
    if !marks.has_place(place) {
        panic!(rt; "{place:?} is not of the tile");
    }
    marks.set(place);
}

/// Takes the mark off a place of the tile.
fn unmark(rt: &impl Abort, marks: &mut Marks, i: i64, j: i64) {
    let place = Place { i, j };
    if !marks.has_place(place) {
        panic!(rt; "{place:?} is not of the tile");
    }
    marks.clear(place);
}

/// No place of a tile that the raster has.
fn no_marks(
    rt: &impl Abort,
    alloc: Global,
    raster: &Raster,
    tile: u32,
) -> Result<Marks, AllocError> {
    if tile >= raster.tiles() {
        panic!(rt; "no tile {tile}");
    }
    Marks::none(alloc, raster, tile)
}

#[test]
fn marks_of_the_last_tile(rt: HostRuntime) -> Result<(), Fail> {
    let raster = full_raster(&rt);
    let mut marks = no_marks(&rt, rt.alloc(), &raster, 8)?;
    assert_eq!(rt; marks.count(), 0);
    assert!(rt; !marks.has(Place { i: 8, j: 9 }));
    mark(&rt, &mut marks, 8, 9);
    mark(&rt, &mut marks, 8, 9);
    assert_eq!(rt; marks.count(), 1);
    assert!(rt; marks.has(Place { i: 8, j: 9 }));
    assert!(rt; !marks.has(Place { i: 9, j: 8 }));
    assert!(rt; !marks.has_place(Place { i: 7, j: 9 }));
    assert!(rt; !marks.has(Place { i: 10, j: 8 }));
    mark(&rt, &mut marks, 9, 8);
    mark(&rt, &mut marks, 9, 9);
    mark(&rt, &mut marks, 8, 8);
    assert_eq!(rt; marks.count(), 4);
    unmark(&rt, &mut marks, 9, 8);
    unmark(&rt, &mut marks, 9, 8);
    assert_eq!(rt; marks.count(), 3);
    assert!(rt; !marks.has(Place { i: 9, j: 8 }));
    assert!(rt; marks.has(Place { i: 8, j: 9 }));
    Ok(())
}

/// The first column from this place on, in its row of the tile, that is marked or not, as asked.
fn column_from(rt: &impl Abort, marks: &Marks, i: i64, j: i64, marked: bool) -> Option<i64> {
    let place = Place { i, j };
    if !marks.has_place(place) {
        panic!(rt; "no place {place:?} of the tile");
    }
    marks.first_from(place, marked)
}

#[test]
fn marked_and_unmarked_columns_of_a_row(rt: HostRuntime) -> Result<(), Fail> {
    let raster = full_raster(&rt);
    assert_eq!(rt; [raster.columns().start, raster.columns().end], [0, 10]);
    assert_eq!(rt; [raster.rows().start, raster.rows().end], [0, 10]);
    // Tile 4 has columns and rows 4 to 7.
    let mut marks = no_marks(&rt, rt.alloc(), &raster, 4)?;
    assert_eq!(rt; column_from(&rt, &marks, 4, 5, true), None);
    mark(&rt, &mut marks, 5, 5);
    mark(&rt, &mut marks, 6, 5);
    mark(&rt, &mut marks, 4, 6);
    assert_eq!(rt; column_from(&rt, &marks, 4, 5, true), Some(5));
    assert_eq!(rt; column_from(&rt, &marks, 6, 5, true), Some(6));
    assert_eq!(rt; column_from(&rt, &marks, 7, 5, true), None);
    assert_eq!(rt; column_from(&rt, &marks, 4, 5, false), Some(4));
    assert_eq!(rt; column_from(&rt, &marks, 5, 5, false), Some(7));
    Ok(())
}

#[test]
fn marks_of_more_places_than_a_word_has_bits(rt: HostRuntime) -> Result<(), Fail> {
    let frame = Rect::new(0, 0, 13, 5)?;
    let raster = Raster::new(frame, (1, 1), (1, 1), Point { x: 6, y: 2 }, 0, (13, 5))?;
    let mut marks = no_marks(&rt, rt.alloc(), &raster, 0)?;
    for (i, j) in [(-6, -2), (6, 2), (5, 2), (-6, 2), (0, 0)] {
        mark(&rt, &mut marks, i, j);
    }
    assert_eq!(rt; marks.count(), 5);
    for j in -2..3i32 {
        for i in -6..7i32 {
            let marked = (i, j) == (-6, -2)
                || (i, j) == (6, 2)
                || (i, j) == (5, 2)
                || (i, j) == (-6, 2)
                || (i, j) == (0, 0);
            let place = Place {
                i: i64::from(i),
                j: i64::from(j),
            };
            assert_eq!(rt; marks.has(place), marked, "{place:?}");
        }
    }
    Ok(())
}

#[test]
fn a_million_marks(rt: HostRuntime) -> Result<(), Fail> {
    let frame = Rect::new(0, 0, 4096, 4096)?;
    let raster = Raster::new(frame, (1, 1), (1, 1), Point { x: 0, y: 0 }, 0, (4096, 4096))?;
    let mut marks = no_marks(&rt, rt.alloc(), &raster, 0)?;
    for j in 0..1000i32 {
        for i in 0..1000i32 {
            mark(&rt, &mut marks, 4 * i64::from(i), i64::from(j));
        }
    }
    assert_eq!(rt; marks.count(), 1_000_000);
    assert!(rt; marks.has(Place { i: 3996, j: 999 }));
    assert!(rt; !marks.has(Place { i: 3997, j: 999 }));
    assert!(rt; !marks.has(Place { i: 0, j: 1000 }));
    Ok(())
}

#[test]
fn each_refusal_says_why(rt: HostRuntime) -> Result<(), Fail> {
    let alloc = rt.alloc();
    let pitch = format!(in alloc; "{}", RasterError::BadPitch)?;
    assert_eq!(rt;
        pitch.as_str(),
        "a step is below the side of a box and the fill spacing"
    );
    let many = format!(in alloc; "{}", RasterError::TooManyPlaces)?;
    assert_eq!(rt; many.as_str(), "the raster has more than 16777216 places");
    Ok(())
}
