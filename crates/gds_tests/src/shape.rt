//! A boundary and a path, their segments, and what is far from the origin. What other shapes cover is told by cases/.

use crate::records::{METAL, begin_cell, finished, head, name_of, put, put_points, put_shape};
use fill_base::{Point, Rect};
use fill_region::Region;
use gds_grammar::{Element, Library, read_library};
use gds_shape::*;
use std::alloc::Global;
use std::process::Abort;
use std::test::*;

/// How many squares the region has.
fn area_of(alloc: Global, region: &Region) -> Result<i64, Fail> {
    let mut area = 0i64;
    for piece in &region.pieces(alloc)? {
        area = area.wrapping_add(piece.area());
    }
    Ok(area)
}

/// A point at these coordinates.
fn at(x: i64, y: i64) -> Point {
    Point { x, y }
}

/// What a boundary's region comes to: its squares, or why it is refused.
fn boundary_area(
    rt: &impl Abort,
    alloc: Global,
    points: &[Point],
) -> Result<Result<i64, ShapeError>, Fail> {
    let (Some(first), Some(last)) = (points.first(), points.last()) else {
        return Err("no point".into());
    };
    assert!(rt; *first == *last, "the boundary is open");
    match boundary_region(alloc, points) {
        Ok(region) => Ok(Ok(area_of(alloc, &region)?)),
        Err(refusal) => Ok(Err(refusal)),
    }
}

#[test]
fn boundary_with_a_hole(rt: HostRuntime) -> Result<(), Fail> {
    let hole = [
        at(0, 0),
        at(0, 3),
        at(3, 3),
        at(7, 3),
        at(7, 7),
        at(3, 7),
        at(3, 3),
        at(0, 3),
        at(0, 10),
        at(10, 10),
        at(10, 0),
        at(0, 0),
    ];
    assert_eq!(rt; boundary_area(&rt, rt.alloc(), &hole)?, Ok(84));
    Ok(())
}

/// What the records of a path say.
#[derive(Clone, Copy)]
struct Wire<'a> {
    path_type: u8,
    width: i32,
    begin: i32,
    end: i32,
    points: &'a [(i32, i32)],
}

/// Appends a path.
fn put_wire(bytes: &mut Vec<u8>, wire: Wire<'_>) -> Result<(), Fail> {
    put_shape(bytes, 9, METAL)?;
    put(bytes, 0x21, 2, &[0, wire.path_type])?;
    put(bytes, 0x0f, 3, &wire.width.to_be_bytes())?;
    put(bytes, 0x30, 3, &wire.begin.to_be_bytes())?;
    put(bytes, 0x31, 3, &wire.end.to_be_bytes())?;
    put_points(bytes, wire.points)
}

/// A library of one path, in its cell 0.
fn library_of(alloc: Global, wire: Wire<'_>) -> Result<Vec<u8>, Fail> {
    let mut bytes = head(alloc)?;
    begin_cell(&mut bytes, 0)?;
    put_wire(&mut bytes, wire)?;
    put(&mut bytes, 7, 0, &[])?;
    finished(bytes)
}

/// A corner: ten to the right, then ten upwards, of width four.
const CORNER: Wire<'static> = Wire {
    path_type: 0,
    width: 4,
    begin: 0,
    end: 0,
    points: &[(0, 0), (10, 0), (10, 10)],
};

/// What a path's region comes to: its squares, or why it is refused.
fn path_area(alloc: Global, wire: Wire<'_>) -> Result<Result<i64, ShapeError>, Fail> {
    let bytes = library_of(alloc, wire)?;
    let library = read_library(alloc, &bytes)?;
    let elements = library.cells.get(name_of(0).as_slice()).ok_or("no cell")?;
    for element in elements {
        if let Element::Path(path) = element {
            return match path_region(alloc, path) {
                Ok(region) => Ok(Ok(area_of(alloc, &region)?)),
                Err(refusal) => Ok(Err(refusal)),
            };
        }
    }
    Err("no path".into())
}

#[test]
fn path_with_a_corner(rt: HostRuntime) -> Result<(), Fail> {
    assert_eq!(rt; path_area(rt.alloc(), CORNER)?, Ok(80));
    Ok(())
}

/// The bytes of a library of one boundary, in its cell 0.
fn outline_of(alloc: Global, points: &[(i32, i32)]) -> Result<Vec<u8>, Fail> {
    let mut bytes = head(alloc)?;
    begin_cell(&mut bytes, 0)?;
    put_shape(&mut bytes, 8, METAL)?;
    put_points(&mut bytes, points)?;
    put(&mut bytes, 7, 0, &[])?;
    finished(bytes)
}

/// The sum of the areas of rectangles.
fn sum_of(rects: &[Rect]) -> i64 {
    rects.iter().fold(0, |sum: i64, rect: &Rect| -> i64 {
        sum.wrapping_add(rect.area())
    })
}

/// Whether all rectangles lie at the corner of all coordinates.
fn are_at_the_corner(rects: &[Rect]) -> bool {
    rects.iter().all(|rect| rect.x2() <= -1_073_741_812 && rect.y2() <= -1_073_741_812)
}

/// The extent of the outline of a library's cell 0 and the area of the outline at the corner.
fn outline_at_the_corner(alloc: Global, library: &Library<'_>) -> Result<(Bounds, i64), Fail> {
    let elements = library.cells.get(name_of(0).as_slice()).ok_or("no cell")?;
    let [element] = elements.as_slice() else {
        return Err("not one element".into());
    };
    let Element::Boundary(outline) = element else {
        return Err("no outline".into());
    };
    let points = outline.points.to_vec(alloc)?;
    if !is_manhattan(&points) {
        return Err("slanted".into());
    }
    let mut rects = Vec::new(alloc);
    let extent = put_boundary_at_corner(alloc, &mut rects, &points)?;
    if !are_at_the_corner(&rects) {
        return Err("not at the corner".into());
    }
    Ok((extent, sum_of(&rects)))
}

/// Eight by four squares, less five by two, far beyond the coordinates.
const BEYOND: &[(i32, i32)] = &[
    (2_000_000_000, 5),
    (2_000_000_000, 9),
    (2_000_000_003, 9),
    (2_000_000_003, 7),
    (2_000_000_008, 7),
    (2_000_000_008, 5),
    (2_000_000_000, 5),
];

/// Wider than all coordinates.
const WIDER: &[(i32, i32)] = &[
    (-2_000_000_000, 5),
    (-2_000_000_000, 9),
    (2_000_000_000, 9),
    (2_000_000_000, 5),
    (-2_000_000_000, 5),
];

/// Outlines, their extents, and how many squares are put at the corner.
const OUTLINES: &[(&[(i32, i32)], Bounds, i64)] = &[
    (
        BEYOND,
        Bounds {
            left: 2_000_000_000,
            bottom: 5,
            right: 2_000_000_008,
            top: 9,
        },
        22,
    ),
    (
        WIDER,
        Bounds {
            left: -2_000_000_000,
            bottom: 5,
            right: 2_000_000_000,
            top: 9,
        },
        0,
    ),
];

/// An outline far from the origin is moved to the corner of all coordinates, and one that is wider
/// than they are is not appended.
#[test]
fn outlines_at_the_corner(rt: HostRuntime) -> Result<(), Fail> {
    for (points, extent, area) in OUTLINES {
        let bytes = outline_of(rt.alloc(), *points)?;
        let library = read_library(rt.alloc(), &bytes)?;
        let found = outline_at_the_corner(rt.alloc(), &library)?;
        assert!(rt; found == (*extent, *area), "{points:?}");
    }
    Ok(())
}

#[test]
fn segments_of_a_path(rt: HostRuntime) -> Result<(), Fail> {
    let bytes = library_of(rt.alloc(), CORNER)?;
    let library = read_library(rt.alloc(), &bytes)?;
    for element in library.cells.get(name_of(0).as_slice()).ok_or("no cell")? {
        if let Element::Path(path) = element {
            let segments = path_segments(rt.alloc(), path)?;
            let want = [
                Bounds {
                    left: 0,
                    bottom: -2,
                    right: 12,
                    top: 2,
                },
                Bounds {
                    left: 8,
                    bottom: -2,
                    right: 12,
                    top: 10,
                },
            ];
            assert_eq!(rt; segments.as_slice(), want.as_slice());
            if segments.is_empty() {
                return Err("no segment".into());
            }
            let whole = Bounds {
                left: 0,
                bottom: -2,
                right: 12,
                top: 10,
            };
            assert_eq!(rt; bounds_extent(&segments), whole);
        }
    }
    Ok(())
}

/// The extent of the path of a library's cell 0 and the area of the path at the corner.
fn path_at_the_corner(alloc: Global, library: &Library<'_>) -> Result<(Option<Bounds>, i64), Fail> {
    let elements = library.cells.get(name_of(0).as_slice()).ok_or("no cell")?;
    let [element] = elements.as_slice() else {
        return Err("not one element".into());
    };
    let Element::Path(path) = element else {
        return Err("no path".into());
    };
    let mut rects = Vec::new(alloc);
    let extent = put_path_at_corner(alloc, &mut rects, path)?;
    if !are_at_the_corner(&rects) {
        return Err("not at the corner".into());
    }
    let region = Region::from_rects(alloc, &rects)?;
    Ok((extent, area_of(alloc, &region)?))
}

/// Paths, their extents, and how many squares are put at the corner.
const PATHS: &[(Wire<'static>, Option<Bounds>, i64)] = &[
    (
        Wire {
            points: &[(2_000_000_000, 5), (2_000_000_010, 5), (2_000_000_010, 15)],
            ..CORNER
        },
        Some(Bounds {
            left: 2_000_000_000,
            bottom: 3,
            right: 2_000_000_012,
            top: 15,
        }),
        80,
    ),
    (
        Wire {
            points: &[(-2_000_000_000, 0), (2_000_000_000, 0)],
            ..CORNER
        },
        Some(Bounds {
            left: -2_000_000_000,
            bottom: -2,
            right: 2_000_000_000,
            top: 2,
        }),
        0,
    ),
    (Wire { width: 0, ..CORNER }, None, 0),
];

/// A path far from the origin is moved to the corner of all coordinates, one that is wider than they
/// are is not appended, and one without a width has no extent.
#[test]
fn paths_at_the_corner(rt: HostRuntime) -> Result<(), Fail> {
    for (wire, extent, area) in PATHS {
        let bytes = library_of(rt.alloc(), *wire)?;
        let library = read_library(rt.alloc(), &bytes)?;
        let found = path_at_the_corner(rt.alloc(), &library)?;
        assert!(rt; found == (*extent, *area));
    }
    Ok(())
}
