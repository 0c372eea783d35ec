//! Designs that tests write as the bytes of a library, and both ways to flatten one. What designs draw, and why they are refused, is
//! told by cases/.

use crate::records::{
    CHECKED, METAL, begin_cell, finished, head, name_of, put, put_points, put_shape,
};
use fill_base::{Layer, Rect};
use fill_region::Region;
use gds_flatten::{FlattenError, flatten, flatten_parts};
use gds_grammar::read_library;
use std::alloc::Global;
use std::test::*;

/// An element of a drafted cell. Cells have numbers, by which references name them.
#[derive(Clone, Copy)]
pub(crate) enum Draft<'a> {
    /// A boundary of the layer.
    Boundary(u16, &'a [(i32, i32)]),
    /// A reference to a cell that is only moved.
    Ref(u16, (i32, i32)),
    /// An array of so many columns and rows that is only moved.
    Array(u16, (u16, u16), &'a [(i32, i32)]),
}

/// The flags of STRANS and the first four bytes of ANGLE, if any.
pub(crate) type Turn = Option<(u16, u32)>;

/// The cells of a design with their numbers, in the order of the file.
pub(crate) type Cells<'a> = &'a [(u16, &'a [Draft<'a>])];

/// The first four bytes of 90 degrees.
pub(crate) const RIGHT: u32 = 0x425a_0000;

/// Four by two squares at the origin.
pub(crate) const OBLONG: &[(i32, i32)] = &[(0, 0), (4, 0), (4, 2), (0, 2), (0, 0)];

/// One square at the origin.
pub(crate) const SQUARE: &[(i32, i32)] = &[(0, 0), (1, 0), (1, 1), (0, 1), (0, 0)];

/// Appends STRANS and ANGLE.
fn put_angle(bytes: &mut Vec<u8>, flags: u16, angle: u32) -> Result<(), Fail> {
    put(bytes, 0x1a, 1, &flags.to_be_bytes())?;
    let [a, b, c, d] = angle.to_be_bytes();
    put(bytes, 0x1c, 5, &[a, b, c, d, 0, 0, 0, 0])
}

/// Appends STRANS and ANGLE where there's a turn.
fn put_turn(bytes: &mut Vec<u8>, turn: Turn) -> Result<(), Fail> {
    let Some((flags, angle)) = turn else {
        return Ok(());
    };
    put_angle(bytes, flags, angle)
}

/// Appends SREF or AREF with the name of its cell.
fn put_reference(bytes: &mut Vec<u8>, kind: u8, cell: u16) -> Result<(), Fail> {
    put(bytes, kind, 0, &[])?;
    put(bytes, 0x12, 6, &name_of(cell))
}

/// Appends COLROW.
fn put_counts(bytes: &mut Vec<u8>, (columns, rows): (u16, u16)) -> Result<(), Fail> {
    let [a, b] = columns.to_be_bytes();
    let [c, d] = rows.to_be_bytes();
    put(bytes, 0x13, 2, &[a, b, c, d])
}

/// Appends a boundary.
pub(crate) fn put_boundary(
    bytes: &mut Vec<u8>,
    layer: u16,
    points: &[(i32, i32)],
) -> Result<(), Fail> {
    put_shape(bytes, 8, layer)?;
    put_points(bytes, points)
}

/// Appends a single reference.
pub(crate) fn put_single(
    bytes: &mut Vec<u8>,
    cell: u16,
    turn: Turn,
    origin: (i32, i32),
) -> Result<(), Fail> {
    put_reference(bytes, 0x0a, cell)?;
    put_turn(bytes, turn)?;
    put_points(bytes, &[origin])
}

/// Appends an array.
pub(crate) fn put_array(
    bytes: &mut Vec<u8>,
    cell: u16,
    turn: Turn,
    counts: (u16, u16),
    points: &[(i32, i32)],
) -> Result<(), Fail> {
    put_reference(bytes, 0x0b, cell)?;
    put_turn(bytes, turn)?;
    put_counts(bytes, counts)?;
    put_points(bytes, points)
}

/// Appends an element.
fn put_element(bytes: &mut Vec<u8>, element: Draft<'_>) -> Result<(), Fail> {
    match element {
        Draft::Boundary(layer, points) => put_boundary(bytes, layer, points),
        Draft::Ref(cell, origin) => put_single(bytes, cell, None, origin),
        Draft::Array(cell, counts, points) => put_array(bytes, cell, None, counts, points),
    }
}

/// Appends a cell.
pub(crate) fn put_cell(bytes: &mut Vec<u8>, cell: u16, elements: &[Draft<'_>]) -> Result<(), Fail> {
    begin_cell(bytes, cell)?;
    for element in elements {
        put_element(bytes, *element)?;
    }
    put(bytes, 7, 0, &[])
}

/// The bytes of a library of these cells in the order of the file.
pub(crate) fn design(alloc: Global, cells: Cells<'_>) -> Result<Vec<u8>, Fail> {
    let mut bytes = head(alloc)?;
    for (cell, elements) in cells {
        put_cell(&mut bytes, *cell, *elements)?;
    }
    finished(bytes)
}

/// Moved by nothing.
const HERE: (i32, i32) = (0, 0);

/// A cell of one boundary, `OBLONG`.
const SHAPE: &[Draft<'static>] = &[Draft::Boundary(METAL, OBLONG)];

/// Both copies are there as rectangles, also where they overlap, and cover what the design draws.
#[test]
fn rectangles_of_each_copy(rt: HostRuntime) -> Result<(), Fail> {
    let top: &[Draft<'static>] = &[Draft::Ref(1, HERE), Draft::Ref(1, (2, 0))];
    let bytes = design(rt.alloc(), &[(0, top), (1, SHAPE)])?;
    let library = read_library(rt.alloc(), &bytes)?;
    let parts = flatten_parts(&rt, rt.alloc(), &library, &name_of(0), &[CHECKED])?;
    let rects = parts.concat(rt.alloc())?;
    assert_eq!(rt; rects.len(), 2);
    let region = flatten(&rt, rt.alloc(), &library, &name_of(0), &[CHECKED])?;
    let covered = Region::from_rects(rt.alloc(), &rects)?;
    assert!(rt; region == covered);
    Ok(())
}

/// A layer with the data type 0.
fn plain(layer: u16) -> Layer {
    Layer {
        layer,
        data_type: 0,
    }
}

/// Of three layers the shapes of two count, each once, whichever of the two stands twice in the list.
#[test]
fn shapes_of_two_layers(rt: HostRuntime) -> Result<(), Fail> {
    let alloc = rt.alloc();
    let top: &[Draft<'static>] = &[
        Draft::Boundary(8, SQUARE),
        Draft::Boundary(9, OBLONG),
        Draft::Ref(1, (10, 0)),
    ];
    let below: &[Draft<'static>] = &[Draft::Boundary(METAL, SQUARE), Draft::Boundary(8, OBLONG)];
    let bytes = design(alloc, &[(0, top), (1, below)])?;
    let library = read_library(alloc, &bytes)?;
    let want = Region::from_rects(alloc, &[Rect::new(0, 0, 4, 2)?, Rect::new(10, 0, 11, 1)?])?;
    for layers in [[CHECKED, plain(9), CHECKED], [plain(9), plain(9), CHECKED]] {
        let parts = flatten_parts(&rt, alloc, &library, &name_of(0), &layers)?;
        let rects = parts.concat(alloc)?;
        assert_eq!(rt; rects.len(), 2);
        assert!(rt; Region::from_rects(alloc, &rects)? == want);
    }
    Ok(())
}

/// Both answer the same; names are compared without padding.
#[test]
fn no_top(rt: HostRuntime) -> Result<(), Fail> {
    let bytes = design(rt.alloc(), &[(0, SHAPE)])?;
    let library = read_library(rt.alloc(), &bytes)?;
    let refused = flatten(&rt, rt.alloc(), &library, b"AA\0", &[CHECKED]).err();
    assert_eq!(rt; refused, Some(FlattenError::NoTop));
    let in_parts = flatten_parts(&rt, rt.alloc(), &library, b"AA\0", &[CHECKED]).err();
    assert_eq!(rt; in_parts, Some(FlattenError::NoTop));
    Ok(())
}
