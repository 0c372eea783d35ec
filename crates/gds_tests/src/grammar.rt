//! A library, record by record: cut anywhere, and with each record of another form. What else is read or refused is told by cases/.

use fill_base::{Layer, Point};
use gds_grammar::*;
use std::alloc::{AllocError, Global};
use std::process::Abort;
use std::test::*;

const HEADER: &[u8] = &[0x00, 0x06, 0x00, 0x02, 0x02, 0x58];

const BGNLIB: &[u8] = &[
    0x00, 0x1c, 0x01, 0x02, 0, 0, 0, 0, 0, 0, 0, 0, 0, 0, 0, 0, 0, 0, 0, 0, 0, 0, 0, 0, 0, 0, 0, 0,
];

const LIBNAME: &[u8] = &[0x00, 0x08, 0x02, 0x06, 0x4c, 0x49, 0x42, 0x00];

const UNITS: &[u8] = &[
    0x00, 0x14, 0x03, 0x05, 0x41, 0x10, 0, 0, 0, 0, 0, 0, 0x41, 0x10, 0, 0, 0, 0, 0, 0,
];

const BGNSTR: &[u8] = &[
    0x00, 0x1c, 0x05, 0x02, 0, 0, 0, 0, 0, 0, 0, 0, 0, 0, 0, 0, 0, 0, 0, 0, 0, 0, 0, 0, 0, 0, 0, 0,
];

const TOP: &[u8] = &[0x00, 0x08, 0x06, 0x06, 0x54, 0x4f, 0x50, 0x00];

const BOUNDARY: &[u8] = &[0x00, 0x04, 0x08, 0x00];

const LAYER: &[u8] = &[0x00, 0x06, 0x0d, 0x02, 0x00, 0x07];

const DATATYPE: &[u8] = &[0x00, 0x06, 0x0e, 0x02, 0x00, 0x00];

const XY: &[u8] = &[
    0x00, 0x2c, 0x10, 0x03, 0, 0, 0, 9, 0, 0, 0, 0, 0, 0, 0, 9, 0, 0, 0, 0x14, 0, 0, 0, 0x14, 0, 0,
    0, 0x14, 0, 0, 0, 0x14, 0, 0, 0, 0, 0, 0, 0, 9, 0, 0, 0, 0,
];

const ENDEL: &[u8] = &[0x00, 0x04, 0x11, 0x00];

const ENDSTR: &[u8] = &[0x00, 0x04, 0x07, 0x00];

const ENDLIB: &[u8] = &[0x00, 0x04, 0x04, 0x00];

/// One wire on layer 7: the library with these elements' records between its STRNAME and its
/// ENDSTR.
fn library_of(alloc: Global, elements: &[&[u8]]) -> Result<Vec<u8>, AllocError> {
    let mut bytes = Vec::new(alloc);
    for piece in [HEADER, BGNLIB, LIBNAME, UNITS, BGNSTR, TOP] {
        bytes.extend_from_slice(piece)?;
    }
    for piece in elements {
        bytes.extend_from_slice(piece)?;
    }
    bytes.extend_from_slice(ENDSTR)?;
    bytes.extend_from_slice(ENDLIB)?;
    Ok(bytes)
}

/// The library of one wire, in a cell TOP.
pub(crate) fn wire(alloc: Global) -> Result<Vec<u8>, AllocError> {
    library_of(alloc, &[BOUNDARY, LAYER, DATATYPE, XY, ENDEL])
}

fn joined(alloc: Global, pieces: &[&[u8]]) -> Result<Vec<u8>, AllocError> {
    let mut bytes = Vec::new(alloc);
    for piece in pieces {
        bytes.extend_from_slice(piece)?;
    }
    Ok(bytes)
}

/// A layer that the tests have no shape of.
const OTHER: &[Layer] = &[Layer {
    layer: 99,
    data_type: 0,
}];

/// Why the bytes are refused; `Memory` where they are refused otherwise when another layer is asked for.
fn error_of(alloc: Global, bytes: &[u8]) -> Option<LibraryError> {
    let whole = read_library(alloc, bytes).err();
    let other = read_layers(alloc, bytes, OTHER).err();
    if whole == other {
        whole
    } else {
        Some(LibraryError::Memory)
    }
}

/// The layer and the points of the only element of a cell, where that is a boundary.
fn only_boundary<'a>(elements: &[Element<'a>]) -> Option<(Layer, Points<'a>)> {
    let [element] = elements else {
        return None;
    };
    match element {
        Element::Boundary(b) => Some((b.layer, b.points)),
        _ => None,
    }
}

/// The corners of the wire.
const WIRE: &[Point] = &[
    Point { x: 9, y: 0 },
    Point { x: 9, y: 20 },
    Point { x: 20, y: 20 },
    Point { x: 20, y: 0 },
    Point { x: 9, y: 0 },
];

/// Asserts that the bytes are the library of one wire.
fn is_one_wire(rt: &impl Abort, alloc: Global, bytes: &[u8]) -> Result<(), Fail> {
    let library = read_library(alloc, bytes)?;
    assert_eq!(rt; library.dates, [0; 24]);
    assert_eq!(rt; library.units[..8], [0x41, 0x10, 0, 0, 0, 0, 0, 0][..]);
    assert_eq!(rt; library.cells.len(), 1);
    let elements = library.cells.get(b"TOP".as_slice()).ok_or("no cell TOP")?;
    let (layer, points) = only_boundary(elements).ok_or("no boundary")?;
    assert_eq!(rt; (layer.layer, layer.data_type), (7, 0));
    assert_eq!(rt; points.to_vec(alloc)?.as_slice(), WIRE);
    Ok(())
}

#[test]
fn one_wire(rt: HostRuntime) -> Result<(), Fail> {
    let bytes = wire(rt.alloc())?;
    assert_eq!(rt; bytes.len(), 170);
    is_one_wire(&rt, rt.alloc(), &bytes)
}

#[test]
fn cut_anywhere(rt: HostRuntime) -> Result<(), Fail> {
    let bytes = wire(rt.alloc())?;
    for len in 0..bytes.len() {
        assert_eq!(rt;
            error_of(rt.alloc(), &bytes[..len]),
            Some(LibraryError::Truncated),
            "{len}"
        );
    }
    Ok(())
}

const BOX4: &[u8] = &[0x00, 0x08, 0x12, 0x06, 0x42, 0x4f, 0x58, 0x34];

const SREF: &[u8] = &[0x00, 0x04, 0x0a, 0x00];

const AREF: &[u8] = &[0x00, 0x04, 0x0b, 0x00];

const ORIGIN: &[u8] = &[0x00, 0x0c, 0x10, 0x03, 0, 0, 0, 3, 0, 0, 0, 3];

const ANGLE: &[u8] = &[0x00, 0x0c, 0x1c, 0x05, 0x42, 0x5a, 0, 0, 0, 0, 0, 0];

const STRANS: &[u8] = &[0x00, 0x06, 0x1a, 0x01, 0x80, 0x00];

/// One record of each kind that a library may hold, in an order that it may have.
const EVERY_KIND: [&[u8]; 62] = [
    HEADER,
    BGNLIB,
    &[0, 6, 0x39, 2, 0, 1],
    &[0, 6, 0x3a, 6, 0x41, 0],
    &[0, 6, 0x3b, 2, 0, 1],
    LIBNAME,
    &[0, 6, 0x1f, 6, 0x41, 0],
    &[0, 6, 0x20, 6, 0x41, 0],
    &[0, 6, 0x23, 6, 0x41, 0],
    &[0, 6, 0x22, 2, 0, 3],
    &[0, 6, 0x36, 2, 0, 1],
    &[0, 6, 0x37, 6, 0x31, 0],
    &[0, 4, 0x38, 0],
    UNITS,
    BGNSTR,
    TOP,
    &[0, 6, 0x34, 1, 0, 1],
    BOUNDARY,
    &[0, 6, 0x26, 1, 0, 0],
    &[0, 8, 0x2f, 3, 0, 0, 0, 1],
    LAYER,
    DATATYPE,
    XY,
    &[0, 6, 0x2b, 2, 0, 1],
    &[0, 6, 0x2c, 6, 0x61, 0x62],
    ENDEL,
    &[0, 4, 0x09, 0],
    LAYER,
    DATATYPE,
    &[0, 6, 0x21, 2, 0, 4],
    &[0, 8, 0x0f, 3, 0, 0, 0, 4],
    &[0, 8, 0x30, 3, 0, 0, 0, 1],
    &[0, 8, 0x31, 3, 0, 0, 0, 2],
    ORIGIN,
    ENDEL,
    SREF,
    BOX4,
    STRANS,
    &[0, 12, 0x1b, 5, 0x41, 0x10, 0, 0, 0, 0, 0, 0],
    ANGLE,
    ORIGIN,
    ENDEL,
    AREF,
    BOX4,
    &[0, 8, 0x13, 2, 0, 1, 0, 1],
    &[
        0, 28, 0x10, 3, 0, 0, 0, 0, 0, 0, 0, 0, 0, 0, 0, 1, 0, 0, 0, 0, 0, 0, 0, 0, 0, 0, 0, 1,
    ],
    ENDEL,
    &[0, 4, 0x0c, 0],
    LAYER,
    &[0, 6, 0x16, 2, 0, 0],
    &[0, 6, 0x17, 1, 0, 0],
    ORIGIN,
    &[0, 6, 0x19, 6, 0x68, 0x69],
    ENDEL,
    &[0, 4, 0x15, 0],
    LAYER,
    &[0, 6, 0x2a, 2, 0, 0],
    ORIGIN,
    ENDEL,
    &[0, 4, 0x2d, 0],
    LAYER,
    &[0, 6, 0x2e, 2, 0, 0],
];

/// Each kind of record is read with its own data type, and with no other, but for the four whose
/// data type is left open.
#[test]
fn every_kind_of_record(rt: HostRuntime) -> Result<(), Fail> {
    let head = joined(rt.alloc(), &EVERY_KIND)?;
    let bytes = joined(rt.alloc(), &[&head, ORIGIN, ENDEL, ENDSTR, ENDLIB])?;
    let library = read_library(rt.alloc(), &bytes)?;
    let elements = library.cells.get(b"TOP".as_slice()).ok_or("no cell TOP")?;
    assert_eq!(rt; elements.len(), 4);
    let mut at = 0usize;
    for piece in EVERY_KIND {
        let mut other = Vec::from_slice(rt.alloc(), &bytes)?;
        let form = other.get_mut(at.wrapping_add(3)).ok_or("no data type")?;
        *form = 4;
        let is_open = matches!(piece, [_, _, 0x34 | 0x39 | 0x3a | 0x3b, ..]);
        let want = (!is_open).then_some(LibraryError::Unexpected { at });
        assert_eq!(rt; error_of(rt.alloc(), &other), want, "{piece:?}");
        at = at.wrapping_add(piece.len());
    }
    Ok(())
}
