//! Libraries of which only some layers are read.

use crate::designs::SQUARE;
use crate::records::{begin_cell, finished, head, name_of, put, put_points};
use fill_base::Layer;
use gds_grammar::{Element, Library, read_layers};
use std::alloc::Global;
use std::mem;
use std::test::*;

/// Appends a boundary of one square, or a path along its sides.
fn put_drawn(bytes: &mut Vec<u8>, kind: u8, (layer, data_type): (u16, u16)) -> Result<(), Fail> {
    put(bytes, kind, 0, &[])?;
    put(bytes, 0x0d, 2, &layer.to_be_bytes())?;
    put(bytes, 0x0e, 2, &data_type.to_be_bytes())?;
    put_points(bytes, SQUARE)
}

/// Shapes of several layers in turn; a boundary is 8, a path is 9, as their records are.
const SHAPES: &[(u8, (u16, u16))] = &[
    (8, (9, 0)),
    (8, (7, 0)),
    (9, (9, 0)),
    (8, (7, 1)),
    (9, (7, 0)),
    (8, (70, 0)),
    (9, (7, 1)),
    (8, (7, 0)),
];

/// The bytes of a library of these shapes in cell 0, and with a cell that has none.
fn mixed(alloc: Global) -> Result<Vec<u8>, Fail> {
    let mut bytes = head(alloc)?;
    begin_cell(&mut bytes, 0)?;
    for (kind, layer) in SHAPES {
        put_drawn(&mut bytes, *kind, *layer)?;
    }
    put(&mut bytes, 7, 0, &[])?;
    begin_cell(&mut bytes, 1)?;
    put(&mut bytes, 7, 0, &[])?;
    finished(bytes)
}

/// The two numbers of a layer.
fn pair(layer: Layer) -> (u16, u16) {
    (layer.layer, layer.data_type)
}

/// What an element is, as in the table; 10 and 11 are references and arrays.
fn told(element: &Element<'_>) -> (u8, (u16, u16)) {
    match element {
        Element::Boundary(boundary) => (8, pair(boundary.layer)),
        Element::Path(path) => (9, pair(path.layer)),
        Element::Ref(_) => (10, (0, 0)),
        Element::Array(_) => (11, (0, 0)),
    }
}

/// Elements take no more than this, whatever they are: flat designs have millions of boundaries.
#[test]
fn size_of_an_element(rt: HostRuntime) -> Result<(), Fail> {
    assert_eq!(rt; mem::size_of::<Element<'static>>(), 32);
    Ok(())
}

/// What the elements of cell 0 are.
fn kept(alloc: Global, library: &Library<'_>) -> Result<Vec<(u8, (u16, u16))>, Fail> {
    let mut kept = Vec::new(alloc);
    for element in library.cells.get(name_of(0).as_slice()).ok_or("no cell")? {
        kept.push(told(element))?;
    }
    Ok(kept)
}

/// Of the layers that are asked for, each shape stays in its place; both cells stay, whatever is asked for.
#[test]
fn shapes_of_some_layers(rt: HostRuntime) -> Result<(), Fail> {
    let bytes = mixed(rt.alloc())?;
    let seven = Layer {
        layer: 7,
        data_type: 0,
    };
    let nine = Layer {
        layer: 9,
        data_type: 0,
    };
    let library = read_layers(rt.alloc(), &bytes, &[seven])?;
    let elements = kept(rt.alloc(), &library)?;
    assert_eq!(rt;
        elements.as_slice(),
        [(8, (7, 0)), (9, (7, 0)), (8, (7, 0))].as_slice()
    );
    let library = read_layers(rt.alloc(), &bytes, &[nine, seven])?;
    assert_eq!(rt; kept(rt.alloc(), &library)?.len(), 5);
    let library = read_layers(rt.alloc(), &bytes, &[])?;
    assert_eq!(rt; kept(rt.alloc(), &library)?.len(), 0);
    assert_eq!(rt; library.cells.len(), 2);
    Ok(())
}
