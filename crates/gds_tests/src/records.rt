//! The records of a library that a test writes.

use fill_base::Layer;
use std::alloc::Global;
use std::test::*;

/// The number of the checked layer of the designs.
pub(crate) const METAL: u16 = 7;

/// The checked layer.
pub(crate) const CHECKED: Layer = Layer {
    layer: METAL,
    data_type: 0,
};

/// The data of BGNLIB and of BGNSTR: no dates.
pub(crate) const DATES: &[u8] = &[0; 24];

/// The data of UNITS: two ones.
const UNITS: &[u8] = &[0x41, 0x10, 0, 0, 0, 0, 0, 0, 0x41, 0x10, 0, 0, 0, 0, 0, 0];

/// Appends a record.
pub(crate) fn put(bytes: &mut Vec<u8>, kind: u8, form: u8, body: &[u8]) -> Result<(), Fail> {
    let length = u16::try_from(body.len().wrapping_add(4)).or(Err("too long a record"))?;
    bytes.extend_from_slice(&length.to_be_bytes())?;
    bytes.extend_from_slice(&[kind, form])?;
    bytes.extend_from_slice(body)?;
    Ok(())
}

/// The name of the cell of this number.
pub(crate) fn name_of(cell: u16) -> [u8; 2] {
    cell.wrapping_add(0x4141).to_be_bytes()
}

/// Appends XY and ENDEL.
pub(crate) fn put_points(bytes: &mut Vec<u8>, points: &[(i32, i32)]) -> Result<(), Fail> {
    let length = points.len().wrapping_mul(8).wrapping_add(4);
    let length = u16::try_from(length).or(Err("too many points"))?;
    bytes.extend_from_slice(&length.to_be_bytes())?;
    bytes.extend_from_slice(&[0x10, 3])?;
    for (x, y) in points {
        bytes.extend_from_slice(&x.to_be_bytes())?;
        bytes.extend_from_slice(&y.to_be_bytes())?;
    }
    put(bytes, 0x11, 0, &[])
}

/// Appends BOUNDARY or PATH with its layer and the data type 0.
pub(crate) fn put_shape(bytes: &mut Vec<u8>, kind: u8, layer: u16) -> Result<(), Fail> {
    put(bytes, kind, 0, &[])?;
    put(bytes, 0x0d, 2, &layer.to_be_bytes())?;
    put(bytes, 0x0e, 2, &[0, 0])
}

/// What stands in a library before its first cell.
pub(crate) fn head(alloc: Global) -> Result<Vec<u8>, Fail> {
    let mut bytes = Vec::new(alloc);
    put(&mut bytes, 0, 2, &[2, 0x58])?;
    put(&mut bytes, 1, 2, DATES)?;
    put(&mut bytes, 2, 6, b"LB")?;
    put(&mut bytes, 3, 5, UNITS)?;
    Ok(bytes)
}

/// Begins a cell.
pub(crate) fn begin_cell(bytes: &mut Vec<u8>, cell: u16) -> Result<(), Fail> {
    put(bytes, 5, 2, DATES)?;
    put(bytes, 6, 6, &name_of(cell))
}

/// A library that ends behind its last cell.
pub(crate) fn finished(mut bytes: Vec<u8>) -> Result<Vec<u8>, Fail> {
    put(&mut bytes, 4, 0, &[])?;
    Ok(bytes)
}
