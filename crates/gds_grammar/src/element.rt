//! The elements of a cell: those that carry metal or refer to some cell, and the kinds of all.

ghost use Rattle.std.specs.Prelude.{◌≡◌, ◌-◌, ◌<◌, length, slice_get, All};
ghost use Rattle.gds_record.specs.Numbers.{IsStored};
ghost use Rattle.gds_grammar.specs.Points.{points_of};

use crate::element::points::Points;
use fill_base::{Layer, Point};

pub mod body;
pub mod points;
pub mod reading;
pub mod tables;
pub mod values;

/// How a referenced cell is transformed before it is moved.
#[derive(Clone, Copy, Debug, PartialEq, Eq)]
pub struct Transform {
    /// The bits of STRANS, 0 where it is left out.
    pub flags: u16,
    /// The eight bytes of MAG, a real.
    pub magnification: Option<[u8; 8]>,
    /// The eight bytes of ANGLE, a real: degrees counter-clockwise.
    pub angle: Option<[u8; 8]>,
}

/// A filled polygon.
#[derive(Debug, Drop)]
pub struct Boundary<'a> {
    /// LAYER and DATATYPE.
    pub layer: Layer,
    /// Its points.
    pub points: Points<'a>,
    pub ghost filled: { 0 < length (points_of points.xy.now) },
    pub ghost closed: { slice_get (points_of points.xy.now) 0
        ≡ slice_get (points_of points.xy.now) (length (points_of points.xy.now) - 1) },
}

/// A wire along a chain of points.
#[derive(Debug, Drop)]
pub struct Path<'a> {
    /// LAYER and DATATYPE.
    pub layer: Layer,
    /// PATHTYPE, the shape of its ends.
    pub path_type: Option<u16>,
    /// WIDTH in database units; a negative one is not magnified.
    pub width: Option<i32>,
    /// BGNEXTN in database units: how far it goes past its first point.
    pub begin_extension: Option<i32>,
    /// ENDEXTN in database units: how far it goes past its last point.
    pub end_extension: Option<i32>,
    /// Its points; at least one.
    pub points: Points<'a>,
}

/// A reference to a cell.
#[derive(Debug, Drop)]
pub struct Ref<'a> {
    /// The name of the cell, without the zero bytes at its end.
    pub cell: &'a [u8],
    /// What is done to it before it is moved.
    pub transform: Transform,
    /// Where its origin goes, in database units.
    pub origin: Point,
    pub ghost stored: { IsStored origin },
}

/// An array of references to a cell.
#[derive(Debug, Drop)]
pub struct Array<'a> {
    /// The name of the cell, without the zero bytes at its end.
    pub cell: &'a [u8],
    /// What is done to it before it is moved.
    pub transform: Transform,
    /// The first number of COLROW, unsigned.
    pub columns: u16,
    /// The second number of COLROW, unsigned.
    pub rows: u16,
    /// Three points in database units: the origin, the origin moved by all columns, the origin
    /// moved by all rows.
    pub points: [Point; 3],
    pub ghost stored: { All IsStored points },
}

/// An element that carries metal or refers to some.
#[derive(Debug, Drop)]
pub enum Element<'a> {
    /// A filled polygon.
    Boundary(Boundary<'a>),
    /// A wire along a chain of points, boxed, as references and arrays are, so that boundaries, of which
    /// there are more, take less memory.
    Path(Box<Path<'a>>),
    /// A reference to a cell.
    Ref(Box<Ref<'a>>),
    /// An array of references to a cell.
    Array(Box<Array<'a>>),
}

/// What an element is. Texts, nodes and boxes carry no metal, and are read over.
#[derive(Clone, Copy, Debug, PartialEq, Eq)]
pub enum ElementKind {
    Boundary,
    Path,
    Reference,
    Array,
    Text,
    Node,
    Box,
}
