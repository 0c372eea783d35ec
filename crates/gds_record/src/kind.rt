//! The kinds of records, by the manual's words (Calma GDSII Stream Format Manual, release 6.0).

/// The number of the format's version.
pub const HEADER: u8 = 0x00;
/// Begins a library, with the dates of its last change and access.
pub const BGNLIB: u8 = 0x01;
/// The library's name.
pub const LIBNAME: u8 = 0x02;
/// How large a database unit is, in user units and in metres.
pub const UNITS: u8 = 0x03;
/// Ends the library.
pub const ENDLIB: u8 = 0x04;
/// Begins a structure, with the dates of its making and last change.
pub const BGNSTR: u8 = 0x05;
/// The structure's name.
pub const STRNAME: u8 = 0x06;
/// Ends the structure.
pub const ENDSTR: u8 = 0x07;
/// Begins a filled polygon.
pub const BOUNDARY: u8 = 0x08;
/// Begins a path.
pub const PATH: u8 = 0x09;
/// Begins a reference to a structure.
pub const SREF: u8 = 0x0a;
/// Begins an array of references to a structure.
pub const AREF: u8 = 0x0b;
/// Begins a text.
pub const TEXT: u8 = 0x0c;
/// An element's layer.
pub const LAYER: u8 = 0x0d;
/// The data type of a boundary or a path.
pub const DATATYPE: u8 = 0x0e;
/// The width of a path or of text lines.
pub const WIDTH: u8 = 0x0f;
/// An element's points.
pub const XY: u8 = 0x10;
/// Ends the element.
pub const ENDEL: u8 = 0x11;
/// The name of the structure that is referred to.
pub const SNAME: u8 = 0x12;
/// An array's columns and rows.
pub const COLROW: u8 = 0x13;
/// Begins a node of a net.
pub const NODE: u8 = 0x15;
/// The text type of a text.
pub const TEXTTYPE: u8 = 0x16;
/// How a text is presented.
pub const PRESENTATION: u8 = 0x17;
/// The characters of a text.
pub const STRING: u8 = 0x19;
/// How a reference or a text is transformed.
pub const STRANS: u8 = 0x1a;
/// A magnification.
pub const MAG: u8 = 0x1b;
/// An angle, in degrees counter-clockwise.
pub const ANGLE: u8 = 0x1c;
/// The names of reference libraries.
pub const REFLIBS: u8 = 0x1f;
/// The names of font files.
pub const FONTS: u8 = 0x20;
/// The shape of a path's ends.
pub const PATHTYPE: u8 = 0x21;
/// How many copies of deleted structures are kept.
pub const GENERATIONS: u8 = 0x22;
/// The name of the attribute definition file.
pub const ATTRTABLE: u8 = 0x23;
/// Flags of an element.
pub const ELFLAGS: u8 = 0x26;
/// The node type of a node.
pub const NODETYPE: u8 = 0x2a;
/// The number of a property.
pub const PROPATTR: u8 = 0x2b;
/// The value of the property.
pub const PROPVALUE: u8 = 0x2c;
/// Begins a box.
pub const BOX: u8 = 0x2d;
/// The box type of a box.
pub const BOXTYPE: u8 = 0x2e;
/// The number of the plex that an element belongs to.
pub const PLEX: u8 = 0x2f;
/// How far a path goes past its first point.
pub const BGNEXTN: u8 = 0x30;
/// How far a path goes past its last point.
pub const ENDEXTN: u8 = 0x31;
/// The class of a structure.
pub const STRCLASS: u8 = 0x34;
/// The kind of the file.
pub const FORMAT: u8 = 0x36;
/// Which layers and data types a filtered file holds.
pub const MASK: u8 = 0x37;
/// Ends the masks.
pub const ENDMASKS: u8 = 0x38;
/// The number of pages of the library directory.
pub const LIBDIRSIZE: u8 = 0x39;
/// The name of the sticks rules file.
pub const SRFNAME: u8 = 0x3a;
/// Who may open the library.
pub const LIBSECUR: u8 = 0x3b;
