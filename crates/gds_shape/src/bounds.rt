//! Rectangles of any numbers, before they are known to be in range.

/// The edges of a rectangle, in database units, which may pass the range of coordinates. It may have
/// no width or no height.
#[derive(Clone, Copy, Debug, PartialEq, Eq)]
pub struct Bounds {
    /// The left edge.
    pub left: i64,
    /// The lower edge.
    pub bottom: i64,
    /// The right edge.
    pub right: i64,
    /// The upper edge.
    pub top: i64,
}
