/// A point of a layout, in database units.
#[derive(Clone, Copy, Debug, PartialEq, Eq)]
pub struct Point {
    /// To the right.
    pub x: i64,
    /// Upwards.
    pub y: i64,
}

/// A place of the fill raster: its column `i` and its row `j`, counted from the raster's origin.
#[derive(Clone, Copy, Debug, PartialEq, Eq)]
pub struct Place {
    /// The column, to the right.
    pub i: i64,
    /// The row, upwards.
    pub j: i64,
}
