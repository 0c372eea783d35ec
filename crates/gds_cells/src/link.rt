//! What a cell refers to, by the index of the cell that is meant.

ghost use Rattle.gds_cells.specs.steps.Ranges.{IsGrid};

use crate::placement::Placement;
use fill_base::Point;

/// A reference to a cell, or an array of references: one a column of each row.
#[derive(Clone, Copy, Debug, PartialEq, Eq)]
pub struct Link {
    /// The index of the cell that is meant among the cells of the library.
    pub cell: usize,
    /// How the first single reference carries it: that in the first column of the first row.
    pub placement: Placement,
    /// How many columns there are; 1 for a single reference.
    pub columns: u32,
    /// How many rows there are; 1 for a single reference.
    pub rows: u32,
    /// From each column to the next, in database units.
    pub column_step: Point,
    /// From each row to the next, in database units.
    pub row_step: Point,
    pub ghost grid: { IsGrid placement columns rows column_step row_step },
}
