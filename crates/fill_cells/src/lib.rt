//! The area that rectangles cover in each cell of a mesh, row by row, with no region in between. An area is a count of unit squares, each
//! counted once however many rectangles hold it: the layer above relies on that.
#![tactic(auto)]

mod area;
mod cells;
mod cuts;
mod pieces;
mod rows;
mod shares;
mod skyline;

pub use cells::row_areas;
pub use cuts::cuts_at;
pub use rows::by_row;
