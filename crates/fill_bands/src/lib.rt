//! Sets of unit squares, as bands of sorted intervals. A band lasts as long as all its lines have the same squares, so a few dozen
//! rectangles make few of them; the layer above cuts larger lists, and makes runs of the rows. The sweep that makes bands is public:
//! `start` and `step` give the rectangles that cross some rows, for one who needs no bands.
#![tactic(auto)]

mod bands;
mod lines;
mod rows;
mod set;
mod shared;

pub use lines::{start, step};
pub use rows::{Row, Rows};
pub use set::Bands;
