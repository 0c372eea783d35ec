//! Sets of coordinates on a line, as sorted, disjoint, non-touching intervals. Every operation is
//! that of sets of whole numbers, and equal sets are equal values: the layers above rely on both.
#![tactic(auto)]

mod joining;
pub mod laws;
mod operation;
mod spans;
pub mod sweep;
mod walk;

pub use operation::Operation;
pub use spans::Spans;
