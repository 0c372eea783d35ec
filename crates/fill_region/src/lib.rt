//! Sets of unit squares as joined runs, in one canonical form: a wire is one run, whichever way it lies. Every operation is that
//! of sets of squares, and equal sets are equal values.
#![tactic(auto)]

mod changes;
mod clips;
mod crossed;
mod cuts;
mod edges;
mod growing;
mod joins;
pub mod laws;
mod level;
mod lines;
mod near;
mod operands;
mod order;
mod parts;
mod region;
mod rows;
mod stacks;
mod sweep;
mod upwards;

pub use near::runs_near;
pub use region::{Region, region_of_rects};
