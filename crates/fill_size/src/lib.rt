//! Sizing and clearance of regions: distances between unit squares, in x and in y apart. The layers
//! above rely on a gap equal to the spacing being allowed, and at spacing 0 on overlap alone being
//! a conflict.
#![tactic(auto)]

mod clearance;
mod meeting;
mod overlap;
mod sizing;

pub use clearance::{conflicts, is_clear};
pub use meeting::mark_met;
pub use sizing::{fits, sized};
