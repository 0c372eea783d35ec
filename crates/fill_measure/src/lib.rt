//! Density windows measured by the cells that their sides cut, on all processors: straight from rectangles, with no region in
//! between, or from the runs of a region. A window's area is the count of its unit squares that these hold: the layers above rely on that.
#![tactic(auto)]

mod bands;
mod cuts;
mod edges;
mod lists;
mod measure;
mod mesh;
mod pitch;
mod prefix_sums;
mod sides;
mod sums;
mod windows;

pub use measure::{measure_all, sum_rects};
pub use sums::WindowSums;
