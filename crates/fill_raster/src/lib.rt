//! The fill raster: places with a box each, the tiles that they are grouped into, and a mark for each place of a tile. The
//! layers above rely on this: tiles cut the raster into parts that share no place, and the boxes of two places keep the fill
//! spacing.
#![tactic(auto)]

mod axis;
mod bits;
mod block;
pub mod laws;
mod level;
mod marks;
mod near;
mod raster;

pub use axis::Axis;
pub use block::Block;
pub use fill_base::Place;
pub use marks::Marks;
pub use raster::{Raster, RasterError};
