//! The marked places of a raster in stacks: runs of a row are cut into pieces, and equal pieces of neighbouring rows are one stack.
//! The layer above may rely on this: the stacks hold each filled place once and no other, each lies on the raster, and the two
//! folds over rows, of heights from above and of levels from below, are those of the definition.
#![tactic(auto)]

pub mod laws;
mod pieces;

pub use pieces::{Counted, Piece, Stack, heights, levels};
