//! What a version of a fill is made of: what counts of the design, its filled places tile by tile, the tiles that are in, its low
//! windows, and the piece of the metal, of the existing fill and of the keep-outs that each tile depends on. The layers above rely on
//! each being the set that its clauses name.
#![tactic(auto)]

mod drawn;
mod filled;
mod layer;
mod low;
mod pieces;
mod places;
mod tiles;

pub use drawn::DrawnLayer;
pub use filled::Filled;
pub use layer::EditedLayer;
pub use low::low_windows;
pub use pieces::{
    existing_pieces, keep_pieces, keep_pieces_after, metal_pieces, metal_pieces_after,
};
pub use places::Places;
pub use tiles::TileSet;
