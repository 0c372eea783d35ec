//! The work of one tile, done apart from the design: what has to be read for it, and which of its places are wanted. The
//! layers above rely on this: the wanted places of a tile depend on its read set alone.
#![tactic(auto)]

mod basis;
mod job;
pub mod laws;
mod proposal;
mod reading;
mod shared;
mod wanted;

pub use job::Job;
pub use proposal::Proposal;
pub use shared::{Piece, Pieces, SharedRules};
