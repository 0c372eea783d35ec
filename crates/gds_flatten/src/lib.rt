//! What a cell of a GDSII library draws on some layers, with all that it refers to. The layer above may
//! rely on this: the region is the squares that some copy of a shape covers, each carried as its
//! references say, and each refusal comes exactly where its cause is the first.
#![tactic(auto)]

mod chain;
mod corners;
mod design;
mod extents;
mod flattening;
mod found;
mod framed;
mod idle;
pub mod laws;
mod reached;
mod stretch;
mod turns;
mod walk;

pub use flattening::{flatten, flatten_parts, flatten_within};
pub use gds_cells::FlattenError;
