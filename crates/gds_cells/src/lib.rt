//! The cells of a GDSII library: which each refers to and how, in what order, how deep and how often, and what each draws on some layers
//! by itself. The layer above may rely on this: links are the references of the design, numbers and orders are those of its graph,
//! and a prepared shape holds the squares that its element covers.
#![tactic(auto)]

mod cell;
mod cells;
mod chunks;
mod counts;
mod elements;
mod error;
mod filled;
mod graph;
mod heights;
pub mod laws;
mod link;
mod one_rect;
mod placement;
mod reached;
mod reference;
mod search;
mod shape;
mod shapes;

pub use cell::{Cell, Chunk};
pub use cells::cells_of;
pub use counts::{TOO_MANY, count_link, counts_of};
pub use error::FlattenError;
pub use graph::{graph_of, index_of};
pub use link::Link;
pub use placement::Placement;
pub use reached::survey;
pub use reference::{array_link, reference_link};
pub use search::{Search, number_at};
pub use shape::Shape;
pub use shapes::{carried_bounds, carry_shape};
