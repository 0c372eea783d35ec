//! The library that a GDSII Stream spells. The layer above may rely on this: `read_library` answers
//! a library exactly where the grammar relates it to records at the front of the bytes, up to
//! ENDLIB; it refuses at the first record after which nothing makes a library, and says which rule
//! that record breaks. Structures stand in the order of the file.
#![tactic(auto)]

mod cell;
mod element;
mod error;
mod head;
pub mod laws;
mod library;
mod next;
mod wanted;
mod well_formed;

pub use element::points::Points;
pub use element::{Array, Boundary, Element, Path, Ref, Transform};
pub use error::LibraryError;
pub use library::{Cells, Library, read_layers, read_library};
