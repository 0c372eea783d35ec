//! Fill libraries of the parts of a chip, read back and joined. The layer above relies on this: a part's library is told from any
//! other bytes, and the library of all places taken, where each part was, is that of one run.
#![tactic(auto)]

mod error;
mod fill;
mod joined;
pub mod laws;
mod meeting;
mod number;
mod reading;

pub use error::PartError;
pub use fill::{PartFill, fill_text, no_places, read_fill};
pub use joined::{First, Joined};
