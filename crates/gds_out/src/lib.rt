//! The fill library: a GDSII library of the boxes that a fill has placed. The layer above may rely on this: the text is the
//! definition's, of units, dates, rules and the set of marked places.
#![tactic(auto)]

mod columns;
mod elements;
pub mod laws;
mod library;
mod rows;
mod sheet;
mod writer;

pub use library::{fill_library, sheet_library};
pub use sheet::{Sheet, Strip};
