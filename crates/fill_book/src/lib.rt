//! The books of a fill: metal, existing fill and keep-outs, placed boxes, low windows and tiles of a version, and the history of all
//! that happened. The layers above rely on a book being the machine of `fill_core`, by the clauses of its trait `FillBook`.
#![tactic(auto)]

mod anew;
mod areas;
mod book;
mod edited;
mod origin;
mod running;
mod stored;

pub use book::{Book, BookOf, PlainBook};
pub use origin::Opening;
