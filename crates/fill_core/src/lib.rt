//! The machine of the fill: events, their replies and their history, what the callers of a book count, and the trait of all
//! books. The layers above rely on this: a book's state and replies are the replay of its history, and the [`laws`] say what
//! holds of every replay.
#![tactic(auto)]

mod book;
mod event;
mod history;
pub mod laws;
mod opened;
mod pass;

pub use book::{BookError, FillBook};
pub use event::{Entry, Event, Reply};
pub use fill_text::Edit;
pub use history::History;
pub use opened::Opened;
pub use pass::{Books, Pass};
