//! What the program reads from and writes to, told apart from what it computes.
//!
//! A [`Tap`] stands between the engine and a reader or a writer: it passes each call on and remembers whether one
//! failed. [`read_input`] takes a whole input of at most so many bytes, and [`write_text`] writes a whole text, [`write_settled`] one that
//! is to be in its place before anything else happens, [`write_texts`] several, one after another. The
//! layer above may rely on this: a device fault is answered exactly where the tap has failed, an input that is answered
//! is every byte that the reader had left, and what was written is a prefix of the text.
#![tactic(auto)]

mod input;
mod output;
mod taps;

pub use input::{InputError, read_input};
pub use output::{DeviceError, write_settled, write_text, write_texts};
pub use taps::Tap;
