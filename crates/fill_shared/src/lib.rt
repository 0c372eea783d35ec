//! A book that many threads share behind one lock, and runs of workers beside an editor. The layers above rely on this: each
//! answer is that of some book that was opened as this one, at a point of a legal history no earlier than the caller's own
//! calls, and the callers' numbers taken together are those of the book that is taken back.
#![tactic(auto)]

mod gate;
mod round;
mod runs;
mod shared;
mod worker;

pub use gate::{Gate, OpenGate};
pub use runs::{RunError, run};
pub use shared::{Look, NotOpened, PassMissing, PassOf, Seen, Shared};
pub use worker::{WorkEnd, work};
