//! What the program does, over readers and writers that are handed in, and the line that it prints of a fault.
#![tactic(auto)]

mod crew;
mod edited;
mod fault;
mod fill;
mod inputs;
mod joining;
pub mod laws;
mod metal;
mod refusal;
mod scope;
mod subcommands;
mod texts;
mod together;
mod turns;
mod view;

pub use crew::Crew;
pub use fill::{deliver, prepare};
pub use inputs::Inputs;
pub use joining::{Joiner, settle};
pub use metal::metal_left;
pub use refusal::{DesignError, InputFault, Refusal, RunFault};
pub use scope::Scope;
pub use subcommands::{check, rects};
pub use texts::Filled;
