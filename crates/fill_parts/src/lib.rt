//! A chip in parts: rows of windows and rows of tiles, cut into parts of nearly equal numbers, and a part as a smaller chip. The
//! layers above rely on this: each line of the report and each filled place is in exactly one part, and the chip of a part, of what
//! lies in the rectangle that it needs, has the lines and the places of the whole.
#![tactic(auto)]

mod chip;
pub mod laws;
mod needs;
mod part;
mod part_rules;

pub use chip::PartRows;
pub use needs::needed_rect;
pub use part::Part;
pub use part_rules::{PartChip, PartRulesError, ToldRows};
