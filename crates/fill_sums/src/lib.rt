//! Running numbers of squares, one of the metal and one of metal and boxes for each density window, which follow what is added
//! and taken away. The layers above rely on each number changing by the area of what comes or goes, window by window.
#![tactic(auto)]

mod bounds;
mod difference;
pub mod laws;
mod moving;
mod shape;
mod sums;

pub use difference::Difference;
pub use moving::Way;
pub use sums::Sums;
