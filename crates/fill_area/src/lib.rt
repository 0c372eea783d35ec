//! Density windows, and the exact area that a region has in each. An area is a count of unit
//! squares: the layers above rely on that, and on the windows' places.
#![tactic(auto)]

mod area;
mod axis;
mod measure;
mod parts;
mod windows;

pub use area::{area_in, is_high, is_low, shared_area};
pub use axis::Axis;
pub use measure::areas_in;
pub use parts::Parts;
pub use windows::{BadWindows, Windows};
