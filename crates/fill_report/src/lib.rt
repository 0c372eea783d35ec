//! The density report: for each window its place, its areas, its share and whether that is too low or
//! too high. The layers above rely on the bytes being the text of the squares, each line and digit.
#![tactic(auto)]

mod book;
mod error;
mod line;
mod metal;
mod rows;
mod window;

pub use book::{report, rows_report};
pub use error::OutOfMemory;
pub use line::{Density, Measures};
pub use metal::{report_of, report_of_rects};
pub use rows::rows_report_of_rects;
