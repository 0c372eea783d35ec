//! Rectangles, points, layers and raster places of a layout, in database units. A rectangle is the
//! set of unit squares that it holds; the layers above rely on that, on its order and on its range.
#![tactic(auto)]

mod layer;
mod place;
mod rect;

pub use layer::Layer;
pub use place::{Place, Point};
pub use rect::{HIGHEST, LOWEST, Rect, RectError, is_coordinate};
