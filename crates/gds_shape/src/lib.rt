//! What the boundaries and paths of a GDSII library cover, as rectangles and as regions. The layer
//! above may rely on this: a boundary covers the squares of winding number other than 0, a path the
//! squares of its segments' rectangles, and each refusal comes exactly where its cause stands.
#![tactic(auto)]

mod boundary;
mod bounds;
mod corners;
mod edge;
mod edges;
mod error;
mod extent;
pub mod laws;
mod lines;
mod path;
mod segments;
mod strip;

pub use boundary::{boundary_region, is_manhattan, put_boundary, put_boundary_at_corner};
pub use bounds::Bounds;
pub use error::ShapeError;
pub use extent::{bounds_extent, joined, move_to_corner, points_extent};
pub use path::{path_region, path_segments, put_path_at_corner};
pub use segments::{is_in_range, put_bounds};
