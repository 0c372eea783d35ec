//! Between which densities that of a window is to lie.

/// The least and the greatest density of a window, in parts of a million.
#[derive(Clone, Copy, Debug, PartialEq, Eq)]
pub struct Limits {
    /// A window of less is `LOW`.
    pub least: i64,
    /// A window of more is `HIGH`.
    pub most: i64,
}
