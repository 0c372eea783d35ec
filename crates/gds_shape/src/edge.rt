//! An upright edge of a boundary.

ghost use Rattle.std.specs.Prelude.{◌≤ℤ◌, ◌<ℤ◌};
ghost use Rattle.fill_base.specs.Coordinates.{lowest, highest};

/// An upright edge of a boundary, in database units: at `x`, from `bottom` to `top`.
#[derive(Clone, Copy, Debug)]
pub struct Edge {
    pub x: i64,
    pub bottom: i64,
    pub top: i64,
    /// Whether the boundary goes up along it, or down.
    pub up: bool,
    pub ghost tall: { bottom <ℤ top },
    pub ghost left: { lowest ≤ℤ x },
    pub ghost right: { x ≤ℤ highest },
    pub ghost low: { lowest ≤ℤ bottom },
    pub ghost high: { top ≤ℤ highest },
}
