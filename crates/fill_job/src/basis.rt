//! What was read for the work on one tile.
ghost use Rattle.std.specs.Prelude.{◌≡◌, ◌≤ℤ◌, ℤ, pos, true};
ghost use Rattle.fill_region.specs.Runs.{holds};

use crate::shared::{Pieces, SharedRules};
use fill_region::Region;

/// The rules, metal, existing fill and keep-outs as unit squares in database units, and low windows: the window in column `a` and row
/// `b` is the unit square `(a, b)`. So whether some window of a range is low is one look at the runs of low windows, however many
/// windows hold a box.
#[derive(Drop)]
pub struct Basis {
    pub(crate) rules: SharedRules,
    pub(crate) pieces: Pieces,
    pub(crate) low: Region,
    pub ghost windows: { (x y : ℤ) → holds low x y ≡ true → (pos 0 ≤ℤ x) × (pos 0 ≤ℤ y) },
}
