//! Places in a range of columns and a range of rows.
ghost use Rattle.std.specs.Prelude.{◌≡◌, ◌≤ℤ◌, ℤ, false};
ghost use Rattle.fill_state.specs.Filling.{in_places};

use fill_base::Place;
use std::ops::Range;

/// Some columns and rows of places.
#[derive(Drop)]
pub struct Places {
    pub columns: Range<i64>,
    pub rows: Range<i64>,
}

impl Places {
    /// No place.
    pub fn none() -> Places
        ensures none { (i j : ℤ) → in_places result i j ≡ false }
        ensures ordered { (result.columns.start ≤ℤ result.columns.end) × (result.rows.start ≤ℤ result.rows.end) }
    {
        Places {
            columns: 0..0,
            rows: 0..0,
        }
    }

    /// Whether a place is one of them.
    pub fn has(&self, place: Place) -> bool
        ensures { result ≡ in_places self.now place.i place.j }
    {
        ((self.columns.start <= place.i) & (place.i < self.columns.end))
            & ((self.rows.start <= place.j) & (place.j < self.rows.end))
    }
}
