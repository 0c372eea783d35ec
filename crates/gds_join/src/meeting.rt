//! Whether a fill has a place that parts have.
ghost use Rattle.std.specs.Prelude.{◌≡◌, ◌&&◌, ℤ, false, option_map, true};
ghost use Rattle.fill_base.specs.Counts.{is_between};
ghost use Rattle.fill_raster.specs.Axes.{is_on};
ghost use Rattle.fill_state.specs.Filling.{is_filled};
ghost use Rattle.gds_join.specs.Fills.{fill_at, filled_in};
ghost use Rattle.gds_join.specs.Joins.{Meets};

use fill_base::Place;
use fill_state::Filled;

/// Whether the raster of a part's own rows has a row.
fn has_row(part: &Filled, j: i64) -> bool
    ensures { result ≡ is_on part.now.raster.up j }
{
    let rows = part.raster().rows();
    (rows.start <= j) & (j < rows.end)
}

/// The first of some parts that has a row.
fn part_at(parts: &[Filled], j: i64) -> Option<&Filled>
    ensures { option_map (λ f. f.now) result ≡ fill_at parts.now j }
{
    parts.iter().find(|part| has_row(part, j))
}

/// Whether two fills both have a place of a row, from one column on and before another.
fn row_meets(part: &Filled, fill: &Filled, left: i64, right: i64, j: i64) -> bool
    ensures yes { result ≡ true → (i : ℤ) × (is_filled fill.now i j ≡ true) × (is_filled part.now i j ≡ true) }
    ensures no { result ≡ false → (i : ℤ) → is_between left right i ≡ true → (is_filled fill.now i j && is_filled part.now i j) ≡ false }
{
    for i in left..right {
        let place = Place { i, j };
        if fill.has(place) && part.has(place) {
            return true;
        }
    }
    false
}

/// Whether a fill has a place that some parts have, in a row, from one column on and before another.
fn meets_at(parts: &[Filled], fill: &Filled, left: i64, right: i64, j: i64) -> bool
    ensures yes { result ≡ true → Meets (is_filled fill.now) (filled_in parts.now) }
    ensures no { result ≡ false → (i : ℤ) → is_between left right i ≡ true → (is_filled fill.now i j && filled_in parts.now i j) ≡ false }
{
    match part_at(parts, j) {
        Some(part) => row_meets(part, fill, left, right, j),
        None => false,
    }
}

/// Whether a fill has a place that some parts have.
pub(crate) fn meets(parts: &[Filled], fill: &Filled) -> bool
    ensures yes { result ≡ true → Meets (is_filled fill.now) (filled_in parts.now) }
    ensures no { result ≡ false → Meets (is_filled fill.now) (filled_in parts.now) → ⊥ }
{
    let raster = fill.raster();
    let (columns, rows) = (raster.columns(), raster.rows());
    for j in rows.start..rows.end {
        if meets_at(parts, fill, columns.start, columns.end, j) {
            return true;
        }
    }
    false
}
