//! Cuts at coordinates.
ghost use Rattle.std.specs.Prelude.{◌↔◌, ℤ, ◌<ℤ◌, All};
ghost use Rattle.std.specs.List.{Contains};
ghost use Rattle.fill_base.specs.Coordinates.{IsCoordinate};
ghost use Rattle.fill_cells.specs.Mesh.{AreCuts};

/// The cuts at these coordinates, each once, from the lowest on.
pub fn cuts_at(mut coordinates: Vec<i64>) -> Vec<i64>
    requires { All IsCoordinate coordinates.items }
    ensures cuts { (x y : ℤ) → Contains coordinates.items x → Contains coordinates.items y → x <ℤ y → AreCuts result.items }
    ensures same { (z : ℤ) → Contains coordinates.items z ↔ Contains result.items z }
{
    coordinates.sort_unstable();
    coordinates.dedup();
    coordinates
}
