//! Windows over cuts, and what the area of each is a difference of.
ghost use Rattle.std.specs.Prelude.{ℤ, Bool};
ghost use Rattle.fill_area.specs.Grid.{parts_across, parts_up};
ghost use Rattle.fill_cells.specs.Mesh.{AreCuts};
ghost use Rattle.fill_measure.specs.steps.Meshes.{AreSums};
ghost use Rattle.fill_measure.specs.steps.Sides.{AreSides};

use crate::prefix_sums::PrefixSums;
use crate::sides::Sides;
use fill_area::Windows;

/// What the areas of windows are differences of. It holds nothing of the rectangles that were measured, so these may be let go of
/// before an area is asked for.
#[derive(Drop)]
pub struct WindowSums {
    /// The windows.
    pub(crate) windows: Windows,
    /// The cuts across, from left to right.
    pub(crate) across: Vec<i64>,
    /// The cuts upwards.
    pub(crate) up: Vec<i64>,
    /// How many squares lie below and left of each crossing of two cuts.
    pub(crate) prefix_sums: PrefixSums,
    /// Where the sides of each column of windows stand among the cuts across.
    pub(crate) columns: Vec<Sides>,
    /// Where those of each row of windows stand among the cuts upwards.
    pub(crate) rows: Vec<Sides>,
    ghost across_cuts: { AreCuts across.items },
    ghost up_cuts: { AreCuts up.items },
    ghost columns_are: { AreSides (parts_across windows) across.items windows.across.count columns.items },
    ghost rows_are: { AreSides (parts_up windows) up.items windows.up.count rows.items },
    ghost measured: { ∥ ((p : ℤ → ℤ → Bool) × AreSums p windows across.items up.items prefix_sums) ∥₁ },
}
