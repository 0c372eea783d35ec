//! What tells the areas of windows.
ghost use Rattle.std.specs.Prelude.{◌≡◌, ◌<◌, ◌||◌, ℕ, ℤ, pos, true, IfOk};
ghost use Rattle.fill_region.specs.Runs.{holds};
ghost use Rattle.fill_state.specs.Layers.{is_drawn};
ghost use Rattle.fill_area.specs.Density.{AreMeasured, window_area};
ghost use Rattle.fill_area.specs.Grid.{Grid};
ghost use Rattle.fill_raster.specs.Lattice.{in_tile, tiles};
ghost use Rattle.fill_raster.specs.Marks.{is_marked};
ghost use Rattle.fill_job.specs.Basis.{windows_in};
ghost use Rattle.fill_job.specs.Plans.{PointSet, low_windows, plan_of};
ghost use Rattle.fill_state.specs.Filling.{KeepsClear, is_filled, drawn_or_box};
ghost use Rattle.fill_book.specs.Standing.{IsEdited, squares_in, squares_left};

use crate::edited::Edited;
use crate::stored::Stored;
use fill_area::Windows;
use fill_job::SharedRules;
use fill_raster::Marks;
use fill_region::Region;
use std::alloc::{AllocError, Global};

/// What tells for each window of a grid the area of what is drawn, which is metal and existing fill, and that of it and of boxes, as
/// they are stored.
pub trait Totals: Drop {
    /// Stands for the areas of a set, what is drawn, and of another one, that with boxes, in the windows of a grid.
    ghost stand_for: { Self → Grid → PointSet → PointSet → Type 0 };

    /// The totals of what is drawn alone, of which the areas were measured.
    ///
    /// # Errors
    /// `AllocError` where memory is refused.
    fn of(
        alloc: Global,
        drawn: &Region,
        windows: &Windows,
        areas: Vec<i64>,
    ) -> Result<Self, AllocError>
        requires { AreMeasured (holds drawn.now) windows.now areas.items }
        ensures { IfOk result (λ t. stand_for t windows.now (holds drawn.now) (holds drawn.now)) };

    /// The area of metal, existing fill and boxes in the window of column `a` and row `b`.
    fn total(&self, stored: &Stored, windows: &Windows, a: u32, b: u32) -> i64
        requires stands { stand_for self.now windows.now (is_drawn stored.now.drawn) (squares_in stored.now) }
        requires clear { KeepsClear stored.now.filled.raster (is_filled stored.now.filled) (is_drawn stored.now.drawn) }
        requires column { a < windows.now.across.count }
        requires row { b < windows.now.up.count }
        ensures { result ≡ pos (window_area (squares_in stored.now) windows.now a b) };

    /// The area of metal and existing fill alone in the window of column `a` and row `b`.
    fn drawn(&self, stored: &Stored, windows: &Windows, a: u32, b: u32) -> i64
        requires stands { stand_for self.now windows.now (is_drawn stored.now.drawn) (squares_in stored.now) }
        requires column { a < windows.now.across.count }
        requires row { b < windows.now.up.count }
        ensures { result ≡ pos (window_area (is_drawn stored.now.drawn) windows.now a b) };

    /// Takes in the boxes of the marked places of a tile that aren't filled yet. Takes no memory.
    fn take_in(&mut self, stored: &Stored, windows: &Windows, tile: u32, marks: &Marks)
        requires stands { stand_for self.old windows.now (is_drawn stored.now.drawn) (squares_in stored.now) }
        requires tile { tile < tiles stored.now.filled.raster }
        requires marked { (i j : ℤ) → is_marked marks.now i j ≡ true → in_tile stored.now.filled.raster tile i j ≡ true }
        requires clear { KeepsClear stored.now.filled.raster (λ i j. is_filled stored.now.filled i j || is_marked marks.now i j) (is_drawn stored.now.drawn) }
        ensures { stand_for self.new windows.now (is_drawn stored.now.drawn) (drawn_or_box stored.now.filled.raster (λ i j. is_filled stored.now.filled i j || is_marked marks.now i j) (is_drawn stored.now.drawn)) };

    /// Follows an edit, before it is made of what is stored. Takes no memory.
    fn follow(&mut self, stored: &Stored, windows: &Windows, edited: &Edited)
        requires stands { stand_for self.old windows.now (is_drawn stored.now.drawn) (squares_in stored.now) }
        requires edited { IsEdited stored.now edited.now }
        ensures { stand_for self.new windows.now (is_drawn edited.now.drawn) (squares_left stored.now edited.now) };

    /// Turns back from an edit that was followed and isn't made. Takes no memory.
    fn turn_back(&mut self, stored: &Stored, windows: &Windows, edited: &Edited)
        requires stands { stand_for self.old windows.now (is_drawn edited.now.drawn) (squares_left stored.now edited.now) }
        requires edited { IsEdited stored.now edited.now }
        ensures { stand_for self.new windows.now (is_drawn stored.now.drawn) (squares_in stored.now) };

    /// The low windows, of metal, existing fill and boxes, after an edit that was followed: the window in column `a` and row `b` as the
    /// square `(a, b)`.
    ///
    /// # Errors
    /// `AllocError` where memory is refused.
    fn low(
        &self,
        alloc: Global,
        stored: &Stored,
        rules: &SharedRules,
        edited: &Edited,
    ) -> Result<Region, AllocError>
        requires stands { stand_for self.now (plan_of rules.now).windows (is_drawn edited.now.drawn) (squares_left stored.now edited.now) }
        requires edited { IsEdited stored.now edited.now }
        ensures { IfOk result (λ r. (a b : ℕ) → windows_in r a b ≡ low_windows (plan_of rules.now) (squares_left stored.now edited.now) a b) };
}
