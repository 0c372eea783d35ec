//! What an edit makes of metal and boxes.
ghost use Rattle.std.specs.Prelude.{◌≡◌, ℤ, true, IfOk};
ghost use Rattle.fill_base.specs.Squares.{squares};
ghost use Rattle.fill_region.specs.Runs.{holds};
ghost use Rattle.fill_state.specs.Layers.{in_layer};
ghost use Rattle.fill_book.specs.steps.Following.{difference_by, opposite_of, way_of};

use fill_base::Rect;
use fill_state::{DrawnLayer, Places};
use fill_sums::Difference;
use fill_text::Edit;
use std::alloc::{AllocError, Global};

/// Metal and existing fill after an edit, what of them came or went, and the places whose boxes the edit takes out.
#[derive(Drop)]
pub struct Edited {
    pub(crate) edit: Edit,
    pub(crate) drawn: DrawnLayer,
    pub(crate) difference: Difference,
    pub(crate) out: Places,
}

/// What of an edit's rectangle was neither metal nor existing fill and is added, or was metal and no existing fill and is cut: nothing
/// of a keep-out.
///
/// # Errors
/// `AllocError` where memory is refused.
pub(crate) fn difference_of(
    alloc: Global,
    drawn: &DrawnLayer,
    edit: Edit,
) -> Result<Difference, AllocError>
    ensures way { IfOk result (λ d. d.way ≡ way_of edit) }
    ensures back { IfOk result (λ d. d.back ≡ opposite_of edit) }
    ensures metal { IfOk result (λ d. (x y : ℤ) → holds d.metal x y ≡ difference_by edit (in_layer drawn.now.metal) (holds drawn.now.existing) x y) }
    ensures within { IfOk result (λ d. (x y : ℤ) → holds d.metal x y ≡ true → squares d.within x y ≡ true) }
{
    match edit {
        Edit::Add(rect) => Difference::added(alloc, &drawn.clip(alloc, &rect)?, rect),
        Edit::Cut(rect) => Difference::cut(alloc, &drawn.metal_alone(alloc, &rect)?, rect),
        Edit::Keep(rect) => Ok(Difference::none(alloc, rect)),
    }
}
