//! Rectangles under a mesh of cuts.
ghost use Rattle.fill_cells.specs.Mesh.{AreCuts};

use fill_base::Rect;

/// Lists of rectangles, which may overlap, and the cuts across and upwards that cut them into cells.
#[derive(Clone, Copy)]
pub(crate) struct Mesh<'a> {
    /// The rectangles.
    pub(crate) lists: &'a [Vec<Rect>],
    /// The cuts across, from left to right.
    pub(crate) across: &'a [i64],
    /// The cuts upwards.
    pub(crate) up: &'a [i64],
    ghost across_cuts: { AreCuts across.now },
    ghost up_cuts: { AreCuts up.now },
}
