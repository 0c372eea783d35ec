//! A shape of one of the layers, filled.

ghost use Rattle.gds_grammar.specs.Values.{shape_of};
ghost use Rattle.gds_cells.specs.steps.Filled.{extent_in, rects_in};
ghost use Rattle.gds_cells.specs.steps.Prepared.{IsPrepared};

use crate::filled::Filled;
use gds_grammar::Element;

/// A boundary or path of one of the layers, with the rectangles that it covers. They are filled once, at the
/// corner of all coordinates, so that a shape far from the origin can still be carried into range.
#[derive(Debug, Drop)]
pub struct Shape<'a, 'b> {
    /// The boundary or path.
    pub element: &'a Element<'b>,
    /// What it covers, moved so that its extent begins at the least coordinates, and that extent.
    pub filled: Filled,
    pub ghost prepared: { IsPrepared (shape_of element.now) (rects_in filled) (extent_in filled) },
}
