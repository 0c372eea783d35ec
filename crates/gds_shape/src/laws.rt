//! What holds of the corners of every path. Each function's contract is the law.
ghost use Rattle.gds_shape.specs.Corners.{CornersDiffer, CornersKeepTheEnds, CornersTurn};

/// No two neighbouring corners are equal.
pub fn corners_differ()
    ensures { CornersDiffer }
{}

/// No corner lies strictly between its neighbours.
pub fn corners_turn()
    ensures { CornersTurn }
{}

/// The first and the last point are corners, the first and the last.
pub fn corners_keep_the_ends()
    ensures { CornersKeepTheEnds }
{}
