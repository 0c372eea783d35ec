//! What holds of every set of places in stacks, whatever the code does. Each function's contract is the law.
ghost use Rattle.fill_stacks.specs.Laws.{HeightsFollow, LevelsFollow, PiecesHoldEachOnce, RunsAreLongest, StacksAreLongest, StacksAreOnTheRaster, StacksHoldEachOnce, StacksOfSomeRows};

/// The runs that a row is written in are as long as can be: between two of them a column is free.
pub fn runs_are_longest()
    ensures { RunsAreLongest }
{}

/// The pieces that a row is written in hold each of its filled columns once, from left to right, and no other column.
pub fn pieces_hold_each_once()
    ensures { PiecesHoldEachOnce }
{}

/// The places of the stacks are the filled places, each once, and no other.
pub fn stacks_hold_each_once()
    ensures { StacksHoldEachOnce }
{}

/// Each stack is of a piece of its lowest row and lies on the raster: 1 to 32,767 columns of 1 to 32,767 rows.
pub fn stacks_are_on_the_raster()
    ensures { StacksAreOnTheRaster }
{}

/// Each stack is as long as can be, but for the cut at 32,767 rows from below.
pub fn stacks_are_longest()
    ensures { StacksAreLongest }
{}

/// The heights of a row's pieces follow from those of the row above.
pub fn heights_follow()
    ensures { HeightsFollow }
{}

/// The levels of a row's pieces follow from those of the row below.
pub fn levels_follow()
    ensures { LevelsFollow }
{}

/// The stacks of places in some rows of a raster are the same on the raster of these rows alone.
pub fn stacks_of_some_rows()
    ensures { StacksOfSomeRows }
{}
