//! What holds of every fill, whatever events came. Each function's contract is the law.
ghost use Rattle.fill_core.specs.Laws.{AnswersStayLegal, BoxesAreOfPlaces, BoxesKeepTheFillSpacing, CompleteFill, CompleteFillWithoutEdits, CountIsPlacedLessWithdrawn, CountedInABlock, CountedInAPart, EntryIsAStep, ExistingFillStays, FillIsThatOfItsTiles, FilledPlacesAreAllowed, LegalAccountsKeep, LowIsThatOfTheOpening, NextTileIsFirst, NoNextTileWhereAllAreIn, OpeningIsLowOfTheDesign, RefusedChangesNothing, ReplayIsSound, SumsAreBounded, VersionCountsEdits};
ghost use Rattle.fill_core.specs.RunLaws.{AcceptedMarksAreWanted, CommitIsAStep, EditIsAStep, OwnProposalIsPlaced, RefusedCommitChangesNothing, RunIsAReplay, RunIsSound, StaleChangesNothing};

/// After any events each filled place is on the raster and may be filled: its box keeps the spacing to the metal and the fill spacing
/// to existing fill, and shares no square with a keep-out.
pub fn filled_places_are_allowed()
    ensures { FilledPlacesAreAllowed }
{}

/// The boxes of two different places keep the fill spacing to one another.
pub fn boxes_keep_the_fill_spacing()
    ensures { BoxesKeepTheFillSpacing }
{}

/// After any events the fill is sound.
pub fn replay_is_sound()
    ensures { ReplayIsSound }
{}

/// `Stale`, `Already` and `Foreign` change nothing, in any state.
pub fn refused_changes_nothing()
    ensures { RefusedChangesNothing }
{}

/// After any events the filled places are those of the version's opening and the wanted ones of the tiles that are in.
pub fn fill_is_that_of_its_tiles()
    ensures { FillIsThatOfItsTiles }
{}

/// The low windows stay those of the version's opening, also where they have risen since.
pub fn low_is_that_of_the_opening()
    ensures { LowIsThatOfTheOpening }
{}

/// The low windows of the first version are those of metal and existing fill, without a box.
pub fn opening_is_low_of_the_design()
    ensures { OpeningIsLowOfTheDesign }
{}

/// After any events the existing fill is that of the opening, also where an edit cut metal over it.
pub fn existing_fill_stays()
    ensures { ExistingFillStays }
{}

/// Once every tile is in, the fill is that of the version's opening and exactly all places that may be filled and whose box
/// lies wholly in a window that was low then.
pub fn complete_fill()
    ensures { CompleteFill }
{}

/// Without edits, a complete fill is exactly the places that may be filled and whose box lies wholly in a window that is low in
/// metal and existing fill: one set, in whatever order the tiles came.
pub fn complete_fill_without_edits()
    ensures { CompleteFillWithoutEdits }
{}

/// There are as many filled places as were placed, less those that were taken out.
pub fn count_is_placed_less_withdrawn()
    ensures { CountIsPlacedLessWithdrawn }
{}

/// No event places or takes out more than 2^24 places.
pub fn sums_are_bounded()
    ensures { SumsAreBounded }
{}

/// The version is the number of edits.
pub fn version_counts_edits()
    ensures { VersionCountsEdits }
{}

/// A set of squares with boxes is the set and the squares of the boxes of filled places, and nothing else.
pub fn boxes_are_of_places()
    ensures { BoxesAreOfPlaces }
{}

/// A set that lies in a part of a rectangle may be counted in the part, as the places of one tile.
pub fn counted_in_a_part()
    ensures { CountedInAPart }
{}

/// A book's state after one more entry of its history is the next one.
pub fn entry_is_a_step()
    ensures { EntryIsAStep }
{}

/// A history whose replies are those of its replay stays so, where each reply is written that its event gives.
pub fn answers_stay_legal()
    ensures { AnswersStayLegal }
{}

/// Whatever has a legal history under rules that make a plan keeps all that is said of every book.
pub fn legal_accounts_keep()
    ensures { LegalAccountsKeep }
{}

/// In every interleaving of callers' steps the state is the replay of the commits and edits, so every law of replays holds.
pub fn run_is_a_replay()
    ensures { RunIsAReplay }
{}

/// In every interleaving the fill is sound after every step.
pub fn run_is_sound()
    ensures { RunIsSound }
{}

/// A proposal of another version than the book's is answered `Stale` and changes nothing, whatever the callers hold.
pub fn stale_changes_nothing()
    ensures { StaleChangesNothing }
{}

/// Nor does any other commit that is refused.
pub fn refused_commit_changes_nothing()
    ensures { RefusedCommitChangesNothing }
{}

/// In every interleaving a proposal that was looked up on this book and is committed at its version, while its tile isn't in, is
/// answered `Placed`, and never `Foreign`.
pub fn own_proposal_is_placed()
    ensures { OwnProposalIsPlaced }
{}

/// In every interleaving the marks of an accepted proposal, also of one of another book, are the places wanted now.
pub fn accepted_marks_are_wanted()
    ensures { AcceptedMarksAreWanted }
{}

/// The next tile is the first one that isn't in, from a tile on and round past the last one.
pub fn next_tile_is_first()
    ensures { NextTileIsFirst }
{}

/// There is no next tile exactly where every tile is in.
pub fn no_next_tile_where_all_are_in()
    ensures { NoNextTileWhereAllAreIn }
{}

/// The places of one tile may be counted over the tile's columns and rows, as `Marks::count` does.
pub fn counted_in_a_block()
    ensures { CountedInABlock }
{}

/// The commit that a book writes is a step of its caller, between the states of the account before and after it.
pub fn commit_is_a_step()
    ensures { CommitIsAStep }
{}

/// So is an edit.
pub fn edit_is_a_step()
    ensures { EditIsAStep }
{}
