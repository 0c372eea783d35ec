//! What holds of every fill library, whatever the code does. Each function's contract is the law.

ghost use Rattle.gds_out.specs.Laws.{BoxesAreThePlaces, EachPlaceStandsOnce, MovedBoxIsThePlaces, ReferencesStandAtTheirPlaces, StacksStandAtTheirPlaces, TextIsALibrary, TextOfSomeRows};

/// The list of the filled places holds each place of the raster that is filled once, and no other place.
pub fn each_place_stands_once()
    ensures { EachPlaceStandsOnce }
{}

/// The single references that the stacks stand for, an array's by its points as flattening takes them, are moved to the lower left
/// corners of the filled places' boxes: to each once, and nowhere else.
pub fn references_stand_at_their_places()
    ensures { ReferencesStandAtTheirPlaces }
{}

/// The boundary of the one box, moved to the lower left corner of a place's box, covers exactly the squares of that box.
pub fn moved_box_is_the_places()
    ensures { MovedBoxIsThePlaces }
{}

/// The text of a fill library is in the library grammar to its last record, each record as the manual has those of its kind, and
/// says what it is to say: a cell of one boundary, and a top cell with a reference or an array for each stack.
pub fn text_is_a_library()
    ensures { TextIsALibrary }
{}

/// Whatever library the text of a fill library is read as, its shape copies from the top cell on, as flattening defines them, cover
/// the boxes of the filled places on the fill layer and data type: each box once, and nothing else.
pub fn boxes_are_the_places()
    ensures { BoxesAreThePlaces }
{}

/// The single references of an array over rows are moved to the lower left corners of its places' boxes.
pub fn stacks_stand_at_their_places()
    ensures { StacksStandAtTheirPlaces }
{}

/// The text of places that stand in some rows alone is the same by the rules of these rows.
pub fn text_of_some_rows()
    ensures { TextOfSomeRows }
{}
