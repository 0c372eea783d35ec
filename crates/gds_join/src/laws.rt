//! What holds of the fill libraries of parts, whatever the code does. Each function's contract is the law.
ghost use Rattle.gds_join.specs.Laws.{NoneAreTaken, OneMoreIsTaken, OneTextOneFill, PartsMakeTheLibrary, ReadingIsExact, TakenAreJoined, TextTellsItsFill};

/// A fill library says which places are filled.
pub fn text_tells_its_fill()
    ensures { TextTellsItsFill }
{}

/// And no other ones.
pub fn one_text_one_fill()
    ensures { OneTextOneFill }
{}

/// Written again and compared, a fill library is told from any other library.
pub fn reading_is_exact()
    ensures { ReadingIsExact }
{}

/// The libraries of all parts of one fill, joined, are the library of that fill.
pub fn parts_make_the_library()
    ensures { PartsMakeTheLibrary }
{}

/// Before the first part none is taken.
pub fn none_are_taken()
    ensures { NoneAreTaken }
{}

/// A part taken behind others is one more.
pub fn one_more_is_taken()
    ensures { OneMoreIsTaken }
{}

/// All parts taken, the library of their places is their join.
pub fn taken_are_joined()
    ensures { TakenAreJoined }
{}
