//! The laws of placements and references: they do what the manual's words say, one after the other. The laws of lists of layers.

ghost use Rattle.gds_cells.specs.Laws.{ActsOnCentres, ActsInTurn, GroupsFreely, TurnsAreDegrees, UnitIsOne, StepsAreWhole, ShapesOfOneLayer, OrderIsFree, DrawsTheUnion};

/// A placement of a reflection, turns and a move does these three, in this order, to the centre of
/// each square (Calma GDSII Stream Format Manual, release 6.0, STRANS and ANGLE).
pub fn acts_on_centres()
    ensures { ActsOnCentres }
{}

/// What is carried by one placement after another is carried by the inner one, then by the outer.
pub fn acts_in_turn()
    ensures { ActsInTurn }
{}

/// Of three placements in a row, it makes no difference which two are taken together.
pub fn groups_freely()
    ensures { GroupsFreely }
{}

/// An angle is taken exactly where it's a multiple of 90 degrees from -360 to 360, and then it turns
/// by so many quarters (Calma GDSII Stream Format Manual, release 6.0, ANGLE; this project's profile).
pub fn turns_are_degrees()
    ensures { TurnsAreDegrees }
{}

/// A magnification is taken exactly where it's 1 (this project's profile).
pub fn unit_is_one()
    ensures { UnitIsOne }
{}

/// The steps of an array are taken exactly where whole ones lead from point to point, and they are
/// those (Calma GDSII Stream Format Manual, release 6.0, COLROW; this project's profile).
pub fn steps_are_whole()
    ensures { StepsAreWhole }
{}

/// The shapes of a list of one layer are those on that layer.
pub fn shapes_of_one_layer()
    ensures { ShapesOfOneLayer }
{}

/// Order and repeats don't matter: of lists that have the same layers the copies are the same, and each
/// element's fault.
pub fn order_is_free()
    ensures { OrderIsFree }
{}

/// On two lists one after the other the top draws what it draws on the one or the other.
pub fn draws_the_union()
    ensures { DrawsTheUnion }
{}
