//! What holds of wanted places and read sets, whatever the code does. Each function's contract is the law.
ghost use Rattle.fill_job.specs.Laws.{AcceptedRulesMakeAPlan, BlockedIsSharing, ConflictsAreOfSquares, CrowdingIsOfSquares, EqualReadSetsWantTheSame, WantedIsOfTheReadSet};
ghost use Rattle.fill_job.specs.Plans.{IsPlan, plan_of};
ghost use Rattle.fill_text.specs.ValuesOfRules.{values_of};

use fill_text::Rules;

/// A place is in conflict with a set of squares where one of them and a square of its box are nearer than the spacing, in x
/// and in y (KLayout's `space` in the square metric).
pub fn conflicts_are_of_squares()
    ensures { ConflictsAreOfSquares }
{}

/// It is crowded where they are nearer than the fill spacing, at 0 where they share a square.
pub fn crowding_is_of_squares()
    ensures { CrowdingIsOfSquares }
{}

/// A place is blocked by a set of squares where one of them is in its box.
pub fn blocked_is_sharing()
    ensures { BlockedIsSharing }
{}

/// The wanted places of a tile are those of its read set.
pub fn wanted_is_of_the_read_set()
    ensures { WantedIsOfTheReadSet }
{}

/// Wherever two designs have equal read sets of a tile, they want the same places of it.
pub fn equal_read_sets_want_the_same()
    ensures { EqualReadSetsWantTheSame }
{}

/// Where a rule file is accepted, its values make a plan: what is said of plans holds of whatever is read from its bytes.
pub fn accepted_rules_make_a_plan()
    ensures { AcceptedRulesMakeAPlan }
{}

/// The rules of a rule file make a plan: all its numbers are in range, and its steps keep the boxes apart.
pub fn rules_make_a_plan(rules: &Rules)
    ensures { IsPlan (plan_of (values_of rules.now)) }
{
    let _ = rules.raster();
    let _ = rules.windows();
    let _ = rules.spacing();
    let _ = rules.fill_spacing();
    let _ = rules.min();
}
