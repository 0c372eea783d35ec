//! What holds of every cut into parts, whatever the code does. Each function's contract is the law.
ghost use Rattle.fill_text.specs.ValuesOfChips.{chip_values};
ghost use Rattle.fill_job.specs.Plans.{plan_of};
ghost use Rattle.fill_parts.specs.Laws.{AreasAgree, ChipRunIsThePart, PartLinesAreTold, ClippedAgrees, EachRowIsInOnePart, EditsAgree, EditsAreChanges, EditsInsideSuffice, EditsOpenAnew, EditsOutsideDoNothing, PartsMakeTheCheck, FillAfterEdits, FillsAgree, LinesAgree, LowWindowsAgree, NeededSidesAreLeast, PartFillIsOfItsChip, PartFillIsWanted, PartLinesAreOfItsChip, PartIsASmallerChip, PartOfNoWindowHasNothing, PartsAreApart, PartsFollow, PartsMakeTheFill, PartsMakeTheReport, RowsFollow, RulesAloneMakeASmallerChip, SmallerChipMeasuresTheSame, SmallerChipWantsTheSame};
ghost use Rattle.fill_parts.specs.Smaller.{IsPlanOfAnySize};

use fill_text::ChipRules;

/// Each row is in exactly one part.
pub fn each_row_is_in_one_part()
    ensures { EachRowIsInOnePart }
{}

/// The parts follow one another from the first row to the last.
pub fn parts_follow()
    ensures { PartsFollow }
{}

/// The lines of rows that follow one another are the lines of them all.
pub fn rows_follow()
    ensures { RowsFollow }
{}

/// The reports of the parts, one after another, are the report.
pub fn parts_make_the_report()
    ensures { PartsMakeTheReport }
{}

/// The sides that a chip needs are enough, and the least that are.
pub fn needed_sides_are_least()
    ensures { NeededSidesAreLeast }
{}

/// Metals that agree where a chip looks have the same areas in its windows.
pub fn areas_agree()
    ensures { AreasAgree }
{}

/// And the same of these windows are low.
pub fn low_windows_agree()
    ensures { LowWindowsAgree }
{}

/// And its fill is the same.
pub fn fills_agree()
    ensures { FillsAgree }
{}

/// And so are the lines of rows of its windows.
pub fn lines_agree()
    ensures { LinesAgree }
{}

/// Edits keep metals that agree in agreement.
pub fn edits_agree()
    ensures { EditsAgree }
{}

/// The fill of one worker, who makes the edits first.
pub fn fill_after_edits()
    ensures { FillAfterEdits }
{}

/// The parts' fills together are the fill.
pub fn parts_make_the_fill()
    ensures { PartsMakeTheFill }
{}

/// No place is in two parts.
pub fn parts_are_apart()
    ensures { PartsAreApart }
{}

/// The checks of the parts, one after another, are the report without fill.
pub fn parts_make_the_check()
    ensures { PartsMakeTheCheck }
{}

/// Metal that is clipped to a rectangle within the coordinates agrees with the whole one there.
pub fn clipped_agrees()
    ensures { ClippedAgrees }
{}

/// An edit beside the rectangle changes nothing there.
pub fn edits_outside_do_nothing()
    ensures { EditsOutsideDoNothing }
{}

/// Edits do what the changes of a script say.
pub fn edits_are_changes()
    ensures { EditsAreChanges }
{}

/// Edits before any tile leave a version without a box.
pub fn edits_open_anew()
    ensures { EditsOpenAnew }
{}

/// Edits that have no square where a part looks may be left out.
pub fn edits_inside_suffice()
    ensures { EditsInsideSuffice }
{}

/// A part's fill is the wanted places of its tiles.
pub fn part_fill_is_wanted()
    ensures { PartFillIsWanted }
{}

/// A chip that holds a part, run on what lies where it looks, has the part's fill and lines.
pub fn chip_run_is_the_part()
    ensures { ChipRunIsThePart }
{}

/// A chip of some rows of tiles and of windows alone wants the same places in them.
pub fn smaller_chip_wants_the_same()
    ensures { SmallerChipWantsTheSame }
{}

/// The rules of these rows alone make the plan of such a chip.
pub fn rules_alone_make_a_smaller_chip()
    ensures { RulesAloneMakeASmallerChip }
{}

/// And windows measure the same in it.
pub fn smaller_chip_measures_the_same()
    ensures { SmallerChipMeasuresTheSame }
{}

/// A part that looks at a window is such a chip, of its own rows.
pub fn part_is_a_smaller_chip()
    ensures { PartIsASmallerChip }
{}

/// A part that looks at no window has no fill and no line.
pub fn part_of_no_window_has_nothing()
    ensures { PartOfNoWindowHasNothing }
{}

/// A part's fill is that of its chip, of the part's own tiles.
pub fn part_fill_is_of_its_chip()
    ensures { PartFillIsOfItsChip }
{}

/// And its lines are those of its chip's windows.
pub fn part_lines_are_of_its_chip()
    ensures { PartLinesAreOfItsChip }
{}

/// The rules of a chip make a plan, however many places and windows it has.
pub fn chip_rules_make_a_plan(chip: &ChipRules)
    ensures { IsPlanOfAnySize (plan_of (chip_values chip.now)) }
{
    chip.keeps_faultless();
}

/// A part's lines are what its chip tells of the part's windows, with their rows in the whole one.
pub fn part_lines_are_told()
    ensures { PartLinesAreTold }
{}
