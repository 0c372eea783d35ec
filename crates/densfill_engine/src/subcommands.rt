//! The density reports: of the metal that a script leaves of nothing, and of what a design draws, from bytes to bytes.
ghost use Rattle.std.specs.Prelude.{◌≡◌, ◌↔◌, ◌⊎◌, ℕ, List, true, false, take, IfErr, IfOk, IfSome, IsOk, IsOkAnd, OnErr, OnOk};
ghost use Rattle.std.specs.Io.KnownBytes.{Appends};
ghost use Rattle.std.specs.List.{flat_map};
ghost use Rattle.std.specs.Vec.{vec_items};
ghost use Rattle.densfill_io.specs.Taps.{has_failed, under};
ghost use Rattle.fill_region.specs.Squares.{covered};
ghost use Rattle.fill_text.specs.ValuesOfRules.{values_of};
ghost use Rattle.densfill_engine.specs.Inputs.{answer_of, is_of_rules, rules_answer};
ghost use Rattle.densfill_engine.specs.Rects.{report_answer, IsReason};
ghost use Rattle.densfill_engine.specs.Checks.{IsChecked, IsCheckReason};
ghost use Rattle.densfill_engine.specs.Scopes.{size_of};
ghost use Rattle.densfill_engine.specs.Views.{lines_told};

use crate::inputs::{take_counted, take_edits, take_rules};
use crate::metal::{metal_after, one_list};
use crate::refusal::{InputFault, Refusal, RunFault};
use crate::scope::{Reach, Scope};
use crate::view::{Told, View};
use densfill_io::{InputError, Tap, write_texts};
use fill_base::Rect;
use fill_report::{OutOfMemory, report_of_rects, rows_report_of_rects};
use std::alloc::Global;
use std::io::{Read, Write};
use std::thread::Threads;

/// The lines that are told of the squares that some rectangle of some list holds: of all of a chip in sections that are made at once.
fn lines_of(
    rt: &(impl Threads + Sync),
    alloc: Global,
    lists: Vec<Vec<Rect>>,
    view: &View,
) -> Result<Vec<Vec<u8>>, OutOfMemory>
    ensures { IfOk result (λ v. flat_map vec_items v.items ≡ lines_told view.now.told (values_of view.now.rules) (covered (flat_map vec_items lists.items))) }
{
    match &view.told {
        Told::Everything => report_of_rects(rt, alloc, lists, &view.rules),
        Told::Rows(rows) => {
            let windows = rows.windows.start..rows.windows.end;
            let text = rows_report_of_rects(rt, alloc, lists, &view.rules, windows, rows.below)?;
            let texts = one_list(alloc, text)?;
            Ok(texts)
        }
    }
}

/// Writes the lines that are told of the squares that some rectangle of some list holds, whole. The lists are taken, and let go of before
/// a byte is written.
fn write_report<W: Write>(
    rt: &(impl Threads + Sync),
    alloc: Global,
    lists: Vec<Vec<Rect>>,
    view: &View,
    out: &mut Tap<W>,
) -> Result<(), Refusal>
    requires { has_failed out.old ≡ false }
    ensures device { (result ≡ Err Refusal.Report) ↔ (has_failed out.new ≡ true) }
    ensures whole { OnOk result (Appends (W.contents (under out.old)) (W.contents (under out.new))
        (lines_told view.now.told (values_of view.now.rules) (covered (flat_map vec_items lists.items)))) }
    ensures prefix { result ≡ Err Refusal.Report → (k : ℕ) × Appends (W.contents (under out.old)) (W.contents (under out.new))
        (take k (lines_told view.now.told (values_of view.now.rules) (covered (flat_map vec_items lists.items)))) }
    ensures refused { IfErr result (λ e. (e ≡ Refusal.Report) ⊎ (e ≡ Refusal.Run RunFault.Memory)) }
    ensures silent { OnErr result ((has_failed out.new ≡ true) ⊎ (out.new ≡ out.old)) }
{
    let texts = lines_of(rt, alloc, lists, view)?;
    write_texts(out, &texts)?;
    Ok(())
}

/// Writes the density report of the metal that a script leaves of nothing. The rule file is read to its end and
/// interpreted before the script is touched, and nothing is written before the whole report is made.
///
/// # Errors
/// The first fault, with its part: `rules` and `script` for the inputs, `report` for the writer, and `run` for want of
/// memory once the inputs are interpreted. An input of more than 2^31 bytes is `TooLong`.
pub fn rects<R: Read, S: Read, W: Write>(
    rt: &(impl Threads + Sync),
    alloc: Global,
    rules: &mut Tap<R>,
    script: &mut Tap<S>,
    out: &mut Tap<W>,
) -> Result<(), Refusal>
    requires rules { has_failed rules.old ≡ false }
    requires script { has_failed script.old ≡ false }
    requires out { has_failed out.old ≡ false }

    // A device fault is answered exactly where its tap has failed.
    ensures rules_device { (result ≡ Err (Refusal.Rules (InputFault.Unread InputError.Device))) ↔ (has_failed rules.new ≡ true) }
    ensures script_device { (result ≡ Err (Refusal.Script (InputFault.Unread InputError.Device))) ↔ (has_failed script.new ≡ true) }
    ensures report_device { (result ≡ Err Refusal.Report) ↔ (has_failed out.new ≡ true) }

    // What is answered is what the bytes of the two inputs say.
    ensures written { OnOk result (IfSome (R.remaining (under rules.old)) (λ r. IfSome (S.remaining (under script.old)) (λ s.
        IsOkAnd (report_answer r s) (Appends (W.contents (under out.old)) (W.contents (under out.new)))))) }
    ensures refused { IfErr result (λ e. IfSome (R.remaining (under rules.old)) (λ r. IfSome (S.remaining (under script.old)) (λ s. IsReason r s e))) }

    // The script is not touched before the rules are interpreted and accepted.
    ensures in_turn { IfErr result (λ e. is_of_rules e ≡ false → IfSome (R.remaining (under rules.old)) (λ r. IsOk (rules_answer r))) }
    ensures unread { IfErr result (λ e. is_of_rules e ≡ true → script.new ≡ script.old) }

    // Where writing failed, a prefix of the report is written, and after any other fault nothing.
    ensures prefix { result ≡ Err Refusal.Report
        → IfSome (R.remaining (under rules.old)) (λ r. IfSome (S.remaining (under script.old)) (λ s. IsOkAnd (report_answer r s) (λ text.
        (k : ℕ) × Appends (W.contents (under out.old)) (W.contents (under out.new)) (take k text)))) }
    ensures silent { OnErr result ((has_failed out.new ≡ true) ⊎ (out.new ≡ out.old)) }
{
    let values = take_rules(alloc, rules)?;
    let edits = take_edits(alloc, script)?;
    let lists = metal_after(alloc, &edits)?;
    let view = View {
        rules: values,
        told: Told::Everything,
        frame: None,
    };
    write_report(rt, alloc, lists, &view, out)?;
    Ok(())
}

/// Writes the density report of what a design draws on the rules' layer, or of a part the lines of its windows, however large
/// the chip and its design are. The rule file is read to its end and interpreted before the design is touched, and nothing is written before
/// all lines are made.
///
/// # Errors
/// The first fault, with its part: `rules` and `design` for the inputs, `report` for the writer, and `run` for want of
/// memory once the inputs are interpreted. An input of more than 2^31 bytes is `TooLong`. Of a part, windows, places and copies of shapes
/// count only where it looks: too many windows or places are then `TooLarge`, and too many copies, of those that meet a rectangle
/// round the part's windows, are `Crowded`.
pub fn check<R: Read, D: Read, W: Write>(
    rt: &(impl Threads + Sync),
    alloc: Global,
    scope: Scope,
    rules: &mut Tap<R>,
    design: &mut Tap<D>,
    out: &mut Tap<W>,
) -> Result<(), Refusal>
    requires rules { has_failed rules.old ≡ false }
    requires design { has_failed design.old ≡ false }
    requires out { has_failed out.old ≡ false }

    // A device fault is answered exactly where its tap has failed.
    ensures rules_device { (result ≡ Err (Refusal.Rules (InputFault.Unread InputError.Device))) ↔ (has_failed rules.new ≡ true) }
    ensures design_device { (result ≡ Err (Refusal.Design (InputFault.Unread InputError.Device))) ↔ (has_failed design.new ≡ true) }
    ensures report_device { (result ≡ Err Refusal.Report) ↔ (has_failed out.new ≡ true) }

    // What is answered is what the bytes of the two inputs say.
    ensures written { OnOk result (IfSome (R.remaining (under rules.old)) (λ r. IfSome (D.remaining (under design.old)) (λ d.
        (text : List ℕ) × IsChecked scope r d text × Appends (W.contents (under out.old)) (W.contents (under out.new)) text))) }
    ensures refused { IfErr result (λ e. IfSome (R.remaining (under rules.old)) (λ r. IfSome (D.remaining (under design.old)) (λ d. IsCheckReason scope r d e))) }

    // The design is not touched before the rules are interpreted and accepted.
    ensures in_turn { IfErr result (λ e. is_of_rules e ≡ false → IfSome (R.remaining (under rules.old)) (λ r. IsOk (answer_of (size_of scope) r))) }
    ensures unread { IfErr result (λ e. is_of_rules e ≡ true → design.new ≡ design.old) }

    // Where writing failed, a prefix of the report is written, and after any other fault nothing.
    ensures prefix { result ≡ Err Refusal.Report
        → IfSome (R.remaining (under rules.old)) (λ r. IfSome (D.remaining (under design.old)) (λ d. (text : List ℕ) × IsChecked scope r d text
        × ((k : ℕ) × Appends (W.contents (under out.old)) (W.contents (under out.new)) (take k text)))) }
    ensures silent { OnErr result ((has_failed out.new ≡ true) ⊎ (out.new ≡ out.old)) }
{
    let view = scope.view(alloc, rules, Reach::Windows)?;
    let lists = match take_counted(rt, alloc, design, &view) {
        Ok(lists) => lists,
        Err(fault) => return Err(scope.design_fault(fault)),
    };
    write_report(rt, alloc, lists, &view, out)?;
    Ok(())
}
