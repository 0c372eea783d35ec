//! The fill of a design: from the bytes of three inputs to its texts, and these to two outputs.
ghost use Rattle.std.specs.Prelude.{◌≡◌, ◌↔◌, ◌⊎◌, ◌+◌, ◌^◌, ◌<◌, ◌≤◌, ℕ, [], true, false, map, take, Ok, IfErr, IfOk, IfSome, IsOk, OnOk};
ghost use Rattle.std.specs.Io.KnownBytes.{Appends};
ghost use Rattle.densfill_io.specs.Taps.{has_failed, under};
ghost use Rattle.fill_text.specs.Rules.{Values};
ghost use Rattle.fill_text.specs.Script.{change_of};
ghost use Rattle.fill_text.specs.ValuesOfRules.{values_of};
ghost use Rattle.fill_core.specs.Shares.{AllParts};
ghost use Rattle.fill_job.specs.Basis.{layers_in};
ghost use Rattle.fill_job.specs.Plans.{Layers};
ghost use Rattle.densfill_engine.specs.Designs.{AreDrawn};
ghost use Rattle.densfill_engine.specs.Inputs.{answer_of, is_before_script, is_of_rules};
ghost use Rattle.fill_shared.specs.Runs.{IsMixed, IsUnfinished};
ghost use Rattle.densfill_engine.specs.Fills.{IsFilled, IsFillOf, IsFillReason, IsLeftOpen, IsMixedUp};
ghost use Rattle.densfill_engine.specs.Runs.{IsBack, IsTooShort};
ghost use Rattle.densfill_engine.specs.Scopes.{size_of};

use crate::crew::{Crew, Ledgers};
use crate::edited::edited;
use crate::inputs::{Design, Inputs, Task, take_design, take_edits};
use crate::refusal::{InputFault, Refusal, RunFault};
use crate::scope::{Reach, Scope};
use crate::texts::{Filled, texts_of};
use crate::together::fill_together;
use crate::turns::fill_tiles;
use crate::view::View;
use densfill_io::{InputError, Tap, write_settled, write_text};
use fill_book::{Book, Opening};
use fill_core::Opened;
use fill_job::laws::rules_make_a_plan;
use fill_parts::laws::{chip_run_is_the_part, clipped_agrees, edits_are_changes, edits_open_anew};
use gds_out::laws::text_of_some_rows;
use std::alloc::Global;
use std::io::{Read, Write};
use std::marker::Brand;
use std::sync::Wait;
use std::sync::ledger::Ledger;
use std::thread::Threads;

/// How many events the history of a run may have.
const MOST_EVENTS: u64 = 4_294_967_296;

/// The texts of a fill by many workers, who bring tiles while the edits are made.
fn fill_by_many<C: Opened + Send + Sync, P: Ledger + Send + Sync, W: Ledger + Send + Sync>(
    rt: &(impl Threads + Wait + Sync),
    alloc: Global,
    ledgers: Ledgers,
    task: Task,
    crew: Crew,
) -> Result<Filled, RunFault>
    requires names { (ledgers.calls.name ≡ C.name) × (ledgers.placed.name ≡ P.name) × (ledgers.withdrawn.name ≡ W.name) }
    requires parts { (ledgers.calls.parts ≡ C.parts) × (ledgers.placed.parts ≡ P.parts) × (ledgers.withdrawn.parts ≡ W.parts) }
    requires all { AllParts C.parts P.parts W.parts }
    requires terms { record { rules = values_of task.view.rules; opening = task.design.metal; existing = task.design.fill; keep = task.design.keep; most = 2 ^ 32 } ≡ C.terms }
    requires workers { (1 < crew.workers) × (crew.workers ≤ 64) }
    ensures filled { IfOk result (λ f. IsFillOf task.view.told (values_of task.view.rules) (layers_in task.design.metal task.design.fill task.design.keep) task.design.units task.design.dates (map change_of task.edits.items) crew.workers crew.limit f.library.items f.report.items) }
    ensures unfinished { result ≡ Err RunFault.Unfinished → IsBack IsUnfinished (values_of task.view.rules) (layers_in task.design.metal task.design.fill task.design.keep) (map change_of task.edits.items) crew.workers crew.limit }
    ensures mixed { result ≡ Err RunFault.Mixed → IsBack IsMixed (values_of task.view.rules) (layers_in task.design.metal task.design.fill task.design.keep) (map change_of task.edits.items) crew.workers crew.limit }
{
    let Task {
        view,
        design,
        edits,
    } = task;
    let View { rules, told, .. } = view;
    rules_make_a_plan(&rules);
    let Design {
        metal,
        fill,
        keep,
        units,
        dates,
    } = design;
    let Ledgers {
        calls,
        placed,
        withdrawn,
    } = ledgers;
    let (book, pass) = Book::<C, P, W>::open(
        rt,
        alloc,
        calls,
        placed,
        withdrawn,
        Opening { metal, fill, keep },
        rules,
        MOST_EVENTS,
    )?;
    let book = fill_together(rt, alloc, book, pass, &edits, crew)?;
    texts_of(alloc, &book, &told, &units, &dates)
}

/// The texts of a fill by one worker, who brings tile after tile in the turns of two rounds.
fn fill_alone<C: Opened + Send + Sync, P: Ledger + Send + Sync, W: Ledger + Send + Sync>(
    rt: &(impl Threads + Wait + Sync),
    alloc: Global,
    ledgers: Ledgers,
    view: View,
    design: Design,
    limit: Option<u32>,
) -> Result<Filled, RunFault>
    requires names { (ledgers.calls.name ≡ C.name) × (ledgers.placed.name ≡ P.name) × (ledgers.withdrawn.name ≡ W.name) }
    requires parts { (ledgers.calls.parts ≡ C.parts) × (ledgers.placed.parts ≡ P.parts) × (ledgers.withdrawn.parts ≡ W.parts) }
    requires all { AllParts C.parts P.parts W.parts }
    requires terms { record { rules = values_of view.rules; opening = design.metal; existing = design.fill; keep = design.keep; most = 2 ^ 32 } ≡ C.terms }
    ensures filled { IfOk result (λ f. IsFillOf view.told (values_of view.rules) (layers_in design.metal design.fill design.keep) design.units design.dates [] 1 limit f.library.items f.report.items) }
    ensures unfinished { result ≡ Err RunFault.Unfinished → IsTooShort (values_of view.rules) limit 0 (2 ^ 32) }
    ensures mixed { result ≡ Err RunFault.Mixed → ⊥ }
{
    let View { rules, told, .. } = view;
    rules_make_a_plan(&rules);
    let Design {
        metal,
        fill,
        keep,
        units,
        dates,
    } = design;
    let Ledgers {
        calls,
        placed,
        withdrawn,
    } = ledgers;
    let (mut book, mut pass) = Book::<C, P, W>::open(
        rt,
        alloc,
        calls,
        placed,
        withdrawn,
        Opening { metal, fill, keep },
        rules,
        MOST_EVENTS,
    )?;
    fill_tiles(alloc, &mut book, &mut pass, limit)?;
    texts_of(alloc, &book, &told, &units, &dates)
}

/// The texts of a fill of what the inputs say. Many workers bring tiles while the edits are made; one fills the design as all edits
/// leave it.
fn fill_design(
    rt: &(impl Threads + Wait + Sync),
    alloc: Global,
    task: Task,
    crew: Crew,
) -> Result<Filled, RunFault>
    requires workers { (0 < crew.workers) × (crew.workers ≤ 64) }
    ensures filled { IfOk result (λ f. IsFillOf task.view.told (values_of task.view.rules) (layers_in task.design.metal task.design.fill task.design.keep) task.design.units task.design.dates (map change_of task.edits.items) crew.workers crew.limit f.library.items f.report.items) }
    ensures unfinished { result ≡ Err RunFault.Unfinished → IsLeftOpen (values_of task.view.rules) (layers_in task.design.metal task.design.fill task.design.keep) (map change_of task.edits.items) crew.workers crew.limit }
    ensures short { result ≡ Err RunFault.Unfinished → crew.workers ≡ 1 → IsTooShort (values_of task.view.rules) crew.limit 0 (2 ^ 32) }
    ensures mixed { result ≡ Err RunFault.Mixed → IsMixedUp (values_of task.view.rules) (layers_in task.design.metal task.design.fill task.design.keep) (map change_of task.edits.items) crew.workers crew.limit }
{
    if crew.workers > 1 {
        return fill_by_many::<Brand, Brand, Brand>(rt, alloc, Ledgers::blank(), task, crew);
    }
    edits_open_anew();
    edits_are_changes();
    let Task {
        view,
        design,
        edits,
    } = task;
    let design = edited(alloc, design, &edits)?;
    fill_alone::<Brand, Brand, Brand>(rt, alloc, Ledgers::blank(), view, design, crew.limit)
}

/// Fills a design: opens a book on the metal, the existing fill and the keep-outs that it draws on the rules' layers, and makes the script's edits in their
/// order. One worker makes them all at once, before the book opens, and then brings tile after tile. Two to 64 workers bring tiles
/// while they are made, and begin once more where a tile is left then. In each of these two rounds a worker takes at most `limit`
/// turns, without a limit one for each tile and one more; so one worker has both at once. Each input is read to its end and
/// interpreted before the next one is touched, and the design is flattened before the script is touched.
///
/// A part of a chip is filled as a smaller chip, by one worker without a limit, as one worker would fill the whole. What it gives depends on
/// nothing farther away, however large the chip and its design are.
///
/// # Errors
/// The first fault, with its part: `rules`, `design` and `script` for the inputs, and `run` once they are interpreted:
/// `Memory`, `Unfinished` where a tile is left that isn't in, or, of two workers or more, `Mixed` where they gave back a book whose
/// edits do not begin those of the script, which no clause can rule out. An input of more than 2^31 bytes is `TooLong`.
/// Of a part, windows, places and copies of shapes count only where it looks: too many windows or places are `TooLarge`, and too many
/// copies, of those that meet a rectangle round all that the part's chip looks at, are `Crowded`; and of its run `Memory` alone is told.
pub fn prepare<R: Read, D: Read, S: Read>(
    rt: &(impl Threads + Wait + Sync),
    alloc: Global,
    inputs: &mut Inputs<R, D, S>,
    scope: Scope,
    crew: Crew,
) -> Result<Filled, Refusal>
    requires workers { (0 < crew.workers) × (crew.workers ≤ 64) }
    requires rules { has_failed inputs.old.rules ≡ false }
    requires design { has_failed inputs.old.design ≡ false }
    requires script { has_failed inputs.old.script ≡ false }

    // A device fault is answered exactly where its tap has failed.
    ensures rules_device { (result ≡ Err (Refusal.Rules (InputFault.Unread InputError.Device))) ↔ (has_failed inputs.new.rules ≡ true) }
    ensures design_device { (result ≡ Err (Refusal.Design (InputFault.Unread InputError.Device))) ↔ (has_failed inputs.new.design ≡ true) }
    ensures script_device { (result ≡ Err (Refusal.Script (InputFault.Unread InputError.Device))) ↔ (has_failed inputs.new.script ≡ true) }

    // What is answered is what the bytes of the three inputs say.
    ensures filled { IfOk result (λ f. IfSome (R.remaining (under inputs.old.rules)) (λ r. IfSome (D.remaining (under inputs.old.design)) (λ d.
        IfSome (S.remaining (under inputs.old.script)) (λ s. IsFilled scope r d s crew.workers crew.limit f.library.items f.report.items)))) }
    ensures refused { IfErr result (λ e. IfSome (R.remaining (under inputs.old.rules)) (λ r. IfSome (D.remaining (under inputs.old.design)) (λ d.
        IfSome (S.remaining (under inputs.old.script)) (λ s. IsFillReason scope r d s crew.workers crew.limit e)))) }

    // No input is touched before those before it are interpreted and accepted.
    ensures in_turn { IfErr result (λ e. is_of_rules e ≡ false → IfSome (R.remaining (under inputs.old.rules)) (λ r. IsOk (answer_of (size_of scope) r))) }
    ensures unread { IfErr result (λ e. is_of_rules e ≡ true → inputs.new.design ≡ inputs.old.design) }
    ensures script_in_turn { IfErr result (λ e. is_before_script e ≡ false → IfSome (R.remaining (under inputs.old.rules)) (λ r. IfSome (D.remaining (under inputs.old.design)) (λ d.
        (values : Values) × (answer_of (size_of scope) r ≡ Ok values) × ((layers : Layers) × AreDrawn (size_of scope) d values layers)))) }
    ensures script_unread { IfErr result (λ e. is_before_script e ≡ true → inputs.new.script ≡ inputs.old.script) }
{
    edits_are_changes();
    clipped_agrees();
    chip_run_is_the_part();
    text_of_some_rows();
    let view = scope.view(alloc, &mut inputs.rules, Reach::Needs)?;
    rules_make_a_plan(&view.rules);
    let design = match take_design(rt, alloc, &mut inputs.design, &view) {
        Ok(design) => design,
        Err(fault) => return Err(scope.design_fault(fault)),
    };
    let mut edits = take_edits(alloc, &mut inputs.script)?;
    view.keep_near(&mut edits);
    let task = Task {
        view,
        design,
        edits,
    };
    let filled = fill_design(rt, alloc, task, scope.crew(crew))?;
    Ok(filled)
}

/// Writes the fill library whole and settles it by a flush, and then writes the report.
///
/// # Errors
/// `Out` where the library could not be written whole or settled: nothing of the report is written then. `Report` where the report
/// could not be.
pub fn deliver<W: Write, V: Write>(
    filled: &Filled,
    out: &mut Tap<W>,
    report_out: &mut Tap<V>,
) -> Result<(), Refusal>
    requires out { has_failed out.old ≡ false }
    requires report { has_failed report_out.old ≡ false }

    // A device fault is answered exactly where its tap has failed, and nothing else is.
    ensures out_device { (result ≡ Err Refusal.Out) ↔ (has_failed out.new ≡ true) }
    ensures report_device { (result ≡ Err Refusal.Report) ↔ (has_failed report_out.new ≡ true) }
    ensures refused { IfErr result (λ e. (e ≡ Refusal.Out) ⊎ (e ≡ Refusal.Report)) }

    // The library is written whole before the report begins.
    ensures library { has_failed out.new ≡ false → Appends (W.contents (under out.old)) (W.contents (under out.new)) filled.now.library.items }
    ensures report { OnOk result (Appends (V.contents (under report_out.old)) (V.contents (under report_out.new)) filled.now.report.items) }
    ensures in_turn { has_failed out.new ≡ true → report_out.new ≡ report_out.old }

    // Where a writer failed, it has a prefix.
    ensures out_prefix { (k : ℕ) × Appends (W.contents (under out.old)) (W.contents (under out.new)) (take k filled.now.library.items) }
    ensures report_prefix { result ≡ Err Refusal.Report
        → (k : ℕ) × Appends (V.contents (under report_out.old)) (V.contents (under report_out.new)) (take k filled.now.report.items) }
{
    if write_settled(out, &filled.library).is_err() {
        return Err(Refusal::Out);
    }
    write_text(report_out, &filled.report)?;
    Ok(())
}
