//! What of a chip a run is asked for: all of it, or one of its parts.
ghost use Rattle.std.specs.Prelude.{◌≡◌, ◌↔◌, ◌⊎◌, ◌+◌, ◌<◌, ◌≤◌, Err, IfErr, IfOk, IfSome, Ok, false, true};
ghost use Rattle.densfill_io.specs.Taps.{has_failed, under};
ghost use Rattle.fill_text.specs.ValuesOfChips.{chip_values};
ghost use Rattle.fill_text.specs.ValuesOfRules.{values_of};
ghost use Rattle.fill_parts.specs.PartChip.{HoldsPart, part_rules};
ghost use Rattle.fill_parts.specs.Told.{tiles_in, windows_in};
ghost use Rattle.densfill_engine.specs.Inputs.{is_of_rules, IsRulesReason};
ghost use Rattle.densfill_engine.specs.Scopes.{crew_in, part_told, told_in};
ghost use Rattle.densfill_engine.specs.Views.{IsFrameOf, IsView};

use crate::crew::Crew;
use crate::inputs::{take_chip_rules, take_rules};
use crate::refusal::{DesignError, InputFault, Refusal};
use crate::view::{Told, View};
use densfill_io::{InputError, Tap};
use fill_base::Rect;
use fill_parts::{Part, PartChip, PartRulesError};
use fill_text::ChipRules;
use gds_flatten::FlattenError;
use std::alloc::Global;
use std::io::Read;

/// What of a chip a run is asked for.
#[derive(Clone, Copy, Debug)]
pub enum Scope {
    /// All of it.
    Whole,
    /// One of its parts, from what lies near it alone: as a smaller chip, which has the rows that the part looks at.
    Part(Part),
}

/// How far a part looks.
#[derive(Clone, Copy, Debug)]
pub(crate) enum Reach {
    /// Its own windows: enough for its lines without fill.
    Windows,
    /// All that its chip looks at: enough for its fill.
    Needs,
}

/// A part of a chip as a smaller chip.
fn chip_of_part(alloc: Global, chip: &ChipRules, part: Part) -> Result<PartChip, Refusal>
    ensures rules { IfOk result (λ c. part_rules (chip_values chip.now) part ≡ Ok (values_of c.rules)) }
    ensures part { IfOk result (λ c. HoldsPart (chip_values chip.now) part (values_of c.rules) (tiles_in c.told) (windows_in c.told) c.told.below) }
    ensures refused { IfErr result (λ e. (fault : PartRulesError) × (e ≡ Refusal.TooLarge fault (part.number + 1) part.count)
        × ((fault ≡ PartRulesError.Memory) ⊎ (part_rules (chip_values chip.now) part ≡ Err fault))) }
{
    match part.chip(alloc, chip) {
        Ok(chip) => Ok(chip),
        Err(fault) => Err(Refusal::TooLarge(fault, part.number(), part.count())),
    }
}

/// The fault of a design near a part, as it is told: too many shapes with the part.
fn part_told(part: Part, fault: InputFault<DesignError>) -> InputFault<DesignError>
    ensures { result ≡ part_told part fault }
{
    match fault {
        InputFault::Refused(DesignError::Flatten(FlattenError::TooManyShapes)) => {
            InputFault::Refused(DesignError::Crowded(part.number(), part.count()))
        }
        other => other,
    }
}

impl Reach {
    /// The rectangle that a part's chip looks at, this far.
    fn frame(self, chip: &PartChip) -> Rect
        ensures { IsFrameOf self (values_of chip.now.rules) chip.now.told result }
    {
        match self {
            Reach::Windows => chip.window_rect(),
            Reach::Needs => chip.needed_rect(),
        }
    }
}

impl Scope {
    /// What the rules behind the tap say of this much of a chip.
    pub(crate) fn view<R: Read>(
        &self,
        alloc: Global,
        tap: &mut Tap<R>,
        reach: Reach,
    ) -> Result<View, Refusal>
        requires { has_failed tap.old ≡ false }
        ensures device { (result ≡ Err (Refusal.Rules (InputFault.Unread InputError.Device))) ↔ (has_failed tap.new ≡ true) }
        ensures view { IfOk result (λ v. IsView self.now reach (R.remaining (under tap.old)) (values_of v.rules) v.told v.frame) }
        ensures refused { IfErr result (λ e. IfSome (R.remaining (under tap.old)) (λ text. IsRulesReason self.now text e)) }
        ensures own { IfErr result (λ e. is_of_rules e ≡ true) }
    {
        match self {
            Scope::Whole => {
                let rules = take_rules(alloc, tap)?;
                Ok(View {
                    rules,
                    told: Told::Everything,
                    frame: None,
                })
            }
            Scope::Part(part) => {
                let values = take_chip_rules(alloc, tap)?;
                let chip = chip_of_part(alloc, &values, *part)?;
                let frame = reach.frame(&chip);
                let PartChip { rules, told } = chip;
                Ok(View {
                    rules,
                    told: Told::Rows(told),
                    frame: Some(frame),
                })
            }
        }
    }

    /// The refusal of a design, as it is told: too many shapes near a part with the part.
    pub(crate) fn design_fault(&self, fault: InputFault<DesignError>) -> Refusal
        ensures told { result ≡ Refusal.Design (told_in self.now fault) }
        ensures device { (result ≡ Refusal.Design (InputFault.Unread InputError.Device)) ↔ (fault ≡ InputFault.Unread InputError.Device) }
    {
        match self {
            Scope::Whole => Refusal::Design(fault),
            Scope::Part(part) => Refusal::Design(part_told(*part, fault)),
        }
    }

    /// Who fills this much of a chip: a part one worker, without a limit.
    pub(crate) fn crew(&self, crew: Crew) -> Crew
        requires { (0 < crew.workers) × (crew.workers ≤ 64) }
        ensures crew { result ≡ crew_in self.now crew }
        ensures manned { (0 < result.workers) × (result.workers ≤ 64) }
    {
        match self {
            Scope::Whole => crew,
            Scope::Part(_) => Crew {
                workers: 1,
                limit: None,
            },
        }
    }
}
