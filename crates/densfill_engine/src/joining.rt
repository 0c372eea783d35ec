//! The fill libraries of parts, joined: each is read and judged behind those of the parts before it.
ghost use Rattle.std.specs.Prelude.{◌≡◌, ◌↔◌, ◌⊎◌, ◌+◌, ◌<◌, ◌≤◌, [], ◌∷◌, ◌++◌, List, ℕ, false, true, take, Err, Ok, IfErr, IfOk, IfSome, IsErrOf, OnOk, is_ok, is_some};
ghost use Rattle.std.specs.Io.KnownBytes.{Appends};
ghost use Rattle.densfill_io.specs.Taps.{has_failed, under};
ghost use Rattle.fill_text.specs.Rules.{rules_of};
ghost use Rattle.fill_text.specs.ValuesOfChips.{chip_values};
ghost use Rattle.fill_text.specs.ValuesOfRules.{values_of};
ghost use Rattle.gds_join.specs.Joined.{IsJoinedSo};
ghost use Rattle.densfill_engine.specs.Inputs.{IsFaultOf, chip_answer};
ghost use Rattle.densfill_engine.specs.Joiners.{AreJoined, IsJoiner, IsJoinOf, IsJoinReason, IsPartReason, OpensFor, is_one_run};
ghost use Rattle.densfill_engine.specs.Joining.{IsPartTaken, IsUntaken};

use crate::inputs::MOST_BYTES;
use crate::refusal::{InputFault, Refusal, RunFault};
use densfill_io::{InputError, Tap, read_input, write_settled};
use fill_parts::laws::chip_rules_make_a_plan;
use fill_text::{ChipRules, RuleError, Rules, read_chip_rules, read_rules};
use gds_join::laws::{none_are_taken, one_more_is_taken, taken_are_joined};
use gds_join::{Joined, PartError};
use std::alloc::{AllocError, Global};
use std::io::{Read, Write};

/// The parts that are taken so far, one after another.
#[derive(Drop)]
pub struct Joiner {
    parts: Joined,
}

/// The rules that a rule file says, where one run takes its chip.
fn whole_rules(alloc: Global, text: &[u8]) -> Result<Option<Rules>, AllocError>
    ensures some { IfOk result (λ o. is_some o ≡ is_ok (rules_of text.now)) }
    ensures rules { IfOk result (λ o. IfSome o (λ r. rules_of text.now ≡ Ok (values_of r))) }
{
    match read_rules(alloc, text) {
        Ok(rules) => Ok(Some(rules)),
        Err(RuleError::Memory) => Err(AllocError),
        Err(_) => Ok(None),
    }
}

/// The rules of a chip of any size that the reader behind the tap gives, and the same where one run takes the chip.
fn take_both<R: Read>(
    alloc: Global,
    tap: &mut Tap<R>,
) -> Result<(ChipRules, Option<Rules>), InputFault<RuleError>>
    requires { has_failed tap.old ≡ false }
    ensures device { IsErrOf result (InputFault.Unread InputError.Device) ↔ (has_failed tap.new ≡ true) }
    ensures rules { IfOk result (λ p. IfSome (R.remaining (under tap.old)) (λ text. (chip_answer text ≡ Ok (chip_values p.0)) × (is_some p.1 ≡ is_one_run text))) }
    ensures whole { IfOk result (λ p. IfSome p.1 (λ w. values_of w ≡ chip_values p.0)) }
    ensures refused { IfErr result (λ f. IfSome (R.remaining (under tap.old)) (λ text. IsFaultOf RuleError.Memory (chip_answer text) f)) }
{
    let text = read_input(alloc, tap, MOST_BYTES)?;
    let chip = read_chip_rules(alloc, &text)?;
    let whole = match whole_rules(alloc, &text) {
        Ok(whole) => whole,
        Err(_) => return Err(InputFault::Refused(RuleError::Memory)),
    };
    Ok((chip, whole))
}

/// Takes the fill library that the reader behind the tap gives, of the next part, behind those of the parts before it.
///
/// # Errors
/// Those of an input, and those of `gds_join::Joined::take`.
fn join_part<P: Read>(
    alloc: Global,
    parts: Joined,
    tap: &mut Tap<P>,
) -> Result<Joined, InputFault<PartError>>
    requires joined { IsJoinedSo parts }
    requires more { parts.taken < parts.count }
    requires tap { has_failed tap.old ≡ false }
    ensures device { IsErrOf result (InputFault.Unread InputError.Device) ↔ (has_failed tap.new ≡ true) }
    ensures joined { IfOk result IsJoinedSo }
    ensures same { IfOk result (λ j. (j.chip ≡ parts.chip) × (j.whole ≡ parts.whole) × (j.count ≡ parts.count) × (j.taken ≡ parts.taken + 1)) }
    ensures taken { IfOk result (λ j. IfSome (P.remaining (under tap.old)) (λ bytes. IsPartTaken parts j bytes)) }
    ensures refused { IfErr result (λ f. IfSome (P.remaining (under tap.old)) (λ bytes. IsUntaken parts bytes f)) }
{
    let bytes = read_input(alloc, tap, MOST_BYTES)?;
    let parts = parts.take(alloc, &bytes)?;
    Ok(parts)
}

impl Joiner {
    /// No part yet, of so many, under the rules that the reader behind the tap gives, of a chip of any size.
    ///
    /// # Errors
    /// `Rules` as `check` of a part answers it.
    pub fn begin<R: Read>(alloc: Global, rules: &mut Tap<R>, count: u32) -> Result<Joiner, Refusal>
        requires rules { has_failed rules.old ≡ false }
        requires count { (1 ≤ count) × (count ≤ 4096) }
        ensures joiner { IfOk result IsJoiner }
        ensures begun { IfOk result (λ j. (AreJoined [] j) × (j.parts.count ≡ count) × IfSome (R.remaining (under rules.old)) (λ r. OpensFor r j)) }
        ensures refused { IfErr result (λ e. IfSome (R.remaining (under rules.old)) (λ r. IsJoinReason r [] count e)) }
        ensures rules_device { IsErrOf result (Refusal.Rules (InputFault.Unread InputError.Device)) ↔ (has_failed rules.new ≡ true) }
    {
        none_are_taken();
        let (chip, whole) = take_both(alloc, rules)?;
        Ok(Joiner {
            parts: Joined::begin(alloc, chip, whole, count),
        })
    }

    /// The number of the next part, from 1 on.
    pub fn next(&self) -> u32
        requires { IsJoiner self.now }
        ensures { result ≡ self.now.parts.taken + 1 }
    {
        self.parts.taken + 1
    }

    /// Takes the fill library of the next part, behind those of the parts before it.
    ///
    /// # Errors
    /// `Part` with the part's number: those of an input, and those of `gds_join::Joined::take`.
    pub fn take<P: Read>(self, alloc: Global, tap: &mut Tap<P>) -> Result<Joiner, Refusal>
        requires joiner { IsJoiner self }
        requires more { self.parts.taken < self.parts.count }
        requires tap { has_failed tap.old ≡ false }
        ensures joiner { IfOk result IsJoiner }
        ensures taken { IfOk result (λ j. (j.parts.chip ≡ self.parts.chip) × (j.parts.whole ≡ self.parts.whole) × (j.parts.count ≡ self.parts.count) × (j.parts.taken ≡ self.parts.taken + 1)) }
        ensures joined { IfOk result (λ j. IfSome (P.remaining (under tap.old)) (λ bytes. (texts : List (List ℕ)) → AreJoined texts self → AreJoined (texts ++ bytes ∷ []) j)) }
        ensures refused { IfErr result (λ e. IfSome (P.remaining (under tap.old)) (λ bytes. (texts : List (List ℕ)) → AreJoined texts self → IsPartReason self (texts ++ bytes ∷ []) e)) }
    {
        one_more_is_taken();
        let number = self.parts.taken + 1;
        match join_part(alloc, self.parts, tap) {
            Ok(parts) => Ok(Joiner { parts }),
            Err(fault) => Err(Refusal::Part(number, fault)),
        }
    }

    /// The fill library of the places of all parts.
    ///
    /// # Errors
    /// `Memory` where memory is refused.
    pub fn text(&self, alloc: Global) -> Result<Vec<u8>, RunFault>
        requires joiner { IsJoiner self.now }
        requires whole { self.now.parts.taken ≡ self.now.parts.count }
        ensures joined { IfOk result (λ v. (rules : List ℕ) (texts : List (List ℕ)) → OpensFor rules self.now → AreJoined texts self.now → IsJoinOf rules texts v.items) }
        ensures refused { IfErr result (λ e. e ≡ RunFault.Memory) }
    {
        taken_are_joined();
        chip_rules_make_a_plan(&self.parts.chip);
        let text = self.parts.text(alloc)?;
        Ok(text)
    }
}

/// Writes a joined library whole and settles it by a flush.
///
/// # Errors
/// `Out` where it could not be written whole or settled.
pub fn settle<W: Write>(library: &[u8], out: &mut Tap<W>) -> Result<(), Refusal>
    requires out { has_failed out.old ≡ false }
    ensures out_device { (result ≡ Err Refusal.Out) ↔ (has_failed out.new ≡ true) }
    ensures refused { IfErr result (λ e. e ≡ Refusal.Out) }
    ensures library { OnOk result (Appends (W.contents (under out.old)) (W.contents (under out.new)) library.now) }
    ensures prefix { (k : ℕ) × Appends (W.contents (under out.old)) (W.contents (under out.new)) (take k library.now) }
{
    if write_settled(out, library).is_err() {
        return Err(Refusal::Out);
    }
    Ok(())
}
