//! Joins the fill libraries of parts, each opened, read, judged and closed before the next one is opened.
ghost use Rattle.std.specs.Prelude.{◌≡◌, ◌⊎◌, ◌+◌, ◌<◌, ◌≤◌, ℕ, List, [], ◌∷◌, ◌++◌, length, map, Some, IfErr, IfOk, IfSome, OnOk};
ghost use Rattle.densfill_args.specs.Grammar as said;
ghost use Rattle.densfill_engine.specs.Joiners.{AreJoined, IsJoiner, IsJoinOf, IsJoinReason, IsPartReason};
ghost use Rattle.densfill.specs.Outcomes.{IsCause, IsFile, IsUnopened, IsUnopenedPart, all_known, of_rules};

use crate::OUT_OF_MEMORY;
use crate::open::{created, opened_part, opened_rules};
use densfill_engine::{Joiner, Refusal, settle};
use std::alloc::{AllocError, Global};
use std::rt::Files;

/// Takes the library that a path names behind those of the parts before it.
fn take_next<R: Files>(rt: &R, alloc: Global, joiner: Joiner, path: &str) -> Result<Joiner, Refusal>
    requires joiner { IsJoiner joiner }
    requires more { joiner.parts.taken < joiner.parts.count }
    ensures joiner { IfOk result IsJoiner }
    ensures taken { IfOk result (λ j. (j.parts.chip ≡ joiner.parts.chip) × (j.parts.whole ≡ joiner.parts.whole) × (j.parts.count ≡ joiner.parts.count) × (j.parts.taken ≡ joiner.parts.taken + 1)) }
    ensures joined { IfOk result (λ j. (p : R.File) × IfSome (R.File.remaining p) (λ bytes. (texts : List (List ℕ)) → AreJoined texts joiner → AreJoined (texts ++ bytes ∷ []) j)) }
    ensures refused { IfErr result (λ e. IsUnopenedPart (joiner.parts.taken + 1) e
        ⊎ ((p : R.File) × IfSome (R.File.remaining p) (λ bytes. (texts : List (List ℕ)) → AreJoined texts joiner → IsPartReason joiner (texts ++ bytes ∷ []) e))) }
{
    let mut part = opened_part(rt, path, joiner.next())?;
    joiner.take(alloc, &mut part)
}

/// Takes the libraries that some paths name, in their order.
fn take_all<R: Files>(
    rt: &R,
    alloc: Global,
    joiner: Joiner,
    paths: &[&str],
) -> Result<Joiner, Refusal>
    requires joiner { IsJoiner joiner }
    requires none { AreJoined [] joiner }
    requires count { joiner.parts.count ≡ length paths.now }
    ensures joiner { IfOk result IsJoiner }
    ensures whole { IfOk result (λ j. (j.parts.chip ≡ joiner.parts.chip) × (j.parts.whole ≡ joiner.parts.whole) × (j.parts.taken ≡ j.parts.count)) }
    ensures joined { IfOk result (λ j. (ps : List R.File) × (length ps ≡ length paths.now) × IfSome (all_known (map R.File.remaining ps)) (λ texts. AreJoined texts j)) }
    ensures refused { IfErr result (λ e. (ps : List R.File) × IfSome (all_known (map R.File.remaining ps)) (λ texts. IsPartReason joiner texts e)) }
{
    let mut joined = joiner;
    for path in paths {
        joined = take_next(rt, alloc, joined, path)?;
    }
    Ok(joined)
}

/// The joined library of the parts whose libraries some paths name.
fn joined<R: Files>(rt: &R, alloc: Global, rules: &str, parts: &[&str]) -> Result<Vec<u8>, Refusal>
    requires { (0 < length parts.now) × (length parts.now ≤ 4096) }
    ensures joined { IfOk result (λ v. (r : R.File) × (ps : List R.File) × (length ps ≡ length parts.now)
        × IfSome (R.File.remaining r) (λ r. IfSome (all_known (map R.File.remaining ps)) (λ texts. IsJoinOf r texts v.items))) }
    ensures refused { IfErr result (λ e. IsUnopened of_rules e
        ⊎ ((r : R.File) × (ps : List R.File) × IfSome (R.File.remaining r) (λ r. IfSome (all_known (map R.File.remaining ps)) (λ texts. IsJoinReason r texts (length parts.now) e)))) }
{
    let mut rules = opened_rules(rt, rules)?;
    let joiner = Joiner::begin(alloc, &mut rules, parts.len() as u32)?;
    let joiner = take_all(rt, alloc, joiner, parts)?;
    let text = joiner.text(alloc)?;
    Ok(text)
}

/// The paths of all inputs.
fn inputs_of<'a>(
    alloc: Global,
    rules: &'a str,
    parts: &[&'a str],
) -> Result<Vec<&'a str>, AllocError>
    ensures { IfOk result (λ v. v.items ≡ parts.now ++ rules.entry ∷ []) }
{
    let mut inputs = parts.to_vec(alloc)?;
    inputs.push(rules)?;
    Ok(inputs)
}

/// Does what a line of `join` asks for. OUT is created once all parts are taken.
pub(crate) fn join<R: Alloc<A = Global> + Files>(
    rt: &R,
    alloc: Global,
    rules: &str,
    out: &str,
    parts: &[&str],
) -> Result<(), Refusal>
    requires { (0 < length parts.now) × (length parts.now ≤ 4096) }
    ensures written { OnOk result ((r : R.File) × (ps : List R.File) × (length ps ≡ length parts.now)
        × IfSome (R.File.remaining r) (λ r. IfSome (all_known (map R.File.remaining ps)) (λ texts. (library : List ℕ) × IsJoinOf r texts library × IsFile R.File.contents library))) }
    ensures refused { IfErr result (IsCause R.File.remaining (Some (said.join rules.now out.now (map (λ p. p.now) parts.now)))) }
{
    let library = joined(rt, alloc, rules, parts)?;
    let Ok(inputs) = inputs_of(alloc, rules, parts) else {
        return Err(OUT_OF_MEMORY);
    };
    let mut out = created(rt, out, &inputs)?;
    settle(&library, &mut out)
}
