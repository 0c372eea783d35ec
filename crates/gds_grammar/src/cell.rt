//! Reads the elements of a cell.

ghost use Rattle.std.specs.Prelude.{◌≡◌, ◌<◌, ◌++◌, [], List, ℕ, true, length, map, IfOk, OnOk, IfErr, MatchResult};
ghost use Rattle.gds_record.specs.Records.{view};
ghost use Rattle.gds_grammar.specs.Values.{Shape, Contents, shape_of};
ghost use Rattle.gds_grammar.specs.Grammar.{all_rules};
ghost use Rattle.gds_grammar.specs.Machine.{Named, Between, fine, refuse, with_cell, next_state};
ghost use Rattle.gds_grammar.specs.Layers.{kept_shapes};
ghost use Rattle.gds_grammar.specs.steps.Reading.{Reaches, Fails, shapes_of, cell_state, after_step, after_elements};
ghost use Rattle.gds_grammar.specs.steps.Keeping.{keeps};

use crate::element::reading::read_element;
use crate::element::tables::opening;
use crate::element::{Element, ElementKind};
use crate::error::{Refusal, Stop};
use crate::next::next;
use crate::wanted::Wanted;
use gds_record::{Record, kind};
use std::alloc::{AllocError, Global};

/// What a record between elements comes to.
#[derive(Clone, Copy)]
pub enum CellStep {
    /// STRCLASS, which is skipped.
    Class,
    /// An element opens.
    Opens(ElementKind),
    /// The cell ends.
    Ends,
}

/// What a record comes to right behind STRNAME, where `fresh`, or between elements.
#[tactic(auto, unfolding(crate::specs::Machine::next_state))]
fn step_of(fresh: bool, found: Record<'_>) -> Result<CellStep, Refusal>
    ensures { MatchResult result
        (λ step. (l : Contents) (n : List ℕ) (sh : List Shape) → (fresh ≡ true → sh ≡ []) →
        next_state all_rules (cell_state fresh l n sh) (view found.entry)
        ≡ fine (after_step step l n sh))
        (λ e. (l : Contents) (n : List ℕ) (sh : List Shape) → (fresh ≡ true → sh ≡ []) →
        next_state all_rules (cell_state fresh l n sh) (view found.entry) ≡ refuse e) }
{
    if fresh && found.kind == kind::STRCLASS {
        return Ok(CellStep::Class);
    }
    match opening(found.kind) {
        Some(element) => Ok(CellStep::Opens(element)),
        None => {
            if found.kind == kind::ENDSTR {
                Ok(CellStep::Ends)
            } else {
                Err(Refusal::Unexpected)
            }
        }
    }
}

/// What the record at the front comes to between elements, and the bytes after it.
fn next_in_cell(fresh: bool, bytes: &[u8]) -> Result<(CellStep, &[u8]), Stop>
    ensures shorter { IfOk result (λ x. length x.1.now < length bytes.now) }
    ensures found { IfOk result (λ x. (l : Contents) (n : List ℕ) (sh : List Shape) →
        (fresh ≡ true → sh ≡ []) →
        Reaches bytes.now (cell_state fresh l n sh) x.1.now (after_step x.0 l n sh)) }
    ensures refused { IfErr result (λ e. (l : Contents) (n : List ℕ) (sh : List Shape) →
        (fresh ≡ true → sh ≡ []) →
        Fails bytes.now (cell_state fresh l n sh) e) }
{
    let (found, rest) = next(bytes)?;
    match step_of(fresh, found) {
        Ok(step) => Ok((step, rest)),
        Err(refusal) => Err(Stop::refused(refusal, bytes)),
    }
}

/// Puts an element at the end, if there is one.
fn put<'a>(elements: &mut Vec<Element<'a>>, made: Option<Element<'a>>) -> Result<(), AllocError>
    ensures { OnOk result (map shape_of elements.new.items
        ≡ map shape_of elements.old.items ++ shapes_of made.entry) }
{
    if let Some(element) = made {
        elements.push(element)?;
    }
    Ok(())
}

/// Reads one element to the end of the list, if it is kept, or passes one STRCLASS or the cell's end;
/// whether that was its end, and the bytes after it. `before` is room for an element's records.
fn read_step<'a>(
    alloc: Global,
    wanted: Wanted<'_>,
    before: &mut Vec<Record<'a>>,
    elements: &mut Vec<Element<'a>>,
    fresh: bool,
    bytes: &'a [u8],
) -> Result<(bool, &'a [u8]), Stop>
    ensures shorter { IfOk result (λ x. length x.1.now < length bytes.now) }
    ensures found { IfOk result (λ x. (more : List Shape)
        × (map shape_of elements.new.items ≡ map shape_of elements.old.items ++ kept_shapes (keeps wanted.entry) more)
        × ((l : Contents) (n : List ℕ) (sh : List Shape) → (fresh ≡ true → sh ≡ []) →
        Reaches bytes.now (cell_state fresh l n sh) x.1.now (after_elements x.0 l n (sh ++ more)))) }
    ensures refused { IfErr result (λ e. (l : Contents) (n : List ℕ) (sh : List Shape) →
        (fresh ≡ true → sh ≡ []) → Fails bytes.now (cell_state fresh l n sh) e) }
{
    let (step, after) = next_in_cell(fresh, bytes)?;
    match step {
        CellStep::Class => Ok((false, after)),
        CellStep::Ends => Ok((true, after)),
        CellStep::Opens(element) => {
            let (made, rest) = read_element(alloc, wanted, before, element, after)?;
            put(elements, made)?;
            Ok((false, rest))
        }
    }
}

/// The elements of a cell from behind its STRNAME on that are kept, and the bytes behind its end.
pub fn read_elements<'a>(
    alloc: Global,
    wanted: Wanted<'_>,
    bytes: &'a [u8],
) -> Result<(Vec<Element<'a>>, &'a [u8]), Stop>
    ensures found { IfOk result (λ x. (all : List Shape)
        × (map shape_of x.0.items ≡ kept_shapes (keeps wanted.entry) all)
        × ((l : Contents) (n : List ℕ) → Reaches bytes.now (Named l n) x.1.now (Between (with_cell l n all)))) }
    ensures refused { IfErr result (λ e. (l : Contents) (n : List ℕ) →
        Fails bytes.now (Named l n) e) }
{
    let mut before = Vec::new(alloc);
    let mut elements = Vec::new(alloc);
    let mut rest = bytes;
    let mut fresh = true;
    'elements: loop {
        let (ended, after) = read_step(alloc, wanted, &mut before, &mut elements, fresh, rest)?;
        if ended {
            return Ok((elements, after));
        }
        rest = after;
        fresh = false;
    }
}
