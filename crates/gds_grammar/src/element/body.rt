//! Reads the records of an element up to its points.

ghost use Rattle.std.specs.Prelude.{◌≡◌, ◌<◌, ◌++◌, [], List, ℕ, true, length, map, IfOk, IfErr, OnOk, MatchResult};
ghost use Rattle.std.specs.List.{AllByRecursion};
ghost use Rattle.gds_record.specs.Records.{view};
ghost use Rattle.gds_grammar.specs.Forms.{IsWell};
ghost use Rattle.gds_grammar.specs.Values.{Shape, Contents};
ghost use Rattle.gds_grammar.specs.Elements.{has_string, shapes_in};
ghost use Rattle.gds_grammar.specs.Grammar.{all_rules};
ghost use Rattle.gds_grammar.specs.Machine.{Body, fine, refuse, behind_xy, next_state};
ghost use Rattle.gds_grammar.specs.steps.Reading.{Reaches, Fails, IsBody, after_body};

use crate::element::ElementKind;
use crate::element::tables::{are_points, is_closed, is_whole, may_stand};
use crate::error::{Refusal, Stop};
use crate::next::next;
use gds_record::{Record, kind};

/// The data of an element's XY, and the bytes after it.
#[derive(Clone, Copy)]
pub struct ElementBody<'a> {
    pub xy: &'a [u8],
    pub rest: &'a [u8],
}

/// Whether the record is the XY of an element with these records before it.
#[tactic(auto, unfolding(crate::specs::Machine::next_state))]
fn ends_body(
    element: ElementKind,
    before: &[Record<'_>],
    found: Record<'_>,
) -> Result<bool, Refusal>
    ensures leads { MatchResult result
        (λ last. (l : Contents) (n : List ℕ) (sh : List Shape) →
        next_state all_rules (Body l n sh element (map view before.now)) (view found.entry)
        ≡ fine (after_body last l n sh element (map view before.now) (view found.entry)))
        (λ e. (l : Contents) (n : List ℕ) (sh : List Shape) →
        next_state all_rules (Body l n sh element (map view before.now)) (view found.entry)
        ≡ refuse e) }
    ensures whole { IfOk result (λ last. last ≡ true →
        IsBody element (map view before.now) found.entry.body.now) }
{
    if found.kind != kind::XY {
        if may_stand(element, before, found.kind) {
            Ok(false)
        } else {
            Err(Refusal::Unexpected)
        }
    } else if !is_whole(element, before) {
        Err(Refusal::Unexpected)
    } else if !are_points(element, found.body) {
        Err(Refusal::BadXY)
    } else if !is_closed(element, found.body) {
        Err(Refusal::NotClosed)
    } else {
        Ok(true)
    }
}

/// Whether the record at the front is the element's XY, that record, and the bytes after it.
fn next_in_body<'a>(
    element: ElementKind,
    before: &[Record<'a>],
    bytes: &'a [u8],
) -> Result<(bool, Record<'a>, &'a [u8]), Stop>
    ensures shorter { IfOk result (λ x. length x.2.now < length bytes.now) }
    ensures well { IfOk result (λ x. IsWell (view x.1)) }
    ensures whole { IfOk result (λ x. x.0 ≡ true →
        IsBody element (map view before.now) x.1.body.now) }
    ensures found { IfOk result (λ x. (l : Contents) (n : List ℕ) (sh : List Shape) →
        Reaches bytes.now (Body l n sh element (map view before.now)) x.2.now
        (after_body x.0 l n sh element (map view before.now) (view x.1))) }
    ensures refused { IfErr result (λ e. (l : Contents) (n : List ℕ) (sh : List Shape) →
        Fails bytes.now (Body l n sh element (map view before.now)) e) }
{
    let (found, rest) = next(bytes)?;
    match ends_body(element, before, found) {
        Ok(last) => Ok((last, found, rest)),
        Err(refusal) => Err(Stop::refused(refusal, bytes)),
    }
}

/// Reads an element up to its points. The records before XY are put into `before`, in the order of
/// the file; what stood there is taken off, so that one list serves all elements.
pub fn read_body<'a>(
    before: &mut Vec<Record<'a>>,
    element: ElementKind,
    bytes: &'a [u8],
) -> Result<ElementBody<'a>, Stop>
    ensures well { OnOk result (AllByRecursion IsWell (map view before.new.items)) }
    ensures whole { IfOk result (λ b. IsBody element (map view before.new.items) b.xy.now) }
    ensures found { IfOk result (λ b. (l : Contents) (n : List ℕ) (sh : List Shape) →
        Reaches bytes.now (Body l n sh element []) b.rest.now
        (behind_xy (has_string element) l n
        (sh ++ shapes_in element (map view before.new.items) b.xy.now))) }
    ensures refused { IfErr result (λ e. (l : Contents) (n : List ℕ) (sh : List Shape) →
        Fails bytes.now (Body l n sh element []) e) }
{
    before.clear();
    let mut rest = bytes;
    'body: loop {
        let (last, found, after) = next_in_body(element, before, rest)?;
        if last {
            return Ok(ElementBody {
                xy: found.body,
                rest: after,
            });
        }
        before.push(found)?;
        rest = after;
    }
}
