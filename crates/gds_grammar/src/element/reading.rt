//! Reads an element behind the record that opens it.

ghost use Rattle.std.specs.Prelude.{◌≡◌, ◌<◌, ◌++◌, [], List, ℕ, length, IfOk, IfErr};
ghost use Rattle.gds_grammar.specs.Values.{Shape, Contents};
ghost use Rattle.gds_grammar.specs.Elements.{has_string};
ghost use Rattle.gds_grammar.specs.Machine.{Body, Tail, Within, behind_xy};
ghost use Rattle.gds_grammar.specs.Layers.{kept_shapes};
ghost use Rattle.gds_grammar.specs.steps.Reading.{Reaches, Fails, shapes_of, after_tail};
ghost use Rattle.gds_grammar.specs.steps.Keeping.{keeps};

use crate::element::body::read_body;
use crate::element::tables::has_string;
use crate::element::values::element_of;
use crate::element::{Element, ElementKind};
use crate::error::{Refusal, Stop};
use crate::next::{expect, next};
use crate::wanted::Wanted;
use gds_record::{Record, kind};
use std::alloc::Global;

/// The bytes behind the string of a text; other elements have none.
fn skip_string(element: ElementKind, bytes: &[u8]) -> Result<&[u8], Stop>
    ensures found { IfOk result (λ rest. (l : Contents) (n : List ℕ) (sh : List Shape) →
        Reaches bytes.now (behind_xy (has_string element) l n sh) rest.now (Tail l n sh)) }
    ensures refused { IfErr result (λ e. (l : Contents) (n : List ℕ) (sh : List Shape) →
        Fails bytes.now (behind_xy (has_string element) l n sh) e) }
{
    if !has_string(element) {
        return Ok(bytes);
    }
    let (_string, rest) = expect(bytes, kind::STRING)?;
    Ok(rest)
}

/// Whether the element ends here, and the bytes behind its end or behind one property.
fn next_in_tail(bytes: &[u8]) -> Result<(bool, &[u8]), Stop>
    ensures shorter { IfOk result (λ x. length x.1.now < length bytes.now) }
    ensures found { IfOk result (λ x. (l : Contents) (n : List ℕ) (sh : List Shape) →
        Reaches bytes.now (Tail l n sh) x.1.now (after_tail x.0 l n sh)) }
    ensures refused { IfErr result (λ e. (l : Contents) (n : List ℕ) (sh : List Shape) →
        Fails bytes.now (Tail l n sh) e) }
{
    let (found, rest) = next(bytes)?;
    match found.kind {
        kind::PROPATTR => {
            let (_value, after) = expect(rest, kind::PROPVALUE)?;
            Ok((false, after))
        }
        kind::ENDEL => Ok((true, rest)),
        _ => Err(Stop::refused(Refusal::Unexpected, bytes)),
    }
}

/// The bytes behind the properties of an element and its end.
fn skip_tail(bytes: &[u8]) -> Result<&[u8], Stop>
    ensures found { IfOk result (λ rest. (l : Contents) (n : List ℕ) (sh : List Shape) →
        Reaches bytes.now (Tail l n sh) rest.now (Within l n sh)) }
    ensures refused { IfErr result (λ e. (l : Contents) (n : List ℕ) (sh : List Shape) →
        Fails bytes.now (Tail l n sh) e) }
{
    let mut rest = bytes;
    'tail: loop {
        let (ended, after) = next_in_tail(rest)?;
        if ended {
            return Ok(after);
        }
        rest = after;
    }
}

/// The element behind the record that opened it, if it says something that is kept, and the bytes
/// after it. `before` is room for the records before its points, whatever stands there.
pub fn read_element<'a>(
    alloc: Global,
    wanted: Wanted<'_>,
    before: &mut Vec<Record<'a>>,
    element: ElementKind,
    bytes: &'a [u8],
) -> Result<(Option<Element<'a>>, &'a [u8]), Stop>
    ensures found { IfOk result (λ x. (more : List Shape) × (shapes_of x.0 ≡ kept_shapes (keeps wanted.entry) more)
        × ((l : Contents) (n : List ℕ) (sh : List Shape) →
        Reaches bytes.now (Body l n sh element []) x.1.now (Within l n (sh ++ more)))) }
    ensures refused { IfErr result (λ e. (l : Contents) (n : List ℕ) (sh : List Shape) →
        Fails bytes.now (Body l n sh element []) e) }
{
    let body = read_body(before, element, bytes)?;
    let made = element_of(alloc, wanted, element, before, body.xy)?;
    let tail = skip_string(element, body.rest)?;
    let rest = skip_tail(tail)?;
    Ok((made, rest))
}
