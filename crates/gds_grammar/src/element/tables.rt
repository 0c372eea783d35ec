//! Which records stand in an element of each kind (Calma GDSII Stream Format Manual, release 6.0;
//! that those before XY may stand in any order is this project's profile).

ghost use Rattle.std.specs.Prelude.{◌≡◌, ◌==◌, ◌-◌, ◌≤◌, true, length, map, take, drop};
ghost use Rattle.std.specs.List.{list_any, list_all};
ghost use Rattle.gds_record.specs.Records.{view};
ghost use Rattle.gds_record.specs.Numbers.{point_of};
ghost use Rattle.gds_grammar.specs.Forms.{among};
ghost use Rattle.gds_grammar.specs.Elements.{opening, required, optional, may_stand, kinds_in, is_whole, has_count, are_points, is_same_point, is_closed, has_string};

use crate::element::ElementKind;
use gds_record::{Record, kind, point};

/// The kind of element that a record opens.
#[tactic(auto, unfolding(crate::specs::Elements::opening))]
pub fn opening(kind: u8) -> Option<ElementKind>
    ensures { result ≡ opening kind }
{
    match kind {
        kind::BOUNDARY => Some(ElementKind::Boundary),
        kind::PATH => Some(ElementKind::Path),
        kind::SREF => Some(ElementKind::Reference),
        kind::AREF => Some(ElementKind::Array),
        kind::TEXT => Some(ElementKind::Text),
        kind::NODE => Some(ElementKind::Node),
        kind::BOX => Some(ElementKind::Box),
        _ => None,
    }
}

fn is_required(element: ElementKind, kind: u8) -> bool
    ensures { result ≡ among (required element) kind }
{
    match element {
        ElementKind::Boundary | ElementKind::Path => matches!(kind, kind::LAYER | kind::DATATYPE),
        ElementKind::Reference => matches!(kind, kind::SNAME),
        ElementKind::Array => matches!(kind, kind::SNAME | kind::COLROW),
        ElementKind::Text => matches!(kind, kind::LAYER | kind::TEXTTYPE),
        ElementKind::Node => matches!(kind, kind::LAYER | kind::NODETYPE),
        ElementKind::Box => matches!(kind, kind::LAYER | kind::BOXTYPE),
    }
}

fn is_optional(element: ElementKind, kind: u8) -> bool
    ensures { result ≡ among (optional element) kind }
{
    match element {
        ElementKind::Path => {
            matches!(
                kind,
                kind::PATHTYPE | kind::WIDTH | kind::BGNEXTN | kind::ENDEXTN
            )
        }
        ElementKind::Reference | ElementKind::Array => {
            matches!(kind, kind::STRANS | kind::MAG | kind::ANGLE)
        }
        ElementKind::Text => matches!(
            kind,
            kind::PRESENTATION
                | kind::PATHTYPE
                | kind::WIDTH
                | kind::STRANS
                | kind::MAG
                | kind::ANGLE
        ),
        ElementKind::Boundary | ElementKind::Node | ElementKind::Box => false,
    }
}

fn has_kind(before: &[Record<'_>], kind: u8) -> bool
    ensures { result ≡ list_any (λ r. r.kind == kind) before.now }
{
    before.iter().any(|r| r.kind == kind)
}

/// Whether a record of the kind stands among these.
#[tactic(auto, using(crate::proofs::Bodies::among_is))]
pub fn is_among(before: &[Record<'_>], kind: u8) -> bool
    ensures { result ≡ among (kinds_in (map view before.now)) kind }
{
    has_kind(before, kind)
}

fn all_of_kind(before: &[Record<'_>], kind: u8) -> bool
    ensures { result ≡ list_all (λ r. r.kind == kind) before.now }
{
    before.iter().all(|r| r.kind == kind)
}

/// Whether a record of the kind may stand before XY behind these.
#[tactic(auto, using(crate::proofs::Bodies::all_is, crate::proofs::Bodies::length_is))]
pub fn may_stand(element: ElementKind, before: &[Record<'_>], kind: u8) -> bool
    ensures { result ≡ may_stand element (kinds_in (map view before.now)) kind }
{
    match kind {
        kind::ELFLAGS => before.is_empty(),
        kind::PLEX => all_of_kind(before, kind::ELFLAGS),
        _ => {
            (is_required(element, kind) || is_optional(element, kind)) && !is_among(before, kind)
        }
    }
}

/// Whether the records that the element asks for stand among these.
pub fn is_whole(element: ElementKind, before: &[Record<'_>]) -> bool
    ensures { result ≡ is_whole element (kinds_in (map view before.now)) }
{
    match element {
        ElementKind::Boundary | ElementKind::Path => {
            is_among(before, kind::LAYER) && is_among(before, kind::DATATYPE)
        }
        ElementKind::Reference => is_among(before, kind::SNAME),
        ElementKind::Array => is_among(before, kind::SNAME) && is_among(before, kind::COLROW),
        ElementKind::Text => is_among(before, kind::LAYER) && is_among(before, kind::TEXTTYPE),
        ElementKind::Node => is_among(before, kind::LAYER) && is_among(before, kind::NODETYPE),
        ElementKind::Box => is_among(before, kind::LAYER) && is_among(before, kind::BOXTYPE),
    }
}

fn has_count(element: ElementKind, count: usize) -> bool
    ensures { result ≡ has_count element count }
{
    match element {
        ElementKind::Boundary => count > 3,
        ElementKind::Reference => count == 1,
        ElementKind::Array => count == 3,
        ElementKind::Path | ElementKind::Text | ElementKind::Node | ElementKind::Box => true,
    }
}

/// Whether the data of XY is a positive multiple of eight bytes, with as many points as the element
/// has.
pub fn are_points(element: ElementKind, xy: &[u8]) -> bool
    ensures { result ≡ are_points element xy.now }
{
    !xy.is_empty() && xy.len() % 8 == 0 && has_count(element, xy.len() / 8)
}

/// Whether the first point and the last are one.
fn is_ring(xy: &[u8]) -> bool
    requires least { 8 ≤ length xy.now }
    ensures { result ≡ is_same_point (point_of (take 8 xy.now))
        (point_of (drop (length xy.now - 8) xy.now)) }
{
    let (first, _) = xy.split_at(8);
    let (_, last) = xy.split_at(xy.len() - 8);
    point(first) == point(last)
}

/// Whether a boundary's last point is its first; other elements needn't be closed.
pub fn is_closed(element: ElementKind, xy: &[u8]) -> bool
    requires { are_points element xy.now ≡ true }
    ensures { result ≡ is_closed element xy.now }
{
    match element {
        ElementKind::Boundary => is_ring(xy),
        _ => true,
    }
}

/// Whether the element has a string behind its points.
pub fn has_string(element: ElementKind) -> bool
    ensures { result ≡ has_string element }
{
    matches!(element, ElementKind::Text)
}
