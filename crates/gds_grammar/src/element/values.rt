//! Makes elements of their records.

ghost use Rattle.std.specs.Prelude.{◌≡◌, ◌%◌, ◌∷◌, [], true, length, map, Some, All, IfOk};
ghost use Rattle.std.specs.List.{AllByRecursion};
ghost use Rattle.std.specs.Option.{option_copied};
ghost use Rattle.gds_record.specs.declared.kind.TheConstants as kinds;
ghost use Rattle.gds_record.specs.Records.{view};
ghost use Rattle.gds_record.specs.Numbers.{word_of, number_of, IsStored};
ghost use Rattle.gds_grammar.specs.Forms.{among, kinds_of_2, kinds_of_4, kinds_of_8, IsWell};
ghost use Rattle.gds_grammar.specs.Values.{boundary, path, reference, array, points_in, wire_of};
ghost use Rattle.gds_grammar.specs.Points.{points_of};
ghost use Rattle.gds_grammar.specs.Elements.{kinds_in, body_of, value_if, word_in, layer_in, name_in, columns_in, rows_in, transform_in, shapes_in};
ghost use Rattle.gds_grammar.specs.Layers.{kept_shapes};
ghost use Rattle.gds_grammar.specs.steps.Reading.{IsBody, shapes_of};
ghost use Rattle.gds_grammar.specs.steps.Keeping.{keeps};

use crate::element::points::Points;
use crate::element::{Array, Boundary, Element, ElementKind, Path, Ref, Transform};
use crate::next::array_of;
use crate::wanted::{Wanted, is_wanted};
use fill_base::{Layer, Point};
use gds_record::{Record, kind, name, number, point, word};
use std::alloc::{AllocError, Global};

/// The data of the record of that kind.
fn find<'a>(before: &[Record<'a>], kind: u8) -> Option<&'a [u8]>
    ensures { option_copied result ≡ body_of kind (map view before.now) }
{
    for found in before {
        if found.kind == kind {
            return Some(found.body);
        }
    }
    None
}

/// The data of a record that stands there.
fn body_at<'a>(before: &[Record<'a>], kind: u8) -> &'a [u8]
    requires { among (kinds_in (map view before.now)) kind ≡ true }
    ensures { body_of kind (map view before.now) ≡ Some result.now }
{
    find(before, kind).unwrap()
}

fn word_at(before: &[Record<'_>], kind: u8) -> u16
    requires well { AllByRecursion IsWell (map view before.now) }
    requires sized { among kinds_of_2 kind ≡ true }
    requires there { among (kinds_in (map view before.now)) kind ≡ true }
    ensures { result ≡ word_in kind (map view before.now) }
{
    word(body_at(before, kind))
}

fn word_if(before: &[Record<'_>], kind: u8) -> Option<u16>
    requires well { AllByRecursion IsWell (map view before.now) }
    requires sized { among kinds_of_2 kind ≡ true }
    ensures { result ≡ value_if word_of (body_of kind (map view before.now)) }
{
    let body = find(before, kind)?;
    Some(word(body))
}

fn number_if(before: &[Record<'_>], kind: u8) -> Option<i32>
    requires well { AllByRecursion IsWell (map view before.now) }
    requires sized { among kinds_of_4 kind ≡ true }
    ensures { result ≡ value_if number_of (body_of kind (map view before.now)) }
{
    let body = find(before, kind)?;
    Some(number(body))
}

fn real_if(before: &[Record<'_>], kind: u8) -> Option<[u8; 8]>
    requires well { AllByRecursion IsWell (map view before.now) }
    requires sized { among kinds_of_8 kind ≡ true }
    ensures { result ≡ body_of kind (map view before.now) }
{
    let body = find(before, kind)?;
    Some(array_of(body))
}

fn name_of<'a>(before: &[Record<'a>]) -> &'a [u8]
    requires { among (kinds_in (map view before.now)) kinds.SNAME ≡ true }
    ensures { result.now ≡ name_in (map view before.now) }
{
    name(body_at(before, kind::SNAME))
}

fn transform_of(before: &[Record<'_>]) -> Transform
    requires { AllByRecursion IsWell (map view before.now) }
    ensures { result ≡ transform_in (map view before.now) }
{
    Transform {
        flags: word_if(before, kind::STRANS).unwrap_or(0),
        magnification: real_if(before, kind::MAG),
        angle: real_if(before, kind::ANGLE),
    }
}

fn layer_of(before: &[Record<'_>]) -> Layer
    requires well { AllByRecursion IsWell (map view before.now) }
    requires layer { among (kinds_in (map view before.now)) kinds.LAYER ≡ true }
    requires data_type { among (kinds_in (map view before.now)) kinds.DATATYPE ≡ true }
    ensures { result ≡ layer_in (map view before.now) }
{
    Layer {
        layer: word_at(before, kind::LAYER),
        data_type: word_at(before, kind::DATATYPE),
    }
}

fn boundary_of<'a>(before: &[Record<'a>], xy: &'a [u8]) -> Boundary<'a>
    requires well { AllByRecursion IsWell (map view before.now) }
    requires body { IsBody ElementKind.Boundary (map view before.now) xy.now }
    ensures { boundary result.layer (points_in result.points) ∷ []
        ≡ shapes_in ElementKind.Boundary (map view before.now) xy.now }
{
    Boundary {
        layer: layer_of(before),
        points: Points { xy },
    }
}

fn path_of<'a>(before: &[Record<'a>], xy: &'a [u8]) -> Path<'a>
    requires well { AllByRecursion IsWell (map view before.now) }
    requires body { IsBody ElementKind.Path (map view before.now) xy.now }
    ensures { path result.layer (wire_of result) ∷ []
        ≡ shapes_in ElementKind.Path (map view before.now) xy.now }
{
    Path {
        layer: layer_of(before),
        path_type: word_if(before, kind::PATHTYPE),
        width: number_if(before, kind::WIDTH),
        begin_extension: number_if(before, kind::BGNEXTN),
        end_extension: number_if(before, kind::ENDEXTN),
        points: Points { xy },
    }
}

fn ref_of<'a>(before: &[Record<'a>], xy: &[u8]) -> Ref<'a>
    requires well { AllByRecursion IsWell (map view before.now) }
    requires body { IsBody ElementKind.Reference (map view before.now) xy.now }
    ensures { reference result.cell.now result.transform result.origin ∷ []
        ≡ shapes_in ElementKind.Reference (map view before.now) xy.now }
{
    Ref {
        cell: name_of(before),
        transform: transform_of(before),
        origin: point(xy),
    }
}

/// The three points of an array.
fn three_points(xy: &[u8]) -> [Point; 3]
    requires { length xy.now ≡ 24 }
    ensures value { result ≡ points_of xy.now }
    ensures stored { All IsStored result }
{
    let (first, rest) = xy.split_at(8);
    let (second, third) = rest.split_at(8);
    [point(first), point(second), point(third)]
}

/// Columns and rows of an array.
fn columns_and_rows(before: &[Record<'_>]) -> (u16, u16)
    requires well { AllByRecursion IsWell (map view before.now) }
    requires there { among (kinds_in (map view before.now)) kinds.COLROW ≡ true }
    ensures columns { result.0 ≡ columns_in (map view before.now) }
    ensures rows { result.1 ≡ rows_in (map view before.now) }
{
    let (columns, rows) = body_at(before, kind::COLROW).split_at(2);
    (word(columns), word(rows))
}

fn array_element_of<'a>(before: &[Record<'a>], xy: &[u8]) -> Array<'a>
    requires well { AllByRecursion IsWell (map view before.now) }
    requires body { IsBody ElementKind.Array (map view before.now) xy.now }
    ensures { array result.cell.now result.transform result.columns result.rows result.points ∷ []
        ≡ shapes_in ElementKind.Array (map view before.now) xy.now }
{
    let (columns, rows) = columns_and_rows(before);
    Array {
        cell: name_of(before),
        transform: transform_of(before),
        columns,
        rows,
        points: three_points(xy),
    }
}

/// Whether an element with these records before its points, which tell its layer, is kept.
fn is_kept(wanted: Wanted<'_>, before: &[Record<'_>]) -> bool
    requires well { AllByRecursion IsWell (map view before.now) }
    requires layer { among (kinds_in (map view before.now)) kinds.LAYER ≡ true }
    requires data_type { among (kinds_in (map view before.now)) kinds.DATATYPE ≡ true }
    ensures { result ≡ keeps wanted.entry (layer_in (map view before.now)) }
{
    is_wanted(wanted, layer_of(before))
}

/// The boundary with these records before its points, if it is kept.
fn boundary_if<'a>(wanted: Wanted<'_>, before: &[Record<'a>], xy: &'a [u8]) -> Option<Element<'a>>
    requires well { AllByRecursion IsWell (map view before.now) }
    requires body { IsBody ElementKind.Boundary (map view before.now) xy.now }
    ensures { shapes_of result ≡ kept_shapes (keeps wanted.entry) (shapes_in ElementKind.Boundary (map view before.now) xy.now) }
{
    if !is_kept(wanted, before) {
        return None;
    }
    Some(Element::Boundary(boundary_of(before, xy)))
}

/// The path with these records before its points, if it is kept.
fn path_if<'a>(
    alloc: Global,
    wanted: Wanted<'_>,
    before: &[Record<'a>],
    xy: &'a [u8],
) -> Result<Option<Element<'a>>, AllocError>
    requires well { AllByRecursion IsWell (map view before.now) }
    requires body { IsBody ElementKind.Path (map view before.now) xy.now }
    ensures { IfOk result (λ e. shapes_of e ≡ kept_shapes (keeps wanted.entry) (shapes_in ElementKind.Path (map view before.now) xy.now)) }
{
    if !is_kept(wanted, before) {
        return Ok(None);
    }
    let path = path_of(before, xy);
    Ok(Some(Element::Path(Box::new(alloc, path)?)))
}

/// The element with these records before its points, if it is kept. Texts, nodes and boxes are none.
pub fn element_of<'a>(
    alloc: Global,
    wanted: Wanted<'_>,
    element: ElementKind,
    before: &[Record<'a>],
    xy: &'a [u8],
) -> Result<Option<Element<'a>>, AllocError>
    requires well { AllByRecursion IsWell (map view before.now) }
    requires body { IsBody element (map view before.now) xy.now }
    ensures { IfOk result (λ e. shapes_of e ≡ kept_shapes (keeps wanted.entry) (shapes_in element (map view before.now) xy.now)) }
{
    match element {
        ElementKind::Boundary => Ok(boundary_if(wanted, before, xy)),
        ElementKind::Path => path_if(alloc, wanted, before, xy),
        ElementKind::Reference => {
            let reference = ref_of(before, xy);
            Ok(Some(Element::Ref(Box::new(alloc, reference)?)))
        }
        ElementKind::Array => {
            let array = array_element_of(before, xy);
            Ok(Some(Element::Array(Box::new(alloc, array)?)))
        }
        ElementKind::Text | ElementKind::Node | ElementKind::Box => Ok(None),
    }
}
