//! How many single references a library stands for.
ghost use Rattle.std.specs.Prelude.{◌≡◌, ◌↔◌, ◌+◌, ◌≤◌, length, map, min, IsTrue};
ghost use Rattle.std.specs.List.{flat_map};
ghost use Rattle.gds_grammar.specs.Values.{contents_of, shape_of};
ghost use Rattle.gds_join.specs.Reading.{corners_in, corners_of};

use crate::reading::elements_at;
use gds_cells::{array_link, reference_link};
use gds_grammar::{Element, Library};

/// How many places a raster may have.
const MOST_PLACES: u32 = 16_777_216;

/// How many single references an element stands for: none where flattening refuses it.
fn references_of(element: &Element<'_>) -> u32
    ensures { result ≡ length (corners_of (shape_of element.now)) }
{
    match element {
        Element::Ref(reference) => match reference_link(0, reference) {
            Ok(_) => 1,
            Err(_) => 0,
        },
        Element::Array(array) => match array_link(0, array) {
            Ok(link) => link.columns * link.rows,
            Err(_) => 0,
        },
        Element::Boundary(_) | Element::Path(_) => 0,
    }
}

/// How many single references some elements stand for, with those before them, or 2^32 - 1 where there are more.
fn references_with(before: u32, elements: &[Element<'_>]) -> u32
    ensures { result ≡ min (before + length (flat_map corners_of (map shape_of elements.now))) 4294967295 }
{
    let mut count = before;
    for element in elements {
        count = count.saturating_add(references_of(element));
    }
    count
}

/// Whether a library stands for no more single references than a raster may have places.
pub(crate) fn has_few_references(library: &Library<'_>) -> bool
    ensures { IsTrue result ↔ (length (corners_in (contents_of library.now)) ≤ 16777216) }
{
    let mut count = 0;
    for index in 0..library.cells.len() {
        count = references_with(count, elements_at(&library.cells, index));
    }
    count <= MOST_PLACES
}
