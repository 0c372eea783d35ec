//! The places that a fill library says are filled.
ghost use Rattle.std.specs.Prelude.{◌≡◌, ◌&&◌, ◌||◌, ◌<◌, ℤ, true, length, map, IfNone, IfSome};
ghost use Rattle.std.specs.List.{flat_map};
ghost use Rattle.fill_state.specs.Filling.{is_filled};
ghost use Rattle.fill_raster.specs.Axes.{box_begin};
ghost use Rattle.fill_raster.specs.Lattice.{in_raster};
ghost use Rattle.gds_out.specs.FillContents.{corner_of};
ghost use Rattle.gds_out.specs.Laws.{raster_in};
ghost use Rattle.gds_join.specs.Reading.{corners_in, corners_of, is_point};
ghost use Rattle.gds_join.specs.steps.Far.{IsFar, origin_of, point, stands_at};
ghost use Rattle.gds_cells.specs.Designs.{elements_at};
ghost use Rattle.gds_cells.specs.Links.{singles};
ghost use Rattle.gds_grammar.specs.Values.{cell_of, contents_of, shape_of};

use fill_base::Place;
use fill_state::Filled;
use fill_text::Rules;
use gds_cells::{Link, array_link, reference_link};
use gds_grammar::{Cells, Element, Library};

/// The place of the raster whose box has this lower left corner.
fn place_at(rules: &Rules, x: i64, y: i64) -> Option<Place>
    requires x { IsFar x }
    requires y { IsFar y }
    ensures some { IfSome result (λ p. (in_raster (raster_in rules.now) p.i p.j ≡ true) × (box_begin (raster_in rules.now).across p.i ≡ x) × (box_begin (raster_in rules.now).up p.j ≡ y)) }
    ensures none { IfNone result ((i j : ℤ) → in_raster (raster_in rules.now) i j ≡ true → box_begin (raster_in rules.now).across i ≡ x → box_begin (raster_in rules.now).up j ≡ y → ⊥) }
{
    let i = (x - rules.origin_x()).div_euclid(rules.step_x());
    let j = (y - rules.origin_y()).div_euclid(rules.step_y());
    let raster = rules.raster();
    if !raster.has(Place { i, j }) {
        return None;
    }
    let corner = raster.box_of(Place { i, j });
    if corner.x1() != x {
        return None;
    }
    if corner.y1() != y {
        return None;
    }
    Some(Place { i, j })
}

/// Fills the place whose box has this lower left corner, if there is one.
fn fill_at(rules: &Rules, filled: &mut Filled, x: i64, y: i64)
    requires raster { filled.old.raster ≡ raster_in rules.now }
    requires x { IsFar x }
    requires y { IsFar y }
    ensures raster { filled.new.raster ≡ filled.old.raster }
    ensures filled { (i j : ℤ) → is_filled filled.new i j ≡ (is_filled filled.old i j || (in_raster (raster_in rules.now) i j && is_point (corner_of (raster_in rules.now) i j) (point x y))) }
{
    if let Some(place) = place_at(rules, x, y) {
        let tile = filled.raster().tile_of(place);
        filled.set(tile, place);
    }
}

/// Fills the places at whose corners the single references of a link stand.
fn fill_link(rules: &Rules, filled: &mut Filled, link: &Link)
    requires raster { filled.old.raster ≡ raster_in rules.now }
    ensures raster { filled.new.raster ≡ filled.old.raster }
    ensures filled { (i j : ℤ) → is_filled filled.new i j ≡ (is_filled filled.old i j || stands_at (raster_in rules.now) (map origin_of (singles link.now)) i j) }
{
    let count = link.columns * link.rows;
    for index in 0..count {
        let at = link.single(index);
        fill_at(rules, filled, at.x, at.y);
    }
}

/// Fills the places at whose corners the single references of an element stand.
fn fill_element(rules: &Rules, filled: &mut Filled, element: &Element<'_>)
    requires raster { filled.old.raster ≡ raster_in rules.now }
    ensures raster { filled.new.raster ≡ filled.old.raster }
    ensures filled { (i j : ℤ) → is_filled filled.new i j ≡ (is_filled filled.old i j || stands_at (raster_in rules.now) (corners_of (shape_of element.now)) i j) }
{
    match element {
        Element::Ref(reference) => {
            if let Ok(link) = reference_link(0, reference) {
                fill_link(rules, filled, &link);
            }
        }
        Element::Array(array) => {
            if let Ok(link) = array_link(0, array) {
                fill_link(rules, filled, &link);
            }
        }
        Element::Boundary(_) => {}
        Element::Path(_) => {}
    }
}

/// Fills the places at whose corners the single references of some elements stand.
fn fill_elements(rules: &Rules, filled: &mut Filled, elements: &[Element<'_>])
    requires raster { filled.old.raster ≡ raster_in rules.now }
    ensures raster { filled.new.raster ≡ filled.old.raster }
    ensures filled { (i j : ℤ) → is_filled filled.new i j ≡ (is_filled filled.old i j || stands_at (raster_in rules.now) (flat_map corners_of (map shape_of elements.now)) i j) }
{
    for element in elements {
        fill_element(rules, filled, element);
    }
}

/// The elements of the cell at the index.
pub(crate) fn elements_at<'a, 'b>(cells: &'a Cells<'b>, index: usize) -> &'a [Element<'b>]
    requires { index < length cells.now.entries }
    ensures { map shape_of result.now ≡ elements_at (map cell_of cells.now.entries) index }
{
    let (_, elements) = cells.get_index(index).unwrap();
    elements.as_slice()
}

/// Fills the places at whose corners the single references of a library stand.
pub(crate) fn fill_library_places(rules: &Rules, filled: &mut Filled, library: &Library<'_>)
    requires raster { filled.old.raster ≡ raster_in rules.now }
    ensures raster { filled.new.raster ≡ filled.old.raster }
    ensures filled { (i j : ℤ) → is_filled filled.new i j ≡ (is_filled filled.old i j || stands_at (raster_in rules.now) (corners_in (contents_of library.now)) i j) }
{
    let cells = library.cells.len();
    for index in 0..cells {
        fill_elements(rules, filled, elements_at(&library.cells, index));
    }
}
