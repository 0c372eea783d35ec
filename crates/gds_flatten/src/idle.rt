//! What cells have that draws nothing on the layers. It is dropped before the walk, which would pass it over in each copy of its cell.

ghost use Rattle.std.specs.Prelude.{◌≡◌, filter};
ghost use Rattle.std.specs.List.{AllZip};
ghost use Rattle.gds_flatten.specs.steps.Idle.{is_drawn, IsBusy, IsFilled};

use gds_cells::{Cell, Shape, number_at};

/// Drops the cell's links to cells without copies.
fn drop_idle_from(cell: &mut Cell<'_, '_>, counts: &[usize])
    ensures { IsBusy counts.now cell.old cell.new }
{
    cell.links.retain(|link| 0 < number_at(counts, link.cell));
}

/// Drops all links to cells without copies, by the cells' counts.
pub fn drop_idle(cells: &mut [Cell<'_, '_>], counts: &[usize])
    ensures { AllZip (IsBusy counts.now) cells.old cells.new }
{
    'cells: for cell in cells.iter_mut() {
        drop_idle_from(cell, counts);
    }
}

/// Drops the shapes that have no extent.
fn drop_bare_shapes(shapes: &mut Vec<Shape<'_, '_>>)
    ensures { shapes.new.items ≡ filter is_drawn shapes.old.items }
{
    shapes.retain(|shape| shape.filled.extent().is_some());
}

/// Drops the cell's shapes that have no extent.
fn drop_bare_from(cell: &mut Cell<'_, '_>)
    ensures { IsFilled cell.old cell.new }
{
    'chunks: for chunk in cell.shapes.iter_mut() {
        drop_bare_shapes(chunk);
    }
}

/// Drops all shapes that have no extent.
pub fn drop_bare(cells: &mut [Cell<'_, '_>])
    ensures { AllZip IsFilled cells.old cells.new }
{
    'cells: for cell in cells.iter_mut() {
        drop_bare_from(cell);
    }
}
