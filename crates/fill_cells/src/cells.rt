//! The area that rectangles cover in each cell of a row.
ghost use Rattle.std.specs.Prelude.{◌≤ℤ◌, ◌<ℤ◌, IfOk};
ghost use Rattle.fill_base.specs.Coordinates.{lowest, highest};
ghost use Rattle.fill_region.specs.Squares.{covered};
ghost use Rattle.fill_cells.specs.Mesh.{AreCuts, AreRowAreas};

use crate::area::covered_area;
use crate::rows::listed;
use crate::shares::share_out;
use fill_base::Rect;
use std::alloc::{AllocError, Global};

/// How many unit squares of each cell of a row some rectangle covers, from the left. The cuts across, and those between which the row
/// lies, are in database units. The rectangles are shared out to the cells, so that each costs a step for each cell that it meets, and
/// few lie in a cell. The lists of the cells are left in `lists`, whatever was in them before: given to the next row, they save it their memory.
///
/// # Errors
/// `AllocError` where memory is refused.
pub fn row_areas(
    alloc: Global,
    lists: &mut Vec<Vec<Rect>>,
    rects: Vec<Rect>,
    across: &[i64],
    from: i64,
    to: i64,
) -> Result<Vec<i64>, AllocError>
    requires across { AreCuts across.now }
    requires low { lowest ≤ℤ from }
    requires ordered { from <ℤ to }
    requires high { to ≤ℤ highest }
    ensures { IfOk result (λ v. AreRowAreas (covered rects.items) across.now from to v.items) }
{
    let row = Rect::from_edges(across[0], from, across[across.len() - 1], to);
    let listed = listed(alloc, rects, &row)?;
    share_out(alloc, lists, &row, across, &listed)?;
    let mut areas = Vec::with_capacity(alloc, lists.len())?;
    let mut towers = Vec::new(alloc);
    for i in 0..lists.len() {
        let part = Rect::from_edges(across[i], from, across[i + 1], to);
        let area = covered_area(alloc, &mut towers, &mut lists[i], &part)?;
        areas.push(area)?;
    }
    Ok(areas)
}
