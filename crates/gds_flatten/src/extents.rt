//! How far what each cell draws goes, with all that it refers to.

ghost use Rattle.std.specs.Prelude.{◌≡◌, ◌⊎◌, ◌↔◌, ℕ, ◌*◌, ◌<◌, ◌≤◌, ◌^◌, List, length, map, Some, All, IfOk, IfErr};
ghost use Rattle.std.specs.List.{flat_map};
ghost use Rattle.std.specs.Vec.{vec_items};
ghost use Rattle.gds_cells.specs.Copies.{Copy, own_copy, carry_copy};
ghost use Rattle.gds_cells.specs.Graphs.{Graph, IsDeep, item};
ghost use Rattle.gds_cells.specs.Links.{single};
ghost use Rattle.gds_cells.specs.Placements.{carried_bounds};
ghost use Rattle.gds_cells.specs.steps.Built.{own_of};
ghost use Rattle.gds_cells.specs.steps.Counting.{IsTied};
ghost use Rattle.gds_flatten.specs.steps.Framing.{extent_at, IsFine, IsFineIf, IsAround, IsHeld, IsRight, IsTight, Fits, FitAll, AllFit, square, links_draw, cell_draws, AreRightlyHeld, IsExtentOf};
ghost use Rattle.gds_cells.specs.steps.Prepared.{IsPart};
ghost use Rattle.gds_cells.specs.steps.Searches.{IsOrdered};

use crate::corners::{are_close, corners_extent};
use crate::framed::extent_at;
use gds_cells::{Cell, FlattenError, Link, Shape};
use gds_shape::{Bounds, joined};
use std::alloc::Global;

/// The least extent around both.
fn joined_if(a: Option<Bounds>, b: Option<Bounds>) -> Option<Bounds>
    requires first { IsFineIf a }
    requires second { IsFineIf b }
    ensures fine { IsFineIf result }
    ensures first { IsAround result a }
    ensures second { IsAround result b }
    ensures tight { (w : Bounds) → Fits w result ↔ (Fits w a × Fits w b) }
{
    match (a, b) {
        (Some(a), Some(b)) => Some(joined(a, b)),
        (Some(a), None) => Some(a),
        (None, b) => b,
    }
}

/// The extent around what was there before and the shapes.
fn with_shapes(before: Option<Bounds>, shapes: &[Shape<'_, '_>]) -> Option<Bounds>
    requires { IsFineIf before }
    ensures fine { IsFineIf result }
    ensures kept { IsAround result before }
    ensures held { IsHeld (map own_copy (own_of shapes.now)) result }
    ensures tight { (w : Bounds) → Fits w result ↔ (Fits w before × FitAll w (map own_copy (own_of shapes.now))) }
{
    let mut extent = before;
    'shapes: for shape in shapes {
        extent = joined_if(extent, shape.filled.extent());
    }
    extent
}

/// The extent of the shapes of all chunks.
fn own_extent(chunks: &[Vec<Shape<'_, '_>>]) -> Option<Bounds>
    ensures fine { IsFineIf result }
    ensures right { IsRight (map own_copy (own_of (flat_map vec_items chunks.now))) result }
{
    let mut extent = None;
    'chunks: for chunk in chunks {
        extent = with_shapes(extent, chunk);
    }
    extent
}

/// The extent of all single references of the link to a cell of this extent: that of the four corners.
fn link_extent(link: &Link, extent: &Bounds) -> Result<Bounds, FlattenError>
    requires { IsFine extent.now }
    ensures fine { IfOk result IsFine }
    ensures refused { IfErr result (λ e. (e ≡ FlattenError.Memory) ⊎ ((m : ℕ) → m ≤ 511 → IsPart (square m) extent.now → ⊥)) }
    ensures around { IfOk result (λ b. (k : ℕ) → k < link.now.columns * link.now.rows → IsAround (Some b) (Some (carried_bounds (single link.now k) extent.now))) }
    ensures tight { IfOk result (λ b. (w : Bounds) → IsPart w b
        ↔ ((k : ℕ) → k < link.now.columns * link.now.rows → IsPart w (carried_bounds (single link.now k) extent.now))) }
{
    let all = corners_extent(link, 0, link.columns - 1, 0, link.rows - 1, extent);
    if are_close(&all) {
        Ok(all)
    } else {
        Err(FlattenError::OutOfRange)
    }
}

/// The extent around what was there before and what a link draws to a cell of the other extent.
fn with_link(
    before: Option<Bounds>,
    link: &Link,
    below: Option<Bounds>,
) -> Result<Option<Bounds>, FlattenError>
    requires before { IsFineIf before }
    requires below { IsFineIf below }
    ensures fine { IfOk result IsFineIf }
    ensures kept { IfOk result (λ o. IsAround o before) }
    ensures refused { IfErr result (λ e. (e ≡ FlattenError.Memory) ⊎ ((m : ℕ) → m ≤ 511 → Fits (square m) below → ⊥)) }
    ensures held { IfOk result (λ o. (k : ℕ) → k < link.now.columns * link.now.rows → (cs : List Copy) → IsHeld cs below
        → IsHeld (map (carry_copy (single link.now k)) cs) o) }
    ensures tight { IfOk result (λ o. (cs : List Copy) → IsTight cs below → (w : Bounds) → Fits w o
        ↔ (Fits w before × ((k : ℕ) → k < link.now.columns * link.now.rows → FitAll w (map (carry_copy (single link.now k)) cs)))) }
{
    let Some(extent) = below else {
        return Ok(before);
    };
    let all = link_extent(link, &extent)?;
    Ok(joined_if(before, Some(all)))
}

/// The extent of what the links draw, by the extents of the cells that they refer to.
fn links_extent(links: &[Link], extents: &[Option<Bounds>]) -> Result<Option<Bounds>, FlattenError>
    requires { All IsFineIf extents.now }
    ensures fine { IfOk result IsFineIf }
    ensures refused { IfErr result (λ e. (e ≡ FlattenError.Memory) ⊎ ((m : ℕ) → m ≤ 511 → AllFit (square m) extents.now links.now → ⊥)) }
    ensures held { IfOk result (λ o. (below : ℕ → List Copy) → AreRightlyHeld below extents.now links.now → IsRight (links_draw below links.now) o) }
{
    let mut extent = None;
    'links: for link in links {
        extent = with_link(extent, link, extent_at(extents, link.cell))?;
    }
    Ok(extent)
}

/// The extent of what the cell draws, by the extents of the cells that it refers to.
fn extent_cell(
    cell: &Cell<'_, '_>,
    extents: &[Option<Bounds>],
) -> Result<Option<Bounds>, FlattenError>
    requires { All IsFineIf extents.now }
    ensures fine { IfOk result IsFineIf }
    ensures refused { IfErr result (λ e. (e ≡ FlattenError.Memory) ⊎ ((m : ℕ) → m ≤ 511 → AllFit (square m) extents.now cell.now.links.items → ⊥)) }
    ensures held { IfOk result (λ o. (below : ℕ → List Copy) → AreRightlyHeld below extents.now cell.now.links.items → IsRight (cell_draws below cell.now) o) }
{
    let own = own_extent(&cell.shapes);
    let links = links_extent(&cell.links, extents)?;
    Ok(joined_if(own, links))
}

/// The extents of the cells of the order, each at the cell's index.
///
/// # Errors
/// `OutOfRange` where a cell goes farther than chains of 256 references can bring back, or `Memory` where memory is refused.
pub fn extents_of(
    alloc: Global,
    cells: &[Cell<'_, '_>],
    order: &[usize],
) -> Result<Vec<Option<Bounds>>, FlattenError>
    requires within { (q : ℕ) → q < length order.now → item order.now q < length cells.now }
    requires few { length cells.now < 2 ^ 62 }
    ensures fine { IfOk result (λ v. All IsFineIf v.items) }
    ensures refused { IfErr result (λ e. (e ≡ FlattenError.Memory) ⊎ ((g : Graph) → IsOrdered g order.now
        → ((q : ℕ) → q < length order.now → IsTied g cells.now (item order.now q))
        → ((q : ℕ) → q < length order.now → IsDeep g 256 (item order.now q) → ⊥) → ⊥)) }
    ensures right { IfOk result (λ v. (g : Graph) → IsOrdered g order.now
        → ((q : ℕ) → q < length order.now → IsTied g cells.now (item order.now q))
        → (q : ℕ) → q < length order.now → IsExtentOf g cells.now (item order.now q) (extent_at v.items (item order.now q))) }
{
    let mut extents = Vec::from_elem(alloc, None, cells.len())?;
    'cells: for cell in order {
        extents[*cell] = extent_cell(&cells[*cell], &extents)?;
    }
    Ok(extents)
}
