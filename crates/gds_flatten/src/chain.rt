//! Chains of single references, whose placements are composed once for all copies that they carry.

ghost use Rattle.std.specs.Prelude.{◌≡◌, ◌↔◌, ◌-◌, ◌≤◌, ℕ, List, All, IfSome, IsTrue, length};
ghost use Rattle.gds_cells.specs.steps.Counting.{AreCounted};
ghost use Rattle.gds_cells.specs.steps.Ranges.{IsWithin};
ghost use Rattle.gds_flatten.specs.steps.Chains.{HasOnly, LeadsTo};

use crate::walk::cell_at;
use gds_cells::{Cell, Link, Placement, Shape};

/// A cell that draws all that another one above it does.
#[derive(Clone, Copy)]
pub struct Chain {
    /// Its index.
    pub cell: usize,
    /// How the references from the one above carry it.
    pub placement: Placement,
    /// How many cells the chains from it on may have.
    pub depth: u32,
}

/// Whether no chunk has a shape.
fn are_bare(chunks: &[Vec<Shape<'_, '_>>]) -> bool
    ensures { IsTrue result ↔ All (λ chunk. length chunk.items ≡ 0) chunks.now }
{
    chunks.iter().all(|chunk| chunk.is_empty())
}

/// The reference of a cell that has no shape and nothing but it, a single one.
fn only_link<'s>(cell: &'s Cell<'_, '_>) -> Option<&'s Link>
    ensures { IfSome result (λ l. HasOnly cell.now l.now) }
{
    if cell.links.len() != 1 || !are_bare(&cell.shapes) {
        return None;
    }
    let link = &cell.links[0];
    if link.columns == 1 && link.rows == 1 {
        Some(link)
    } else {
        None
    }
}

impl Chain {
    /// The chain with one cell more, where its last cell has nothing but a single reference.
    fn longer(self, cells: &[Cell<'_, '_>]) -> Option<Chain>
        requires near { IsWithin 256 self.placement }
        ensures { IfSome result (λ chain. (counts : List ℕ) (depth index : ℕ) → LeadsTo cells.now counts depth index self.depth self.cell self.placement
            → LeadsTo cells.now counts depth index chain.depth chain.cell chain.placement) }
    {
        let cell = cell_at(cells, self.depth, self.cell)?;
        let link = only_link(cell)?;
        Some(Chain {
            cell: link.cell,
            placement: self.placement.after(&link.single(0)),
            depth: self.depth - 1,
        })
    }
}

/// The last cell of the chain of single references from the cell at the index on, by chains of so many cells.
pub fn chain_from(cells: &[Cell<'_, '_>], counts: &[usize], depth: u32, index: usize) -> Chain
    requires deep { depth ≤ 256 }
    requires counted { AreCounted cells.now counts.now depth index }
    ensures leads { LeadsTo cells.now counts.now depth index result.depth result.cell result.placement }
{
    let mut chain = Chain {
        cell: index,
        placement: Placement::shift(0, 0),
        depth,
    };
    for _ in 0..depth {
        match chain.longer(cells) {
            Some(longer) => chain = longer,
            None => return chain,
        }
    }
    chain
}
