//! The cells that a top reaches.

ghost use Rattle.std.specs.Prelude.{◌≡◌, ◌⊎◌, ◌<◌, ◌≤◌, List, All, Option, map, filter, IfOk, IfErr};
ghost use Rattle.gds_shape.specs.declared.bounds.Bounds.{Bounds};
ghost use Rattle.gds_grammar.specs.Values.{cell_of, contents_of};
ghost use Rattle.gds_cells.specs.Copies.{copies};
ghost use Rattle.gds_cells.specs.Designs.{index_of};
ghost use Rattle.gds_cells.specs.steps.Counting.{AreCounted};
ghost use Rattle.gds_cells.specs.steps.Walks.{top_copies};
ghost use Rattle.gds_flatten.specs.Flattening.{HasTop};
ghost use Rattle.gds_flatten.specs.steps.Framing.{IsFineIf, AreHeld};
ghost use Rattle.gds_flatten.specs.steps.Idle.{is_full, AreFull};
ghost use Rattle.gds_flatten.specs.steps.Reached.{IsArranged, AreReached, IsEarly};

use crate::extents::extents_of;
use crate::idle::{drop_bare, drop_idle};
use fill_base::Layer;
use gds_cells::{Cell, FlattenError, cells_of, counts_of, graph_of, index_of, survey};
use gds_grammar::{Cells, Library};
use gds_shape::Bounds;
use std::alloc::{AllocError, Global};
use std::thread::Threads;

/// The cells that a top reaches, in an order.
#[derive(Drop)]
pub struct Reached<'a, 'b> {
    /// The cells of the library; those that the top doesn't reach are empty.
    pub cells: Vec<Cell<'a, 'b>>,
    /// The indices of those that it reaches, each behind all that the cell refers to.
    pub order: Vec<usize>,
    /// The index of the top.
    pub top: usize,
}

/// The cells that a top reaches, with the numbers of their copies.
#[derive(Drop)]
pub struct Counted<'a, 'b> {
    /// The cells of the library; those that the top doesn't reach are empty.
    pub cells: Vec<Cell<'a, 'b>>,
    /// How many copies each draws.
    pub counts: Vec<usize>,
    /// The index of the top.
    pub top: usize,
}

/// The index of the top.
fn top_of(cells: &Cells<'_>, top: &[u8]) -> Result<usize, FlattenError>
    ensures found { IfOk result (λ c. HasTop (map cell_of cells.now.entries) top.now × (c ≡ index_of (map cell_of cells.now.entries) top.now)) }
    ensures refused { IfErr result (λ e. (e ≡ FlattenError.NoTop) × (HasTop (map cell_of cells.now.entries) top.now → ⊥)) }
{
    let index = index_of(cells, top);
    if index < cells.len() {
        Ok(index)
    } else {
        Err(FlattenError::NoTop)
    }
}

/// The cells that the top reaches, built on the layers.
pub fn reached_by<'a, 'b>(
    rt: &(impl Threads + Sync),
    alloc: Global,
    library: &'a Library<'b>,
    top: &[u8],
    layers: &[Layer],
) -> Result<Reached<'a, 'b>, FlattenError>
    ensures arranged { IfOk result (λ d. IsArranged d.cells.items d.order.items d.top) }
    ensures reached { IfOk result (λ d. AreReached (contents_of library.now).cells top.now layers.now d.cells.items d.top) }
    ensures refused { IfErr result (IsEarly (contents_of library.now).cells top.now layers.now) }
{
    let cells = &library.cells;
    let top = top_of(cells, top)?;
    let graph = graph_of(alloc, cells)?;
    let found = survey(alloc, &graph, top)?;
    let built = cells_of(rt, alloc, cells, &graph, &found.steps, layers)?;
    Ok(Reached {
        cells: built,
        order: found.order,
        top,
    })
}

impl<'a, 'b> Reached<'a, 'b> {
    /// The same without shapes that have no extent: no frame meets those.
    pub fn without_bare(self) -> Reached<'a, 'b>
        requires { IsArranged self.cells.items self.order.items self.top }
        ensures arranged { IsArranged result.cells.items result.order.items result.top }
        ensures full { AreFull result.cells.items }
        ensures same { top_copies result.cells.items result.top ≡ filter is_full (top_copies self.entry.cells.items self.entry.top) }
    {
        let Reached {
            mut cells,
            order,
            top,
        } = self;
        drop_bare(&mut cells);
        Reached { cells, order, top }
    }

    /// How far what each cell draws goes.
    pub fn extents(&self, alloc: Global) -> Result<Vec<Option<Bounds>>, FlattenError>
        requires { IsArranged self.now.cells.items self.now.order.items self.now.top }
        ensures fine { IfOk result (λ v. All IsFineIf v.items) }
        ensures held { IfOk result (λ v. AreHeld self.now.cells.items v.items 256 self.now.top) }
        ensures refused { IfErr result (λ e. e ≡ FlattenError.Memory) }
    {
        extents_of(alloc, &self.cells, &self.order)
    }

    /// The same with the numbers of their copies, and without links to cells that draw nothing, which the walk would pass over copy by copy.
    pub fn counted(self, alloc: Global) -> Result<Counted<'a, 'b>, AllocError>
        requires { IsArranged self.cells.items self.order.items self.top }
        ensures counted { IfOk result (λ d. AreCounted d.cells.items d.counts.items 256 d.top) }
        ensures same { IfOk result (λ d. top_copies d.cells.items d.top ≡ top_copies self.entry.cells.items self.entry.top) }
        ensures held { IfOk result (λ d. (extents : List (Option Bounds)) → AreHeld self.entry.cells.items extents 256 self.entry.top → AreHeld d.cells.items extents 256 d.top) }
        ensures full { IfOk result (λ d. AreFull self.entry.cells.items → AreFull d.cells.items) }
        ensures top { IfOk result (λ d. d.top ≡ self.entry.top) }
    {
        let counts = counts_of(alloc, &self.cells, &self.order)?;
        let Reached {
            mut cells,
            order: _order,
            top,
        } = self;
        drop_idle(&mut cells, &counts);
        Ok(Counted { cells, counts, top })
    }
}
