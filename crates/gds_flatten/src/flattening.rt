//! Flattening: what the top draws on some layers.

ghost use Rattle.std.specs.Prelude.{◌≡◌, ◌⊎◌, ◌&&◌, ◌<◌, ◌≤◌, ℤ, true, false, ℤ, List, length, IfOk, IfErr};
ghost use Rattle.std.specs.List.{flat_map};
ghost use Rattle.std.specs.Vec.{vec_items};
ghost use Rattle.fill_base.specs.Coordinates.{IsInRange};
ghost use Rattle.fill_base.specs.Squares.{squares};
ghost use Rattle.fill_region.specs.Runs.{holds, AreRuns};
ghost use Rattle.fill_region.specs.Squares.{covered};
ghost use Rattle.gds_grammar.specs.Values.{contents_of};
ghost use Rattle.gds_cells.specs.Copies.{Copy, drawn, AllStayInRange};
ghost use Rattle.gds_cells.specs.Designs.{copies_of};
ghost use Rattle.gds_cells.specs.steps.Counting.{AreCounted};
ghost use Rattle.gds_cells.specs.steps.Walks.{top_copies};
ghost use Rattle.gds_flatten.specs.Flattening.{IsCountable, IsCountableOn, IsRefused, IsRefusedOn};
ghost use Rattle.gds_flatten.specs.steps.Framing.{IsFineIf, IsTight, in_if};
ghost use Rattle.gds_flatten.specs.steps.Roots.{roots_copies, AreRooted};

use crate::design::Design;
use crate::found::{Found, Framed};
use crate::framed::{clipped, extent_at, find_turns};
use crate::reached::{Counted, reached_by};
use crate::walk::top_turns;
use fill_base::{Layer, Rect};
use fill_region::Region;
use gds_cells::{FlattenError, TOO_MANY, number_at};
use gds_grammar::Library;
use gds_shape::{Bounds, is_in_range};
use std::alloc::Global;
use std::thread::Threads;

impl<'a, 'b> Counted<'a, 'b> {
    /// All that the top draws.
    fn whole(self, alloc: Global) -> Result<Design<'a, 'b>, FlattenError>
        requires { AreCounted self.cells.items self.counts.items 256 self.top }
        ensures counted { IfOk result (λ d. AreRooted d.cells.items d.counts.items d.roots.items) }
        ensures same { IfOk result (λ d. roots_copies d.cells.items d.roots.items ≡ top_copies self.entry.cells.items self.entry.top) }
        ensures refused { IfErr result (λ e. (e ≡ FlattenError.Memory)
            ⊎ ((e ≡ FlattenError.TooManyShapes) × (4000000 < length (top_copies self.entry.cells.items self.entry.top)))) }
    {
        let number = number_at(&self.counts, self.top);
        if number >= TOO_MANY {
            return Err(FlattenError::TooManyShapes);
        }
        let mut roots = Vec::new(alloc);
        roots.push(top_turns(self.top))?;
        Ok(Design {
            cells: self.cells,
            counts: self.counts,
            roots,
            number,
        })
    }
}

/// Whether the extent lies within the coordinates.
fn is_inside(extent: Option<Bounds>) -> bool
    requires { IsFineIf extent }
    ensures yes { result ≡ true → (cs : List Copy) → IsTight cs extent → AllStayInRange cs }
    ensures no { result ≡ false → (cs : List Copy) → IsTight cs extent → AllStayInRange cs → ⊥ }
    ensures range { result ≡ true → (x y : ℤ) → in_if extent x y ≡ true → IsInRange x y }
{
    match extent {
        Some(extent) => is_in_range(&extent),
        None => true,
    }
}

/// What the top draws on the layers within a frame, as rectangles that the frame holds. Copies of cells whose
/// extent doesn't meet the frame are not entered, so a part of a chip costs its part of the copies.
///
/// # Errors
/// Those of `flatten_parts`, but that only the copies count for `TooManyShapes` whose extents meet the
/// frame: more than 4,000,000 of them. `OutOfRange` is answered wherever the copy lies.
pub fn flatten_within(
    rt: &(impl Threads + Sync),
    alloc: Global,
    library: &Library<'_>,
    top: &[u8],
    layers: &[Layer],
    frame: &Rect,
) -> Result<Vec<Rect>, FlattenError>
    ensures fine { IfOk result (λ v. IsCountableOn (contents_of library.now).cells top.now layers.now frame.now) }
    ensures inside { IfOk result (λ v. AllStayInRange (copies_of (contents_of library.now).cells top.now layers.now)) }
    ensures squares { IfOk result (λ v. (x y : ℤ) → covered v.items x y
        ≡ (drawn (copies_of (contents_of library.now).cells top.now layers.now) x y && squares frame.now x y)) }
    ensures range { IfOk result (λ v. (x y : ℤ) → drawn (copies_of (contents_of library.now).cells top.now layers.now) x y ≡ true → IsInRange x y) }
    ensures refused { IfErr result (λ e. IsRefusedOn (contents_of library.now).cells top.now layers.now frame.now e) }
{
    let built = reached_by(rt, alloc, library, top, layers)?;
    let reached = built.without_bare();
    let extents = reached.extents(alloc)?;
    let counted = reached.counted(alloc)?;
    let Counted { cells, counts, top } = counted;
    let framed = Framed {
        cells: &cells,
        counts: &counts,
        extents: &extents,
        frame,
    };
    let mut found = Found::new(alloc);
    find_turns(&framed, &top_turns(top), &mut found)?;
    if !is_inside(extent_at(&extents, top)) {
        return Err(FlattenError::OutOfRange);
    }
    let design = Design {
        cells,
        counts,
        roots: found.roots,
        number: found.inside,
    };
    let mut rects = design.parts(rt, alloc)?;
    rects.push(found.rects)?;
    let kept = clipped(alloc, &rects, frame)?;
    Ok(kept)
}

/// The rectangles that the top draws on the layers, in parts, as several threads carry them: those of
/// all parts together are what is drawn. All lengths are database units (Calma GDSII Stream Format
/// Manual, release 6.0, with this project's profile).
///
/// # Errors
/// Of the cells that the top reaches alone, the first of these: `NoTop`; `MissingCell`; `Cycle`;
/// `TooDeep`; the first fault of a reference, or of a shape of one of the layers, in the order
/// of the file; `TooManyShapes` above 4,000,000 copies of shapes of all layers together; `OutOfRange`
/// where a copy passes the coordinates from -2^30 to 2^30. Or `Memory` where memory is refused.
pub fn flatten_parts(
    rt: &(impl Threads + Sync),
    alloc: Global,
    library: &Library<'_>,
    top: &[u8],
    layers: &[Layer],
) -> Result<Vec<Vec<Rect>>, FlattenError>
    ensures fine { IfOk result (λ v. IsCountable (contents_of library.now).cells top.now layers.now) }
    ensures inside { IfOk result (λ v. AllStayInRange (copies_of (contents_of library.now).cells top.now layers.now)) }
    ensures squares { IfOk result (λ v. (x y : ℤ) → covered (flat_map vec_items v.items) x y
        ≡ drawn (copies_of (contents_of library.now).cells top.now layers.now) x y) }
    ensures refused { IfErr result (λ e. IsRefused (contents_of library.now).cells top.now layers.now e) }
{
    let reached = reached_by(rt, alloc, library, top, layers)?;
    let counted = reached.counted(alloc)?;
    let design = counted.whole(alloc)?;
    design.parts(rt, alloc)
}

/// The squares that the top draws on the layers, as a region.
///
/// # Errors
/// Those of `flatten_parts`.
pub fn flatten(
    rt: &(impl Threads + Sync),
    alloc: Global,
    library: &Library<'_>,
    top: &[u8],
    layers: &[Layer],
) -> Result<Region, FlattenError>
    ensures region { IfOk result AreRuns }
    ensures fine { IfOk result (λ r. IsCountable (contents_of library.now).cells top.now layers.now) }
    ensures inside { IfOk result (λ r. AllStayInRange (copies_of (contents_of library.now).cells top.now layers.now)) }
    ensures squares { IfOk result (λ r. (x y : ℤ) → holds r x y
        ≡ drawn (copies_of (contents_of library.now).cells top.now layers.now) x y) }
    ensures refused { IfErr result (λ e. IsRefused (contents_of library.now).cells top.now layers.now e) }
{
    let parts = flatten_parts(rt, alloc, library, top, layers)?;
    let rects = parts.concat(alloc)?;
    let region = Region::from_rects(alloc, &rects)?;
    Ok(region)
}
