//! A design after the edits of a script, made all at once.
ghost use Rattle.std.specs.Prelude.{◌≡◌, ◌||◌, ◌&&◌, not, ℤ, map, IfErr, IfOk};
ghost use Rattle.fill_region.specs.Runs.{holds};
ghost use Rattle.fill_region.specs.Squares.{covered};
ghost use Rattle.fill_text.specs.Script.{change_of};
ghost use Rattle.fill_job.specs.Basis.{layers_in};
ghost use Rattle.fill_parts.specs.PartFill.{layers_with};
ghost use Rattle.densfill_engine.specs.Laws.{no_layers};
ghost use Rattle.densfill_engine.specs.Metal.{is_added, is_cut, last_change};

use crate::inputs::Design;
use crate::metal::{covered_over, patch_of};
use crate::refusal::RunFault;
use fill_base::Rect;
use fill_region::Region;
use fill_text::Edit;
use std::alloc::{AllocError, Global};

/// The rectangles that edits keep out.
fn rects_kept(alloc: Global, edits: &[Edit]) -> Result<Vec<Rect>, AllocError>
    ensures { IfOk result (λ v. (x y : ℤ) → covered v.items x y ≡ (layers_with edits.now no_layers).keep x y) }
{
    let mut rects = Vec::new(alloc);
    for edit in edits {
        match edit {
            Edit::Keep(rect) => rects.push(*rect)?,
            Edit::Add(_) => {}
            Edit::Cut(_) => {}
        }
    }
    Ok(rects)
}

/// Keep-outs, and what edits keep out.
fn keep_with(alloc: Global, keep: &Region, edits: &[Edit]) -> Result<Region, AllocError>
    ensures { IfOk result (λ r. (x y : ℤ) → holds r x y ≡ holds keep.now x y || (layers_with edits.now no_layers).keep x y) }
{
    let rects = rects_kept(alloc, edits)?;
    let kept = Region::from_rects(alloc, &rects)?;
    keep.union(alloc, &kept)
}

/// Metal, with what edits leave of the squares that they touch.
fn metal_with(alloc: Global, metal: &Region, edits: &[Edit]) -> Result<Region, AllocError>
    ensures { IfOk result (λ r. (x y : ℤ) → holds r x y
        ≡ (holds metal.now x y && not (is_cut (last_change (map change_of edits.now) x y))) || is_added (last_change (map change_of edits.now) x y)) }
{
    let patch = patch_of(alloc, edits)?;
    covered_over(alloc, metal, &patch.cut, &patch.metal)
}

/// What a design gives once the edits are made, as one after another, in their order, would leave it.
pub(crate) fn edited(alloc: Global, design: Design, edits: &[Edit]) -> Result<Design, RunFault>
    ensures layers { IfOk result (λ d. layers_in d.metal d.fill d.keep ≡ layers_with edits.now (layers_in design.metal design.fill design.keep)) }
    ensures units { IfOk result (λ d. d.units ≡ design.units) }
    ensures dates { IfOk result (λ d. d.dates ≡ design.dates) }
    ensures refused { IfErr result (λ e. e ≡ RunFault.Memory) }
{
    if edits.is_empty() {
        return Ok(design);
    }
    let metal = metal_with(alloc, &design.metal, edits)?;
    let keep = keep_with(alloc, &design.keep, edits)?;
    Ok(Design {
        metal,
        fill: design.fill,
        keep,
        units: design.units,
        dates: design.dates,
    })
}
