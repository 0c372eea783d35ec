//! The metal that a script's edits leave of nothing.
ghost use Rattle.std.specs.Prelude.{◌≡◌, [], ◌∷◌, ◌||◌, ◌&&◌, not, ℤ, map, IfOk, IfSome};
ghost use Rattle.std.specs.List.{flat_map};
ghost use Rattle.std.specs.Vec.{vec_items};
ghost use Rattle.fill_region.specs.Runs.{holds};
ghost use Rattle.fill_text.specs.Script.{change_of};
ghost use Rattle.densfill_engine.specs.Metal.{AreAdded, is_added, is_cut, is_metal, last_change};
ghost use Rattle.fill_region.specs.Squares.{covered};

use fill_base::Rect;
use fill_region::Region;
use fill_report::OutOfMemory;
use fill_text::Edit;
use std::alloc::{AllocError, Global};

/// What a run of edits leaves of the squares that it touches: metal, or none.
#[derive(Drop)]
pub(crate) struct Patch {
    pub(crate) metal: Region,
    pub(crate) cut: Region,
}

/// The squares of `under` but for those of `hole`, and then those of `over`.
pub(crate) fn covered_over(
    alloc: Global,
    under: &Region,
    hole: &Region,
    over: &Region,
) -> Result<Region, AllocError>
    ensures { IfOk result (λ r. (x y : ℤ) → holds r x y ≡ (holds under.now x y && not (holds hole.now x y)) || holds over.now x y) }
{
    if hole.is_empty() {
        return under.union(alloc, over);
    }
    let left = under.minus(alloc, hole)?;
    if over.is_empty() {
        return Ok(left);
    }
    left.union(alloc, over)
}

fn patch_of_one(alloc: Global, edit: Edit) -> Result<Patch, AllocError>
    ensures metal { IfOk result (λ p. (x y : ℤ) → holds p.metal x y ≡ is_added (last_change (change_of edit ∷ []) x y)) }
    ensures cut { IfOk result (λ p. (x y : ℤ) → holds p.cut x y ≡ is_cut (last_change (change_of edit ∷ []) x y)) }
{
    match edit {
        Edit::Add(rect) => Ok(Patch {
            metal: Region::one(alloc, &rect)?,
            cut: Region::empty(alloc),
        }),
        Edit::Cut(rect) => Ok(Patch {
            metal: Region::empty(alloc),
            cut: Region::one(alloc, &rect)?,
        }),
        Edit::Keep(_) => Ok(Patch {
            metal: Region::empty(alloc),
            cut: Region::empty(alloc),
        }),
    }
}

/// The rectangles that a run of edits adds, where it cuts nothing; keep-outs touch no metal.
fn rects_added(alloc: Global, edits: &[Edit]) -> Result<Option<Vec<Rect>>, AllocError>
    ensures { IfOk result (λ r. IfSome r (λ v. AreAdded (map change_of edits.now) v.items)) }
{
    let mut rects = Vec::new(alloc);
    for edit in edits {
        match edit {
            Edit::Add(rect) => rects.push(*rect)?,
            Edit::Cut(_) => return Ok(None),
            Edit::Keep(_) => {}
        }
    }
    Ok(Some(rects))
}

/// The patch of a run of edits: of one that only adds, the region of its rectangles, and else put together from those
/// of its halves, so that each edit is touched but a few times.
pub(crate) fn patch_of(alloc: Global, edits: &[Edit]) -> Result<Patch, AllocError>
    ensures metal { IfOk result (λ p. (x y : ℤ) → holds p.metal x y ≡ is_added (last_change (map change_of edits.now) x y)) }
    ensures cut { IfOk result (λ p. (x y : ℤ) → holds p.cut x y ≡ is_cut (last_change (map change_of edits.now) x y)) }
{
    match edits {
        [] => Ok(Patch {
            metal: Region::empty(alloc),
            cut: Region::empty(alloc),
        }),
        [edit] => patch_of_one(alloc, *edit),
        _ => {
            if let Some(rects) = rects_added(alloc, edits)? {
                let metal = Region::from_rects(alloc, &rects)?;
                let cut = Region::empty(alloc);
                return Ok(Patch { metal, cut });
            }
            let (first, then) = edits.split_at(edits.len() / 2);
            let first = patch_of(alloc, first)?;
            let then = patch_of(alloc, then)?;
            let metal = covered_over(alloc, &first.metal, &then.cut, &then.metal)?;
            let cut = covered_over(alloc, &first.cut, &then.metal, &then.cut)?;
            Ok(Patch { metal, cut })
        }
    }
}

/// The metal that the edits leave of nothing, made in their order: of a run that only adds, the region of its rectangles,
/// and else what its first half leaves, with the patch of its second half.
pub fn metal_left(alloc: Global, edits: &[Edit]) -> Result<Region, AllocError>
    ensures { IfOk result (λ r. (x y : ℤ) → holds r x y ≡ is_metal (map change_of edits.now) x y) }
{
    match edits {
        [] => Ok(Region::empty(alloc)),
        _ => {
            if let Some(rects) = rects_added(alloc, edits)? {
                return Region::from_rects(alloc, &rects);
            }
            let (first, then) = edits.split_at(edits.len() / 2);
            let under = metal_left(alloc, first)?;
            let then = patch_of(alloc, then)?;
            let metal = covered_over(alloc, &under, &then.cut, &then.metal)?;
            Ok(metal)
        }
    }
}

/// Rectangles of the metal that the edits leave of nothing: those that they add, where they cut nothing, and else the runs
/// of what is left.
fn rects_left(alloc: Global, edits: &[Edit]) -> Result<Vec<Rect>, AllocError>
    ensures { IfOk result (λ v. covered v.items ≡ is_metal (map change_of edits.now)) }
{
    match rects_added(alloc, edits)? {
        Some(rects) => Ok(rects),
        None => metal_left(alloc, edits)?.pieces(alloc),
    }
}

/// The metal that the edits leave of nothing, as one list of rectangles.
pub(crate) fn metal_after(alloc: Global, edits: &[Edit]) -> Result<Vec<Vec<Rect>>, OutOfMemory>
    ensures { IfOk result (λ lists. covered (flat_map vec_items lists.items) ≡ is_metal (map change_of edits.now)) }
{
    let rects = rects_left(alloc, edits)?;
    let lists = one_list(alloc, rects)?;
    Ok(lists)
}

/// The list alone.
pub(crate) fn one_list<T: Drop>(alloc: Global, list: Vec<T>) -> Result<Vec<Vec<T>>, AllocError>
    ensures { IfOk result (λ v. flat_map vec_items v.items ≡ list.items) }
{
    let mut lists = Vec::new(alloc);
    lists.push(list)?;
    Ok(lists)
}
