//! What of the metal, of the existing fill and of the keep-outs each tile depends on.
ghost use denote.Param.Send.{IsSync};
ghost use Rattle.std.specs.Prelude.{◌≡◌, ◌+◌, ◌<◌, ◌≤◌, ℤ, pos, false, IfOk};
ghost use Rattle.fill_base.specs.Limits.{IsSpacing};
ghost use Rattle.fill_region.specs.Near.{AreSomeRuns};
ghost use Rattle.fill_region.specs.Runs.{holds};
ghost use Rattle.fill_region.specs.Squares.{covered};
ghost use Rattle.fill_raster.specs.Lattice.{tiles};
ghost use Rattle.fill_job.specs.Plans.{PointSet, plan_of};
ghost use Rattle.fill_core.specs.Machine.{keep_after, metal_after};
ghost use Rattle.fill_state.specs.Layers.{in_layer};
ghost use Rattle.fill_state.specs.Pieces.{ArePieces, IsPiece};
ghost use Rattle.fill_state.specs.steps.Halves.{ArePiecesFrom, HoldsHalos};

use crate::layer::EditedLayer;
use fill_base::Rect;
use fill_job::{Piece, SharedRules};
use fill_raster::Raster;
use fill_region::{Region, runs_near};
use fill_text::Edit;
use rayon::join;
use std::alloc::{AllocError, Global};
use std::thread::Threads;

/// The tiles are halved for threads until there are about so many shares.
const MOST_SHARES: u32 = 64;

/// The tiles of a raster, each with the bounding rectangle of its boxes grown by a distance on all sides, its halo.
#[derive(Drop)]
struct Halos {
    raster: Raster,
    distance: i64,
    /// The piece without squares.
    none: Piece,
    /// How many tiles are one thread's share.
    share: u32,
}

impl Halos {
    /// A rectangle that holds the halos of the tiles from one on and before another.
    fn around(&self, from: u32, to: u32) -> Rect
        requires distance { IsSpacing self.now.distance }
        requires some { from < to }
        requires tiles { to ≤ tiles self.now.raster }
        ensures { HoldsHalos self.now.raster self.now.distance from to result }
    {
        let first = self.raster.halo(from, self.distance);
        let (mut left, mut bottom) = (first.x1(), first.y1());
        let (mut right, mut top) = (first.x2(), first.y2());
        for tile in from..to {
            let halo = self.raster.halo(tile, self.distance);
            left = left.min(halo.x1());
            bottom = bottom.min(halo.y1());
            right = right.max(halo.x2());
            top = top.max(halo.y2());
        }
        Rect::from_edges(left, bottom, right, top)
    }

    /// A tile between two others, near the middle of them: the first one of a row where they are in more than one row, so that the halos of
    /// each part reach into few rows.
    fn between(&self, from: u32, to: u32) -> u32
        requires some { from + 1 < to }
        ensures { (from < result) × (result < to) }
    {
        let middle = from + (to - from) / 2;
        let first = middle - middle % self.raster.tile_columns().max(1);
        if from < first { first } else { middle }
    }

    /// What of some runs lies in the halo of a tile. Where that is nothing, it is the piece without squares once more, which takes
    /// no memory.
    fn piece(&self, alloc: Global, runs: &[Rect], tile: u32) -> Result<Piece, AllocError>
        requires distance { IsSpacing self.now.distance }
        requires none { (x y : ℤ) → holds self.now.none x y ≡ false }
        requires runs { AreSomeRuns runs.now }
        requires tile { tile < tiles self.now.raster }
        ensures { IfOk result (IsPiece self.now.raster self.now.distance (covered runs.now) tile) }
    {
        let region = Region::of_runs(alloc, runs, &self.raster.halo(tile, self.distance))?;
        if region.is_empty() {
            self.none.share()
        } else {
            Piece::new(alloc, region)
        }
    }
}

/// The pieces of all tiles of a set without squares: for each the piece without squares once more.
fn no_pieces(alloc: Global, halos: &Halos) -> Result<Vec<Piece>, AllocError>
    requires { (x y : ℤ) → holds halos.now.none x y ≡ false }
    ensures { IfOk result (λ v. ArePieces halos.now.raster halos.now.distance (λ x y. false) v.items) }
{
    let mut pieces = Vec::new(alloc);
    for _tile in 0..halos.raster.tiles() {
        pieces.push(halos.none.share()?)?;
    }
    Ok(pieces)
}

/// The pieces of the tiles from one on and before another, of which there are some, by the calling thread alone: those of the lower
/// half by the runs that meet its halos, then those of the upper half. The list that the two come from is given back first.
#[cycle(alone)]
fn pieces_alone(
    alloc: Global,
    halos: &Halos,
    runs: Vec<Rect>,
    from: u32,
    to: u32,
) -> Result<Vec<Piece>, AllocError>
    requires distance { IsSpacing halos.now.distance }
    requires none { (x y : ℤ) → holds halos.now.none x y ≡ false }
    requires runs { AreSomeRuns runs.items }
    requires some { from < to }
    requires tiles { to ≤ tiles halos.now.raster }
    ensures { IfOk result (λ v. ArePiecesFrom halos.now.raster halos.now.distance (covered runs.items) from to v.items) }
{
    if to - from == 1 {
        let mut pieces = Vec::new(alloc);
        pieces.push(halos.piece(alloc, &runs, from)?)?;
        return Ok(pieces);
    }
    let middle = halos.between(from, to);
    let lower = runs_near(alloc, &runs, &halos.around(from, middle))?;
    let upper = runs_near(alloc, &runs, &halos.around(middle, to))?;
    drop(runs);
    let mut pieces = pieces_alone(alloc, halos, lower, from, middle)?;
    let mut others = pieces_alone(alloc, halos, upper, middle, to)?;
    pieces.append(&mut others)?;
    Ok(pieces)
}

/// The same, where the runs that meet the halos of the lower and of the upper half go to threads of their own, as long as these are
/// more than one thread's share.
#[cycle(pieces)]
fn pieces_between<R: Threads + Sync>(
    rt: &R,
    alloc: Global,
    halos: &Halos,
    runs: Vec<Rect>,
    from: u32,
    to: u32,
) -> Result<Vec<Piece>, AllocError>
    requires distance { IsSpacing halos.now.distance }
    requires none { (x y : ℤ) → holds halos.now.none x y ≡ false }
    requires runs { AreSomeRuns runs.items }
    requires some { from < to }
    requires tiles { to ≤ tiles halos.now.raster }
    ensures { IfOk result (λ v. ArePiecesFrom halos.now.raster halos.now.distance (covered runs.items) from to v.items) }
{
    if to - from == 1 || to - from <= halos.share {
        return pieces_alone(alloc, halos, runs, from, to);
    }
    let middle = halos.between(from, to);
    let lower = runs_near(alloc, &runs, &halos.around(from, middle))?;
    let upper = runs_near(alloc, &runs, &halos.around(middle, to))?;
    drop(runs);
    let first = move || -> Result<Vec<Piece>, AllocError>
        requires shared { IsSync R.row }
        requires distance { IsSpacing halos.now.distance }
        requires none { (x y : ℤ) → holds halos.now.none x y ≡ false }
        requires runs { AreSomeRuns lower.items }
        requires some { from < middle }
        requires tiles { middle ≤ tiles halos.now.raster }
        ensures { IfOk result (λ v. ArePiecesFrom halos.entry.now.raster halos.entry.now.distance (covered lower.items) from middle v.items) }
    { pieces_between(rt, alloc, halos, lower, from, middle) };
    let second = move || -> Result<Vec<Piece>, AllocError>
        requires shared { IsSync R.row }
        requires distance { IsSpacing halos.now.distance }
        requires none { (x y : ℤ) → holds halos.now.none x y ≡ false }
        requires runs { AreSomeRuns upper.items }
        requires some { middle < to }
        requires tiles { to ≤ tiles halos.now.raster }
        ensures { IfOk result (λ v. ArePiecesFrom halos.entry.now.raster halos.entry.now.distance (covered upper.items) middle to v.items) }
    { pieces_between(rt, alloc, halos, upper, middle, to) };
    let (first, second) = join(rt, first, second);
    let mut pieces = first?;
    let mut others = second?;
    pieces.append(&mut others)?;
    Ok(pieces)
}

/// What of a region lies in the halo of each tile.
fn pieces_of<R: Threads + Sync>(
    rt: &R,
    alloc: Global,
    raster: Raster,
    distance: i64,
    region: &Region,
) -> Result<Vec<Piece>, AllocError>
    requires { IsSpacing distance }
    ensures { IfOk result (λ v. ArePieces raster distance (holds region.now) v.items) }
{
    let none = Piece::new(alloc, Region::empty(alloc))?;
    let tiles = raster.tiles();
    if tiles == 0 {
        return Ok(Vec::new(alloc));
    }
    let halos = Halos {
        raster,
        distance,
        none,
        share: tiles / MOST_SHARES,
    };
    if region.is_empty() {
        return no_pieces(alloc, &halos);
    }
    let runs = runs_near(alloc, region.runs(), &halos.around(0, tiles))?;
    pieces_between(rt, alloc, &halos, runs, 0, tiles)
}

/// The metal in the halo of each tile.
///
/// # Errors
/// `AllocError` where memory is refused.
pub fn metal_pieces<R: Threads + Sync>(
    rt: &R,
    alloc: Global,
    rules: &SharedRules,
    metal: &Region,
) -> Result<Vec<Piece>, AllocError>
    ensures { let plan = plan_of rules.now in IfOk result (λ v. ArePieces plan.raster plan.spacing (holds metal.now) v.items) }
{
    pieces_of(rt, alloc, rules.raster(), rules.spacing(), metal)
}

/// The existing fill in the halo of each tile, as far as the fill spacing. No edit changes it.
///
/// # Errors
/// `AllocError` where memory is refused.
pub fn existing_pieces<R: Threads + Sync>(
    rt: &R,
    alloc: Global,
    rules: &SharedRules,
    existing: &Region,
) -> Result<Vec<Piece>, AllocError>
    ensures { let plan = plan_of rules.now in IfOk result (λ v. ArePieces plan.raster plan.fill_spacing (holds existing.now) v.items) }
{
    pieces_of(rt, alloc, rules.raster(), rules.fill_spacing(), existing)
}

/// The keep-outs in the bounding rectangle of each tile's boxes.
///
/// # Errors
/// `AllocError` where memory is refused.
pub fn keep_pieces<R: Threads + Sync>(
    rt: &R,
    alloc: Global,
    rules: &SharedRules,
    keep: &Region,
) -> Result<Vec<Piece>, AllocError>
    ensures { let plan = plan_of rules.now in IfOk result (λ v. ArePieces plan.raster (pos 0) (holds keep.now) v.items) }
{
    pieces_of(rt, alloc, rules.raster(), 0, keep)
}

/// The piece of a tile after an edit of the metal that it is of: the same one where the halo shares no square with the edit's rectangle.
fn piece_after(
    alloc: Global,
    raster: &Raster,
    distance: i64,
    _was: &EditedLayer,
    piece: &Piece,
    edit: Edit,
    tile: u32,
) -> Result<Piece, AllocError>
    requires tile { tile < tiles raster.now }
    requires distance { IsSpacing distance }
    requires piece { IsPiece raster.now distance (in_layer _was.now) tile piece.now }
    ensures { IfOk result (IsPiece raster.now distance (metal_after edit (in_layer _was.now)) tile) }
{
    let halo = raster.halo(tile, distance);
    match edit {
        Edit::Add(rect) => match rect.clip(&halo) {
            Some(part) => Piece::new(alloc, piece.region().with_rect(alloc, &part)?),
            None => piece.share(),
        },
        Edit::Cut(rect) => match rect.clip(&halo) {
            Some(part) => Piece::new(alloc, piece.region().without_rect(alloc, &part)?),
            None => piece.share(),
        },
        Edit::Keep(_) => piece.share(),
    }
}

/// The pieces after an edit of the metal that they are of: those are made anew whose halo shares a square with its rectangle.
fn pieces_after(
    alloc: Global,
    raster: &Raster,
    distance: i64,
    was: &EditedLayer,
    pieces: &[Piece],
    edit: Edit,
) -> Result<Vec<Piece>, AllocError>
    requires distance { IsSpacing distance }
    requires pieces { ArePieces raster.now distance (in_layer was.now) pieces.now }
    ensures { IfOk result (λ v. ArePieces raster.now distance (metal_after edit (in_layer was.now)) v.items) }
{
    let mut after = Vec::new(alloc);
    for tile in 0..raster.tiles() {
        let piece = &pieces[tile as usize];
        after.push(piece_after(alloc, raster, distance, was, piece, edit, tile)?)?;
    }
    Ok(after)
}

/// The metal in the halo of each tile after an edit. Pieces whose halo shares no square with its rectangle are the same ones.
///
/// # Errors
/// `AllocError` where memory is refused.
pub fn metal_pieces_after(
    alloc: Global,
    rules: &SharedRules,
    was: &EditedLayer,
    pieces: &[Piece],
    edit: Edit,
) -> Result<Vec<Piece>, AllocError>
    requires { let plan = plan_of rules.now in ArePieces plan.raster plan.spacing (in_layer was.now) pieces.now }
    ensures { let plan = plan_of rules.now in IfOk result (λ v. ArePieces plan.raster plan.spacing (metal_after edit (in_layer was.now)) v.items) }
{
    pieces_after(alloc, &rules.raster(), rules.spacing(), was, pieces, edit)
}

/// The edit that does to metal what this one does to keep-outs.
fn as_metal(edit: Edit) -> Edit
    ensures { (p : PointSet) (x y : ℤ) → metal_after result p x y ≡ keep_after edit p x y }
{
    match edit {
        Edit::Add(rect) | Edit::Cut(rect) => Edit::Keep(rect),
        Edit::Keep(rect) => Edit::Add(rect),
    }
}

/// The keep-outs in the bounding rectangle of each tile's boxes after an edit, in the same way.
///
/// # Errors
/// `AllocError` where memory is refused.
pub fn keep_pieces_after(
    alloc: Global,
    rules: &SharedRules,
    was: &EditedLayer,
    pieces: &[Piece],
    edit: Edit,
) -> Result<Vec<Piece>, AllocError>
    requires { let plan = plan_of rules.now in ArePieces plan.raster (pos 0) (in_layer was.now) pieces.now }
    ensures { let plan = plan_of rules.now in IfOk result (λ v. ArePieces plan.raster (pos 0) (keep_after edit (in_layer was.now)) v.items) }
{
    let edit = as_metal(edit);
    pieces_after(alloc, &rules.raster(), 0, was, pieces, edit)
}
