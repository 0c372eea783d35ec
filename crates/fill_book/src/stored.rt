//! What a book stores of its state, and what each event makes of it.
ghost use Rattle.std.specs.Prelude.{◌≡◌, cond, not, ◌+◌, ◌<◌, ◌==◌, ◌&&◌, ◌||◌, ◌^◌, ◌≤ℤ◌, ℤ, ℕ, pos, true, false, All, IfOk, OnErr, OnOk, length};
ghost use Rattle.fill_region.specs.Runs.{holds};
ghost use Rattle.fill_area.specs.Density.{AreMeasured, IsArea};
ghost use Rattle.fill_raster.specs.Lattice.{in_raster, in_tile, tiles};
ghost use Rattle.fill_raster.specs.Marks.{is_marked};
ghost use Rattle.fill_job.specs.Basis.{layers_of, read_by, windows_in};
ghost use Rattle.fill_job.specs.Plans.{Plan, PointSet, drawn_squares, low_windows, plan_of};
ghost use Rattle.fill_job.specs.ReadSets.{layers_near};
ghost use Rattle.fill_core.specs.Accounts.{IsSame};
ghost use Rattle.fill_core.specs.Boxes.{count_places, no_places, with_boxes};
ghost use Rattle.fill_core.specs.Machine.{commit_reply, fill_after, keep_after, layers_after, metal_after, opening};
ghost use Rattle.fill_core.specs.declared.event.Reply.TheVariants.{Placed};
ghost use Rattle.fill_state.specs.Filling.{KeepsClear, in_places, is_filled, left_by, drawn_or_box};
ghost use Rattle.fill_book.specs.Keeping.{Fits, state_by, stored_layers};
ghost use Rattle.fill_state.specs.Layers.{in_layer, is_drawn};
ghost use Rattle.fill_state.specs.Pieces.{ArePieces};
ghost use Rattle.fill_book.specs.Standing.{IsEdited, squares_in, squares_left};
ghost use Rattle.fill_state.specs.Tiles.{is_in};

use crate::areas::Totals;
use crate::edited::{Edited, difference_of};
use fill_area::Windows;
use fill_core::Reply;
use fill_job::{Piece, Pieces, Proposal, SharedRules};
use fill_raster::{Marks, Raster};
use fill_region::Region;
use fill_state::{
    DrawnLayer, EditedLayer, Filled, Places, TileSet, existing_pieces, keep_pieces,
    keep_pieces_after, low_windows, metal_pieces, metal_pieces_after,
};
use fill_text::Edit;
use std::alloc::{AllocError, Global};
use std::thread::Threads;

/// The metal with the existing fill and the keep-outs, and what of them each tile depends on, the filled places, the version with its low
/// windows, and the tiles that are in.
#[derive(Drop)]
pub struct Stored {
    pub(crate) drawn: DrawnLayer,
    pub(crate) keep: EditedLayer,
    pub(crate) filled: Filled,
    pub(crate) low: Region,
    pub(crate) tiles: TileSet,
    pub(crate) version: u64,
    pub(crate) pieces: Vec<Piece>,
    pub(crate) existing_pieces: Vec<Piece>,
    pub(crate) keep_pieces: Vec<Piece>,
}

/// What an edit makes of a state, with all the memory that it takes: what is drawn, the keep-outs and the low windows after it, and the places
/// whose boxes it takes out. The pieces of the existing fill stay.
#[derive(Drop)]
pub(crate) struct Change {
    pub(crate) drawn: DrawnLayer,
    pub(crate) keep: EditedLayer,
    pub(crate) low: Region,
    pub(crate) out: Places,
    pub(crate) pieces: Vec<Piece>,
    pub(crate) keep_pieces: Vec<Piece>,
}

/// The keep-outs after an edit.
fn kept_out(alloc: Global, keep: &EditedLayer, edit: Edit) -> Result<EditedLayer, AllocError>
    ensures { IfOk result (λ l. (x y : ℤ) → in_layer l x y ≡ keep_after edit (in_layer keep.now) x y) }
{
    match edit {
        Edit::Add(_) | Edit::Cut(_) => keep.copy(alloc),
        Edit::Keep(rect) => keep.with_rect(alloc, &rect),
    }
}

/// The places whose boxes come too near to the metal by an edit, or share a square with a keep-out by it.
fn too_near(rules: &SharedRules, edit: Edit) -> Places
    ensures ordered { (result.columns.start ≤ℤ result.columns.end) × (result.rows.start ≤ℤ result.rows.end) }
    ensures on { (i j : ℤ) → in_places result i j ≡ true → in_raster (plan_of rules.now).raster i j ≡ true }
    ensures near { (fill : PointSet) → ((i j : ℤ) → fill i j ≡ true → in_raster (plan_of rules.now).raster i j ≡ true) → (i j : ℤ) → fill_after (plan_of rules.now) edit fill i j ≡ fill i j && not (in_places result i j) }
{
    rules.make_a_plan();
    match edit {
        Edit::Add(rect) => {
            let (columns, rows) = rules.raster().near(&rect, rules.spacing());
            Places { columns, rows }
        }
        Edit::Cut(_) => Places::none(),
        Edit::Keep(rect) => {
            let (columns, rows) = rules.raster().near(&rect, 0);
            Places { columns, rows }
        }
    }
}

/// The answer to a commit: how many places are newly filled where it is the same as the state's, else why it is refused.
pub(crate) fn answer(same: bool, placed: u32, refusal: Reply) -> Reply
    ensures { result ≡ cond same (Placed placed) refusal }
{
    if same { Reply::Placed(placed) } else { refusal }
}

impl Stored {
    /// Version 0 on a design, of which the area of metal and existing fill in each window was measured: no place is filled, and no tile is
    /// in.
    ///
    /// # Errors
    /// `AllocError` where memory is refused.
    pub(crate) fn open(
        rt: &(impl Threads + Sync),
        alloc: Global,
        design: Pieces,
        rules: &SharedRules,
        areas: &[i64],
    ) -> Result<Stored, AllocError>
        requires measured { AreMeasured (drawn_squares (layers_of design)) (plan_of rules.now).windows areas.now }
        requires bounded { All IsArea areas.now }
        ensures state { IfOk result (λ s. state_by no_places s ≡ opening (plan_of rules.now) (layers_of design)) }
        ensures fits { IfOk result (λ s. Fits (plan_of rules.now) s) }
    {
        rules.make_a_plan();
        let (raster, windows) = (rules.raster(), rules.windows());
        Ok(Stored {
            pieces: metal_pieces(rt, alloc, rules, design.metal.region())?,
            existing_pieces: existing_pieces(rt, alloc, rules, design.fill.region())?,
            keep_pieces: keep_pieces(rt, alloc, rules, design.keep.region())?,
            low: low_windows(alloc, &windows, rules.min(), areas)?,
            filled: Filled::none(alloc, raster)?,
            tiles: TileSet::none(alloc, raster.tiles())?,
            drawn: DrawnLayer::open(alloc, design.metal, design.fill)?,
            keep: EditedLayer::open(alloc, design.keep),
            version: 0,
        })
    }

    /// What of the design lies in the halos of a tile.
    ///
    /// # Errors
    /// `AllocError` where memory is refused.
    pub(crate) fn near(&self, _rules: &SharedRules, tile: u32) -> Result<Pieces, AllocError>
        requires fits { Fits (plan_of _rules.now) self.now }
        requires tile { tile < tiles (plan_of _rules.now).raster }
        ensures { IfOk result (λ p. layers_of p ≡ layers_near (plan_of _rules.now) (stored_layers self.now) tile) }
    {
        let tile = tile as usize;
        Ok(Pieces {
            metal: self.pieces[tile].share()?,
            fill: self.existing_pieces[tile].share()?,
            keep: self.keep_pieces[tile].share()?,
        })
    }

    /// Whether a proposal is of this version, its tile isn't in, and what was read for it is what there is to read now. Takes no
    /// memory.
    pub(crate) fn is_same(&self, rules: &SharedRules, proposal: &Proposal) -> bool
        requires { Fits (plan_of rules.now) self.now }
        ensures { let p = proposal.now in IsSame rules.now (state_by no_places self.now) p.version p.tile (read_by p.basis) result }
    {
        if proposal.version() != self.version {
            return false;
        }
        let tile = proposal.tile();
        if tile >= rules.raster().tiles() || self.tiles.has(tile) {
            return false;
        }
        let metal = self.pieces[tile as usize].region();
        let fill = self.existing_pieces[tile as usize].region();
        let keep = self.keep_pieces[tile as usize].region();
        proposal.matches(rules.rules(), metal, fill, keep, &self.low)
    }

    /// The answer to a commit that isn't the same.
    pub(crate) fn refusal(&self, version: u64, tile: u32) -> Reply
        ensures { (plan : Plan) → result ≡ commit_reply plan (state_by no_places self.now) version tile false }
    {
        if version != self.version {
            Reply::Stale { at: self.version }
        } else if self.tiles.has(tile) {
            Reply::Already
        } else {
            Reply::Foreign
        }
    }

    /// Where `same` holds, fills the marked places of a tile and takes the tile in, and what tells the areas takes in their boxes.
    /// Tells how many places are newly filled.
    pub(crate) fn take_in<T: Totals>(
        &mut self,
        totals: &mut T,
        windows: &Windows,
        same: bool,
        tile: u32,
        marks: &Marks,
    ) -> u32
        requires stands { T.stand_for totals.old windows.now (is_drawn self.old.drawn) (squares_in self.old) }
        requires clear { same ≡ true → KeepsClear self.old.filled.raster (λ i j. is_filled self.old.filled i j || is_marked marks.now i j) (is_drawn self.old.drawn) }
        requires tile { same ≡ true → tile < tiles self.old.filled.raster }
        requires bits { length self.old.tiles ≡ tiles self.old.filled.raster }
        requires marked { same ≡ true → (i j : ℤ) → is_marked marks.now i j ≡ true → in_tile self.old.filled.raster tile i j ≡ true }
        ensures stands { T.stand_for totals.new windows.now (is_drawn self.new.drawn) (squares_in self.new) }
        ensures drawn { self.new.drawn ≡ self.old.drawn }
        ensures keep { self.new.keep ≡ self.old.keep }
        ensures pieces { self.new.pieces ≡ self.old.pieces }
        ensures existing_pieces { self.new.existing_pieces ≡ self.old.existing_pieces }
        ensures keep_pieces { self.new.keep_pieces ≡ self.old.keep_pieces }
        ensures low { self.new.low ≡ self.old.low }
        ensures version { self.new.version ≡ self.old.version }
        ensures raster { self.new.filled.raster ≡ self.old.filled.raster }
        ensures bits { length self.new.tiles ≡ length self.old.tiles }
        ensures filled { (i j : ℤ) → is_filled self.new.filled i j ≡ is_filled self.old.filled i j || (same && is_marked marks.now i j) }
        ensures tiles { (t : ℕ) → is_in self.new.tiles t ≡ is_in self.old.tiles t || (same && (t == tile)) }
        ensures placed { count_places self.old.filled.raster (is_filled self.new.filled) ≡ count_places self.old.filled.raster (is_filled self.old.filled) + result }
    {
        if !same {
            return 0;
        }
        totals.take_in(self, windows, tile, marks);
        let before = self.filled.count();
        self.filled.take_in(tile, marks);
        self.tiles.put(tile);
        self.filled.count() - before
    }

    /// What an edit makes of the metal, what comes or goes of what counts, and the places whose boxes it takes out.
    ///
    /// # Errors
    /// `AllocError` where memory is refused.
    fn edited(&self, alloc: Global, rules: &SharedRules, edit: Edit) -> Result<Edited, AllocError>
        requires raster { self.now.filled.raster ≡ (plan_of rules.now).raster }
        requires clear_now { KeepsClear self.now.filled.raster (is_filled self.now.filled) (is_drawn self.now.drawn) }
        requires clear { KeepsClear (plan_of rules.now).raster (fill_after (plan_of rules.now) edit (is_filled self.now.filled)) (drawn_squares (layers_after edit (stored_layers self.now))) }
        ensures edit { IfOk result (λ e. e.edit ≡ edit) }
        ensures edited { IfOk result (λ e. IsEdited self.now e) }
        ensures left { IfOk result (λ e. (i j : ℤ) → left_by self.now.filled e.out i j ≡ fill_after (plan_of rules.now) edit (is_filled self.now.filled) i j) }
    {
        Ok(Edited {
            edit,
            drawn: self.drawn.after(alloc, edit)?,
            difference: difference_of(alloc, &self.drawn, edit)?,
            out: too_near(rules, edit),
        })
    }

    /// The low windows after an edit, which what tells the areas follows. Where memory is refused, it turns back from it.
    ///
    /// # Errors
    /// `AllocError` where memory is refused.
    fn low_after<T: Totals>(
        &self,
        alloc: Global,
        rules: &SharedRules,
        totals: &mut T,
        edited: &Edited,
    ) -> Result<Region, AllocError>
        requires stands { T.stand_for totals.old (plan_of rules.now).windows (is_drawn self.now.drawn) (squares_in self.now) }
        requires edited { IsEdited self.now edited.now }
        ensures low { IfOk result (λ r. (a b : ℕ) → windows_in r a b ≡ low_windows (plan_of rules.now) (squares_left self.now edited.now) a b) }
        ensures stands { OnOk result (T.stand_for totals.new (plan_of rules.now).windows (is_drawn edited.now.drawn) (squares_left self.now edited.now)) }
        ensures back { OnErr result (T.stand_for totals.new (plan_of rules.now).windows (is_drawn self.now.drawn) (squares_in self.now)) }
    {
        let windows = rules.windows();
        totals.follow(self, &windows, edited);
        match totals.low(alloc, self, rules, edited) {
            Ok(low) => Ok(low),
            Err(error) => {
                totals.turn_back(self, &windows, edited);
                Err(error)
            }
        }
    }

    /// What an edit makes of the state, which what tells its areas follows. Takes all the memory that the edit needs, and changes
    /// nothing else yet.
    ///
    /// # Errors
    /// `AllocError` where memory is refused; what tells the areas then stands for what it did.
    pub(crate) fn change_by<T: Totals>(
        &self,
        alloc: Global,
        rules: &SharedRules,
        totals: &mut T,
        edit: Edit,
    ) -> Result<Change, AllocError>
        requires fits { Fits (plan_of rules.now) self.now }
        requires stands { T.stand_for totals.old (plan_of rules.now).windows (is_drawn self.now.drawn) (squares_in self.now) }
        requires clear_now { KeepsClear self.now.filled.raster (is_filled self.now.filled) (is_drawn self.now.drawn) }
        requires clear { KeepsClear (plan_of rules.now).raster (fill_after (plan_of rules.now) edit (is_filled self.now.filled)) (drawn_squares (layers_after edit (stored_layers self.now))) }
        ensures metal { IfOk result (λ c. (x y : ℤ) → in_layer c.drawn.metal x y ≡ metal_after edit (in_layer self.now.drawn.metal) x y) }
        ensures existing { IfOk result (λ c. c.drawn.existing ≡ self.now.drawn.existing) }
        ensures keep { IfOk result (λ c. (x y : ℤ) → in_layer c.keep x y ≡ keep_after edit (in_layer self.now.keep) x y) }
        ensures on { IfOk result (λ c. (i j : ℤ) → in_places c.out i j ≡ true → in_raster self.now.filled.raster i j ≡ true) }
        ensures left { IfOk result (λ c. (i j : ℤ) → left_by self.now.filled c.out i j ≡ fill_after (plan_of rules.now) edit (is_filled self.now.filled) i j) }
        ensures low { let plan = plan_of rules.now in IfOk result (λ c. (a b : ℕ) → windows_in c.low a b ≡ low_windows plan (with_boxes plan (drawn_squares (layers_after edit (stored_layers self.now))) (fill_after plan edit (is_filled self.now.filled))) a b) }
        ensures pieces { let plan = plan_of rules.now in IfOk result (λ c. ArePieces plan.raster plan.spacing (metal_after edit (in_layer self.now.drawn.metal)) c.pieces.items) }
        ensures keep_pieces { let plan = plan_of rules.now in IfOk result (λ c. ArePieces plan.raster (pos 0) (keep_after edit (in_layer self.now.keep)) c.keep_pieces.items) }
        ensures stands { let plan = plan_of rules.now in IfOk result (λ c. T.stand_for totals.new plan.windows (is_drawn c.drawn) (drawn_or_box self.now.filled.raster (left_by self.now.filled c.out) (is_drawn c.drawn))) }
        ensures back { OnErr result (T.stand_for totals.new (plan_of rules.now).windows (is_drawn self.now.drawn) (squares_in self.now)) }
    {
        let edited = self.edited(alloc, rules, edit)?;
        let keep = kept_out(alloc, &self.keep, edit)?;
        let pieces = metal_pieces_after(alloc, rules, self.drawn.metal(), &self.pieces, edit)?;
        let keep_pieces = keep_pieces_after(alloc, rules, &self.keep, &self.keep_pieces, edit)?;
        let low = self.low_after(alloc, rules, totals, &edited)?;
        Ok(Change {
            drawn: edited.drawn,
            keep,
            low,
            out: edited.out,
            pieces,
            keep_pieces,
        })
    }

    /// Makes a change, which opens the next version. Tells how many boxes are taken out. Takes no memory.
    pub(crate) fn change(&mut self, change: Change) -> u32
        requires on { (i j : ℤ) → in_places change.out i j ≡ true → in_raster self.old.filled.raster i j ≡ true }
        requires version { self.old.version + 1 < 2 ^ 64 }
        ensures drawn { self.new.drawn ≡ change.drawn }
        ensures keep { self.new.keep ≡ change.keep }
        ensures pieces { self.new.pieces ≡ change.pieces }
        ensures existing_pieces { self.new.existing_pieces ≡ self.old.existing_pieces }
        ensures keep_pieces { self.new.keep_pieces ≡ change.keep_pieces }
        ensures low { self.new.low ≡ change.low }
        ensures version { self.new.version ≡ self.old.version + 1 }
        ensures raster { self.new.filled.raster ≡ self.old.filled.raster }
        ensures bits { length self.new.tiles ≡ length self.old.tiles }
        ensures filled { (i j : ℤ) → is_filled self.new.filled i j ≡ left_by self.old.filled change.out i j }
        ensures tiles { (t : ℕ) → is_in self.new.tiles t ≡ false }
        ensures withdrawn { count_places self.old.filled.raster (is_filled self.old.filled) ≡ count_places self.old.filled.raster (is_filled self.new.filled) + result }
    {
        let before = self.filled.count();
        self.filled.clear_places(&change.out);
        self.tiles.clear_all();
        self.drawn = change.drawn;
        self.keep = change.keep;
        self.pieces = change.pieces;
        self.keep_pieces = change.keep_pieces;
        self.low = change.low;
        self.version += 1;
        before - self.filled.count()
    }
}
