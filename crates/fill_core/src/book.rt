//! The trait of all books: what a book answers, and what it does with each event.
ghost use Rattle.std.specs.Prelude.{◌≡◌, ◌↔◌, ◌<◌, ◌≤◌, ◌&&◌, ◌||◌, ℤ, pos, Err, IfOk, IfSome, IsTrue, OnErr, OnOk, length};
ghost use Rattle.fill_area.specs.Density.{window_area};
ghost use Rattle.fill_raster.specs.Lattice.{in_tile, tiles};
ghost use Rattle.fill_raster.specs.Marks.{in_block, is_marked};
ghost use Rattle.fill_text.specs.ValuesOfRules.{values_of};
ghost use Rattle.fill_job.specs.Basis.{read_by};
ghost use Rattle.fill_job.specs.Plans.{allowed, drawn_squares, in_window_of, low_windows, plan_of};
ghost use Rattle.fill_job.specs.ReadSets.{read_set};
ghost use Rattle.fill_core.specs.Accounts.{Account, IsCommitted, IsEdited, IsKeeping, state_of, terms_of};
ghost use Rattle.fill_core.specs.Boxes.{count_places, total_in, with_boxes};
ghost use Rattle.fill_core.specs.Histories.{entries_of};
ghost use Rattle.fill_core.specs.Machine.{IsComplete};
ghost use Rattle.fill_core.specs.Shares.{AllParts, IsWhole, IsWithin, totals_of};
ghost use Rattle.fill_core.specs.Tiles.{next_tile};
ghost use Rattle.fill_core.specs.declared.book.BookError.TheVariants.{Memory};

use crate::event::Reply;
use crate::history::History;
use crate::opened::Opened;
use crate::pass::Pass;
use fill_base::Place;
use fill_job::{Job, Proposal};
use fill_raster::Marks;
use fill_region::Region;
use fill_text::{Edit, Rules};
use std::alloc::{AllocError, Global};
use std::sync::ledger::Ledger;
use thiserror::Error;

/// Why an event was not answered. Nothing was written and nothing was changed.
#[derive(Clone, Copy, Debug, PartialEq, Eq, Error)]
pub enum BookError {
    /// The history has all the events that it may have.
    #[error("the history is full")]
    HistoryFull,
    /// An allocation was refused.
    #[error("out of memory")]
    Memory,
}

impl From<AllocError> for BookError {
    ghost from_gives = { λ _ e. e ≡ Memory };

    fn from(_error: AllocError) -> BookError {
        BookError::Memory
    }
}

/// A book of a fill: metal, existing fill and keep-outs, placed boxes, the total of each window, a version with its low windows and the
/// tiles that are in, and the history of all that happened. Its state is the replay of its history on the design that it opened on, by
/// the definitions of this crate alone.
///
/// Tiles, windows (columns and rows of the rules' windows) and places are those of the book's rules. Lengths are in database
/// units, areas in unit squares. Calls without `alloc` take no memory.
pub trait FillBook: Drop {
    /// The ledger of calls, which knows what the book was opened with.
    type Calls: Opened + Send + Sync;
    /// The ledger of filled places.
    type Placed: Ledger + Send + Sync;
    /// The ledger of places that were taken out.
    type Withdrawn: Ledger + Send + Sync;

    ghost account: { Self → Account };

    /// The first tile at or after `from` that isn't in, else the first such tile of all, else `None`.
    fn next(&self, from: u32) -> Option<u32>
        ensures first { let a = account self.now in result ≡ next_tile (tiles (plan_of a.rules).raster) (state_of a).tiles_in from }
        ensures inside { IfSome result (λ tile. tile < tiles (plan_of (account self.now).rules).raster) };

    /// The work on a tile at the book's version.
    ///
    /// # Errors
    /// `AllocError` where memory is refused.
    fn job(&self, alloc: Global, tile: u32) -> Result<Job, AllocError>
        requires { tile < tiles (plan_of (account self.now).rules).raster }
        ensures version { IfOk result (λ j. j.version ≡ (state_of (account self.now)).version) }
        ensures tile { IfOk result (λ j. j.tile ≡ tile) }
        ensures read { let a = account self.now in let s = state_of a in IfOk result (λ j. read_by j.basis ≡ read_set a.rules s.layers s.low tile) };

    /// Brings the marked places of a tile. The answer is written in the history and counted in the pass: `Stale` where the
    /// proposal is of another version, else `Already` where its tile is in, else `Foreign` where its rules or what it read
    /// are not the book's, else `Placed` with the number of newly filled places.
    ///
    /// # Errors
    /// `HistoryFull` where the history is full, else `Memory` where memory is refused; book and pass are then as before.
    fn commit(
        &mut self,
        alloc: Global,
        pass: &mut Pass<Self::Calls, Self::Placed, Self::Withdrawn>,
        proposal: &Proposal,
    ) -> Result<Reply, BookError>
        ensures written { let p = proposal.now in IfOk result (λ reply. IsCommitted (account self.old) (account self.new) pass.old pass.new p.version p.tile (read_by p.basis) reply) }
        ensures full { (result ≡ Err BookError.HistoryFull) ↔ (length (account self.old).history ≡ (account self.old).most) }
        ensures err { OnErr result ((account self.new ≡ account self.old) × (pass.new ≡ pass.old)) }
        ensures seen { OnOk result (pass.old.calls ≤ length (account self.old).history) };

    /// Adds a rectangle to the metal, which takes out the boxes that it comes too near to, or cuts one out of it, which takes nothing off
    /// the existing fill; or adds a keep-out, which takes out the boxes that it shares a square with. The answer is `Withdrawn` with the
    /// number of boxes taken out; it is written in the history and counted in the pass. The next version is open then.
    ///
    /// # Errors
    /// `HistoryFull` where the history is full, else `Memory` where memory is refused; book and pass are then as before.
    fn edit(
        &mut self,
        alloc: Global,
        pass: &mut Pass<Self::Calls, Self::Placed, Self::Withdrawn>,
        edit: Edit,
    ) -> Result<Reply, BookError>
        ensures written { IfOk result (λ reply. IsEdited (account self.old) (account self.new) pass.old pass.new edit reply) }
        ensures full { (result ≡ Err BookError.HistoryFull) ↔ (length (account self.old).history ≡ (account self.old).most) }
        ensures err { OnErr result ((account self.new ≡ account self.old) × (pass.new ≡ pass.old)) }
        ensures seen { OnOk result (pass.old.calls ≤ length (account self.old).history) };

    /// The area of metal, existing fill and boxes together in the window of column `a` and row `b`.
    fn total(&self, a: u32, b: u32) -> i64
        requires column { a < (plan_of (account self.now).rules).windows.across.count }
        requires row { b < (plan_of (account self.now).rules).windows.up.count }
        ensures exact { let k = account self.now in let s = state_of k in result ≡ pos (total_in (plan_of k.rules) (drawn_squares s.layers) s.fill a b) };

    /// The area of metal and existing fill together, without the boxes, in the window of column `a` and row `b`.
    fn drawn(&self, a: u32, b: u32) -> i64
        requires column { a < (plan_of (account self.now).rules).windows.across.count }
        requires row { b < (plan_of (account self.now).rules).windows.up.count }
        ensures { let k = account self.now in result ≡ pos (window_area (drawn_squares (state_of k).layers) (plan_of k.rules).windows a b) };

    /// The version: how many edits there were.
    fn version(&self) -> u64
        ensures { result ≡ (state_of (account self.now)).version };

    /// Whether every tile is in. If so, the fill is that of the version's opening and all places that may be filled and whose
    /// box lies wholly in a window that was low at the opening, and no other place.
    fn is_complete(&self) -> bool
        ensures complete { let a = account self.now in IsTrue result ↔ IsComplete (plan_of a.rules) (state_of a) }
        ensures filled { let plan = plan_of (account self.now).rules in let s = state_of (account self.now) in IsTrue result → (s.fill ≡ (λ i j. s.base i j || (allowed plan s.layers i j && in_window_of plan s.low i j))) }
        ensures low { let plan = plan_of (account self.now).rules in let s = state_of (account self.now) in s.low ≡ low_windows plan (with_boxes plan (drawn_squares s.layers) s.base) };

    /// Whether a place is filled.
    fn has(&self, place: Place) -> bool
        ensures { result ≡ (state_of (account self.now)).fill place.i place.j };

    /// How many places are filled.
    fn count(&self) -> u32
        ensures { let a = account self.now in result ≡ count_places (plan_of a.rules).raster (state_of a).fill };

    /// The filled places of a tile.
    fn marks(&self, tile: u32) -> &Marks
        requires { tile < tiles (plan_of (account self.now).rules).raster }
        ensures tile { let a = account self.now in (i j : ℤ) → in_block result.now.block i j ≡ in_tile (plan_of a.rules).raster tile i j }
        ensures marked { let a = account self.now in (i j : ℤ) → is_marked result.now i j ≡ (in_tile (plan_of a.rules).raster tile i j && (state_of a).fill i j) };

    /// All that happened, with the replies.
    fn history(&self) -> &History
        ensures { entries_of result.now ≡ (account self.now).history };

    /// The rules of the fill.
    fn rules(&self) -> &Rules
        ensures { values_of result.now ≡ (account self.now).rules };

    /// The metal that the book opened on.
    fn opening(&self) -> &Region
        ensures { result.now ≡ (account self.now).opening };

    /// The existing fill that the book opened on. It stays so.
    fn opening_fill(&self) -> &Region
        ensures { result.now ≡ (account self.now).existing };

    /// The keep-outs that the book opened on.
    fn opening_keep(&self) -> &Region
        ensures { result.now ≡ (account self.now).keep };

    /// Tells what every book keeps, and how the numbers of a pass stand to those of the history. Does nothing at run time.
    fn audit(&mut self, pass: &mut Pass<Self::Calls, Self::Placed, Self::Withdrawn>)
        requires { AllParts Self.Calls.parts Self.Placed.parts Self.Withdrawn.parts }
        ensures same { (account self.new ≡ account self.old) × (pass.new ≡ pass.old) }
        ensures keeping { IsKeeping (account self.old) }
        ensures terms { terms_of (account self.old) ≡ Self.Calls.terms }
        ensures parts { pass.old.parts ≤ 1024 }
        ensures within { IsWithin pass.old (totals_of (account self.old).history) }
        ensures whole { pass.old.parts ≡ 1024 → IsWhole pass.old (totals_of (account self.old).history) };
}
