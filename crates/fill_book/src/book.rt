//! The books.
ghost use Rattle.std.specs.Prelude.{◌≡◌, ◌↔◌, ◌<◌, ◌≤◌, ◌^◌, [], IfOk, IsTrue, length};
ghost use Rattle.fill_region.specs.Runs.{holds};
ghost use Rattle.fill_state.specs.Layers.{is_drawn};
ghost use Rattle.fill_text.specs.Rules.{windows_of};
ghost use Rattle.fill_text.specs.ValuesOfRules.{values_of};
ghost use Rattle.fill_core.specs.Accounts.{Account};
ghost use Rattle.fill_core.specs.Histories.{entries_of};
ghost use Rattle.fill_core.specs.Shares.{AllParts, nothing_with};
ghost use Rattle.fill_book.specs.Keeping.{Keeps};
ghost use Rattle.fill_book.specs.Standing.{squares_in};

use crate::anew::Measured;
use crate::areas::Totals;
use crate::origin::{Opening, Origin};
use crate::stored::{Stored, answer};
use fill_base::Place;
use fill_core::{BookError, Books, Entry, Event, FillBook, History, Opened, Pass, Reply};
use fill_job::{Job, Piece, Pieces, Proposal};
use fill_measure::measure_all;
use fill_raster::Marks;
use fill_region::Region;
use fill_sums::Sums;
use fill_text::{Edit, Rules};
use std::alloc::{AllocError, Global};
use std::marker::Model;
use std::sync::ledger::{Blank, Ledger};
use std::thread::Threads;

/// The book that keeps no areas: it measures a window whenever its total is asked for, and all of them at each edit.
pub type PlainBook<C, P, W> = BookOf<Measured, C, P, W>;

/// The book that keeps the areas as running sums: its commits and edits measure no window.
pub type Book<C, P, W> = BookOf<Sums, C, P, W>;

/// The book of a fill, whose areas are told by `T`. What it is to its callers is said by `FillBook`.
#[derive(Drop)]
pub struct BookOf<T: Totals, C: Opened, P: Ledger, W: Ledger> {
    books: Books<C, P, W>,
    origin: Origin<C>,
    stored: Stored,
    totals: T,
    history: History,
}

impl<T: Totals, C: Opened, P: Ledger, W: Ledger> Model for BookOf<T, C, P, W> {
    ghost Value = { Account };

    ghost view = { λ b. record { rules = b.origin.rules; opening = b.origin.opening; existing = b.origin.existing; keep = b.origin.keep; history = entries_of b.history; most = b.origin.most } };

    ghost invariant = { λ b. (Keeps (record { rules = b.origin.rules; opening = b.origin.opening; existing = b.origin.existing; keep = b.origin.keep; history = entries_of b.history; most = b.origin.most }) b.books b.stored) × T.stand_for b.totals (windows_of b.origin.rules) (is_drawn b.stored.drawn) (squares_in b.stored) };
}

impl<T: Totals, C: Opened, P: Ledger, W: Ledger> BookOf<T, C, P, W> {
    /// Opens a book on a design, at version 0: no place is filled and no tile is in. Its history will have at most `max_events` events.
    /// These are the terms of the ledger of calls. The pass holds all parts of the three ledgers.
    ///
    /// # Errors
    /// `AllocError` where memory is refused.
    pub fn open(
        rt: &(impl Threads + Sync),
        alloc: Global,
        calls: Blank,
        placed: Blank,
        withdrawn: Blank,
        opening: Opening,
        rules: Rules,
        max_events: u64,
    ) -> Result<(BookOf<T, C, P, W>, Pass<C, P, W>), AllocError>
        requires names { (calls.name ≡ C.name) × (placed.name ≡ P.name) × (withdrawn.name ≡ W.name) }
        requires parts { (calls.parts ≡ C.parts) × (placed.parts ≡ P.parts) × (withdrawn.parts ≡ W.parts) }
        requires all { AllParts C.parts P.parts W.parts }
        requires most { max_events ≤ 2 ^ 32 }
        requires terms { record { rules = values_of rules; opening = opening.metal; existing = opening.fill; keep = opening.keep; most = max_events } ≡ C.terms }
        ensures book { IfOk result (λ r. r.0 ≡ record { rules = values_of rules; opening = opening.metal; existing = opening.fill; keep = opening.keep; history = []; most = max_events }) }
        ensures pass { IfOk result (λ r. r.1 ≡ nothing_with 1024) }
    {
        let design = Pieces {
            metal: Piece::new(alloc, opening.metal)?,
            fill: Piece::new(alloc, opening.fill)?,
            keep: Piece::new(alloc, opening.keep)?,
        };
        let origin = Origin::new(alloc, rules, &design, max_events)?;
        origin.rules.make_a_plan();
        let windows = origin.rules.windows();
        let drawn = origin.drawn(alloc)?;
        let areas = measure_all(rt, alloc, drawn.region(), &windows)?;
        let stored = Stored::open(rt, alloc, design, &origin.rules, &areas)?;
        let totals = T::of(alloc, drawn.region(), &windows, areas)?;
        let (books, pass) = Books::open(calls, placed, withdrawn);
        let book = BookOf {
            books,
            origin,
            stored,
            totals,
            history: History::new(alloc),
        };
        Ok((book, pass))
    }

    /// Whether the history has all the events that it may have.
    fn is_full(&self) -> bool
        ensures { IsTrue result ↔ (length self.now.history ≡ self.now.most) }
    {
        self.history.len() == self.origin.most
    }
}

impl<T: Totals, C: Opened + Send + Sync, P: Ledger + Send + Sync, W: Ledger + Send + Sync> FillBook
    for BookOf<T, C, P, W> {
    type Calls = C;

    type Placed = P;

    type Withdrawn = W;

    ghost account = { λ b. b };

    fn next(&self, from: u32) -> Option<u32> {
        self.stored
            .tiles
            .next(self.origin.rules.raster().tiles(), from)
    }

    fn job(&self, alloc: Global, tile: u32) -> Result<Job, AllocError> {
        let stored = &self.stored;
        let rules = self.origin.rules.share()?;
        let near = stored.near(&rules, tile)?;
        Job::new(alloc, stored.version, tile, rules, near, &stored.low)
    }

    fn commit(
        &mut self,
        _alloc: Global,
        pass: &mut Pass<C, P, W>,
        proposal: &Proposal,
    ) -> Result<Reply, BookError> {
        let (version, tile) = (proposal.version(), proposal.tile());
        if self.is_full() {
            return Err(BookError::HistoryFull);
        }
        let same = self.stored.is_same(&self.origin.rules, proposal);
        let refusal = self.stored.refusal(version, tile);
        self.history.reserve()?;
        let windows = self.origin.rules.windows();
        let marks = proposal.marks();
        let placed = self
            .stored
            .take_in(&mut self.totals, &windows, same, tile, marks);
        let reply = answer(same, placed, refusal);
        self.books.note(pass, u64::from(placed), 0);
        let event = Event::Commit {
            version,
            tile,
            same,
        };
        self.history.push(Entry { event, reply });
        Ok(reply)
    }

    fn edit(
        &mut self,
        alloc: Global,
        pass: &mut Pass<C, P, W>,
        edit: Edit,
    ) -> Result<Reply, BookError> {
        if self.is_full() {
            return Err(BookError::HistoryFull);
        }
        self.history.reserve()?;
        let change = self
            .stored
            .change_by(alloc, &self.origin.rules, &mut self.totals, edit)?;
        let withdrawn = self.stored.change(change);
        let reply = Reply::Withdrawn(withdrawn);
        self.books.note(pass, 0, u64::from(withdrawn));
        let event = Event::Edit(edit);
        self.history.push(Entry { event, reply });
        Ok(reply)
    }

    fn total(&self, a: u32, b: u32) -> i64 {
        self.totals
            .total(&self.stored, &self.origin.rules.windows(), a, b)
    }

    fn drawn(&self, a: u32, b: u32) -> i64 {
        self.totals
            .drawn(&self.stored, &self.origin.rules.windows(), a, b)
    }

    fn version(&self) -> u64 {
        self.stored.version
    }

    fn is_complete(&self) -> bool {
        self.stored
            .tiles
            .is_complete(self.origin.rules.raster().tiles())
    }

    fn has(&self, place: Place) -> bool {
        self.stored.filled.has(place)
    }

    fn count(&self) -> u32 {
        self.stored.filled.count()
    }

    fn marks(&self, tile: u32) -> &Marks {
        self.stored.filled.marks(tile)
    }

    fn history(&self) -> &History {
        &self.history
    }

    fn rules(&self) -> &Rules {
        self.origin.rules.rules()
    }

    fn opening(&self) -> &Region {
        self.origin.opening.region()
    }

    fn opening_fill(&self) -> &Region {
        self.origin.existing.region()
    }

    fn opening_keep(&self) -> &Region {
        self.origin.keep.region()
    }

    fn audit(&mut self, pass: &mut Pass<C, P, W>) {
        self.books.audit(pass);
    }
}
