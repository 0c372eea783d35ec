//! All that happened to a fill.
ghost use Rattle.std.specs.Prelude.{◌≡◌, ◌↔◌, ◌<◌, ◌++◌, ◌∷◌, [], length, slice_index_or, IsTrue, OnOk};
ghost use Rattle.fill_core.specs.Histories.{entries_of, HasRoom};

use crate::event::Entry;
use std::alloc::{AllocError, Global};

/// Events with their replies, the first to come first.
#[derive(Drop)]
pub struct History {
    entries: Vec<Entry>,
}

impl History {
    /// Nothing has happened yet.
    pub fn new(alloc: Global) -> History
        ensures { entries_of result ≡ [] }
    {
        History {
            entries: Vec::new(alloc),
        }
    }

    /// How many events there are.
    pub fn len(&self) -> u64
        ensures { result ≡ length (entries_of self.now) }
    {
        self.entries.len() as u64
    }

    /// Whether there is none.
    pub fn is_empty(&self) -> bool
        ensures { IsTrue result ↔ (entries_of self.now ≡ []) }
    {
        self.entries.is_empty()
    }

    /// The event at `k`, counted from 0, with its reply.
    pub fn get(&self, k: u64) -> Entry
        requires { k < length (entries_of self.now) }
        ensures { result ≡ slice_index_or (entries_of self.now) k result }
    {
        self.entries[k as usize]
    }

    /// All events with their replies, in order.
    pub fn entries(&self) -> &[Entry]
        ensures { result.now ≡ entries_of self.now }
    {
        self.entries.as_slice()
    }

    /// Makes the room for one event more.
    ///
    /// # Errors
    /// `AllocError` where memory is refused.
    pub fn reserve(&mut self) -> Result<(), AllocError>
        ensures same { entries_of self.new ≡ entries_of self.old }
        ensures room { OnOk result (HasRoom self.new) }
    {
        self.entries.reserve(1)
    }

    /// Writes one event more into the room that `reserve` made. Takes no memory.
    pub fn push(&mut self, entry: Entry)
        requires { HasRoom self.old }
        ensures { entries_of self.new ≡ entries_of self.old ++ entry ∷ [] }
    {
        self.entries.push_reserved(entry);
    }
}
