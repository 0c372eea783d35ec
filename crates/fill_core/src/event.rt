//! What may happen to a fill, and what the answer is.
use fill_text::Edit;

/// What happens to a fill, one at a time.
#[derive(Clone, Copy, Debug, PartialEq, Eq)]
pub enum Event {
    /// The wanted places of a tile were brought.
    Commit {
        /// The version that they were found at.
        version: u64,
        /// The tile.
        tile: u32,
        /// Whether they were for this version, the tile wasn't in, and what was read for them is what there is to read.
        same: bool,
    },
    /// The metal or the keep-outs were changed.
    Edit(Edit),
}

/// The answer to an event.
#[derive(Clone, Copy, Debug, PartialEq, Eq)]
pub enum Reply {
    /// The tile is in now: so many places were filled that weren't before.
    Placed(u32),
    /// The places were found at another version. Nothing was changed.
    Stale {
        /// The version at which the fill is.
        at: u64,
    },
    /// The tile was in already. Nothing was changed.
    Already,
    /// The places were found by other rules, metal, existing fill, keep-outs or low windows. Nothing was changed.
    Foreign,
    /// The edit is made, the next version is open, and so many boxes were taken out.
    Withdrawn(u32),
}

/// An event with its reply.
#[derive(Clone, Copy, Debug, PartialEq, Eq)]
pub struct Entry {
    /// What happened.
    pub event: Event,
    /// What was answered.
    pub reply: Reply,
}
