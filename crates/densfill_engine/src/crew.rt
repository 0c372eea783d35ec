//! Who brings the tiles of a fill, and how they are counted.
ghost use Rattle.std.specs.Prelude.{◌≡◌};
ghost use Rattle.fill_core.specs.Shares.{AllParts};

use std::sync::ledger::Blank;

/// Who brings the tiles of a fill.
#[derive(Clone, Copy, Debug)]
pub struct Crew {
    /// How many workers there are: 1 to 64.
    pub workers: u32,
    /// How many turns each takes at most in a round; without a limit one for each tile and one more.
    pub limit: Option<u32>,
}

/// The blank ledgers that a book counts with: its calls, the boxes that they place, and those that they withdraw.
pub struct Ledgers {
    /// The calls.
    pub calls: Blank,
    /// The boxes placed.
    pub placed: Blank,
    /// The boxes withdrawn.
    pub withdrawn: Blank,
}

impl Ledgers {
    /// Three ledgers of 1,024 parts each, of which nothing is written yet.
    pub fn blank() -> Ledgers
        ensures { AllParts result.calls.parts result.placed.parts result.withdrawn.parts }
    {
        Ledgers {
            calls: Blank::new(1024),
            placed: Blank::new(1024),
            withdrawn: Blank::new(1024),
        }
    }
}
