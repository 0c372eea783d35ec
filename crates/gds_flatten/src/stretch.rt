//! Shares of the copies that a cell draws.

ghost use Rattle.std.specs.Prelude.{◌≡◌, ◌-◌, ◌≤◌};

/// Some of the copies that a cell draws, in the order of the walk: those from one number up to another.
#[derive(Clone, Copy, Debug)]
pub struct Stretch {
    /// The number of the first.
    pub from: usize,
    /// The number behind the last.
    pub to: usize,
    pub ghost ordered: { from ≤ to },
    pub ghost few: { to ≤ 4000000 },
}

impl Stretch {
    /// The same copies, numbered from behind so many.
    pub fn behind(self, passed: usize) -> Stretch
        ensures from { result.from ≡ self.from - passed }
        ensures to { result.to ≡ self.to - passed }
    {
        Stretch {
            from: self.from.saturating_sub(passed),
            to: self.to.saturating_sub(passed),
        }
    }
}
