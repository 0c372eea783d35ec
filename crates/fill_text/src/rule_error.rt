//! Why a rule file is refused.
ghost use Rattle.std.specs.Prelude.{◌≡◌};
ghost use Rattle.fill_text.specs.declared.rule_error.RuleError.TheVariants.{Memory};

use crate::keys::Key;
use std::alloc::{AllocError, AllocFailed};
use std::fmt;
use thiserror::Error;

/// Why a rule file was refused. A line is the number of a record, counted from 1.
#[derive(Clone, Copy, Debug, PartialEq, Eq, Error)]
pub enum RuleError {
    /// Not two fields, or a key that is unknown or may not stand once more.
    #[error("record {line} is no rule")]
    BadRow { line: u64 },
    /// The value should be a number, or a layer, and isn't one.
    #[error("record {line} has a bad number")]
    BadNumber { line: u64 },
    /// The value is not what the key asks for, or the key is missing.
    #[error("the rule {key} is missing or out of range")]
    BadRule { key: Key },
    /// The frame holds no square.
    #[error("the frame holds no square")]
    BadRect,
    /// The windows are too many, or leave the coordinate range.
    #[error("the windows are too many or out of range")]
    BadWindows,
    /// A step is below the side of a box and the fill spacing together.
    #[error("a step is below the side of a box and the fill spacing")]
    BadPitch,
    /// There are more than 2^24 places for a box.
    #[error("the frame has more than 16777216 places for a box")]
    TooManyPlaces,
    /// An allocation was refused.
    #[error("out of memory")]
    Memory,
}

impl From<AllocError> for RuleError {
    ghost from_gives = { λ _ e. e ≡ Memory };

    fn from(_error: AllocError) -> RuleError {
        RuleError::Memory
    }
}

impl<T: Drop> From<AllocFailed<T>> for RuleError {
    ghost from_gives = { λ _ e. e ≡ Memory };

    fn from(_error: AllocFailed<T>) -> RuleError {
        RuleError::Memory
    }
}

impl From<csv::Error> for RuleError {
    ghost from_gives = { λ _ e. e ≡ Memory };

    /// A reader of bytes in memory fails for want of memory alone.
    fn from(_error: csv::Error) -> RuleError {
        RuleError::Memory
    }
}

impl fmt::Display for Key {
    /// The key's name in a rule file.
    fn fmt<W: fmt::Write>(&self, f: &mut fmt::Formatter<W>) -> fmt::Result {
        f.write_str(self.name())
    }
}
