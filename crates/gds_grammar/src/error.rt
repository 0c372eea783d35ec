//! Why bytes are no library: what callers are told, and inside this crate why a record is refused
//! and why reading stops, with the offset kept as the number of bytes that are left.

ghost use Rattle.std.specs.Prelude.{◌≡◌, length};
ghost use Rattle.gds_grammar.specs.declared.error.Stop.TheVariants.{Memory};

use std::alloc::{AllocError, AllocFailed};
use thiserror::Error;

/// Why the bytes are no library: the first fault from the front.
#[derive(Clone, Copy, Debug, PartialEq, Eq, Error)]
pub enum LibraryError {
    /// The bytes end within a record, or before ENDLIB.
    #[error("the library ends too early")]
    Truncated,
    /// A record's length is odd, or less than the four bytes of its header.
    #[error("a record's length is odd or less than four")]
    BadLength,
    /// The record at this offset may not stand there, or isn't as the manual has those of its kind.
    #[error("the record at offset {at} may not stand there")]
    Unexpected {
        /// The offset of the record's first byte.
        at: usize,
    },
    /// The data of XY is no positive multiple of eight bytes, or has too many or too few points for
    /// its element.
    #[error("an element has bad points")]
    BadXY,
    /// A boundary's last point isn't its first.
    #[error("a boundary isn't closed")]
    NotClosed,
    /// Two cells have one name.
    #[error("two cells have one name")]
    DuplicateCell,
    /// Memory is refused.
    #[error("out of memory")]
    Memory,
}

/// Why a record is refused, the first that holds in this order.
#[derive(Clone, Copy, Debug, PartialEq, Eq)]
pub enum Refusal {
    /// The record may not stand there, or isn't as the manual has those of its kind.
    Unexpected,
    /// The data of XY is no positive multiple of eight bytes, or has too many or too few points for
    /// its element.
    BadXY,
    /// A boundary's last point isn't its first.
    NotClosed,
    /// A cell before has the name.
    DuplicateCell,
}

/// Why there's nothing to go on with.
#[derive(Clone, Copy, Debug, PartialEq, Eq)]
pub enum Cause {
    /// The bytes end within a record, or before one that is needed.
    Truncated,
    /// A record's length is odd, or less than its header's.
    BadLength,
    /// A record is refused.
    Refused(Refusal),
}

/// Why reading stops.
#[derive(Clone, Copy, Debug, PartialEq, Eq)]
pub enum Stop {
    /// Memory is refused.
    Memory,
    /// A fault with so many bytes left.
    Fault(Cause, usize),
}

impl From<AllocError> for Stop {
    ghost from_gives = { λ _ e. e ≡ Memory };

    fn from(_e: AllocError) -> Stop {
        Stop::Memory
    }
}

impl<T: Drop> From<AllocFailed<T>> for Stop {
    ghost from_gives = { λ _ e. e ≡ Memory };

    fn from(_e: AllocFailed<T>) -> Stop {
        Stop::Memory
    }
}

impl Stop {
    /// The record that these bytes begin with is refused.
    pub fn refused(refusal: Refusal, left: &[u8]) -> Stop
        ensures { result ≡ Stop.Fault (Cause.Refused refusal) (length left.now) }
    {
        Stop::Fault(Cause::Refused(refusal), left.len())
    }
}
