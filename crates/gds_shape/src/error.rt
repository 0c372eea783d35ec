//! Why a shape is refused.

ghost use Rattle.std.specs.Prelude.{◌≡◌};
ghost use Rattle.gds_shape.specs.declared.error.ShapeError.TheVariants.{Memory};

use std::alloc::{AllocError, AllocFailed};
use thiserror::Error;

/// Why a shape covers nothing that can be told: the first cause in this order.
#[derive(Clone, Copy, Debug, PartialEq, Eq, Error)]
pub enum ShapeError {
    /// Two neighbouring points differ in both coordinates.
    #[error("a shape has a slanted edge")]
    NotManhattan,
    /// PATHTYPE is none of 0, 2 and 4.
    #[error("a path has round ends")]
    RoundEnd,
    /// The absolute value of WIDTH is odd.
    #[error("a path has an odd width")]
    OddWidth,
    /// Two neighbouring segments lie on one line in opposite directions.
    #[error("a path doubles back")]
    DoublesBack,
    /// PATHTYPE is 4, and BGNEXTN or ENDEXTN is negative.
    #[error("a path has a negative extension")]
    BadExtension,
    /// The shape passes the coordinates from -2^30 to 2^30.
    #[error("a shape passes the range of coordinates")]
    OutOfRange,
    /// Memory is refused.
    #[error("out of memory")]
    Memory,
}

impl From<AllocError> for ShapeError {
    ghost from_gives = { λ _ e. e ≡ Memory };

    fn from(_e: AllocError) -> ShapeError {
        ShapeError::Memory
    }
}

impl<T: Drop> From<AllocFailed<T>> for ShapeError {
    ghost from_gives = { λ _ e. e ≡ Memory };

    fn from(_e: AllocFailed<T>) -> ShapeError {
        ShapeError::Memory
    }
}
