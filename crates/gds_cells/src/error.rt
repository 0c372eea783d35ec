//! Why a design can't be flattened.

ghost use Rattle.std.specs.Prelude.{◌≡◌};
ghost use Rattle.gds_cells.specs.declared.error.FlattenError.TheVariants.{Memory};

use std::alloc::{AllocError, AllocFailed};
use thiserror::Error;

/// Why what a cell draws can't be told: the first cause in this order, among the cells that the top
/// refers to, itself or through others.
#[derive(Clone, Copy, Debug, PartialEq, Eq, Error)]
pub enum FlattenError {
    /// The library has no cell of the top's name.
    #[error("the top cell is missing")]
    NoTop,
    /// A reference names a cell that the library hasn't.
    #[error("a referenced cell is missing")]
    MissingCell,
    /// A cell refers to itself, at once or through others.
    #[error("a cell refers to itself")]
    Cycle,
    /// A chain of references has more than 256 cells, the top among them.
    #[error("references are nested too deeply")]
    TooDeep,
    /// A reference is turned by other than quarter turns, is magnified, or has an absolute angle.
    #[error("a reference is transformed as none may be")]
    BadTransform,
    /// An array has no column or row, or too many, or its steps are no whole numbers.
    #[error("an array has other steps than whole ones")]
    BadArray,
    /// Two neighbouring points of a shape differ in both coordinates.
    #[error("a shape has a slanted edge")]
    NotManhattan,
    /// PATHTYPE is none of 0, 2 and 4.
    #[error("a path has round ends")]
    RoundEnd,
    /// The absolute value of WIDTH is odd.
    #[error("a path has an odd width")]
    OddWidth,
    /// Two neighbouring segments of a path lie on one line in opposite directions.
    #[error("a path doubles back")]
    DoublesBack,
    /// PATHTYPE is 4, and BGNEXTN or ENDEXTN is negative.
    #[error("a path has a negative extension")]
    BadExtension,
    /// There are more than 4,000,000 copies of shapes.
    #[error("there are too many shapes")]
    TooManyShapes,
    /// A copy of a shape passes the coordinates from -2^30 to 2^30.
    #[error("a shape passes the range of coordinates")]
    OutOfRange,
    /// Memory is refused.
    #[error("out of memory")]
    Memory,
}

impl From<AllocError> for FlattenError {
    ghost from_gives = { λ _ e. e ≡ Memory };

    fn from(_e: AllocError) -> FlattenError {
        FlattenError::Memory
    }
}

impl<T: Drop> From<AllocFailed<T>> for FlattenError {
    ghost from_gives = { λ _ e. e ≡ Memory };

    fn from(_e: AllocFailed<T>) -> FlattenError {
        FlattenError::Memory
    }
}
