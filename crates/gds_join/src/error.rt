//! Why a part's library is refused.
ghost use Rattle.std.specs.Prelude.{◌≡◌};
ghost use Rattle.gds_join.specs.declared.error.PartError.TheVariants.{Library, Memory};

use gds_grammar::LibraryError;
use std::alloc::AllocError;
use thiserror::Error;

/// Why the fill library of a part can't be joined to those of the parts before it.
#[derive(Clone, Copy, Debug, PartialEq, Eq, Error)]
pub enum PartError {
    /// It is no library.
    #[error("{0}")]
    Library(LibraryError),
    /// It is no fill library of these rules: its names, layer, box or places are others, or it isn't written as such a library is.
    #[error("no fill library of these rules")]
    NotAFill,
    /// The part's own rows of tiles have more than 2^24 places.
    #[error("too many places in a part")]
    TooManyPlaces,
    /// Its units or dates are not those of the first part.
    #[error("the units or dates are not those of the first part")]
    OtherDesign,
    /// It fills a place that a part before it fills.
    #[error("a place is filled in two parts")]
    PlaceTwice,
    /// It fills a place of another part's tiles.
    #[error("a place is of another part's rows")]
    OtherRows,
    /// An allocation was refused.
    #[error("out of memory")]
    Memory,
}

impl From<AllocError> for PartError {
    ghost from_gives = { λ _ e. e ≡ Memory };

    fn from(_error: AllocError) -> PartError {
        PartError::Memory
    }
}

impl From<LibraryError> for PartError {
    ghost from_gives = { λ l e. e ≡ Library l };

    fn from(error: LibraryError) -> PartError {
        PartError::Library(error)
    }
}
