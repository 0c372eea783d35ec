//! Why there is no report.

use csv::{IntoInnerError, Writer};
use std::alloc::AllocError;
use thiserror::Error;

/// An allocation was refused. A report is written into memory, which fails for no other reason.
#[derive(Clone, Copy, Debug, PartialEq, Eq, Error)]
#[error("out of memory")]
pub struct OutOfMemory;

impl From<AllocError> for OutOfMemory {
    fn from(_error: AllocError) -> OutOfMemory {
        OutOfMemory
    }
}

impl From<csv::Error> for OutOfMemory {
    fn from(_error: csv::Error) -> OutOfMemory {
        OutOfMemory
    }
}

impl From<IntoInnerError<Writer<Vec<u8>>>> for OutOfMemory {
    fn from(_error: IntoInnerError<Writer<Vec<u8>>>) -> OutOfMemory {
        OutOfMemory
    }
}
