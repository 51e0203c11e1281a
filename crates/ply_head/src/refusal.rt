//! Why a header cannot be read.

ghost use Rattle.std.specs.Prelude.{◌≡◌};
ghost use Rattle.ply_head.specs.declared.refusal.HeadRefusal.TheVariants.{NoMemory};

use std::alloc::{AllocError, AllocFailed};
use thiserror::Error;

/// Why a text has no valid header. Lines are examined one after another, and for each line the causes in this order, except
/// that `NotPly` is tested first of all. Lines are counted from 1.
#[derive(Clone, Copy, Debug, Drop, Error, PartialEq, Eq)]
pub enum HeadRefusal {
    /// The bytes do not begin with the line `ply`.
    #[error("the file does not begin with the line `ply`")]
    NotPly,
    /// The line is invalid, in the wrong position, or names an unknown type.
    #[error("line {0} is no header line that may stand there")]
    BadLine(u32),
    /// The line has more than 1,000 bytes without its end.
    #[error("line {0} has more than 1,000 bytes")]
    LongLine(u32),
    /// Line 1,000 is not `end_header`.
    #[error("the header has more than 1,000 lines")]
    LongHeader,
    /// The line repeats the name of an element, or the name of a property of the same element.
    #[error("line {0} repeats a name")]
    Twice(u32),
    /// The bytes end within the header: in a line, or before the next one.
    #[error("the file ends within its header")]
    HeadCut,
    /// Out of memory.
    #[error("no memory is left")]
    NoMemory,
}

impl From<AllocError> for HeadRefusal {
    ghost from_gives = { λ _ refusal. refusal ≡ NoMemory };

    fn from(_error: AllocError) -> HeadRefusal {
        HeadRefusal::NoMemory
    }
}

impl<T: Drop> From<AllocFailed<T>> for HeadRefusal {
    ghost from_gives = { λ _ refusal. refusal ≡ NoMemory };

    fn from(_error: AllocFailed<T>) -> HeadRefusal {
        HeadRefusal::NoMemory
    }
}
