//! Why a body has no next row.

ghost use Rattle.std.specs.Prelude.{◌≡◌};
ghost use Rattle.ply_rows.specs.declared.refusal.RowRefusal.TheVariants as refusals;

use crate::place::Place;
use std::alloc::{AllocError, AllocFailed};
use thiserror::Error;

/// Out of memory.
pub type NoMemory = AllocError;

/// Why the next row is not read. The properties are examined in the order of the rows.
#[derive(Clone, Copy, Debug, Drop, Error, PartialEq, Eq)]
pub enum RowRefusal {
    /// The count of this list is invalid: in a text its token is no integer, or has too many digits; in any body it is
    /// negative, or over 4,294,967,295.
    #[error("a list has no count of items")]
    BadCount(Place),
    /// The body ends before the end of this property.
    #[error("the body ends within a row")]
    Cut(Place),
    /// All rows were read, and something follows: in a text anything other than white space, in a binary body any byte. `place`
    /// is the offset of its first byte in the body.
    #[error("something follows the last row")]
    Trailing {
        /// The offset in the body.
        place: usize,
    },
    /// Out of memory.
    #[error("no memory is left")]
    NoMemory,
}

impl From<AllocError> for RowRefusal {
    ghost from_gives = { λ _ refusal. refusal ≡ refusals.NoMemory };

    fn from(_error: AllocError) -> RowRefusal {
        RowRefusal::NoMemory
    }
}

impl<T: Drop> From<AllocFailed<T>> for RowRefusal {
    ghost from_gives = { λ _ refusal. refusal ≡ refusals.NoMemory };

    fn from(_error: AllocFailed<T>) -> RowRefusal {
        RowRefusal::NoMemory
    }
}
