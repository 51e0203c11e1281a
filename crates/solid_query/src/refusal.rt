//! Why a text is not a list of points.

ghost use Rattle.std.specs.Prelude.{◌≡◌};
ghost use Rattle.solid_query.specs.declared.refusal.QueryRefusal.TheVariants as refusals;

use std::alloc::{AllocError, AllocFailed};
use thiserror::Error;

/// Why a text is not a list of points. The number of its tokens is checked first, and then the tokens in turn, which are
/// counted from 0.
#[derive(Clone, Copy, Debug, Drop, Error, PartialEq, Eq)]
pub enum QueryRefusal {
    /// The token with this number is not a decimal.
    #[error("token {0} is no number")]
    BadToken(u32),
    /// The token with this number is a decimal with too many digits.
    #[error("token {0} has too many digits")]
    LongNumber(u32),
    /// The token with this number is a decimal, but its absolute value in scaled units is over
    /// [`DATA_LIMIT`](geo_sign::DATA_LIMIT).
    #[error("token {0} is out of range")]
    OutOfRange(u32),
    /// The number of tokens is no multiple of three.
    #[error("{tokens} tokens are not three a point")]
    Uneven {
        /// Their number.
        tokens: u32,
    },
    /// There are more tokens than [`TOKEN_LIMIT`](crate::TOKEN_LIMIT).
    #[error("there are {tokens} tokens, which are too many")]
    TooMany {
        /// Their number.
        tokens: u64,
    },
    /// Out of memory.
    #[error("there was no memory")]
    NoMemory,
}

impl From<AllocError> for QueryRefusal {
    ghost from_gives = { λ _ refusal. refusal ≡ refusals.NoMemory };

    fn from(_: AllocError) -> Self {
        QueryRefusal::NoMemory
    }
}

impl<T: Drop> From<AllocFailed<T>> for QueryRefusal {
    ghost from_gives = { λ _ refusal. refusal ≡ refusals.NoMemory };

    fn from(_: AllocFailed<T>) -> Self {
        QueryRefusal::NoMemory
    }
}
