//! Why a token is not an accepted number.

use thiserror::Error;

/// Why a token is rejected, in the order of the tests.
#[derive(Clone, Copy, Debug, Drop, Error, PartialEq, Eq)]
pub enum NumRefusal {
    /// The token is not spelled as a number of this kind.
    #[error("the token is no number")]
    NotANumber,
    /// The number has more digits after its leading zeros than allowed: over 18 in a whole number, over 30 in a decimal, or
    /// over 4 in a decimal's exponent.
    #[error("the number has too many digits")]
    LongNumber,
    /// The decimal's absolute value in units is over [`SCALED_LIMIT`](crate::SCALED_LIMIT).
    #[error("the number is out of range")]
    OutOfRange,
}
