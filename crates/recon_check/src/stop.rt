//! Why a check stops before its end. It depends on the reasons.

ghost use Rattle.std.specs.Prelude.{◌≡◌};
ghost use Rattle.recon_check.specs.declared.stop.Stop.TheVariants as stops;

use crate::Reason;
use std::alloc::{AllocError, AllocFailed};

/// The error of a step of the check.
#[derive(Clone, Copy, Debug, Drop)]
pub enum Stop {
    /// A reason for the answer no.
    Fault(Reason),
    /// Out of memory.
    NoMemory,
}

impl From<AllocError> for Stop {
    ghost from_gives = { λ _ stop. stop ≡ stops.NoMemory };

    fn from(_error: AllocError) -> Stop {
        Stop::NoMemory
    }
}

impl<T: Drop> From<AllocFailed<T>> for Stop {
    ghost from_gives = { λ _ stop. stop ≡ stops.NoMemory };

    fn from(_error: AllocFailed<T>) -> Stop {
        Stop::NoMemory
    }
}
