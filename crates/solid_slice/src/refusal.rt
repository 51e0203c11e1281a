//! Why a mesh has no slice.

ghost use Rattle.std.specs.Prelude.{◌≡◌};

use std::alloc::AllocError;
use std::convert::From;
use thiserror::Error;

/// Why a mesh has no slice.
#[derive(Clone, Copy, Debug, PartialEq, Eq, Drop, Error)]
pub enum SliceRefusal {
    /// Some directed edge does not occur as often as its reverse. Of the pairs of vertices whose two counts differ this is the
    /// smallest, so `from` is below `to`: with the number of faces that have the edge from `from` to `to`, and of those that
    /// have its reverse.
    #[error("the edge from {from} to {to} occurs {there} times, and {back} times back")]
    Unbalanced {
        from: u32,
        to: u32,
        there: u32,
        back: u32,
    },
    /// Out of memory.
    #[error("out of memory")]
    NoMemory,
}

impl From<AllocError> for SliceRefusal {
    ghost use Rattle.solid_slice.specs.declared.refusal.SliceRefusal.TheVariants.{NoMemory};

    ghost from_gives = { λ _ r. r ≡ NoMemory };

    fn from(_: AllocError) -> SliceRefusal {
        SliceRefusal::NoMemory
    }
}
