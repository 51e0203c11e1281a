//! Why a mesh is not finished.

ghost use Rattle.std.specs.Prelude.{◌≡◌};
ghost use Rattle.mesh_finish.specs.declared.options.FinishError.TheVariants as errors;

use crate::NoMemory;
use mesh_edges::UnbalancedEdge;

/// A step whose result is found by a search and then verified.
#[derive(Clone, Copy, Debug, PartialEq, Eq)]
pub enum Step {
    /// Pieces are kept.
    Pieces,
    /// The faces around each vertex of the result are one cycle, if vertices were split.
    Umbrellas,
}

/// Why a mesh is not finished.
#[derive(Clone, Copy, Debug, PartialEq, Eq)]
pub enum FinishError {
    /// The mesh is not closed: this is its smallest edge that occurs another number of times than its reverse.
    NotClosed(UnbalancedEdge),
    /// What this step made of a closed mesh did not pass its verification. This was never seen.
    Unverified(Step),
    /// Out of memory.
    NoMemory,
}

impl From<NoMemory> for FinishError {
    ghost from_gives = { λ _ error. error ≡ errors.NoMemory };

    fn from(_: NoMemory) -> FinishError {
        FinishError::NoMemory
    }
}
