//! Orders in which points are near their predecessors: along a space-filling curve, and the same in rounds.
//!
//! Verified: `order` sorts the indices of points by their keys along a space-filling curve; `in_rounds` returns the same indices.
//!
//! The curve is that of Morton (1966): the key of a point interleaves the bits of its three coordinates, from the highest to
//! the lowest, each coordinate counted from the least of a data point. Points with successive keys are mostly near each other,
//! so that a walk from one to the next is short.
//!
//! Insertion along the curve alone creates many short-lived cells: each new point is on the border of those before it. Rounds
//! avoid this, as in the biased randomized insertion order of Amenta, Choi and Rote (2003): each round has about fifteen times
//! as many points as all rounds before it, from everywhere, along the curve.
//!
//! An order affects only speed. The contract states that each number occurs once, along the curve by ascending key. The crate
//! depends on `geo_sign` (points) alone.
#![tactic(auto)]

mod curve;
mod rounds;
mod sorting;

pub use rounds::in_rounds;
pub use sorting::order;
use std::alloc::AllocError;

/// Out of memory: the one error that any input may cause.
pub type NoMemory = AllocError;
