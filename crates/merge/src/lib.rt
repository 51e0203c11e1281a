//! Merges equal points of rows, and gives the index of each row's point among the distinct points.
//!
//! Verified: `merge` returns the distinct points of rows, in the order of their first rows, and the index of each row's point.
//!
//! `specs/Merging` defines the distinct points of rows. `merging` finds them with one look-up a row. The crate depends on `geo_sign`
//! (points) and on the kit's `indexmap`, a set in order of insertion.
#![tactic(auto)]

mod laws;
mod merging;

pub use laws::each_row_has_its_point;
pub use merging::{Merged, merge};
use std::alloc::AllocError;

/// Out of memory: the one error that any input may cause.
pub type NoMemory = AllocError;
