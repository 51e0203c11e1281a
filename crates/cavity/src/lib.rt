//! The cavity of a vertex that is about to be inserted: the Delaunay cells in conflict with it, and the boundary of this
//! region, over which the cells with the vertex are put.
//!
//! Verified: `cavity_of` finds exactly the cells in conflict with a new vertex, and the boundary around them.
//!
//! This is the first half of an insertion as Bowyer and Watson (1981) describe it: the cells whose spheres contain the new
//! vertex are connected through facets, so a flood fill from any one of them finds all. Symbolic perturbation breaks ties on a
//! sphere, so the cells in conflict are unique. The flood tests each facet of each reached cell once, and marks the cells that
//! it has reached: its time is linear in the size of the cavity. The next flood reuses the memory of the last.
//!
//! The cells do not change: the store removes and adds cells. The crate depends on `tetra_store` (linked cells), `geo_tie` (the
//! test for conflict), the theorems of `cell_laws`, and the kit's `smallvec`.
#![tactic(auto)]

mod cavity;
mod flood;
mod marks;

pub use cavity::{Cavity, CellList, FacetList, cavity_of};
use std::alloc::AllocError;

/// Out of memory: the one error that any input may cause.
pub type NoMemory = AllocError;
