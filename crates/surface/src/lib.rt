//! Extracts the surface between outside and inside cells: the facets of outside cells whose adjacent cell is inside, as a
//! closed mesh.
//!
//! Verified: `facets` and `facets_by_number` return the closed mesh between the outside and the inside cells of given labels.
//!
//! `cut` finds the facets in one pass over the cells, and sorts only these. `boundary` makes the mesh of them.
//!
//! The labels are passed in, in the order of a list of all cells (`facets`) or at the cells' numbers (`facets_by_number`);
//! `numbered` converts the former to the latter. The crate depends on `tetra_store` (linked cells), `cell_net` (their sides),
//! `mesh` (the mesh of a list of facets), and the theorems of `cell_laws` by which the facets are closed.
#![tactic(auto)]

mod boundary;
mod cut;
mod numbered;

pub use boundary::{facets, facets_by_number};
use std::alloc::AllocError;

/// Out of memory: the one error that any input may cause.
pub type NoMemory = AllocError;
