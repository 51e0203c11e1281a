//! Symbolic perturbation for vertices on one sphere, and the Delaunay cells of a few points by brute force.
//!
//! Verified: `conflict` returns the sign of the in-sphere determinant under symbolic perturbation; `plain_cells` lists all cells.
//! `plain_cells` takes at most 56 points, for tests.
//!
//! A cell is a Delaunay tetrahedron by the empty-sphere definition: four positively oriented vertices in conflict with no
//! vertex. Ties among five vertices on one sphere are broken by their numbers, so the cells are unique.
//!
//! `tie` has the conflict test, which insertions use. `cells` lists the cells of at most 56 points, for tests: it checks all
//! vertices for each four. The crate depends on `geo_sign` (signs) alone.
#![tactic(auto)]

mod cells;
mod tie;

pub use cells::{PLAIN_LIMIT, plain_cells};
use std::alloc::AllocError;
pub use tie::conflict;

/// Out of memory: the one error that any input may cause.
pub type NoMemory = AllocError;
