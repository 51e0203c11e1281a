//! Finishes a mesh for viewing and printing: the largest pieces are kept, vertices are split so that each edge has two faces, edges
//! are flipped where that lowers the angles between faces, and vertices move so that neighboring faces agree on their directions.
//!
//! Verified: `finish_mesh` keeps whole pieces, splits, flips, smooths, as asked; it ends closed. Only tested: angles fall.
//! Smoothing keeps each point within a distance.
//!
//! [`finish_mesh`] states what each step keeps, one after another. The pieces are whole, the split mesh is a copy of them in which each
//! edge has two faces, flips keep its points and what was apart in it, and smoothing keeps each point within a distance and what was
//! apart. The finished mesh is closed, and if vertices were split the faces around each vertex are one cycle, which is tested at the
//! end. Which pieces are the largest, which edges are flipped and how smooth the mesh is is not promised.
//!
//! It depends on `mesh_edges` (twins), `mesh_pieces` (pieces, split vertices), `mesh_flips`, `mesh_smooth`, `mesh_measures`
//! (cycles around vertices), `mesh_provenance` (options) and `mesh_ply` (meshes).
#![tactic(auto)]

mod options;
mod order;
mod smoothed;
mod steps;
mod turned;
mod umbrellas;
mod whole;

pub use finish_options::{FinishOptions, SmoothOptions};
pub use options::{FinishError, Step};
pub use smoothed::FinishedMesh;
use std::alloc::AllocError;
pub use whole::finish_mesh;

/// Out of memory.
pub type NoMemory = AllocError;
