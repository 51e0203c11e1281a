//! Whether a finished mesh is what it has to be: closed, manifold if vertices were split, and with each vertex near one of the mesh that
//! it was made of.
//!
//! Verified: `judge` returns the first unmet demand: closed, manifold (if asked), near the original; else it counts crossings.
//! If all are met, it returns how many pairs of faces cross or are undecided.
//!
//! `judge_simplified` does the same for a simplified mesh: closed, each corner of the original near a face, and each point of either mesh near the other if that is asked.
//!
//! Of a simplified mesh a fault can name a point that is shown to be farther than the distance from each face of the other mesh.
//!
//! [`first_far`] finds the first point of a list that is farther than a distance from each point of another list, which may be on a coarser
//! grid, as the points of a mesh are before smoothing.
//!
//! [`judge`] tests this for any mesh and trusts nothing that is said of it. It finds the first fault, or counts the pairs of faces that
//! cross, which no finished mesh promises to have none of.
//!
//! It depends on `mesh_edges` (closed meshes), `mesh_measures` (edges and vertices), `mesh_reach`, `mesh_cover` and `face_near` (near
//! faces), `triangles` (weighted sums of corners), `mesh_flips` (vectors in floating point) and `mesh_crossings`.
#![tactic(auto)]

mod far;
mod farthest;
mod judging;
mod near;
mod search;
mod simplified;
mod verdict;

pub use judging::judge;
pub use mesh_edges::NoMemory;
pub use search::first_far;
pub use simplified::judge_simplified;
pub use verdict::{Demands, Fault, Uncovered, Unreached, Verdict};
