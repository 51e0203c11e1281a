//! Edge flips: the edge between two faces is replaced by the other diagonal of their four corners.
//!
//! Verified: `flip_edges` keeps a closed mesh closed (`flips_keep_closed`), and faces that were apart stay apart.
//!
//! [`flip_edges`] flips edges where that lowers the angles between faces, or the area, and only where the new faces are apart from all
//! others and the new edge is not there yet. So faces that were apart stay apart, and no directed edge occurs twice that did not. [`flip`]
//! replaces two faces, and the theorems say what any number of flips keeps. [`faces_in_order`] sorts faces along a curve, for fast searches.
//!
//! It depends on `triangles` (faces near a box, faces that are apart) and `mesh_edges` (edges of faces).
#![tactic(auto)]

mod clear;
mod driving;
mod falls;
mod flips;
mod hints;
mod laws;
mod order;
mod quad;
mod way;

pub use clear::hull_of;
pub use driving::{FlipOrder, flip_edges, tree_of};
pub use flips::flip;
pub use laws::{flips_keep_closed, flips_keep_faces};
pub use order::{FaceOrder, curve_key, faces_in_order};
pub use quad::{Quad, quad_at};
use std::alloc::AllocError;
pub use way::Way;

/// Out of memory.
pub type NoMemory = AllocError;
