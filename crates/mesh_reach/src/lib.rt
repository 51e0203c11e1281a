//! Whether the corners of a mesh are near the faces of another.
//!
//! Verified: if `first_unreached` finds none, each corner of the faces of a mesh is within a distance of a face of another.
//!
//! [`first_unreached`] looks for a face near each corner of the faces of a mesh, by exact tests of whole weights (`face_near`). A hinted
//! face is tried first, then all faces whose boxes are near. `None` is exact: each corner is at most the distance from a point of a face.
//! That a corner that is returned is far is not promised.
//!
//! It depends on `face_near` (points near a face), `triangles` and `mesh_flips` (boxes of faces) and `mesh` (meshes).
#![tactic(auto)]

mod hinted;
mod look;
mod reached;

pub use face_near::Reach;
pub use reached::first_unreached;
use std::alloc::AllocError;

/// Out of memory.
pub type NoMemory = AllocError;
