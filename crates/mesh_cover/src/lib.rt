//! Whether each point of the faces of a mesh is near a face of another.
//!
//! Verified: if `find_uncovered` finds none, each point of each face of a mesh is within a distance of a face of another.
//!
//! The places within a distance of a face are convex. So if the three corners of a triangle are within reach of one face, the whole
//! triangle is. [`find_uncovered`] looks for a face like that for each face of the mesh. If there is none, it cuts the face in four at
//! the middles of its sides, and so on. Floating point proposes the face and its nearest points; the last test is exact. `None` is a proof.
//! That a face that is returned has a far point is not promised: the parts may be too large still, or two faces may share one part.
//!
//! It depends on `face_near` (nearest points of a face), `triangles` and `mesh_flips` (boxes of faces)
//! and `mesh` (meshes).
#![tactic(auto)]

mod cover;
mod exact;
mod near;
mod part;
mod place;
mod uncovered;

use std::alloc::AllocError;
pub use uncovered::{find_uncovered, list_uncovered};

/// Out of memory.
pub type NoMemory = AllocError;
