//! Simplifies a closed mesh: fewer faces, and no corner of the mesh farther from them than a distance.
//!
//! Verified: `simplify_mesh` returns a closed mesh near all corners of the given one, in which no two faces meet that did not.
//!
//! [`simplify_mesh`] takes the result of a search without a contract (`mesh_collapse`) and tests it: it is closed, no directed edge occurs
//! twice that did not, no two faces have the same vertices, each corner of the given mesh is within the distance of a face, and two faces
//! are apart or were faces of the given mesh. If that is asked, each point of either mesh is near the other; where one is not, the search
//! starts again with shorter distances there. If a test fails, the mesh stays as it is, which keeps all of this too. So the contract does
//! not depend on the search. How many faces are left is not promised.
//!
//! [`simplifying_makes_nothing_meet`] is a theorem: two faces that are not apart were faces of the given mesh, and were not apart there.
//!
//! It depends on `mesh_collapse` (search), `mesh_reach` and `mesh_cover` (near faces), `mesh_edges` (closed meshes), `mesh_pieces` (single edges) and
//! `mesh_crossings` (faces that are apart).
#![tactic(auto)]

mod candidate;
mod distinct;
mod double;
mod kept;
mod laws;
mod single;
mod surface;
mod tests;
mod valid;
mod whole;

pub use laws::simplifying_makes_nothing_meet;
pub use mesh_collapse::Request;
use std::alloc::AllocError;
pub use whole::{SimplifyError, simplify_mesh};

/// Out of memory.
pub type NoMemory = AllocError;
