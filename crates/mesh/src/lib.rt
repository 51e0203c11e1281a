//! Triangle meshes as data: their type, when one is valid, and the mesh of a list of directed facets.
//!
//! Verified: `mesh_of_facets` returns the mesh of a list of directed facets. It is valid (`facets_make_valid_meshes`).
//!
//! A mesh is a list of points and a list of faces, each face three indices of points. Their order gives the outside: seen from
//! there, the three points are counterclockwise. Texts of meshes are read and printed elsewhere (`mesh_ply`, `mesh_form`).
//!
//! The crate depends on `geo_sign` (points) alone.
#![tactic(auto)]

mod facets;
mod laws;
mod mesh;

pub use facets::mesh_of_facets;
pub use laws::facets_make_valid_meshes;
pub use mesh::{Mesh, NoMemory};
