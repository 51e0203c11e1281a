//! The text format of triangle meshes, a PLY file with integer coordinates.
//!
//! Verified: `push_mesh`, `read_mesh`: each mesh has one text, which is read back exactly (`mesh_texts_are_distinct`).
//!
//! The text of a mesh is PLY 1.0 in its `ascii` format (Greg Turk's description of the
//! Polygon File Format), restricted to one canonical spelling, so each valid mesh has exactly one text, and exactly these texts
//! are accepted; any other text gives its first error in line order.
//!
//! The crate depends on `geo_sign` (points), `mesh` (meshes) and `line_text` (numbers in lines, printed and read).
#![tactic(auto)]

mod fields;
mod laws;
mod read;
mod refusal;
mod text;
mod words;

pub use laws::mesh_texts_are_distinct;
pub use mesh::{Mesh, NoMemory, facets_make_valid_meshes, mesh_of_facets};
pub use read::read_mesh;
pub use refusal::MeshRefusal;
pub use text::{push_faces, push_mesh, push_point, push_points};
