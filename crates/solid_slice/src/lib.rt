//! Slices a mesh: computes the closed loops in which a horizontal plane cuts its faces.
//!
//! Verified: `slice` returns the exact closed loops of a closed mesh in a horizontal plane (`closed_meshes_are_sliced`).
//!
//! The plane is at the height `h + 1/2`, so no vertex lies in it. A face with vertices above and below has one directed edge
//! that crosses the plane upwards, which gives its point, and one that crosses it downwards. If each directed edge of the mesh
//! occurs as often as its reverse, the faces with a down edge and those with its reverse as up edge are matched in face order,
//! the first with the first and so on: so each cut face has one next face, and following these closes loops. A mesh in which
//! some edge and its reverse occur unequally often is rejected.
//!
//! So a mesh has one slice at a height (`slices_are_unique`), and a closed mesh is rejected only if memory runs out
//! (`closed_meshes_are_sliced`).
//!
//! The edges are sorted; everything else takes linear time. Depends on `mesh_edges` (unbalanced edges), `mesh_ply` (meshes),
//! `geo_sign` (points), `line_text` (numbers in lines) and, for the theorem of closed meshes, `cell_laws` (counts of edges).
#![tactic(auto)]

mod crossings;
mod height;
mod laws;
mod refusal;
mod rings;
mod slicing;
mod step;
mod successors;
mod text;

pub use laws::{closed_meshes_are_sliced, slices_are_unique};
pub use mesh::{Mesh, NoMemory};
pub use refusal::SliceRefusal;
pub use slicing::slice;
pub use step::{Ring, Step};
pub use text::push_slice;
