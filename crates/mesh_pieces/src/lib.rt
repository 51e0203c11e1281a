//! Steps that renumber the vertices of a closed mesh: keeping its largest pieces, and splitting its vertices.
//!
//! Verified: `keep_pieces` returns the largest pieces, closed; `split_mesh` a closed copy in which each edge has two faces.
//!
//! A step that renumbers vertices, because some are left out or because one becomes several, proposes the new faces and the origin of
//! each new vertex. [`copy_mesh`] verifies both in one pass and makes the mesh, or returns `None`. So the proposal needs no proof.
//!
//! **Pieces.** A piece is a set of faces that are connected across paired edges. [`keep_pieces`] keeps the largest ones, and leaves out
//! the points that no kept face has. The new numbers of vertices and of half edges are proposed without a contract and then verified.
//!
//! **Splitting.** The umbrella of a vertex is its faces, as they are connected across paired edges. Where sheets touch in an edge or a
//! vertex, a vertex has several. [`split_mesh`] gives each umbrella a vertex of its own at the same point. Where two half edges have the
//! same umbrella at both ends, the umbrellas are divided first ([`mesh_edges::divide_umbrellas`]), so no directed edge occurs twice. So
//! each edge has exactly two faces ([`edges_have_two_faces`]). It fails only if it runs out of memory.
//!
//! It depends on `mesh_edges` (twins, umbrellas, connected faces, sizes).
#![tactic(auto)]

mod connected;
mod copies;
mod kept;
mod largest;
mod laws;
mod order;
mod pieces;
mod renumber;
mod split;
mod vertices;

pub use copies::{copied_points, copy_mesh};
pub use laws::edges_have_two_faces;
pub use mesh::{Mesh, NoMemory};
pub use order::{is_ascending, is_non_descending};
pub use pieces::{PairedMesh, PiecesError, keep_pieces};
pub use split::split_mesh;
