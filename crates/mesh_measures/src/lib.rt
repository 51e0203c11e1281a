//! Measures of a mesh: its signed volume, its faces without area, and how its faces are connected.
//!
//! Verified: `six_volume`, `count_flat_faces`, `measure_topology` count volume, flat faces, non-manifold edges, pieces exactly.
//! `six_volume` returns six times the signed volume, `count_flat_faces` the number of faces with three collinear
//! corners. `measure_topology` returns three counts: edges that do not have two faces, vertices at which the faces are
//! not one cycle, and pieces.
//!
//! It depends on `mesh_edges` (counts, connected faces and corners), `mesh_ply` (meshes) and `geo_sign` (points).
#![tactic(auto)]

mod flat;
mod manifolds;
mod merges;
mod pieces;
mod sides;
mod topology;
mod volume;

pub use flat::count_flat_faces;
pub use mesh_edges::NoMemory;
pub use topology::{Topology, measure_topology};
pub use volume::six_volume;
