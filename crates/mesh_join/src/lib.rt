//! Joins the meshes of tiles into one closed mesh.
//!
//! Verified: `join_tiles` returns a closed mesh of the faces that all owners of their edges have, and of a number of filled ones.
//! The result is unique for given owners and filled faces (`joins_are_unique`).
//!
//! A scan that is too large for one run is built in tiles, which overlap. Space is divided into their *cores*. Each edge is owned by one
//! tile, the one in whose core its middle lies, and takes the faces of that tile: a face is joined if the owners of its three edges have
//! it. Where tiles disagree about a face, edges are moved to another owner, so that they agree. The search for these promises nothing
//! (`search`), nor does what fills the rest (`fill`): that the faces are those of the owners, and that the mesh is closed, is verified
//! of the result.
//!
//! Vertices of tiles that stand at one place are one vertex of the joined mesh. The crate depends on `mesh_edges`, whose twins show that
//! the mesh is closed.
#![tactic(auto)]

mod all_places;
mod apart;
mod crossing;
mod fill;
mod grid;
mod held;
mod join;
mod laws;
mod owners;
mod patch;
mod places;
mod rows;
mod search;
mod slots;
mod twins;

pub use held::Tile;
pub use join::{Joined, Refusal, join_tiles};
pub use laws::{faces_at_home_are_kept, joins_are_unique};
pub use mesh::{Mesh, NoMemory};
pub use mesh_edges::UnbalancedEdge;
pub use owners::{Core, Owners};
