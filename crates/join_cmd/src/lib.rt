//! The command `join` of `recon-mesh`: reads the list of the tiles of a scan and their meshes, and makes the answer that writes one
//! closed mesh.
//!
//! Verified: `reply_to_join` makes an answer of `join_task`: a join of the meshes in the files that the list names, or an error.
//!
//! Names of files are passed to the host as they stand in the list. A mesh is freed when the joined mesh is in memory.
//!
//! It depends on `host` and `command_run` (answers), `tile_list` (the list), `mesh_ply` (meshes) and `mesh_join` (joins).
#![tactic(auto)]

mod lines;
mod meshes;
mod reply;
mod tiles;

pub use command_run::{NoMemory, Reply, Stop};
pub use mesh_join::Core;
pub use reply::{JoinWords, reply_to_join};
pub use tile_list::TileLine;
