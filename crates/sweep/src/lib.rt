//! Computes the best surfaces of a scan at increasing area weights, and reuses the flow.
//!
//! Verified: after each `raise` of the area weight, `mesh` and `cost` are those of a fresh build (`a_sweep_is_as_a_fresh_build`).
//!
//! Cells and visibility weights do not depend on the area weight, so they are computed once. A larger area weight adds the same
//! to each capacity, and a maximum flow stays valid: it is kept from weight to weight, and only augmented. If all sinks are
//! full, nothing is done.
//!
//! `sweeping` has the type, and `handing` passes its surfaces to writers. `specs/Swept` defines the content of a sweep, and
//! `specs/Entries` its cost and its surface; `laws` states that they are those of a fresh build. The crate depends on
//! `solution` and `cell_net` (cells and the network over them), on `max_flow` (flow and labels), on `surface` (the mesh of labels)
//! and on `mesh_form` (mesh writers).
#![tactic(auto)]

mod handing;
mod laws;
mod sweeping;

pub use handing::{Costs, hand_surfaces, hand_surfaces_watched};
pub use laws::a_sweep_is_as_a_fresh_build;
use std::alloc::AllocError;
pub use sweeping::Sweep;

/// Out of memory: the one error that any input may cause.
pub type NoMemory = AllocError;
