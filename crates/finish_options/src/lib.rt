//! The options with which a mesh is finished or simplified, as data. Their text is read and printed elsewhere (`mesh_provenance`).
//!
//! Verified: nothing, it is a type.
//!
//! The crate depends on the standard library alone.
#![tactic(auto)]

mod options;

pub use options::{FARTHEST, FinishOptions, MOST_STEPS, Made, SimplifyOptions, SmoothOptions};
