//! Smooths a mesh: vertices move so that neighboring faces agree on their directions, each at most a given distance from where it was.
//!
//! Verified: `smooth_mesh` keeps each point within an exact distance, faces that were apart stay so. Only tested: it smooths.
//! The same holds for `smooth`. Only tested: faces become smoother.
//!
//! [`smooth`] is one step. Floating point proposes places, and whole numbers decide: a vertex moves only to a place whose exact distance
//! from its home is at most `within`, and corners of faces that are no longer known to be apart go back. So faces that were apart stay
//! apart. [`smooth_mesh`] repeats the step on a finer grid and flips edges after each.
//!
//! The proposals are those of bilateral normal filtering (Zheng, Fu, Au and Tai 2011, by areas and angles) with vertex updates along
//! the filtered normals (Sun, Rosin, Martin and Langbein 2007). No contract depends on them.
//!
//! The crate depends on `mesh_flips` (flips, boxes of faces) and `triangles` (faces near a box, faces that are apart).
#![tactic(auto)]

mod boxes;
mod directions;
mod fine_grid;
mod marking;
mod place;
mod proposal;
mod putting_back;
mod rounds;
mod step;
mod whole;

use std::alloc::AllocError;
pub use step::{MoveHints, smooth};
pub use whole::{Smoothed, Smoothing, smooth_mesh};

/// Out of memory.
pub type NoMemory = AllocError;
