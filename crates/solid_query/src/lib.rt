//! Classifies points as inside or outside the best surface of a scan.
//!
//! Verified: `ask` returns exactly whether each point is inside the best surface; the answer is unique (`labels_are_unique`).
//!
//! A point is perturbed by less than 2^-63 units, as a scanner is, so that it lies strictly inside exactly one Delaunay cell,
//! even if it is a vertex or lies on a facet. It is inside if that cell is in the minimum cut with the smallest inside.
//!
//! `label_at` returns the label of one point among labelled cells, without allocating memory. `read_queries` reads points from
//! a text of decimals, and `ask` and `ask_watched` classify a list of points in a scan. `labels` and `solid` have the common
//! parts.
//!
//! No mesh is read: the answer is for the scan's best surface, not for a given mesh file. The crate depends on `solution` (the
//! cells of a scan and their labels, and the best surface), `tetra_walk` (the cell of a point), `curve_order` (the order in which
//! points are visited) and `num_text` (decimals).
#![tactic(auto)]

mod asking;
mod labels;
mod laws;
mod queries;
mod refusal;
mod solid;

pub use asking::{ask, ask_watched};
pub use labels::label_at;
pub use laws::{labels_are_certified, labels_are_unique, points_have_labels};
pub use queries::{TOKEN_LIMIT, read_queries};
pub use refusal::QueryRefusal;
use std::alloc::AllocError;

/// Out of memory: the one error that any input may cause.
pub type NoMemory = AllocError;
