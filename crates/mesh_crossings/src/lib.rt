//! Pairs of faces that cross: they share a point that is no common corner and on no common edge.
//!
//! Verified: `find_crossings` shows crossing pairs of faces by a common point; all other pairs are apart, or listed as undecided.
//! `count_crossings` counts them.
//!
//! [`find_crossings`] tests each pair of faces whose boxes overlap, and [`count_crossings`] counts what it finds. That two faces are apart
//! is shown by planes (`triangles`). That they cross is shown by whole weights of their corners that give one point of both: weights
//! are proposed by volumes and areas, without a contract, and verified. A pair for which neither is shown is undecided, and no pair is
//! listed as both. So the answer is exact but for the pairs that it lists as undecided.
//!
//! It depends on `triangles` (faces that are apart, boxes near a box), `mesh_flips` (boxes of faces) and `mesh_edges` (pairs of
//! numbers).
#![tactic(auto)]

mod counts;
mod gather;
mod judge;
mod propose;
mod tidy;
mod witness;

pub use counts::{CrossingCounts, count_crossings};
pub use gather::find_crossings;
pub use judge::Crossings;
pub use mesh_edges::NoMemory;
