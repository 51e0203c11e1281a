//! The network of linked Delaunay cells as lists, from the sights of a scan: a node for each cell, an arc for each directed facet
//! with a free adjacent cell, both in ascending order.
//!
//! Verified: `count_votes` returns the network of a scan as lists of nodes and arcs. The programs do not use it.
//!
//! It is for users of the crates and for tests. The program works on cells and counts (`cell_net`, `solution`), and no crate on
//! its path depends on this one.
//!
//! `counting` has the call (`count_votes`), which counts with `solution`. `network` makes of what is counted the network as lists
//! (`assemble`): `sides` sorts the directed facets that have a capacity, `tables` finds the indices of nodes and arcs, and `arcs`
//! makes the arcs. The crate depends on `solution` (the counts), `cell_net` (cells and sides as sorted lists), `visibility`
//! (scenes), `plain_net` (what their network is) and `flow_net` (networks as lists).
#![tactic(auto)]

mod arcs;
mod counting;
mod network;
mod sides;
mod tables;

pub use counting::count_votes;
pub use network::Counted;
use std::alloc::AllocError;

/// Out of memory: the one error that any input may cause.
pub type NoMemory = AllocError;
