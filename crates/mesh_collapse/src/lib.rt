//! Collapses edges of a closed mesh, cheapest first: a search whose result has to be tested.
//!
//! Verified: `collapse_edges` is safe and ends. Nothing is stated about its result.
//!
//! [`collapse_edges`] merges a vertex into a neighbor again and again. The cost of a collapse is how far the neighbor is from the
//! planes of the faces around the vertex, by area (Garland and Heckbert, 1997, without memory of former faces: Lindstrom and Turk,
//! 1998). If vertices move, the neighbor goes where it is best for the planes around both. A collapse is left out if it changes how faces are connected, turns a face, makes a sliver, leaves a given point farther than
//! a distance from the new faces, or makes two faces meet. Around vertices that have to stay nearer than
//! others, points on edges and the middles of faces are looked at too, of the given mesh and of the new faces. Passes over all vertices along
//! a curve take the cheapest quarter each. A search can begin with the collapses of an earlier one ([`History`]), tested again only around
//! such vertices.
//!
//! No clause says anything of the result but that the call ends. Callers test what they need.
//!
//! It depends on `geo_sign` (points), `mesh_edges` (twins), `triangles` (boxes, faces that are apart), `face_near` (nearest points)
//! and `mesh_flips` (vectors in floating point).
#![tactic(auto)]

mod boxes;
mod clear;
mod collapse;
mod commit;
mod costs;
mod fan;
mod fans;
mod given;
mod homes;
mod link;
mod numbers;
mod order;
mod over;
mod pack;
mod passes;
mod planes;
mod reach;
mod repeat;
mod shape;
mod surface;

pub use collapse::{Collapsed, Request, collapse_edges};
pub use repeat::History;
use std::alloc::AllocError;

/// Out of memory.
pub type NoMemory = AllocError;
