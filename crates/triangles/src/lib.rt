//! Triangles near each other: boxes in a hierarchy, and an exact test that two triangles share no more than common corners and edges.
//!
//! Verified: `near` finds every box that overlaps a query box; if `are_apart`, two triangles share only common corners and edges.
//!
//! **Boxes.** [`HullTree`] is a bounding volume hierarchy of numbered boxes. A leaf has a box around those of four consecutive numbers,
//! and each inner node one around those of its two children. The nodes are numbered as in a heap: the root is 1, and the children of node
//! `k` are `2 k` and `2 k + 1`. Boxes only grow, so an inserted box stays inside the boxes of all nodes above its number, and a search
//! that skips disjoint nodes misses nothing. It may find other numbers too, and is fast if consecutive numbers have boxes near each other.
//!
//! **Pairs.** Two triangles are *apart* if each point that both contain is a common corner or on a common edge. [`are_apart`] looks for
//! planes that weakly separate the two. A corner strictly off such a plane has the weight 0 in each common point: it is *excluded*. So
//! several planes, each through a common corner, can show together what none shows alone. Planes parallel to a face of one, or to an edge
//! of each, are tried. All of these are the same for two triangles in one plane, so for these planes along an edge of one and an axis off
//! their plane are tried too. If no plane suffices, the answer is no, which states nothing. Heights over a plane are of degree 3 in
//! coordinates, below 2^75.
//!
//! It depends on `geo_sign` (points) and `mesh` (faces).
#![tactic(auto)]

mod corners;
mod gap;
mod heights;
mod hull;
mod near;
mod planes;
mod span;
mod tree;
mod upright;

pub use gap::are_apart;
pub use hull::Hull;
pub use mesh::NoMemory;
pub use span::Span;
pub use tree::HullTree;
