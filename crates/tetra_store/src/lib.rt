//! The store of linked cells: the vertices of the box and the data, which of them are inserted, and the cells over those. Each
//! cell names its neighbors.
//!
//! Verified: all links of cells are correct after `with_box`, `replace` and `renumber`; `across`, `neighbor` return the adjacent cell.
//!
//! It knows no geometry but the sign of an orientation and the walls of the box. Its type keeps that the cells are linked:
//! which cell is adjacent at each facet, and that each facet is in one cell alone. It does not keep that the cells are
//! Delaunay: its callers choose the cells that `replace` takes out, and state it. Only `with_box` states it of its cells.
//!
//! A cell takes 40 bytes: 32 for its vertices and neighbors, 4 for hints of the mirror index of each neighbor, and 4 by which
//! the slab marks a slot that is taken. A vertex takes 12 bytes for its point, 4 for its incident cell, one for whether it is
//! inserted and one for its number in a boundary.
#![tactic(auto)]

mod boxed;
mod cells;
mod edge;
mod fan;
mod growth;
mod hints;
mod id;
mod joining;
mod keeping;
mod kept;
mod laws;
mod link;
mod linked;
mod numbers;
mod removal;
mod renumbering;
mod replace;
mod store;

pub use boxed::VERTEX_LIMIT;
pub use cells::Cells;
pub use fan::Facet;
pub use id::CellId;
pub use laws::corner_law;
pub use link::Cell;
use std::alloc::AllocError;
pub use store::{MOST_CELLS, Neighbor, Tetra};

/// Out of memory: the one answer that any input may get.
pub type NoMemory = AllocError;
