//! Linked cells with visibility weights: the network that they are, and their cells and sides as sorted lists.
//!
//! Verified: `CellNetwork` has the costs and flow values of cells and facets (`store_network_law`); `rising_cells` lists all cells.
//! Its arcs are not stored. `rising_cells` returns the cells in ascending order.
//!
//! Node v of the network is the cell with number v, arc 4 * v + k its side k, which leads to the adjacent cell; nothing is
//! listed. The capacity of an arc is the visibility weight for each sight that crosses its facet and the area weight, the sink
//! of a node the visibility weight for each sight that its cell is behind. A number without a cell stands for a fixed node
//! without arcs on which anything can flow, and so do sides on walls and towards cells fixed outside for arcs.
//!
//! `network` has the network (`CellNetwork`) and `counts` what it is made from. `cells` lists all cells in ascending order
//! (`rising_cells`), `rows` has the sorted vertices of one cell, `sides` the directed facets of cells and the sorted ones
//! between cells with a flag and cells with none (`sorted_cut`), and `keys` the numbers by which both are sorted. `laws` has the
//! theorems that lead from the numbers of cells and sides to cells and facets: what is counted does not depend on how a cell or
//! a facet is written, and labels and flows of the network are judged as those over cells and facets.
//!
//! No sight and no point is looked at. The crate depends on `tetra_store` (linked cells), `visibility` (scenes and the cost of
//! labels), `flow_net` (networks by numbers) and the theorems of `cell_laws`.
#![tactic(auto)]

mod cells;
mod counts;
mod keys;
mod laws;
mod network;
mod rows;
mod sides;

pub use cells::rising_cells;
pub use counts::StoreCounts;
pub use keys::{cell_key, facet_key};
pub use laws::{cell_count_law, facet_count_law, store_network_law, stored_cells_law};
pub use network::CellNetwork;
pub use rows::{Row, cell_row, cells_of, sorted_rows};
pub use sides::{Side, facet_row, flag, push_open, sort_sides, sorted_cut};
use std::alloc::AllocError;

/// Out of memory: the one error that any input may cause.
pub type NoMemory = AllocError;
