//! Theorems on one Delaunay tetrahedralization under symbolic perturbation: what insertion, walks and lines of sight need from
//! geometry, for any store of cells.
//!
//! Verified: theorems about the tetrahedralization: covering, uniqueness, insertion, walks, lines of sight, closed surfaces.
//!
//! The crate does no work at run time. Each function is a theorem: its contract is the statement and its body is empty, and
//! proofs of other crates cite it. All theorems suppose one record of hypotheses, `IsBoxed`: the corners of the box are in
//! place and in, the other vertices are distinct data points, in or not, and all have the heights of the perturbation. Cells
//! are four vertices by the empty-sphere definition, and never what some program has made.
//!
//! | File | Theorems |
//! |---|---|
//! | `cells` | cells cover the box, do not overlap and meet in facets; the sign of a power |
//! | `insertion` | one more vertex: which cells go, which come, and that the boundary of the conflict region is closed |
//! | `links` | linked cells: a list of names, the vertices of each, and its neighbor at each side; closed facets between labels |
//! | `walks` | walks to a place end; one cell is a scanner's, one towards it, one behind a sight; what a sight crosses, in order |
//! | `stores` | the points, names and rows of a store |
//!
//! The crate depends on `geo_sign` alone.
#![tactic(auto)]

mod cells;
mod insertion;
mod links;
mod stores;
mod walks;

pub use cells::{
    across_law, envelope_law, facet_law, generic_law, one_law, place_law, strict_envelope_law,
    three_lifts_law, three_terms_law, tie_law,
};
pub use insertion::{edge_law, fan_law, flood_law, stay_law, vertex_law};
pub use links::{cavity_law, closed_law, found_law, linked_law, rim_law};
pub use stores::{all_law, list_law, row_law, stored_law};
pub use walks::{
    near_law, path_law, row_sight_law, scanner_law, sight_law, spread_law, step_law,
    vertex_sight_law,
};
