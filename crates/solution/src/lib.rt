//! Defines the best surface of a scan and the certificate of its optimality, and finds the minimum cut that it is.
//!
//! Verified: `counted` returns all weights exactly, `minimum_cut_of` the minimum cut; `IsSolution` defines the best surface.
//! `counted` returns, for each directed facet and each cell, the total weight that all lines of sight give it.
//! `counted_cells` returns the cells of a scan with these weights, and `minimum_cut_of` their minimum cut with the
//! smallest inside. Two solutions of a scan differ only in the flows of their certificates
//! (`solutions_differ_in_their_flows_alone`).
//!
//! The cells of a Delaunay tetrahedralization are labelled inside or outside by a minimum cut, in which each line of sight
//! penalises the facets that it crosses and favours the cell behind its point as inside (Labatut, Pons and Keriven 2007 and
//! 2009, in integers). `specs/Solutions` defines a solution, over cells and directed facets alone, and `specs/Scans` the scene
//! of a scan. The crates that compute and that check solutions both depend on it, and not on each other.
//!
//! Its code is what both need. `sights` has the points and sights of a scan. `cells` makes the linked Delaunay cells of its
//! points with the accumulated visibility weights, and `cutting` solves over the implicit network: by the numbers of cells the
//! minimum cut with the smallest inside, and a flow whose value is its cost.
//!
//! `counting` adds the weight of each sight to each directed facet that it crosses and to the cell behind its point, by the
//! numbers of cells in the store (`counted`). `fixing` finds the cells of the scanners and the cells fixed outside. Along most
//! sights `tally` walks, from the point to the scanner, two at a time; `ordering` sorts them so that successive ones cross much
//! the same cells. Run time is proportional to the number of crossings. Where a scanner's sights are so long that many pass the
//! same cells, which `choosing` estimates, `beaming` follows them together, by the crate `beam`.
//!
//! The crate depends on `scan` and `merge` (the content of a scan, each point once), `visibility` and `flow_net` (cost and
//! flows), `mesh_ply` and `cert_text` (meshes and certificates), `delaunay` (cells), `tetra_walk`, `sight` and `beam` (walks),
//! `cell_net` (the network), `max_flow` (flow and labels), and the theorems of `cell_laws`.
#![tactic(auto)]

mod beaming;
mod cells;
mod choosing;
mod counting;
mod cutting;
mod fixing;
mod laws;
mod ordering;
mod sights;
mod tally;

pub use cells::{counted_cells, counted_cells_with};
pub use counting::{Votes, counted};
pub use cutting::{MinimumCut, minimum_cut_of};
pub use laws::{least_costs_fit, solutions_differ_in_their_flows_alone};
pub use sights::{SeenPoints, seen_in};
use std::alloc::AllocError;

/// Out of memory: the one error that any input may cause.
pub type NoMemory = AllocError;
