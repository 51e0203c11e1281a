//! Walks through linked Delaunay cells, to a cell that contains a goal.
//!
//! Verified: `locate` returns a cell of a point; `locate_scanner`, `toward`, `behind` the cells at the ends of a line of sight.
//! `locate_displaced` and `locate_scanner` return the one cell that contains a symbolically perturbed scanner. `toward`
//! and `behind` return the cell just before and just after the point of a line of sight. All terminate.
//!
//! A step crosses a facet that the goal is behind (the visibility walk of Devillers, Pion and Teillaud 2002). Lift each vertex
//! by its height by symbolic perturbation: at the goal, the plane of the next cell's lifted vertices is above that of the last
//! one's. So no cell is visited twice, and the walk ends for any choice of facets. The goal is a point, a symbolically
//! perturbed scanner, or a position arbitrarily near to a vertex, towards a scanner or away from it. One loop serves all four.
//! No walk allocates memory, and none fails.
//!
//! The crate depends on `tetra_store` (linked cells), `geo_sign` (signs), and the theorems of `cell_laws` by which a walk goes
//! on and ends.
#![tactic(auto)]

mod goal;
mod side;
mod walk;

pub use side::facet;
pub use walk::{NO_SIDE, behind, locate, locate_displaced, locate_scanner, toward};
