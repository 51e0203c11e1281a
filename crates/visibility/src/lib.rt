//! What a scan's lines of sight say of cells, and the network that finds the best surface.
//!
//! Verified: the cost of labels does not depend on the order of cells and facets (`order_decides_nothing`); sums fit (`amounts_fit`).
//! Capacities are below 2^48.
//!
//! `specs/` defines cells fixed outside, capacities of directed facets, sinks of cells, labels and their cost, and flows, all
//! over lists of cells and of directed facets (Labatut, Pons and Keriven 2007 and 2009, with whole numbers and a constant
//! smoothing term). Of code the crate has the type of scenes, which calls take, and theorems: amounts fit, lists are unique, and
//! their order decides nothing.
//!
//! It makes no cell and no network. It depends on `geo_sign` (cells and sights) and `flow_net` (networks).
#![tactic(auto)]

mod laws;
mod scene;

pub use laws::{amounts_fit, facets_are_listed_once, order_decides_nothing};
pub use scene::Scene;
