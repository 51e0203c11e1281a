//! Follows all lines of sight of one scanner through linked Delaunay cells at once, from the scanner outward, and counts at each
//! directed facet those that cross it.
//!
//! Verified: `Beams` adds to the counter of each directed facet the weights of exactly the lines of sight that cross it.
//!
//! `sight` walks along one line of sight at a time. Here all that pass a cell are handled together: what the cell looks like
//! from the scanner is computed once, and then each line of sight takes one or two signs of a product of three 64-bit numbers.
//!
//! `view` has the cells and the scanner, `plane` these signs, `ways` the side through which a line of sight came into a cell,
//! `waiting` the lines of sight that have come to a cell, `order` which cell is left next, and `beam` the loops over them.
#![tactic(auto)]

mod beam;
mod order;
mod plane;
mod view;
mod waiting;
mod ways;

pub use beam::Beams;
use std::alloc::AllocError;
pub use view::View;
pub use ways::Ray;

/// Out of memory: the one error that any input may cause.
pub type NoMemory = AllocError;
