//! Builds the Delaunay cells of points by incremental insertion.
//!
//! Verified: `insert` and `build` make exactly the Delaunay cells of the inserted points; these cover the box and do not overlap.
//!
//! An insertion follows Bowyer and Watson (1981): a walk to a cell that contains the vertex, a flood fill from there over all
//! cells in conflict with it, and new cells over the boundary of this region in their place. `insert` does it for one vertex,
//! and `build` for all points, in rounds along a space-filling curve, so that the walks are short.
//!
//! In the end `build` numbers the cells along the curve, so that cells with near numbers are mostly near in space and in
//! memory.
//!
//! Both contracts describe the cells alone: they are exactly the Delaunay cells of the inserted vertices, and with the links
//! between them they partition the box. The order of insertion is not specified, and no cell depends on it.
//!
//! # Example
//!
//! The cells of four points (`geo_sign::Point`) and one between them that have no corner of the box. Point i is vertex 8 + i:
//!
//! ```rust
//! let points = [
//!     Point::data(0, 0, 0).ok_or("a data point")?,
//!     Point::data(300, 0, 0).ok_or("a data point")?,
//!     Point::data(0, 300, 0).ok_or("a data point")?,
//!     Point::data(0, 0, 300).ok_or("a data point")?,
//!     Point::data(50, 50, 50).ok_or("a data point")?,
//! ];
//! let store = build(rt.alloc(), &points)?;
//! let mut cells = store.cells();
//! let mut inner = Vec::new(rt.alloc());
//! while let Some((_, cell)) = cells.next() {
//!     if cell.v.iter().all(|v| *v >= 8) {
//!         inner.push(cell.v)?;
//!     }
//! }
//! assert_eq!(rt; inner.len(), 4);
//! Ok(())
//! ```
#![tactic(auto)]

mod building;
mod insertion;
mod laws;
mod numbering;

pub use building::{build, build_watched};
pub use insertion::{insert, insert_with};
pub use laws::partition_law;
use std::alloc::AllocError;

/// Out of memory: the one error that any input may cause.
pub type NoMemory = AllocError;
