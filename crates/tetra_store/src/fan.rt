//! Facets over which new cells are put.

use crate::CellId;

/// A facet of the boundary of the conflict region (the cells taken out), over which a new cell is put.
#[derive(Clone, Copy, Debug, Default, PartialEq, Eq)]
pub struct Facet {
    /// Its three vertices by number, in the order in which the cells that it belongs to are on its positive side.
    pub v: [u32; 3],
    /// The adjacent cell outside. There is none on a wall of the box.
    pub outer: Option<CellId>,
}
