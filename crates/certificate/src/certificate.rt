//! The type of certificates.

use crate::Stamp;
use std::alloc::AllocError;

/// Out of memory.
pub type NoMemory = AllocError;

/// The flow over a directed facet, from its own cell to the adjacent cell.
///
/// In a well-formed certificate the facet's three vertex numbers are distinct with the
/// smallest first, and the amount is at least 1.
#[derive(Clone, Copy, Debug, PartialEq, Eq)]
pub struct FlowRow {
    /// The facet, by its three vertex numbers.
    pub facet: [u32; 3],
    /// The flow over the facet.
    pub amount: u64,
}

/// The flow from a cell into its sink.
///
/// In a well-formed certificate the cell's four vertex numbers ascend, and the amount is at least 1.
#[derive(Clone, Copy, Debug, PartialEq, Eq)]
pub struct SinkRow {
    /// The cell, by its four vertex numbers.
    pub cell: [u32; 4],
    /// The flow into its sink.
    pub amount: u64,
}

/// Labels and a flow, with the fingerprint, the counts and the weights of their scan.
///
/// A cell is given by its four vertex numbers, a directed facet by its three. An amount without a row is 0, and a cell without
/// a row in `inside` is outside. A certificate is *well formed* if the rows are as described at [`FlowRow`] and [`SinkRow`],
/// the four numbers of each inside cell ascend, and each of the three lists is strictly ascending by its cells or facets,
/// compared lexicographically.
#[derive(Debug, Drop)]
pub struct Certificate {
    /// The scan that it belongs to; `None` in a certificate of the first version.
    pub stamp: Option<Stamp>,
    /// The number of distinct points of the scan.
    pub points: u32,
    /// The number of scanners.
    pub scanners: u32,
    /// The number of lines of sight.
    pub sights: u32,
    /// The visibility weight: the weight of a sight of weight 1.
    pub vote: u32,
    /// The area weight: the weight of one facet of the surface.
    pub smooth: u32,
    /// The cost of the labels.
    pub cost: u64,
    /// The cells that are inside.
    pub inside: Vec<[u32; 4]>,
    /// The flow over facets.
    pub flow: Vec<FlowRow>,
    /// The flow into sinks.
    pub sink: Vec<SinkRow>,
}
