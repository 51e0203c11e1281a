//! The answers of a check of a mesh and a certificate. It depends on the points of `geo_sign`.

use geo_sign::Point;

/// Names a number that a certificate states about its scan.
#[derive(Clone, Copy, Debug, PartialEq, Eq)]
pub enum Which {
    /// The number of distinct points of the scan.
    Points,
    /// The number of scanners.
    Scanners,
    /// The number of lines of sight: one for each scanner that a point's row names, or one for each row from a fixed scanner.
    Sights,
    /// The visibility weight: the weight of a sight that counts once.
    Vote,
    /// The area weight: the weight of one facet of the surface.
    Smooth,
}

/// States why a mesh and a certificate are not the best surface of a scan and its certificate of optimality.
///
/// A cell is the sorted tuple of its four vertex indices, a directed facet the tuple of its three with the smallest first. A cell without
/// an inside row is outside; an amount without a row is 0. Row indices count from 0 in their list.
#[derive(Clone, Copy, Debug, PartialEq, Eq)]
pub enum Reason {
    /// A line of the certificate, counted from 1, is invalid there.
    CertLine(u64),
    /// The rows of the certificate are not in ascending order at this line, counted from 1.
    CertOrder(u64),
    /// The certificate is truncated: it ends before an expected line does.
    CertCut,
    /// The certificate belongs to the scan of another file. This and the next two apply to certificates with a fingerprint of the input.
    OtherScan {
        /// The SHA-256 digest that the certificate states.
        stated: [u8; 32],
        /// The digest of the scan file of this run.
        here: [u8; 32],
    },
    /// The certificate was made at another scale.
    OtherUnit {
        /// The scale that it states.
        stated: u32,
        /// The scale of this run.
        here: u32,
    },
    /// The certificate was made with another fixed scanner, or one of the two has none.
    OtherFixed {
        /// The fixed scanner that it states, in scaled units.
        stated: Option<Point>,
        /// The fixed scanner of this run.
        here: Option<Point>,
    },
    /// The certificate belongs to another scan or to other weights: the first of the numbers that differs.
    OtherCounts {
        /// The number.
        which: Which,
        /// The value that the certificate states.
        stated: u32,
        /// The value of this scan.
        here: u32,
    },
    /// An inside row names no cell of the scan.
    NoSuchCell {
        /// The index of the first of these rows.
        row: u64,
    },
    /// A flow row names no directed facet whose adjacent cell is free.
    NoSuchFacet {
        /// The index of the first of these rows.
        row: u64,
    },
    /// A sink row names no cell of the scan.
    NoSuchSink {
        /// The index of the first of these rows.
        row: u64,
    },
    /// A cell that contains a corner of the box or a scanner, and so is fixed outside, is inside.
    FixedInside {
        /// The first of these cells.
        cell: [u32; 4],
    },
    /// The flow over a facet exceeds its capacity.
    OverCapacity {
        /// The first of these facets.
        facet: [u32; 3],
        /// The flow over it.
        flow: u64,
        /// Its capacity.
        cap: u64,
    },
    /// The flow at a cell's sink exceeds its limit.
    OverSink {
        /// The first of these cells.
        cell: [u32; 4],
        /// The flow at its sink.
        flow: u64,
        /// The limit: the capacity of its sink, or 0 for a cell fixed outside.
        cap: u64,
    },
    /// The flow is not conserved at a free cell.
    Unbalanced {
        /// The first of these cells.
        cell: [u32; 4],
        /// The flow that enters it over facets.
        amount_in: u128,
        /// The flow that leaves it over facets and at its sink.
        amount_out: u128,
    },
    /// The value of the flow is not the cost of the labels.
    NotEqual {
        /// The value of the flow.
        value: u128,
        /// The cost of the labels.
        cost: u128,
    },
    /// A cell is inside that is outside by the minimum cut with the smallest inside.
    NotLeast {
        /// The first of these cells.
        cell: [u32; 4],
    },
    /// The certificate states another cost than that of its labels.
    WrongCost {
        /// The cost that it states.
        stated: u64,
        /// The cost of the labels.
        cost: u64,
    },
    /// The mesh is not the text of the surface of the labels.
    MeshDiffers {
        /// The first position, counted from 0, at which the two differ, or the length of the shorter one if it is a prefix of the other.
        place: usize,
    },
}

/// The result of a check of a mesh and a certificate.
#[derive(Clone, Copy, Debug, PartialEq, Eq)]
pub enum Answer {
    /// The mesh is the best surface of the scan, and the certificate is valid.
    Yes {
        /// The number of inside cells.
        inside: u64,
        /// The number of faces of the surface.
        faces: u64,
        /// The cost of the labels.
        cost: u64,
    },
    /// The first reason why it is not so, in the order of the variants.
    No(Reason),
}
