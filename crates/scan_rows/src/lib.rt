//! Scans as data: points in scaled units, each with the scanners that saw it and a weight, and the positions of the scanners.
//!
//! Verified: each `Scan` keeps its limits (`IsShown`): existing points and scanners, sights in order, data points, and counts.
//!
//! A [`Scan`] holds the content of the rows of a file: the points, the scanners, and the list of sights. It has no weight for a
//! row without a sight. Files of scans are read and printed elsewhere (`scan`).
//!
//! The crate depends on `geo_sign` (points) alone.
#![tactic(auto)]

mod scan;

pub use scan::{POINT_LIMIT, SCANNER_LIMIT, SIGHT_LIMIT, SIGHT_WEIGHT_LIMIT, Scan, Seen};
