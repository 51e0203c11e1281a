//! Certificates of optimality as data, and the fingerprint of the scan that one belongs to.
//!
//! Verified: each `Stamp` has a digest of 32 bytes, a scale from 1 to a million and data points alone (`IsStamp`).
//!
//! A certificate states the inside cells and a flow, so that a reader with the scan can verify by the max-flow min-cut theorem
//! that no labels cost less. Its text is read and printed elsewhere (`cert_text`).
//!
//! The crate depends on `geo_sign` (points) and on `hex` for the definition of bytes.
#![tactic(auto)]

mod certificate;
mod stamp;

pub use certificate::{Certificate, FlowRow, NoMemory, SinkRow};
pub use stamp::{Stamp, UNIT_LIMIT};
