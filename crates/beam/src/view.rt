//! What the lines of sight of one scanner are followed through.

use geo_sign::Point;
use tetra_store::Tetra;

/// The linked cells, and the scanner to which lines of sight lead.
#[derive(Clone, Copy)]
pub struct View<'a> {
    /// The cells.
    pub t: &'a Tetra,
    /// The scanner.
    pub s: Point,
}
