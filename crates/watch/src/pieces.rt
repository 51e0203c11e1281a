//! The frequency of calls.

use crate::watch::Watch;

/// The number of points, sights or nodes between two calls.
pub const PIECE: usize = 4096;

/// Calls back with the number that is done, if that is a multiple of `PIECE`: so calling this for each item takes no measurable
/// time.
pub fn tell<W: Watch>(watch: &mut W, count: usize) {
    if count % PIECE == 0 {
        watch.done(count as u64);
    }
}
