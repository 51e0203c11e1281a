//! The list of the tiles of a scan, as a text: the cuts of space, the file of each tile's mesh, and its core.
//!
//! Verified: `read_tiles` returns the entries whose text is exactly the given one, as many as the first line says.
//!
//! The first line is `tiles N`. Then come N - 1 lines `cut AXIS AT` and N lines `tile FILE LX LY LZ HX HY HZ`, in the order of the tree of
//! cuts: after a cut first all that is below it, then the rest. The core of a tile has the points from L on and below H, in scaled units.
//!
//! The crate depends on `geo_sign` (the size of the box) and `line_text` (numbers in lines).
#![tactic(auto)]

mod entry;
mod read;

pub use entry::{Axis, Corner, Cut, Entry, TileLine};
pub use line_text::LineRefusal;
pub use read::{TILE_LIMIT, read_tiles};
use std::alloc::AllocError;

/// Out of memory.
pub type NoMemory = AllocError;
