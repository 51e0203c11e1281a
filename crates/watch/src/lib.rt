//! Progress callbacks.
//!
//! Verified: callbacks (`Watch`, `Silent`) return, and cannot influence results.
//!
//! `Watch` is the trait of progress callbacks: they receive the stage that begins, its number of points or sights if that is known,
//! and how many of them are done. A callback returns nothing, and the trait has no contract, so callers know only that its calls are
//! safe and return, and the result of a call with a callback does not depend on the callback. `Silent` is a callback that does
//! nothing.
//!
//! The crate depends on the standard library alone.
#![tactic(auto)]

mod pieces;
mod watch;

pub use pieces::{PIECE, tell};
pub use watch::{Silent, Stage, Watch};
