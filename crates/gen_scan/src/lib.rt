//! Generates a scan of any size from a seed: points on the six faces of a cube, each face seen by a scanner before it.
//!
//! Verified: `gen_scan` returns exactly the defined test scan of a size and a seed: a cube, seen from six positions.
//!
//! The scan needs no file, and has a known outcome for each size and seed. The random words are those of `Pcg32` (O'Neill, the
//! PCG generators), so that any program can make the same scan. The crate depends on `scan` and on the kit's `rand_pcg`.
#![tactic(auto)]

mod cube;
mod generate;

pub use generate::gen_scan;
use std::alloc::AllocError;

/// Out of memory: the one error that any input may cause.
pub type NoMemory = AllocError;
