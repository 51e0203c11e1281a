//! The environment of a program: files by name, and output.
//!
//! Verified: `read_all`, `append_all`, `say_all`, `write_file` do exactly what their contracts say, over any `Host`.
//! `MemHost`, for tests, fails exactly where it is asked to, and at missing and full files.
//!
//! `Host` is the environment as a trait that counts its faults, `MemHost` a host in memory for tests, which exposes all its
//! bytes and fails exactly as configured. `read_all`, `append_all`, `say_all` and `write_file` work over any host. Failures of
//! a host are `Failed`; out of memory is `NoMemory`.
//!
//! The operating system's files are implemented elsewhere (`real_host`). Depends on `watch` (progress callbacks, which it passes on)
//! and `thiserror`.
#![tactic(auto)]

mod calls;
mod files;
mod host;
mod laws;
mod memory;
mod plan;
mod store;

pub use calls::{ReadRefusal, append_all, read_all, say_all, write_file};
pub use host::{Failed, Host};
pub use laws::pieces_come_in_turn;
pub use memory::MemHost;
pub use plan::HostCall;
use std::alloc::AllocError;
pub use watch::{PIECE, Silent, Stage, Watch, tell};

/// Out of memory.
pub type NoMemory = AllocError;
