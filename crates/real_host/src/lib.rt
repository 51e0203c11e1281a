//! The operating system as a host: its files and standard output, for every program of this repository.
//!
//! Verified: `RealHost` states which calls failed and which files are open. Only tested: the bytes of real files.
//! Its contract states how many calls failed, how many files were opened, and whether files are open, but nothing about
//! bytes.
//!
//! [`RealHost`] implements the trait of `host` over std's files. Each program has its own hints for standard error, by
//! [`Advice`]. [`Unnamed`] is a system whose program has no name, from which the arguments of the command line are read.
//!
//! Depends on `host`.
#![tactic(auto)]

mod advice;
mod args;
mod real;
mod retried;
mod unnamed;

pub use advice::Advice;
pub use args::arguments_after_name;
pub use real::RealHost;
pub use unnamed::Unnamed;
