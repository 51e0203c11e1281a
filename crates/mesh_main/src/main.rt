//! `recon-mesh`, the program: it passes the arguments of its command line and the system to `mesh_cmd::run`, and ends with the status
//! that this returns (`ends_over`). What the system gives as arguments is trusted: that is one line of `ends_on`.
//!
//! Verified: the program ends with the status of `run`, over any host (`ends`). Only tested: its arguments and the system.
//! Over the system (`ends_over`) it is verified only that some run could have this status and what `RealHost` counts.
//! Only tested: that the arguments are those of the command line (`ends_on` passes them).
#![tactic(auto)]

mod advice;
mod ends;

use ends::ends_on;
use std::process::ExitCode;

fn main(rt: HostRuntime) -> ExitCode {
    ends_on(rt)
}
