//! `recon`, the program: it passes the arguments of its command line, mesh writers and the system to
//! `recon_cmd::run_forms_within`, and ends with the status that this returns (`ends_over`). That the system passes the right
//! arguments is trusted: that is one line of `ends_on`. If standard error is a terminal, the progress is shown there
//! (`progress`).
//!
//! Verified: the program ends with the status of `run`, over any host (`ends`). Only tested: its arguments and the system.
//! Over the system (`ends_over`) it is verified only that some run of `recon_cmd` could have this status and what
//! `RealHost` counts. Only tested: that the arguments are those of the command line (`ends_on` passes them).
#![tactic(auto)]

mod advice;
mod against;
mod ends;
mod progress;

use ends::ends_on;
use flow_hint::Hinting;
use progress::{Progress, is_dumb};
use std::io::IsTerminal;
use std::process::ExitCode;

fn main(rt: HostRuntime) -> ExitCode {
    let is_seen = rt.stderr().is_terminal() && !is_dumb(&rt);
    let watch = Progress::new(rt, is_seen);
    ends_on(rt, &mut Hinting { watch }, is_seen)
}
