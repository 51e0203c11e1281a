//! How the program ends, by the arguments that the system gives.
ghost use Rattle.std.specs.Prelude.{◌≡◌, false};
ghost use Rattle.std.specs.Process.{exit_status};
ghost use Rattle.real_host.specs.Real.{real_state};
ghost use Rattle.real_host.specs.Start.{fresh_state};
ghost use Rattle.mesh_main.specs.Ends.{EndsOn, EndsAfterARun};

use crate::advice::Hints;
use host::Host;
use mesh_cmd::{Status, run};
use real_host::{RealHost, Unnamed, arguments_after_name};
use std::alloc::{AllocError, Global};
use std::env::Args;
use std::io::ErrorKind;
use std::process::ExitCode;
use std::rt::{Env, Files};
use std::{env, io};

/// Runs the whole program over the system's arguments, files and output.
///
/// Nothing is known of the arguments that a system gives, so the clause names none: it says that the status is one of [`ends_over`],
/// whose host is dropped here. The program's name is left out of them, whatever it is.
pub fn ends_on<R: Env + Files + Print + Eprint + AllocGlobal + Drop>(rt: R) -> ExitCode
    ensures { EndsAfterARun (exit_status result) }
{
    let args = env::args(&(Unnamed(&rt), rt.alloc()));
    let (status, _host) = ends_over(rt, args);
    status
}

/// Runs on these arguments over the system's files and output, which were not used before. Returns the status that the program ends
/// with, and the host as the run left it.
pub fn ends_over<R: Env + Files + Print + Eprint + AllocGlobal + Drop>(
    rt: R,
    args: io::Result<Args>,
) -> (ExitCode, RealHost<R, R::File, Hints>)
    ensures { EndsOn args (exit_status result.0) fresh_state (real_state result.1) }
{
    let alloc = rt.alloc();
    let mut host = RealHost::new(rt, Hints);
    let status = ends(alloc, args, &mut host);
    (status, host)
}

/// Runs on the arguments after the program's name, and returns the status that the program ends with.
///
/// If one of them is not UTF-8, the run is on no arguments. If there is no memory for them, the status is 5 and nothing is done.
pub fn ends<H: Host>(alloc: Global, args: io::Result<Args>, host: &mut H) -> ExitCode
    requires { (H.state host.old).writing ≡ false }
    ensures { EndsOn args (exit_status result) (H.state host.old) (H.state host.new) }
{
    let status = match args {
        Ok(args) => match arguments_after_name(alloc, args) {
            Ok(words) => run(alloc, &words, host),
            Err(AllocError) => Status::NoMemory.code(),
        },
        Err(error) if error.kind() == ErrorKind::OutOfMemory => Status::NoMemory.code(),
        Err(_) => run(alloc, &[], host),
    };
    ExitCode::from(status)
}
