//! How the program ends, given the arguments from the system. Depends on `recon_cmd`, and on the writers of `mesh_form`.
ghost use Rattle.std.specs.Prelude.{◌≡◌, false, map, string_bytes, IfOk, OnErr, Some, None};
ghost use Rattle.std.specs.Process.{exit_status};
ghost use Rattle.recon_cmd.specs.Sweep.{entries_of};
ghost use Rattle.recon_main.specs.Ends.{EndsOn, EndsAfterARun, RunsOn, RunsOrIdles};
ghost use Rattle.real_host.specs.Real.{real_state};
ghost use Rattle.real_host.specs.Start.{fresh_state};

use crate::advice::Hints;
use flow_net::FlowHints;
use host::Host;
use mesh_form::{Form, ObjForm, OffForm, PlyForm};
use real_host::{RealHost, Unnamed, arguments_after_name};
use recon_cmd::{FILE_LIMIT, Request, Status, run, run_forms_within};
use std::alloc::{AllocError, Global};
use std::env::Args;
use std::io::ErrorKind;
use std::process::ExitCode;
use std::rt::{Env, Files};
use std::{env, io};

/// Runs the whole program: it ends with the status of a run on the system's arguments over the system's files and output.
///
/// The arguments from the system are unspecified, so the contract does not name them: it states that the status is one of
/// [`ends_over`], whose host is dropped here. The program's name is left out of the arguments. Reports the stages of the work
/// to a progress callback.
/// `is_seen`: standard error is a terminal, so `build` prints hints on the surface there.
pub fn ends_on<R: Env + Files + Print + Eprint + AllocGlobal + Drop, W: FlowHints>(
    rt: R,
    watch: &mut W,
    is_seen: bool,
) -> ExitCode
    ensures { EndsAfterARun (exit_status result) }
{
    let args = env::args(&(Unnamed(&rt), rt.alloc()));
    let (status, _host) = ends_over(rt, args, watch, is_seen);
    status
}

/// Runs on these arguments over the system's files and output, which were not used before. Returns the exit status of the
/// program, and the host after the run.
///
/// The arguments from the system itself decide only which lines of usage are printed as a hint.
pub fn ends_over<R: Env + Files + Print + Eprint + AllocGlobal + Drop, W: FlowHints>(
    rt: R,
    args: io::Result<Args>,
    watch: &mut W,
    is_seen: bool,
) -> (ExitCode, RealHost<R, R::File, Hints>)
    ensures { EndsOn args (exit_status result.0) fresh_state (real_state result.1) }
{
    let alloc = rt.alloc();
    let hints = Hints::new(&rt, is_seen);
    let mut host = RealHost::new(rt, hints);
    let status = ends(alloc, args, &mut host, watch);
    (status, host)
}

/// Returns the exit status of the program, after a run on the arguments after the program's name.
///
/// If some argument is not text, the arguments are invalid, as if there were none. If there is no memory for the arguments or
/// for the writers of `export` and `sweep`, the status is 5 and nothing is done.
pub fn ends<H: Host, W: FlowHints>(
    alloc: Global,
    args: io::Result<Args>,
    host: &mut H,
    watch: &mut W,
) -> ExitCode
    requires { (H.state host.old).writing ≡ false }
    ensures { EndsOn args (exit_status result) (H.state host.old) (H.state host.new) }
{
    let status = match args {
        Ok(args) => match arguments_after_name(alloc, args) {
            Ok(words) => run_on(alloc, &words, host, watch),
            Err(AllocError) => Status::NoMemory.code(),
        },
        Err(error) if error.kind() == ErrorKind::OutOfMemory => Status::NoMemory.code(),
        Err(_) => run(alloc, &[], host),
    };
    ExitCode::from(status)
}

/// Returns the status of a run on these arguments; `export` writes PLY, OFF and OBJ, and `sweep` writes PLY. If there is no
/// memory for the writers, nothing is done.
fn run_on<H: Host, W: FlowHints>(alloc: Global, words: &[String], host: &mut H, watch: &mut W) -> u8
    requires { (H.state host.old).writing ≡ false }
    ensures { RunsOrIdles (map string_bytes words.now) result (H.state host.old) (H.state host.new) }
{
    match run_in_forms(alloc, words, host, watch) {
        Ok(status) => status,
        Err(AllocError) => Status::NoMemory.code(),
    }
}

/// Returns the same, and no status if there is no memory for the writers.
fn run_in_forms<H: Host, W: FlowHints>(
    alloc: Global,
    words: &[String],
    host: &mut H,
    watch: &mut W,
) -> Result<u8, AllocError>
    requires { (H.state host.old).writing ≡ false }
    ensures ran { IfOk result (λ status. RunsOn (map string_bytes words.now) status (H.state host.old) (H.state host.new)) }
    ensures idle { OnErr result (H.state host.new ≡ H.state host.old) }
{
    match Request::forms_wanted(words) {
        Some(entries) => run_in_meshes(alloc, words, host, entries, watch),
        None => run_in_formats(alloc, words, host, watch),
    }
}

/// Returns the same for arguments of `sweep`, with each of this number of surfaces written as PLY.
fn run_in_meshes<H: Host, W: FlowHints>(
    alloc: Global,
    words: &[String],
    host: &mut H,
    entries: u32,
    watch: &mut W,
) -> Result<u8, AllocError>
    requires closed { (H.state host.old).writing ≡ false }
    requires entries { entries_of (map string_bytes words.now) ≡ Some entries }
    ensures ran { IfOk result (λ status. RunsOn (map string_bytes words.now) status (H.state host.old) (H.state host.new)) }
    ensures idle { OnErr result (H.state host.new ≡ H.state host.old) }
{
    let mut forms: Vec<Box<dyn Form>> = Vec::new(alloc);
    while forms.len() < entries as usize {
        let form = PlyForm::new(alloc);
        forms.push(Box::new(alloc, form)?)?;
    }
    Ok(run_forms_within(alloc, words, host, &mut forms, FILE_LIMIT, watch))
}

/// Returns the same for other arguments, with `export` writing a mesh as PLY, OFF and OBJ.
fn run_in_formats<H: Host, W: FlowHints>(
    alloc: Global,
    words: &[String],
    host: &mut H,
    watch: &mut W,
) -> Result<u8, AllocError>
    requires closed { (H.state host.old).writing ≡ false }
    requires others { entries_of (map string_bytes words.now) ≡ None }
    ensures ran { IfOk result (λ status. RunsOn (map string_bytes words.now) status (H.state host.old) (H.state host.new)) }
    ensures idle { OnErr result (H.state host.new ≡ H.state host.old) }
{
    let mut forms: Vec<Box<dyn Form>> = Vec::new(alloc);
    forms.push(Box::new(alloc, PlyForm::new(alloc))?)?;
    forms.push(Box::new(alloc, OffForm::new(alloc))?)?;
    forms.push(Box::new(alloc, ObjForm::new(alloc))?)?;
    Ok(run_forms_within(alloc, words, host, &mut forms, FILE_LIMIT, watch))
}
