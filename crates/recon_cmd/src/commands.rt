//! The commands: their arguments, and the answer of each. Arguments are parsed without allocating memory. Each command has its
//! own file: its arguments, its answer in memory, and its lines.
ghost use Rattle.std.specs.Prelude.{◌≡◌, IfSome, map, string_bytes, false, IfOk};
ghost use Rattle.command_run.specs.Steps.{IsReplied, ReadsFor, CountsFaults};
ghost use Rattle.recon_cmd.specs.Commands.{AsksForForms, asked_command, asked_export, asked_sweep, command_of, asked, task_of};
ghost use Rattle.recon_cmd.specs.Export.{export_of};
ghost use Rattle.recon_cmd.specs.Sweep.{entries_of, sweep_of};

mod ask;
mod build;
mod cells;
mod check;
mod demo;
mod export;
mod slice;
mod sweeping;

use crate::options::Options;
use ask::{AskNames, ask_command, reply_to_ask};
use build::{BuildNames, build_command, reply_to_build};
use cells::{CellsNames, cells_command, reply_to_cells};
use check::{CheckNames, check_command, reply_to_check, upgrade_command};
use command_run::{Reply, Stop};
use demo::{Demo, demo_command, reply_to_demo};
pub use export::export_mesh;
use export::{ExportWords, export_words};
use flow_net::FlowHints;
use host::Host;
use slice::{SliceWords, reply_to_slice, slice_command};
use std::alloc::Global;
pub use sweeping::sweep_scan;
use sweeping::{SweepWords, sweep_entries, sweep_words};

/// A command with its names and options, and the files that it opens for reading, in order.
#[derive(Clone, Copy, Debug)]
pub enum Command<'a> {
    /// `cells IN OUT`: the Delaunay cells of a scan. It reads the scan. Its weights are the defaults and unused.
    Cells(CellsNames<'a>, Options),
    /// `build IN MESH CERT`: the best surface of a scan, and the certificate of its optimality. It reads the scan.
    Build(BuildNames<'a>, Options),
    /// `check IN MESH CERT`: verifies that a mesh is the best surface of a scan, and a certificate of its optimality. And
    /// `upgrade IN MESH CERT OUT`: if so, writes the certificate with the fingerprint of this run. They read the scan, then the
    /// mesh if the scan is not rejected, then the certificate if the mesh is not too long.
    Check(CheckNames<'a>, Options),
    /// `slice MESH H OUT`: the closed loops in which a horizontal plane cuts a mesh. It reads the mesh.
    Slice(SliceWords<'a>),
    /// `ask IN POINTS OUT`: classifies points as inside or outside the best surface of a scan. It reads the scan, then the
    /// points if the scan is not rejected.
    Ask(AskNames<'a>, Options),
    /// `demo N SEED`: the result of `build` for a scan that is generated from a seed. It reads no file, and writes none.
    Demo(Demo),
}

/// A request for a run.
#[derive(Clone, Copy, Debug)]
pub enum Request<'a> {
    /// A command whose answer does not depend on the writers that are passed.
    Command(Command<'a>),
    /// `export MESH OUT1 .. OUTn`: a mesh in the formats of the writers that are passed.
    Export(ExportWords<'a>),
    /// `sweep IN FROM STEP N OUT1 .. OUTN`: best surfaces of a scan in the formats of the writers that are passed.
    Sweep(SweepWords<'a>),
}

impl<'a> Request<'a> {
    /// Returns the number of writers that the arguments state themselves: that of the fifth argument of `sweep`, if it is 1 to
    /// 64 in 1 to 10 digits, and else 0. Returns `None` if the first argument is not `sweep`.
    pub fn forms_wanted(words: &[String]) -> Option<u32>
        ensures { result ≡ entries_of (map string_bytes words.now) }
    {
        sweep_entries(words)
    }
}

/// Parses the arguments of a run with this number of writers, or returns `None` exactly if they are invalid.
///
/// The arguments are those after the program's name. Names come right after the command, whatever they look like; they are not
/// empty, and no two are equal. After them come options, each a key with its value, in any order, and no key twice.
///
/// | Command | Options |
/// |---|---|
/// | `cells IN OUT` | `unit=`, `scanner=` |
/// | `build IN MESH CERT` | `unit=`, `vote=`, `smooth=`, `scanner=` |
/// | `check IN MESH CERT` | `unit=`, `vote=`, `smooth=`, `scanner=` |
/// | `upgrade IN MESH CERT OUT` | `unit=`, `vote=`, `smooth=`, `scanner=` |
/// | `ask IN POINTS OUT` | `unit=`, `vote=`, `smooth=`, `scanner=` |
/// | `slice MESH H OUT` | none; H is 1 to 7 digits after an optional `-`, at most 8,388,608 from 0 |
/// | `demo N SEED` | none; N is 1 to 1,048,576 in 1 to 10 digits, SEED at most 2^64 - 1 in 1 to 20 |
/// | `export MESH OUT1 .. OUTn` | none; n is the number of writers, at least 1 |
/// | `sweep IN FROM STEP N OUT1 .. OUTN` | `unit=`, `vote=`, `scanner=`; N is the number of writers, 1 to 64 |
///
/// FROM of `sweep` is 0 to 65,535 and STEP 1 to 65,535, each in 1 to 10 digits, and FROM + (N - 1) * STEP is at most 65,535.
pub fn understand(words: &[String], forms: usize) -> Option<Request<'_>>
    ensures command { asked_command result ≡ command_of (map string_bytes words.now) }
    ensures export { asked_export result ≡ export_of forms (map string_bytes words.now) }
    ensures sweep { asked_sweep result ≡ sweep_of forms (map string_bytes words.now) }
    ensures fits { IfSome result (AsksForForms forms) }
{
    let [command, words @ ..] = words else {
        return None;
    };
    match command.as_str() {
        "cells" => cells_command(words),
        "build" => build_command(words),
        "check" => check_command(words),
        "upgrade" => upgrade_command(words),
        "slice" => slice_command(words),
        "ask" => ask_command(words),
        "demo" => demo_command(words),
        "export" => match export_words(words, forms) {
            Some(words) => Some(Request::Export(words)),
            None => None,
        },
        "sweep" => match sweep_words(words, forms) {
            Some(words) => Some(Request::Sweep(words)),
            None => None,
        },
        _ => None,
    }
}

/// Reads the files of a command, each no longer than the limit, and returns its answer. Nothing is written or printed.
pub fn reply_to<'a, H: Host, W: FlowHints>(
    alloc: Global,
    host: &mut H,
    command: &Command<'a>,
    limit: u64,
    watch: &mut W,
) -> Result<Reply<'a>, Stop>
    requires { (H.state host.old).writing ≡ false }
    ensures replied { IfOk result (λ reply. IsReplied limit (task_of (asked command.now)) reply (H.state host.old)) }
    ensures reads { ReadsFor limit (task_of (asked command.now)) (H.state host.old) (H.state host.new) }
    ensures closed { (H.state host.new).writing ≡ false }
    ensures cause { CountsFaults result (H.state host.old).faults (H.state host.new).faults }
{
    match command {
        Command::Cells(names, options) => reply_to_cells(alloc, host, names, options, limit, watch),
        Command::Build(names, options) => reply_to_build(alloc, host, names, options, limit, watch),
        Command::Check(names, options) => reply_to_check(alloc, host, names, options, limit, watch),
        Command::Slice(words) => reply_to_slice(alloc, host, words, limit),
        Command::Ask(names, options) => reply_to_ask(alloc, host, names, options, limit, watch),
        Command::Demo(demo) => Ok(reply_to_demo(alloc, *demo, watch)?),
    }
}
