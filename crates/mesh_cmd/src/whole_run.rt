//! A whole run of the program over any host.
ghost use Rattle.std.specs.Prelude.{◌≡◌, false, map, string_bytes, None, Some};
ghost use Rattle.command_run.specs.Status.{ExitsWith};
ghost use Rattle.mesh_cmd.specs.Commands.{Outcome, command_of, asked};

use crate::commands::{Command, reply_to, understand};
use command_run::{Status, Stop, carry_out, conclude, line_of_bad_arguments};
use host::Host;
use std::alloc::Global;

/// Runs the command that the arguments ask for, and returns the exit status of the program. The arguments are those after the
/// program's name.
///
/// | Status | When |
/// |---|---|
/// | 0 | the command is done |
/// | 1 | the finished mesh is not what it states |
/// | 2 | invalid arguments |
/// | 3 | the mesh is invalid or not closed, or its file is longer than 4,294,967,296 bytes |
/// | 4 | a call of the host failed |
/// | 5 | out of memory |
///
/// All but 4 occur only if no call of the host failed. Status 5 prints nothing, and each of 0 to 3 prints exactly one line.
/// No file is created before its text and the line stand in memory, and no part of the line is printed before all files are
/// whole. No file but the command's outputs ever changes, and these only with status 0 or 4. [`Command`] says which are read.
pub fn run<H: Host>(alloc: Global, words: &[String], host: &mut H) -> u8
    requires { (H.state host.old).writing ≡ false }
    ensures { ExitsWith result (λ status. Outcome (command_of (map string_bytes words.now)) status (H.state host.old) (H.state host.new)) }
{
    match understand(words) {
        Some(command) => obey(alloc, &command, host).code(),
        None => reject_arguments(host).code(),
    }
}

/// Says that the arguments are invalid.
fn reject_arguments<H: Host>(host: &mut H) -> Status
    requires { (H.state host.old).writing ≡ false }
    ensures { Outcome None result (H.state host.old) (H.state host.new) }
{
    conclude(host, &[], line_of_bad_arguments(), Status::BadArguments)
}

/// Makes the answer of a command and carries it out.
fn obey<H: Host>(alloc: Global, command: &Command, host: &mut H) -> Status
    requires { (H.state host.old).writing ≡ false }
    ensures { Outcome (Some (asked command.now)) result (H.state host.old) (H.state host.new) }
{
    let reply = reply_to(alloc, host, command);
    match reply {
        Ok(reply) => carry_out(host, &reply),
        Err(Stop::Failed) => Status::Failed,
        Err(Stop::NoMemory) => Status::NoMemory,
    }
}
