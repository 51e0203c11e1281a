//! `check MESH OUT`: its arguments, and the files that it reads.
ghost use Rattle.std.specs.Option.{option_map};
ghost use Rattle.std.specs.Prelude.{◌≡◌, false, map, string_bytes, IfOk};
ghost use Rattle.command_run.specs.Answers.{file_limit};
ghost use Rattle.command_run.specs.Steps.{IsReplied, IsReplyOf, CountsFaults, ReadsFor};
ghost use Rattle.host.specs.Whole.{OnlyReads};
ghost use Rattle.mesh_ply.specs.Texts.{IsPrinted};
ghost use Rattle.mesh_cmd.specs.Commands.{asked, confirm_of};
ghost use Rattle.mesh_cmd.specs.Check.{confirm_names, confirm_task, OutAnswer};
ghost use Rattle.mesh_cmd.specs.Input.{surface_of_input};

mod answer;

use crate::commands::Command;
use crate::input::{InputMesh, InputReading, Role, read_input};
use answer::reply_to_finished;
use command_run::{FILE_LIMIT, Reply, Stop, are_names, invalid_input};
use host::Host;
use std::alloc::Global;

/// The arguments of `check`.
#[derive(Clone, Copy, Debug)]
pub struct CheckWords<'a> {
    /// The name of the mesh that was finished.
    pub mesh: &'a str,
    /// The name of the finished mesh.
    pub finished: &'a str,
}

/// Returns the command that the arguments after `check` ask for, if they are valid.
pub fn check_command(words: &[String]) -> Option<Command<'_>>
    ensures { option_map asked result ≡ confirm_of (map string_bytes words.now) }
{
    let [mesh, finished] = words else {
        return None;
    };
    if !are_names(words) {
        return None;
    }
    Some(Command::Check(CheckWords {
        mesh: mesh.as_str(),
        finished: finished.as_str(),
    }))
}

/// Reads the two meshes and makes the answer of `check`. Nothing is written or said.
pub fn reply_to_check<'a, H: Host>(
    alloc: Global,
    host: &mut H,
    words: &CheckWords<'a>,
) -> Result<Reply<'a>, Stop>
    requires { (H.state host.old).writing ≡ false }
    ensures replied { IfOk result (λ reply. IsReplied file_limit (confirm_task (confirm_names words.now)) reply (H.state host.old)) }
    ensures reads { ReadsFor file_limit (confirm_task (confirm_names words.now)) (H.state host.old) (H.state host.new) }
    ensures cause { CountsFaults result (H.state host.old).faults (H.state host.new).faults }
{
    match read_input(alloc, host, words.mesh, FILE_LIMIT, Role::First)? {
        InputReading::Mesh(home) => reply_to_home(alloc, host, &home, words),
        InputReading::Refused(line) => Ok(invalid_input(alloc, line)),
    }
}

/// Reads the finished mesh and makes the answer, if the mesh that it was made of is valid.
fn reply_to_home<'a, H: Host>(
    alloc: Global,
    host: &mut H,
    home: &InputMesh,
    words: &CheckWords<'a>,
) -> Result<Reply<'a>, Stop>
    requires closed { (H.state host.old).writing ≡ false }
    requires home { IsPrinted home.now.mesh.points.items home.now.mesh.faces.items }
    ensures replied { IfOk result (λ reply. IsReplyOf (confirm_task (confirm_names words.now)) (OutAnswer file_limit words.now.finished.now home.now.digest (surface_of_input home.now)) reply (H.state host.old)) }
    ensures only { OnlyReads (H.state host.old) (H.state host.new) }
    ensures cause { CountsFaults result (H.state host.old).faults (H.state host.new).faults }
{
    match read_input(alloc, host, words.finished, FILE_LIMIT, Role::Finished)? {
        InputReading::Mesh(finished) => Ok(reply_to_finished(alloc, home, &finished)?),
        InputReading::Refused(line) => Ok(invalid_input(alloc, line)),
    }
}
