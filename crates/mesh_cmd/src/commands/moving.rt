//! `move MESH TARGETS OUT smooth=N within=D ..`: its arguments, its answer and its lines.
ghost use Rattle.std.specs.Option.{option_map};
ghost use Rattle.std.specs.Prelude.{◌≡◌, ◌++◌, false, length, map, string_bytes, IfOk};
ghost use Rattle.host.specs.Whole.{OnlyReads};
ghost use Rattle.mesh.specs.Meshes.{Surface};
ghost use Rattle.mesh_ply.specs.Texts.{IsPrinted};
ghost use Rattle.command_run.specs.Answers.{file_limit};
ghost use Rattle.command_run.specs.Replies.{answer_of};
ghost use Rattle.command_run.specs.Steps.{IsReplied, IsReplyOf, ReadsFor, CountsFaults, surface_of};
ghost use Rattle.mesh_cmd.specs.Commands.{asked, move_of};
ghost use Rattle.mesh_cmd.specs.Input.{surface_of_input};
ghost use Rattle.mesh_cmd.specs.Moving.{move_names, move_request, move_task, miscounted_line, MoveAnswer, TargetsAnswer};

use crate::commands::Command;
use crate::commands::finish::{reply_of_mesh, reply_to_error};
use crate::input::{InputMesh, InputReading, Role, read_input};
use crate::options::{FinishRequest, options_in};
use command_run::{
    FILE_LIMIT, Line, NoMemory, Reply, Stop, are_names, invalid_input, push_labelled,
};
use geo_sign::Point;
use host::Host;
use mesh::Mesh;
use mesh_finish::finish_mesh;
use std::alloc::Global;

/// The arguments of `move`.
#[derive(Clone, Copy, Debug)]
pub struct MoveWords<'a> {
    /// The name of the mesh that is read.
    pub mesh: &'a str,
    /// The name of the mesh whose points are the targets.
    pub targets: &'a str,
    /// The name of the file that is written.
    pub output: &'a str,
    /// What is done to the mesh, and whether the output states it.
    pub request: FinishRequest,
}

/// Returns the command that the arguments after `move` ask for, if they are valid.
pub fn move_command(words: &[String]) -> Option<Command<'_>>
    ensures { option_map asked result ≡ move_of (map string_bytes words.now) }
{
    let [mesh, targets, output, options @ ..] = words else {
        return None;
    };
    if !are_names(&words[..3]) {
        return None;
    }
    let request = request_in(options)?;
    Some(Command::Move(MoveWords {
        mesh: mesh.as_str(),
        targets: targets.as_str(),
        output: output.as_str(),
        request,
    }))
}

/// Returns the options that these arguments are, if they are valid and points are to move.
fn request_in(words: &[String]) -> Option<FinishRequest>
    ensures { result ≡ move_request (map string_bytes words.now) }
{
    let request = options_in(words)?;
    match request.options.smoothing {
        None => None,
        Some(_) => Some(request),
    }
}

/// Reads the mesh and the targets, and makes the answer of `move`. Nothing is written or said.
pub fn reply_to_move<'a, H: Host>(
    alloc: Global,
    host: &mut H,
    words: &MoveWords<'a>,
) -> Result<Reply<'a>, Stop>
    requires { (H.state host.old).writing ≡ false }
    ensures replied { IfOk result (λ reply. IsReplied file_limit (move_task (move_names words.now) words.now.request) reply (H.state host.old)) }
    ensures reads { ReadsFor file_limit (move_task (move_names words.now) words.now.request) (H.state host.old) (H.state host.new) }
    ensures cause { CountsFaults result (H.state host.old).faults (H.state host.new).faults }
{
    match read_input(alloc, host, words.mesh, FILE_LIMIT, Role::First)? {
        InputReading::Mesh(home) => reply_to_home(alloc, host, home, words),
        InputReading::Refused(line) => Ok(invalid_input(alloc, line)),
    }
}

/// Reads the targets and makes the answer, if the mesh is valid.
fn reply_to_home<'a, H: Host>(
    alloc: Global,
    host: &mut H,
    home: InputMesh,
    words: &MoveWords<'a>,
) -> Result<Reply<'a>, Stop>
    requires closed { (H.state host.old).writing ≡ false }
    requires home { IsPrinted home.mesh.points.items home.mesh.faces.items }
    ensures replied { IfOk result (λ reply. IsReplyOf (move_task (move_names words.now) words.now.request) (TargetsAnswer file_limit (move_names words.now) words.now.request home.digest (surface_of_input home)) reply (H.state host.old)) }
    ensures only { OnlyReads (H.state host.old) (H.state host.new) }
    ensures cause { CountsFaults result (H.state host.old).faults (H.state host.new).faults }
{
    match read_input(alloc, host, words.targets, FILE_LIMIT, Role::Targets)? {
        InputReading::Mesh(targets) => {
            let InputMesh { mesh, digest, .. } = home;
            Ok(reply_to_targets(alloc, mesh, &digest, &targets.mesh, words)?)
        }
        InputReading::Refused(line) => Ok(invalid_input(alloc, line)),
    }
}

/// Makes the answer to a mesh whose file has this digest, and targets.
fn reply_to_targets<'a>(
    alloc: Global,
    mesh: Mesh,
    digest: &[u8; 32],
    targets: &Mesh,
    words: &MoveWords<'a>,
) -> Result<Reply<'a>, NoMemory>
    requires { IsPrinted mesh.points.items mesh.faces.items }
    ensures { IfOk result (λ reply. MoveAnswer words.now.output.now words.now.request digest.now (surface_of mesh) (surface_of targets.now) (answer_of 2 reply)) }
{
    match finish_mesh(alloc, mesh, words.request.options, &targets.points) {
        Ok(moved) => {
            if moved.mesh.points.len() != targets.points.len() {
                let line = line_of_miscount(alloc, &targets.points, &moved.mesh.points)?;
                return Ok(invalid_input(alloc, Line::Made(line)));
            }
            Ok(reply_of_mesh(alloc, &moved, digest, words.request, words.output)?)
        }
        Err(error) => Ok(reply_to_error(alloc, error)?),
    }
}

/// Returns the line of another number of targets than there are points.
#[tactic(auto, unfolding(crate::specs::Moving::miscounted_line))]
fn line_of_miscount(alloc: Global, targets: &[Point], points: &[Point]) -> Result<Vec<u8>, NoMemory>
    ensures { IfOk result (λ line. line.items ≡ miscounted_line (length targets.now) (length points.now)) }
{
    let mut line = Vec::new(alloc);
    push_labelled(
        &mut line,
        b"refused 36 targets_count targets ",
        targets.len() as u64,
    )?;
    push_labelled(&mut line, b" points ", points.len() as u64)?;
    line.push(b'\n')?;
    Ok(line)
}
