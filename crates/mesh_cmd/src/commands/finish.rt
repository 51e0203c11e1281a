//! `finish MESH OUT [pieces=N] [manifold=yes] [flips=no] [smooth=N within=D] [comments=no]`: its arguments, its answer and its lines.
ghost use Rattle.std.specs.Option.{option_map};
ghost use Rattle.std.specs.Prelude.{◌≡◌, ◌++◌, false, length, map, string_bytes, IfOk, OnOk};
ghost use Rattle.mesh.specs.Meshes.{Surface};
ghost use Rattle.mesh_ply.specs.Texts.{IsPrinted};
ghost use Rattle.mesh_provenance.specs.Texts.{file_text};
ghost use Rattle.mesh_finish.specs.Steps.{ExplainsFinish};
ghost use Rattle.finish_options.specs.declared.options.FinishOptions.{FinishOptions};
ghost use Rattle.command_run.specs.Answers.{file_limit};
ghost use Rattle.command_run.specs.Replies.{answer_of};
ghost use Rattle.command_run.specs.Steps.{IsReplied, ReadsFor, CountsFaults, surface_of};
ghost use Rattle.mesh_cmd.specs.Commands.{asked, finish_of};
ghost use Rattle.mesh_cmd.specs.Finish.{finish_names, finish_task, scale_text, finished_line, stated_by, finish_done, not_closed_line, unverified_line, IsNotFinished, FinishAnswer};

use crate::commands::Command;
use crate::input::{InputMesh, InputReading, Role, read_input};
use crate::options::{FinishRequest, options_in};
use command_run::{
    FILE_LIMIT, Line, NoMemory, Reply, Status, Stop, Text, are_names, invalid_input, line_of_text,
    push_labelled,
};
use host::Host;
use mesh::Mesh;
use mesh_finish::{FinishError, FinishedMesh, SmoothOptions, Step, finish_mesh};
use mesh_ply::push_mesh;
use mesh_provenance::{Made, Provenance, push_annotated};
use std::alloc::{AllocError, Global};

/// The arguments of `finish`.
#[derive(Clone, Copy, Debug)]
pub struct FinishWords<'a> {
    /// The name of the mesh that is read.
    pub mesh: &'a str,
    /// The name of the file that is written.
    pub output: &'a str,
    /// What is done to the mesh, and whether the output states it.
    pub request: FinishRequest,
}

/// Returns the command that the arguments after `finish` ask for, if they are valid.
pub fn finish_command(words: &[String]) -> Option<Command<'_>>
    ensures { option_map asked result ≡ finish_of (map string_bytes words.now) }
{
    let [mesh, output, options @ ..] = words else {
        return None;
    };
    if !are_names(&words[..2]) {
        return None;
    }
    let request = options_in(options)?;
    Some(Command::Finish(FinishWords {
        mesh: mesh.as_str(),
        output: output.as_str(),
        request,
    }))
}

/// Reads the mesh and makes the answer of `finish`. Nothing is written or said.
pub fn reply_to_finish<'a, H: Host>(
    alloc: Global,
    host: &mut H,
    words: &FinishWords<'a>,
) -> Result<Reply<'a>, Stop>
    requires { (H.state host.old).writing ≡ false }
    ensures replied { IfOk result (λ reply. IsReplied file_limit (finish_task (finish_names words.now) words.now.request) reply (H.state host.old)) }
    ensures reads { ReadsFor file_limit (finish_task (finish_names words.now) words.now.request) (H.state host.old) (H.state host.new) }
    ensures cause { CountsFaults result (H.state host.old).faults (H.state host.new).faults }
{
    match read_input(alloc, host, words.mesh, FILE_LIMIT, Role::First)? {
        InputReading::Mesh(input) => {
            let InputMesh { mesh, digest, .. } = input;
            Ok(reply_to_mesh(alloc, mesh, &digest, words.request, words.output)?)
        }
        InputReading::Refused(line) => Ok(invalid_input(alloc, line)),
    }
}

/// Makes the answer to a mesh whose file has this digest.
fn reply_to_mesh<'a>(
    alloc: Global,
    mesh: Mesh,
    digest: &[u8; 32],
    request: FinishRequest,
    output: &'a str,
) -> Result<Reply<'a>, NoMemory>
    requires { IsPrinted mesh.points.items mesh.faces.items }
    ensures { IfOk result (λ reply. FinishAnswer output.now request digest.now (surface_of mesh) (answer_of 1 reply)) }
{
    match finish_mesh(alloc, mesh, request.options, &[]) {
        Ok(finished) => Ok(reply_of_mesh(alloc, &finished, digest, request, output)?),
        Err(error) => Ok(reply_to_error(alloc, error)?),
    }
}

/// Makes the answer that says why a mesh is not finished. Out of memory has none.
pub(crate) fn reply_to_error<'a>(alloc: Global, error: FinishError) -> Result<Reply<'a>, NoMemory>
    ensures { (options : FinishOptions) (mesh : Surface) → ExplainsFinish options mesh.points mesh.faces error → IfOk result (λ reply. IsNotFinished options mesh (answer_of 1 reply)) }
{
    match error {
        FinishError::NotClosed(edge) => {
            let line = line_of_open_mesh(alloc, edge.from, edge.to, edge.there, edge.back)?;
            Ok(invalid_input(alloc, Line::Made(line)))
        }
        FinishError::Unverified(step) => {
            let line = line_of_unverified(alloc, step)?;
            Ok(invalid_input(alloc, Line::Made(line)))
        }
        FinishError::NoMemory => Err(AllocError),
    }
}

/// Makes the answer that writes this mesh.
pub(crate) fn reply_of_mesh<'a>(
    alloc: Global,
    finished: &FinishedMesh,
    digest: &[u8; 32],
    request: FinishRequest,
    output: &'a str,
) -> Result<Reply<'a>, NoMemory>
    requires { IsPrinted finished.now.mesh.points.items finished.now.mesh.faces.items }
    ensures { IfOk result (λ reply. answer_of 1 reply ≡ finish_done output.now request digest.now (surface_of finished.now.mesh) finished.now.fine) }
{
    let text = text_of_mesh(alloc, finished, digest, request)?;
    let smoothing = request.options.smoothing;
    let line = line_of_finish(alloc, &finished.mesh, smoothing, finished.fine)?;
    let mut texts = Vec::new(alloc);
    texts.push(Text {
        name: output,
        bytes: text,
    })?;
    Ok(Reply {
        status: Status::Done,
        texts,
        line: Line::Made(line),
    })
}

/// Returns the text of this mesh, with where it comes from unless that is left out.
fn text_of_mesh(
    alloc: Global,
    finished: &FinishedMesh,
    digest: &[u8; 32],
    request: FinishRequest,
) -> Result<Vec<u8>, NoMemory>
    requires { IsPrinted finished.now.mesh.points.items finished.now.mesh.faces.items }
    ensures { IfOk result (λ text. text.items ≡ file_text (stated_by request digest.now finished.now.fine) finished.now.mesh.points.items finished.now.mesh.faces.items) }
{
    let mut text = Vec::new(alloc);
    if request.comments {
        let digest = *digest;
        let provenance = Provenance {
            made: Made::Finish(request.options),
            fine: finished.fine,
            digest,
        };
        push_annotated(&mut text, &provenance, &finished.mesh)?;
    } else {
        push_mesh(&mut text, &finished.mesh)?;
    }
    Ok(text)
}

/// Appends how many units of the new mesh one unit of the mesh has, if it was smoothed.
#[tactic(auto, unfolding(crate::specs::Finish::scale_text))]
fn push_scale(
    line: &mut Vec<u8>,
    smoothing: Option<SmoothOptions>,
    fine: u32,
) -> Result<(), NoMemory>
    ensures { OnOk result (line.new.items ≡ line.old.items ++ scale_text smoothing fine) }
{
    match smoothing {
        None => Ok(()),
        Some(_) => push_labelled(line, b" fine ", u64::from(fine)),
    }
}

/// Returns the line of `finish`: the numbers of points and faces that were written, and the scale of a smoothed mesh.
#[tactic(auto, unfolding(crate::specs::Finish::finished_line))]
fn line_of_finish(
    alloc: Global,
    mesh: &Mesh,
    smoothing: Option<SmoothOptions>,
    fine: u32,
) -> Result<Vec<u8>, NoMemory>
    ensures { IfOk result (λ line. line.items ≡ finished_line smoothing (length mesh.now.points.items) (length mesh.now.faces.items) fine) }
{
    let mut line = Vec::new(alloc);
    push_labelled(&mut line, b"finished points ", mesh.points.len() as u64)?;
    push_labelled(&mut line, b" faces ", mesh.faces.len() as u64)?;
    push_scale(&mut line, smoothing, fine)?;
    line.push(b'\n')?;
    Ok(line)
}

/// Returns the line of a mesh that is not closed: an edge, and how many faces have it in each direction.
#[tactic(auto, unfolding(crate::specs::Finish::not_closed_line))]
pub(crate) fn line_of_open_mesh(
    alloc: Global,
    from: u32,
    to: u32,
    there: u32,
    back: u32,
) -> Result<Vec<u8>, NoMemory>
    ensures { IfOk result (λ line. line.items ≡ not_closed_line from to there back) }
{
    let mut line = Vec::new(alloc);
    push_labelled(&mut line, b"refused 28 unbalanced from ", u64::from(from))?;
    push_labelled(&mut line, b" to ", u64::from(to))?;
    push_labelled(&mut line, b" there ", u64::from(there))?;
    push_labelled(&mut line, b" back ", u64::from(back))?;
    line.push(b'\n')?;
    Ok(line)
}

/// Returns the line of a step whose result did not pass its verification.
fn line_of_unverified(alloc: Global, step: Step) -> Result<Vec<u8>, NoMemory>
    ensures { IfOk result (λ line. line.items ≡ unverified_line step) }
{
    match step {
        Step::Pieces => line_of_text(alloc, b"refused 31 unverified pieces"),
        Step::Umbrellas => line_of_text(alloc, b"refused 31 unverified umbrellas"),
    }
}
