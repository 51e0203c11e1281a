//! `simplify MESH OUT within=D [faces=N] [surface=yes] [move=yes] [comments=no]`: its arguments, its answer and its line.
ghost use Rattle.std.specs.Option.{option_map};
ghost use Rattle.std.specs.Prelude.{◌≡◌, false, length, map, string_bytes, IfOk};
ghost use Rattle.mesh.specs.Meshes.{Surface};
ghost use Rattle.mesh_ply.specs.Texts.{IsPrinted};
ghost use Rattle.mesh_provenance.specs.Texts.{file_text};
ghost use Rattle.mesh_simplify.specs.Simplified.{ExplainsSimplify};
ghost use Rattle.command_run.specs.Answers.{file_limit};
ghost use Rattle.command_run.specs.Replies.{answer_of};
ghost use Rattle.command_run.specs.Steps.{IsReplied, ReadsFor, CountsFaults, surface_of};
ghost use Rattle.mesh_cmd.specs.Commands.{asked, simplify_of};
ghost use Rattle.mesh_cmd.specs.Finish.{IsNotClosed};
ghost use Rattle.mesh_cmd.specs.Simplify.{simplify_names, simplify_task, simplified_line, simplify_stated, simplify_done, SimplifyAnswer};

use crate::commands::Command;
use crate::commands::finish::line_of_open_mesh;
use crate::input::{InputMesh, InputReading, Role, read_input};
use crate::simplify_request::{SimplifyRequest, request_in};
use command_run::{
    FILE_LIMIT, Line, NoMemory, Reply, Status, Stop, Text, are_names, invalid_input, push_labelled,
};
use host::Host;
use mesh::Mesh;
use mesh_ply::push_mesh;
use mesh_provenance::{Made, Provenance, push_annotated};
use mesh_simplify::{Request, SimplifyError, simplify_mesh};
use std::alloc::{AllocError, Global};

/// The arguments of `simplify`.
#[derive(Clone, Copy, Debug)]
pub struct SimplifyWords<'a> {
    /// The name of the mesh that is read.
    pub mesh: &'a str,
    /// The name of the file that is written.
    pub output: &'a str,
    /// How the mesh is simplified, and whether the output states it.
    pub request: SimplifyRequest,
}

/// Returns the command that the arguments after `simplify` ask for, if they are valid.
pub fn simplify_command(words: &[String]) -> Option<Command<'_>>
    ensures { option_map asked result ≡ simplify_of (map string_bytes words.now) }
{
    let [mesh, output, options @ ..] = words else {
        return None;
    };
    if !are_names(&words[..2]) {
        return None;
    }
    let request = request_in(options)?;
    Some(Command::Simplify(SimplifyWords {
        mesh: mesh.as_str(),
        output: output.as_str(),
        request,
    }))
}

/// Reads the mesh and makes the answer of `simplify`. Nothing is written or said.
pub fn reply_to_simplify<'a, H: Host>(
    alloc: Global,
    host: &mut H,
    words: &SimplifyWords<'a>,
) -> Result<Reply<'a>, Stop>
    requires { (H.state host.old).writing ≡ false }
    ensures replied { IfOk result (λ reply. IsReplied file_limit (simplify_task (simplify_names words.now) words.now.request) reply (H.state host.old)) }
    ensures reads { ReadsFor file_limit (simplify_task (simplify_names words.now) words.now.request) (H.state host.old) (H.state host.new) }
    ensures cause { CountsFaults result (H.state host.old).faults (H.state host.new).faults }
{
    match read_input(alloc, host, words.mesh, FILE_LIMIT, Role::First)? {
        InputReading::Mesh(input) => {
            let InputMesh { mesh, digest, .. } = input;
            Ok(reply_to_mesh(alloc, mesh, &digest, words.request, words.output)?)
        }
        InputReading::Refused(line) => Ok(invalid_input(alloc, line)),
    }
}

/// Makes the answer to a mesh whose file has this digest.
fn reply_to_mesh<'a>(
    alloc: Global,
    mesh: Mesh,
    digest: &[u8; 32],
    request: SimplifyRequest,
    output: &'a str,
) -> Result<Reply<'a>, NoMemory>
    requires { IsPrinted mesh.points.items mesh.faces.items }
    ensures { IfOk result (λ reply. SimplifyAnswer output.now request digest.now (surface_of mesh) (answer_of 1 reply)) }
{
    let search = Request {
        within: request.options.within,
        faces: request.options.faces,
        moves: request.options.moves,
    };
    match simplify_mesh(alloc, mesh, search, request.options.surface) {
        Ok(new) => Ok(reply_of_mesh(alloc, &new, digest, request, output)?),
        Err(error) => Ok(reply_to_error(alloc, error)?),
    }
}

/// Makes the answer that says that a mesh is not closed. Out of memory has none.
fn reply_to_error<'a>(alloc: Global, error: SimplifyError) -> Result<Reply<'a>, NoMemory>
    ensures { (mesh : Surface) → ExplainsSimplify mesh.faces error → IfOk result (λ reply. IsNotClosed mesh (answer_of 1 reply)) }
{
    match error {
        SimplifyError::NotClosed(edge) => {
            let line = line_of_open_mesh(alloc, edge.from, edge.to, edge.there, edge.back)?;
            Ok(invalid_input(alloc, Line::Made(line)))
        }
        SimplifyError::NoMemory => Err(AllocError),
    }
}

/// Makes the answer that writes this mesh.
fn reply_of_mesh<'a>(
    alloc: Global,
    mesh: &Mesh,
    digest: &[u8; 32],
    request: SimplifyRequest,
    output: &'a str,
) -> Result<Reply<'a>, NoMemory>
    requires { IsPrinted mesh.now.points.items mesh.now.faces.items }
    ensures { IfOk result (λ reply. answer_of 1 reply ≡ simplify_done output.now request digest.now (surface_of mesh.now)) }
{
    let text = text_of_mesh(alloc, mesh, digest, request)?;
    let line = line_of_simplify(alloc, mesh)?;
    let mut texts = Vec::new(alloc);
    texts.push(Text {
        name: output,
        bytes: text,
    })?;
    Ok(Reply {
        status: Status::Done,
        texts,
        line: Line::Made(line),
    })
}

/// Returns the text of this mesh, with where it comes from unless that is left out.
fn text_of_mesh(
    alloc: Global,
    mesh: &Mesh,
    digest: &[u8; 32],
    request: SimplifyRequest,
) -> Result<Vec<u8>, NoMemory>
    requires { IsPrinted mesh.now.points.items mesh.now.faces.items }
    ensures { IfOk result (λ text. text.items ≡ file_text (simplify_stated request digest.now) mesh.now.points.items mesh.now.faces.items) }
{
    let mut text = Vec::new(alloc);
    if request.comments {
        let digest = *digest;
        let provenance = Provenance {
            made: Made::Simplify(request.options),
            fine: 1,
            digest,
        };
        push_annotated(&mut text, &provenance, mesh)?;
    } else {
        push_mesh(&mut text, mesh)?;
    }
    Ok(text)
}

/// Returns the line of `simplify`: the numbers of points and faces that were written.
#[tactic(auto, unfolding(crate::specs::Simplify::simplified_line))]
fn line_of_simplify(alloc: Global, mesh: &Mesh) -> Result<Vec<u8>, NoMemory>
    ensures { IfOk result (λ line. line.items ≡ simplified_line (length mesh.now.points.items) (length mesh.now.faces.items)) }
{
    let mut line = Vec::new(alloc);
    push_labelled(&mut line, b"simplified points ", mesh.points.len() as u64)?;
    push_labelled(&mut line, b" faces ", mesh.faces.len() as u64)?;
    line.push(b'\n')?;
    Ok(line)
}
