//! `slice MESH H OUT`, its arguments, answer and lines: the closed loops in which a horizontal plane cuts a mesh. Depends on
//! `solid_slice`, which computes and prints them.
ghost use Rattle.std.specs.Prelude.{map, string_bytes, ◌≡◌, ◌≤◌, IfSome, unsigned_abs, false, IfOk, ◌<◌, ◌^◌, length, sum_by};
ghost use Rattle.geo_sign.specs.declared.point.TheConstants.{BOX_LIMIT};
ghost use Rattle.mesh_ply.specs.Texts.{IsPrinted};
ghost use Rattle.num_text.specs.WholeNumbers.{is_minus};
ghost use Rattle.solid_slice.specs.Slices.{steps_of};
ghost use Rattle.solution.specs.Solutions.{surface_of};
ghost use Rattle.command_run.specs.Replies.{answer_of};
ghost use Rattle.command_run.specs.Steps.{IsReplied, ReadsFor, CountsFaults};
ghost use Rattle.recon_cmd.specs.Commands.{IsCommand, slice_of};
ghost use Rattle.recon_cmd.specs.Slice.{height_of, behind_minus, SliceAnswer, slice_done, unbalanced_line, slice_line, slice_task, slice_names};

mod words;

use crate::commands::{Command, Request};
use crate::options::number_in;
use command_run::{
    Line, MeshReading, NoMemory, Reply, Status, Stop, Text, are_names, invalid_input, is_name,
    push_labelled, read_mesh_file,
};
use geo_sign::BOX_LIMIT;
use host::Host;
use mesh::Mesh;
use solid_slice::{Ring, SliceRefusal, push_slice, slice};
use std::alloc::{AllocError, Global};
pub use words::SliceWords;

/// The maximal number of digits of a height.
const MOST_DIGITS: usize = 7;

/// Parses the arguments after `slice`.
pub fn slice_command(words: &[String]) -> Option<Request<'_>>
    ensures { IsCommand result (slice_of (map string_bytes words.now)) }
{
    let [mesh, height, output] = words else {
        return None;
    };
    if !is_name(mesh.as_str(), &words[2..]) || !are_names(&words[2..]) {
        return None;
    }
    let height = height_in(height.as_str())?;
    let words = SliceWords {
        mesh: mesh.as_str(),
        height,
        output: output.as_str(),
    };
    Some(Request::Command(Command::Slice(words)))
}

/// Returns the height with 1 to 7 digits after an optional minus sign, if it is no further from 0 than the walls of the box.
pub fn height_in(text: &str) -> Option<i32>
    ensures is { result ≡ height_of text.now }
    ensures within { IfSome result (λ height. unsigned_abs height ≤ BOX_LIMIT) }
{
    let (is_below, digits) = split_sign(text.as_bytes());
    if digits.len() > MOST_DIGITS {
        return None;
    }
    let size = number_in(digits, 0, BOX_LIMIT as u32)? as i32;
    Some(if is_below { -size } else { size })
}

/// Returns whether a text begins with a minus sign, and the text after it.
fn split_sign(text: &[u8]) -> (bool, &[u8])
    ensures sign { result.0 ≡ is_minus text.now }
    ensures behind { result.1.now ≡ behind_minus text.now }
{
    match text {
        [b'-', digits @ ..] => (true, digits),
        _ => (false, text),
    }
}

/// Reads the mesh and returns the answer of `slice`. Nothing is written or printed.
pub fn reply_to_slice<'a, H: Host>(
    alloc: Global,
    host: &mut H,
    words: &SliceWords<'a>,
    limit: u64,
) -> Result<Reply<'a>, Stop>
    requires { (H.state host.old).writing ≡ false }
    ensures replied { IfOk result (λ reply. IsReplied limit (slice_task (slice_names words.now) words.now.height) reply (H.state host.old)) }
    ensures reads { ReadsFor limit (slice_task (slice_names words.now) words.now.height) (H.state host.old) (H.state host.new) }
    ensures cause { CountsFaults result (H.state host.old).faults (H.state host.new).faults }
{
    match read_mesh_file(alloc, host, words.mesh, limit)? {
        MeshReading::Mesh(mesh) => Ok(reply_to_mesh(alloc, &mesh, words.height, words.output)?),
        MeshReading::Refused(line) => Ok(invalid_input(alloc, line)),
    }
}

/// Returns the answer to a mesh.
fn reply_to_mesh<'a>(
    alloc: Global,
    mesh: &Mesh,
    height: i32,
    output: &'a str,
) -> Result<Reply<'a>, NoMemory>
    requires { IsPrinted mesh.now.points.items mesh.now.faces.items }
    ensures { IfOk result (λ reply. SliceAnswer output.now height (surface_of mesh.now) (answer_of 1 reply)) }
{
    match slice(alloc, mesh, height) {
        Ok(rings) => reply_of_rings(alloc, &rings, output),
        Err(
            SliceRefusal::Unbalanced {
                from,
                to,
                there,
                back,
            },
        ) => {
            let line = line_of_unbalanced_edge(alloc, from, to, there, back)?;
            Ok(invalid_input(alloc, Line::Made(line)))
        }
        Err(SliceRefusal::NoMemory) => Err(AllocError),
    }
}

/// Returns the text of the loops, and the line.
fn reply_of_rings<'a>(alloc: Global, rings: &[Ring], output: &'a str) -> Result<Reply<'a>, NoMemory>
    requires { sum_by (λ ring. length ring) (map steps_of rings.now) < 2 ^ 64 }
    ensures { IfOk result (λ reply. answer_of 1 reply ≡ slice_done output.now (map steps_of rings.now)) }
{
    let mut text = Vec::new(alloc);
    push_slice(&mut text, rings)?;
    let line = line_of_slice(alloc, rings.len() as u64, step_count(rings))?;
    let mut texts = Vec::new(alloc);
    texts.push(Text {
        name: output,
        bytes: text,
    })?;
    Ok(Reply {
        status: Status::Done,
        texts,
        line: Line::Made(line),
    })
}

/// Returns the number of steps of all rings together.
fn step_count(rings: &[Ring]) -> u64
    requires { sum_by (λ ring. length ring) (map steps_of rings.now) < 2 ^ 64 }
    ensures { result ≡ sum_by (λ ring. length ring) (map steps_of rings.now) }
{
    let mut count = 0;
    for ring in rings {
        count += ring.steps.len() as u64;
    }
    count
}

/// Returns the line for a mesh with an edge that does not occur as often as its reverse.
#[tactic(auto, unfolding(crate::specs::Slice::unbalanced_line))]
pub fn line_of_unbalanced_edge(
    alloc: Global,
    from: u32,
    to: u32,
    there: u32,
    back: u32,
) -> Result<Vec<u8>, NoMemory>
    ensures { IfOk result (λ line. line.items ≡ unbalanced_line from to there back) }
{
    let mut line = Vec::new(alloc);
    push_labelled(&mut line, b"refused 28 unbalanced from ", u64::from(from))?;
    push_labelled(&mut line, b" to ", u64::from(to))?;
    push_labelled(&mut line, b" there ", u64::from(there))?;
    push_labelled(&mut line, b" back ", u64::from(back))?;
    line.push(b'\n')?;
    Ok(line)
}

/// Returns the line of `slice`: the number of loops, and the total number of their steps.
#[tactic(auto, unfolding(crate::specs::Slice::slice_line))]
pub fn line_of_slice(alloc: Global, loops: u64, steps: u64) -> Result<Vec<u8>, NoMemory>
    ensures { IfOk result (λ line. line.items ≡ slice_line loops steps) }
{
    let mut line = Vec::new(alloc);
    push_labelled(&mut line, b"loops ", loops)?;
    push_labelled(&mut line, b" steps ", steps)?;
    line.push(b'\n')?;
    Ok(line)
}
