//! The answer of `join TILES OUT`.

ghost use Rattle.std.specs.Prelude.{◌≡◌, ◌≤◌, false, IfOk, IfSome, All, length};
ghost use Rattle.geo_sign.specs.Point.{IsWithin};
ghost use Rattle.geo_sign.specs.declared.point.TheConstants.{BOX_LIMIT};
ghost use Rattle.mesh.specs.Meshes.{IsMesh};
ghost use Rattle.mesh_ply.specs.Texts.{IsPrinted};
ghost use Rattle.command_run.specs.Answers.{file_limit};
ghost use Rattle.command_run.specs.Replies.{answer_of};
ghost use Rattle.command_run.specs.Steps.{CountsFaults, IsReplied, ReadsFor};
ghost use Rattle.tile_list.specs.Entries.{IsBoxedTile};
ghost use Rattle.join_cmd.specs.Join.{cores_of, join_done, join_names, join_reads, join_task, meshes_read, JoinAnswer, ListAnswer};
ghost use Rattle.join_cmd.specs.Reading.{HasEnded, OnlyReadsTimes};

use crate::lines::{
    Numbers, line_of_join, line_of_join_error, line_of_list_error, line_of_too_long_list,
};
use crate::meshes::read_meshes;
use crate::tiles::{cores_in, tiles_in};
use command_run::{FILE_LIMIT, Line, NoMemory, Reply, Status, Stop, Text, invalid_input};
use geo_sign::Point;
use host::{Host, ReadRefusal, read_all};
use mesh::Mesh;
use mesh_join::{Joined, join_tiles};
use mesh_ply::push_mesh;
use std::alloc::Global;
use tile_list::{TileLine, read_tiles};

/// The arguments of `join`.
#[derive(Clone, Copy, Debug)]
pub struct JoinWords<'a> {
    /// The name of the list of tiles.
    pub tiles: &'a str,
    /// The name of the file that is written.
    pub output: &'a str,
}

/// Reads the list and the meshes that it names, and makes the answer of `join`. Nothing is written or said.
pub fn reply_to_join<'a, H: Host>(
    alloc: Global,
    host: &mut H,
    words: &JoinWords<'a>,
) -> Result<Reply<'a>, Stop>
    requires { (H.state host.old).writing ≡ false }
    ensures replied { IfOk result (λ reply. IsReplied file_limit (join_task (join_names words.now)) reply (H.state host.old)) }
    ensures reads { ReadsFor file_limit (join_task (join_names words.now)) (H.state host.old) (H.state host.new) }
    ensures cause { CountsFaults result (H.state host.old).faults (H.state host.new).faults }
{
    let bytes = match read_all(alloc, host, words.tiles, FILE_LIMIT) {
        Ok(bytes) => bytes,
        Err(ReadRefusal::TooLong) => {
            return Ok(invalid_input(alloc, Line::Fixed(line_of_too_long_list())));
        }
        Err(ReadRefusal::Failed) => return Err(Stop::Failed),
        Err(ReadRefusal::NoMemory) => return Err(Stop::NoMemory),
    };
    reply_to_list(alloc, host, &bytes, words.output)
}

/// Makes the answer to the bytes of a list.
fn reply_to_list<'a, H: Host>(
    alloc: Global,
    host: &mut H,
    bytes: &[u8],
    output: &'a str,
) -> Result<Reply<'a>, Stop>
    requires closed { (H.state host.old).writing ≡ false }
    requires within { length bytes.now ≤ file_limit }
    ensures answers { IfOk result (λ reply. IfSome (H.state host.old).told (λ told. ListAnswer file_limit output.now told.files bytes.now (answer_of join_reads reply))) }
    ensures ended { IfOk result (λ reply. HasEnded reply.status) }
    ensures only { OnlyReadsTimes meshes_read (H.state host.old) (H.state host.new) }
    ensures cause { CountsFaults result (H.state host.old).faults (H.state host.new).faults }
{
    let entries = match read_tiles(alloc, bytes) {
        Ok(entries) => entries,
        Err(why) => {
            let line = line_of_list_error(alloc, why)?;
            return Ok(invalid_input(alloc, Line::Made(line)));
        }
    };
    let tiles = tiles_in(alloc, &entries)?;
    match read_meshes(alloc, host, &tiles)? {
        Ok(meshes) => Ok(reply_to_meshes(alloc, &tiles, meshes, output)?),
        Err(line) => Ok(invalid_input(alloc, line)),
    }
}

/// Makes the answer to the meshes of tiles, which are freed before the text is made.
fn reply_to_meshes<'a>(
    alloc: Global,
    tiles: &[TileLine<'_>],
    meshes: Vec<Mesh>,
    output: &'a str,
) -> Result<Reply<'a>, NoMemory>
    requires count { length meshes.items ≡ length tiles.now }
    requires boxed { All IsBoxedTile tiles.now }
    requires valid { All (λ m. IsMesh m.points.items m.faces.items) meshes.items }
    ensures answers { IfOk result (λ reply. JoinAnswer output.now (cores_of tiles.now) meshes.items (answer_of join_reads reply)) }
    ensures ended { IfOk result (λ reply. HasEnded reply.status) }
{
    let cores = cores_in(alloc, tiles)?;
    let count = meshes.len();
    let joined = join_tiles(alloc, cores, &meshes)?;
    drop(meshes);
    match joined {
        Ok(joined) => reply_of_joined(alloc, &joined, count, output),
        Err(why) => {
            let line = line_of_join_error(alloc, why)?;
            Ok(invalid_input(alloc, Line::Made(line)))
        }
    }
}

/// Does nothing. Its clause is what each point keeps, for the proofs of callers.
fn keep_box(points: &[Point])
    ensures { All (IsWithin BOX_LIMIT) points.now }
{
    for p in points {
        p.facts();
    }
}

/// Returns about how many bytes the text of a mesh has, so that it is mostly written without being moved.
fn room_for(mesh: &Mesh) -> usize {
    let digits = mesh.points.len().checked_ilog10().unwrap_or(0) as usize;
    let line = digits.saturating_mul(3).saturating_add(8);
    let faces = mesh.faces.len().saturating_mul(line);
    mesh.points.len().saturating_mul(24).saturating_add(faces)
}

/// Makes the answer that writes a joined mesh.
fn reply_of_joined<'a>(
    alloc: Global,
    joined: &Joined,
    tiles: usize,
    output: &'a str,
) -> Result<Reply<'a>, NoMemory>
    requires { IsMesh joined.now.mesh.points.items joined.now.mesh.faces.items }
    ensures done { IfOk result (λ reply. answer_of join_reads reply ≡ join_done output.now tiles joined.now.mesh.points.items joined.now.mesh.faces.items joined.now.moved joined.now.filled) }
    ensures printed { IsPrinted joined.now.mesh.points.items joined.now.mesh.faces.items }
    ensures ended { IfOk result (λ reply. HasEnded reply.status) }
{
    keep_box(&joined.mesh.points);
    let mut text = Vec::with_capacity(alloc, room_for(&joined.mesh))?;
    push_mesh(&mut text, &joined.mesh)?;
    let line = line_of_join(
        alloc,
        Numbers {
            tiles,
            points: joined.mesh.points.len(),
            faces: joined.mesh.faces.len(),
            moved: joined.moved,
            filled: joined.filled,
        },
    )?;
    let mut texts = Vec::new(alloc);
    texts.push(Text {
        name: output,
        bytes: text,
    })?;
    Ok(Reply {
        status: Status::Done,
        texts,
        line: Line::Made(line),
    })
}
