//! Reads the meshes of tiles, one after another.

ghost use Rattle.std.specs.Prelude.{◌≡◌, ◌≤◌, ℕ, false, IfErr, IfOk, IfSome, All, length};
ghost use Rattle.host.specs.Whole.{OnlyReads};
ghost use Rattle.mesh.specs.Meshes.{IsMesh};
ghost use Rattle.command_run.specs.Answers.{file_limit};
ghost use Rattle.command_run.specs.Replies.{line_bytes};
ghost use Rattle.command_run.specs.Steps.{CountsFaults};
ghost use Rattle.join_cmd.specs.Join.{AreMeshFiles, IsRejectedTile};
ghost use Rattle.join_cmd.specs.Reading.{IsTileReading, IsUnderstoodTile, OnlyReadsTimes};

use crate::lines::{line_of_tile_error, line_of_too_long_tile};
use command_run::{FILE_LIMIT, Line, NoMemory, Stop};
use host::{Host, ReadRefusal, read_all};
use mesh::Mesh;
use mesh_ply::read_mesh;
use std::alloc::Global;
use tile_list::TileLine;

/// Parses the bytes of a tile's mesh, or returns the line that rejects them.
fn understand_tile(alloc: Global, bytes: &[u8], tile: u64) -> Result<Result<Mesh, Line>, NoMemory>
    ensures understood { (limit : ℕ) → length bytes.now ≤ limit → IfOk result (IsUnderstoodTile limit tile bytes.now) }
    ensures valid { IfOk result (λ reading. IfOk reading (λ m. IsMesh m.points.items m.faces.items)) }
{
    match read_mesh(alloc, bytes) {
        Ok(mesh) => Ok(Ok(mesh)),
        Err(why) => Ok(Err(Line::Made(line_of_tile_error(alloc, tile, why)?))),
    }
}

/// Reads the mesh of the tile with this number from the named file.
fn read_tile<H: Host>(
    alloc: Global,
    host: &mut H,
    name: &str,
    tile: u64,
) -> Result<Result<Mesh, Line>, Stop>
    requires { (H.state host.old).writing ≡ false }
    ensures read { IfOk result (λ reading. IfSome (H.state host.old).told (IsTileReading file_limit tile name.now reading)) }
    ensures valid { IfOk result (λ reading. IfOk reading (λ m. IsMesh m.points.items m.faces.items)) }
    ensures only { OnlyReads (H.state host.old) (H.state host.new) }
    ensures cause { CountsFaults result (H.state host.old).faults (H.state host.new).faults }
{
    let bytes = match read_all(alloc, host, name, FILE_LIMIT) {
        Ok(bytes) => bytes,
        Err(ReadRefusal::TooLong) => {
            return Ok(Err(Line::Made(line_of_too_long_tile(alloc, tile)?)));
        }
        Err(ReadRefusal::Failed) => return Err(Stop::Failed),
        Err(ReadRefusal::NoMemory) => return Err(Stop::NoMemory),
    };
    Ok(understand_tile(alloc, &bytes, tile)?)
}

/// Reads the meshes of tiles, in their order. `Err` has the line of the first that is rejected.
pub(crate) fn read_meshes<H: Host>(
    alloc: Global,
    host: &mut H,
    tiles: &[TileLine<'_>],
) -> Result<Result<Vec<Mesh>, Line>, Stop>
    requires { (H.state host.old).writing ≡ false }
    ensures count { IfOk result (λ reading. IfOk reading (λ meshes. length meshes.items ≡ length tiles.now)) }
    ensures read { IfOk result (λ reading. IfOk reading (λ meshes. IfSome (H.state host.old).told (λ told. AreMeshFiles file_limit told.files tiles.now meshes.items))) }
    ensures valid { IfOk result (λ reading. IfOk reading (λ meshes. All (λ m. IsMesh m.points.items m.faces.items) meshes.items)) }
    ensures rejected { IfOk result (λ reading. IfErr reading (λ line. IfSome (H.state host.old).told (λ told. IsRejectedTile file_limit told.files tiles.now (line_bytes line)))) }
    ensures only { OnlyReadsTimes (length tiles.now) (H.state host.old) (H.state host.new) }
    ensures cause { CountsFaults result (H.state host.old).faults (H.state host.new).faults }
{
    let mut meshes = Vec::new(alloc);
    for (i, tile) in tiles.iter().enumerate() {
        match read_tile(alloc, host, tile.file, i as u64)? {
            Ok(mesh) => {
                if meshes.push(mesh).is_err() {
                    return Err(Stop::NoMemory);
                }
            }
            Err(line) => return Ok(Err(line)),
        }
    }
    Ok(Ok(meshes))
}
