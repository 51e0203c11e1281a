//! Reads the input mesh of a command. Depends on `mesh_ply`, which parses the bytes of a file.
ghost use Rattle.std.specs.Prelude.{◌≡◌, false, IfOk, IfSome, ◌≤◌, length, ℕ};
ghost use Rattle.host.specs.Whole.{OnlyReads};
ghost use Rattle.command_run.specs.Steps.{IsMeshReading, IsPrintedIfRead, CountsFaults, IsUnderstoodMesh};

use crate::NoMemory;
use crate::lines::{line_of_mesh_error, line_of_too_long_mesh};
use crate::reply::{Line, Stop};
use host::{Host, ReadRefusal, read_all};
use mesh::Mesh;
use mesh_ply::read_mesh;
use std::alloc::Global;

/// The maximal size of an input file in bytes.
pub const FILE_LIMIT: u64 = 4_294_967_296;

/// The result of reading a mesh.
#[derive(Drop)]
pub enum MeshReading {
    /// The mesh of the file.
    Mesh(Mesh),
    /// The file is rejected, and this line states why.
    Refused(Line),
}

/// Reads the mesh of the named file. Its bytes are freed. The file may be as long as the limit.
pub fn read_mesh_file<H: Host>(
    alloc: Global,
    host: &mut H,
    name: &str,
    limit: u64,
) -> Result<MeshReading, Stop>
    requires { (H.state host.old).writing ≡ false }
    ensures read { IfOk result (λ reading. IfSome (H.state host.old).told (IsMeshReading limit name.now reading)) }
    ensures printed { IfOk result IsPrintedIfRead }
    ensures only { OnlyReads (H.state host.old) (H.state host.new) }
    ensures cause { CountsFaults result (H.state host.old).faults (H.state host.new).faults }
{
    let bytes = match read_all(alloc, host, name, limit) {
        Ok(bytes) => bytes,
        Err(ReadRefusal::TooLong) => return Ok(MeshReading::Refused(Line::Fixed(
            line_of_too_long_mesh(),
        ))),
        Err(ReadRefusal::Failed) => return Err(Stop::Failed),
        Err(ReadRefusal::NoMemory) => return Err(Stop::NoMemory),
    };
    Ok(understand_mesh(alloc, &bytes)?)
}

/// Parses the bytes of a mesh's file.
fn understand_mesh(alloc: Global, bytes: &[u8]) -> Result<MeshReading, NoMemory>
    ensures understood { (limit : ℕ) → length bytes.now ≤ limit → IfOk result (IsUnderstoodMesh limit bytes.now) }
    ensures printed { IfOk result IsPrintedIfRead }
{
    match read_mesh(alloc, bytes) {
        Ok(mesh) => Ok(MeshReading::Mesh(mesh)),
        Err(why) => Ok(MeshReading::Refused(Line::Made(line_of_mesh_error(alloc, why)?))),
    }
}
