//! Reads an input of a command: a mesh as `build` writes it, or one that `finish` wrote with comments. Depends on
//! `mesh_provenance`, which parses the bytes of a file, and on `sha2`.
ghost use Rattle.std.specs.Prelude.{◌≡◌, ◌≤◌, false, length, ℕ, IfOk, IfSome, Some};
ghost use Rattle.sha2.specs.Sha256.{sha256};
ghost use Rattle.host.specs.Whole.{OnlyReads};
ghost use Rattle.command_run.specs.Steps.{CountsFaults};
ghost use Rattle.mesh_cmd.specs.Input.{too_long_out_line, too_long_targets_line, out_error_line, targets_error_line, too_long_at, error_line_at, IsInputReading, IsUnderstoodInput, IsFileIfRead};

use command_run::{
    Line, NoMemory, Stop, line_of_mesh_error, line_of_number, line_of_text, line_of_too_long_mesh,
};
use host::{Host, ReadRefusal, read_all};
use mesh::Mesh;
use mesh_ply::MeshRefusal;
use mesh_provenance::{AnnotatedMesh, Provenance, read_annotated};
use sha2::{Digest, Sha256};
use std::alloc::{AllocError, Global};

/// Which of the files of a command a mesh is.
#[derive(Clone, Copy, Debug, PartialEq, Eq)]
pub enum Role {
    /// The one that is read first.
    First,
    /// The finished mesh, which `check` reads second.
    Finished,
    /// The mesh whose points are targets, which `move` reads second.
    Targets,
}

/// A mesh that was read.
#[derive(Drop)]
pub struct InputMesh {
    /// The mesh.
    pub mesh: Mesh,
    /// Where it comes from, if the file states that.
    pub provenance: Option<Provenance>,
    /// The SHA-256 of the file's bytes.
    pub digest: [u8; 32],
}

/// The result of reading a mesh.
#[derive(Drop)]
pub enum InputReading {
    /// The mesh of the file.
    Mesh(InputMesh),
    /// The file is rejected, and this line states why.
    Refused(Line),
}

/// Reads the mesh of the named file, once. Its bytes are freed. The file may be as long as the limit. Its errors have the lines of its
/// role.
pub fn read_input<H: Host>(
    alloc: Global,
    host: &mut H,
    name: &str,
    limit: u64,
    role: Role,
) -> Result<InputReading, Stop>
    requires { (H.state host.old).writing ≡ false }
    ensures read { IfOk result (λ reading. IfSome (H.state host.old).told (IsInputReading role limit name.now reading)) }
    ensures file { IfOk result IsFileIfRead }
    ensures only { OnlyReads (H.state host.old) (H.state host.new) }
    ensures cause { CountsFaults result (H.state host.old).faults (H.state host.new).faults }
{
    let bytes = match read_all(alloc, host, name, limit) {
        Ok(bytes) => bytes,
        Err(ReadRefusal::TooLong) => return Ok(InputReading::Refused(Line::Fixed(line_of_too_long(
            role,
        )))),
        Err(ReadRefusal::Failed) => return Err(Stop::Failed),
        Err(ReadRefusal::NoMemory) => return Err(Stop::NoMemory),
    };
    Ok(understand_input(alloc, &bytes, role)?)
}

/// Parses the bytes of a mesh's file.
fn understand_input(alloc: Global, bytes: &[u8], role: Role) -> Result<InputReading, NoMemory>
    ensures understood { (limit : ℕ) → length bytes.now ≤ limit → IfOk result (IsUnderstoodInput role limit bytes.now) }
    ensures file { IfOk result IsFileIfRead }
{
    match read_annotated(alloc, bytes) {
        Ok(read) => {
            let AnnotatedMesh { mesh, provenance } = read;
            let digest = digest_of(bytes);
            Ok(InputReading::Mesh(InputMesh {
                mesh,
                provenance,
                digest,
            }))
        }
        Err(why) => Ok(InputReading::Refused(Line::Made(line_of_error(alloc, role, why)?))),
    }
}

/// Returns the line for a file that is longer than the limit.
fn line_of_too_long(role: Role) -> &'static [u8]
    ensures { result.now ≡ too_long_at role }
{
    match role {
        Role::First => line_of_too_long_mesh(),
        Role::Finished => line_of_too_long_out(),
        Role::Targets => line_of_too_long_targets(),
    }
}

/// Returns the line for the file of a finished mesh that is longer than the limit.
#[tactic(auto, unfolding(crate::specs::Input::too_long_out_line))]
fn line_of_too_long_out() -> &'static [u8]
    ensures { result.now ≡ too_long_out_line }
{
    b"refused 19 too_long out\n"
}

/// Returns the line for the file of targets that is longer than the limit.
#[tactic(auto, unfolding(crate::specs::Input::too_long_targets_line))]
fn line_of_too_long_targets() -> &'static [u8]
    ensures { result.now ≡ too_long_targets_line }
{
    b"refused 19 too_long targets\n"
}

/// Returns the line for a file that is rejected. Out of memory has no line.
fn line_of_error(alloc: Global, role: Role, why: MeshRefusal) -> Result<Vec<u8>, NoMemory>
    ensures { IfOk result (λ line. error_line_at role why ≡ Some line.items) }
{
    match role {
        Role::First => line_of_mesh_error(alloc, why),
        Role::Finished => line_of_out_error(alloc, why),
        Role::Targets => line_of_targets_error(alloc, why),
    }
}

/// Returns the line for a finished mesh that is rejected. Out of memory has no line.
fn line_of_out_error(alloc: Global, why: MeshRefusal) -> Result<Vec<u8>, NoMemory>
    ensures { IfOk result (λ line. out_error_line why ≡ Some line.items) }
{
    match why {
        MeshRefusal::BadLine(line) => {
            line_of_number(alloc, b"refused 32 out_line line ", u64::from(line))
        }
        MeshRefusal::MeshCut => line_of_text(alloc, b"refused 33 out_cut"),
        MeshRefusal::NoMemory => Err(AllocError),
    }
}

/// Returns the line for targets that are rejected. Out of memory has no line.
fn line_of_targets_error(alloc: Global, why: MeshRefusal) -> Result<Vec<u8>, NoMemory>
    ensures { IfOk result (λ line. targets_error_line why ≡ Some line.items) }
{
    match why {
        MeshRefusal::BadLine(line) => {
            line_of_number(alloc, b"refused 34 targets_line line ", u64::from(line))
        }
        MeshRefusal::MeshCut => line_of_text(alloc, b"refused 35 targets_cut"),
        MeshRefusal::NoMemory => Err(AllocError),
    }
}

/// Returns the SHA-256 of the bytes.
fn digest_of(bytes: &[u8]) -> [u8; 32]
    ensures { result ≡ sha256 bytes.now }
{
    Sha256::digest(bytes)
}
