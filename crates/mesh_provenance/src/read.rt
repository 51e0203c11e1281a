//! Reads a mesh with its provenance, or its printed form. Accepts exactly these texts; any other text gives its first error in line
//! order. Depends on `mesh_ply`, which reads the printed form.

ghost use Rattle.std.specs.Prelude.{◌≡◌, ◌++◌, ◌⊎◌, None, Some, IfOk, IfErr, IsErr, IfSome, IfNone, MatchResult};
ghost use Rattle.line_text.specs.Numbers.{BeginsWithNone};
ghost use Rattle.certificate.specs.Stamps.{IsDigest};
ghost use Rattle.cert_text.specs.Refusals.{RefusedLine};
ghost use Rattle.mesh_ply.specs.Refusals.{mesh_refusal, IsRefusedMesh};
ghost use Rattle.mesh_ply.specs.Texts.{ply_line, ascii_format_line, IsPrinted};
ghost use Rattle.mesh_ply.specs.declared.refusal.MeshRefusal.{MeshRefusal};
ghost use Rattle.mesh_provenance.specs.Laws.{IsFile, WhereFile};
ghost use Rattle.mesh_provenance.specs.Refusals.{head_text, IsOrigin, origin_text, RefusedOrigin, later, AtMeshBehind, AtOrigin, IsReadBehind, IsRefusedFile};
ghost use Rattle.mesh_provenance.specs.Texts.{IsMade, digest_line, file_text, text_after_format};

use crate::made_read::made_first;
use crate::provenance::{AnnotatedMesh, Provenance};
use crate::words::{first_line, format, scale, sha256};
use cert_text::digest_of;
use finish_options::Made;
use line_text::{LineRefusal, behind, cut_at, number_line, refusal_of};
use mesh::{Mesh, NoMemory};
use mesh_ply::{MeshRefusal, read_mesh};
use std::alloc::Global;

/// Returns what was done, as the first three lines state it.
fn head_first(text: &[u8]) -> Option<(Made, &[u8])>
    ensures some { IfSome result (λ read. IsMade read.0 × (text.now ≡ head_text read.0 ++ read.1.now)) }
    ensures none { IfNone result (BeginsWithNone IsMade head_text text.now) }
{
    let rest = behind(text, first_line())?;
    let rest = behind(rest, format())?;
    made_first(rest)
}

/// Returns the digest of its line.
fn digest_first(text: &[u8]) -> Option<([u8; 32], &[u8])>
    ensures some { IfSome result (λ read. IsDigest read.0 × (text.now ≡ digest_line read.0 ++ read.1.now)) }
    ensures none { IfNone result (BeginsWithNone IsDigest digest_line text.now) }
{
    let rest = behind(text, sha256())?;
    let (token, rest) = cut_at(rest, b'\n')?;
    let digest = digest_of(token)?;
    Some((digest, rest))
}

/// Returns the same, as line 5.
fn read_digest(text: &[u8]) -> Result<([u8; 32], &[u8]), LineRefusal>
    ensures ok { IfOk result (λ read. IsDigest read.0 × (text.now ≡ digest_line read.0 ++ read.1.now)) }
    ensures refused { IfErr result (RefusedLine IsDigest digest_line 5 text.now) }
{
    match digest_first(text) {
        Some(read) => Ok(read),
        None => Err(refusal_of(text, 5)),
    }
}

/// Returns the scale and the digest of the lines 4 and 5.
fn read_origin(text: &[u8]) -> Result<((u32, [u8; 32]), &[u8]), LineRefusal>
    ensures ok { IfOk result (λ read. IsOrigin read.0 × (text.now ≡ origin_text read.0 ++ read.1.now)) }
    ensures refused { IfErr result (RefusedOrigin text.now) }
{
    let (fine, rest) = number_line(text, scale(), 1, 4_294_967_295, 4)?;
    let (digest, rest) = read_digest(rest)?;
    let origin = (fine as u32, digest);
    Ok((origin, rest))
}

/// Returns the error of a line as one of a mesh.
fn as_mesh_refusal(refusal: LineRefusal) -> MeshRefusal
    ensures { result ≡ mesh_refusal refusal }
{
    match refusal {
        LineRefusal::BadLine(line) | LineRefusal::Order(line) => {
            MeshRefusal::BadLine(line.min(4_294_967_295) as u32)
        }
        LineRefusal::Cut => MeshRefusal::MeshCut,
        LineRefusal::NoMemory => MeshRefusal::NoMemory,
    }
}

/// Returns the error of a printed form as one of the same text with three lines more.
fn later(refusal: MeshRefusal) -> MeshRefusal
    ensures { result ≡ later refusal }
{
    match refusal {
        MeshRefusal::BadLine(line) => MeshRefusal::BadLine(line.saturating_add(3)),
        MeshRefusal::MeshCut => MeshRefusal::MeshCut,
        MeshRefusal::NoMemory => MeshRefusal::NoMemory,
    }
}

/// Returns the first two lines, and this text after them.
fn with_first_lines(alloc: Global, text: &[u8]) -> Result<Vec<u8>, NoMemory>
    ensures { IfOk result (λ whole. whole.items ≡ ply_line ++ (ascii_format_line ++ text.now)) }
{
    let mut whole = Vec::with_capacity(alloc, text.len().saturating_add(21))?;
    whole.extend_from_slice(first_line())?;
    whole.extend_from_slice(format())?;
    whole.extend_from_slice(text)?;
    Ok(whole)
}

/// Returns the mesh that the lines after the comments are.
fn read_mesh_behind(alloc: Global, text: &[u8]) -> Result<Mesh, MeshRefusal>
    ensures ok { IfOk result (λ mesh. IsPrinted mesh.points.items mesh.faces.items × (text.now ≡ text_after_format mesh.points.items mesh.faces.items)) }
    ensures refused { IfErr result (λ r. (r ≡ MeshRefusal.NoMemory) ⊎ AtMeshBehind text.now r) }
{
    let whole = match with_first_lines(alloc, text) {
        Ok(whole) => whole,
        Err(_) => return Err(MeshRefusal::NoMemory),
    };
    match read_mesh(alloc, &whole) {
        Ok(mesh) => Ok(mesh),
        Err(refusal) => Err(later(refusal)),
    }
}

/// Reads the text after the line of what was done.
fn read_behind_made(
    alloc: Global,
    text: &[u8],
    made: Made,
) -> Result<(Provenance, Mesh), MeshRefusal>
    ensures ok { IfOk result (λ read. IsReadBehind made text.now read.0 (read.1.points.items) (read.1.faces.items)) }
    ensures refused { IfErr result (λ r. (r ≡ MeshRefusal.NoMemory) ⊎ AtOrigin text.now r) }
{
    let ((fine, digest), rest) = match read_origin(text) {
        Ok(read) => read,
        Err(refusal) => return Err(as_mesh_refusal(refusal)),
    };
    let mesh = read_mesh_behind(alloc, rest)?;
    let provenance = Provenance { made, fine, digest };
    Ok((provenance, mesh))
}

/// Returns the mesh with its provenance, or the first error.
fn read_file(alloc: Global, bytes: &[u8]) -> Result<AnnotatedMesh, MeshRefusal>
    ensures ok { IfOk result (λ new. IsFile new.provenance new.mesh.points.items new.mesh.faces.items × (bytes.now ≡ file_text new.provenance new.mesh.points.items new.mesh.faces.items)) }
    ensures refused { IfErr result (λ r. (r ≡ MeshRefusal.NoMemory) ⊎ IsRefusedFile bytes.now r) }
{
    match head_first(bytes) {
        Some((made, rest)) => {
            let (provenance, mesh) = read_behind_made(alloc, rest, made)?;
            Ok(AnnotatedMesh {
                mesh,
                provenance: Some(provenance),
            })
        }
        None => {
            let mesh = read_mesh(alloc, bytes)?;
            Ok(AnnotatedMesh {
                mesh,
                provenance: None,
            })
        }
    }
}

/// Returns the mesh whose text the bytes are, and its provenance if the text states it.
///
/// Succeeds exactly for the texts that [`push_annotated`](crate::push_annotated) writes of a valid mesh and valid options, and for those
/// of `mesh_ply`. If the first three lines are those of a mesh with its provenance, any other text gives its first error after them, with
/// the number of the line in the file. If they are not, it gives the error that `mesh_ply` states for it. Line numbers stop at the
/// maximum of 32 bits. `NoMemory` says nothing about the text.
///
/// A text with its provenance is copied once without the comments.
pub fn read_annotated(alloc: Global, bytes: &[u8]) -> Result<AnnotatedMesh, MeshRefusal>
    ensures ok { IfOk result (λ new. IsFile new.provenance new.mesh.points.items new.mesh.faces.items × (bytes.now ≡ file_text new.provenance new.mesh.points.items new.mesh.faces.items)) }
    ensures stated { WhereFile bytes.now (λ p points faces. MatchResult result (λ new. (new.provenance ≡ p) × (new.mesh.points.items ≡ points) × (new.mesh.faces.items ≡ faces)) (λ r. r ≡ MeshRefusal.NoMemory)) }
    ensures refused { IfErr result (λ r. (r ≡ MeshRefusal.NoMemory) ⊎ IsRefusedFile bytes.now r) }
    ensures first { (r : MeshRefusal) → IsRefusedFile bytes.now r → IfErr result (λ s. (s ≡ MeshRefusal.NoMemory) ⊎ (s ≡ r)) × IsErr result }
{
    read_file(alloc, bytes)
}
