//! Reads a mesh from its text. Accepts exactly the texts that are printed; any other text gives its first error in line order.
//! No memory is reserved by a stated count, so time and memory are linear in the bytes. Depends on `line_text`.

ghost use Rattle.std.specs.Prelude.{◌≡◌, ◌<◌, ◌^◌, ◌++◌, ◌⊎◌, None, IfOk, IfErr, IsErr, MatchResult, length};
ghost use Rattle.std.specs.List.{flat_map};
ghost use Rattle.geo_sign.specs.Point.{Point, IsWithin};
ghost use Rattle.line_text.specs.Refusals.{AreCountedRows, IsRefusedRow};
ghost use Rattle.line_text.specs.Lists.{WithMemory};
ghost use Rattle.mesh.specs.Meshes.{IsFace};
ghost use Rattle.mesh_ply.specs.Texts.{point_line, face_line, mesh_text, IsPrinted};
ghost use Rattle.mesh_ply.specs.Laws.{WherePrinted};
ghost use Rattle.mesh_ply.specs.TextParts.{text_behind_count, AreLinesOf};
ghost use Rattle.mesh_ply.specs.Refusals.{AtPoints, AtFaceCount, AtMesh, IsRefusedMesh};
ghost use Rattle.mesh_ply.specs.declared.refusal.MeshRefusal.{MeshRefusal};
ghost use Rattle.geo_sign.specs.declared.point.TheConstants.{BOX_LIMIT};

use crate::fields::{face_first, point_first};
use crate::refusal::refusal_of_mesh;
use crate::words::{faces, first_line, format, last_line, list, vertices, x, y, z};
use crate::{Mesh, MeshRefusal};
use geo_sign::Point;
use line_text::{LineRefusal, number_line, refusal_of, word_line};
use std::alloc::Global;

/// Reads the lines of this number of points, from this line on.
fn read_points(
    alloc: Global,
    text: &[u8],
    count: u64,
    line: u64,
) -> Result<(Vec<Point>, &[u8]), LineRefusal>
    ensures ok { IfOk result (λ read. AreCountedRows (IsWithin BOX_LIMIT) None count read.0.items × (text.now ≡ flat_map point_line read.0.items ++ read.1.now)) }
    ensures refused { IfErr result (λ r. WithMemory r (IsRefusedRow (IsWithin BOX_LIMIT) point_line None count line text.now r)) }
{
    let mut rows: Vec<Point> = Vec::new(alloc);
    let mut rest = text;
    let mut at = line;
    for k in 0..count {
        let (row, next) = match point_first(rest) {
            Some(read) => read,
            None => return Err(refusal_of(rest, at)),
        };
        if rows.push(row).is_err() {
            return Err(LineRefusal::NoMemory);
        }
        rest = next;
        at = at.saturating_add(1);
    }
    Ok((rows, rest))
}

/// Reads the lines of this number of faces among the points, from this line on.
fn read_faces(
    alloc: Global,
    text: &[u8],
    points: u64,
    count: u64,
    line: u64,
) -> Result<(Vec<[u32; 3]>, &[u8]), LineRefusal>
    requires { points < 2 ^ 32 }
    ensures ok { IfOk result (λ read. AreCountedRows (IsFace points) None count read.0.items × (text.now ≡ flat_map face_line read.0.items ++ read.1.now)) }
    ensures refused { IfErr result (λ r. WithMemory r (IsRefusedRow (IsFace points) face_line None count line text.now r)) }
{
    let mut rows: Vec<[u32; 3]> = Vec::new(alloc);
    let mut rest = text;
    let mut at = line;
    for k in 0..count {
        let (row, next) = match face_first(rest, points) {
            Some(read) => read,
            None => return Err(refusal_of(rest, at)),
        };
        if rows.push(row).is_err() {
            return Err(LineRefusal::NoMemory);
        }
        rest = next;
        at = at.saturating_add(1);
    }
    Ok((rows, rest))
}

/// Reads the points and faces from line 10 on, and checks that nothing follows them.
fn read_rows(alloc: Global, text: &[u8], points: u64, faces: u64) -> Result<Mesh, LineRefusal>
    requires { points < 2 ^ 32 }
    ensures ok { IfOk result (λ mesh. AreLinesOf points faces text.now mesh.points.items mesh.faces.items) }
    ensures refused { IfErr result (λ r. WithMemory r (AtPoints points faces text.now r)) }
{
    let (vertices, rest) = read_points(alloc, text, points, 10)?;
    let line = points + 10;
    let (triangles, rest) = read_faces(alloc, rest, points, faces, line)?;
    if !rest.is_empty() {
        return Err(LineRefusal::BadLine(line.saturating_add(faces)));
    }
    Ok(Mesh {
        points: vertices,
        faces: triangles,
    })
}

/// Reads the text after the number of points, from line 4 on.
fn read_from_face_count(alloc: Global, text: &[u8], points: u64) -> Result<Mesh, LineRefusal>
    requires { points < 2 ^ 32 }
    ensures ok { IfOk result (λ mesh. (length mesh.points.items ≡ points) × IsPrinted mesh.points.items mesh.faces.items × (text.now ≡ text_behind_count mesh.points.items mesh.faces.items)) }
    ensures refused { IfErr result (λ r. WithMemory r (AtFaceCount points text.now r)) }
{
    let rest = word_line(text, x(), 4)?;
    let rest = word_line(rest, y(), 5)?;
    let rest = word_line(rest, z(), 6)?;
    let (count, rest) = number_line(rest, faces(), 0, 4_294_967_295, 7)?;
    let rest = word_line(rest, list(), 8)?;
    let rest = word_line(rest, last_line(), 9)?;
    read_rows(alloc, rest, points, count)
}

/// Returns the mesh, or the first error.
fn read_lines(alloc: Global, bytes: &[u8]) -> Result<Mesh, LineRefusal>
    ensures ok { IfOk result (λ mesh. IsPrinted mesh.points.items mesh.faces.items × (bytes.now ≡ mesh_text mesh.points.items mesh.faces.items)) }
    ensures refused { IfErr result (λ r. WithMemory r (AtMesh bytes.now r)) }
{
    let rest = word_line(bytes, first_line(), 1)?;
    let rest = word_line(rest, format(), 2)?;
    let (points, rest) = number_line(rest, vertices(), 0, 4_294_967_295, 3)?;
    read_from_face_count(alloc, rest, points)
}

/// Returns the mesh whose text the bytes are.
///
/// Succeeds exactly for the texts that [`push_mesh`](crate::push_mesh) writes. Any other text gives its first error, line by
/// line: `MeshCut` if the bytes end before the line feed of an expected line, `BadLine` if the line is invalid, which includes
/// any byte after the last line, as a line of its own. A count is at most 2^32 - 1, a point is in the box, and a face has three
/// distinct indices of points, the smallest first. Lines are counted from 1, and a line number stops at the maximum of 32 bits.
/// `NoMemory` says nothing about the text.
pub fn read_mesh(alloc: Global, bytes: &[u8]) -> Result<Mesh, MeshRefusal>
    ensures ok { IfOk result (λ mesh. IsPrinted mesh.points.items mesh.faces.items × (bytes.now ≡ mesh_text mesh.points.items mesh.faces.items)) }
    ensures printed { WherePrinted bytes.now (λ points faces. MatchResult result (λ mesh. (mesh.points.items ≡ points) × (mesh.faces.items ≡ faces)) (λ r. r ≡ MeshRefusal.NoMemory)) }
    ensures refused { IfErr result (λ r. (r ≡ MeshRefusal.NoMemory) ⊎ IsRefusedMesh bytes.now r) }
    ensures first { (r : MeshRefusal) → IsRefusedMesh bytes.now r → IfErr result (λ s. (s ≡ MeshRefusal.NoMemory) ⊎ (s ≡ r)) × IsErr result }
{
    match read_lines(alloc, bytes) {
        Ok(mesh) => Ok(mesh),
        Err(refusal) => Err(refusal_of_mesh(refusal)),
    }
}
