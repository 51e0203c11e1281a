//! The text of a mesh: PLY 1.0 in its `ascii` format. Depends on `line_text`.

ghost use Rattle.std.specs.Prelude.{◌≡◌, ◌++◌, [], ◌∷◌, OnOk, OnErr, length, take};
ghost use Rattle.std.specs.List.{flat_map};
ghost use Rattle.geo_sign.specs.Point.{point};
ghost use Rattle.mesh.specs.Meshes.{IsMesh};
ghost use Rattle.mesh_ply.specs.Texts.{point_line, face_line, mesh_text};

use crate::words::{header_rest, header_to_faces, header_to_vertices};
use crate::{Mesh, NoMemory};
use geo_sign::Point;
use line_text::{push_counted, push_number, push_signed};

/// Appends three coordinates as a line.
fn push_coordinates(out: &mut Vec<u8>, x: i64, y: i64, z: i64) -> Result<(), NoMemory>
    ensures ok { OnOk result (out.new.items ≡ out.old.items ++ point_line (point x y z)) }
    ensures kept { OnErr result (take (length out.old.items) out.new.items ≡ out.old.items) }
{
    push_signed(out, x, b' ')?;
    push_signed(out, y, b' ')?;
    push_signed(out, z, b'\n')?;
    Ok(())
}

/// Appends the line `x y z` of a point to `out`.
///
/// After `NoMemory` the previous bytes of `out` are still at its start, and more may follow.
pub fn push_point(out: &mut Vec<u8>, point: Point) -> Result<(), NoMemory>
    ensures ok { OnOk result (out.new.items ≡ out.old.items ++ point_line point) }
    ensures kept { OnErr result (take (length out.old.items) out.new.items ≡ out.old.items) }
{
    push_coordinates(
        out,
        i64::from(point.x()),
        i64::from(point.y()),
        i64::from(point.z()),
    )
}

/// Appends the line of a face with these three indices.
fn push_places(out: &mut Vec<u8>, a: u32, b: u32, c: u32) -> Result<(), NoMemory>
    ensures ok { OnOk result (out.new.items ≡ out.old.items ++ face_line (a ∷ b ∷ c ∷ [])) }
    ensures kept { OnErr result (take (length out.old.items) out.new.items ≡ out.old.items) }
{
    out.extend_from_slice(b"3 ")?;
    push_number(out, u64::from(a), b' ')?;
    push_number(out, u64::from(b), b' ')?;
    push_number(out, u64::from(c), b'\n')?;
    Ok(())
}

fn push_face(out: &mut Vec<u8>, face: [u32; 3]) -> Result<(), NoMemory>
    ensures ok { OnOk result (out.new.items ≡ out.old.items ++ face_line face) }
    ensures kept { OnErr result (take (length out.old.items) out.new.items ≡ out.old.items) }
{
    let [a, b, c] = face;
    push_places(out, a, b, c)
}

/// Appends the lines of points to `out`, in order.
///
/// After `NoMemory` the previous bytes of `out` are still at its start, and more may follow.
pub fn push_points(out: &mut Vec<u8>, points: &[Point]) -> Result<(), NoMemory>
    ensures ok { OnOk result (out.new.items ≡ out.old.items ++ flat_map point_line points.now) }
    ensures kept { OnErr result (take (length out.old.items) out.new.items ≡ out.old.items) }
{
    for point in points {
        push_point(out, *point)?;
    }
    Ok(())
}

/// Appends the lines `3 a b c` of faces to `out`, in order.
///
/// After `NoMemory` the previous bytes of `out` are still at its start, and more may follow.
pub fn push_faces(out: &mut Vec<u8>, faces: &[[u32; 3]]) -> Result<(), NoMemory>
    ensures ok { OnOk result (out.new.items ≡ out.old.items ++ flat_map face_line faces.now) }
    ensures kept { OnErr result (take (length out.old.items) out.new.items ≡ out.old.items) }
{
    for face in faces {
        push_face(out, *face)?;
    }
    Ok(())
}

fn push_parts(out: &mut Vec<u8>, mesh: &Mesh) -> Result<(), NoMemory>
    ensures ok { OnOk result (out.new.items ≡ out.old.items ++ mesh_text mesh.now.points.items mesh.now.faces.items) }
    ensures kept { OnErr result (take (length out.old.items) out.new.items ≡ out.old.items) }
{
    push_counted(out, header_to_vertices(), mesh.points.len() as u64)?;
    push_counted(out, header_to_faces(), mesh.faces.len() as u64)?;
    out.extend_from_slice(header_rest())?;
    push_points(out, &mesh.points)?;
    push_faces(out, &mesh.faces)?;
    Ok(())
}

/// Appends the text of a valid mesh to `out`: the header, a line `x y z` for each point and a line `3 a b c` for each face,
/// each line ended by LF. Numbers are decimal without leading zeros.
///
/// After `NoMemory`, `out` is unchanged.
pub fn push_mesh(out: &mut Vec<u8>, mesh: &Mesh) -> Result<(), NoMemory>
    requires { IsMesh mesh.now.points.items mesh.now.faces.items }
    ensures printed { OnOk result (out.new.items ≡ out.old.items ++ mesh_text mesh.now.points.items mesh.now.faces.items) }
    ensures kept { OnErr result (out.new.items ≡ out.old.items) }
{
    let start = out.len();
    let pushed = push_parts(out, mesh);
    if pushed.is_err() {
        out.truncate(start);
    }
    pushed
}
