//! Whether a directed edge occurs twice in the old mesh, if one does in the new one.

ghost use Rattle.std.specs.Prelude.{◌≡◌, ◌^◌, All, IfOk};
ghost use Rattle.std.specs.Bool.{OnTrue};
ghost use Rattle.mesh.specs.Meshes.{IsFace};
ghost use Rattle.mesh_edges.specs.Edges.{has_edge};
ghost use Rattle.mesh_pieces.specs.Splits.{AreSingle};

use crate::NoMemory;
use crate::single::are_edges_single;
use std::alloc::Global;

/// A directed edge, and a face that has it.
#[derive(Clone, Copy)]
struct Side {
    key: u64,
    face: u32,
}

/// Appends the side of a face.
fn push_side(sides: &mut Vec<Side>, from: u32, to: u32, face: u32) -> Result<(), NoMemory> {
    sides.push(Side {
        key: u64::from(from) << 32 | u64::from(to),
        face,
    })?;
    Ok(())
}

/// Returns the sides of all faces, sorted.
fn sorted_sides(alloc: Global, faces: &[[u32; 3]]) -> Result<Vec<Side>, NoMemory> {
    let mut sides = Vec::with_capacity(alloc, faces.len().saturating_mul(3))?;
    let mut f = 0u32;
    for face in faces {
        let [a, b, c] = *face;
        push_side(&mut sides, a, b, f)?;
        push_side(&mut sides, b, c, f)?;
        push_side(&mut sides, c, a, f)?;
        f = f.saturating_add(1);
    }
    sides.sort_unstable_by_key(|side| (side.key, side.face));
    Ok(sides)
}

/// Returns whether a face has an edge.
fn has_side(face: [u32; 3], u: u32, v: u32) -> bool
    ensures { result ≡ has_edge u v face }
{
    let [a, b, c] = face;
    (u == a && v == b) || ((u == b && v == c) || (u == c && v == a))
}

/// Returns whether two faces, the smaller number first, both have an edge.
fn is_double(faces: &[[u32; 3]], i: usize, j: usize, u: u32, v: u32) -> bool
    ensures { OnTrue result (¬ AreSingle faces.now) }
{
    if i >= j || j >= faces.len() {
        return false;
    }
    if !has_side(faces[i], u, v) {
        return false;
    }
    has_side(faces[j], u, v)
}

/// Returns whether two sides show that an edge occurs twice.
fn is_double_side(faces: &[[u32; 3]], one: Side, other: Side) -> bool
    ensures { OnTrue result (¬ AreSingle faces.now) }
{
    let (u, v) = ((one.key >> 32) as u32, (one.key & 0xffff_ffff) as u32);
    is_double(faces, one.face as usize, other.face as usize, u, v)
}

/// Returns whether some directed edge is shown to occur twice.
fn has_double(alloc: Global, faces: &[[u32; 3]]) -> Result<bool, NoMemory>
    ensures { IfOk result (λ yes. OnTrue yes (¬ AreSingle faces.now)) }
{
    let sides = sorted_sides(alloc, faces)?;
    for at in 1..sides.len() {
        if sides[at - 1].key == sides[at].key && is_double_side(faces, sides[at - 1], sides[at]) {
            return Ok(true);
        }
    }
    Ok(false)
}

/// Returns whether no directed edge of new faces occurs twice, unless one of the old faces does.
pub(crate) fn stays_single(
    alloc: Global,
    old_faces: &[[u32; 3]],
    faces: &[[u32; 3]],
) -> Result<bool, NoMemory>
    requires { All (IsFace (2 ^ 32)) faces.now }
    ensures { IfOk result (λ yes. OnTrue yes (AreSingle old_faces.now → AreSingle faces.now)) }
{
    if are_edges_single(alloc, faces)? {
        return Ok(true);
    }
    has_double(alloc, old_faces)
}
