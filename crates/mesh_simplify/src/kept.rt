//! Whether two faces are apart, or both are old ones.

ghost use Rattle.std.specs.Prelude.{◌≡◌, ◌<◌, ℕ, All, Contains, IfOk, length, map, slice_index};
ghost use Rattle.std.specs.Bool.{OnTrue};
ghost use Rattle.mesh.specs.Meshes.{IsMesh, point_at};
ghost use Rattle.mesh_edges.specs.Edges.{face_at};
ghost use Rattle.mesh_simplify.specs.Simplified.{IsAtOldPlace, AreApartOrKept};
ghost use Rattle.mesh_simplify.specs.Tested.{IsOldFaceAt, ArePairsOld};

use crate::NoMemory;
use geo_sign::Point;
use mesh::Mesh;
use mesh_crossings::find_crossings;
use mesh_edges::Pair;
use std::alloc::Global;

/// Returns whether a vertex has this old number.
fn is_old_vertex(from: &[u32], new: u32, old: u32) -> bool
    ensures { OnTrue result (slice_index from.now new ≡ old) }
{
    (new as usize) < from.len() && from[new as usize] == old
}

/// Returns whether a face is an old one, by the old numbers of its vertices.
fn is_old_face(from: &[u32], new: [u32; 3], old: [u32; 3]) -> bool
    ensures { OnTrue result (map (slice_index from.now) new ≡ old) }
{
    let [a, b, c] = old;
    let [x, y, z] = new;
    is_old_vertex(from, x, a) && is_old_vertex(from, y, b) && is_old_vertex(from, z, c)
}

/// Returns whether two points are one.
fn is_same_place(p: Point, q: Point) -> bool
    ensures { OnTrue result (p ≡ q) }
{
    p == q
}

/// Returns whether a vertex is where the old one of its number was.
fn is_at_old_place(old_points: &[Point], points: &[Point], from: &[u32], v: u32) -> bool
    ensures { OnTrue result (IsAtOldPlace old_points.now points.now from.now v) }
{
    if v as usize >= from.len() || v as usize >= points.len() {
        return false;
    }
    let old = from[v as usize] as usize;
    old < old_points.len() && is_same_place(points[v as usize], old_points[old])
}

/// Returns whether the corners of a face are where the old ones of their numbers were.
fn is_unmoved(old_points: &[Point], points: &[Point], from: &[u32], face: [u32; 3]) -> bool
    ensures { OnTrue result (All (IsAtOldPlace old_points.now points.now from.now) face) }
{
    let [a, b, c] = face;
    is_at_old_place(old_points, points, from, a)
        && is_at_old_place(old_points, points, from, b)
        && is_at_old_place(old_points, points, from, c)
}

/// Returns whether a face is the old one of a hinted number, by the old numbers of its vertices.
fn has_old_numbers(
    from: &[u32],
    old_faces: &[[u32; 3]],
    faces: &[[u32; 3]],
    source: &[u32],
    i: u32,
) -> bool
    ensures { OnTrue result (Contains old_faces.now (map (slice_index from.now) (face_at faces.now i))) }
{
    if i as usize >= faces.len() || i as usize >= source.len() {
        return false;
    }
    let k = source[i as usize] as usize;
    if k >= old_faces.len() {
        return false;
    }
    is_old_face(from, faces[i as usize], old_faces[k])
}

/// Returns whether the corners of a face are where the old ones of their numbers were, by its number.
fn has_old_places(old: &Mesh, mesh: &Mesh, from: &[u32], i: u32) -> bool
    ensures { OnTrue result (All (IsAtOldPlace old.now.points.items mesh.now.points.items from.now) (face_at mesh.now.faces.items i)) }
{
    if i as usize >= mesh.faces.len() {
        return false;
    }
    is_unmoved(&old.points, &mesh.points, from, mesh.faces[i as usize])
}

/// Returns whether a face is the old one of a hinted number, and its corners are where they were.
fn is_kept(old: &Mesh, mesh: &Mesh, from: &[u32], source: &[u32], i: u32) -> bool
    ensures { OnTrue result (IsOldFaceAt old.now.points.items mesh.now.points.items from.now old.now.faces.items mesh.now.faces.items i) }
{
    has_old_numbers(from, &old.faces, &mesh.faces, source, i) && has_old_places(old, mesh, from, i)
}

/// Returns whether both faces of each pair are old ones.
fn are_kept(old: &Mesh, mesh: &Mesh, from: &[u32], source: &[u32], pairs: &[Pair]) -> bool
    ensures { OnTrue result (ArePairsOld old.now.points.items mesh.now.points.items from.now old.now.faces.items mesh.now.faces.items pairs.now) }
{
    for pair in pairs {
        if !is_kept(old, mesh, from, source, pair.first) {
            return false;
        }
        if !is_kept(old, mesh, from, source, pair.second) {
            return false;
        }
    }
    true
}

/// Returns whether each two faces of a mesh are shown to be apart, or are both old ones.
///
/// `source[i]` is the number of an old face that face `i` may be. The time is that of `find_crossings`.
pub(crate) fn are_apart_or_kept(
    alloc: Global,
    old: &Mesh,
    mesh: &Mesh,
    from: &[u32],
    source: &[u32],
) -> Result<bool, NoMemory>
    requires { IsMesh mesh.now.points.items mesh.now.faces.items }
    ensures { IfOk result (λ yes. OnTrue yes ((i j : ℕ) → i < j → j < length mesh.now.faces.items → AreApartOrKept old.now.points.items mesh.now.points.items mesh.now.faces.items from.now old.now.faces.items i j)) }
{
    let lists = find_crossings(alloc, mesh)?;
    if !are_kept(old, mesh, from, source, &lists.crossing) {
        return Ok(false);
    }
    Ok(are_kept(old, mesh, from, source, &lists.undecided))
}
