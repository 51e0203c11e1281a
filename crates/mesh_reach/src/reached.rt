//! The first corner for which no face is shown to be near.

ghost use Rattle.std.specs.Prelude.{◌≡◌, ◌<◌, IfOk, IfNone, OnOk, All, length};
ghost use Rattle.std.specs.Bool.{OnTrue};
ghost use Rattle.mesh.specs.Meshes.{IsFace, IsMesh, point_at};
ghost use Rattle.mesh_reach.specs.Reached.{AreReached, AreMarkedReached, AreCornersReached, IsNearSomeFace};

use crate::NoMemory;
use crate::hinted::is_near_face;
use crate::look::is_near_any;
use face_near::Reach;
use geo_sign::Point;
use mesh::Mesh;
use mesh_flips::tree_of;
use std::alloc::Global;
use triangles::HullTree;

/// What helps to find faces, and a mark for each point for which one is found.
#[derive(Drop)]
struct Search {
    tree: HullTree,
    found: Vec<usize>,
    marks: Vec<bool>,
}

/// Returns the hinted face of a point.
fn hint_at(hints: &[u32], v: u32) -> usize {
    match hints.get(v as usize) {
        Some(face) => *face as usize,
        None => usize::MAX,
    }
}

/// Returns whether some face is shown to be within reach of a point, the hinted one or another.
fn is_near(
    mesh: &Mesh,
    hint: usize,
    tree: &HullTree,
    found: &mut Vec<usize>,
    p: Point,
    reach: Reach,
) -> Result<bool, NoMemory>
    requires { All (IsFace (length mesh.now.points.items)) mesh.now.faces.items }
    ensures { IfOk result (λ yes. OnTrue yes (IsNearSomeFace reach.fine reach.within mesh.now.points.items mesh.now.faces.items p)) }
{
    if is_near_face(&mesh.points, &mesh.faces, hint, p, reach) {
        return Ok(true);
    }
    is_near_any(&mesh.points, &mesh.faces, tree, found, p, reach)
}

/// Returns whether some face is shown to be within reach of a corner, and marks it then.
fn test_corner(
    homes: &[Point],
    mesh: &Mesh,
    hints: &[u32],
    reach: Reach,
    search: &mut Search,
    v: u32,
) -> Result<bool, NoMemory>
    requires each { All (IsFace (length mesh.now.points.items)) mesh.now.faces.items }
    requires corner { v < length homes.now }
    requires marks { length search.old.marks.items ≡ length homes.now }
    requires marked { AreMarkedReached reach.fine reach.within homes.now mesh.now.points.items mesh.now.faces.items search.old.marks.items }
    ensures marks { OnOk result (length search.new.marks.items ≡ length homes.now) }
    ensures marked { OnOk result (AreMarkedReached reach.fine reach.within homes.now mesh.now.points.items mesh.now.faces.items search.new.marks.items) }
    ensures yes { IfOk result (λ yes. OnTrue yes (IsNearSomeFace reach.fine reach.within mesh.now.points.items mesh.now.faces.items (point_at homes.now v))) }
{
    if search.marks[v as usize] {
        return Ok(true);
    }
    let p = homes[v as usize];
    let hint = hint_at(hints, v);
    if !is_near(mesh, hint, &search.tree, &mut search.found, p, reach)? {
        return Ok(false);
    }
    search.marks[v as usize] = true;
    Ok(true)
}

/// Returns the first corner of a face for which no face is shown to be near.
fn first_of_face(
    homes: &[Point],
    mesh: &Mesh,
    hints: &[u32],
    reach: Reach,
    search: &mut Search,
    face: [u32; 3],
) -> Result<Option<u32>, NoMemory>
    requires each { All (IsFace (length mesh.now.points.items)) mesh.now.faces.items }
    requires corners { IsFace (length homes.now) face }
    requires marks { length search.old.marks.items ≡ length homes.now }
    requires marked { AreMarkedReached reach.fine reach.within homes.now mesh.now.points.items mesh.now.faces.items search.old.marks.items }
    ensures marks { OnOk result (length search.new.marks.items ≡ length homes.now) }
    ensures marked { OnOk result (AreMarkedReached reach.fine reach.within homes.now mesh.now.points.items mesh.now.faces.items search.new.marks.items) }
    ensures none { IfOk result (λ v. IfNone v (AreCornersReached reach.fine reach.within homes.now mesh.now.points.items mesh.now.faces.items face)) }
{
    let [a, b, c] = face;
    if !test_corner(homes, mesh, hints, reach, search, a)? {
        return Ok(Some(a));
    }
    if !test_corner(homes, mesh, hints, reach, search, b)? {
        return Ok(Some(b));
    }
    if !test_corner(homes, mesh, hints, reach, search, c)? {
        return Ok(Some(c));
    }
    Ok(None)
}

/// Returns the first corner of some faces for which no face is shown to be near.
fn first_of_faces(
    homes: &[Point],
    home_faces: &[[u32; 3]],
    mesh: &Mesh,
    hints: &[u32],
    reach: Reach,
    search: &mut Search,
) -> Result<Option<u32>, NoMemory>
    requires home { All (IsFace (length homes.now)) home_faces.now }
    requires each { All (IsFace (length mesh.now.points.items)) mesh.now.faces.items }
    requires marks { length search.old.marks.items ≡ length homes.now }
    requires marked { AreMarkedReached reach.fine reach.within homes.now mesh.now.points.items mesh.now.faces.items search.old.marks.items }
    ensures { IfOk result (λ v. IfNone v (AreReached reach.fine reach.within homes.now home_faces.now mesh.now.points.items mesh.now.faces.items)) }
{
    for face in home_faces {
        if let Some(v) = first_of_face(homes, mesh, hints, reach, search, *face)? {
            return Ok(Some(v));
        }
    }
    Ok(None)
}

/// Returns the first corner of the faces of a mesh for which no face of another mesh is shown to be within reach. `None` only if each
/// corner is at most the distance from a point of a face.
///
/// `hints[v]` is a face that vertex `v` may be near. The time is linear if the hints are right; else the faces near a point are looked for.
pub fn first_unreached(
    alloc: Global,
    home: &Mesh,
    mesh: &Mesh,
    hints: &[u32],
    reach: Reach,
) -> Result<Option<u32>, NoMemory>
    requires home { IsMesh home.now.points.items home.now.faces.items }
    requires mesh { IsMesh mesh.now.points.items mesh.now.faces.items }
    ensures { IfOk result (λ v. IfNone v (AreReached reach.fine reach.within home.now.points.items home.now.faces.items mesh.now.points.items mesh.now.faces.items)) }
{
    let mut search = Search {
        tree: tree_of(alloc, &mesh.points, &mesh.faces)?,
        found: Vec::new(alloc),
        marks: vec![in alloc; false; home.points.len()]?,
    };
    first_of_faces(&home.points, &home.faces, mesh, hints, reach, &mut search)
}
