//! Marks faces that are not known to be apart from another.

ghost use Rattle.std.specs.Prelude.{◌≡◌, ◌≢◌, ◌<◌, ◌≤◌, ◌+◌, ℕ, All, Contains, OnOk, length, true, false};
ghost use Rattle.std.specs.Bool.{OnTrue, OnFalse};
ghost use Rattle.mesh_edges.specs.Edges.{face_at};
ghost use Rattle.triangles.specs.Gaps.{AreFacesApart};
ghost use Rattle.mesh_flips.specs.Turns.{IsTriangle};
ghost use Rattle.mesh_flips.specs.Fields.{HoldsFace, IsTreeOf};
ghost use Rattle.mesh_smooth.specs.Rounds.{flag, KeepsFlags, IsTested, IsTestedAmong, AreTested, AreAllTested, AreReadyToMark};

use crate::NoMemory;
use geo_sign::Point;
use mesh_flips::hull_of;
use triangles::{Hull, HullTree, are_apart};

/// How many consecutive faces are searched for at once: as many as share a leaf of the tree.
const RUN: usize = 4;

/// Returns whether two faces are known to be apart. `hull` is a box of the first.
fn is_gap(points: &[Point], face: [u32; 3], other: [u32; 3], hull: Hull) -> bool
    requires face { IsTriangle (length points.now) face }
    requires other { IsTriangle (length points.now) other }
    requires hull { HoldsFace points.now hull face }
    ensures { OnTrue result (AreFacesApart points.now face other) }
{
    if !hull.meets(hull_of(points, other)) {
        return true;
    }
    are_apart(points, face, other)
}

/// Marks two faces.
fn mark_two(crosses: &mut [bool], one: usize, other: usize)
    requires one { one < length crosses.old }
    requires other { other < length crosses.old }
    ensures one { flag crosses.new one ≡ true }
    ensures other { flag crosses.new other ≡ true }
    ensures kept { KeepsFlags crosses.old crosses.new }
{
    crosses[one] = true;
    crosses[other] = true;
}

/// Returns whether a pair of faces is to be tested at the first of the two. If both are asked, that is the smaller number.
fn is_due(asked: &[bool], face: usize, other: usize) -> bool
    ensures within { OnTrue result (other < length asked.now) }
    ensures due { OnFalse result (other < length asked.now → other ≢ face → (other < face → flag asked.now other ≡ false) → ⊥) }
{
    if other >= asked.len() || other == face {
        return false;
    }
    if other < face {
        return !asked[other];
    }
    true
}

/// The faces of a mesh, a tree of their boxes, and which of them are asked.
#[derive(Clone, Copy)]
struct AskedFaces<'a> {
    points: &'a [Point],
    faces: &'a [[u32; 3]],
    tree: &'a HullTree,
    asked: &'a [bool],
}

/// Marks a face and another, unless they are known to be apart or the pair is tested elsewhere. `hull` is a box of the first.
fn mark_pair(mesh: &AskedFaces<'_>, crosses: &mut [bool], face: usize, other: usize, hull: Hull)
    requires mesh { AreReadyToMark mesh.now }
    requires marks { length crosses.old ≡ length mesh.now.faces.now }
    requires face { face < length mesh.now.faces.now }
    requires hull { HoldsFace mesh.now.points.now hull (face_at mesh.now.faces.now face) }
    ensures kept { KeepsFlags crosses.old crosses.new }
    ensures tested { other < length mesh.now.faces.now → other ≢ face → (other < face → flag mesh.now.asked.now other ≡ false) → IsTested mesh.now.points.now mesh.now.faces.now crosses.new face other }
{
    if !is_due(mesh.asked, face, other) {
        return;
    }
    if is_gap(mesh.points, mesh.faces[face], mesh.faces[other], hull) {
        return;
    }
    mark_two(crosses, face, other);
}

/// Marks a face and those of some others that are not known to be apart from it, if the face is asked.
fn mark_asked(mesh: &AskedFaces<'_>, crosses: &mut [bool], face: usize, found: &[usize])
    requires mesh { AreReadyToMark mesh.now }
    requires marks { length crosses.old ≡ length mesh.now.faces.now }
    requires face { face < length mesh.now.faces.now }
    ensures kept { KeepsFlags crosses.old crosses.new }
    ensures tested { flag mesh.now.asked.now face ≡ true → IsTestedAmong mesh.now.points.now mesh.now.faces.now mesh.now.asked.now crosses.new found.now face }
{
    if !mesh.asked[face] {
        return;
    }
    let hull = hull_of(mesh.points, mesh.faces[face]);
    for other in found {
        mark_pair(mesh, crosses, face, *other, hull);
    }
}

/// Marks the asked faces of a run and those of some others that are not known to be apart from them.
fn mark_run(mesh: &AskedFaces<'_>, crosses: &mut [bool], from: usize, to: usize, found: &[usize])
    requires mesh { AreReadyToMark mesh.now }
    requires marks { length crosses.old ≡ length mesh.now.faces.now }
    requires to { to ≤ length mesh.now.faces.now }
    ensures kept { KeepsFlags crosses.old crosses.new }
    ensures tested { (f : ℕ) → from ≤ f → f < to → flag mesh.now.asked.now f ≡ true → IsTestedAmong mesh.now.points.now mesh.now.faces.now mesh.now.asked.now crosses.new found.now f }
{
    for face in from..to {
        mark_asked(mesh, crosses, face, found);
    }
}

/// Returns whether a face of a run is asked.
fn is_any_asked(asked: &[bool], from: usize, to: usize) -> bool
    requires { to ≤ length asked.now }
    ensures { OnFalse result ((f : ℕ) → from ≤ f → f < to → flag asked.now f ≡ false) }
{
    for face in from..to {
        if asked[face] {
            return true;
        }
    }
    false
}

/// Returns a box that contains the faces of a run.
fn hull_of_run(points: &[Point], faces: &[[u32; 3]], from: usize, to: usize) -> Hull
    requires each { All (IsTriangle (length points.now)) faces.now }
    requires to { to ≤ length faces.now }
    ensures { (f : ℕ) → from ≤ f → f < to → HoldsFace points.now result (face_at faces.now f) }
{
    let mut hull = Hull::empty();
    for face in from..to {
        let own = hull_of(points, faces[face]);
        let more = hull.joined(own);
        hull = more;
    }
    hull
}

/// Marks the asked faces of a run and all that are not known to be apart from them. The tree is searched once for all: consecutive faces
/// are near each other.
fn mark_near(
    mesh: &AskedFaces<'_>,
    crosses: &mut [bool],
    from: usize,
    to: usize,
    found: &mut Vec<usize>,
) -> Result<(), NoMemory>
    requires mesh { AreReadyToMark mesh.now }
    requires marks { length crosses.old ≡ length mesh.now.faces.now }
    requires to { to ≤ length mesh.now.faces.now }
    ensures kept { KeepsFlags crosses.old crosses.new }
    ensures tested { OnOk result ((f : ℕ) → from ≤ f → f < to → flag mesh.now.asked.now f ≡ true → AreTested mesh.now.points.now mesh.now.faces.now mesh.now.asked.now crosses.new f) }
{
    if !is_any_asked(mesh.asked, from, to) {
        return Ok(());
    }
    found.clear();
    let hull = hull_of_run(mesh.points, mesh.faces, from, to);
    mesh.tree.near(hull, found)?;
    mark_run(mesh, crosses, from, to, found);
    Ok(())
}

/// Returns the end of a run.
fn end_of(from: usize, count: usize) -> usize
    requires { from ≤ count }
    ensures within { result ≤ count }
    ensures far { result < count → result ≡ from + 4 }
{
    if count - from < RUN {
        return count;
    }
    from + RUN
}

/// Marks each asked face that is not known to be apart from all others, and those others.
pub(crate) fn mark_crossing(
    points: &[Point],
    faces: &[[u32; 3]],
    tree: &HullTree,
    asked: &[bool],
    crosses: &mut [bool],
    found: &mut Vec<usize>,
) -> Result<(), NoMemory>
    requires each { All (IsTriangle (length points.now)) faces.now }
    requires tree { IsTreeOf points.now faces.now tree.now }
    requires asked { length asked.now ≡ length faces.now }
    requires marks { length crosses.old ≡ length faces.now }
    ensures { OnOk result (AreAllTested points.now faces.now asked.now crosses.new) }
{
    let mesh = AskedFaces {
        points,
        faces,
        tree,
        asked,
    };
    for run in 0..faces.len() / RUN + 1 {
        let from = RUN * run;
        let to = end_of(from, faces.len());
        mark_near(&mesh, crosses, from, to, found)?;
    }
    Ok(())
}
