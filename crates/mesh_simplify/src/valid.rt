//! Whether a candidate is a valid mesh among vertices of the old one.

ghost use Rattle.std.specs.Prelude.{◌≡◌, ◌<◌, ◌^◌, false, All, AllPairs, IfOk, IfSome, length, map};
ghost use Rattle.std.specs.Bool.{OnTrue};
ghost use Rattle.geo_sign.specs.Point.{IsWithin};
ghost use Rattle.geo_sign.specs.declared.point.TheConstants.{BOX_LIMIT};
ghost use Rattle.mesh.specs.Meshes.{IsFace, IsMesh, point_at};

use crate::NoMemory;
use geo_sign::Point;
use mesh::Mesh;
use std::alloc::Global;

/// Returns whether a face has three distinct vertices below a count, the smallest first.
fn is_face(count: usize, face: [u32; 3]) -> bool
    ensures { OnTrue result (IsFace count face) }
{
    let [a, b, c] = face;
    a < b && a < c && b != c && (b as usize) < count && (c as usize) < count
}

/// Returns whether each face has.
fn are_faces(count: usize, faces: &[[u32; 3]]) -> bool
    ensures { OnTrue result (All (IsFace count) faces.now) }
{
    for face in faces {
        if !is_face(count, *face) {
            return false;
        }
    }
    true
}

/// Returns whether a mesh is valid.
pub(crate) fn is_mesh(mesh: &Mesh) -> bool
    ensures { OnTrue result (IsMesh mesh.now.points.items mesh.now.faces.items) }
{
    if mesh.points.len() > u32::MAX as usize {
        return false;
    }
    if mesh.faces.len() > u32::MAX as usize {
        return false;
    }
    are_faces(mesh.points.len(), &mesh.faces)
}

/// Returns whether a mesh has as many points as there are numbers.
pub(crate) fn are_as_many(mesh: &Mesh, from: &[u32]) -> bool
    ensures { OnTrue result (length mesh.now.points.items ≡ length from.now) }
{
    mesh.points.len() == from.len()
}

/// Returns whether numbers ascend.
pub(crate) fn are_rising(from: &[u32]) -> bool
    ensures { OnTrue result (AllPairs (λ u v. u < v) from.now) }
{
    for at in 1..from.len() {
        if from[at - 1] >= from[at] {
            return false;
        }
    }
    true
}

/// Returns whether all numbers are below a count.
fn are_below(count: usize, from: &[u32]) -> bool
    ensures { OnTrue result (All (λ v. v < count) from.now) }
{
    for v in from {
        if *v as usize >= count {
            return false;
        }
    }
    true
}

/// Returns the points of old numbers, if all are there.
fn points_of(
    alloc: Global,
    old_points: &[Point],
    from: &[u32],
) -> Result<Option<Vec<Point>>, NoMemory>
    ensures points { IfOk result (λ list. IfSome list (λ new. new.items ≡ map (point_at old_points.now) from.now)) }
    ensures within { IfOk result (λ list. IfSome list (λ new. All (λ v. v < length old_points.now) from.now)) }
{
    let mut list = Vec::with_capacity(alloc, from.len())?;
    for v in from {
        if *v as usize >= old_points.len() {
            return Ok(None);
        }
        list.push(old_points[*v as usize])?;
    }
    Ok(Some(list))
}

/// Returns where vertices are: where they were if they do not move, else at proposed places. None if an old number is too great.
pub(crate) fn places_of(
    alloc: Global,
    old_points: &[Point],
    from: &[u32],
    proposed: Vec<Point>,
    moves: bool,
) -> Result<Option<Vec<Point>>, NoMemory>
    ensures within { IfOk result (λ list. IfSome list (λ new. All (λ v. v < length old_points.now) from.now)) }
    ensures places { IfOk result (λ list. IfSome list (λ new. moves ≡ false → new.items ≡ map (point_at old_points.now) from.now)) }
{
    if !moves {
        let Some(points) = points_of(alloc, old_points, from)? else {
            return Ok(None);
        };
        return Ok(Some(points));
    }
    if !are_below(old_points.len(), from) {
        return Ok(None);
    }
    Ok(Some(proposed))
}

/// Does nothing. Its clause is what each point keeps, for the proofs of callers.
pub(crate) fn keep_box(points: &[Point])
    ensures { All (IsWithin BOX_LIMIT) points.now }
{
    for p in points {
        p.facts();
    }
}
