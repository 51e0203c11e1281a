//! Copies of faces and of points.

ghost use Rattle.std.specs.Prelude.{◌≡◌, ◌<◌, ◌^◌, All, IfOk, IfSome, length, map, slice_index};
ghost use Rattle.std.specs.Bool.{OnTrue};
ghost use Rattle.mesh.specs.Meshes.{IsFace, IsMesh, point_at};
ghost use Rattle.mesh_pieces.specs.Copies.{IsCopy};

use crate::{Mesh, NoMemory};
use geo_sign::Point;
use std::alloc::Global;

/// Returns whether a new vertex is a copy of this one.
fn is_copy_of(origin: &[u32], new: u32, old: u32) -> bool
    ensures { OnTrue result ((new < length origin.now) × (slice_index origin.now new ≡ old)) }
{
    (new as usize) < origin.len() && origin[new as usize] == old
}

/// Returns whether the corners of the new face are copies of those of the old one, the smallest first.
fn is_face_copy(old: [u32; 3], new: [u32; 3], origin: &[u32]) -> bool
    ensures copy { OnTrue result (map (slice_index origin.now) new ≡ old) }
    ensures face { OnTrue result (IsFace (length origin.now) new) }
{
    let [a, b, c] = old;
    let [x, y, z] = new;
    if x >= y || x >= z || y == z {
        return false;
    }
    is_copy_of(origin, x, a) && is_copy_of(origin, y, b) && is_copy_of(origin, z, c)
}

/// Returns whether each new face is a copy of the old one at its number.
fn are_copies(old: &[[u32; 3]], new: &[[u32; 3]], origin: &[u32]) -> bool
    ensures copies { OnTrue result (map (map (slice_index origin.now)) new.now ≡ old.now) }
    ensures faces { OnTrue result (All (IsFace (length origin.now)) new.now) }
{
    if new.len() != old.len() {
        return false;
    }
    for f in 0..new.len() {
        if !is_face_copy(old[f], new[f], origin) {
            return false;
        }
    }
    true
}

/// Returns the point of each origin, if all are there.
fn points_of(
    alloc: Global,
    points: &[Point],
    origin: &[u32],
) -> Result<Option<Vec<Point>>, NoMemory>
    ensures originals { IfOk result (λ list. IfSome list (λ new. All (λ v. v < length points.now) origin.now)) }
    ensures places { IfOk result (λ list. IfSome list (λ new. new.items ≡ map (point_at points.now) origin.now)) }
{
    let mut list = Vec::with_capacity(alloc, origin.len())?;
    for v in origin {
        if *v as usize >= points.len() {
            return Ok(None);
        }
        list.push(points[*v as usize])?;
    }
    Ok(Some(list))
}

/// Returns the point of each origin.
pub fn copied_points(
    alloc: Global,
    points: &[Point],
    origin: &[u32],
) -> Result<Vec<Point>, NoMemory>
    requires { All (λ v. v < length points.now) origin.now }
    ensures { IfOk result (λ new. new.items ≡ map (point_at points.now) origin.now) }
{
    let mut list = Vec::with_capacity(alloc, origin.len())?;
    for old in origin {
        list.push(points[*old as usize])?;
    }
    Ok(list)
}

/// Returns the mesh with these faces, whose vertex `w` is a copy of vertex `origin[w]`.
///
/// `None` says that the proposed faces are no copy: with `origin[w]` in the place of each `w` they are not the old faces, or one has not
/// its smallest number first, or `origin` has a number without a point, or more than 4,294,967,295 numbers. Linear.
pub fn copy_mesh(
    alloc: Global,
    points: &[Point],
    old: &[[u32; 3]],
    faces: Vec<[u32; 3]>,
    origin: &[u32],
) -> Result<Option<Mesh>, NoMemory>
    requires few { length old.now < 2 ^ 32 }
    ensures copy { IfOk result (λ mesh. IfSome mesh (λ new. IsCopy points.now old.now new.points.items new.faces.items origin.now)) }
    ensures valid { IfOk result (λ mesh. IfSome mesh (λ new. IsMesh new.points.items new.faces.items)) }
{
    if origin.len() > u32::MAX as usize || !are_copies(old, &faces, origin) {
        return Ok(None);
    }
    match points_of(alloc, points, origin)? {
        Some(points) => Ok(Some(Mesh { points, faces })),
        None => Ok(None),
    }
}
