//! Faces without area.

ghost use Rattle.std.specs.Prelude.{◌≡◌, ◌<◌, ◌≤◌, ◌^◌, length, pos, unsigned_abs};
ghost use Rattle.std.specs.Bool.{OnTrue, OnFalse};
ghost use Rattle.geo_sign.specs.Point.{IsWithin, origin, point, step};
ghost use Rattle.mesh.specs.Meshes.{IsFace, IsMesh};
ghost use Rattle.mesh_edges.specs.Edges.{face_at};
ghost use Rattle.mesh_edges.specs.Things.{AreSoMany};
ghost use Rattle.mesh_measures.specs.Flat.{IsFlat};
ghost use Rattle.mesh_measures.specs.Volumes.{AreFacesOf};

use crate::volume::{origin_point, place, point_of};
use geo_sign::{Point, Vector};
use mesh::Mesh;
use mesh_edges::next_count;

/// Returns the vector from the origin to a point.
fn vector_to(x: i64, y: i64, z: i64) -> Vector
    requires x { unsigned_abs x ≤ 1 }
    requires y { unsigned_abs y ≤ 1 }
    requires z { unsigned_abs z ≤ 1 }
    ensures value { result ≡ step origin (point x y z) }
    ensures bound { IsWithin (2 ^ 24) result }
{
    origin_point().to(point_of(x, y, z))
}

/// Returns whether a vector product is zero, by its products with the three axes.
fn is_zero(normal: Vector) -> bool
    requires { IsWithin (2 ^ 49) normal }
    ensures yes { OnTrue result (normal ≡ origin) }
    ensures no { OnFalse result (¬ (normal ≡ origin)) }
{
    let x = normal.dot(vector_to(1, 0, 0));
    let y = normal.dot(vector_to(0, 1, 0));
    let z = normal.dot(vector_to(0, 0, 1));
    if x != 0 {
        return false;
    }
    if y != 0 {
        return false;
    }
    z == 0
}

/// Returns whether the three corners of a face are on one line.
fn is_flat(points: &[Point], face: [u32; 3]) -> bool
    requires { IsFace (length points.now) face }
    ensures yes { OnTrue result (IsFlat points.now face) }
    ensures no { OnFalse result (¬ IsFlat points.now face) }
{
    let [a, b, c] = face;
    let from = place(points, a);
    is_zero(from.to(place(points, b)).cross(from.to(place(points, c))))
}

/// Returns whether the three corners of a numbered face are on one line.
fn is_flat_at(points: &[Point], faces: &[[u32; 3]], i: usize) -> bool
    requires within { i < length faces.now }
    requires faces { AreFacesOf points.now faces.now }
    ensures yes { OnTrue result (IsFlat points.now (face_at faces.now i)) }
    ensures no { OnFalse result (¬ IsFlat points.now (face_at faces.now i)) }
{
    is_flat(points, faces[i])
}

/// Returns how many of the faces have their three corners on one line.
fn count_flat(points: &[Point], faces: &[[u32; 3]]) -> usize
    requires { AreFacesOf points.now faces.now }
    ensures { AreSoMany (λ f. (f < length faces.now) × IsFlat points.now (face_at faces.now f)) result }
{
    let mut count = 0;
    for i in 0..faces.len() {
        let hit = is_flat_at(points, faces, i);
        count = next_count(count, hit);
    }
    count
}

/// Returns how many faces of a mesh have no area: their three corners are on one line.
pub fn count_flat_faces(mesh: &Mesh) -> usize
    requires { IsMesh mesh.now.points.items mesh.now.faces.items }
    ensures { AreSoMany (λ f. (f < length mesh.now.faces.items) × IsFlat mesh.now.points.items (face_at mesh.now.faces.items f)) result }
{
    count_flat(&mesh.points, &mesh.faces)
}
