//! The signed volume.

ghost use Rattle.std.specs.Prelude.{◌≡◌, ◌<◌, ◌≤◌, ◌^◌, unsigned_abs, length};
ghost use Rattle.geo_sign.specs.Point.{origin, point};
ghost use Rattle.mesh.specs.Meshes.{IsFace, IsMesh, point_at};
ghost use Rattle.mesh_measures.specs.Volumes.{AreFacesOf, face_volume, six_volume};

use geo_sign::{Point, corner, orient_value};
use mesh::Mesh;

/// Returns a point near the origin.
pub(crate) fn point_of(x: i64, y: i64, z: i64) -> Point
    requires x { unsigned_abs x ≤ 1 }
    requires y { unsigned_abs y ≤ 1 }
    requires z { unsigned_abs z ≤ 1 }
    ensures { result ≡ point x y z }
{
    match Point::data(x, y, z) {
        Some(point) => point,
        None => corner(0),
    }
}

/// Returns the origin.
pub(crate) fn origin_point() -> Point
    ensures { result ≡ origin }
{
    point_of(0, 0, 0)
}

/// Returns the point of a vertex.
pub(crate) fn place(points: &[Point], v: u32) -> Point
    requires { v < length points.now }
    ensures { result ≡ point_at points.now v }
{
    points[v as usize]
}

/// Returns six times the signed volume of the tetrahedron of the origin and a face.
fn volume_of(points: &[Point], face: [u32; 3]) -> i128
    requires { IsFace (length points.now) face }
    ensures value { result ≡ face_volume points.now face }
    ensures bound { unsigned_abs result < 2 ^ 75 }
{
    let [a, b, c] = face;
    orient_value(
        origin_point(),
        place(points, a),
        place(points, b),
        place(points, c),
    )
}

/// Returns six times the signed volume of a closed mesh, in cubes of a scaled unit: positive if its faces turn counterclockwise as
/// seen from outside. A sum over 2^32 faces stays below 2^107.
pub fn six_volume(mesh: &Mesh) -> i128
    requires { IsMesh mesh.now.points.items mesh.now.faces.items }
    ensures { result ≡ six_volume mesh.now.points.items mesh.now.faces.items }
{
    sum_of_volumes(&mesh.points, &mesh.faces)
}

/// Returns the sum over all faces.
fn sum_of_volumes(points: &[Point], faces: &[[u32; 3]]) -> i128
    requires { AreFacesOf points.now faces.now }
    ensures { result ≡ six_volume points.now faces.now }
{
    let mut sum = 0;
    for face in faces {
        sum += volume_of(points, *face);
    }
    sum
}
