//! Points on and before the faces of a cube about the middle of the box. Depends on the points of `geo_sign`.

ghost use Rattle.std.specs.Prelude.{◌≡◌, ◌<◌, ◌≤◌, IfOk, All, unsigned_abs};
ghost use Rattle.geo_sign.specs.Point.{IsWithin, point};
ghost use Rattle.gen_scan.specs.Generated.{on_face, scanners as scanners_of_faces};
ghost use Rattle.geo_sign.specs.declared.point.TheConstants.{DATA_LIMIT};

use crate::NoMemory;
use geo_sign::Point;
use std::alloc::Global;

/// The distance of the scanners from the middle, in scaled whole units.
const SCANNER_DISTANCE: i64 = 5_000;

/// The number of faces.
pub const FACES: u32 = 6;

/// Returns the data point with these coordinates.
fn data_point(x: i64, y: i64, z: i64) -> Point
    requires { IsWithin DATA_LIMIT (point x y z) }
    ensures { result ≡ point x y z }
{
    match Point::data(x, y, z) {
        Some(point) => point,
        None => unreachable!(),
    }
}

/// Returns the point on the side of a face at this distance from the middle, with `u` and `v` on the other two axes.
pub fn point_on_face(face: u32, distance: i64, u: i64, v: i64) -> Point
    requires face { face < 6 }
    requires distance { unsigned_abs distance ≤ 5000 }
    requires u { unsigned_abs u ≤ 1000 }
    requires v { unsigned_abs v ≤ 1000 }
    ensures value { result ≡ on_face face distance u v }
    ensures data { IsWithin DATA_LIMIT result }
{
    let along = if face % 2 == 0 { distance } else { -distance };
    match face / 2 {
        0 => data_point(along, u, v),
        1 => data_point(u, along, v),
        _ => data_point(u, v, along),
    }
}

/// Returns a scanner before each face, on the axis through its middle.
pub fn scanners(alloc: Global) -> Result<Vec<Point>, NoMemory>
    ensures value { IfOk result (λ places. places.items ≡ scanners_of_faces) }
    ensures data { IfOk result (λ places. All (IsWithin DATA_LIMIT) places.items) }
{
    let mut places = Vec::new(alloc);
    for face in 0..FACES {
        places.push(point_on_face(face, SCANNER_DISTANCE, 0, 0))?;
    }
    Ok(places)
}
