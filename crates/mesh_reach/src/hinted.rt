//! Whether a point is near a given face.

ghost use Rattle.std.specs.Prelude.{◌<◌, ◌≡◌, [], ◌∷◌, All, length};
ghost use Rattle.std.specs.Bool.{OnTrue};
ghost use Rattle.mesh.specs.Meshes.{IsFace, point_at};
ghost use Rattle.mesh_reach.specs.Reached.{IsNearSomeFace};

use face_near::{Corners, Reach, is_near, nearest_on, spot, weights_of};
use geo_sign::Point;
use mesh_flips::Way;

/// Returns the place of a vertex.
fn spot_at(points: &[Point], v: u32) -> Way {
    match points.get(v as usize) {
        Some(p) => spot(*p),
        None => Way::NONE,
    }
}

/// Returns the places of the corners of a face.
fn corners_of(points: &[Point], face: [u32; 3]) -> Corners {
    let [a, b, c] = face;
    Corners {
        a: spot_at(points, a),
        b: spot_at(points, b),
        c: spot_at(points, c),
    }
}

/// Returns the place of a point on the grid of the faces.
fn magnified(p: Point, fine: u32) -> Way {
    spot(p).times(f64::from(fine))
}

/// Returns whether a face is shown to be within reach of a point. The nearest point of the face is found by rounded numbers, and tested
/// exactly.
pub(crate) fn is_near_face(
    points: &[Point],
    faces: &[[u32; 3]],
    i: usize,
    p: Point,
    reach: Reach,
) -> bool
    requires { All (IsFace (length points.now)) faces.now }
    ensures { OnTrue result (IsNearSomeFace reach.fine reach.within points.now faces.now p) }
{
    if i >= faces.len() {
        return false;
    }
    let face = faces[i];
    let near = nearest_on(magnified(p, reach.fine), &corners_of(points, face));
    is_near(points, face, p, weights_of(&near), reach)
}
