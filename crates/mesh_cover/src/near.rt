//! Whether a part is near one face.

ghost use Rattle.std.specs.Prelude.{◌<◌, All, length};
ghost use Rattle.std.specs.Bool.{OnTrue};
ghost use Rattle.mesh.specs.Meshes.{IsFace};
ghost use Rattle.mesh_cover.specs.Covers.{IsTriangleCovered};
ghost use Rattle.mesh_cover.specs.Parts.{IsCornerNear};

use crate::exact::{Reach, is_corner_near};
use crate::part::Part;
use crate::place::Place;
use face_near::{Corners, nearest_on, spot, weights_of};
use geo_sign::Point;
use mesh::Mesh;
use mesh_flips::Way;

/// Returns the place of a vertex.
fn spot_at(points: &[Point], v: u32) -> Way {
    match points.get(v as usize) {
        Some(p) => spot(*p),
        None => Way::NONE,
    }
}

/// Returns the places of the corners of a face.
pub(crate) fn corners_of(points: &[Point], face: [u32; 3]) -> Corners {
    let [a, b, c] = face;
    Corners {
        a: spot_at(points, a),
        b: spot_at(points, b),
        c: spot_at(points, c),
    }
}

/// A face, and how near a part has to be to it.
#[derive(Clone, Copy)]
struct Target {
    face: [u32; 3],
    corners: Corners,
    reach: Reach,
}

/// Returns whether a place is shown to be within reach of a face. The nearest point is found by rounded numbers, and tested exactly.
fn is_near_target(points: &[Point], target: &Target, q: Place, spot: Way) -> bool
    requires { All (λ v. v < length points.now) target.now.face }
    ensures { OnTrue result (IsCornerNear target.now.reach.within points.now target.now.reach.scale q target.now.face) }
{
    let near = nearest_on(spot, &target.corners);
    let within = f64::from(target.reach.within);
    if near.square > within * within {
        return false;
    }
    is_corner_near(points, target.face, target.reach, q, weights_of(&near))
}

/// Returns whether all of a part is shown to be within reach of a face.
pub(crate) fn is_part_near(onto: &Mesh, i: usize, part: &Part, within: u32) -> bool
    requires { All (IsFace (length onto.now.points.items)) onto.now.faces.items }
    ensures { OnTrue result (IsTriangleCovered within onto.now.points.items onto.now.faces.items part.now.scale part.now.a part.now.b part.now.c) }
{
    if i >= onto.faces.len() {
        return false;
    }
    let face = onto.faces[i];
    let target = Target {
        face,
        corners: corners_of(&onto.points, face),
        reach: Reach {
            within,
            scale: part.scale,
        },
    };
    if !is_near_target(&onto.points, &target, part.a, part.spots.a) {
        return false;
    }
    if !is_near_target(&onto.points, &target, part.b, part.spots.b) {
        return false;
    }
    is_near_target(&onto.points, &target, part.c, part.spots.c)
}
