//! Looks for a face near a point.

ghost use Rattle.std.specs.Prelude.{IfOk, All, length};
ghost use Rattle.std.specs.Bool.{OnTrue};
ghost use Rattle.mesh.specs.Meshes.{IsFace};
ghost use Rattle.mesh_reach.specs.Reached.{IsNearSomeFace};

use crate::NoMemory;
use crate::hinted::is_near_face;
use face_near::Reach;
use geo_sign::Point;
use triangles::{Hull, HullTree, Span};

/// Returns a number as a coordinate, the nearest one if it does not fit.
fn coordinate(x: i64) -> i32 {
    x.max(i64::from(i32::MIN)).min(i64::from(i32::MAX)) as i32
}

/// Returns the coordinates within reach of one.
fn span_around(x: i32, reach: Reach) -> Span {
    let middle = i64::from(x) * i64::from(reach.fine);
    let radius = i64::from(reach.within).saturating_mul(i64::from(reach.fine));
    Span {
        low: coordinate(middle.saturating_sub(radius)),
        high: coordinate(middle.saturating_add(radius)),
    }
}

/// Returns a box around all that is within reach of a point.
fn hull_around(p: Point, reach: Reach) -> Hull {
    Hull {
        x: span_around(p.x(), reach),
        y: span_around(p.y(), reach),
        z: span_around(p.z(), reach),
    }
}

/// Returns whether one of these faces is shown to be within reach of a point.
fn is_near_some(
    points: &[Point],
    faces: &[[u32; 3]],
    found: &[usize],
    p: Point,
    reach: Reach,
) -> bool
    requires { All (IsFace (length points.now)) faces.now }
    ensures { OnTrue result (IsNearSomeFace reach.fine reach.within points.now faces.now p) }
{
    for i in found {
        if is_near_face(points, faces, *i, p, reach) {
            return true;
        }
    }
    false
}

/// Returns whether some face is shown to be within reach of a point.
pub(crate) fn is_near_any(
    points: &[Point],
    faces: &[[u32; 3]],
    tree: &HullTree,
    found: &mut Vec<usize>,
    p: Point,
    reach: Reach,
) -> Result<bool, NoMemory>
    requires { All (IsFace (length points.now)) faces.now }
    ensures { IfOk result (λ yes. OnTrue yes (IsNearSomeFace reach.fine reach.within points.now faces.now p)) }
{
    found.clear();
    tree.near(hull_around(p, reach), found)?;
    Ok(is_near_some(points, faces, found, p, reach))
}
