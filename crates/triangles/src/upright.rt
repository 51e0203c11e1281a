//! Planes that separate triangles in one plane: each is parallel to a side and to an axis that is not in that plane.

ghost use Rattle.std.specs.Prelude.{◌^◌};
ghost use Rattle.geo_sign.specs.Point.{IsWithin};

use crate::corners::Triangle;
use geo_sign::{Vector, corner};

/// Returns whether the corners of the second triangle are in the plane of the first, which has this normal. So it is if the normal is
/// zero.
pub(crate) fn are_in_one_plane(one: &Triangle, other: &Triangle, normal: Vector) -> bool
    requires { IsWithin (2 ^ 49) normal }
{
    let from = one.p;
    normal.dot(from.to(other.p)) == 0
        && normal.dot(from.to(other.q)) == 0
        && normal.dot(from.to(other.r)) == 0
}

/// Returns a vector along an axis that is not parallel to a plane, by two normals of the plane. One of them may be zero.
pub(crate) fn axis_off(one: Vector, other: Vector) -> Vector
    requires one { IsWithin (2 ^ 49) one }
    requires other { IsWithin (2 ^ 49) other }
    ensures { IsWithin (2 ^ 24) result }
{
    let x = corner(0).to(corner(1));
    if one.dot(x) != 0 || other.dot(x) != 0 {
        return x;
    }
    let y = corner(0).to(corner(2));
    if one.dot(y) != 0 || other.dot(y) != 0 {
        return y;
    }
    corner(0).to(corner(4))
}
