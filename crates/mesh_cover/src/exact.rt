//! Whether the point of a face with given weights is near a corner of a part, exactly.

ghost use Rattle.std.specs.Prelude.{◌≡◌, ◌<◌, ◌≤◌, ◌+◌, ◌*◌, ◌^◌, pos, unsigned_abs, ◌+ℤ◌, ◌-ℤ◌, ◌*ℤ◌, All, length};
ghost use Rattle.std.specs.Bool.{OnTrue};
ghost use Rattle.geo_sign.specs.Point.{IsWithin};
ghost use Rattle.geo_sign.specs.declared.point.TheConstants.{BOX_LIMIT};
ghost use Rattle.mesh.specs.Meshes.{point_at};
ghost use Rattle.triangles.specs.Shared.{weighted_sum};
ghost use Rattle.mesh_cover.specs.Parts.{IsNearBy, IsCornerNear};

use crate::place::Place;
use face_near::Weights;
use geo_sign::Point;

/// The sum of the weights that are tested.
const TOTAL: u64 = 1_048_576;

/// The finest parts that are tested, in units of a face.
const FINEST: u64 = 4096;

/// The greatest distance that is tested, along an axis as far as the box is wide.
const FARTHEST: u32 = 16_777_216;

/// Returns a coordinate, as often as a weight says.
fn as_often(weight: u32, x: i32) -> i64
    requires weight { weight ≤ 2 ^ 20 }
    requires x { unsigned_abs x ≤ BOX_LIMIT }
    ensures value { result ≡ pos weight *ℤ x }
    ensures bound { unsigned_abs result ≤ 2 ^ 43 }
{
    i64::from(weight) * i64::from(x)
}

/// Returns the sum of three numbers.
fn sum_of(x: i64, y: i64, z: i64) -> i64
    requires x { unsigned_abs x ≤ 2 ^ 43 }
    requires y { unsigned_abs y ≤ 2 ^ 43 }
    requires z { unsigned_abs z ≤ 2 ^ 43 }
    ensures value { result ≡ x +ℤ y +ℤ z }
    ensures bound { unsigned_abs result ≤ 3 * 2 ^ 43 }
{
    x + y + z
}

/// Returns a coordinate times the sum of the weights.
fn in_total(x: i64) -> i64
    requires { unsigned_abs x ≤ 2 ^ 40 }
    ensures value { result ≡ pos (2 ^ 20) *ℤ x }
    ensures bound { unsigned_abs result ≤ 2 ^ 60 }
{
    TOTAL as i64 * x
}

/// Returns a sum of weighted coordinates times a scale.
fn scaled(scale: u64, x: i64) -> i64
    requires scale { scale ≤ 2 ^ 12 }
    requires x { unsigned_abs x ≤ 3 * 2 ^ 43 }
    ensures value { result ≡ pos scale *ℤ x }
    ensures bound { unsigned_abs result ≤ 3 * 2 ^ 55 }
{
    scale as i64 * x
}

/// Returns the square of a number.
fn squared(x: i64) -> u128
    requires { unsigned_abs x ≤ 2 ^ 61 }
    ensures value { pos result ≡ x *ℤ x }
    ensures bound { result ≤ 2 ^ 122 }
{
    let size = u128::from(x.unsigned_abs());
    size * size
}

/// Returns a difference.
fn less(x: i64, y: i64) -> i64
    requires x { unsigned_abs x ≤ 3 * 2 ^ 55 }
    requires y { unsigned_abs y ≤ 2 ^ 60 }
    ensures value { result ≡ x -ℤ y }
    ensures bound { unsigned_abs result ≤ 2 ^ 61 }
{
    x - y
}

/// Returns the square of the difference between a sum of weighted coordinates, times a scale, and a coordinate, times the sum of weights.
fn squared_gap(scale: u64, q: i64, w: Weights, x: i32, y: i32, z: i32) -> u128
    requires scale { scale ≤ 2 ^ 12 }
    requires q { unsigned_abs q ≤ 2 ^ 40 }
    requires weights { (w.a ≤ 2 ^ 20) × (w.b ≤ 2 ^ 20) × (w.c ≤ 2 ^ 20) }
    requires x { unsigned_abs x ≤ BOX_LIMIT }
    requires y { unsigned_abs y ≤ BOX_LIMIT }
    requires z { unsigned_abs z ≤ BOX_LIMIT }
    ensures value { pos result ≡ (pos scale *ℤ weighted_sum x y z w.a w.b w.c -ℤ pos (2 ^ 20) *ℤ q) *ℤ (pos scale *ℤ weighted_sum x y z w.a w.b w.c -ℤ pos (2 ^ 20) *ℤ q) }
    ensures bound { result ≤ 2 ^ 122 }
{
    let mean = sum_of(as_often(w.a, x), as_often(w.b, y), as_often(w.c, z));
    squared(less(scaled(scale, mean), in_total(q)))
}

/// Returns the square of a distance, times the scale and the sum of the weights.
fn squared_reach(scale: u64, within: u32) -> u128
    requires scale { scale ≤ 2 ^ 12 }
    requires within { within ≤ 2 ^ 24 }
    ensures { result ≡ scale * 2 ^ 20 * within * (scale * 2 ^ 20 * within) }
{
    let reach = u128::from(scale * TOTAL) * u128::from(within);
    reach * reach
}

/// Returns whether weights have the sum 2^20.
fn are_whole(w: Weights) -> bool
    ensures { OnTrue result (w.a + w.b + w.c ≡ 2 ^ 20) }
{
    u64::from(w.a) + u64::from(w.b) + u64::from(w.c) == TOTAL
}

/// How near a face has to be to a place, and how many units of the place one unit of the face has.
#[derive(Clone, Copy)]
pub(crate) struct Reach {
    pub(crate) within: u32,
    pub(crate) scale: u64,
}

/// Returns whether the mean of three corners with these weights is within reach of a place.
fn is_near_by(reach: Reach, q: Place, a: Point, b: Point, c: Point, w: Weights) -> bool
    ensures { OnTrue result (IsNearBy reach.within reach.scale q a b c w.a w.b w.c) }
{
    let Reach { within, scale } = reach;
    if !are_whole(w) {
        return false;
    }
    if !q.is_small() {
        return false;
    }
    if scale > FINEST || within > FARTHEST {
        return false;
    }
    a.facts();
    b.facts();
    c.facts();
    let x = squared_gap(scale, q.x(), w, a.x(), b.x(), c.x());
    let y = squared_gap(scale, q.y(), w, a.y(), b.y(), c.y());
    let z = squared_gap(scale, q.z(), w, a.z(), b.z(), c.z());
    x + y + z <= squared_reach(scale, within)
}

/// Returns the point of a vertex.
fn point_of(points: &[Point], v: u32) -> Point
    requires { v < length points.now }
    ensures { result ≡ point_at points.now v }
{
    points[v as usize]
}

/// Returns whether the point of a face with these weights is within reach of a place. `true` is exact.
pub(crate) fn is_corner_near(
    points: &[Point],
    face: [u32; 3],
    reach: Reach,
    q: Place,
    w: Weights,
) -> bool
    requires { All (λ v. v < length points.now) face }
    ensures { OnTrue result (IsCornerNear reach.within points.now reach.scale q face) }
{
    let [a, b, c] = face;
    is_near_by(
        reach,
        q,
        point_of(points, a),
        point_of(points, b),
        point_of(points, c),
        w,
    )
}
