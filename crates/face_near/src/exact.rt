//! Whether the point of a face with given weights is near a point, exactly.

ghost use Rattle.std.specs.Prelude.{◌≡◌, ◌<◌, ◌≤◌, ◌+◌, ◌*◌, ◌^◌, pos, unsigned_abs, ◌-ℤ◌, ◌*ℤ◌, All, length};
ghost use Rattle.std.specs.Bool.{OnTrue};
ghost use Rattle.geo_sign.specs.declared.point.TheConstants.{BOX_LIMIT};
ghost use Rattle.mesh.specs.Meshes.{point_at};
ghost use Rattle.triangles.specs.Shared.{weighted_sum};
ghost use Rattle.face_near.specs.Near.{IsNearAt, IsNearFace};

use geo_sign::Point;

/// How often each corner of a face counts.
#[derive(Clone, Copy, Debug, PartialEq, Eq)]
pub struct Weights {
    /// The weight of the first corner.
    pub a: u32,
    /// The weight of the second corner.
    pub b: u32,
    /// The weight of the third corner.
    pub c: u32,
}

/// A distance, and the scale between the grid of points and that of faces.
#[derive(Clone, Copy, Debug, PartialEq, Eq)]
pub struct Reach {
    /// How many units of the faces one unit of the points has.
    pub fine: u32,
    /// The distance, in units of the points.
    pub within: u32,
}

/// The greatest weight that is tested.
const MOST_WEIGHT: u32 = 1_048_576;

/// The finest grid that is tested.
const FINEST: u32 = 65_536;

/// The greatest distance that is tested, along an axis as far as the box is wide.
const FARTHEST: u32 = 16_777_216;

impl Weights {
    /// Returns whether all weights are small enough to be multiplied.
    fn are_small(self) -> bool
        ensures { OnTrue result ((self.a ≤ 2 ^ 20) × (self.b ≤ 2 ^ 20) × (self.c ≤ 2 ^ 20)) }
    {
        self.a <= MOST_WEIGHT && self.b <= MOST_WEIGHT && self.c <= MOST_WEIGHT
    }
}

/// Returns a coordinate, as often as a weight says.
fn scaled(weight: u32, x: i32) -> i64
    requires weight { weight ≤ 2 ^ 20 }
    requires x { unsigned_abs x ≤ BOX_LIMIT }
    ensures value { result ≡ pos weight *ℤ x }
    ensures bound { unsigned_abs result ≤ 2 ^ 43 }
{
    i64::from(weight) * i64::from(x)
}

/// Returns the sum of three coordinates, each as often as its weight says.
fn sum_on(w: Weights, x: i32, y: i32, z: i32) -> i64
    requires a { w.a ≤ 2 ^ 20 }
    requires b { w.b ≤ 2 ^ 20 }
    requires c { w.c ≤ 2 ^ 20 }
    requires x { unsigned_abs x ≤ BOX_LIMIT }
    requires y { unsigned_abs y ≤ BOX_LIMIT }
    requires z { unsigned_abs z ≤ BOX_LIMIT }
    ensures value { result ≡ weighted_sum x y z w.a w.b w.c }
    ensures bound { unsigned_abs result ≤ 3 * 2 ^ 43 }
{
    scaled(w.a, x) + scaled(w.b, y) + scaled(w.c, z)
}

/// Returns a coordinate times a scale.
fn far_out(scale: u64, x: i32) -> i64
    requires scale { scale ≤ 3 * 2 ^ 36 }
    requires x { unsigned_abs x ≤ BOX_LIMIT }
    ensures value { result ≡ pos scale *ℤ x }
    ensures bound { unsigned_abs result ≤ 3 * 2 ^ 59 }
{
    scale as i64 * i64::from(x)
}

/// Returns the sum of three coordinates, each as often as its weight says, less a coordinate times a scale.
fn gap(scale: u64, home: i32, w: Weights, x: i32, y: i32, z: i32) -> i64
    requires scale { scale ≤ 3 * 2 ^ 36 }
    requires home { unsigned_abs home ≤ BOX_LIMIT }
    requires weights { (w.a ≤ 2 ^ 20) × (w.b ≤ 2 ^ 20) × (w.c ≤ 2 ^ 20) }
    requires x { unsigned_abs x ≤ BOX_LIMIT }
    requires y { unsigned_abs y ≤ BOX_LIMIT }
    requires z { unsigned_abs z ≤ BOX_LIMIT }
    ensures value { result ≡ weighted_sum x y z w.a w.b w.c -ℤ pos scale *ℤ home }
    ensures bound { unsigned_abs result ≤ 2 ^ 61 }
{
    sum_on(w, x, y, z) - far_out(scale, home)
}

/// Returns the square of a number.
fn squared(x: i64) -> u128
    requires { unsigned_abs x ≤ 2 ^ 61 }
    ensures value { pos result ≡ x *ℤ x }
    ensures bound { result ≤ 2 ^ 122 }
{
    let size = u128::from(x.unsigned_abs());
    size * size
}

/// Returns the square of the same difference.
fn squared_gap(scale: u64, home: i32, w: Weights, x: i32, y: i32, z: i32) -> u128
    requires scale { scale ≤ 3 * 2 ^ 36 }
    requires home { unsigned_abs home ≤ BOX_LIMIT }
    requires weights { (w.a ≤ 2 ^ 20) × (w.b ≤ 2 ^ 20) × (w.c ≤ 2 ^ 20) }
    requires x { unsigned_abs x ≤ BOX_LIMIT }
    requires y { unsigned_abs y ≤ BOX_LIMIT }
    requires z { unsigned_abs z ≤ BOX_LIMIT }
    ensures value { pos result ≡ (weighted_sum x y z w.a w.b w.c -ℤ pos scale *ℤ home) *ℤ (weighted_sum x y z w.a w.b w.c -ℤ pos scale *ℤ home) }
    ensures bound { result ≤ 2 ^ 122 }
{
    squared(gap(scale, home, w, x, y, z))
}

/// Returns the square of a distance, in units of the faces times the sum of the weights.
fn squared_reach(scale: u64, within: u32) -> u128
    requires scale { scale ≤ 3 * 2 ^ 36 }
    requires within { within ≤ 2 ^ 24 }
    ensures { result ≡ scale * within * (scale * within) }
{
    let reach = u128::from(scale) * u128::from(within);
    reach * reach
}

/// Returns the product of a sum of weights and a scale.
fn scale_of(total: u64, fine: u32) -> u64
    requires total { total ≤ 3 * 2 ^ 20 }
    requires fine { fine ≤ 2 ^ 16 }
    ensures value { result ≡ total * fine }
    ensures bound { result ≤ 3 * 2 ^ 36 }
{
    total * u64::from(fine)
}

/// Returns whether the point of a triangle with these weights is within reach of a point.
fn is_near_at(p: Point, a: Point, b: Point, c: Point, w: Weights, reach: Reach) -> bool
    ensures { OnTrue result (IsNearAt reach.fine reach.within p a b c w.a w.b w.c) }
{
    if !w.are_small() {
        return false;
    }
    if reach.fine > FINEST || reach.within > FARTHEST {
        return false;
    }
    let total = u64::from(w.a) + u64::from(w.b) + u64::from(w.c);
    if total == 0 {
        return false;
    }
    p.facts();
    a.facts();
    b.facts();
    c.facts();
    let scale = scale_of(total, reach.fine);
    let x = squared_gap(scale, p.x(), w, a.x(), b.x(), c.x());
    let y = squared_gap(scale, p.y(), w, a.y(), b.y(), c.y());
    let z = squared_gap(scale, p.z(), w, a.z(), b.z(), c.z());
    x + y + z <= squared_reach(scale, reach.within)
}

/// Returns the point of a vertex.
fn place(points: &[Point], v: u32) -> Point
    requires { v < length points.now }
    ensures { result ≡ point_at points.now v }
{
    points[v as usize]
}

/// Returns whether the point of a face with these weights is within reach of a point.
///
/// `true` is exact. The answer is `false` also if all weights are 0, a weight is over 2^20, the faces are on a grid more than 2^16 times
/// finer, or the distance is over 2^24.
pub fn is_near(points: &[Point], face: [u32; 3], p: Point, w: Weights, reach: Reach) -> bool
    requires { All (λ v. v < length points.now) face }
    ensures { OnTrue result (IsNearFace reach.fine reach.within p points.now face) }
{
    let [a, b, c] = face;
    is_near_at(
        p,
        place(points, a),
        place(points, b),
        place(points, c),
        w,
        reach,
    )
}
