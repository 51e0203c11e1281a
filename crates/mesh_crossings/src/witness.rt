//! Weights of corners that show that two faces cross.

ghost use Rattle.std.specs.Prelude.{◌≡◌, ◌<◌, ◌≤◌, ◌^◌, ◌*ℤ◌, All, false, length, pos, unsigned_abs};
ghost use Rattle.std.specs.Bool.{OnTrue};
ghost use Rattle.mesh.specs.Meshes.{is_vertex_of, point_at};
ghost use Rattle.triangles.specs.Gaps.{AreFacesApart, IsCommon};
ghost use Rattle.triangles.specs.Shared.{weighted, weighted_sum};
ghost use Rattle.mesh_crossings.specs.Tested.{AreSmallWeights, IsCornersOf};

use geo_sign::Point;

/// How often each corner of a face counts.
#[derive(Clone, Copy, Debug, PartialEq, Eq)]
pub(crate) struct Weights {
    pub(crate) a: u128,
    pub(crate) b: u128,
    pub(crate) c: u128,
}

/// The greatest weight that is looked at.
const MOST: u128 = 1_208_925_819_614_629_174_706_176;

impl Weights {
    /// Returns whether all weights are small enough to be multiplied.
    fn are_small(self) -> bool
        ensures { OnTrue result (AreSmallWeights self) }
    {
        self.a <= MOST && self.b <= MOST && self.c <= MOST
    }
}

/// Returns a coordinate, as often as a weight says.
fn scaled(weight: u128, x: i32) -> i128
    requires { weight ≤ 2 ^ 80 }
    ensures value { result ≡ pos weight *ℤ x }
    ensures bound { unsigned_abs result ≤ 2 ^ 112 }
{
    weight as i128 * i128::from(x)
}

/// Returns the sum of three coordinates, each as often as its weight says.
fn sum_on(w: Weights, x: i32, y: i32, z: i32) -> i128
    requires { AreSmallWeights w }
    ensures { result ≡ weighted_sum x y z w.a w.b w.c }
{
    scaled(w.a, x) + scaled(w.b, y) + scaled(w.c, z)
}

/// Returns the point of a vertex.
fn place(points: &[Point], v: u32) -> Point
    requires { v < length points.now }
    ensures { result ≡ point_at points.now v }
{
    points[v as usize]
}

/// The corners of a face.
#[derive(Clone, Copy)]
pub(crate) struct Corners {
    pub(crate) a: Point,
    pub(crate) b: Point,
    pub(crate) c: Point,
}

/// Returns whether a number is the sum of three coordinates, each as often as its weight says.
fn is_sum_on(sum: i128, w: Weights, x: i32, y: i32, z: i32) -> bool
    requires { AreSmallWeights w }
    ensures { OnTrue result (sum ≡ weighted_sum x y z w.a w.b w.c) }
{
    sum == sum_on(w, x, y, z)
}

/// Returns whether the weights of two triangles give one point.
fn are_one_point(f: &Corners, u: Weights, g: &Corners, x: Weights) -> bool
    requires u { AreSmallWeights u }
    requires x { AreSmallWeights x }
    ensures { OnTrue result (weighted f.now.a f.now.b f.now.c u.a u.b u.c ≡ weighted g.now.a g.now.b g.now.c x.a x.b x.c) }
{
    let sum = sum_on(u, f.a.x(), f.b.x(), f.c.x());
    if !is_sum_on(sum, x, g.a.x(), g.b.x(), g.c.x()) {
        return false;
    }
    let sum = sum_on(u, f.a.y(), f.b.y(), f.c.y());
    if !is_sum_on(sum, x, g.a.y(), g.b.y(), g.c.y()) {
        return false;
    }
    let sum = sum_on(u, f.a.z(), f.b.z(), f.c.z());
    is_sum_on(sum, x, g.a.z(), g.b.z(), g.c.z())
}

/// Returns whether a face has a vertex.
fn has(face: [u32; 3], v: u32) -> bool
    ensures { result ≡ is_vertex_of v face }
{
    let [a, b, c] = face;
    a == v || b == v || c == v
}

/// Returns whether a corner that is not common has a weight.
fn counts(weight: u128, is_common: bool) -> bool
    ensures { OnTrue result ((0 < weight) × (is_common ≡ false)) }
{
    !is_common && weight > 0
}

/// Returns whether some corner of a face that another has not has a weight.
fn is_off_common(face: [u32; 3], other: [u32; 3], w: Weights) -> bool
    ensures { OnTrue result (¬ IsCommon face other w.a w.b w.c) }
{
    let [a, b, c] = face;
    if counts(w.a, has(other, a)) {
        return true;
    }
    if counts(w.b, has(other, b)) {
        return true;
    }
    counts(w.c, has(other, c))
}

/// Returns the corners of a face.
pub(crate) fn corners_of(points: &[Point], face: [u32; 3]) -> Corners
    requires { All (λ v. v < length points.now) face }
    ensures { IsCornersOf points.now face result }
{
    let [a, b, c] = face;
    Corners {
        a: place(points, a),
        b: place(points, b),
        c: place(points, c),
    }
}

/// Returns whether weights show that two faces are not apart: they give one point of both, which is no common corner and on no common
/// edge.
pub(crate) fn is_witness(
    points: &[Point],
    one: [u32; 3],
    other: [u32; 3],
    u: Weights,
    x: Weights,
) -> bool
    requires one_in { All (λ v. v < length points.now) one }
    requires other_in { All (λ v. v < length points.now) other }
    ensures { OnTrue result (¬ AreFacesApart points.now one other) }
{
    if !u.are_small() {
        return false;
    }
    if !x.are_small() {
        return false;
    }
    if u.a + u.b + u.c != x.a + x.b + x.c {
        return false;
    }
    if !is_off_common(one, other, u) {
        return false;
    }
    if !is_off_common(other, one, x) {
        return false;
    }
    are_one_point(&corners_of(points, one), u, &corners_of(points, other), x)
}
