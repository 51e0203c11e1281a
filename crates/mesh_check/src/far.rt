//! Whether a point is farther than a distance from all faces of a mesh, exactly.

ghost use Rattle.std.specs.Prelude.{◌≡◌, ◌<◌, ◌≤◌, ◌+◌, ◌*◌, ◌^◌, ℕ, pos, unsigned_abs, ◌+ℤ◌, ◌-ℤ◌, ◌*ℤ◌, All, length};
ghost use Rattle.std.specs.Bool.{OnTrue};
ghost use Rattle.geo_sign.specs.Point.{step, dot, square, IsWithin};
ghost use Rattle.geo_sign.specs.declared.point.TheConstants.{BOX_LIMIT};
ghost use Rattle.mesh.specs.Meshes.{IsFace, point_at};
ghost use Rattle.triangles.specs.Shared.{weighted, weighted_sum};
ghost use Rattle.mesh_cover.specs.Covers.{times, IsMeanNear, IsNearFaceOf};
ghost use Rattle.mesh_check.specs.Far.{AreAllFar, IsFarPoint};

use face_near::{Corners, Weights, nearest_on, spot};
use geo_sign::Point;
use mesh::Mesh;
use mesh_flips::Way;
use std::marker::Model;
use std::num::saturating_f64_to_i32;

/// The greatest sum of weights that is tested.
const MOST: u32 = 1024;

/// The greatest distance that is tested, along an axis as far as the box is wide.
const FARTHEST: u32 = 16_777_216;

/// The greatest absolute value of a coordinate that is tested: 2^36.
const WIDEST: u64 = 68_719_476_736;

/// The length of a direction, at most 2^20.
const LENGTH: f64 = 1_048_575.0;

/// A place, a vector or a direction with whole coordinates. Contracts see it as its point.
#[derive(Clone, Copy, Debug)]
pub(crate) struct Spot {
    x: i64,
    y: i64,
    z: i64,
}

impl Model for Spot {
    ghost use Rattle.geo_sign.specs.Point.{Point, point};

    ghost Value = { Point };

    ghost view = { λ p. point p.x p.y p.z };

    ghost inverse = { λ p. record { x = p.x; y = p.y; z = p.z } };
}

/// Returns whether a number is not over a limit.
fn is_up_to(x: i64, limit: u64) -> bool
    ensures { OnTrue result (unsigned_abs x ≤ limit) }
{
    x.unsigned_abs() <= limit
}

impl Spot {
    /// Returns the place of a point.
    fn of(p: Point) -> Spot
        ensures { result ≡ p }
    {
        Spot {
            x: i64::from(p.x()),
            y: i64::from(p.y()),
            z: i64::from(p.z()),
        }
    }

    /// Returns whether no coordinate is over a limit.
    fn is_in(self, limit: u64) -> bool
        ensures { OnTrue result (IsWithin limit self) }
    {
        is_up_to(self.x, limit) && is_up_to(self.y, limit) && is_up_to(self.z, limit)
    }
}

/// Returns a coordinate, as often as a weight says.
fn as_often(weight: u32, x: i64) -> i64
    requires weight { weight ≤ 2 ^ 10 }
    requires x { unsigned_abs x ≤ BOX_LIMIT }
    ensures value { result ≡ pos weight *ℤ x }
    ensures bound { unsigned_abs result ≤ 2 ^ 33 }
{
    i64::from(weight) * x
}

/// Returns a difference.
fn less(x: i64, y: i64) -> i64
    requires x { unsigned_abs x ≤ 2 ^ 33 }
    requires y { unsigned_abs y ≤ 2 ^ 36 }
    ensures value { result ≡ x -ℤ y }
    ensures bound { unsigned_abs result ≤ 2 ^ 37 }
{
    x - y
}

/// Returns a coordinate of a direction times one of a vector.
fn along(n: i64, d: i64) -> i64
    requires n { unsigned_abs n ≤ 2 ^ 20 }
    requires d { unsigned_abs d ≤ 2 ^ 37 }
    ensures value { result ≡ n *ℤ d }
    ensures bound { unsigned_abs result ≤ 2 ^ 57 }
{
    n * d
}

/// Returns the sum of three numbers.
fn sum_of(x: i64, y: i64, z: i64) -> i64
    requires x { unsigned_abs x ≤ 2 ^ 57 }
    requires y { unsigned_abs y ≤ 2 ^ 57 }
    requires z { unsigned_abs z ≤ 2 ^ 57 }
    ensures value { result ≡ x +ℤ y +ℤ z }
    ensures bound { unsigned_abs result ≤ 3 * 2 ^ 57 }
{
    x + y + z
}

/// Returns the vector from a place, in units of a part, to a corner.
fn vector(m: u32, q: Spot, corner: Spot) -> Spot
    requires m { m ≤ 2 ^ 10 }
    requires q { IsWithin (2 ^ 36) q }
    requires corner { IsWithin BOX_LIMIT corner }
    ensures value { result ≡ step q (times m corner) }
    ensures bound { IsWithin (2 ^ 37) result }
{
    Spot {
        x: less(as_often(m, corner.x), q.x),
        y: less(as_often(m, corner.y), q.y),
        z: less(as_often(m, corner.z), q.z),
    }
}

/// Returns how far a vector goes in a direction, times the length of the direction.
fn height(n: Spot, d: Spot) -> i64
    requires n { IsWithin (2 ^ 20) n }
    requires d { IsWithin (2 ^ 37) d }
    ensures value { result ≡ dot n d }
    ensures bound { unsigned_abs result ≤ 3 * 2 ^ 57 }
{
    sum_of(along(n.x, d.x), along(n.y, d.y), along(n.z, d.z))
}

/// Returns a number, 0 for those below.
fn part_over(x: i64) -> u64
    requires { unsigned_abs x ≤ 3 * 2 ^ 57 }
    ensures value { 0 < result → pos result ≡ x }
    ensures bound { result ≤ 3 * 2 ^ 57 }
{
    if x > 0 { x.unsigned_abs() } else { 0 }
}

/// Returns whether the square of a height is over that of a distance, both times the length of a direction.
fn is_higher(h: u64, m: u32, within: u32, square: u64) -> bool
    requires h { h ≤ 3 * 2 ^ 57 }
    requires m { m ≤ 2 ^ 10 }
    requires within { within ≤ 2 ^ 24 }
    requires square { square ≤ 3 * 2 ^ 57 }
    ensures { OnTrue result (m * within * (m * within) * square < h * h) }
{
    let reach = u64::from(m) * u64::from(within);
    let wide = u128::from(reach) * u128::from(reach) * u128::from(square);
    wide < u128::from(h) * u128::from(h)
}

/// Returns the square of a coordinate of a direction.
fn squared(x: i64) -> u64
    requires { unsigned_abs x ≤ 2 ^ 20 }
    ensures value { pos result ≡ x *ℤ x }
    ensures bound { result ≤ 2 ^ 40 }
{
    let size = x.unsigned_abs();
    size * size
}

/// Returns the square of the length of a direction.
fn square_of(n: Spot) -> u64
    requires { IsWithin (2 ^ 20) n }
    ensures value { pos result ≡ square n }
    ensures bound { result ≤ 3 * 2 ^ 40 }
{
    squared(n.x) + squared(n.y) + squared(n.z)
}

/// Returns the least of three numbers.
fn least(x: u64, y: u64, z: u64) -> u64
    ensures x { result ≤ x }
    ensures y { result ≤ y }
    ensures z { result ≤ z }
{
    x.min(y).min(z)
}

/// A point in units of a part: how many parts a unit has, where it is, and how far faces have to be.
#[derive(Clone, Copy)]
struct Target {
    m: u32,
    q: Spot,
    within: u32,
}

/// Returns whether a triangle is shown to be far from a place by a direction, in which its corners are ahead of it.
fn is_beyond(n: Spot, target: Target, a: Spot, b: Spot, c: Spot) -> bool
    requires n { IsWithin (2 ^ 20) n }
    requires m { target.m ≤ 2 ^ 10 }
    requires q { IsWithin (2 ^ 36) target.q }
    requires within { target.within ≤ 2 ^ 24 }
    requires a { IsWithin BOX_LIMIT a }
    requires b { IsWithin BOX_LIMIT b }
    requires c { IsWithin BOX_LIMIT c }
    ensures { OnTrue result ((u v w : ℕ) → ¬ IsMeanNear target.within target.m target.q a b c u v w) }
{
    let one = part_over(height(n, vector(target.m, target.q, a)));
    let two = part_over(height(n, vector(target.m, target.q, b)));
    let three = part_over(height(n, vector(target.m, target.q, c)));
    let ahead = least(one, two, three);
    if ahead == 0 {
        return false;
    }
    is_higher(ahead, target.m, target.within, square_of(n))
}

/// Returns the place of a vertex.
fn spot_of(points: &[Point], v: u32) -> Spot
    requires { v < length points.now }
    ensures value { result ≡ point_at points.now v }
    ensures bound { IsWithin BOX_LIMIT result }
{
    let p = points[v as usize];
    p.facts();
    Spot::of(p)
}

/// Returns a coordinate of a direction of length 1 as a whole number.
fn whole(x: f64) -> i64 {
    i64::from(saturating_f64_to_i32(x * LENGTH))
}

/// Returns the place of a vertex in floating point.
fn way_of(points: &[Point], v: u32) -> Way {
    match points.get(v as usize) {
        Some(p) => spot(*p),
        None => Way::NONE,
    }
}

/// Returns the places of the corners of a face in floating point.
pub(crate) fn corners_of(points: &[Point], face: [u32; 3]) -> Corners {
    let [a, b, c] = face;
    Corners {
        a: way_of(points, a),
        b: way_of(points, b),
        c: way_of(points, c),
    }
}

/// Returns the direction from a place to the nearest point of a triangle: a hint.
fn direction(from: Way, t: &Corners) -> Spot {
    let near = nearest_on(from, t);
    let (a, b) = (near.a, near.b);
    let (c, long) = (1.0 - a - b, near.square.sqrt());
    Spot {
        x: whole((a * t.a.x + b * t.b.x + c * t.c.x - from.x) / long),
        y: whole((a * t.a.y + b * t.b.y + c * t.c.y - from.y) / long),
        z: whole((a * t.a.z + b * t.b.z + c * t.c.z - from.z) / long),
    }
}

/// Returns whether each point of a face is shown to be far. `true` is exact.
fn is_far(points: &[Point], face: [u32; 3], target: Target, from: Way) -> bool
    requires face { IsFace (length points.now) face }
    requires m { target.m ≤ 2 ^ 10 }
    requires q { IsWithin (2 ^ 36) target.q }
    requires within { target.within ≤ 2 ^ 24 }
    ensures { OnTrue result (¬ IsNearFaceOf target.within points.now target.m target.q face) }
{
    let n = direction(from, &corners_of(points, face));
    if !n.is_in(1_048_576) {
        return false;
    }
    let [a, b, c] = face;
    is_beyond(
        n,
        target,
        spot_of(points, a),
        spot_of(points, b),
        spot_of(points, c),
    )
}

/// Returns whether each point of all faces is shown to be far.
fn are_far(points: &[Point], faces: &[[u32; 3]], target: &Target, from: &Way) -> bool
    requires each { All (IsFace (length points.now)) faces.now }
    requires m { target.now.m ≤ 2 ^ 10 }
    requires q { IsWithin (2 ^ 36) target.now.q }
    requires within { target.now.within ≤ 2 ^ 24 }
    ensures { OnTrue result (AreAllFar target.now.within points.now faces.now target.now.m target.now.q) }
{
    for i in 0..faces.len() {
        if !is_far(points, faces[i], *target, *from) {
            return false;
        }
    }
    true
}

/// Returns whether weights are small enough to be multiplied.
fn are_small(w: Weights) -> bool
    ensures { OnTrue result (w.a + w.b + w.c ≤ 2 ^ 10) }
{
    w.a <= MOST && w.b <= MOST && w.c <= MOST && w.a + w.b + w.c <= MOST
}

/// Returns a weighted sum of coordinates.
fn sum_on(w: Weights, x: i64, y: i64, z: i64) -> i64
    requires w { w.a + w.b + w.c ≤ 2 ^ 10 }
    requires x { unsigned_abs x ≤ BOX_LIMIT }
    requires y { unsigned_abs y ≤ BOX_LIMIT }
    requires z { unsigned_abs z ≤ BOX_LIMIT }
    ensures { result ≡ weighted_sum x y z w.a w.b w.c }
{
    sum_of(as_often(w.a, x), as_often(w.b, y), as_often(w.c, z))
}

/// Returns the weighted sum of three places.
fn mean(w: Weights, a: Spot, b: Spot, c: Spot) -> Spot
    requires w { w.a + w.b + w.c ≤ 2 ^ 10 }
    requires a { IsWithin BOX_LIMIT a }
    requires b { IsWithin BOX_LIMIT b }
    requires c { IsWithin BOX_LIMIT c }
    ensures { result ≡ weighted a b c w.a w.b w.c }
{
    Spot {
        x: sum_on(w, a.x, b.x, c.x),
        y: sum_on(w, a.y, b.y, c.y),
        z: sum_on(w, a.z, b.z, c.z),
    }
}

/// Returns the point of a triangle with these weights, in floating point.
pub(crate) fn way_at(w: Weights, t: &Corners) -> Way {
    let (a, b, c) = (f64::from(w.a), f64::from(w.b), f64::from(w.c));
    let total = a + b + c;
    Way {
        x: (a * t.a.x + b * t.b.x + c * t.c.x) / total,
        y: (a * t.a.y + b * t.b.y + c * t.c.y) / total,
        z: (a * t.a.z + b * t.b.z + c * t.c.z) / total,
    }
}

/// Returns whether the point of a face with these weights is shown to be far from each face of a mesh. `true` is exact.
pub(crate) fn is_far_point(
    points: &[Point],
    face: [u32; 3],
    onto: &Mesh,
    w: Weights,
    within: u32,
) -> bool
    requires face { IsFace (length points.now) face }
    requires each { All (IsFace (length onto.now.points.items)) onto.now.faces.items }
    ensures { OnTrue result (IsFarPoint within points.now onto.now.points.items onto.now.faces.items face w.a w.b w.c) }
{
    if !are_small(w) {
        return false;
    }
    let [a, b, c] = face;
    let q = mean(
        w,
        spot_of(points, a),
        spot_of(points, b),
        spot_of(points, c),
    );
    if within > FARTHEST {
        return false;
    }
    if !q.is_in(WIDEST) {
        return false;
    }
    let m = w.a + w.b + w.c;
    if m == 0 {
        return false;
    }
    let from = way_at(w, &corners_of(points, face));
    let target = Target { m, q, within };
    are_far(&onto.points, &onto.faces, &target, &from)
}

/// Returns whether a vertex is shown to be far from each face of a mesh. `true` is exact.
pub(crate) fn is_far_vertex(points: &[Point], v: u32, onto: &Mesh, within: u32) -> bool
    requires v { v < length points.now }
    requires each { All (IsFace (length onto.now.points.items)) onto.now.faces.items }
    ensures { OnTrue result (AreAllFar within onto.now.points.items onto.now.faces.items 1 (point_at points.now v)) }
{
    if within > FARTHEST {
        return false;
    }
    let q = spot_of(points, v);
    if !q.is_in(WIDEST) {
        return false;
    }
    let from = way_of(points, v);
    let target = Target { m: 1, q, within };
    are_far(&onto.points, &onto.faces, &target, &from)
}
