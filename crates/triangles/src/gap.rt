//! The test whether two triangles are apart.

ghost use Rattle.std.specs.Prelude.{◌≡◌, ◌<◌, ◌^◌, ◌⊎◌, All, length};
ghost use Rattle.std.specs.Bool.{OnTrue};
ghost use Rattle.geo_sign.specs.Point.{IsWithin};
ghost use Rattle.mesh.specs.Meshes.{is_vertex_of};
ghost use Rattle.triangles.specs.Shared.{AreExcluded};
ghost use Rattle.triangles.specs.Settled.{AreCovered, AreSettled, AreMarks, IsTriangleOf};
ghost use Rattle.triangles.specs.Gaps.{AreFacesApart};

use crate::corners::{Excluded, Marks, Triangle};
use crate::planes::{excluded_by, excluded_off};
use crate::upright::{are_in_one_plane, axis_off};
use geo_sign::{Point, Vector};

/// The three sides of a triangle.
#[derive(Clone, Copy)]
struct Sides {
    pq: Vector,
    qr: Vector,
    rp: Vector,
}

fn sides_of(triangle: &Triangle) -> Sides
    ensures pq { IsWithin (2 ^ 24) result.pq }
    ensures qr { IsWithin (2 ^ 24) result.qr }
    ensures rp { IsWithin (2 ^ 24) result.rp }
{
    Sides {
        pq: triangle.p.to(triangle.q),
        qr: triangle.q.to(triangle.r),
        rp: triangle.r.to(triangle.p),
    }
}

/// Returns a normal of a triangle.
fn normal_of(sides: &Sides) -> Vector
    requires pq { IsWithin (2 ^ 24) sides.now.pq }
    requires qr { IsWithin (2 ^ 24) sides.now.qr }
    ensures { IsWithin (2 ^ 49) result }
{
    let Sides { pq, qr, rp: _ } = *sides;
    pq.cross(qr)
}

/// Returns the corners that are excluded before or by planes along a side or an axis and each of three sides.
fn excluded_along(
    side: Vector,
    sides: &Sides,
    one: &Triangle,
    other: &Triangle,
    excluded: Excluded,
) -> Excluded
    requires side { IsWithin (2 ^ 24) side }
    requires pq { IsWithin (2 ^ 24) sides.now.pq }
    requires qr { IsWithin (2 ^ 24) sides.now.qr }
    requires rp { IsWithin (2 ^ 24) sides.now.rp }
    requires before { AreExcluded one.now other.now excluded }
    ensures { AreExcluded one.now other.now result }
{
    let Sides { pq, qr, rp } = *sides;
    let first = side.cross(pq);
    let excluded = excluded_by(first, one, other, excluded);
    let second = side.cross(qr);
    let excluded = excluded_by(second, one, other, excluded);
    let third = side.cross(rp);
    excluded_by(third, one, other, excluded)
}

/// Returns whether each corner of a triangle is excluded or common.
fn are_covered(excluded: Marks, common: Marks) -> bool
    ensures { OnTrue result (AreCovered excluded common) }
{
    let all = excluded.or(common);
    all.p && all.q && all.r
}

/// Returns whether that holds for one of two triangles.
fn is_settled(excluded: Excluded, common: Excluded) -> bool
    ensures { OnTrue result (AreCovered excluded.one common.one ⊎ AreCovered excluded.other common.other) }
{
    are_covered(excluded.one, common.one) || are_covered(excluded.other, common.other)
}

/// Returns whether these excluded corners or planes along a side of each triangle show that two triangles are apart.
fn is_gap_along_sides(
    one: &Triangle,
    other: &Triangle,
    common: Excluded,
    excluded: Excluded,
) -> bool
    requires { AreExcluded one.now other.now excluded }
    ensures { OnTrue result (AreSettled one.now other.now common) }
{
    let Sides { pq, qr, rp } = sides_of(one);
    let sides = sides_of(other);
    let excluded = excluded_along(pq, &sides, one, other, excluded);
    if is_settled(excluded, common) {
        return true;
    }
    let excluded = excluded_along(qr, &sides, one, other, excluded);
    if is_settled(excluded, common) {
        return true;
    }
    let excluded = excluded_along(rp, &sides, one, other, excluded);
    is_settled(excluded, common)
}

/// Returns whether these excluded corners or planes along a side of each triangle, or along a side and an axis if both are in one plane,
/// show that two triangles are apart.
fn is_gap_off_planes(one: &Triangle, other: &Triangle, common: Excluded, excluded: Excluded) -> bool
    requires { AreExcluded one.now other.now excluded }
    ensures { OnTrue result (AreSettled one.now other.now common) }
{
    let own = sides_of(one);
    let first = normal_of(&own);
    if !are_in_one_plane(one, other, first) {
        return is_gap_along_sides(one, other, common, excluded);
    }
    let sides = sides_of(other);
    let second = normal_of(&sides);
    let axis = axis_off(first, second);
    let excluded = excluded_along(axis, &own, one, other, excluded);
    if is_settled(excluded, common) {
        return true;
    }
    let excluded = excluded_along(axis, &sides, one, other, excluded);
    is_gap_along_sides(one, other, common, excluded)
}

/// Returns whether planes show that two triangles with these common corners are apart. The planes of the triangles themselves are tried
/// first: they cost least and mostly suffice.
fn is_gap(one: &Triangle, other: &Triangle, common: Excluded) -> bool
    ensures { OnTrue result (AreSettled one.now other.now common) }
{
    let off_one = excluded_off(one, other);
    if are_covered(off_one, common.other) {
        return true;
    }
    let off_other = excluded_off(other, one);
    if are_covered(off_other, common.one) {
        return true;
    }
    let excluded = Excluded {
        one: off_other,
        other: off_one,
    };
    is_gap_off_planes(one, other, common, excluded)
}

/// Returns whether a face has a vertex.
fn has(face: [u32; 3], v: u32) -> bool
    ensures { result ≡ is_vertex_of v face }
{
    let [a, b, c] = face;
    a == v || b == v || c == v
}

/// Returns the corners of a face that another has too.
fn common_corners(one: [u32; 3], other: [u32; 3]) -> Marks
    ensures { AreMarks one other result }
{
    let [a, b, c] = one;
    Marks {
        p: has(other, a),
        q: has(other, b),
        r: has(other, c),
    }
}

/// Returns the corners of a face.
fn triangle_of(points: &[Point], face: [u32; 3]) -> Triangle
    requires { All (λ v. v < length points.now) face }
    ensures { IsTriangleOf points.now face result }
{
    let [a, b, c] = face;
    Triangle {
        p: points[a as usize],
        q: points[b as usize],
        r: points[c as usize],
    }
}

/// Returns whether planes show that each point that two faces contain is one of their common corners or on the edge between them.
///
/// `true` is exact. That `true` is returned for each such pair is not promised: eleven planes are tried, those of the two faces and
/// those parallel to an edge of each, and six more for faces in one plane, each parallel to an edge and an axis.
pub fn are_apart(points: &[Point], one: [u32; 3], other: [u32; 3]) -> bool
    requires one_in { All (λ v. v < length points.now) one }
    requires other_in { All (λ v. v < length points.now) other }
    ensures { OnTrue result (AreFacesApart points.now one other) }
{
    let common = Excluded {
        one: common_corners(one, other),
        other: common_corners(other, one),
    };
    is_gap(
        &triangle_of(points, one),
        &triangle_of(points, other),
        common,
    )
}
