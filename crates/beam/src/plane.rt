//! The plane through a scanner and an edge of a cell, and on which side of it points are.
//!
//! The orientation of p, b, c and the scanner is the scalar product of a normal of the plane with the vector from p to the
//! scanner. The normal is computed once, and rounded so that this product fits 64 bits. Where the rounding may have changed
//! its sign, which is rare, the exact sign decides: there the symbolic perturbation of the scanner may decide, too.

ghost use Rattle.std.specs.Prelude.{◌≡◌, ◌<◌, ◌≤◌, ◌*◌, ◌^◌, ◌↔◌, ◌<ℤ◌, pos, unsigned_abs, ◌-ℤ◌, ◌*ℤ◌, IsTrue};
ghost use Rattle.geo_sign.specs.declared.point.TheConstants.{BOX_LIMIT};
ghost use Rattle.geo_sign.specs.Point.{IsWithin, step, cross, dot};
ghost use Rattle.geo_sign.specs.Rational.{side, displaced};
ghost use Rattle.beam.specs.Planes.{vector_of, IsRounded, IsPlane, IsPlaneOf};

use geo_sign::{Point, Sign, side_of_scanner};

/// A vector between two points, or perpendicular to two of these.
#[derive(Clone, Copy)]
pub(crate) struct Direction {
    pub(crate) x: i64,
    pub(crate) y: i64,
    pub(crate) z: i64,
}

/// The plane through a scanner and the points b and c.
#[derive(Clone, Copy)]
pub(crate) struct Plane {
    pub(crate) scanner: Point,
    pub(crate) b: Point,
    pub(crate) c: Point,
    /// A normal of the plane, perhaps divided by 2^12 and rounded.
    pub(crate) normal: Direction,
    /// Its scalar product with the scanner's position.
    pub(crate) base: i64,
    /// The largest product whose sign may be that of the rounding.
    pub(crate) doubt: u64,
}

/// Returns the vector from p to x.
fn vector_to(p: Point, x: Point) -> Direction
    requires p_within { IsWithin BOX_LIMIT p }
    requires x_within { IsWithin BOX_LIMIT x }
    ensures value { vector_of result ≡ step p x }
    ensures bound { IsWithin (2 ^ 24) (vector_of result) }
{
    Direction {
        x: i64::from(x.x()) - i64::from(p.x()),
        y: i64::from(x.y()) - i64::from(p.y()),
        z: i64::from(x.z()) - i64::from(p.z()),
    }
}

/// Returns a d - b c.
fn minor(a: i64, b: i64, c: i64, d: i64) -> i64
    requires a_within { unsigned_abs a ≤ 2 ^ 24 }
    requires b_within { unsigned_abs b ≤ 2 ^ 24 }
    requires c_within { unsigned_abs c ≤ 2 ^ 24 }
    requires d_within { unsigned_abs d ≤ 2 ^ 24 }
    ensures value { result ≡ a *ℤ d -ℤ b *ℤ c }
    ensures bound { unsigned_abs result ≤ 2 ^ 49 }
{
    a * d - b * c
}

/// Returns the vector product of two vectors.
fn perpendicular(u: Direction, v: Direction) -> Direction
    requires first { IsWithin (2 ^ 24) (vector_of u) }
    requires second { IsWithin (2 ^ 24) (vector_of v) }
    ensures value { vector_of result ≡ cross (vector_of u) (vector_of v) }
    ensures bound { IsWithin (2 ^ 49) (vector_of result) }
{
    Direction {
        x: minor(u.y, u.z, v.y, v.z),
        y: minor(u.z, u.x, v.z, v.x),
        z: minor(u.x, u.y, v.x, v.y),
    }
}

/// Returns the scalar product of a normal, perhaps rounded, with the position of a point.
#[inline(always)]
fn product(normal: Direction, p: Point) -> i64
    requires short { IsWithin (2 ^ 37) (vector_of normal) }
    requires p_within { IsWithin BOX_LIMIT p }
    ensures value { result ≡ dot (vector_of normal) p }
    ensures bound { unsigned_abs result ≤ 3 * 2 ^ 60 }
{
    normal.x * i64::from(p.x()) + normal.y * i64::from(p.y()) + normal.z * i64::from(p.z())
}

/// Returns whether no coordinate of a vector is over 2^37.
fn is_short(u: Direction) -> bool
    ensures { IsTrue result ↔ IsWithin (2 ^ 37) (vector_of u) }
{
    u.x.unsigned_abs() <= 1 << 37 && u.y.unsigned_abs() <= 1 << 37 && u.z.unsigned_abs() <= 1 << 37
}

/// Returns a number divided by 2^12, rounded toward zero.
fn rounded(n: i64) -> i64
    requires { unsigned_abs n ≤ 2 ^ 49 }
    ensures near { unsigned_abs (n -ℤ pos 4096 *ℤ result) ≤ 4095 }
    ensures bound { unsigned_abs result ≤ 2 ^ 37 }
{
    n / 4096
}

/// The largest product of a rounded normal and a vector between two points whose sign may be that of the rounding.
const DOUBT: u64 = 3 << 24;

/// Returns a normal divided by 2^12 and rounded.
fn shortened(u: Direction) -> Direction
    requires { IsWithin (2 ^ 49) (vector_of u) }
    ensures rounded { IsRounded (vector_of u) (vector_of result) DOUBT }
    ensures short { IsWithin (2 ^ 37) (vector_of result) }
{
    Direction {
        x: rounded(u.x),
        y: rounded(u.y),
        z: rounded(u.z),
    }
}

/// Returns the plane through a scanner and two points, given a normal.
fn plane_with(scanner: Point, b: Point, c: Point, normal: Direction, doubt: u64) -> Plane
    requires short { IsWithin (2 ^ 37) (vector_of normal) }
    requires rounded { IsRounded (cross (step scanner b) (step scanner c)) (vector_of normal) doubt }
    ensures { IsPlaneOf scanner b c result }
{
    scanner.facts();
    b.facts();
    c.facts();
    Plane {
        scanner,
        b,
        c,
        normal,
        base: product(normal, scanner),
        doubt,
    }
}

/// Returns the plane through a scanner and two points.
pub(crate) fn plane_of(scanner: Point, b: Point, c: Point) -> Plane
    ensures { IsPlaneOf scanner b c result }
{
    scanner.facts();
    b.facts();
    c.facts();
    let normal = perpendicular(vector_to(scanner, b), vector_to(scanner, c));
    if is_short(normal) {
        plane_with(scanner, b, c, normal, 0)
    } else {
        plane_with(scanner, b, c, shortened(normal), DOUBT)
    }
}

/// Returns whether the scanner is on the inner side of the facet p b c, by the exact sign.
#[inline(never)]
fn is_before_exactly(plane: &Plane, p: Point) -> bool
    ensures { IsTrue result ↔ (pos 0 <ℤ side p plane.now.b plane.now.c (displaced plane.now.scanner)) }
{
    match side_of_scanner(p, plane.b, plane.c, plane.scanner) {
        Sign::Neg => false,
        Sign::Zero => false,
        Sign::Pos => true,
    }
}

/// Returns how far before the plane a point is, in a measure that is rounded if the normal is.
#[inline(always)]
fn ahead_of(plane: &Plane, p: Point) -> i64
    requires plane { IsPlane plane.now }
    requires p_within { IsWithin BOX_LIMIT p }
    ensures { result ≡ dot (vector_of plane.now.normal) p -ℤ plane.now.base }
{
    product(plane.normal, p) - plane.base
}

/// Returns whether the perturbed scanner is on the inner side of the facet p b c.
#[inline(always)]
pub(crate) fn is_before(plane: &Plane, p: Point) -> bool
    requires { IsPlane plane.now }
    ensures { IsTrue result ↔ (pos 0 <ℤ side p plane.now.b plane.now.c (displaced plane.now.scanner)) }
{
    p.facts();
    let ahead = ahead_of(plane, p);
    if ahead.unsigned_abs() > plane.doubt {
        ahead < 0
    } else {
        is_before_exactly(plane, p)
    }
}
