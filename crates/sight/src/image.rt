//! How points look along a line of sight: as positions on a screen perpendicular to it.
//!
//! Let the screen be two vectors whose vector product is along the line of sight, and the image of a point its two scalar
//! products with these, taken from the sight's point p. For points a and d, the determinant of their images has the sign of the
//! orientation of p, d, the scanner and a: by an identity it is that orientation times a number that is not negative. So each
//! sign of a step takes two products of kept images, and the image of each point is computed once.

ghost use Rattle.std.specs.Prelude.{◌≡◌, ◌≤◌, ◌*◌, ◌^◌, pos, neg_ℤ, unsigned_abs, ◌-ℤ◌, ◌*ℤ◌};
ghost use Rattle.geo_sign.specs.declared.point.TheConstants.{BOX_LIMIT};
ghost use Rattle.geo_sign.specs.Point.{point, IsWithin, step, cross, dot};
ghost use Rattle.sight.specs.Images.{along, scaled, IsScreen, IsImage};

use geo_sign::Point;

/// A vector between two points, or perpendicular to one.
#[derive(Clone, Copy)]
pub(crate) struct Direction {
    pub(crate) x: i64,
    pub(crate) y: i64,
    pub(crate) z: i64,
}

/// Two vectors perpendicular to a line of sight.
#[derive(Clone, Copy)]
pub(crate) struct Screen {
    pub(crate) right: Direction,
    pub(crate) up: Direction,
}

/// A ray: from the point of the sight's vertex to the scanner's, with a screen perpendicular to it.
#[derive(Clone, Copy)]
pub(crate) struct Ray {
    pub(crate) vertex: u32,
    pub(crate) point: Point,
    pub(crate) scanner: Point,
    pub(crate) screen: Screen,
}

/// The position of a point on a screen.
#[derive(Clone, Copy)]
pub(crate) struct Image {
    pub(crate) right: i64,
    pub(crate) up: i64,
}

/// Returns the vector from p to x.
fn vector_to(p: Point, x: Point) -> Direction
    requires p_within { IsWithin BOX_LIMIT p }
    requires x_within { IsWithin BOX_LIMIT x }
    ensures value { along result ≡ step p x }
    ensures bound { IsWithin (2 ^ 24) (along result) }
{
    Direction {
        x: i64::from(x.x()) - i64::from(p.x()),
        y: i64::from(x.y()) - i64::from(p.y()),
        z: i64::from(x.z()) - i64::from(p.z()),
    }
}

/// Returns a scalar product.
fn scalar(d: Direction, e: Direction) -> i64
    requires first { IsWithin (2 ^ 24) (along d) }
    requires second { IsWithin (2 ^ 24) (along e) }
    ensures value { result ≡ dot (along d) (along e) }
    ensures bound { unsigned_abs result ≤ 3 * 2 ^ 48 }
{
    d.x * e.x + d.y * e.y + d.z * e.z
}

/// Returns the image of the point xas seen from p.
pub(crate) fn seen_at(screen: &Screen, p: Point, x: Point) -> Image
    requires p_within { IsWithin BOX_LIMIT p }
    requires x_within { IsWithin BOX_LIMIT x }
    requires right { IsWithin (2 ^ 24) (along screen.now.right) }
    requires up { IsWithin (2 ^ 24) (along screen.now.up) }
    ensures { IsImage screen.now p x result }
{
    let to = vector_to(p, x);
    Image {
        right: scalar(screen.right, to),
        up: scalar(screen.up, to),
    }
}

/// Returns the product of two numbers, without overflow.
fn widened_product(a: i64, b: i64) -> i128
    ensures { result ≡ a *ℤ b }
{
    i128::from(a) * i128::from(b)
}

/// Returns the determinant of two images: it is positive if the second is to the left of the first, as seen from the sight's
/// point.
pub(crate) fn determinant(d: Image, a: Image) -> i128
    requires d_right { unsigned_abs d.right ≤ 3 * 2 ^ 48 }
    requires d_up { unsigned_abs d.up ≤ 3 * 2 ^ 48 }
    requires a_right { unsigned_abs a.right ≤ 3 * 2 ^ 48 }
    requires a_up { unsigned_abs a.up ≤ 3 * 2 ^ 48 }
    ensures value { result ≡ a.right *ℤ d.up -ℤ d.right *ℤ a.up }
    ensures bound { unsigned_abs result ≤ 18 * 2 ^ 96 }
{
    widened_product(a.right, d.up) - widened_product(d.right, a.up)
}

/// Returns the vector product of the first axis with a vector, with the opposite sign.
fn beside_first(u: Direction) -> Direction
    requires { IsWithin (2 ^ 24) (along u) }
    ensures value { along result ≡ point (pos 0) u.z (neg_ℤ u.y) }
    ensures bound { IsWithin (2 ^ 24) (along result) }
{
    Direction {
        x: 0,
        y: u.z,
        z: -u.y,
    }
}

/// Returns the same for the second axis.
fn beside_second(u: Direction) -> Direction
    requires { IsWithin (2 ^ 24) (along u) }
    ensures value { along result ≡ point (neg_ℤ u.z) (pos 0) u.x }
    ensures bound { IsWithin (2 ^ 24) (along result) }
{
    Direction {
        x: -u.z,
        y: 0,
        z: u.x,
    }
}

/// Returns the same for the third axis.
fn beside_third(u: Direction) -> Direction
    requires { IsWithin (2 ^ 24) (along u) }
    ensures value { along result ≡ point u.y (neg_ℤ u.x) (pos 0) }
    ensures bound { IsWithin (2 ^ 24) (along result) }
{
    Direction {
        x: u.y,
        y: -u.x,
        z: 0,
    }
}

/// Returns the screen of two vectors whose vector product is u times a number: exchanged if that is negative.
fn ordered(u: Direction, a: Direction, b: Direction, stretch: i64) -> Screen
    requires a_within { IsWithin (2 ^ 24) (along a) }
    requires b_within { IsWithin (2 ^ 24) (along b) }
    requires product { cross (along a) (along b) ≡ scaled (along u) stretch }
    ensures { IsScreen result (along u) }
{
    let _line = u;
    if stretch < 0 {
        Screen { right: b, up: a }
    } else {
        Screen { right: a, up: b }
    }
}

/// Returns the screen perpendicular to a vector: from the two axes along which it is shorter, so that the two vectors are not
/// parallel.
fn across(u: Direction) -> Screen
    requires { IsWithin (2 ^ 24) (along u) }
    ensures { IsScreen result (along u) }
{
    let (x, y, z) = (u.x.unsigned_abs(), u.y.unsigned_abs(), u.z.unsigned_abs());
    if x >= y && x >= z {
        return ordered(u, beside_second(u), beside_third(u), u.x);
    }
    if y >= z {
        return ordered(u, beside_third(u), beside_first(u), u.y);
    }
    ordered(u, beside_first(u), beside_second(u), u.z)
}

/// Returns the screen of a sight from p to a scanner at s.
pub(crate) fn screen_of(p: Point, s: Point) -> Screen
    requires p_within { IsWithin BOX_LIMIT p }
    requires s_within { IsWithin BOX_LIMIT s }
    ensures { IsScreen result (step p s) }
{
    across(vector_to(p, s))
}
