//! The side of a facet on which a scanner lies, where a scanner at s stands for s + (1 / K, 1 / K^2, 1 / K^3) with K = 2^64.
//!
//! Times K^3 it is K^3 o + K^2 n.x + K n.y + n.z, where o is the orientation of a, b, c, s and n = (b - a) x (c - a). The parts
//! of n are at most 2^49, so the first of o, n.x, n.y, n.z that is not zero gives the sign, and no number over 75 bits is
//! computed. It is zero only where a, b, c are on one line.

ghost use Rattle.std.specs.Prelude.{◌≡◌, ◌<◌, ◌^◌, unsigned_abs, pos};
ghost use Rattle.geo_sign.specs.Orientation.{IsOnLine};
ghost use Rattle.geo_sign.specs.Rational.{side, displaced};
ghost use Rattle.geo_sign.specs.Signs.{sign_of};

use crate::{Point, Sign};

/// The side of the facet a b c on which a scanner at s lies: positive where a, b, c turn counterclockwise as seen from its
/// displaced place. Zero only where a, b, c are on one line.
pub fn side_of_scanner(a: Point, b: Point, c: Point, s: Point) -> Sign
    ensures value { result ≡ sign_of (side a b c (displaced s)) }
    ensures bound { unsigned_abs (side a b c (displaced s)) < 2 ^ 270 }
    ensures zero { side a b c (displaced s) ≡ pos 0 → IsOnLine a b c }
{
    let normal = a.to(b).cross(a.to(c));
    Sign::of(normal.dot(a.to(s)))
        .or(Sign::of(i128::from(normal.x())))
        .or(Sign::of(i128::from(normal.y())))
        .or(Sign::of(i128::from(normal.z())))
}
