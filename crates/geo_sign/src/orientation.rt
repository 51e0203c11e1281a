//! The orientation of four points: ((b - a) x (c - a)) . (d - a), six times the volume of their tetrahedron.
//!
//! Degree 3. Coordinates are at most 2^24 apart, so the minors are at most 2^49 and the whole at most 3 * 2^73, below 2^75.

ghost use Rattle.std.specs.Prelude.{◌≡◌, ◌<◌, ◌^◌, unsigned_abs};
ghost use Rattle.geo_sign.specs.Orientation.{orientation};
ghost use Rattle.geo_sign.specs.Signs.{sign_of};

use crate::{Point, Sign};

/// Six times the volume of the tetrahedron a b c d, in cubes of a scaled unit: positive where a, b, c turn counterclockwise as seen
/// from d, zero where the four are in one plane.
pub fn orient_value(a: Point, b: Point, c: Point, d: Point) -> i128
    ensures value { result ≡ orientation a b c d }
    ensures bound { unsigned_abs (orientation a b c d) < 2 ^ 75 }
{
    a.to(b).cross(a.to(c)).dot(a.to(d))
}

/// The sign of the orientation of four points.
pub fn orient(a: Point, b: Point, c: Point, d: Point) -> Sign
    ensures value { result ≡ sign_of (orientation a b c d) }
    ensures bound { unsigned_abs (orientation a b c d) < 2 ^ 75 }
{
    Sign::of(orient_value(a, b, c, d))
}
