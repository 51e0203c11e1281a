//! Points of the box, in scaled whole units, the box's corners, and the vector between two points.

ghost use Rattle.std.specs.Prelude.{◌≡◌, ◌<◌, ◌^◌, IfSome, IfNone};
ghost use Rattle.geo_sign.specs.Point.{point, IsWithin, corner_point, step};
ghost use Rattle.geo_sign.specs.declared.point.TheConstants.{BOX_LIMIT, CORNERS, DATA_LIMIT};

use crate::vector::Vector;
use std::marker::Model;

/// The greatest absolute value of a point's coordinate: 2^23 scaled units, where the walls of the box are.
pub const BOX_LIMIT: u64 = 8_388_608;

/// The greatest absolute value of a coordinate that a scan states: 2^21 - 1 scaled units.
pub const DATA_LIMIT: u64 = 2_097_151;

/// How many corners the box has: they are the vertices below this number, and points are the vertices from it on.
pub const CORNERS: u32 = 8;

/// The most data points, so that numbers of vertices and heights fit: 2^20.
pub const POINT_LIMIT: u32 = 1_048_576;

/// Where the walls of the box are, as a coordinate.
const WALL: i32 = BOX_LIMIT as i32;

/// A point of the box, in scaled whole units. Contracts see it as its place.
#[derive(Clone, Copy, Debug, PartialEq, Eq, PartialOrd, Ord, Hash)]
pub struct Point {
    x: i32,
    y: i32,
    z: i32,
}

impl Model for Point {
    ghost use Rattle.geo_sign.specs.Point.{Point, point, IsWithin};
    ghost use Rattle.geo_sign.specs.declared.point.TheConstants.{BOX_LIMIT};

    ghost Value = { Point };

    ghost view = { λ p. point p.x p.y p.z };

    ghost invariant = { λ p. IsWithin BOX_LIMIT (point p.x p.y p.z) };

    ghost inverse = { λ p. record { x = p.x; y = p.y; z = p.z } };
}

impl Point {
    /// A data point: one that a scan may state. None exactly where a coordinate has an absolute value over [`DATA_LIMIT`].
    pub fn data(x: i64, y: i64, z: i64) -> Option<Point>
        ensures some { IfSome result (λ p. (p ≡ point x y z) × IsWithin DATA_LIMIT p) }
        ensures none { IfNone result (¬ IsWithin DATA_LIMIT (point x y z)) }
    {
        if x.unsigned_abs() <= DATA_LIMIT
            && y.unsigned_abs() <= DATA_LIMIT
            && z.unsigned_abs() <= DATA_LIMIT
        {
            Some(Point {
                x: x as i32,
                y: y as i32,
                z: z as i32,
            })
        } else {
            None
        }
    }

    /// A point of the box. None exactly where a coordinate has an absolute value over 8,388,608.
    pub fn in_box(x: i64, y: i64, z: i64) -> Option<Point>
        ensures some { IfSome result (λ p. (p ≡ point x y z) × IsWithin BOX_LIMIT p) }
        ensures none { IfNone result (¬ IsWithin BOX_LIMIT (point x y z)) }
    {
        if x.unsigned_abs() <= BOX_LIMIT
            && y.unsigned_abs() <= BOX_LIMIT
            && z.unsigned_abs() <= BOX_LIMIT
        {
            Some(Point {
                x: x as i32,
                y: y as i32,
                z: z as i32,
            })
        } else {
            None
        }
    }

    /// Does nothing. Its clause is what each point keeps, for the proofs of callers.
    pub fn facts(&self)
        ensures { IsWithin BOX_LIMIT self.now }
    {
        let _x = self.x;
    }

    /// The first coordinate.
    pub fn x(&self) -> i32
        ensures { result ≡ self.now.x }
    {
        self.x
    }

    /// The second coordinate.
    pub fn y(&self) -> i32
        ensures { result ≡ self.now.y }
    {
        self.y
    }

    /// The third coordinate.
    pub fn z(&self) -> i32
        ensures { result ≡ self.now.z }
    {
        self.z
    }

    /// The vector from this point to another. Two coordinates are at most 2^24 apart.
    pub fn to(self, end: Point) -> Vector
        ensures value { result ≡ step self end }
        ensures bound { IsWithin (2 ^ 24) result }
        ensures kept { IsWithin BOX_LIMIT self × IsWithin BOX_LIMIT end }
    {
        Vector::new(
            i64::from(end.x - self.x),
            i64::from(end.y - self.y),
            i64::from(end.z - self.z),
        )
    }
}

/// Corner k of the box, with 2^23 along the axis of each bit that is set in k (bit 0 is x, bit 1 y, bit 2 z) and -2^23
/// along the others.
pub fn corner(k: u8) -> Point
    requires { k < CORNERS }
    ensures { result ≡ corner_point k }
{
    Point {
        x: if k & 1 == 0 { -WALL } else { WALL },
        y: if k & 2 == 0 { -WALL } else { WALL },
        z: if k & 4 == 0 { -WALL } else { WALL },
    }
}
