//! Vectors between points and their products, for the signs. Coordinates and the minors of two vectors stay in 64 bits, and only a
//! product with a minor is widened: of two 64-bit numbers into 128, which is one instruction.

ghost use Rattle.std.specs.Prelude.{◌≡◌, ◌≤◌, ◌*◌, ◌^◌, unsigned_abs, ◌-ℤ◌, ◌*ℤ◌};
ghost use Rattle.geo_sign.specs.Point.{point, IsWithin, cross, dot, square};

use std::marker::Model;

/// A vector between two points, or the vector product of two such vectors. Contracts see it as three whole numbers.
#[derive(Clone, Copy)]
pub struct Vector {
    x: i64,
    y: i64,
    z: i64,
}

impl Model for Vector {
    ghost use Rattle.geo_sign.specs.Point.{Point, point};

    ghost Value = { Point };

    ghost view = { λ p. point p.x p.y p.z };

    ghost inverse = { λ p. record { x = p.x; y = p.y; z = p.z } };
}

/// a d - b c, of coordinates of vectors between points.
fn minor(a: i64, b: i64, c: i64, d: i64) -> i64
    requires a_within { unsigned_abs a ≤ 2 ^ 24 }
    requires b_within { unsigned_abs b ≤ 2 ^ 24 }
    requires c_within { unsigned_abs c ≤ 2 ^ 24 }
    requires d_within { unsigned_abs d ≤ 2 ^ 24 }
    ensures value { result ≡ a *ℤ d -ℤ b *ℤ c }
    ensures bound { unsigned_abs result ≤ 2 ^ 49 }
{
    a * d - b * c
}

/// The product of two numbers, without loss.
fn widened_product(a: i64, b: i64) -> i128
    ensures { result ≡ a *ℤ b }
{
    i128::from(a) * i128::from(b)
}

impl Vector {
    /// The vector with these coordinates.
    pub(crate) fn new(x: i64, y: i64, z: i64) -> Vector
        ensures { result ≡ point x y z }
    {
        Vector { x, y, z }
    }

    /// The first coordinate.
    pub(crate) fn x(self) -> i64
        ensures { result ≡ self.x }
    {
        self.x
    }

    /// The second coordinate.
    pub(crate) fn y(self) -> i64
        ensures { result ≡ self.y }
    {
        self.y
    }

    /// The third coordinate.
    pub(crate) fn z(self) -> i64
        ensures { result ≡ self.z }
    {
        self.z
    }

    /// The third coordinate of the vector product of two vectors between points.
    pub(crate) fn minor(self, other: Vector) -> i64
        requires first { IsWithin (2 ^ 24) self }
        requires second { IsWithin (2 ^ 24) other }
        ensures { result ≡ (cross self other).z }
    {
        minor(self.x, self.y, other.x, other.y)
    }

    /// The vector product of two vectors between points.
    pub fn cross(self, other: Vector) -> Vector
        requires first { IsWithin (2 ^ 24) self }
        requires second { IsWithin (2 ^ 24) other }
        ensures value { result ≡ cross self other }
        ensures bound { IsWithin (2 ^ 49) result }
    {
        Vector {
            x: minor(self.y, self.z, other.y, other.z),
            y: minor(self.z, self.x, other.z, other.x),
            z: minor(self.x, self.y, other.x, other.y),
        }
    }

    /// The scalar product of a vector product with a vector between points.
    pub fn dot(self, other: Vector) -> i128
        requires first { IsWithin (2 ^ 49) self }
        requires second { IsWithin (2 ^ 24) other }
        ensures value { result ≡ dot self other }
        ensures bound { unsigned_abs result ≤ 3 * 2 ^ 73 }
    {
        widened_product(self.x, other.x)
            + widened_product(self.y, other.y)
            + widened_product(self.z, other.z)
    }

    /// The square of the length of a vector between points.
    pub(crate) fn square(self) -> i64
        requires { IsWithin (2 ^ 24) self }
        ensures value { result ≡ square self }
        ensures bound { unsigned_abs result ≤ 3 * 2 ^ 48 }
    {
        self.x * self.x + self.y * self.y + self.z * self.z
    }
}
