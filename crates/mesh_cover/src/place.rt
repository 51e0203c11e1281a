//! Places with whole coordinates, in units of a part of a face.

ghost use Rattle.std.specs.Prelude.{◌≡◌, ◌≤◌, ◌^◌, unsigned_abs, ◌+ℤ◌};
ghost use Rattle.std.specs.Bool.{OnTrue};
ghost use Rattle.geo_sign.specs.Point.{point, IsWithin};
ghost use Rattle.mesh_cover.specs.Parts.{plus};

use geo_sign::Point;
use std::marker::Model;

/// The greatest absolute value of a coordinate that is tested or added: 2^40.
const WIDEST: u64 = 1_099_511_627_776;

/// A place in units of a part. Contracts see it as its point.
#[derive(Clone, Copy, Debug)]
pub(crate) struct Place {
    x: i64,
    y: i64,
    z: i64,
}

impl Model for Place {
    ghost use Rattle.geo_sign.specs.Point.{Point, point};

    ghost Value = { Point };

    ghost view = { λ p. point p.x p.y p.z };

    ghost inverse = { λ p. record { x = p.x; y = p.y; z = p.z } };
}

/// Returns whether a coordinate may be added.
fn is_low(x: i64) -> bool
    ensures { OnTrue result (unsigned_abs x ≤ 2 ^ 40) }
{
    x.unsigned_abs() <= WIDEST
}

/// Returns the sum of two coordinates.
fn sum(x: i64, y: i64) -> i64
    requires x { unsigned_abs x ≤ 2 ^ 40 }
    requires y { unsigned_abs y ≤ 2 ^ 40 }
    ensures { result ≡ x +ℤ y }
{
    x + y
}

impl Place {
    /// Returns the place of a point, in units of the whole face.
    pub(crate) fn of(p: Point) -> Place
        ensures { result ≡ p }
    {
        Place {
            x: i64::from(p.x()),
            y: i64::from(p.y()),
            z: i64::from(p.z()),
        }
    }

    /// Returns the first coordinate.
    pub(crate) fn x(self) -> i64
        ensures { result ≡ self.x }
    {
        self.x
    }

    /// Returns the second coordinate.
    pub(crate) fn y(self) -> i64
        ensures { result ≡ self.y }
    {
        self.y
    }

    /// Returns the third coordinate.
    pub(crate) fn z(self) -> i64
        ensures { result ≡ self.z }
    {
        self.z
    }

    /// Returns whether the coordinates are small enough to be added and tested.
    pub(crate) fn is_small(self) -> bool
        ensures { OnTrue result (IsWithin (2 ^ 40) self) }
    {
        is_low(self.x) && is_low(self.y) && is_low(self.z)
    }

    /// Returns the sum of two places.
    pub(crate) fn plus(self, other: Place) -> Place
        requires one { IsWithin (2 ^ 40) self }
        requires other { IsWithin (2 ^ 40) other }
        ensures { result ≡ plus self other }
    {
        Place {
            x: sum(self.x, other.x),
            y: sum(self.y, other.y),
            z: sum(self.z, other.z),
        }
    }
}
