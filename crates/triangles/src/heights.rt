//! Heights of a triangle's corners over a plane.

ghost use Rattle.std.specs.Prelude.{◌≡◌, ◌^◌, ◌≤ℤ◌, ◌<ℤ◌, true};
ghost use Rattle.geo_sign.specs.Point.{IsWithin, dot, step};

use crate::corners::{Marks, Triangle};
use geo_sign::{Point, Vector};

/// The heights of three corners.
#[derive(Clone, Copy)]
pub(crate) struct Heights {
    pub(crate) p: i128,
    pub(crate) q: i128,
    pub(crate) r: i128,
}

/// Returns the heights of the corners over the plane through a point with this normal, times the length of the normal.
pub(crate) fn heights_over(triangle: &Triangle, from: Point, normal: Vector) -> Heights
    requires { IsWithin (2 ^ 49) normal }
    ensures p { result.p ≡ dot normal (step from triangle.now.p) }
    ensures q { result.q ≡ dot normal (step from triangle.now.q) }
    ensures r { result.r ≡ dot normal (step from triangle.now.r) }
{
    Heights {
        p: normal.dot(from.to(triangle.p)),
        q: normal.dot(from.to(triangle.q)),
        r: normal.dot(from.to(triangle.r)),
    }
}

impl Heights {
    /// Returns the smallest of the three.
    pub(crate) fn least(self) -> i128
        ensures p { result ≤ℤ self.p }
        ensures q { result ≤ℤ self.q }
        ensures r { result ≤ℤ self.r }
    {
        self.p.min(self.q).min(self.r)
    }

    /// Returns the greatest of the three.
    pub(crate) fn most(self) -> i128
        ensures p { self.p ≤ℤ result }
        ensures q { self.q ≤ℤ result }
        ensures r { self.r ≤ℤ result }
    {
        self.p.max(self.q).max(self.r)
    }

    /// Returns the corners above a height.
    pub(crate) fn above(self, height: i128) -> Marks
        ensures p { result.p ≡ true → height <ℤ self.p }
        ensures q { result.q ≡ true → height <ℤ self.q }
        ensures r { result.r ≡ true → height <ℤ self.r }
    {
        Marks {
            p: self.p > height,
            q: self.q > height,
            r: self.r > height,
        }
    }

    /// Returns the corners below a height.
    pub(crate) fn below(self, height: i128) -> Marks
        ensures p { result.p ≡ true → self.p <ℤ height }
        ensures q { result.q ≡ true → self.q <ℤ height }
        ensures r { result.r ≡ true → self.r <ℤ height }
    {
        Marks {
            p: self.p < height,
            q: self.q < height,
            r: self.r < height,
        }
    }
}
