//! The corners that a separating plane excludes.

ghost use Rattle.std.specs.Prelude.{◌≡◌, ◌^◌};
ghost use Rattle.geo_sign.specs.Point.{IsWithin};
ghost use Rattle.triangles.specs.Shared.{AreExcluded, AreExcludedOff};

use crate::corners::{Excluded, Marks, Triangle};
use crate::heights::heights_over;
use geo_sign::Vector;

/// Returns the corners that are excluded before or by planes with this normal. A plane through the highest corner of the lower
/// triangle excludes the corners of the upper one that lie above it, and a plane through the lowest corner of the upper triangle those
/// of the lower one that lie below it.
pub(crate) fn excluded_by(
    normal: Vector,
    one: &Triangle,
    other: &Triangle,
    excluded: Excluded,
) -> Excluded
    requires within { IsWithin (2 ^ 49) normal }
    requires before { AreExcluded one.now other.now excluded }
    ensures { AreExcluded one.now other.now result }
{
    let from = one.p;
    let a = heights_over(one, from, normal);
    let b = heights_over(other, from, normal);
    let (floor, roof) = (a.least(), b.most());
    if roof <= floor {
        let above = a.above(roof);
        let below = b.below(floor);
        return excluded.or(above, below);
    }
    let (floor, roof) = (b.least(), a.most());
    if roof <= floor {
        let below = a.below(floor);
        let above = b.above(roof);
        return excluded.or(below, above);
    }
    excluded
}

/// Returns the corners of the second triangle that are excluded by the plane of the first: those off the plane, unless some are above and
/// some below.
pub(crate) fn excluded_off(one: &Triangle, other: &Triangle) -> Marks
    ensures { AreExcludedOff one.now other.now result }
{
    let from = one.p;
    let first = from.to(one.q);
    let second = one.q.to(one.r);
    let normal = first.cross(second);
    let heights = heights_over(other, from, normal);
    let (floor, roof) = (heights.least(), heights.most());
    if roof <= 0 {
        return heights.below(0);
    }
    if 0 <= floor {
        return heights.above(0);
    }
    Marks {
        p: false,
        q: false,
        r: false,
    }
}
