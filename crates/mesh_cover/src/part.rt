//! Parts of a face: the four into which the middles of its sides cut a triangle.

ghost use Rattle.std.specs.Prelude.{◌≡◌, ◌≤◌, ◌*◌, ◌^◌};
ghost use Rattle.std.specs.Bool.{OnTrue};
ghost use Rattle.geo_sign.specs.Point.{IsWithin};
ghost use Rattle.mesh_cover.specs.Parts.{plus};

use crate::place::Place;
use face_near::Corners;
use mesh_flips::Way;

/// A triangle: three places in units of a part, and the same in floating point in units of the face.
#[derive(Clone, Copy, Debug)]
pub(crate) struct Part {
    /// The first corner.
    pub(crate) a: Place,
    /// The second corner.
    pub(crate) b: Place,
    /// The third corner.
    pub(crate) c: Place,
    /// How many units of the part one unit of the face has.
    pub(crate) scale: u64,
    /// The corners in floating point, a hint.
    pub(crate) spots: Corners,
}

/// The finest parts that are cut.
const FINEST: u64 = 4096;

/// Returns the place halfway between two.
fn halfway(p: Way, q: Way) -> Way {
    p.plus(q).times(0.5)
}

impl Part {
    /// Returns whether the part may be cut.
    pub(crate) fn is_small(&self) -> bool
        ensures a { OnTrue result (IsWithin (2 ^ 40) self.now.a) }
        ensures b { OnTrue result (IsWithin (2 ^ 40) self.now.b) }
        ensures c { OnTrue result (IsWithin (2 ^ 40) self.now.c) }
        ensures scale { OnTrue result (self.now.scale ≤ 2 ^ 12) }
    {
        self.a.is_small() && self.b.is_small() && self.c.is_small() && self.scale <= FINEST
    }

    /// Returns the same triangle from its second corner on.
    pub(crate) fn turned(&self) -> Part
        ensures a { result.a ≡ self.now.b }
        ensures b { result.b ≡ self.now.c }
        ensures c { result.c ≡ self.now.a }
        ensures scale { result.scale ≡ self.now.scale }
    {
        Part {
            a: self.b,
            b: self.c,
            c: self.a,
            scale: self.scale,
            spots: Corners {
                a: self.spots.b,
                b: self.spots.c,
                c: self.spots.a,
            },
        }
    }

    /// Returns the quarter at the first corner.
    pub(crate) fn corner(&self) -> Part
        requires a { IsWithin (2 ^ 40) self.now.a }
        requires b { IsWithin (2 ^ 40) self.now.b }
        requires c { IsWithin (2 ^ 40) self.now.c }
        requires scale { self.now.scale ≤ 2 ^ 12 }
        ensures a { result.a ≡ plus self.now.a self.now.a }
        ensures b { result.b ≡ plus self.now.a self.now.b }
        ensures c { result.c ≡ plus self.now.a self.now.c }
        ensures scale { result.scale ≡ 2 * self.now.scale }
    {
        Part {
            a: self.a.plus(self.a),
            b: self.a.plus(self.b),
            c: self.a.plus(self.c),
            scale: 2 * self.scale,
            spots: Corners {
                a: self.spots.a,
                b: halfway(self.spots.a, self.spots.b),
                c: halfway(self.spots.a, self.spots.c),
            },
        }
    }

    /// Returns the quarter in the middle.
    pub(crate) fn middle(&self) -> Part
        requires a { IsWithin (2 ^ 40) self.now.a }
        requires b { IsWithin (2 ^ 40) self.now.b }
        requires c { IsWithin (2 ^ 40) self.now.c }
        requires scale { self.now.scale ≤ 2 ^ 12 }
        ensures a { result.a ≡ plus self.now.b self.now.c }
        ensures b { result.b ≡ plus self.now.c self.now.a }
        ensures c { result.c ≡ plus self.now.a self.now.b }
        ensures scale { result.scale ≡ 2 * self.now.scale }
    {
        Part {
            a: self.b.plus(self.c),
            b: self.c.plus(self.a),
            c: self.a.plus(self.b),
            scale: 2 * self.scale,
            spots: Corners {
                a: halfway(self.spots.b, self.spots.c),
                b: halfway(self.spots.c, self.spots.a),
                c: halfway(self.spots.a, self.spots.b),
            },
        }
    }
}
