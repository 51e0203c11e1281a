//! Goals of walks.

ghost use Rattle.std.specs.Prelude.{◌≡◌, ◌↔◌, ◌<ℤ◌, pos, IsTrue};
ghost use Rattle.geo_sign.specs.declared.point.TheConstants.{BOX_LIMIT};
ghost use Rattle.geo_sign.specs.Point.{IsWithin};
ghost use Rattle.geo_sign.specs.Orientation.{orientation};
ghost use Rattle.geo_sign.specs.Rational.{side};
ghost use Rattle.geo_sign.specs.Signs.{sign_of, opposite_sign};
ghost use Rattle.tetra_walk.specs.Goals.{place_of, IsGoal};

use geo_sign::{Point, Sign, orient, side_of_scanner};

/// The goal of a walk.
#[derive(Clone, Copy)]
pub(crate) enum Goal {
    /// A point.
    Point(Point),
    /// A symbolically perturbed scanner.
    Scanner(Point),
    /// A position arbitrarily near to the first point, towards a symbolically perturbed scanner at the second.
    Towards(Point, Point),
    /// A position arbitrarily near to the first point, away from a symbolically perturbed scanner at the second.
    Behind(Point, Point),
}

/// Returns the sign of the opposite number.
fn opposite(sign: Sign) -> Sign
    ensures { result ≡ opposite_sign sign }
{
    match sign {
        Sign::Neg => Sign::Pos,
        Sign::Zero => Sign::Zero,
        Sign::Pos => Sign::Neg,
    }
}

/// Returns whether two points are the same.
fn is_at(a: Point, p: Point) -> bool
    ensures { IsTrue result → a ≡ p }
{
    a == p
}

/// Returns the sign of the orientation of a b c p. In most walks to a vertex, p is one of the other points: then the sign is
/// zero, and no product is computed.
fn orient_to(a: Point, b: Point, c: Point, p: Point) -> Sign
    ensures { result ≡ sign_of (orientation a b c p) }
{
    if is_at(a, p) {
        return Sign::Zero;
    }
    if is_at(b, p) {
        return Sign::Zero;
    }
    if is_at(c, p) {
        return Sign::Zero;
    }
    orient(a, b, c, p)
}

impl Goal {
    /// Returns the side of the facet a b c on which the goal is. A position near to p is on the side of p; if p is in the
    /// facet's plane, on the scanner's side or the opposite one.
    fn side(&self, a: Point, b: Point, c: Point) -> Sign
        requires goal { IsGoal self.now }
        requires a_within { IsWithin BOX_LIMIT a }
        requires b_within { IsWithin BOX_LIMIT b }
        requires c_within { IsWithin BOX_LIMIT c }
        ensures { result ≡ sign_of (side a b c (place_of self.now)) }
    {
        match self {
            Goal::Point(q) => orient(a, b, c, *q),
            Goal::Scanner(s) => side_of_scanner(a, b, c, *s),
            Goal::Towards(p, s) => orient_to(a, b, c, *p).or(side_of_scanner(a, b, c, *s)),
            Goal::Behind(p, s) => orient_to(a, b, c, *p).or(opposite(side_of_scanner(a, b, c, *s))),
        }
    }

    /// Returns whether the goal is behind the facet a b c.
    pub(crate) fn is_behind(&self, a: Point, b: Point, c: Point) -> bool
        requires goal { IsGoal self.now }
        requires a_within { IsWithin BOX_LIMIT a }
        requires b_within { IsWithin BOX_LIMIT b }
        requires c_within { IsWithin BOX_LIMIT c }
        ensures { IsTrue result ↔ (side a b c (place_of self.now) <ℤ pos 0) }
    {
        match self.side(a, b, c) {
            Sign::Neg => true,
            Sign::Zero => false,
            Sign::Pos => false,
        }
    }
}
