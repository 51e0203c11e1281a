//! Axis-parallel boxes.

ghost use Rattle.std.specs.Bool.{OnFalse};
ghost use Rattle.triangles.specs.Hulls.{HoldsPoint, HoldsHull, AreOff};

use crate::span::Span;
use geo_sign::Point;

/// An axis-parallel box, as one span for each axis.
#[derive(Clone, Copy, Debug)]
pub struct Hull {
    /// The x coordinates.
    pub x: Span,
    /// The y coordinates.
    pub y: Span,
    /// The z coordinates.
    pub z: Span,
}

impl Hull {
    /// Returns the empty box.
    pub fn empty() -> Hull {
        Hull {
            x: Span::empty(),
            y: Span::empty(),
            z: Span::empty(),
        }
    }

    /// Returns the box of one point.
    pub fn of_point(p: Point) -> Hull
        ensures { HoldsPoint result p }
    {
        Hull {
            x: Span::of(p.x()),
            y: Span::of(p.y()),
            z: Span::of(p.z()),
        }
    }

    /// Returns the smallest box that contains two boxes.
    pub fn joined(self, other: Hull) -> Hull
        ensures first { HoldsHull result self }
        ensures second { HoldsHull result other }
    {
        Hull {
            x: self.x.joined(other.x),
            y: self.y.joined(other.y),
            z: self.z.joined(other.z),
        }
    }

    /// Returns the box of three points.
    pub fn of_points(p: Point, q: Point, r: Point) -> Hull
        ensures p { HoldsPoint result p }
        ensures q { HoldsPoint result q }
        ensures r { HoldsPoint result r }
    {
        let two = Hull::of_point(p).joined(Hull::of_point(q));
        two.joined(Hull::of_point(r))
    }

    /// Returns whether two boxes overlap: false if they are disjoint along some axis.
    pub fn meets(self, other: Hull) -> bool
        ensures { OnFalse result (AreOff self other) }
    {
        if !self.x.meets(other.x) {
            return false;
        }
        if !self.y.meets(other.y) {
            return false;
        }
        self.z.meets(other.z)
    }
}
