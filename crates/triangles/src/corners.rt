//! Triangles, and marks on their corners.

ghost use Rattle.std.specs.Prelude.{◌≡◌, ◌||◌};

use geo_sign::Point;

/// The corners of a triangle.
#[derive(Clone, Copy)]
pub(crate) struct Triangle {
    pub(crate) p: Point,
    pub(crate) q: Point,
    pub(crate) r: Point,
}

/// A mark for each corner of a triangle.
#[derive(Clone, Copy)]
pub(crate) struct Marks {
    pub(crate) p: bool,
    pub(crate) q: bool,
    pub(crate) r: bool,
}

/// Which corners of two triangles are known to have the weight 0 at each point that both triangles contain.
#[derive(Clone, Copy)]
pub(crate) struct Excluded {
    pub(crate) one: Marks,
    pub(crate) other: Marks,
}

impl Marks {
    /// Returns the corners that have one of two marks.
    pub(crate) fn or(self, more: Marks) -> Marks
        ensures p { result.p ≡ (self.p || more.p) }
        ensures q { result.q ≡ (self.q || more.q) }
        ensures r { result.r ≡ (self.r || more.r) }
    {
        Marks {
            p: self.p || more.p,
            q: self.q || more.q,
            r: self.r || more.r,
        }
    }
}

impl Excluded {
    /// Returns the corners that have one of two marks.
    pub(crate) fn or(self, one: Marks, other: Marks) -> Excluded
        ensures p { result.one.p ≡ (self.one.p || one.p) }
        ensures q { result.one.q ≡ (self.one.q || one.q) }
        ensures r { result.one.r ≡ (self.one.r || one.r) }
        ensures x { result.other.p ≡ (self.other.p || other.p) }
        ensures y { result.other.q ≡ (self.other.q || other.q) }
        ensures z { result.other.r ≡ (self.other.r || other.r) }
    {
        let first = self.one.or(one);
        let second = self.other.or(other);
        Excluded {
            one: first,
            other: second,
        }
    }
}
