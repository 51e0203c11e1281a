//! The extent of a box along one axis.

ghost use Rattle.std.specs.Prelude.{◌≤ℤ◌};
ghost use Rattle.std.specs.Bool.{OnFalse};
ghost use Rattle.triangles.specs.Spans.{HoldsSpan, AreSpansOff};

/// The numbers from `low` to `high`, none if `low` is above `high`.
#[derive(Clone, Copy, Debug)]
pub struct Span {
    /// The smallest number.
    pub low: i32,
    /// The greatest number.
    pub high: i32,
}

impl Span {
    /// Returns the span without numbers.
    pub(crate) fn empty() -> Span {
        Span {
            low: i32::MAX,
            high: i32::MIN,
        }
    }

    /// Returns the span of one number.
    pub(crate) fn of(x: i32) -> Span
        ensures low { result.low ≤ℤ x }
        ensures high { x ≤ℤ result.high }
    {
        Span { low: x, high: x }
    }

    /// Returns the smallest span that contains two spans.
    pub(crate) fn joined(self, other: Span) -> Span
        ensures first { HoldsSpan result self }
        ensures second { HoldsSpan result other }
    {
        Span {
            low: self.low.min(other.low),
            high: self.high.max(other.high),
        }
    }

    /// Returns whether two spans overlap: false if one is below the other.
    pub(crate) fn meets(self, other: Span) -> bool
        ensures { OnFalse result (AreSpansOff self other) }
    {
        if self.high < other.low {
            return false;
        }
        if other.high < self.low {
            return false;
        }
        true
    }
}
