//! The steps of a loop.

/// A step of a loop: a face, and the point on its up edge, `(x/d, y/d)` in scaled units.
#[derive(Clone, Copy, Debug, PartialEq, Eq)]
pub struct Step {
    /// The face's number.
    pub face: u32,
    /// The point's x, times `d`.
    pub x: i64,
    /// The point's y, times `d`.
    pub y: i64,
    /// Twice the height from the up edge's lower vertex to its upper one, above 0.
    pub d: i64,
}

/// A closed loop: each step's face is followed by its next face, and the last by the first.
#[derive(Debug, Drop)]
pub struct Ring {
    /// The steps, that of the smallest face first.
    pub steps: Vec<Step>,
}
