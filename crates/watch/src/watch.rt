//! The trait, and the callback that does nothing.

/// A stage of the work on a scan that may take long.
#[derive(Clone, Copy, Debug, PartialEq, Eq)]
pub enum Stage {
    /// Points are inserted, which creates cells.
    Cells,
    /// Sights are traversed, which accumulates the visibility weights of cells.
    Sights,
    /// A maximum flow is computed. The count is the number of times that amounts were moved on from a node, so its total is
    /// unknown.
    Flow,
    /// The flow is completed in rounds, which are counted. Their number is unknown.
    Rounds,
    /// The surfaces of a sweep are computed and passed on.
    Surfaces,
    /// Query points are located among the cells.
    Answers,
    /// None of these stages follows, or none for now.
    Over,
}

/// A progress callback. Its effects cannot change the result of the call that reports to it.
pub trait Watch {
    /// Receives the start of a stage, with its number of points, sights or surfaces, or 0 if the number of nodes or rounds is
    /// unknown.
    fn stage(&mut self, stage: Stage, of: u64);

    /// Receives the number of items of the current stage that are done.
    fn done(&mut self, count: u64);
}

/// The callback that does nothing.
#[derive(Clone, Copy, Debug, PartialEq, Eq)]
pub struct Silent;

impl Watch for Silent {
    fn stage(&mut self, _stage: Stage, _of: u64) {}

    fn done(&mut self, _count: u64) {}
}
