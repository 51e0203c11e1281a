//! Hints at maximum flows, as a trait. Depends on networks.

use crate::{Flow, FlowNetwork};
use std::alloc::{AllocError, Global};
use watch::{Silent, Watch};

/// Amounts that usually are a maximum flow, and levels of nodes in its residual network, which usually prove it. Callers must
/// validate both.
#[derive(Debug, Drop)]
pub struct Hint {
    /// An amount for each arc, and an amount for each node.
    pub flow: Flow,
    /// The nodes from which a sink with residual capacity can be reached. Amounts that go back flow only between other nodes, so no
    /// level changes.
    pub levels: Levels,
}

/// Which nodes have a level, and which one. Callers must validate them.
#[derive(Debug, Drop)]
pub struct Levels {
    /// Whether a sink with residual capacity can be reached from each node.
    pub is_found: Vec<bool>,
    /// For each found node the number of residual arcs on a path from it to that sink.
    pub level: Vec<u32>,
}

/// A progress callback that also gives hints at maximum flows. The trait has no contract: callers validate each hint, so that hints
/// decide how long a call takes, and never its result. [`Silent`] gives none. Progress is reported by `find`, and by `find_above` if
/// nothing is listed.
pub trait FlowHints: Watch {
    /// What a hint leaves, from which a later one resumes.
    type Kept: Drop;

    /// Returns a hint at a maximum flow, or `None`.
    fn find<N: FlowNetwork>(&mut self, alloc: Global, net: &N) -> Result<Option<Hint>, AllocError>;

    /// Returns a hint by which usually no less flows into each sink than is listed, if a valid flow achieves this, and what it
    /// leaves. Nothing is listed past the end of the list.
    fn find_above<N: FlowNetwork>(
        &mut self,
        alloc: Global,
        net: &N,
        first: &[u64],
    ) -> Result<Option<(Hint, Self::Kept)>, AllocError>;

    /// Returns a hint that resumes from an earlier one, in the same network with larger capacities, and what it leaves.
    fn resume<N: FlowNetwork>(
        &mut self,
        alloc: Global,
        net: &N,
        kept: Self::Kept,
    ) -> Result<Option<(Hint, Self::Kept)>, AllocError>;
}

impl FlowHints for Silent {
    type Kept = ();

    fn find<N: FlowNetwork>(
        &mut self,
        _alloc: Global,
        _net: &N,
    ) -> Result<Option<Hint>, AllocError> {
        Ok(None)
    }

    fn find_above<N: FlowNetwork>(
        &mut self,
        _alloc: Global,
        _net: &N,
        _first: &[u64],
    ) -> Result<Option<(Hint, ())>, AllocError> {
        Ok(None)
    }

    fn resume<N: FlowNetwork>(
        &mut self,
        _alloc: Global,
        _net: &N,
        _kept: (),
    ) -> Result<Option<(Hint, ())>, AllocError> {
        Ok(None)
    }
}
