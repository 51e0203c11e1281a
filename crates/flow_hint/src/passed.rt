//! Hints beside a progress callback, as calls of `max_flow` and those above take them. Depends on the search for hints.

use crate::hinting::{find_hint, find_hint_above, find_hint_on};
use crate::kept::KeptPreflow;
use flow_net::{FlowHints, FlowNetwork, Hint};
use std::alloc::{AllocError, Global};
use watch::{Silent, Stage, Watch};

/// A progress callback to which the hints of this crate are added.
#[derive(Debug, Drop)]
pub struct Hinting<W> {
    /// The callback.
    pub watch: W,
}

impl<W: Watch> Watch for Hinting<W> {
    fn stage(&mut self, stage: Stage, of: u64) {
        self.watch.stage(stage, of);
    }

    fn done(&mut self, count: u64) {
        self.watch.done(count);
    }
}

impl<W: Watch> FlowHints for Hinting<W> {
    type Kept = KeptPreflow;

    fn find<N: FlowNetwork>(&mut self, alloc: Global, net: &N) -> Result<Option<Hint>, AllocError> {
        find_hint(alloc, net, &mut self.watch)
    }

    fn find_above<N: FlowNetwork>(
        &mut self,
        alloc: Global,
        net: &N,
        first: &[u64],
    ) -> Result<Option<(Hint, KeptPreflow)>, AllocError> {
        if first.is_empty() {
            find_hint_above(alloc, net, first, &mut self.watch)
        } else {
            find_hint_above(alloc, net, first, &mut Silent)
        }
    }

    fn resume<N: FlowNetwork>(
        &mut self,
        alloc: Global,
        net: &N,
        kept: KeptPreflow,
    ) -> Result<Option<(Hint, KeptPreflow)>, AllocError> {
        find_hint_on(alloc, net, kept)
    }
}
