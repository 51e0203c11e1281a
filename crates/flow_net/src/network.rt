//! Networks by numbers, as the calls that look for flows and labels see them. It depends on `Net` alone.

ghost use Rattle.std.specs.Prelude.{ℕ, ◌≡◌, ◌<◌, ◌≤◌, ◌^◌, ◌↔◌, Bool, true, IfSome, IsSome, is_some};
ghost use Rattle.flow_net.specs.Numbered.{NumberedNetwork};

use crate::Net;

/// A network whose nodes and arcs have numbers: nodes from 0 to below [`node_count`](FlowNetwork::node_count), arcs from 0 to below
/// [`arc_count`](FlowNetwork::arc_count).
///
/// A network in another representation need not be made a [`Net`]. An arc on which nothing can flow may begin and end at one
/// node, so numbers may stand for no arc. A number stands for no node where it is fixed, takes nothing and has no arc on which
/// something can flow.
pub trait FlowNetwork {
    /// The nodes and arcs, and what each is like.
    ghost numbered: { Self → NumberedNetwork };

    /// Which arcs have a reverse.
    ghost paired: { Self → ℕ → Bool };

    /// How many nodes there are.
    fn node_count(&self) -> usize
        ensures value { result ≡ (numbered self.now).node_count }
        ensures small { result < 2 ^ 63 };

    /// How many arcs there are.
    fn arc_count(&self) -> usize
        ensures { result ≡ (numbered self.now).arc_count };

    /// The node that an arc leaves.
    fn tail(&self, arc: usize) -> usize
        requires { arc < (numbered self.now).arc_count }
        ensures value { result ≡ (numbered self.now).from arc }
        ensures within { result < (numbered self.now).node_count };

    /// The node that an arc enters.
    fn head(&self, arc: usize) -> usize
        requires { arc < (numbered self.now).arc_count }
        ensures value { result ≡ (numbered self.now).to arc }
        ensures within { result < (numbered self.now).node_count };

    /// The arc back from the node that an arc enters to the one that it leaves. None exactly if [`is_paired`](FlowNetwork::is_paired)
    /// returns false, as for an arc that leaves a fixed node.
    fn reverse(&self, arc: usize) -> Option<usize>
        requires { arc < (numbered self.now).arc_count }
        ensures there { IsSome result ↔ (paired self.now arc ≡ true) }
        ensures within { IfSome result (λ back. back < (numbered self.now).arc_count) }
        ensures from { IfSome result (λ back. (numbered self.now).from back ≡ (numbered self.now).to arc) }
        ensures to { IfSome result (λ back. (numbered self.now).to back ≡ (numbered self.now).from arc) };

    /// Whether an arc has a reverse, which may be known without a search for it.
    fn is_paired(&self, arc: usize) -> bool
        requires { arc < (numbered self.now).arc_count }
        ensures { result ≡ paired self.now arc };

    /// The capacity of an arc: the most that can flow along it, and what it costs to cut it.
    fn capacity(&self, arc: usize) -> u64
        requires { arc < (numbered self.now).arc_count }
        ensures value { result ≡ (numbered self.now).capacity arc }
        ensures fits { result ≤ 2 ^ 60 };

    /// Whether a node is fixed: it stays outside.
    fn is_fixed(&self, node: usize) -> bool
        requires { node < (numbered self.now).node_count }
        ensures { result ≡ (numbered self.now).is_fixed node };

    /// The sink of a node: the most that can leave the network there, and what it costs to have the node outside.
    fn sink(&self, node: usize) -> u64
        requires { node < (numbered self.now).node_count }
        ensures value { result ≡ (numbered self.now).sink node }
        ensures fits { result ≤ 2 ^ 60 };
}

impl FlowNetwork for Net {
    ghost use Rattle.flow_net.specs.Flows.{numbered_of};
    ghost use Rattle.flow_net.specs.Nets.{arc_at};

    ghost numbered = { numbered_of };

    ghost paired = { λ net arc. is_some (arc_at net.arcs arc).pair };

    #[inline]
    fn node_count(&self) -> usize {
        self.fixed.as_slice().len()
    }

    #[inline]
    fn arc_count(&self) -> usize {
        self.arcs.len()
    }

    #[inline]
    fn tail(&self, arc: usize) -> usize {
        self.arcs.at(arc).from
    }

    #[inline]
    fn head(&self, arc: usize) -> usize {
        self.arcs.at(arc).to
    }

    #[inline]
    fn reverse(&self, arc: usize) -> Option<usize> {
        self.arcs.at(arc).pair
    }

    #[inline]
    fn is_paired(&self, arc: usize) -> bool {
        self.arcs.at(arc).pair.is_some()
    }

    #[inline]
    fn capacity(&self, arc: usize) -> u64 {
        self.arcs.at(arc).cap
    }

    #[inline]
    fn is_fixed(&self, node: usize) -> bool {
        self.fixed.as_slice()[node]
    }

    #[inline]
    fn sink(&self, node: usize) -> u64 {
        self.sink.as_slice()[node]
    }
}
