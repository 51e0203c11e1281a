//! Networks of nodes and arcs with a sink at each node, labels that cut them, and flows through them.
//!
//! Verified: each `Net` is a valid network; the value of a flow is at most the cost of a cut (`value_is_at_most_cost`).
//! So is each `NetBuilder` and each implementation of `FlowNetwork`. If value and cost are equal, both are optimal.
//!
//! The labelling of cells as inside or outside by minimum cut, as in Labatut, Pons and Keriven (2007 and 2009): each
//! cell is a node, and each directed facet towards a free cell is an arc. The crate depends on the standard library
//! and `thiserror` alone, and knows nothing of geometry.
//!
//! This file holds the types. `lists` and `compact` hold the lists that stand in their fields, `network` says what a network by
//! numbers is (`Net` is one; all sums and searches go over these), `builder` makes a `Net` node by node and join by join,
//! `hints` says who gives hints at flows, `votes` holds the settings and sights, `sums` the cost of labels and the value of a flow, `laws` what holds between the two,
//! and `validity` the test that `Net::is_valid` makes.
#![tactic(auto)]

ghost use Rattle.std.specs.Prelude.{◌≡◌, ◌↔◌, IsTrue, IsSome, IfSome};
ghost use Rattle.flow_net.specs.Nets.{IsValidNet};

mod builder;
mod compact;
mod hints;
mod laws;
mod lists;
mod network;
mod sums;
mod validity;
mod votes;

pub use builder::{NetBuilder, NetRefusal};
pub use compact::Arcs;
pub use hints::{FlowHints, Hint, Levels};
pub use laws::{equal_value_and_cost_are_best, value_is_at_most_cost};
pub use lists::Sequence;
pub use network::FlowNetwork;
pub use sums::{cost, value};
pub use votes::{SIGHT_LIMIT, SIGHT_WEIGHT_LIMIT, Settings, Sight, WEIGHT_LIMIT, are_sights};

/// The largest capacity of an arc and the largest sink of a node, 2^60, so that sums of them fit in 128 bits.
pub const AMOUNT_LIMIT: u64 = 1_152_921_504_606_846_976;

/// An arc from one node of a network to another.
///
/// An arc stands for a directed facet of the cell `from` to the free adjacent cell `to`.
#[derive(Clone, Copy, Debug, PartialEq, Eq)]
pub struct Arc {
    /// The node that the arc leaves.
    pub from: usize,
    /// The node that the arc enters.
    pub to: usize,
    /// The capacity: the most that can flow along the arc, and what it costs to cut it.
    pub cap: u64,
    /// The number of the reverse arc, or None where the arc leaves a fixed node.
    pub pair: Option<usize>,
}

/// A network: nodes that are fixed or free, a sink at each node, and arcs that enter free nodes.
///
/// A fixed node stays outside. The type keeps what [`Net::is_valid`] tests.
#[derive(Debug, Drop)]
pub struct Net {
    /// Which nodes are fixed.
    pub fixed: Sequence<bool>,
    /// The sink of each node: the most that can leave the network there, and what it costs to have the node outside.
    pub sink: Sequence<u64>,
    /// The arcs.
    pub arcs: Arcs,
    pub ghost valid: { IsValidNet fixed sink arcs },
}

/// Labels of the nodes of a network.
#[derive(Debug, Drop)]
pub struct Labels {
    /// Which nodes are inside.
    pub inside: Sequence<bool>,
}

/// A flow from the fixed nodes along arcs into sinks.
#[derive(Debug, Drop)]
pub struct Flow {
    /// The amount on each arc.
    pub on_arc: Sequence<u64>,
    /// The amount that leaves at each node's sink.
    pub on_sink: Sequence<u64>,
}

/// A network made of cells and facets, with what each node and each arc stands for.
#[derive(Debug, Drop)]
pub struct Voted {
    /// The network.
    pub net: Net,
    /// The four vertices of the cell that each node stands for.
    pub cells: Sequence<[u32; 4]>,
    /// The three vertices of the directed facet that each arc stands for.
    pub facets: Sequence<[u32; 3]>,
}

impl Net {
    /// Whether these parts make a valid network.
    ///
    /// There is one sink a node. Arcs join distinct nodes of the network and enter free ones. The pair of an arc that
    /// leaves a free node is an arc the other way that names it back, and an arc that leaves a fixed node has none.
    /// Capacities and sinks are at most [`AMOUNT_LIMIT`].
    pub fn is_valid(fixed: &[bool], sink: &[u64], arcs: &[Arc]) -> bool
        ensures { IsTrue result ↔ IsValidNet fixed.now sink.now arcs.now }
    {
        validity::are_valid(fixed, sink, arcs)
    }

    /// The network of these parts, which make a valid one by [`Net::is_valid`]. It takes no memory.
    pub fn new(fixed: Vec<bool>, sink: Vec<u64>, arcs: Vec<Arc>) -> Net
        requires { IsValidNet fixed.items sink.items arcs.items }
        ensures fixed { result.fixed ≡ fixed.items }
        ensures sink { result.sink ≡ sink.items }
        ensures arcs { result.arcs ≡ arcs.items }
    {
        Net::with_arcs(
            Sequence::from(fixed),
            Sequence::from(sink),
            Arcs::from(arcs),
        )
    }

    /// The same of the lists that stand in the fields: arcs may be in few bits.
    pub fn with_arcs(fixed: Sequence<bool>, sink: Sequence<u64>, arcs: Arcs) -> Net
        requires { IsValidNet fixed sink arcs }
        ensures fixed { result.fixed ≡ fixed }
        ensures sink { result.sink ≡ sink }
        ensures arcs { result.arcs ≡ arcs }
    {
        Net { fixed, sink, arcs }
    }

    /// The network of these parts, or None where they make no valid one by [`Net::is_valid`].
    pub fn try_new(fixed: Vec<bool>, sink: Vec<u64>, arcs: Vec<Arc>) -> Option<Net>
        ensures valid { IsSome result ↔ IsValidNet fixed.items sink.items arcs.items }
        ensures fixed { IfSome result (λ net. net.fixed ≡ fixed.items) }
        ensures sink { IfSome result (λ net. net.sink ≡ sink.items) }
        ensures arcs { IfSome result (λ net. net.arcs ≡ arcs.items) }
    {
        if !Net::is_valid(&fixed, &sink, &arcs) {
            return None;
        }
        Some(Net::new(fixed, sink, arcs))
    }
}
