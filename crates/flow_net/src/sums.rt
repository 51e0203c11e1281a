//! The cost of labels and the value of a flow. It depends on the types at the head of the crate and on networks by numbers.
//!
//! A list has fewer than 2^64 elements, a capacity or a sink is at most 2^60, and an amount is below 2^64. So a cost is
//! at most 2^125 and a value below 2^128, and neither sum wraps.

ghost use Rattle.std.specs.Prelude.{◌≡◌, ◌≤◌, ◌*◌, ◌^◌, length};
ghost use Rattle.flow_net.specs.NumberedFlows.{cost_of, value_of, arc_cost, node_cost};
ghost use Rattle.flow_net.specs.Sums.{sum_below};

use crate::{Flow, FlowNetwork, Labels};

/// The capacities of the arcs from outside to inside.
#[tactic(auto, using(crate::proofs::SumLemmas::sum_below_more))]
fn cut_capacity<N: FlowNetwork>(net: &N, labels: &Labels) -> u128
    requires { length labels.now.inside ≡ (N.numbered net.now).node_count }
    ensures sum { result ≡ sum_below (N.numbered net.now).arc_count (arc_cost (N.numbered net.now) labels.now.inside) }
    ensures fits { result ≤ 2 ^ 124 }
{
    let inside = labels.inside.as_slice();
    let mut total: u128 = 0;
    for arc in 0..net.arc_count() {
        if !inside[net.tail(arc)] && inside[net.head(arc)] {
            total += u128::from(net.capacity(arc));
        }
    }
    total
}

/// The sinks of the outside nodes.
#[tactic(auto, using(crate::proofs::SumLemmas::sum_below_more))]
fn outside_sinks<N: FlowNetwork>(net: &N, labels: &Labels) -> u128
    requires { length labels.now.inside ≡ (N.numbered net.now).node_count }
    ensures sum { result ≡ sum_below (N.numbered net.now).node_count (node_cost (N.numbered net.now) labels.now.inside) }
    ensures fits { result ≤ 2 ^ 124 }
{
    let inside = labels.inside.as_slice();
    let mut total: u128 = 0;
    for node in 0..net.node_count() {
        if !inside[node] {
            total += u128::from(net.sink(node));
        }
    }
    total
}

/// The cost of labels: the capacities of the arcs from outside to inside and the sinks of the outside nodes.
///
/// There is one label a node.
pub fn cost<N: FlowNetwork>(net: &N, labels: &Labels) -> u128
    requires { length labels.now.inside ≡ (N.numbered net.now).node_count }
    ensures sum { result ≡ cost_of (N.numbered net.now) labels.now }
    ensures fits { result ≤ 2 ^ 125 }
{
    cut_capacity(net, labels) + outside_sinks(net, labels)
}

/// The value of a flow: the amounts at the sinks of the free nodes and the sinks of the fixed nodes.
///
/// There is one amount a sink.
#[tactic(auto, using(crate::proofs::SumLemmas::sum_below_more))]
pub fn value<N: FlowNetwork>(net: &N, flow: &Flow) -> u128
    requires { length flow.now.on_sink ≡ (N.numbered net.now).node_count }
    ensures sum { result ≡ value_of (N.numbered net.now) flow.now }
    ensures fits { result ≤ (N.numbered net.now).node_count * 2 ^ 64 }
{
    let sent = flow.on_sink.as_slice();
    let mut total: u128 = 0;
    for node in 0..net.node_count() {
        let amount = if net.is_fixed(node) {
            net.sink(node)
        } else {
            sent[node]
        };
        total += u128::from(amount);
    }
    total
}
