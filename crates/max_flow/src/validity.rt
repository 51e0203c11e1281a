//! The test of a flow. It depends on totals and excesses.

ghost use Rattle.std.specs.Prelude.{◌≡◌, ◌↔◌, length, IfOk, IsTrue};
ghost use Rattle.flow_net.specs.NumberedFlows.{IsValidFlow};
ghost use Rattle.max_flow.specs.Totals.{AreTotals, AreExcesses};
ghost use Rattle.max_flow.specs.Limits.{AreWithinCapacities, AreWithinSinks, AreBalanced};

use crate::NoMemory;
use crate::balance::{EVEN, Totals, add_up, excesses};
use flow_net::{Flow, FlowNetwork};
use std::alloc::Global;

/// Whether no more flows on each arc than its capacity.
fn are_within_arcs<N: FlowNetwork>(net: &N, flow: &Flow) -> bool
    requires { length flow.now.on_arc ≡ (N.numbered net.now).arc_count }
    ensures { IsTrue result ↔ AreWithinCapacities (N.numbered net.now) flow.now }
{
    for (arc, amount) in flow.on_arc.as_slice().iter().enumerate() {
        if *amount > net.capacity(arc) {
            return false;
        }
    }
    true
}

/// Whether no more leaves at each sink than it takes, and nothing at fixed nodes.
fn are_within_sinks<N: FlowNetwork>(net: &N, flow: &Flow) -> bool
    requires { length flow.now.on_sink ≡ (N.numbered net.now).node_count }
    ensures { IsTrue result ↔ AreWithinSinks (N.numbered net.now) flow.now }
{
    for (node, amount) in flow.on_sink.as_slice().iter().enumerate() {
        if *amount > net.sink(node) || (net.is_fixed(node) && *amount > 0) {
            return false;
        }
    }
    true
}

/// Whether as much leaves each free node as enters it.
fn are_balanced<N: FlowNetwork>(net: &N, flow: &Flow, totals: &Totals) -> bool
    requires nodes { length flow.now.on_sink ≡ (N.numbered net.now).node_count }
    requires totals { AreTotals (N.numbered net.now) flow.now totals.now }
    ensures { IsTrue result ↔ AreBalanced (N.numbered net.now) flow.now }
{
    for (node, amount) in flow.on_sink.as_slice().iter().enumerate() {
        let leaving = totals.leaving[node] + u128::from(*amount);
        if !net.is_fixed(node) && totals.entering[node] != leaving {
            return false;
        }
    }
    true
}

/// Whether as much leaves each free node as enters it, by these excesses.
fn are_even<N: FlowNetwork>(net: &N, flow: &Flow, sums: &[u64]) -> bool
    requires nodes { length flow.now.on_sink ≡ (N.numbered net.now).node_count }
    requires sums { AreExcesses (N.numbered net.now) flow.now sums.now }
    ensures { IsTrue result ↔ AreBalanced (N.numbered net.now) flow.now }
{
    for (node, amount) in flow.on_sink.as_slice().iter().enumerate() {
        let sum = sums[node];
        let is_even = sum >= EVEN && sum - EVEN == *amount;
        if !is_even && !net.is_fixed(node) {
            return false;
        }
    }
    true
}

/// Whether as much leaves each free node, over arcs and at its sink, as enters it.
///
/// It takes time linear in the network, and memory for a number of 64 bits a node, or for two of 128 bits if the amounts on all
/// arcs together exceed 2^62.
pub fn is_balanced<N: FlowNetwork>(alloc: Global, net: &N, flow: &Flow) -> Result<bool, NoMemory>
    requires arcs { length flow.now.on_arc ≡ (N.numbered net.now).arc_count }
    requires nodes { length flow.now.on_sink ≡ (N.numbered net.now).node_count }
    ensures { IfOk result (λ answer. IsTrue answer ↔ AreBalanced (N.numbered net.now) flow.now) }
{
    if let Some(sums) = excesses(alloc, net, flow)? {
        return Ok(are_even(net, flow, &sums));
    }
    let totals = add_up(alloc, net, flow)?;
    Ok(are_balanced(net, flow, &totals))
}

/// Whether the amounts are a valid flow of the network: one an arc and one a node, none over a capacity or a sink, none at
/// the sink of a fixed node, and as much enters each free node as leaves it.
///
/// It takes time linear in the network, and memory as [`is_balanced`] does.
pub fn is_valid_flow<N: FlowNetwork>(alloc: Global, net: &N, flow: &Flow) -> Result<bool, NoMemory>
    ensures { IfOk result (λ answer. IsTrue answer ↔ IsValidFlow (N.numbered net.now) flow.now) }
{
    if flow.on_arc.as_slice().len() != net.arc_count()
        || flow.on_sink.as_slice().len() != net.node_count()
    {
        return Ok(false);
    }
    if !are_within_arcs(net, flow) || !are_within_sinks(net, flow) {
        return Ok(false);
    }
    is_balanced(alloc, net, flow)
}
