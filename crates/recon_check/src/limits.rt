//! Rows that state too much, by the numbers of the cells and sides that they name. It depends on networks by numbers.

ghost use Rattle.std.specs.Prelude.{◌≡◌, ◌<◌, ◌≤◌, ℕ, EachIndex, IfSome, IfNone, length, slice_index};
ghost use Rattle.std.specs.Bool.{OnTrue};
ghost use Rattle.flow_net.specs.Firsts.{IsFirst, NoneBelow};
ghost use Rattle.flow_net.specs.Faults.{sink_limit};
ghost use Rattle.flow_net.specs.Numbered.{network_by};
ghost use Rattle.max_flow.specs.Limits.{AreWithinCapacities};
ghost use Rattle.recon_check.specs.ByRows.{IsFixedAt, IsOverAt, IsOverSinkAt, IsOutsideAt};

use flow_net::{Flow, FlowNetwork, Labels};

/// Finds the index of the first of these nodes that is fixed.
pub fn first_fixed<N: FlowNetwork>(net: &N, nodes: &[usize]) -> Option<usize>
    requires { EachIndex nodes.now (λ k. slice_index nodes.now k < (N.numbered net.now).node_count) }
    ensures first { IfSome result (IsFirst (length nodes.now) (IsFixedAt (N.numbered net.now) nodes.now)) }
    ensures none { IfNone result (NoneBelow (length nodes.now) (IsFixedAt (N.numbered net.now) nodes.now)) }
{
    for place in 0..nodes.len() {
        if net.is_fixed(nodes[place]) {
            return Some(place);
        }
    }
    None
}

/// Whether no arc has more flow than its capacity. It takes arcs in their order, which suits the cache.
fn are_within_arcs<N: FlowNetwork>(net: &N, flow: &Flow) -> bool
    requires { length flow.now.on_arc ≡ (N.numbered net.now).arc_count }
    ensures { OnTrue result (AreWithinCapacities (N.numbered net.now) flow.now) }
{
    for (arc, amount) in flow.on_arc.as_slice().iter().enumerate() {
        if *amount > 0 && *amount > net.capacity(arc) {
            return false;
        }
    }
    true
}

/// Finds the index of the first of these arcs whose flow exceeds its capacity.
pub fn first_over<N: FlowNetwork>(net: &N, arcs: &[usize], flow: &Flow) -> Option<usize>
    requires arcs { EachIndex arcs.now (λ k. slice_index arcs.now k < (N.numbered net.now).arc_count) }
    requires amounts { length flow.now.on_arc ≡ (N.numbered net.now).arc_count }
    ensures first { IfSome result (IsFirst (length arcs.now) (IsOverAt (N.numbered net.now) arcs.now flow.now.on_arc)) }
    ensures none { IfNone result (NoneBelow (length arcs.now) (IsOverAt (N.numbered net.now) arcs.now flow.now.on_arc)) }
{
    if are_within_arcs(net, flow) {
        return None;
    }
    let amounts = flow.on_arc.as_slice();
    for place in 0..arcs.len() {
        let arc = arcs[place];
        if amounts[arc] > net.capacity(arc) {
            return Some(place);
        }
    }
    None
}

/// Returns the limit of the flow at a node's sink: its capacity, or 0 if the node is fixed.
pub fn limit_at<N: FlowNetwork>(net: &N, node: usize) -> u64
    requires { node < (N.numbered net.now).node_count }
    ensures { result ≡ sink_limit (network_by (N.numbered net.now)) node }
{
    if net.is_fixed(node) {
        0
    } else {
        net.sink(node)
    }
}

/// Whether no node has more flow at its sink than its limit, as [`are_within_arcs`].
fn are_within_limits<N: FlowNetwork>(net: &N, flow: &Flow) -> bool
    requires { length flow.now.on_sink ≡ (N.numbered net.now).node_count }
    ensures { OnTrue result ((v : ℕ) → v < (N.numbered net.now).node_count → slice_index flow.now.on_sink v ≤ sink_limit (network_by (N.numbered net.now)) v) }
{
    for (node, amount) in flow.on_sink.as_slice().iter().enumerate() {
        if *amount > 0 && *amount > limit_at(net, node) {
            return false;
        }
    }
    true
}

/// Finds the index of the first of these nodes whose flow at the sink exceeds its limit.
pub fn first_over_sink<N: FlowNetwork>(net: &N, nodes: &[usize], flow: &Flow) -> Option<usize>
    requires nodes { EachIndex nodes.now (λ k. slice_index nodes.now k < (N.numbered net.now).node_count) }
    requires amounts { length flow.now.on_sink ≡ (N.numbered net.now).node_count }
    ensures first { IfSome result (IsFirst (length nodes.now) (IsOverSinkAt (N.numbered net.now) nodes.now flow.now.on_sink)) }
    ensures none { IfNone result (NoneBelow (length nodes.now) (IsOverSinkAt (N.numbered net.now) nodes.now flow.now.on_sink)) }
{
    if are_within_limits(net, flow) {
        return None;
    }
    let amounts = flow.on_sink.as_slice();
    for place in 0..nodes.len() {
        let node = nodes[place];
        if amounts[node] > limit_at(net, node) {
            return Some(place);
        }
    }
    None
}

/// Finds the index of the first of these nodes that is outside by these labels.
pub fn first_outside(nodes: &[usize], labels: &Labels) -> Option<usize>
    requires { EachIndex nodes.now (λ k. slice_index nodes.now k < length labels.now.inside) }
    ensures first { IfSome result (IsFirst (length nodes.now) (IsOutsideAt labels.now.inside nodes.now)) }
    ensures none { IfNone result (NoneBelow (length nodes.now) (IsOutsideAt labels.now.inside nodes.now)) }
{
    let inside = labels.inside.as_slice();
    for place in 0..nodes.len() {
        if !inside[nodes[place]] {
            return Some(place);
        }
    }
    None
}
