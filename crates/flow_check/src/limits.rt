//! Fixed nodes that are inside, and amounts over their limits. It depends on `flow_net` alone.

ghost use Rattle.std.specs.Prelude.{◌≡◌, length, IfSome, IfNone};
ghost use Rattle.flow_net.specs.Firsts.{IsFirst, NoneBelow};
ghost use Rattle.flow_check.specs.Verdicts.{IsFixedInside, IsOverCapacity, IsOverSink, sink_limit};

use flow_net::{Flow, Labels, Net};

/// The first fixed node that is inside, if there is one.
pub fn fixed_inside(net: &Net, labels: &Labels) -> Option<usize>
    requires { length labels.now.inside ≡ length net.now.fixed }
    ensures first { IfSome result (IsFirst (length net.now.fixed) (IsFixedInside net.now labels.now)) }
    ensures none { IfNone result (NoneBelow (length net.now.fixed) (IsFixedInside net.now labels.now)) }
{
    let fixed = net.fixed.as_slice();
    let inside = labels.inside.as_slice();
    for node in 0..fixed.len() {
        if fixed[node] && inside[node] {
            return Some(node);
        }
    }
    None
}

/// The first arc on which more flows than its capacity, if there is one.
pub fn over_capacity(net: &Net, flow: &Flow) -> Option<usize>
    requires { length flow.now.on_arc ≡ length net.now.arcs }
    ensures first { IfSome result (IsFirst (length net.now.arcs) (IsOverCapacity net.now flow.now)) }
    ensures none { IfNone result (NoneBelow (length net.now.arcs) (IsOverCapacity net.now flow.now)) }
{
    let amounts = flow.on_arc.as_slice();
    for place in 0..net.arcs.len() {
        if amounts[place] > net.arcs.at(place).cap {
            return Some(place);
        }
    }
    None
}

/// The most that may leave at a node's sink: nothing where the node is fixed.
pub fn limit_at(net: &Net, node: usize) -> u64
    ensures { result ≡ sink_limit net.now node }
{
    match (
        net.fixed.as_slice().get(node),
        net.sink.as_slice().get(node),
    ) {
        (Some(false), Some(sink)) => *sink,
        _ => 0,
    }
}

/// The first node at whose sink more leaves than may, if there is one.
pub fn over_sink(net: &Net, flow: &Flow) -> Option<usize>
    requires { length flow.now.on_sink ≡ length net.now.fixed }
    ensures first { IfSome result (IsFirst (length net.now.fixed) (IsOverSink net.now flow.now)) }
    ensures none { IfNone result (NoneBelow (length net.now.fixed) (IsOverSink net.now flow.now)) }
{
    let amounts = flow.on_sink.as_slice();
    for node in 0..amounts.len() {
        if amounts[node] > limit_at(net, node) {
            return Some(node);
        }
    }
    None
}
