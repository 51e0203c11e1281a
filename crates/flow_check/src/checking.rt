//! The check of labels and a flow. It depends on the searches for each kind of fault, and on `max_flow`.

ghost use Rattle.std.specs.Prelude.{◌≡◌, ◌↔◌, length, IfOk, IfSome, IfNone};
ghost use Rattle.flow_net.specs.Flows.{IsValidFlow, IsLeastInside, value_of, cost_of};
ghost use Rattle.flow_net.specs.Firsts.{IsFirst, NoneBelow};
ghost use Rattle.flow_check.specs.Verdicts.{IsOptimalPair, IsInsideAlone, IsNotLeast, IsVerdict};

use crate::balance::unbalanced;
use crate::limits::{fixed_inside, limit_at, over_capacity, over_sink};
use crate::{NoMemory, Verdict};
use flow_net::{Flow, Labels, Net, cost, value};
use max_flow::{add_up, least_inside};
use std::alloc::Global;

/// The first node that is inside by these labels and outside by others, if there is one.
fn inside_alone(labels: &Labels, other: &Labels) -> Option<usize>
    requires { length other.now.inside ≡ length labels.now.inside }
    ensures first { IfSome result (IsFirst (length labels.now.inside) (IsInsideAlone labels.now other.now)) }
    ensures none { IfNone result (NoneBelow (length labels.now.inside) (IsInsideAlone labels.now other.now)) }
{
    let inside = labels.inside.as_slice();
    let elsewhere = other.inside.as_slice();
    for node in 0..inside.len() {
        if inside[node] && !elsewhere[node] {
            return Some(node);
        }
    }
    None
}

/// The first node that is inside, and outside by the minimum cut with the smallest inside, if there is one.
fn not_least(
    alloc: Global,
    net: &Net,
    labels: &Labels,
    flow: &Flow,
) -> Result<Option<usize>, NoMemory>
    requires { IsOptimalPair net.now labels.now flow.now }
    ensures first { IfOk result (λ found. IfSome found (IsFirst (length net.now.fixed) (IsNotLeast net.now labels.now))) }
    ensures none { IfOk result (λ found. IfNone found (IsLeastInside net.now labels.now)) }
{
    let least = least_inside(alloc, net, flow)?;
    Ok(inside_alone(labels, &least))
}

/// Whether labels are the minimum cut of a network with the smallest inside and a flow shows it, or else the first fault.
///
/// There is one label and one amount a node, and one amount an arc. The faults are tried in the order of the variants of
/// [`Verdict`], and the first is returned, at its smallest node or arc. `Yes` comes exactly if the flow is valid, its value is
/// the cost of the labels, and these are the minimum cut with the smallest inside. The only error is out of memory.
pub fn check_flow(
    alloc: Global,
    net: &Net,
    labels: &Labels,
    flow: &Flow,
) -> Result<Verdict, NoMemory>
    requires labels { length labels.now.inside ≡ length net.now.fixed }
    requires arcs { length flow.now.on_arc ≡ length net.now.arcs }
    requires sinks { length flow.now.on_sink ≡ length net.now.fixed }
    ensures verdict { IfOk result (IsVerdict net.now labels.now flow.now) }
    ensures only { (verdict : Verdict) → IsVerdict net.now labels.now flow.now verdict → IfOk result (λ answer. answer ≡ verdict) }
    ensures yes { IfOk result (λ verdict. (verdict ≡ Verdict.Yes) ↔ (IsValidFlow net.now flow.now × (value_of net.now flow.now ≡ cost_of net.now labels.now) × IsLeastInside net.now labels.now)) }
{
    if let Some(node) = fixed_inside(net, labels) {
        return Ok(Verdict::FixedInside { node });
    }
    if let Some(arc) = over_capacity(net, flow) {
        return Ok(Verdict::OverCapacity {
            arc,
            flow: flow.on_arc.as_slice()[arc],
            cap: net.arcs.at(arc).cap,
        });
    }
    if let Some(node) = over_sink(net, flow) {
        return Ok(Verdict::OverSink {
            node,
            flow: flow.on_sink.as_slice()[node],
            cap: limit_at(net, node),
        });
    }
    let totals = add_up(alloc, net, flow)?;
    if let Some(found) = unbalanced(net, flow, &totals) {
        return Ok(Verdict::Unbalanced {
            node: found.node,
            amount_in: found.amount_in,
            amount_out: found.amount_out,
        });
    }
    let (value, cost) = (value(net, flow), cost(net, labels));
    if value != cost {
        return Ok(Verdict::NotEqual { value, cost });
    }
    match not_least(alloc, net, labels, flow)? {
        Some(node) => Ok(Verdict::NotLeast { node }),
        None => Ok(Verdict::Yes),
    }
}
