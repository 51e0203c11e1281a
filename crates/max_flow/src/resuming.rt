//! Resumes from a valid flow, and returns a maximum flow by which no less flows into any sink. Depends on hints and on their
//! validation and completion in `solving`.
//!
//! If no sink has residual capacity, the flow is maximal already. Else a hint resumes from what an earlier one left; if there
//! is nothing, or its hint fails the validation, a new hint first fills the sinks to their previous amounts.

ghost use Rattle.std.specs.Prelude.{◌≡◌, ◌≤◌, length, true, IfOk, IfSome, OnOk};
ghost use Rattle.flow_net.specs.NumberedFlows.{IsValidFlow, IsLargest, IsLeastInside, value_of, cost_of};
ghost use Rattle.max_flow.specs.Paths.{KeepsSinks};

use crate::NoMemory;
use crate::paths::has_room;
use crate::solving::{finish, least_inside, shown_by, shown_inside};
use crate::validity::is_valid_flow;
use flow_net::{Flow, FlowHints, FlowNetwork, Hint, Labels, Sequence};
use std::alloc::Global;
use watch::Silent;

/// Returns a copy of the amounts of a flow.
fn copied(alloc: Global, flow: &Flow) -> Result<Flow, NoMemory>
    ensures { IfOk result (λ copy. copy ≡ flow.now) }
{
    Ok(Flow {
        on_arc: Sequence::from(Vec::from_slice(alloc, flow.on_arc.as_slice())?),
        on_sink: Sequence::from(Vec::from_slice(alloc, flow.on_sink.as_slice())?),
    })
}

/// Returns whether any sink has residual capacity.
fn any_has_room<N: FlowNetwork>(net: &N, flow: &Flow) -> bool
    requires { IsValidFlow (N.numbered net.now) flow.now }
{
    for node in 0..net.node_count() {
        if has_room(net, flow, node) {
            return true;
        }
    }
    false
}

/// Returns whether no less flows into any sink by one flow than by another.
fn keeps_sinks(before: &Flow, after: &Flow) -> bool
    requires { length before.now.on_sink ≡ length after.now.on_sink }
    ensures { result ≡ true → KeepsSinks before.now after.now }
{
    let before = before.on_sink.as_slice();
    let after = after.on_sink.as_slice();
    for node in 0..before.len() {
        if after[node] < before[node] {
            return false;
        }
    }
    true
}

/// Returns the flow of a hint, and the minimum cut with the smallest inside if the flow is known to be maximal, or `None` if it
/// is not valid, or less flows into a sink than by a valid flow. Else what it leaves is kept.
fn tested<N: FlowNetwork, K: Drop>(
    alloc: Global,
    net: &N,
    flow: &Flow,
    found: Option<(Hint, K)>,
    kept: &mut Option<K>,
) -> Result<Option<(Flow, Option<Labels>)>, NoMemory>
    requires { IsValidFlow (N.numbered net.now) flow.now }
    ensures valid { IfOk result (λ found. IfSome found (λ more. IsValidFlow (N.numbered net.now) more.0)) }
    ensures sinks { IfOk result (λ found. IfSome found (λ more. KeepsSinks flow.now more.0)) }
    ensures least { IfOk result (λ found. IfSome found (λ more. IfSome more.1 (λ labels. IsLeastInside (N.numbered net.now) labels))) }
    ensures cost { IfOk result (λ found. IfSome found (λ more. IfSome more.1 (λ labels. cost_of (N.numbered net.now) labels ≡ value_of (N.numbered net.now) more.0))) }
{
    let Some((Hint { flow: more, levels }, left)) = found else {
        return Ok(None);
    };
    if !is_valid_flow(alloc, net, &more)? || !keeps_sinks(flow, &more) {
        return Ok(None);
    }
    let labels = shown_by(alloc, net, &more, levels)?;
    *kept = Some(left);
    Ok(Some((more, labels)))
}

/// Returns a valid flow by which no less flows into any sink than by another, and the minimum cut with the smallest inside if
/// the flow is known to be maximal: that of a hint, or the same flow if no hint passes the validation.
fn more_above<N: FlowNetwork, W: FlowHints>(
    alloc: Global,
    net: &N,
    flow: &Flow,
    kept: &mut Option<W::Kept>,
    watch: &mut W,
) -> Result<(Flow, Option<Labels>), NoMemory>
    requires { IsValidFlow (N.numbered net.now) flow.now }
    ensures valid { IfOk result (λ more. IsValidFlow (N.numbered net.now) more.0) }
    ensures sinks { IfOk result (λ more. KeepsSinks flow.now more.0) }
    ensures least { IfOk result (λ more. IfSome more.1 (λ labels. IsLeastInside (N.numbered net.now) labels)) }
    ensures cost { IfOk result (λ more. IfSome more.1 (λ labels. cost_of (N.numbered net.now) labels ≡ value_of (N.numbered net.now) more.0)) }
{
    if let Some(left) = kept.take() {
        let found = watch.resume(alloc, net, left)?;
        if let Some(more) = tested(alloc, net, flow, found, kept)? {
            return Ok(more);
        }
    }
    let found = watch.find_above(alloc, net, flow.on_sink.as_slice())?;
    if let Some(more) = tested(alloc, net, flow, found, kept)? {
        return Ok(more);
    }
    Ok((copied(alloc, flow)?, None))
}

/// Returns a maximum flow by which no less flows into any sink than by a valid one, and the minimum cut with the smallest
/// inside, whose cost is its value: flow that has reached a sink stays there, and only more is sent.
///
/// It takes hints from a callback, which resume from what the hint of an earlier call left, of this one or of
/// `minimum_cut_and_preflow`, and leave their own. That affects only the time: it takes longer if there is nothing, for example after
/// out of memory, or that of another network.
#[tactic(auto, using(crate::proofs::Cuts::shown_largest))]
pub fn minimum_cut_above<N: FlowNetwork, W: FlowHints>(
    alloc: Global,
    net: &N,
    flow: &Flow,
    kept: &mut Option<W::Kept>,
    watch: &mut W,
) -> Result<(Flow, Labels), NoMemory>
    requires { IsValidFlow (N.numbered net.now) flow.now }
    ensures valid { IfOk result (λ cut. IsValidFlow (N.numbered net.now) cut.0) }
    ensures largest { IfOk result (λ cut. IsLargest (N.numbered net.now) cut.0) }
    ensures sinks { IfOk result (λ cut. KeepsSinks flow.now cut.0) }
    ensures least { IfOk result (λ cut. IsLeastInside (N.numbered net.now) cut.1) }
    ensures cost { IfOk result (λ cut. cost_of (N.numbered net.now) cut.1 ≡ value_of (N.numbered net.now) cut.0) }
{
    if !any_has_room(net, flow) {
        if let Some(labels) = shown_inside(alloc, net, flow)? {
            return Ok((copied(alloc, flow)?, labels));
        }
    }
    let (mut more, found) = more_above(alloc, net, flow, kept, watch)?;
    if let Some(labels) = found {
        return Ok((more, labels));
    }
    finish(alloc, net, &mut more, &mut Silent)?;
    let labels = least_inside(alloc, net, &more)?;
    Ok((more, labels))
}

/// Resumes from a valid flow to a maximum one, which is valid too, so 0 at the sinks of fixed nodes. No less flows into any
/// sink than before: flow that has reached a sink stays there, and only more is sent.
///
/// After `NoMemory` the flow is valid, its value is no smaller than before, and no less flows into any sink.
pub fn resume<N: FlowNetwork>(alloc: Global, net: &N, flow: &mut Flow) -> Result<(), NoMemory>
    requires { IsValidFlow (N.numbered net.now) flow.old }
    ensures largest { OnOk result (IsLargest (N.numbered net.now) flow.new) }
    ensures valid { IsValidFlow (N.numbered net.now) flow.new }
    ensures rises { value_of (N.numbered net.now) flow.old ≤ value_of (N.numbered net.now) flow.new }
    ensures sinks { KeepsSinks flow.old flow.new }
{
    let (more, _labels) = minimum_cut_above(alloc, net, flow, &mut None, &mut Silent)?;
    *flow = more;
    Ok(())
}
