//! A maximum flow from a validated hint and by rounds, and the minimum cut with the smallest inside. Depends on the search, on
//! augmenting paths, on phases and on the validation of levels.

ghost use Rattle.std.specs.Prelude.{◌≡◌, ◌<◌, ◌≤◌, length, true, false, ℕ, IfOk, IfSome, IfNone, OnOk, OnErr};
ghost use Rattle.flow_net.specs.Nets.{flag_at};
ghost use Rattle.flow_net.specs.NumberedFlows.{IsValidFlow, IsLargest, IsLeastInside, value_of, cost_of};
ghost use Rattle.max_flow.specs.Paths.{IsAugmenting, KeepsSinks, end_of};
ghost use Rattle.max_flow.specs.Incidence.{AreChains};
ghost use Rattle.max_flow.specs.Searches.{IsComplete};

use crate::NoMemory;
use crate::incidence::Incidence;
use crate::levels::are_levels;
use crate::paths::{augment, bottleneck};
use crate::phases::Phase;
use crate::residual::ResidualArc;
use crate::searches::{Search, search_back};
use crate::spread::find_levels;
use crate::validity::is_valid_flow;
use flow_net::{Flow, FlowHints, FlowNetwork, Hint, Labels, Levels, Sequence};
use std::alloc::Global;
use watch::{Silent, Stage, Watch};

/// An augmenting path, and the node at its end.
#[derive(Debug, Drop)]
pub struct Augmenting {
    pub path: Vec<ResidualArc>,
    pub end: usize,
}

/// Returns a fixed node from which a sink with residual capacity can be reached, if there is one.
pub fn found_fixed<N: FlowNetwork>(net: &N, marked: &[bool]) -> Option<usize>
    requires { length marked.now ≡ (N.numbered net.now).node_count }
    ensures node { IfSome result (λ v. v < (N.numbered net.now).node_count) }
    ensures fixed { IfSome result (λ v. (N.numbered net.now).is_fixed v ≡ true) }
    ensures found { IfSome result (λ v. flag_at marked.now v ≡ true) }
    ensures none { IfNone result ((v : ℕ) → v < (N.numbered net.now).node_count → (N.numbered net.now).is_fixed v ≡ true → flag_at marked.now v ≡ false) }
{
    for node in 0..net.node_count() {
        if net.is_fixed(node) && marked[node] {
            return Some(node);
        }
    }
    None
}

/// Returns the path from a found fixed node to a sink with residual capacity.
pub fn path_from<N: FlowNetwork>(
    alloc: Global,
    net: &N,
    flow: &Flow,
    search: &Search,
    start: usize,
) -> Result<Augmenting, NoMemory>
    requires complete { IsComplete (N.numbered net.now) flow.now search.now }
    requires node { start < (N.numbered net.now).node_count }
    requires fixed { (N.numbered net.now).is_fixed start ≡ true }
    requires found { flag_at search.now.marked.items start ≡ true }
    ensures path { IfOk result (λ found. IsAugmenting (N.numbered net.now) flow.now start found.path.items 1) }
    ensures end { IfOk result (λ found. end_of (N.numbered net.now) start found.path.items ≡ found.end) }
{
    let mut path = Vec::with_capacity(alloc, search.level[start] as usize)?;
    let mut node = start;
    while let Some(residual) = search.toward[node] {
        node = residual.head(net);
        path.push(residual)?;
    }
    Ok(Augmenting { path, end: node })
}

/// Does one round: increases the value of a flow and returns true, or returns false if no flow has a larger one.
///
/// After `NoMemory` the flow is unchanged.
fn improve<N: FlowNetwork>(
    alloc: Global,
    net: &N,
    incidence: &Incidence,
    flow: &mut Flow,
) -> Result<bool, NoMemory>
    requires valid { IsValidFlow (N.numbered net.now) flow.old }
    requires forward { AreChains (N.numbered net.now) true incidence.now.forward }
    requires backward { AreChains (N.numbered net.now) false incidence.now.backward }
    ensures valid { IfOk result (λ _. IsValidFlow (N.numbered net.now) flow.new) }
    ensures rises { IfOk result (λ more. more ≡ true → value_of (N.numbered net.now) flow.old < value_of (N.numbered net.now) flow.new) }
    ensures largest { IfOk result (λ more. more ≡ false → IsLargest (N.numbered net.now) flow.new) }
    ensures sinks { KeepsSinks flow.old flow.new }
    ensures unchanged { OnErr result (flow.new ≡ flow.old) }
{
    let search = search_back(alloc, net, incidence, flow)?;
    let Some(start) = found_fixed(net, &search.marked) else {
        return Ok(false);
    };
    let mut phase = Phase::new(alloc, net, incidence)?;
    let found = path_from(alloc, net, flow, &search, start)?;
    let amount = bottleneck(net, flow, start, &found.path, found.end);
    augment(net, flow, start, &found.path, amount);
    phase.block(net, incidence, &search, flow);
    Ok(true)
}

/// Completes a valid flow to a maximum one by rounds, which are reported to a progress callback. No less flows into any sink
/// than before.
///
/// After `NoMemory` the flow is valid, and its value is no smaller than before.
pub fn finish<N: FlowNetwork, W: Watch>(
    alloc: Global,
    net: &N,
    flow: &mut Flow,
    watch: &mut W,
) -> Result<(), NoMemory>
    requires { IsValidFlow (N.numbered net.now) flow.old }
    ensures largest { OnOk result (IsLargest (N.numbered net.now) flow.new) }
    ensures valid { IsValidFlow (N.numbered net.now) flow.new }
    ensures rises { value_of (N.numbered net.now) flow.old ≤ value_of (N.numbered net.now) flow.new }
    ensures sinks { KeepsSinks flow.old flow.new }
{
    watch.stage(Stage::Rounds, 0);
    let mut round: u64 = 0;
    let incidence = Incidence::new(alloc, net)?;
    while improve(alloc, net, &incidence, flow)? {
        round = round.saturating_add(1);
        watch.done(round);
    }
    Ok(())
}

/// Returns the zero flow.
pub fn zero_flow<N: FlowNetwork>(alloc: Global, net: &N) -> Result<Flow, NoMemory>
    ensures { IfOk result (λ flow. IsValidFlow (N.numbered net.now) flow) }
{
    Ok(Flow {
        on_arc: Sequence::from(vec![in alloc; 0u64; net.arc_count()]?),
        on_sink: Sequence::from(vec![in alloc; 0u64; net.node_count()]?),
    })
}

/// Returns the minimum cut with the smallest inside that levels show for a valid flow, or `None` if they show none. If they
/// show one, the flow is maximal.
pub fn shown_by<N: FlowNetwork>(
    alloc: Global,
    net: &N,
    flow: &Flow,
    levels: Levels,
) -> Result<Option<Labels>, NoMemory>
    requires { IsValidFlow (N.numbered net.now) flow.now }
    ensures least { IfOk result (λ found. IfSome found (λ labels. IsLeastInside (N.numbered net.now) labels)) }
    ensures cost { IfOk result (λ found. IfSome found (λ labels. cost_of (N.numbered net.now) labels ≡ value_of (N.numbered net.now) flow.now)) }
{
    let Levels { is_found, level } = levels;
    let nodes = net.node_count();
    if is_found.len() != nodes || level.len() != nodes {
        return Ok(None);
    }
    if !are_levels(alloc, net, flow, &is_found, &level)? {
        return Ok(None);
    }
    let None = found_fixed(net, &is_found) else {
        return Ok(None);
    };
    Ok(Some(Labels {
        inside: Sequence::from(is_found),
    }))
}

/// Returns a valid initial flow, and the minimum cut with the smallest inside if the flow is known to be maximal: that of a
/// hint, which usually is, or the zero flow if the hint's is not valid.
fn first_flow<N: FlowNetwork>(
    alloc: Global,
    net: &N,
    hint: Option<Hint>,
) -> Result<(Flow, Option<Labels>), NoMemory>
    ensures valid { IfOk result (λ found. IsValidFlow (N.numbered net.now) found.0) }
    ensures least { IfOk result (λ found. IfSome found.1 (λ labels. IsLeastInside (N.numbered net.now) labels)) }
    ensures cost { IfOk result (λ found. IfSome found.1 (λ labels. cost_of (N.numbered net.now) labels ≡ value_of (N.numbered net.now) found.0)) }
{
    if let Some(Hint { flow, levels }) = hint {
        if is_valid_flow(alloc, net, &flow)? {
            let labels = shown_by(alloc, net, &flow, levels)?;
            return Ok((flow, labels));
        }
    }
    Ok((zero_flow(alloc, net)?, None))
}

/// Returns a maximum flow, and the minimum cut with the smallest inside if a hint shows it.
#[tactic(auto, using(crate::proofs::Cuts::shown_largest))]
fn largest_flow<N: FlowNetwork, W: Watch>(
    alloc: Global,
    net: &N,
    hint: Option<Hint>,
    watch: &mut W,
) -> Result<(Flow, Option<Labels>), NoMemory>
    ensures valid { IfOk result (λ found. IsValidFlow (N.numbered net.now) found.0) }
    ensures largest { IfOk result (λ found. IsLargest (N.numbered net.now) found.0) }
    ensures least { IfOk result (λ found. IfSome found.1 (λ labels. IsLeastInside (N.numbered net.now) labels)) }
    ensures cost { IfOk result (λ found. IfSome found.1 (λ labels. cost_of (N.numbered net.now) labels ≡ value_of (N.numbered net.now) found.0)) }
{
    let (mut flow, found) = first_flow(alloc, net, hint)?;
    if let Some(labels) = found {
        return Ok((flow, Some(labels)));
    }
    finish(alloc, net, &mut flow, watch)?;
    Ok((flow, None))
}

/// Returns a maximum flow: it is valid, so 0 at the sinks of fixed nodes, and no valid flow has a larger value.
///
/// It takes no hints, and so longer than [`minimum_cut`] with some.
pub fn solve<N: FlowNetwork>(alloc: Global, net: &N) -> Result<Flow, NoMemory>
    ensures valid { IfOk result (λ flow. IsValidFlow (N.numbered net.now) flow) }
    ensures largest { IfOk result (λ flow. IsLargest (N.numbered net.now) flow) }
{
    let mut flow = zero_flow(alloc, net)?;
    finish(alloc, net, &mut flow, &mut Silent)?;
    Ok(flow)
}

/// Returns the minimum cut with the smallest inside that levels show, or `None` if they show none.
pub fn shown_inside<N: FlowNetwork>(
    alloc: Global,
    net: &N,
    flow: &Flow,
) -> Result<Option<Labels>, NoMemory>
    requires { IsValidFlow (N.numbered net.now) flow.now }
    ensures least { IfOk result (λ found. IfSome found (λ labels. IsLeastInside (N.numbered net.now) labels)) }
    ensures cost { IfOk result (λ found. IfSome found (λ labels. cost_of (N.numbered net.now) labels ≡ value_of (N.numbered net.now) flow.now)) }
{
    match find_levels(alloc, net, flow)? {
        Some(levels) => shown_by(alloc, net, flow, levels),
        None => Ok(None),
    }
}

/// Returns the minimum cut with the smallest inside by a search.
fn searched_inside<N: FlowNetwork>(alloc: Global, net: &N, flow: &Flow) -> Result<Labels, NoMemory>
    requires { IsLargest (N.numbered net.now) flow.now }
    ensures least { IfOk result (λ labels. IsLeastInside (N.numbered net.now) labels) }
    ensures cost { IfOk result (λ labels. cost_of (N.numbered net.now) labels ≡ value_of (N.numbered net.now) flow.now) }
{
    let incidence = Incidence::new(alloc, net)?;
    let search = search_back(alloc, net, &incidence, flow)?;
    let Search { marked, .. } = search;
    Ok(Labels {
        inside: Sequence::from(marked),
    })
}

/// Returns the minimum cut with the smallest inside of a network, given a maximum flow.
///
/// Its cost is the value of the flow. A node is inside if a sink with residual capacity can be reached from it in the residual
/// network, so each minimum cut has it inside.
pub fn least_inside<N: FlowNetwork>(alloc: Global, net: &N, flow: &Flow) -> Result<Labels, NoMemory>
    requires { IsLargest (N.numbered net.now) flow.now }
    ensures least { IfOk result (λ labels. IsLeastInside (N.numbered net.now) labels) }
    ensures cost { IfOk result (λ labels. cost_of (N.numbered net.now) labels ≡ value_of (N.numbered net.now) flow.now) }
{
    if let Some(labels) = shown_inside(alloc, net, flow)? {
        return Ok(labels);
    }
    searched_inside(alloc, net, flow)
}

/// Returns a maximum flow from a hint, and the minimum cut with the smallest inside, whose cost is its value.
fn cut_by<N: FlowNetwork, W: Watch>(
    alloc: Global,
    net: &N,
    hint: Option<Hint>,
    watch: &mut W,
) -> Result<(Flow, Labels), NoMemory>
    ensures valid { IfOk result (λ cut. IsValidFlow (N.numbered net.now) cut.0) }
    ensures largest { IfOk result (λ cut. IsLargest (N.numbered net.now) cut.0) }
    ensures least { IfOk result (λ cut. IsLeastInside (N.numbered net.now) cut.1) }
    ensures cost { IfOk result (λ cut. cost_of (N.numbered net.now) cut.1 ≡ value_of (N.numbered net.now) cut.0) }
{
    let (flow, found) = largest_flow(alloc, net, hint, watch)?;
    if let Some(labels) = found {
        return Ok((flow, labels));
    }
    let labels = least_inside(alloc, net, &flow)?;
    Ok((flow, labels))
}

/// Returns a maximum flow, and the minimum cut with the smallest inside, whose cost is its value. It takes less time than
/// `solve` and `least_inside` one after the other.
///
/// Takes hints from a progress callback, and reports to it the stage and, if rounds have to follow, the stage of rounds and their
/// number.
pub fn minimum_cut<N: FlowNetwork, W: FlowHints>(
    alloc: Global,
    net: &N,
    watch: &mut W,
) -> Result<(Flow, Labels), NoMemory>
    ensures valid { IfOk result (λ cut. IsValidFlow (N.numbered net.now) cut.0) }
    ensures largest { IfOk result (λ cut. IsLargest (N.numbered net.now) cut.0) }
    ensures least { IfOk result (λ cut. IsLeastInside (N.numbered net.now) cut.1) }
    ensures cost { IfOk result (λ cut. cost_of (N.numbered net.now) cut.1 ≡ value_of (N.numbered net.now) cut.0) }
{
    watch.stage(Stage::Flow, 0);
    let hint = watch.find(alloc, net)?;
    cut_by(alloc, net, hint, watch)
}

/// Returns the result of `minimum_cut`, and what its hint leaves, if there is one, from which `minimum_cut_above` can resume.
/// Reports progress as `minimum_cut` does.
pub fn minimum_cut_and_preflow<N: FlowNetwork, W: FlowHints>(
    alloc: Global,
    net: &N,
    watch: &mut W,
) -> Result<(Flow, Labels, Option<W::Kept>), NoMemory>
    ensures valid { IfOk result (λ cut. IsValidFlow (N.numbered net.now) cut.0) }
    ensures largest { IfOk result (λ cut. IsLargest (N.numbered net.now) cut.0) }
    ensures least { IfOk result (λ cut. IsLeastInside (N.numbered net.now) cut.1) }
    ensures cost { IfOk result (λ cut. cost_of (N.numbered net.now) cut.1 ≡ value_of (N.numbered net.now) cut.0) }
{
    watch.stage(Stage::Flow, 0);
    let (hint, kept) = match watch.find_above(alloc, net, &[])? {
        Some((hint, kept)) => (Some(hint), Some(kept)),
        None => (None, None),
    };
    let (flow, labels) = cut_by(alloc, net, hint, watch)?;
    Ok((flow, labels, kept))
}
