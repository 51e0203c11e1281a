//! The hint. Depends on the forest and the rounds, and on the sweep.

ghost use Rattle.std.specs.Prelude.{◌≡◌, length, IfOk, IfSome};

use crate::NoMemory;
use crate::forest::Forest;
use crate::kept::KeptPreflow;
use crate::preflow::Preflow;
use crate::rounds::Rounds;
use crate::sweep::Sweep;
use flow_net::{FlowNetwork, Hint, Levels};
use std::alloc::Global;
use watch::{Silent, Watch};

/// Returns the amounts after flow has reached sinks, and the levels of the nodes from which a sink could still be reached.
/// Reports the number of nodes to a progress callback.
fn sent<'a, N: FlowNetwork, W: Watch>(
    alloc: Global,
    preflow: Preflow<'a, N>,
    watch: &mut W,
) -> Result<(Preflow<'a, N>, Levels), NoMemory>
    ensures { IfOk result (λ made. made.0.wiring ≡ preflow.entry.wiring) }
{
    if preflow.open_count() == 0 {
        let nodes = preflow.wiring.nodes;
        let levels = Levels {
            is_found: vec![in alloc; false; nodes]?,
            level: vec![in alloc; 0u32; nodes]?,
        };
        return Ok((preflow, levels));
    }
    let mut forest = Forest::new(alloc, preflow)?;
    forest.run(watch);
    let Forest { preflow, .. } = forest;
    let mut rounds = Rounds::new(alloc, preflow)?;
    rounds.run(alloc, watch)?;
    rounds.into_levels(alloc)
}

/// Returns the amounts after sinks have first taken the listed amounts, as far as flow can reach them, and are then opened to
/// their whole size.
fn filled_first<'a, N: FlowNetwork, W: Watch>(
    alloc: Global,
    preflow: Preflow<'a, N>,
    first: &[u64],
    watch: &mut W,
) -> Result<Preflow<'a, N>, NoMemory>
    ensures { IfOk result (λ filled. filled.wiring ≡ preflow.entry.wiring) }
{
    if first.is_empty() {
        return Ok(preflow);
    }
    let (mut preflow, _levels) = sent(alloc, preflow, watch)?;
    preflow.open_sinks(first);
    Ok(preflow)
}

/// Returns the amounts after flow that has reached no sink has gone back.
fn given_back<'a, N: FlowNetwork>(
    alloc: Global,
    preflow: Preflow<'a, N>,
) -> Result<Preflow<'a, N>, NoMemory>
    ensures { IfOk result (λ settled. settled.wiring ≡ preflow.entry.wiring) }
{
    let mut sweep = Sweep::new(alloc, preflow)?;
    sweep.run();
    let Sweep { preflow, .. } = sweep;
    Ok(preflow)
}

/// Returns the amounts after flow has reached sinks, and the levels, or `None` if there is no hint.
///
/// If amounts are listed, sinks first take no more than these, so that usually no less flows into any.
fn sent_from<'a, N: FlowNetwork, W: Watch>(
    alloc: Global,
    net: &'a N,
    first: &[u64],
    watch: &mut W,
) -> Result<Option<(Preflow<'a, N>, Levels)>, NoMemory>
    ensures { IfOk result (λ found. IfSome found (λ made. made.0.wiring.net.now ≡ net.now)) }
{
    let Some(preflow) = Preflow::new(alloc, net, first)? else {
        return Ok(None);
    };
    let preflow = filled_first(alloc, preflow, first, watch)?;
    Ok(Some(sent(alloc, preflow, watch)?))
}

/// Returns the hint after flow that has reached no sink has gone back, or `None` if some of it remains.
fn settled<N: FlowNetwork>(
    alloc: Global,
    preflow: Preflow<'_, N>,
    levels: Levels,
) -> Result<Option<Hint>, NoMemory>
    ensures arcs { IfOk result (λ found. IfSome found (λ hint. length hint.flow.on_arc ≡ (N.numbered preflow.entry.wiring.net.now).arc_count)) }
    ensures sinks { IfOk result (λ found. IfSome found (λ hint. length hint.flow.on_sink ≡ (N.numbered preflow.entry.wiring.net.now).node_count)) }
{
    let mut preflow = preflow;
    preflow.give_beside();
    let preflow = given_back(alloc, preflow)?;
    if !preflow.is_settled() {
        return Ok(None);
    }
    let flow = preflow.into_flow(alloc)?;
    Ok(Some(Hint { flow, levels }))
}

/// Returns that hint, and a copy of the amounts before.
fn settled_and_kept<N: FlowNetwork>(
    alloc: Global,
    preflow: Preflow<'_, N>,
    levels: Levels,
) -> Result<Option<(Hint, KeptPreflow)>, NoMemory>
    ensures arcs { IfOk result (λ found. IfSome found (λ pair. length pair.0.flow.on_arc ≡ (N.numbered preflow.entry.wiring.net.now).arc_count)) }
    ensures sinks { IfOk result (λ found. IfSome found (λ pair. length pair.0.flow.on_sink ≡ (N.numbered preflow.entry.wiring.net.now).node_count)) }
{
    let kept = KeptPreflow::of(alloc, &preflow)?;
    match settled(alloc, preflow, levels)? {
        Some(hint) => Ok(Some((hint, kept))),
        None => Ok(None),
    }
}

/// Returns a hint at a maximum flow, or `None` if there is none: the capacities sum to more than 2^62, or there are no arcs
/// between free nodes, or more arcs than fit in 32 bits, or sending the excess back took too long. Reports to a progress
/// callback from how many nodes amounts were moved on.
///
/// Run time is not specified; on the networks of scans it is about linear in the network. Beside its result it takes 8 bytes an
/// arc, or 12 if capacities are large, 4 more if the arcs of a node are not adjacent in the network, and at most 48 a node.
pub fn find_hint<N: FlowNetwork, W: Watch>(
    alloc: Global,
    net: &N,
    watch: &mut W,
) -> Result<Option<Hint>, NoMemory>
    ensures arcs { IfOk result (λ found. IfSome found (λ hint. length hint.flow.on_arc ≡ (N.numbered net.now).arc_count)) }
    ensures sinks { IfOk result (λ found. IfSome found (λ hint. length hint.flow.on_sink ≡ (N.numbered net.now).node_count)) }
{
    match sent_from(alloc, net, &[], watch)? {
        Some((preflow, levels)) => settled(alloc, preflow, levels),
        None => Ok(None),
    }
}

/// Returns a hint by which usually no less flows into each sink than is listed, if a valid flow achieves this, and the preflow
/// of the hint. Nothing is listed past the end of the list. Reports progress as [`find_hint`] does.
///
/// The preflow takes 4 bytes an arc, or 8 where capacities are large, and 24 a node.
pub fn find_hint_above<N: FlowNetwork, W: Watch>(
    alloc: Global,
    net: &N,
    first: &[u64],
    watch: &mut W,
) -> Result<Option<(Hint, KeptPreflow)>, NoMemory>
    ensures arcs { IfOk result (λ found. IfSome found (λ pair. length pair.0.flow.on_arc ≡ (N.numbered net.now).arc_count)) }
    ensures sinks { IfOk result (λ found. IfSome found (λ pair. length pair.0.flow.on_sink ≡ (N.numbered net.now).node_count)) }
{
    match sent_from(alloc, net, first, watch)? {
        Some((preflow, levels)) => settled_and_kept(alloc, preflow, levels),
        None => Ok(None),
    }
}

/// Returns a hint that resumes from the preflow of an earlier one, and its own preflow.
///
/// Usually it is a flow if the network is the earlier one with larger capacities, increased equally for both arcs of a pair,
/// and no less flows into any sink than by the earlier hint. Returns no hint if the numbers of nodes and arcs differ.
pub fn find_hint_on<N: FlowNetwork>(
    alloc: Global,
    net: &N,
    kept: KeptPreflow,
) -> Result<Option<(Hint, KeptPreflow)>, NoMemory>
    ensures arcs { IfOk result (λ found. IfSome found (λ pair. length pair.0.flow.on_arc ≡ (N.numbered net.now).arc_count)) }
    ensures sinks { IfOk result (λ found. IfSome found (λ pair. length pair.0.flow.on_sink ≡ (N.numbered net.now).node_count)) }
{
    let Some(preflow) = Preflow::on(alloc, net, kept)? else {
        return Ok(None);
    };
    let (preflow, levels) = sent(alloc, preflow, &mut Silent)?;
    settled_and_kept(alloc, preflow, levels)
}
