//! Validates levels: whether the nodes with a level are those from which a sink with residual capacity can be reached. Depends
//! on residual arcs.
//!
//! It examines each arc once and in order, so it takes no linked lists.

ghost use Rattle.std.specs.Prelude.{◌≡◌, ◌≤◌, ◌<◌, ◌^◌, length, true, false, IfOk, IfSome};
ghost use Rattle.flow_net.specs.Nets.{flag_at};
ghost use Rattle.flow_net.specs.NumberedFlows.{IsValidFlow};
ghost use Rattle.max_flow.specs.Residual.{head_of, room_of};
ghost use Rattle.max_flow.specs.Paths.{HasRoom};
ghost use Rattle.max_flow.specs.Levels.{IsOnward, AreLeading, IsClosedArc, IsClosedBelow, AreLevels};

use crate::NoMemory;
use crate::paths::has_room;
use crate::residual::ResidualArc;
use flow_net::{Flow, FlowNetwork};
use std::alloc::Global;

/// Returns whether a residual arc has residual capacity and enters a found node.
fn can_lead<N: FlowNetwork>(net: &N, flow: &Flow, marked: &[bool], residual: ResidualArc) -> bool
    requires valid { IsValidFlow (N.numbered net.now) flow.now }
    requires marked { length marked.now ≡ (N.numbered net.now).node_count }
    requires arc { residual.arc < (N.numbered net.now).arc_count }
    ensures goes { result ≡ true → flag_at marked.now (head_of (N.numbered net.now) residual) ≡ true }
    ensures room { result ≡ true → 1 ≤ room_of (N.numbered net.now) flow.now residual }
    ensures others { result ≡ false → flag_at marked.now (head_of (N.numbered net.now) residual) ≡ true → room_of (N.numbered net.now) flow.now residual ≡ 0 }
{
    marked[residual.head(net)] && residual.room(net, flow) > 0
}

/// Examines a residual arc: returns false if it has residual capacity and leads from a node that is not found to one that is.
/// If it leads from a found node to one of a lower level, this is recorded.
fn look<N: FlowNetwork>(
    net: &N,
    flow: &Flow,
    marked: &[bool],
    level: &[u32],
    residual: ResidualArc,
    leads: &mut Vec<bool>,
) -> bool
    requires valid { IsValidFlow (N.numbered net.now) flow.now }
    requires marked { length marked.now ≡ (N.numbered net.now).node_count }
    requires levels { length level.now ≡ (N.numbered net.now).node_count }
    requires arc { residual.arc < (N.numbered net.now).arc_count }
    requires leads { AreLeading (N.numbered net.now) flow.now marked.now level.now leads.old.items }
    ensures leads { AreLeading (N.numbered net.now) flow.now marked.now level.now leads.new.items }
    ensures closed { result ≡ true → IsClosedArc (N.numbered net.now) flow.now marked.now residual }
{
    if !can_lead(net, flow, marked, residual) {
        return true;
    }
    let tail = residual.tail(net);
    if !marked[tail] {
        return false;
    }
    if level[residual.head(net)] < level[tail] {
        leads[tail] = true;
    }
    true
}

/// Examines the residual arcs of all arcs. Returns from which nodes one leads to a found node of a lower level, or `None` if
/// one with residual capacity leads from a node that is not found to one that is.
fn look_at_all<N: FlowNetwork>(
    alloc: Global,
    net: &N,
    flow: &Flow,
    marked: &[bool],
    level: &[u32],
) -> Result<Option<Vec<bool>>, NoMemory>
    requires valid { IsValidFlow (N.numbered net.now) flow.now }
    requires marked { length marked.now ≡ (N.numbered net.now).node_count }
    requires levels { length level.now ≡ (N.numbered net.now).node_count }
    requires few { (N.numbered net.now).arc_count < 2 ^ 32 }
    ensures leads { IfOk result (λ found. IfSome found (λ leads. AreLeading (N.numbered net.now) flow.now marked.now level.now leads.items)) }
    ensures closed { IfOk result (λ found. IfSome found (λ _. IsClosedBelow (N.numbered net.now) flow.now marked.now (N.numbered net.now).arc_count)) }
{
    let mut leads = vec![in alloc; false; net.node_count()]?;
    for number in 0..net.arc_count() {
        let arc = number as u32;
        let way = ResidualArc { arc, forward: true };
        let back = ResidualArc {
            arc,
            forward: false,
        };
        if !look(net, flow, marked, level, way, &mut leads)
            || !look(net, flow, marked, level, back, &mut leads)
        {
            return Ok(None);
        }
    }
    Ok(Some(leads))
}

/// Returns whether a node is found if its sink has residual capacity, and else only if some arc leads on from it.
fn is_onward<N: FlowNetwork>(
    net: &N,
    flow: &Flow,
    marked: &[bool],
    level: &[u32],
    leads: &[bool],
    node: usize,
) -> bool
    requires valid { IsValidFlow (N.numbered net.now) flow.now }
    requires marked { length marked.now ≡ (N.numbered net.now).node_count }
    requires leads { AreLeading (N.numbered net.now) flow.now marked.now level.now leads.now }
    requires node { node < (N.numbered net.now).node_count }
    ensures ends { result ≡ true → HasRoom (N.numbered net.now) flow.now node → flag_at marked.now node ≡ true }
    ensures onward { result ≡ true → flag_at marked.now node ≡ true → IsOnward (N.numbered net.now) flow.now marked.now level.now node }
{
    if has_room(net, flow, node) {
        return marked[node];
    }
    !marked[node] || leads[node]
}

/// Returns whether the found nodes with their levels are those from which a sink with residual capacity can be reached.
pub fn are_levels<N: FlowNetwork>(
    alloc: Global,
    net: &N,
    flow: &Flow,
    marked: &[bool],
    level: &[u32],
) -> Result<bool, NoMemory>
    requires valid { IsValidFlow (N.numbered net.now) flow.now }
    requires marked { length marked.now ≡ (N.numbered net.now).node_count }
    requires levels { length level.now ≡ (N.numbered net.now).node_count }
    ensures { IfOk result (λ answer. answer ≡ true → AreLevels (N.numbered net.now) flow.now marked.now level.now) }
{
    if net.arc_count() > u32::MAX as usize {
        return Ok(false);
    }
    let Some(leads) = look_at_all(alloc, net, flow, marked, level)? else {
        return Ok(false);
    };
    for node in 0..net.node_count() {
        if !is_onward(net, flow, marked, level, &leads, node) {
            return Ok(false);
        }
    }
    Ok(true)
}
