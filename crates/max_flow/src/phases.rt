//! A phase: augments along paths down the levels of one search, until none is left (Dinic 1970). Depends on the search and on
//! augmenting paths.
//!
//! Each node has a cursor, the residual arc that is tried next from it. The residual capacity of an arc to a lower level only
//! decreases during a phase, so a cursor never goes back.

ghost use Rattle.std.specs.Prelude.{◌≡◌, ◌<◌, ◌≤◌, length, true, IfOk, IfSome};
ghost use Rattle.flow_net.specs.NumberedFlows.{IsValidFlow, value_of};
ghost use Rattle.max_flow.specs.Paths.{IsAugmenting, KeepsSinks, end_of};
ghost use Rattle.max_flow.specs.Phases.{LeadsDown};

use crate::NoMemory;
use crate::incidence::Incidence;
use crate::paths::{augment, bottleneck, has_room};
use crate::residual::ResidualArc;
use crate::searches::Search;
use flow_net::{Flow, FlowNetwork};
use std::alloc::Global;

/// The state of a phase.
#[derive(Debug, Drop)]
pub struct Phase {
    /// For each node the residual arc that is tried next from it, if one is left.
    cursor: Vec<Option<ResidualArc>>,
    /// The last path.
    path: Vec<ResidualArc>,
}

/// Returns a residual arc of one direction.
fn along(arc: Option<u32>, forward: bool) -> Option<ResidualArc> {
    arc.map(|arc| ResidualArc { arc, forward })
}

/// Returns the first residual arc that leaves a node: those in the direction of their arcs come first.
fn first_from(incidence: &Incidence, node: usize) -> Option<ResidualArc> {
    let forward = incidence.backward.last.get(node).copied().flatten();
    if forward.is_some() {
        return along(forward, true);
    }
    along(incidence.forward.last.get(node).copied().flatten(), false)
}

/// Returns the residual arc that leaves a node after this one.
fn next_from(incidence: &Incidence, node: usize, residual: ResidualArc) -> Option<ResidualArc> {
    if !residual.forward {
        return along(
            incidence
                .forward
                .before
                .get(residual.arc as usize)
                .copied()
                .flatten(),
            false,
        );
    }
    let forward = incidence
        .backward
        .before
        .get(residual.arc as usize)
        .copied()
        .flatten();
    if forward.is_some() {
        return along(forward, true);
    }
    along(incidence.forward.last.get(node).copied().flatten(), false)
}

/// Returns whether a residual arc leads from a node to a found node of a lower level, and has residual capacity.
fn leads_down<N: FlowNetwork>(
    net: &N,
    flow: &Flow,
    search: &Search,
    node: usize,
    residual: ResidualArc,
) -> bool
    requires valid { IsValidFlow (N.numbered net.now) flow.now }
    requires levels { length search.now.level.items ≡ (N.numbered net.now).node_count }
    requires marked { length search.now.marked.items ≡ (N.numbered net.now).node_count }
    requires node { node < (N.numbered net.now).node_count }
    ensures { result ≡ true → LeadsDown (N.numbered net.now) flow.now search.now.level.items node residual }
{
    if residual.arc as usize >= net.arc_count() || residual.tail(net) != node {
        return false;
    }
    let head = residual.head(net);
    search.marked[head] && search.level[head] < search.level[node] && residual.room(net, flow) > 0
}

impl Phase {
    /// Returns the initial state of a phase.
    pub fn new<N: FlowNetwork>(
        alloc: Global,
        net: &N,
        incidence: &Incidence,
    ) -> Result<Phase, NoMemory>
        ensures { IfOk result (λ phase. length phase.cursor.items ≡ (N.numbered net.now).node_count) }
    {
        let nodes = net.node_count();
        let mut cursor = vec![in alloc; None; nodes]?;
        for node in 0..nodes {
            cursor[node] = first_from(incidence, node);
        }
        Ok(Phase {
            cursor,
            path: Vec::with_capacity(alloc, nodes)?,
        })
    }

    /// Returns the first residual arc from the cursor of a node on that leads down, and moves the cursor there.
    fn lead<N: FlowNetwork>(
        &mut self,
        net: &N,
        incidence: &Incidence,
        search: &Search,
        flow: &Flow,
        node: usize,
    ) -> Option<ResidualArc>
        requires valid { IsValidFlow (N.numbered net.now) flow.now }
        requires levels { length search.now.level.items ≡ (N.numbered net.now).node_count }
        requires marked { length search.now.marked.items ≡ (N.numbered net.now).node_count }
        requires cursors { length self.old.cursor.items ≡ (N.numbered net.now).node_count }
        requires node { node < (N.numbered net.now).node_count }
        ensures cursors { length self.new.cursor.items ≡ (N.numbered net.now).node_count }
        ensures path { self.new.path ≡ self.old.path }
        ensures leads { IfSome result (λ residual. LeadsDown (N.numbered net.now) flow.now search.now.level.items node residual) }
    {
        for _ in 0..net.arc_count().saturating_mul(2) {
            let Some(residual) = self.cursor[node] else {
                return None;
            };
            if leads_down(net, flow, search, node, residual) {
                return Some(residual);
            }
            self.cursor[node] = next_from(incidence, node, residual);
        }
        None
    }

    /// Walks down from a fixed node. Returns the node at the end of the path if its sink has residual capacity, or `None` if
    /// nothing leads down from there.
    fn walk<N: FlowNetwork>(
        &mut self,
        net: &N,
        incidence: &Incidence,
        search: &Search,
        flow: &Flow,
        start: usize,
    ) -> Option<usize>
        requires valid { IsValidFlow (N.numbered net.now) flow.now }
        requires levels { length search.now.level.items ≡ (N.numbered net.now).node_count }
        requires marked { length search.now.marked.items ≡ (N.numbered net.now).node_count }
        requires cursors { length self.old.cursor.items ≡ (N.numbered net.now).node_count }
        requires node { start < (N.numbered net.now).node_count }
        requires fixed { (N.numbered net.now).is_fixed start ≡ true }
        ensures cursors { length self.new.cursor.items ≡ (N.numbered net.now).node_count }
        ensures path { IfSome result (λ end. IsAugmenting (N.numbered net.now) flow.now start self.new.path.items 1) }
        ensures end { IfSome result (λ end. end_of (N.numbered net.now) start self.new.path.items ≡ end) }
    {
        self.path.clear();
        let mut node = start;
        for _ in 0..net.node_count() {
            if has_room(net, flow, node) {
                return Some(node);
            }
            let Some(residual) = self.lead(net, incidence, search, flow, node) else {
                return None;
            };
            let Ok(()) = self.path.push(residual) else {
                return None;
            };
            node = residual.head(net);
        }
        None
    }

    /// Skips the last residual arc of the path, and returns whether there was one.
    fn pass_over<N: FlowNetwork>(&mut self, net: &N, incidence: &Incidence) -> bool
        requires { length self.old.cursor.items ≡ (N.numbered net.now).node_count }
        ensures { length self.new.cursor.items ≡ (N.numbered net.now).node_count }
    {
        let Some(residual) = self.path.last().copied() else {
            return false;
        };
        if (residual.arc as usize) < net.arc_count() {
            let tail = residual.tail(net);
            self.cursor[tail] = next_from(incidence, tail, residual);
        }
        true
    }

    /// Augments from a fixed node, until nothing leads down from it.
    fn send_from<N: FlowNetwork>(
        &mut self,
        net: &N,
        incidence: &Incidence,
        search: &Search,
        flow: &mut Flow,
        start: usize,
    )
        requires valid { IsValidFlow (N.numbered net.now) flow.old }
        requires levels { length search.now.level.items ≡ (N.numbered net.now).node_count }
        requires marked { length search.now.marked.items ≡ (N.numbered net.now).node_count }
        requires cursors { length self.old.cursor.items ≡ (N.numbered net.now).node_count }
        requires node { start < (N.numbered net.now).node_count }
        requires fixed { (N.numbered net.now).is_fixed start ≡ true }
        ensures cursors { length self.new.cursor.items ≡ (N.numbered net.now).node_count }
        ensures valid { IsValidFlow (N.numbered net.now) flow.new }
        ensures rises { value_of (N.numbered net.now) flow.old ≤ value_of (N.numbered net.now) flow.new }
        ensures sinks { KeepsSinks flow.old flow.new }
    {
        let steps = net.arc_count().saturating_mul(4);
        for _ in 0..steps.saturating_add(net.node_count()) {
            if let Some(end) = self.walk(net, incidence, search, flow, start) {
                let amount = bottleneck(net, flow, start, &self.path, end);
                augment(net, flow, start, &self.path, amount);
            } else if !self.pass_over(net, incidence) {
                return;
            }
        }
    }

    /// Augments from each found fixed node, until no path down the levels is left.
    pub fn block<N: FlowNetwork>(
        &mut self,
        net: &N,
        incidence: &Incidence,
        search: &Search,
        flow: &mut Flow,
    )
        requires valid { IsValidFlow (N.numbered net.now) flow.old }
        requires levels { length search.now.level.items ≡ (N.numbered net.now).node_count }
        requires marked { length search.now.marked.items ≡ (N.numbered net.now).node_count }
        requires cursors { length self.old.cursor.items ≡ (N.numbered net.now).node_count }
        ensures valid { IsValidFlow (N.numbered net.now) flow.new }
        ensures rises { value_of (N.numbered net.now) flow.old ≤ value_of (N.numbered net.now) flow.new }
        ensures sinks { KeepsSinks flow.old flow.new }
    {
        for node in 0..net.node_count() {
            if net.is_fixed(node) && search.marked[node] {
                self.send_from(net, incidence, search, flow, node);
            }
        }
    }
}
