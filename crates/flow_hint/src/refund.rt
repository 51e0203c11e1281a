//! Sends amounts that have reached no sink back to the fixed nodes. Depends on preflows.

ghost use Rattle.std.specs.Prelude.{◌≡◌, ◌<◌, length, IfOk};

use crate::NoMemory;
use crate::amounts::Amounts;
use crate::preflow::Preflow;
use flow_net::{Flow, FlowNetwork, Sequence};
use std::alloc::Global;

impl<'a, N: FlowNetwork> Preflow<'a, N> {
    /// Sends the excess of each node back to the adjacent fixed nodes, as far as it came from there.
    pub fn give_beside(&mut self)
        ensures { self.new.wiring ≡ self.old.wiring }
    {
        for node in 0..self.wiring.nodes {
            let amount = self.excess[node].min(self.source[node]);
            self.excess[node] -= amount;
            self.source[node] -= amount;
        }
    }

    /// Returns whether nothing is left to send back.
    pub fn is_settled(&self) -> bool {
        self.excess.iter().all(|amount| *amount == 0)
    }

    /// Returns the amount that can go back along an arc: the flow on its reverse, which is the residual capacity in excess of
    /// the capacity.
    #[inline]
    pub fn most_back(&self, arc: usize) -> u64
        requires { arc < self.now.wiring.arcs }
    {
        let room = self.rooms.get(arc);
        if room == 0 {
            return 0;
        }
        room.saturating_sub(self.wiring.cap(arc))
    }

    /// Adds an amount to a node, and sends it back to fixed nodes as far as it came from there.
    pub fn return_to(&mut self, node: usize, amount: u64)
        requires { node < self.old.wiring.nodes }
        ensures { self.new.wiring ≡ self.old.wiring }
    {
        let arrived = self.excess[node].saturating_add(amount);
        let goes = arrived.min(self.source[node]);
        self.source[node] -= goes;
        self.excess[node] = arrived - goes;
    }

    /// Returns the amounts as a flow.
    pub fn into_flow(self, alloc: Global) -> Result<Flow, NoMemory>
        ensures arcs { IfOk result (λ flow. length flow.on_arc ≡ (N.numbered self.entry.wiring.net.now).arc_count) }
        ensures sinks { IfOk result (λ flow. length flow.on_sink ≡ (N.numbered self.entry.wiring.net.now).node_count) }
    {
        // The result takes the most memory of all, so the fields that it does not need are freed before.
        let (net, rooms, sink, source) = {
            let Preflow {
                wiring,
                rooms,
                excess: _excess,
                sink,
                source,
                ..
            } = self;
            (wiring.net, rooms, sink, source)
        };
        let on_sink = on_sinks(alloc, net, &sink)?;
        let on_arc = on_arcs(alloc, net, &rooms, source)?;
        Ok(Flow {
            on_arc: Sequence::from(on_arc),
            on_sink: Sequence::from(on_sink),
        })
    }
}

/// Returns the amount on each arc, from its residual capacity. The amount that entered a free node from fixed ones is assigned
/// to the arcs in order.
fn on_arcs<N: FlowNetwork>(
    alloc: Global,
    net: &N,
    rooms: &Amounts,
    source: Vec<u64>,
) -> Result<Vec<u64>, NoMemory>
    requires { length source.items ≡ (N.numbered net.now).node_count }
    ensures { IfOk result (λ amounts. length amounts.items ≡ (N.numbered net.now).arc_count) }
{
    let mut source = source;
    let mut amounts = vec![in alloc; 0u64; net.arc_count()]?;
    for arc in 0..net.arc_count() {
        let capacity = net.capacity(arc);
        if net.is_paired(arc) {
            amounts[arc] = capacity.saturating_sub(rooms.get(arc));
        } else if capacity > 0 {
            let head = net.head(arc);
            amounts[arc] = capacity.min(source[head]);
            source[head] -= amounts[arc];
        }
    }
    Ok(amounts)
}

/// Returns the amount at each sink: its capacity less its residual capacity, and zero for a fixed node.
fn on_sinks<N: FlowNetwork>(alloc: Global, net: &N, room: &[u64]) -> Result<Vec<u64>, NoMemory>
    requires { length room.now ≡ (N.numbered net.now).node_count }
    ensures { IfOk result (λ amounts. length amounts.items ≡ (N.numbered net.now).node_count) }
{
    let mut amounts = vec![in alloc; 0u64; net.node_count()]?;
    for node in 0..amounts.len() {
        if !net.is_fixed(node) {
            amounts[node] = net.sink(node).saturating_sub(room[node]);
        }
    }
    Ok(amounts)
}
