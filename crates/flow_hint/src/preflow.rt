//! Preflows: amounts on their way into sinks; more may have entered a node than has left it. Depends on the wiring.
//!
//! Sums saturate, so that an amount that is too large for its type at worst gives a wrong hint.

ghost use Rattle.std.specs.Prelude.{◌≡◌, ◌<◌, length, IfOk, IfSome};

use crate::NoMemory;
use crate::amounts::Amounts;
use crate::survey::Survey;
use crate::wiring::Wiring;
use flow_net::FlowNetwork;
use std::alloc::Global;
use watch::{Watch, tell};

/// Amounts on the arcs of a network, and the excess of each node.
#[derive(Debug, Drop)]
pub struct Preflow<'a, N: FlowNetwork> {
    /// The arcs.
    pub wiring: Wiring<'a, N>,
    /// The residual capacity of each arc between free nodes: what is left of its capacity, and the flow on its reverse.
    pub rooms: Amounts,
    /// The excess of each node.
    pub excess: Vec<u64>,
    /// The residual capacity of each node's sink.
    pub sink: Vec<u64>,
    /// The amount that entered each node from fixed nodes.
    pub source: Vec<u64>,
    /// The number of times that amounts were moved on from a node.
    pub moves: usize,
    pub ghost excess_count: { length excess.items ≡ wiring.nodes },
    pub ghost sink_count: { length sink.items ≡ wiring.nodes },
    pub ghost source_count: { length source.items ≡ wiring.nodes },
}

/// Returns the initial capacity of each node's sink: the listed amount, the whole sink if nothing is listed, and nothing for a
/// fixed node.
fn free_sinks<N: FlowNetwork>(alloc: Global, net: &N, first: &[u64]) -> Result<Vec<u64>, NoMemory>
    ensures { IfOk result (λ sinks. length sinks.items ≡ (N.numbered net.now).node_count) }
{
    let mut sinks = vec![in alloc; 0u64; net.node_count()]?;
    for node in 0..sinks.len() {
        if !net.is_fixed(node) {
            sinks[node] = net.sink(node);
            if node < first.len() {
                sinks[node] = sinks[node].min(first[node]);
            }
        }
    }
    Ok(sinks)
}

/// Returns the residual capacity of each arc, if every arc between free nodes is full or all are empty. It is zero for other
/// arcs.
fn all_rooms<N: FlowNetwork>(
    alloc: Global,
    wiring: &Wiring<'_, N>,
    is_full: bool,
    is_narrow: bool,
) -> Result<Amounts, NoMemory> {
    let mut rooms = Amounts::new(alloc, wiring.arcs, is_narrow)?;
    for arc in 0..wiring.arcs {
        let twin = wiring.twin(arc);
        if twin != arc {
            // A pair of full arcs is the pair with its two residual capacities exchanged.
            rooms.set(if is_full { twin } else { arc }, wiring.cap(arc));
        }
    }
    Ok(rooms)
}

impl<'a, N: FlowNetwork> Preflow<'a, N> {
    /// Returns the initial amounts: fixed nodes send their maximum, every other arc is full, which usually is near the maximum, and
    /// sinks have taken their maximum, but no more than is listed. Returns `None` if the sums of capacities are too large or there
    /// are no arcs between free nodes.
    ///
    /// If a node would have a negative balance with every arc full, these arcs are empty.
    pub fn new(alloc: Global, net: &'a N, first: &[u64]) -> Result<Option<Preflow<'a, N>>, NoMemory>
        ensures { IfOk result (λ found. IfSome found (λ preflow. preflow.wiring.net.now ≡ net.now)) }
    {
        let survey = Survey::new(alloc, net)?;
        let is_full = !survey.owes();
        let is_narrow = survey.is_narrow();
        if !survey.is_fit() {
            return Ok(None);
        }
        let Survey {
            degree,
            is_by_node,
            source,
            balance,
            ..
        } = survey;
        let Some(wiring) = Wiring::new(alloc, net, degree, is_by_node)? else {
            return Ok(None);
        };
        let excess = if is_full {
            balance
        } else {
            Vec::from_slice(alloc, source.as_slice())?
        };
        let rooms = all_rooms(alloc, &wiring, is_full, is_narrow)?;
        let mut preflow = Preflow {
            wiring,
            rooms,
            excess,
            sink: free_sinks(alloc, net, first)?,
            source,
            moves: 0,
        };
        preflow.settle();
        Ok(Some(preflow))
    }

    /// Opens each sink to its whole size, if it was limited by the list, and fills it as far as possible.
    pub fn open_sinks(&mut self, first: &[u64])
        ensures { self.new.wiring ≡ self.old.wiring }
    {
        let net = self.wiring.net;
        for node in 0..self.wiring.nodes {
            if node < first.len() && !net.is_fixed(node) {
                let more = net.sink(node).saturating_sub(first[node]);
                self.sink[node] = self.sink[node].saturating_add(more);
            }
        }
        self.settle();
    }

    /// Returns the number of nodes whose sink has residual capacity.
    pub fn open_count(&self) -> usize {
        let mut count: usize = 0;
        for amount in self.sink.iter() {
            count = count.saturating_add(usize::from(*amount > 0));
        }
        count
    }

    /// Moves the excess of each node into its sink, as far as that has residual capacity.
    pub fn settle(&mut self)
        ensures { self.new.wiring ≡ self.old.wiring }
    {
        for node in 0..self.wiring.nodes {
            let amount = self.excess[node].min(self.sink[node]);
            self.excess[node] -= amount;
            self.sink[node] -= amount;
        }
    }

    /// Adds an amount to a node, and moves it into the sink as far as that has residual capacity. Returns the remaining excess.
    pub fn arrive(&mut self, node: usize, amount: u64) -> u64
        requires { node < self.old.wiring.nodes }
        ensures { self.new.wiring ≡ self.old.wiring }
    {
        let arrived = self.excess[node].saturating_add(amount);
        let leaves = arrived.min(self.sink[node]);
        self.sink[node] -= leaves;
        self.excess[node] = arrived - leaves;
        arrived - leaves
    }

    /// Counts one more node from which amounts are moved on, and reports every 4,096th to a progress callback.
    pub fn tell_next<W: Watch>(&mut self, watch: &mut W)
        ensures { self.new.wiring ≡ self.old.wiring }
    {
        self.moves = self.moves.saturating_add(1);
        tell(watch, self.moves);
    }

    /// Sends an amount along an arc, and increases the residual capacity of its reverse.
    #[inline]
    pub fn shift(&mut self, arc: usize, twin: usize, amount: u64)
        ensures { self.new.wiring ≡ self.old.wiring }
    {
        let there = self.rooms.get(arc).saturating_sub(amount);
        let back = self.rooms.get(twin).saturating_add(amount);
        self.rooms.set(arc, there);
        self.rooms.set(twin, back);
    }
}
