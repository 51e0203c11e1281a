//! A preflow that is kept, so that a later hint can resume from it after capacities have increased. Depends on preflows.

ghost use Rattle.std.specs.Prelude.{◌≡◌, length, true, IfOk, IfSome};

use crate::NoMemory;
use crate::amounts::Amounts;
use crate::preflow::Preflow;
use crate::survey::Survey;
use crate::wiring::Wiring;
use flow_net::FlowNetwork;
use std::alloc::Global;

/// The amounts before flow that had reached no sink went back: it stays where it was stuck, so that a later hint need not bring
/// it there again.
///
/// Nothing is verified. In another network it gives a wrong hint or none.
#[derive(Debug, Drop)]
pub struct KeptPreflow {
    /// The residual capacity of each arc between free nodes.
    rooms: Amounts,
    /// The excess of each node.
    excess: Vec<u64>,
    /// The residual capacity of each node's sink.
    sink: Vec<u64>,
    /// The amount that entered each node from fixed nodes.
    source: Vec<u64>,
}

impl KeptPreflow {
    /// Returns the amounts of a preflow.
    pub fn of<N: FlowNetwork>(
        alloc: Global,
        preflow: &Preflow<'_, N>,
    ) -> Result<KeptPreflow, NoMemory> {
        Ok(KeptPreflow {
            rooms: preflow.rooms.copied(alloc)?,
            excess: Vec::from_slice(alloc, preflow.excess.as_slice())?,
            sink: Vec::from_slice(alloc, preflow.sink.as_slice())?,
            source: Vec::from_slice(alloc, preflow.source.as_slice())?,
        })
    }

    /// Returns whether there is an amount for each arc, and one of each kind for each node.
    fn has_lengths(&self, arcs: usize, nodes: usize) -> bool
        ensures excess { result ≡ true → length self.now.excess.items ≡ nodes }
        ensures sink { result ≡ true → length self.now.sink.items ≡ nodes }
        ensures source { result ≡ true → length self.now.source.items ≡ nodes }
    {
        self.rooms.len() == arcs
            && self.excess.len() == nodes
            && self.sink.len() == nodes
            && self.source.len() == nodes
    }
}

impl<'a, N: FlowNetwork> Preflow<'a, N> {
    /// Returns the amounts of a kept preflow, and the further amounts from fixed nodes after capacities have increased, or
    /// `None` if the numbers of nodes and arcs differ, the sums of capacities are too large or there are no arcs between free
    /// nodes.
    pub fn on(
        alloc: Global,
        net: &'a N,
        kept: KeptPreflow,
    ) -> Result<Option<Preflow<'a, N>>, NoMemory>
        ensures { IfOk result (λ found. IfSome found (λ preflow. preflow.wiring.net.now ≡ net.now)) }
    {
        let survey = Survey::new(alloc, net)?;
        let is_narrow = survey.is_narrow();
        if !survey.is_fit() {
            return Ok(None);
        }
        let Survey {
            degree,
            is_by_node,
            source: sends,
            ..
        } = survey;
        let Some(wiring) = Wiring::new(alloc, net, degree, is_by_node)? else {
            return Ok(None);
        };
        if !kept.has_lengths(wiring.arcs, wiring.nodes) {
            return Ok(None);
        }
        let KeptPreflow {
            rooms,
            excess,
            sink,
            source,
        } = kept;
        let mut preflow = Preflow {
            wiring,
            rooms: rooms.widened(alloc, is_narrow)?,
            excess,
            sink,
            source,
            moves: 0,
        };
        preflow.open_arcs();
        preflow.send_more(sends.as_slice());
        preflow.settle();
        Ok(Some(preflow))
    }

    /// Increases the residual capacity of both arcs of each pair by half of the increase of their capacities together. So each
    /// amount is unchanged if both have increased equally.
    fn open_arcs(&mut self)
        ensures { self.new.wiring ≡ self.old.wiring }
    {
        for arc in 0..self.wiring.arcs {
            let twin = self.wiring.twin(arc);
            if arc < twin {
                let there = self.rooms.get(arc);
                let back = self.rooms.get(twin);
                let whole = self.wiring.cap(arc).saturating_add(self.wiring.cap(twin));
                let more = whole.saturating_sub(there.saturating_add(back)) / 2;
                self.rooms.set(arc, there.saturating_add(more));
                self.rooms.set(twin, back.saturating_add(more));
            }
        }
    }

    /// Adds to each node the further amounts that fixed nodes can send there.
    fn send_more(&mut self, sends: &[u64])
        ensures { self.new.wiring ≡ self.old.wiring }
    {
        for node in 0..self.wiring.nodes.min(sends.len()) {
            let more = sends[node].saturating_sub(self.source[node]);
            self.source[node] = self.source[node].saturating_add(more);
            self.excess[node] = self.excess[node].saturating_add(more);
        }
    }
}
