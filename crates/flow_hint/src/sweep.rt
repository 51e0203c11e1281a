//! One sweep that sends excess back along the arcs on which it came. Depends on `refund`.
//!
//! A depth-first search lists the nodes, each after those to which it can send flow back. If an arc leads to a node of the path
//! again, the flow around that cycle is cancelled, and the path is cut at the first arc that carries nothing any more. In
//! reverse order each node then sends its excess back, so that everything that can come back to a node is there before its
//! turn. The work is bounded by fuel.

ghost use Rattle.std.specs.Prelude.{◌≡◌, ◌<◌, length, slice_index, EachIndex, IfOk};

use crate::NoMemory;
use crate::preflow::Preflow;
use flow_net::FlowNetwork;
use std::alloc::Global;

/// The predecessor of the first node of the path.
const NONE: u32 = u32::MAX;

/// The number of steps for each arc. Thin tubes of 20,000 and 40,000 points took 7 and 9, the other scans at most 3.
const FUEL: usize = 16;

/// How far the search is with a node.
#[derive(Clone, Copy, Debug, PartialEq, Eq)]
enum Visit {
    /// The search has not reached it, or the path that led there was cut.
    New,
    /// It is on the path.
    Open,
    /// The search has left it.
    Done,
}

/// Amounts, and a depth-first search along arcs on which flow can go back.
#[derive(Debug, Drop)]
pub struct Sweep<'a, N: FlowNetwork> {
    /// The amounts.
    pub preflow: Preflow<'a, N>,
    /// For each node the index of the arc that is tried next, or that the path takes.
    cursor: Vec<u32>,
    /// How far the search is with each node.
    visit: Vec<Visit>,
    /// For each node on the path its predecessor.
    below: Vec<u32>,
    /// The nodes that the search has left, in order.
    order: Vec<u32>,
    /// The number of these.
    left: usize,
    /// The number of steps that are left.
    fuel: usize,
    ghost cursor_count: { length cursor.items ≡ preflow.wiring.nodes },
    ghost visit_count: { length visit.items ≡ preflow.wiring.nodes },
    ghost below_count: { length below.items ≡ preflow.wiring.nodes },
    ghost order_count: { length order.items ≡ preflow.wiring.nodes },
    ghost order_in: { EachIndex order.items (λ k. slice_index order.items k < preflow.wiring.nodes) },
}

impl<'a, N: FlowNetwork> Sweep<'a, N> {
    /// Returns a search that has reached no node.
    pub fn new(alloc: Global, preflow: Preflow<'a, N>) -> Result<Sweep<'a, N>, NoMemory>
        ensures { IfOk result (λ sweep. sweep.preflow ≡ preflow.entry) }
    {
        let nodes = preflow.wiring.nodes;
        let fuel = preflow.wiring.arcs.saturating_mul(FUEL);
        let cursor = vec![in alloc; 0u32; nodes]?;
        let visit = vec![in alloc; Visit::New; nodes]?;
        let below = vec![in alloc; NONE; nodes]?;
        let order = vec![in alloc; 0u32; nodes]?;
        Ok(Sweep {
            preflow,
            cursor,
            visit,
            below,
            order,
            left: 0,
            fuel,
        })
    }

    /// Uses up some fuel.
    fn burn(&mut self, steps: usize)
        ensures { self.new.preflow ≡ self.old.preflow }
    {
        self.fuel = self.fuel.saturating_sub(steps);
    }

    /// Appends a node to the path, after its predecessor. It tries its first arc next.
    fn enter(&mut self, node: usize, below: u32)
        requires { node < self.old.preflow.wiring.nodes }
        ensures { self.new.preflow ≡ self.old.preflow }
    {
        let (start, _) = self.preflow.wiring.around(node);
        self.visit[node] = Visit::Open;
        self.below[node] = below;
        self.cursor[node] = start.min(NONE as usize) as u32;
    }

    /// Removes a node from the path, and lists it.
    fn leave(&mut self, node: usize)
        requires { node < self.old.preflow.wiring.nodes }
        ensures { self.new.preflow ≡ self.old.preflow }
    {
        self.visit[node] = Visit::Done;
        if self.left < self.order.len() {
            self.order[self.left] = node as u32;
            self.left += 1;
        }
    }

    /// Returns the arc that the path takes from a node.
    fn arc_from(&self, node: usize) -> usize
        requires { node < self.now.preflow.wiring.nodes }
        ensures { result < self.now.preflow.wiring.arcs }
    {
        let last = self.preflow.wiring.arcs - 1;
        self.preflow
            .wiring
            .arc((self.cursor[node] as usize).min(last))
    }

    /// Returns the maximal amount that can be cancelled around the cycle from a node of the path to its last node.
    fn most_around(&self, first: usize, last: usize) -> u64
        requires { last < self.now.preflow.wiring.nodes }
    {
        let mut most = u64::MAX;
        let mut at = last;
        for _ in 0..self.preflow.wiring.nodes {
            most = most.min(self.preflow.most_back(self.arc_from(at)));
            let below = self.below[at] as usize;
            if at == first || below >= self.preflow.wiring.nodes {
                break;
            }
            at = below;
        }
        most
    }

    /// Cancels an amount around the cycle from a node of the path to its last node. Returns the first node of the cycle whose
    /// arc carries nothing any more.
    fn cancel(&mut self, first: usize, last: usize, amount: u64) -> usize
        requires { last < self.old.preflow.wiring.nodes }
        ensures wiring { self.new.preflow.wiring ≡ self.old.preflow.wiring }
        ensures node { result < self.old.preflow.wiring.nodes }
    {
        let mut cut = last;
        let mut at = last;
        for _ in 0..self.preflow.wiring.nodes {
            self.burn(2);
            let arc = self.arc_from(at);
            let ends = self.preflow.wiring.ends(arc);
            self.preflow.shift(arc, ends.twin, amount);
            if self.preflow.most_back(arc) == 0 {
                cut = at;
            }
            let below = self.below[at] as usize;
            if at == first || below >= self.preflow.wiring.nodes {
                break;
            }
            at = below;
        }
        cut
    }

    /// Removes the nodes of the path after this one, from its last node on.
    fn cut_to(&mut self, node: usize, last: usize)
        requires { last < self.old.preflow.wiring.nodes }
        ensures { self.new.preflow ≡ self.old.preflow }
    {
        let mut at = last;
        for _ in 0..self.preflow.wiring.nodes {
            let below = self.below[at] as usize;
            if at == node || below >= self.preflow.wiring.nodes {
                break;
            }
            self.visit[at] = Visit::New;
            at = below;
        }
    }

    /// Cancels the flow around the cycle from a node of the path to its last node, and returns the node to which it cuts the
    /// path.
    fn take_out(&mut self, first: usize, last: usize) -> usize
        requires { last < self.old.preflow.wiring.nodes }
        ensures { self.new.preflow.wiring ≡ self.old.preflow.wiring }
    {
        let amount = self.most_around(first, last);
        let node = self.cancel(first, last, amount);
        self.cut_to(node, last);
        node
    }

    /// Returns the node to which the search goes next from a node; it stays there while arcs are left.
    fn step(&mut self, node: usize) -> usize
        requires { node < self.old.preflow.wiring.nodes }
        ensures { self.new.preflow.wiring ≡ self.old.preflow.wiring }
    {
        let place = self.cursor[node] as usize;
        let (_, end) = self.preflow.wiring.around(node);
        if place >= end {
            self.leave(node);
            return self.below[node] as usize;
        }
        let arc = self.preflow.wiring.arc(place);
        let head = self.preflow.wiring.ends(arc).head;
        let visit = self.visit[head];
        if visit == Visit::Done || self.preflow.most_back(arc) == 0 {
            self.cursor[node] = self.cursor[node].saturating_add(1);
            return node;
        }
        if visit == Visit::Open {
            return self.take_out(head, node);
        }
        self.enter(head, node as u32);
        head
    }

    /// Searches from a node, as far as the fuel goes.
    fn search(&mut self, start: usize)
        requires { start < self.old.preflow.wiring.nodes }
        ensures { self.new.preflow.wiring ≡ self.old.preflow.wiring }
    {
        self.enter(start, NONE);
        let mut node = start;
        for _ in 0..self.fuel {
            if node >= self.preflow.wiring.nodes || self.fuel == 0 {
                return;
            }
            self.burn(1);
            node = self.step(node);
        }
    }

    /// Searches from each node with excess.
    fn search_all(&mut self)
        ensures { self.new.preflow.wiring ≡ self.old.preflow.wiring }
    {
        for node in 0..self.preflow.wiring.nodes {
            if self.preflow.excess[node] > 0 && self.visit[node] == Visit::New {
                self.search(node);
            }
        }
    }

    /// Sends an amount from a node back along its arcs, and returns the rest.
    fn hand_on(&mut self, node: usize, amount: u64) -> u64
        requires { node < self.old.preflow.wiring.nodes }
        ensures { self.new.preflow.wiring ≡ self.old.preflow.wiring }
    {
        let mut left = amount;
        let (start, end) = self.preflow.wiring.around(node);
        for place in start..end {
            if left == 0 {
                break;
            }
            let arc = self.preflow.wiring.arc(place);
            let most = self.preflow.most_back(arc).min(left);
            if most > 0 {
                let ends = self.preflow.wiring.ends(arc);
                self.preflow.shift(arc, ends.twin, most);
                self.preflow.return_to(ends.head, most);
                left -= most;
            }
        }
        left
    }

    /// Sends the excess of a node back.
    fn give(&mut self, node: usize)
        requires { node < self.old.preflow.wiring.nodes }
        ensures { self.new.preflow.wiring ≡ self.old.preflow.wiring }
    {
        let amount = self.preflow.excess[node];
        let left = self.hand_on(node, amount);
        let preflow = &mut self.preflow;
        preflow.excess[node] = left;
    }

    /// Sends everything back, if the fuel is enough.
    pub fn run(&mut self)
        ensures { self.new.preflow.wiring ≡ self.old.preflow.wiring }
    {
        self.search_all();
        let left = self.left.min(self.order.len());
        for done in 0..left {
            let node = self.order[left - 1 - done] as usize;
            self.give(node);
        }
    }
}
