//! Rounds that move excess to sinks. Depends on preflows.
//!
//! A round gives each node its level, the number of arcs with residual capacity on a path to a sink with residual capacity, and
//! then moves excess down by levels, from the node of the lowest level first, and lifts a node that keeps some.

ghost use Rattle.std.specs.Prelude.{◌≡◌, ◌<◌, ◌^◌, length, slice_index, EachIndex, IfSome, IfOk};

use crate::NoMemory;
use crate::preflow::Preflow;
use crate::wiring::Ends;
use flow_net::{FlowNetwork, Levels};
use std::alloc::Global;
use watch::Watch;

/// The level of a node without a known path to a sink, and the end of a list of nodes.
const NONE: u32 = u32::MAX;

/// The number of levels above the highest that a node may be lifted in a round.
const SPARE_LEVELS: usize = 8;

/// The number of arcs that may be examined in a round for each node.
const FUEL: usize = 3;

/// The maximal number of rounds. Networks of cells took fewer than twenty.
const MOST_ROUNDS: usize = 100;

/// A preflow, with the levels of its nodes and lists of nodes with excess.
#[derive(Debug, Drop)]
pub struct Rounds<'a, N: FlowNetwork> {
    /// The amounts.
    pub preflow: Preflow<'a, N>,
    /// The level of each node.
    level: Vec<u32>,
    /// The nodes in the order in which they got their levels.
    queue: Vec<u32>,
    /// The number of nodes with a level.
    found: usize,
    /// For each level the first active node there.
    bucket: Vec<u32>,
    /// For each active node the next one at its level.
    after: Vec<u32>,
    /// Whether each node is active.
    is_waiting: Vec<bool>,
    /// No node is active at a lower level.
    low: usize,
    /// The number of arcs that may still be examined in this round.
    fuel: usize,
    ghost level_count: { length level.items ≡ preflow.wiring.nodes },
    ghost queue_count: { length queue.items ≡ preflow.wiring.nodes },
    ghost after_count: { length after.items ≡ preflow.wiring.nodes },
    ghost flag_count: { length is_waiting.items ≡ preflow.wiring.nodes },
    ghost queue_in: { EachIndex queue.items (λ k. slice_index queue.items k < preflow.wiring.nodes) },
}

impl<'a, N: FlowNetwork> Rounds<'a, N> {
    /// Returns a state in which no node has a level.
    pub fn new(alloc: Global, preflow: Preflow<'a, N>) -> Result<Rounds<'a, N>, NoMemory>
        ensures { IfOk result (λ rounds. rounds.preflow ≡ preflow.entry) }
    {
        let nodes = preflow.wiring.nodes;
        let level = vec![in alloc; NONE; nodes]?;
        let queue = vec![in alloc; 0u32; nodes]?;
        let after = vec![in alloc; NONE; nodes]?;
        let is_waiting = vec![in alloc; false; nodes]?;
        Ok(Rounds {
            preflow,
            level,
            queue,
            found: 0,
            bucket: Vec::new(alloc),
            after,
            is_waiting,
            low: 0,
            fuel: 0,
        })
    }

    /// Sets the level of a node.
    fn mark(&mut self, node: usize, level: u32)
        requires { node < self.old.preflow.wiring.nodes }
        ensures { self.new.preflow ≡ self.old.preflow }
    {
        self.level[node] = level;
        if self.found < self.queue.len() {
            self.queue[self.found] = node as u32;
            self.found += 1;
        }
    }

    /// Gives level 0 to each node whose sink has residual capacity, and none to others.
    fn mark_sinks(&mut self)
        ensures { self.new.preflow ≡ self.old.preflow }
    {
        self.found = 0;
        for node in 0..self.preflow.wiring.nodes {
            self.level[node] = NONE;
            self.is_waiting[node] = false;
            if self.preflow.sink[node] > 0 {
                self.mark(node, 0);
            }
        }
    }

    /// Sets the level of each node from which an arc with residual capacity leads to a node.
    fn reach(&mut self, node: usize)
        requires { node < self.old.preflow.wiring.nodes }
        ensures { self.new.preflow ≡ self.old.preflow }
    {
        let level = self.level[node].saturating_add(1);
        let (start, end) = self.preflow.wiring.around(node);
        for place in start..end {
            let arc = self.preflow.wiring.arc(place);
            let against = self.preflow.wiring.ends(arc);
            if self.level[against.head] == NONE && self.preflow.rooms.get(against.twin) > 0 {
                self.mark(against.head, level);
            }
        }
    }

    /// Computes the level of each node, and returns whether a node with excess has one above 0.
    fn find_levels(&mut self) -> bool
        ensures { self.new.preflow ≡ self.old.preflow }
    {
        self.mark_sinks();
        let mut any = false;
        for at in 0..self.queue.len() {
            if at >= self.found {
                break;
            }
            let node = self.queue[at] as usize;
            any = any || (self.preflow.excess[node] > 0 && self.level[node] > 0);
            self.reach(node);
        }
        any
    }

    /// Returns the highest level of a node.
    fn highest(&self) -> usize
        ensures { result < 2 ^ 32 }
    {
        if self.found == 0 || self.found > self.queue.len() {
            return 0;
        }
        self.level[self.queue[self.found - 1] as usize] as usize
    }

    /// Makes a node active at its level, or removes its level if that is too high.
    fn put(&mut self, node: usize)
        requires { node < self.old.preflow.wiring.nodes }
        ensures { self.new.preflow ≡ self.old.preflow }
    {
        let level = self.level[node] as usize;
        if level < self.bucket.len() {
            self.after[node] = self.bucket[level];
            self.bucket[level] = node as u32;
            self.is_waiting[node] = true;
            self.low = self.low.min(level);
        } else {
            self.level[node] = NONE;
        }
    }

    /// Makes each node with excess and a level above 0 active.
    fn put_all(&mut self, alloc: Global) -> Result<(), NoMemory>
        ensures { self.new.preflow ≡ self.old.preflow }
    {
        let levels = self.highest() + 1 + SPARE_LEVELS;
        self.bucket = vec![in alloc; NONE; levels]?;
        self.low = self.bucket.len();
        for at in 0..self.queue.len() {
            if at >= self.found {
                break;
            }
            let node = self.queue[at] as usize;
            if self.preflow.excess[node] > 0 && self.level[node] > 0 {
                self.put(node);
            }
        }
        Ok(())
    }

    /// Removes and returns the node that came last to the lowest level with an active node.
    fn take(&mut self) -> Option<usize>
        ensures preflow { self.new.preflow ≡ self.old.preflow }
        ensures node { IfSome result (λ node. node < self.old.preflow.wiring.nodes) }
    {
        for level in self.low..self.bucket.len() {
            let node = self.bucket[level] as usize;
            if node < self.preflow.wiring.nodes {
                self.bucket[level] = self.after[node];
                self.is_waiting[node] = false;
                self.low = level;
                return Some(node);
            }
        }
        None
    }

    /// Sends along an arc to its head, which becomes active if it keeps some.
    fn send(&mut self, arc: usize, ends: Ends, amount: u64)
        requires { ends.head < self.old.preflow.wiring.nodes }
        ensures { self.new.preflow.wiring ≡ self.old.preflow.wiring }
    {
        self.preflow.shift(arc, ends.twin, amount);
        if self.preflow.arrive(ends.head, amount) > 0 && !self.is_waiting[ends.head] {
            self.level[ends.head] = self.level[ends.head].max(1);
            self.put(ends.head);
        }
    }

    /// Moves an amount from a node down along its arcs as far as possible, and returns the rest.
    ///
    /// The level of the node becomes one more than the least to which an arc with residual capacity leads.
    fn send_down(&mut self, node: usize, amount: u64) -> u64
        requires { node < self.old.preflow.wiring.nodes }
        ensures { self.new.preflow.wiring ≡ self.old.preflow.wiring }
    {
        let level = self.level[node];
        let mut left = amount;
        let mut least = NONE;
        let (start, end) = self.preflow.wiring.around(node);
        for place in start..end {
            self.fuel = self.fuel.saturating_sub(1);
            let arc = self.preflow.wiring.arc(place);
            let ends = self.preflow.wiring.ends(arc);
            let room = self.preflow.rooms.get(arc);
            if room > 0 && self.level[ends.head] < level {
                let part = left.min(room);
                self.send(arc, ends, part);
                left -= part;
                if left == 0 {
                    return 0;
                }
            } else if room > 0 {
                least = least.min(self.level[ends.head]);
            }
        }
        self.level[node] = level.max(least.saturating_add(1));
        left
    }

    /// Moves the excess of a node down as far as possible, and lifts the node if it keeps some.
    fn discharge(&mut self, node: usize)
        requires { node < self.old.preflow.wiring.nodes }
        ensures { self.new.preflow.wiring ≡ self.old.preflow.wiring }
    {
        let amount = self.preflow.excess[node];
        let left = self.send_down(node, amount);
        let preflow = &mut self.preflow;
        preflow.excess[node] = left;
        if left > 0 {
            self.put(node);
        }
    }

    /// Moves the excess of active nodes, until the fuel is used. Reports the number of nodes to a progress callback.
    fn drain<W: Watch>(&mut self, watch: &mut W)
        ensures { self.new.preflow.wiring ≡ self.old.preflow.wiring }
    {
        self.fuel = self.preflow.wiring.nodes.saturating_mul(FUEL);
        for _ in 0..self.fuel {
            if self.fuel == 0 {
                return;
            }
            let Some(node) = self.take() else {
                return;
            };
            self.preflow.tell_next(watch);
            self.discharge(node);
        }
    }

    /// Moves excess to sinks until none moves, or the rounds are over.
    pub fn run<W: Watch>(&mut self, alloc: Global, watch: &mut W) -> Result<(), NoMemory>
        ensures { self.new.preflow.wiring ≡ self.old.preflow.wiring }
    {
        for _ in 0..MOST_ROUNDS {
            if !self.find_levels() {
                return Ok(());
            }
            self.put_all(alloc)?;
            self.drain(watch);
        }
        Ok(())
    }

    /// Returns the amounts, and which nodes reached a sink with residual capacity when levels were last found, with their
    /// levels. If none of these had excess, they are the inside of a cut whose cost is the value of the flow.
    pub fn into_levels(self, alloc: Global) -> Result<(Preflow<'a, N>, Levels), NoMemory>
        ensures { IfOk result (λ made. made.0.wiring ≡ self.entry.preflow.wiring) }
    {
        let Rounds { preflow, level, .. } = self;
        let mut is_found = vec![in alloc; false; level.len()]?;
        for node in 0..level.len() {
            is_found[node] = level[node] != NONE;
        }
        Ok((preflow, Levels { is_found, level }))
    }
}
