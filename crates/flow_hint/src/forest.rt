//! Grows a forest from nodes with excess, and sends along its branches to each sink with residual capacity that it meets.
//! Depends on preflows.
//!
//! This is half of the two-tree algorithm of Boykov and Kolmogorov (2004): nodes that are cut off by a full branch leave the
//! forest, and then each joins it again through the neighbour nearest to a root, if one is still in it. The work is bounded by
//! fuel; when it ends, the amounts are as good a start for another method as any.

ghost use Rattle.std.specs.Prelude.{◌≡◌, ◌<◌, length, slice_index, EachIndex, IfOk, IfSome};

use crate::NoMemory;
use crate::preflow::Preflow;
use crate::wiring::Ends;
use flow_net::FlowNetwork;
use std::alloc::Global;
use watch::Watch;

/// The parent of a node outside the forest.
const FREE: u32 = u32::MAX;

/// The parent of a root.
const ROOT: u32 = u32::MAX - 1;

/// The number of arcs that may be examined for each arc of the network.
const FUEL: usize = 8;

/// That number if less than one node in `FEW` has a sink with residual capacity: then nearly all of the forest leads nowhere.
const FUEL_TO_FEW: usize = 1;

/// The number of nodes for each sink with residual capacity from which on these are few.
const FEW: usize = 256;

/// The position of a node in the forest.
#[derive(Clone, Copy, Debug, PartialEq, Eq)]
struct Branch {
    /// The arc of the node towards its parent, or one of the constants.
    parent: u32,
    /// An upper bound of the distance of the node from its root.
    distance: u32,
}

/// A preflow, and a forest over its nodes.
#[derive(Debug, Drop)]
pub struct Forest<'a, N: FlowNetwork> {
    /// The amounts.
    pub preflow: Preflow<'a, N>,
    /// The branch of each node.
    branch: Vec<Branch>,
    /// Whether each node is outside the forest, stored separately from its branch because it is tested for each head: a byte a
    /// node.
    is_free: Vec<bool>,
    /// Whether each node is active.
    is_waiting: Vec<bool>,
    /// The active nodes, in a ring buffer.
    ring: Vec<u32>,
    /// The index in the ring of the node that has been active longest.
    first: usize,
    /// The number of active nodes.
    waiting: usize,
    /// The nodes that full branches have cut off, in order.
    orphans: Vec<u32>,
    /// The number of these.
    orphaned: usize,
    /// The number of arcs that may still be examined.
    fuel: usize,
    ghost branch_count: { length branch.items ≡ preflow.wiring.nodes },
    ghost free_count: { length is_free.items ≡ preflow.wiring.nodes },
    ghost flag_count: { length is_waiting.items ≡ preflow.wiring.nodes },
    ghost ring_count: { length ring.items ≡ preflow.wiring.nodes },
    ghost ring_in: { EachIndex ring.items (λ k. slice_index ring.items k < preflow.wiring.nodes) },
    ghost first_in: { first < preflow.wiring.nodes },
    ghost orphan_count: { length orphans.items ≡ preflow.wiring.nodes },
    ghost orphans_in: { EachIndex orphans.items (λ k. slice_index orphans.items k < preflow.wiring.nodes) },
}

impl<'a, N: FlowNetwork> Forest<'a, N> {
    /// Returns an empty forest.
    pub fn new(alloc: Global, preflow: Preflow<'a, N>) -> Result<Forest<'a, N>, NoMemory>
        ensures { IfOk result (λ forest. forest.preflow ≡ preflow.entry) }
    {
        let nodes = preflow.wiring.nodes;
        let is_few = preflow.open_count() < nodes / FEW;
        let each = if is_few { FUEL_TO_FEW } else { FUEL };
        let fuel = preflow.wiring.arcs.saturating_mul(each);
        let outside = Branch {
            parent: FREE,
            distance: 0,
        };
        let branch = vec![in alloc; outside; nodes]?;
        let is_free = vec![in alloc; true; nodes]?;
        let is_waiting = vec![in alloc; false; nodes]?;
        let ring = vec![in alloc; 0u32; nodes]?;
        let orphans = vec![in alloc; 0u32; nodes]?;
        Ok(Forest {
            preflow,
            branch,
            is_free,
            is_waiting,
            ring,
            first: 0,
            waiting: 0,
            orphans,
            orphaned: 0,
            fuel,
        })
    }

    /// Uses up some fuel.
    fn burn(&mut self, arcs: usize)
        ensures { self.new.preflow ≡ self.old.preflow }
    {
        self.fuel = self.fuel.saturating_sub(arcs);
    }

    /// Makes a node active.
    fn enqueue(&mut self, node: usize)
        requires { node < self.old.preflow.wiring.nodes }
        ensures { self.new.preflow ≡ self.old.preflow }
    {
        if self.is_waiting[node] || self.waiting >= self.ring.len() {
            return;
        }
        self.is_waiting[node] = true;
        let behind = self.ring.len() - self.first;
        let place = if self.waiting < behind {
            self.first + self.waiting
        } else {
            self.waiting - behind
        };
        self.ring[place] = node as u32;
        self.waiting += 1;
    }

    /// Removes and returns the node that has been active longest.
    fn dequeue(&mut self) -> Option<usize>
        ensures preflow { self.new.preflow ≡ self.old.preflow }
        ensures node { IfSome result (λ node. node < self.old.preflow.wiring.nodes) }
    {
        if self.waiting == 0 {
            return None;
        }
        let node = self.ring[self.first] as usize;
        self.first += 1;
        if self.first >= self.ring.len() {
            self.first = 0;
        }
        self.waiting -= 1;
        self.is_waiting[node] = false;
        Some(node)
    }

    /// Removes a node that is cut off from the forest.
    fn orphan(&mut self, node: usize)
        requires { node < self.old.preflow.wiring.nodes }
        ensures { self.new.preflow ≡ self.old.preflow }
    {
        self.branch[node].parent = FREE;
        self.is_free[node] = true;
        if self.orphaned < self.orphans.len() {
            self.orphans[self.orphaned] = node as u32;
            self.orphaned += 1;
        }
    }

    /// Returns the maximal amount that can flow to a node of the forest along its branch.
    fn most_along(&self, node: usize) -> u64
        requires { node < self.now.preflow.wiring.nodes }
    {
        let mut most = u64::MAX;
        let mut at = node;
        for _ in 0..self.preflow.wiring.nodes {
            let up = self.branch[at].parent as usize;
            if up >= self.preflow.wiring.arcs {
                return most.min(self.preflow.excess[at]);
            }
            let ends = self.preflow.wiring.ends(up);
            most = most.min(self.preflow.rooms.get(ends.twin));
            at = ends.head;
        }
        0
    }

    /// Takes an amount from a root, and cuts it off if no excess is left.
    fn take_from(&mut self, root: usize, amount: u64)
        requires { root < self.old.preflow.wiring.nodes }
        ensures { self.new.preflow.wiring ≡ self.old.preflow.wiring }
    {
        let left = self.preflow.excess[root].saturating_sub(amount);
        let preflow = &mut self.preflow;
        preflow.excess[root] = left;
        if left == 0 {
            self.orphan(root);
        }
    }

    /// Sends an amount to a node along its branch, and cuts off what is below a full arc.
    fn send_along(&mut self, node: usize, amount: u64)
        requires { node < self.old.preflow.wiring.nodes }
        ensures { self.new.preflow.wiring ≡ self.old.preflow.wiring }
    {
        let mut at = node;
        for _ in 0..self.preflow.wiring.nodes {
            self.burn(1);
            let up = self.branch[at].parent as usize;
            if up >= self.preflow.wiring.arcs {
                self.take_from(at, amount);
                return;
            }
            let ends = self.preflow.wiring.ends(up);
            self.preflow.shift(ends.twin, up, amount);
            if self.preflow.rooms.get(ends.twin) == 0 {
                self.orphan(at);
            }
            at = ends.head;
        }
    }

    /// Returns the branch of a node through the parent nearest to a root.
    fn best_branch(&self, node: usize) -> Branch
        requires { node < self.now.preflow.wiring.nodes }
    {
        let mut parent = FREE;
        let mut least = u32::MAX;
        let (start, end) = self.preflow.wiring.around(node);
        for place in start..end {
            let arc = self.preflow.wiring.arc(place);
            let ends = self.preflow.wiring.ends(arc);
            let other = self.branch[ends.head];
            if other.parent != FREE
                && other.distance < least
                && self.preflow.rooms.get(ends.twin) > 0
            {
                least = other.distance;
                parent = arc as u32;
            }
        }
        Branch {
            parent,
            distance: least.saturating_add(1),
        }
    }

    /// Cuts off the children of a node.
    fn release(&mut self, node: usize)
        requires { node < self.old.preflow.wiring.nodes }
        ensures { self.new.preflow ≡ self.old.preflow }
    {
        let (start, end) = self.preflow.wiring.around(node);
        self.burn(end.saturating_sub(start).saturating_mul(2));
        for place in start..end {
            let arc = self.preflow.wiring.arc(place);
            let ends = self.preflow.wiring.ends(arc);
            if self.branch[ends.head].parent as usize == ends.twin {
                self.orphan(ends.head);
            }
        }
    }

    /// Cuts off everything below the nodes that are cut off.
    fn release_all(&mut self)
        ensures { self.new.preflow ≡ self.old.preflow }
    {
        for place in 0..self.orphans.len() {
            if place >= self.orphaned {
                return;
            }
            let node = self.orphans[place] as usize;
            self.release(node);
        }
    }

    /// Rejoins each node that is cut off, if possible.
    fn adopt_all(&mut self)
        ensures { self.new.preflow ≡ self.old.preflow }
    {
        for place in 0..self.orphans.len() {
            if place >= self.orphaned {
                break;
            }
            let node = self.orphans[place] as usize;
            let branch = self.best_branch(node);
            if branch.parent != FREE {
                self.join(node, branch);
            }
        }
        self.orphaned = 0;
    }

    /// Puts a node into the forest.
    fn join(&mut self, node: usize, branch: Branch)
        requires { node < self.old.preflow.wiring.nodes }
        ensures { self.new.preflow ≡ self.old.preflow }
    {
        self.branch[node] = branch;
        self.is_free[node] = false;
        self.enqueue(node);
    }

    /// Sends the maximal amount along an arc from a node of the forest into the sink of its head. Nodes that this cuts off join
    /// the forest again or leave it.
    fn feed(&mut self, node: usize, arc: usize, ends: Ends)
        requires node { node < self.old.preflow.wiring.nodes }
        requires head { ends.head < self.old.preflow.wiring.nodes }
        ensures { self.new.preflow.wiring ≡ self.old.preflow.wiring }
    {
        let sink = self.preflow.sink[ends.head];
        let room = self.preflow.rooms.get(arc);
        let amount = self.most_along(node).min(room).min(sink);
        let preflow = &mut self.preflow;
        preflow.sink[ends.head] = sink - amount;
        preflow.shift(arc, ends.twin, amount);
        self.send_along(node, amount);
        self.release_all();
        self.adopt_all();
    }

    /// Uses an arc from a node of the forest to a head outside, while the arc has residual capacity: it sends into the head's
    /// sink, and once that is full the head joins the forest. A head whose last arc is full would leave the forest at once, so
    /// it does not join.
    fn reach(&mut self, node: usize, arc: usize, ends: Ends)
        requires node { node < self.old.preflow.wiring.nodes }
        requires head { ends.head < self.old.preflow.wiring.nodes }
        requires twin { ends.twin < self.old.preflow.wiring.arcs }
        ensures { self.new.preflow.wiring ≡ self.old.preflow.wiring }
    {
        for _ in 0..self.fuel {
            let room = self.preflow.rooms.get(arc);
            if self.fuel == 0 || room == 0 || self.is_free[node] {
                return;
            }
            if self.preflow.sink[ends.head] == 0 {
                let branch = Branch {
                    parent: ends.twin as u32,
                    distance: self.branch[node].distance.saturating_add(1),
                };
                self.join(ends.head, branch);
                return;
            }
            self.feed(node, arc, ends);
        }
    }

    /// Grows from a node along its arcs to nodes outside the forest.
    fn grow(&mut self, node: usize)
        requires { node < self.old.preflow.wiring.nodes }
        ensures { self.new.preflow.wiring ≡ self.old.preflow.wiring }
    {
        let (start, end) = self.preflow.wiring.around(node);
        for place in start..end {
            if self.is_free[node] {
                return;
            }
            self.burn(1);
            let arc = self.preflow.wiring.arc(place);
            if self.preflow.rooms.get(arc) > 0 {
                let ends = self.preflow.wiring.ends(arc);
                if self.is_free[ends.head] {
                    self.reach(node, arc, ends);
                }
            }
        }
    }

    /// Makes each node with excess a root.
    fn plant(&mut self)
        ensures { self.new.preflow ≡ self.old.preflow }
    {
        for node in 0..self.preflow.wiring.nodes {
            if self.preflow.excess[node] > 0 {
                let root = Branch {
                    parent: ROOT,
                    distance: 0,
                };
                self.join(node, root);
            }
        }
    }

    /// Grows until nothing grows, or the fuel is used. Reports the number of nodes to a progress callback.
    pub fn run<W: Watch>(&mut self, watch: &mut W)
        ensures { self.new.preflow.wiring ≡ self.old.preflow.wiring }
    {
        self.plant();
        for _ in 0..self.fuel {
            if self.fuel == 0 {
                return;
            }
            let Some(node) = self.dequeue() else {
                return;
            };
            self.preflow.tell_next(watch);
            self.grow(node);
        }
    }
}
