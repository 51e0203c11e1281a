//! Sums over the arcs of a network, in one pass. Depends on the network alone.

ghost use Rattle.std.specs.Prelude.{◌≡◌, ◌+◌, length, IfOk};

use crate::NoMemory;
use flow_net::FlowNetwork;
use std::alloc::Global;

/// The largest total of all capacities for which sums are exact: 2^62.
const MOST_IN_ALL: u64 = 4_611_686_018_427_387_904;

/// The largest capacity whose double fits in 32 bits: 2^31 - 1.
const MOST_OF_FEW: u64 = 2_147_483_647;

/// The sign bit of a 64-bit number in two's complement.
const SIGN: u64 = 9_223_372_036_854_775_808;

/// Sums over the arcs of a network.
#[derive(Debug, Drop)]
pub struct Survey {
    /// For each node the number of arcs that leave it, after one extra entry.
    pub degree: Vec<u32>,
    /// Whether the arcs of each node are adjacent, in the order of their nodes.
    pub is_by_node: bool,
    /// Whether there is an arc between free nodes.
    pub has_pairs: bool,
    /// The amount that enters each node from fixed nodes if these send their maximum.
    pub source: Vec<u64>,
    /// The balance of each node if every arc is full: what enters it less what leaves it, in two's complement.
    pub balance: Vec<u64>,
    /// The sum of all capacities.
    pub total: u64,
    /// The largest capacity.
    pub most: u64,
}

impl Survey {
    /// Returns the sums over the arcs of a network.
    pub fn new<N: FlowNetwork>(alloc: Global, net: &N) -> Result<Survey, NoMemory>
        ensures degrees { IfOk result (λ survey. length survey.degree.items ≡ (N.numbered net.now).node_count + 1) }
        ensures sources { IfOk result (λ survey. length survey.source.items ≡ (N.numbered net.now).node_count) }
        ensures balances { IfOk result (λ survey. length survey.balance.items ≡ (N.numbered net.now).node_count) }
    {
        let nodes = net.node_count();
        let mut source = vec![in alloc; 0u64; nodes]?;
        let mut balance = vec![in alloc; 0u64; nodes]?;
        let mut degree = vec![in alloc; 0u32; nodes + 1]?;
        let mut last = 0;
        let mut is_by_node = true;
        let mut has_pairs = false;
        let mut total: u64 = 0;
        let mut most: u64 = 0;
        for arc in 0..net.arc_count() {
            let (tail, head) = (net.tail(arc), net.head(arc));
            let capacity = net.capacity(arc);
            let is_paired = net.is_paired(arc);
            is_by_node = is_by_node && last <= tail;
            last = tail;
            degree[tail + 1] = degree[tail + 1].saturating_add(1);
            total = total.saturating_add(capacity);
            most = most.max(capacity);
            balance[head] = balance[head].wrapping_add(capacity);
            if is_paired {
                balance[tail] = balance[tail].wrapping_sub(capacity);
                has_pairs = true;
            } else {
                source[head] = source[head].saturating_add(capacity);
            }
        }
        Ok(Survey {
            degree,
            is_by_node,
            has_pairs,
            source,
            balance,
            total,
            most,
        })
    }

    /// Returns whether there are arcs between free nodes, and no sum of capacities is too large for its type.
    pub fn is_fit(&self) -> bool {
        self.has_pairs && self.total <= MOST_IN_ALL
    }

    /// Returns whether the residual capacity of each arc fits in 32 bits.
    pub fn is_narrow(&self) -> bool {
        self.most <= MOST_OF_FEW
    }

    /// Returns whether a node would have a negative balance if every arc were full.
    pub fn owes(&self) -> bool {
        self.balance.iter().any(|amount| *amount >= SIGN)
    }
}
