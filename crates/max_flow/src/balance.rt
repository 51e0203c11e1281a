//! What enters and what leaves each node over arcs. It depends on `flow_net` alone.
//!
//! Fewer than 2^64 amounts, each below 2^64, are added up, so no sum of 128 bits wraps. If all amounts together are at most
//! 2^62, as they nearly always are, one sum of 64 bits a node is enough to test the balance, and takes a quarter of the memory.

ghost use Rattle.std.specs.Prelude.{◌≡◌, length, IfOk, IfSome};
ghost use Rattle.max_flow.specs.Totals.{AreTotals, AreExcesses};

use crate::NoMemory;
use flow_net::{Flow, FlowNetwork};
use std::alloc::Global;

/// What enters each node over arcs, and what leaves it over arcs.
#[derive(Debug, Drop)]
pub struct Totals {
    /// What enters each node.
    pub entering: Vec<u128>,
    /// What leaves each node.
    pub leaving: Vec<u128>,
}

/// Adds up what enters and what leaves each node over arcs, in one pass over the arcs.
pub fn add_up<N: FlowNetwork>(alloc: Global, net: &N, flow: &Flow) -> Result<Totals, NoMemory>
    requires { length flow.now.on_arc ≡ (N.numbered net.now).arc_count }
    ensures { IfOk result (AreTotals (N.numbered net.now) flow.now) }
{
    let amounts = flow.on_arc.as_slice();
    let nodes = net.node_count();
    let mut entering = vec![in alloc; 0u128; nodes]?;
    let mut leaving = vec![in alloc; 0u128; nodes]?;
    for (arc, flowing) in amounts.iter().enumerate() {
        let amount = u128::from(*flowing);
        let head = net.head(arc);
        let tail = net.tail(arc);
        entering[head] += amount;
        leaving[tail] += amount;
    }
    Ok(Totals { entering, leaving })
}

/// The excess at which each node begins, so that no sum is negative: 2^62. The amounts together may be as large.
pub const EVEN: u64 = 4_611_686_018_427_387_904;

/// Adds up, in one pass over the arcs, what enters each node less what leaves it over arcs, beginning at [`EVEN`]. `None` if
/// the amounts together exceed it.
pub fn excesses<N: FlowNetwork>(
    alloc: Global,
    net: &N,
    flow: &Flow,
) -> Result<Option<Vec<u64>>, NoMemory>
    requires { length flow.now.on_arc ≡ (N.numbered net.now).arc_count }
    ensures { IfOk result (λ answer. IfSome answer (λ sums. AreExcesses (N.numbered net.now) flow.now sums.items)) }
{
    let mut sums = vec![in alloc; EVEN; net.node_count()]?;
    let mut left = EVEN;
    for (arc, flowing) in flow.on_arc.as_slice().iter().enumerate() {
        let amount = *flowing;
        if amount > left {
            return Ok(None);
        }
        left -= amount;
        // Most arcs have no flow, and their ends need not be looked up.
        if amount > 0 {
            let head = net.head(arc);
            let tail = net.tail(arc);
            sums[head] += amount;
            sums[tail] -= amount;
        }
    }
    Ok(Some(sums))
}
