//! The networks of the tests.
ghost use Rattle.std.specs.Prelude.{◌≡◌, length, IfOk};

use flow_net::{Arc, Net, NetBuilder};
use std::alloc::{AllocError, Global};
use std::test::Fail;

/// Returns an arc of this capacity.
pub const fn arc(from: usize, to: usize, cap: u64, pair: Option<usize>) -> Arc {
    Arc {
        from,
        to,
        cap,
        pair,
    }
}

/// Returns the free nodes 0 and 1, joined by arcs in both directions, and the fixed node 2, with an arc to node 0. The
/// capacities are those of the arc from node 2, of the arc from 0 to 1 and of its reverse, and the sinks 1, `sink` and 5.
pub fn three_nodes(alloc: Global, sink: u64, capacities: (u64, u64, u64)) -> Result<Net, Fail>
    ensures nodes { IfOk result (λ net. length net.fixed ≡ 3) }
    ensures arcs { IfOk result (λ net. length net.arcs ≡ 3) }
{
    let (given, there, back) = capacities;
    let fixed = vec![in alloc; false, false, true]?;
    let sinks = vec![in alloc; 1, sink, 5]?;
    let arcs = vec![in alloc;
        arc(2, 0, given, None),
        arc(0, 1, there, Some(2)),
        arc(1, 0, back, Some(1)),
    ]?;
    if !Net::is_valid(&fixed, &sinks, &arcs) {
        return Err(Fail::from("the network"));
    }
    Ok(Net::new(fixed, sinks, arcs))
}

/// Returns a number below `bound` from a linear congruential generator.
fn random(state: &mut u64, bound: u64) -> u64 {
    *state = state
        .wrapping_mul(6_364_136_223_846_793_005)
        .wrapping_add(1_442_695_040_888_963_407);
    (*state >> 33).checked_rem(bound).unwrap_or(0)
}

/// The parameters of a random network.
#[derive(Clone, Copy)]
pub struct Kind {
    pub nodes: u64,
    /// The number of pairs of nodes that get arcs, if arcs may join them.
    pub pairs: u64,
    /// One node in this number is fixed.
    pub one_fixed_of: u64,
    /// Each sink is below this.
    pub sinks_below: u64,
    /// Each capacity is below this, and then multiplied.
    pub capacities_below: u64,
    pub times: u64,
}

/// Returns a random network of a kind. The same state gives the same arcs for any factor of the capacities.
pub fn random_net(alloc: Global, state: &mut u64, kind: Kind) -> Result<Net, AllocError> {
    let mut builder = NetBuilder::new(alloc);
    for _ in 0..kind.nodes {
        let sink = random(state, kind.sinks_below);
        if random(state, kind.one_fixed_of) == 0 || builder.add_free(sink).is_err() {
            builder.add_fixed()?;
        }
    }
    for _ in 0..kind.pairs {
        let first = random(state, kind.nodes) as usize;
        let second = random(state, kind.nodes) as usize;
        let there = random(state, kind.capacities_below).wrapping_mul(kind.times);
        let back = random(state, kind.capacities_below).wrapping_mul(kind.times);
        if builder.join(first, second, there, back).is_err()
            && builder.feed(first, second, there).is_err()
        {
            // no arc may enter a fixed node, and none leads from a node to itself
            continue;
        }
    }
    Ok(builder.build())
}

/// Adds to an entry of a list.
fn add(list: &mut Vec<u64>, index: usize, amount: u64) {
    if index < list.len() {
        list[index] = list[index].saturating_add(amount);
    }
}

/// Returns a row of 40 free nodes between two fixed ones, with sights from both ends that end anywhere in it, each with weight
/// 8, and capacities increased by `smooth`.
pub fn row_with_sights(alloc: Global, state: &mut u64, smooth: u64) -> Result<Net, Fail> {
    let mut sinks = vec![in alloc; 0u64; 42]?;
    let mut there = vec![in alloc; smooth; 41]?;
    let mut back = vec![in alloc; smooth; 41]?;
    for _ in 0..30 {
        let crossed = (random(state, 39) as usize).wrapping_add(1);
        let is_from_first = random(state, 2) == 0;
        for step in 0..crossed {
            if is_from_first {
                add(&mut there, step, 8);
            } else {
                add(&mut back, 40usize.saturating_sub(step), 8);
            }
        }
        let behind = if is_from_first {
            crossed
        } else {
            41usize.saturating_sub(crossed)
        };
        add(&mut sinks, behind, 8);
    }
    joined_in_a_row(alloc, &sinks, &there, &back)
}

/// Returns a row of nodes with these sinks and capacities; the first and the last are fixed.
fn joined_in_a_row(alloc: Global, sinks: &[u64], there: &[u64], back: &[u64]) -> Result<Net, Fail> {
    let last = sinks.len().saturating_sub(1);
    let mut builder = NetBuilder::new(alloc);
    for (node, sink) in sinks.iter().enumerate() {
        if node == 0 || node == last {
            builder.add_fixed()?;
        } else {
            builder.add_free(*sink)?;
        }
    }
    for (first, (cap, cap_back)) in there.iter().zip(back).enumerate() {
        let second = first.wrapping_add(1);
        if first == 0 {
            builder.feed(first, second, *cap)?;
        } else if second == last {
            builder.feed(second, first, *cap_back)?;
        } else {
            builder.join(first, second, *cap, *cap_back)?;
        }
    }
    Ok(builder.build())
}
