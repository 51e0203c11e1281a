//! Finds the twins of half edges. No clause depends on it, since twins are verified afterwards.
//!
//! Half edges are sorted by their edge. Two that run opposite ways along an edge with two faces are twins. Where more faces meet, they
//! are ordered around the edge by exact orientations, and each that leaves the solid is paired with the one that entered it last.

use crate::NoMemory;
use crate::wings::{Wing, wings_of};
use geo_sign::Point;
use std::alloc::Global;

/// A half edge, by the numbers of its vertices, the smaller first, and whether it goes from that one.
#[derive(Clone, Copy)]
pub(crate) struct Half {
    pub(crate) key: u64,
    pub(crate) number: u32,
    pub(crate) rises: bool,
}

fn half_of(from: u32, to: u32, number: u32) -> Half {
    let (low, high) = (from.min(to), from.max(to));
    Half {
        key: u64::from(low) << 32 | u64::from(high),
        number,
        rises: from < to,
    }
}

/// Returns the half edges of all faces, sorted by edge.
fn halves_of(alloc: Global, faces: &[[u32; 3]]) -> Result<Vec<Half>, NoMemory> {
    let mut halves = Vec::with_capacity(alloc, faces.len().saturating_mul(3))?;
    let mut number = 0u32;
    for face in faces {
        let [a, b, c] = *face;
        halves.push(half_of(a, b, number))?;
        halves.push(half_of(b, c, number.saturating_add(1)))?;
        halves.push(half_of(c, a, number.saturating_add(2)))?;
        number = number.saturating_add(3);
    }
    halves.sort_unstable_by_key(|half| half.key);
    Ok(halves)
}

/// Makes two half edges twins.
fn link(twins: &mut [u32], one: u32, other: u32) {
    if (one as usize) < twins.len() {
        twins[one as usize] = other;
    }
    if (other as usize) < twins.len() {
        twins[other as usize] = one;
    }
}

/// Pairs half edges in their order around an edge: each that rises with the last one before it that falls and is not paired yet. The
/// order is a circle, so those that rise before all that fall are paired at the end.
fn link_wedges(alloc: Global, order: &[Wing], twins: &mut [u32]) -> Result<(), NoMemory> {
    let mut waiting: Vec<u32> = Vec::new(alloc);
    let mut early: Vec<u32> = Vec::new(alloc);
    for wing in order {
        if !wing.rises {
            waiting.push(wing.number)?;
        } else if let Some(last) = waiting.pop() {
            link(twins, wing.number, last);
        } else {
            early.push(wing.number)?;
        }
    }
    for number in &early {
        if let Some(last) = waiting.pop() {
            link(twins, *number, last);
        }
    }
    Ok(())
}

/// Pairs the half edges of one edge.
fn link_run(
    alloc: Global,
    points: &[Point],
    faces: &[[u32; 3]],
    run: &[Half],
    twins: &mut [u32],
) -> Result<(), NoMemory> {
    if let [one, other] = run {
        if one.rises != other.rises {
            link(twins, one.number, other.number);
        }
        return Ok(());
    }
    let order = wings_of(alloc, points, faces, run)?;
    link_wedges(alloc, &order, twins)
}

/// Pairs the half edges of each edge.
fn link_all(
    alloc: Global,
    points: &[Point],
    faces: &[[u32; 3]],
    halves: &[Half],
    twins: &mut [u32],
) -> Result<(), NoMemory> {
    let mut run: Vec<Half> = Vec::new(alloc);
    let mut key = 0u64;
    for half in halves {
        if half.key != key {
            link_run(alloc, points, faces, &run, twins)?;
            run.clear();
        }
        key = half.key;
        run.push(*half)?;
    }
    link_run(alloc, points, faces, &run, twins)
}

/// Returns the twin of each half edge before umbrellas are divided, unverified: a hint. Those for which none is found get the greatest number.
pub fn find_twins(
    alloc: Global,
    points: &[Point],
    faces: &[[u32; 3]],
) -> Result<Vec<u32>, NoMemory> {
    let halves = halves_of(alloc, faces)?;
    let mut twins = vec![in alloc; u32::MAX; halves.len()]?;
    link_all(alloc, points, faces, &halves, &mut twins)?;
    Ok(twins)
}
