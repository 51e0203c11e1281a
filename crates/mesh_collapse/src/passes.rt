//! Passes over all vertices, each with a limit of cost.

use crate::NoMemory;
use crate::collapse::{Work, cheapest_of, cost_of, try_edge};
use crate::fan::Fan;
use crate::order::short;
use crate::pack::pack_if_sparse;
use std::alloc::Global;
use std::num::{f64_from_bits_with_nan, f64_to_bits_with_nan};

/// The most passes.
const PASSES: usize = 300;

/// How many collapses of a vertex are tried in a pass.
const TRIES: usize = 3;

/// Which part of the vertices a pass takes, in 64ths.
const PART: usize = 16;

/// All of the vertices, in 64ths.
const ALL: usize = 64;

/// Vertices move from this many times the faces on that are to be left: before that it takes longer, and brings little.
const LATE: usize = 6;

/// A pass that collapses fewer than one vertex of this many makes the next one take a greater part.
const FEW: usize = 50;

/// Returns whether so few faces are left that no collapse may follow.
fn is_enough(work: &Work, least: usize) -> bool {
    work.surface.live <= least.saturating_add(1)
}

/// Returns the costs of all vertices that can collapse, as numbers in the same order.
fn codes_of(alloc: Global, work: &mut Work) -> Result<Vec<u64>, NoMemory> {
    let count = work.surface.places.len();
    let mut codes = Vec::with_capacity(alloc, count)?;
    for u in 0..count {
        let cost = cost_of(work, short(u));
        if cost < f64::INFINITY {
            codes.push(f64_to_bits_with_nan(cost))?;
        }
    }
    Ok(codes)
}

/// Returns the cost that a part of these costs are at most, or a number of them if that is less.
fn limit_of(codes: &mut [u64], need: usize, part: usize) -> Option<f64> {
    let many = (codes.len() / ALL).saturating_mul(part);
    let k = many.min(need.saturating_sub(1));
    if k >= codes.len() {
        return None;
    }
    let (_, limit, _) = codes.select_nth_unstable(k);
    Some(f64_from_bits_with_nan(*limit))
}

/// Tries to collapse a vertex, while that costs no more than a limit.
fn try_vertex(work: &mut Work, fan: &mut Fan, u: u32, limit: f64) -> Result<(), NoMemory> {
    for _ in 0..TRIES {
        let cost = cost_of(work, u);
        if !(cost <= limit) {
            return Ok(());
        }
        let candidate = cheapest_of(work, u, cost);
        if try_edge(work, fan, candidate)? {
            return Ok(());
        }
        if (u as usize) < work.floors.len() {
            work.floors[u as usize] = cost;
        }
        if (u as usize) < work.costs.len() {
            work.costs[u as usize] = -1.0;
        }
    }
    Ok(())
}

/// Passes over all vertices.
fn make_pass(work: &mut Work, fan: &mut Fan, least: usize, limit: f64) -> Result<(), NoMemory> {
    for u in 0..work.surface.places.len() {
        if is_enough(work, least) {
            return Ok(());
        }
        try_vertex(work, fan, short(u), limit)?;
    }
    Ok(())
}

/// Begins to move vertices, and forgets what collapses without that cost.
fn begin_places(work: &mut Work) {
    work.places = true;
    work.costs.fill(-1.0);
    work.floors.fill(-1.0);
}

/// Begins to move vertices, if they move at all and few faces are left.
fn begin_if_few(work: &mut Work, least: usize) {
    let few = least == 0 || work.surface.live / LATE <= least;
    if work.lists.moves && !work.places && few {
        begin_places(work);
    }
}

/// Begins to move vertices, if they move at all and have not moved yet, and returns whether that is so.
fn begin_at_end(work: &mut Work) -> bool {
    let begins = work.lists.moves && !work.places;
    if begins {
        begin_places(work);
    }
    begins
}

/// Makes passes until few enough faces are left, or none can go.
pub(crate) fn make_passes(
    alloc: Global,
    work: &mut Work,
    fan: &mut Fan,
    least: usize,
) -> Result<(), NoMemory> {
    let mut part = PART;
    for _ in 0..PASSES {
        if is_enough(work, least) {
            return Ok(());
        }
        begin_if_few(work, least);
        let before = work.surface.live;
        let need = before.saturating_sub(least) / 2;
        let mut codes = codes_of(alloc, work)?;
        let Some(limit) = limit_of(&mut codes, need, part) else {
            if begin_at_end(work) {
                continue;
            }
            return Ok(());
        };
        make_pass(work, fan, least, limit)?;
        let gone = before.saturating_sub(work.surface.live) / 2;
        if gone == 0 && part >= ALL && !begin_at_end(work) {
            return Ok(());
        }
        part = if gone < work.surface.places.len() / FEW {
            ALL.min(part.saturating_add(part / 2))
        } else {
            PART
        };
        pack_if_sparse(alloc, work)?;
    }
    Ok(())
}
