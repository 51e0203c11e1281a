//! The test whether parts make a valid network. It depends on `Arc` alone.

ghost use Rattle.std.specs.Prelude.{◌↔◌, ◌≤◌, ◌^◌, IsTrue, slice_index, EachIndex};
ghost use Rattle.flow_net.specs.Nets.{AreValidArcs, IsReverseArc, IsValidArc, IsValidNet};

use crate::{AMOUNT_LIMIT, Arc};

/// Whether `other` is the reverse of `arc`, which has number `place`, and names it back.
fn is_reverse(arc: &Arc, place: usize, other: &Arc) -> bool
    ensures { IsTrue result ↔ IsReverseArc arc.now place other.now }
{
    other.from == arc.to && other.to == arc.from && other.pair == Some(place)
}

/// Whether `arc`, which has number `place`, fits its network.
fn is_valid_arc(fixed: &[bool], arcs: &[Arc], place: usize, arc: &Arc) -> bool
    ensures { IsTrue result ↔ IsValidArc fixed.now arcs.now place arc.now }
{
    if arc.from >= fixed.len() || arc.to >= fixed.len() || arc.from == arc.to {
        return false;
    }
    if fixed[arc.to] || arc.cap > AMOUNT_LIMIT {
        return false;
    }
    match arc.pair {
        None => fixed[arc.from],
        Some(other) => {
            !fixed[arc.from] && other < arcs.len() && is_reverse(arc, place, &arcs[other])
        }
    }
}

/// Whether each arc fits its network.
fn are_valid_arcs(fixed: &[bool], arcs: &[Arc]) -> bool
    ensures { IsTrue result ↔ AreValidArcs fixed.now arcs.now }
{
    for (place, arc) in arcs.iter().enumerate() {
        if !is_valid_arc(fixed, arcs, place, arc) {
            return false;
        }
    }
    true
}

/// Whether no sink is more than the limit.
fn are_small(sink: &[u64]) -> bool
    ensures { IsTrue result ↔ EachIndex sink.now (λ v. slice_index sink.now v ≤ 2 ^ 60) }
{
    sink.iter().all(|amount| *amount <= AMOUNT_LIMIT)
}

/// Whether the parts make a valid network.
pub fn are_valid(fixed: &[bool], sink: &[u64], arcs: &[Arc]) -> bool
    ensures { IsTrue result ↔ IsValidNet fixed.now sink.now arcs.now }
{
    sink.len() == fixed.len() && are_small(sink) && are_valid_arcs(fixed, arcs)
}
