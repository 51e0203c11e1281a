//! Hints for networks with known maximum flows, and the levels of a flow. Contracts state only that they are returned.

ghost use Rattle.std.specs.Prelude.{◌≡◌, length, IfOk};

use super::flow_networks::three_nodes;
use flow_hint::{Hint, find_hint, find_hint_above, find_hint_on};
use flow_net::{Flow, NetBuilder, Sequence};
use max_flow::find_levels;
use std::alloc::Global;
use std::test::Fail;
use watch::Silent;

/// Capacities of three nodes with the sinks 1, 3 and 5, the maximum flow, and which nodes reach a sink with residual capacity.
#[derive(Clone, Copy)]
struct Known {
    name: &'static str,
    capacities: (u64, u64, u64),
    on_arc: [u64; 3],
    on_sink: [u64; 3],
    is_found: [bool; 3],
}

const SMALL: [Known; 3] = [
    Known {
        name: "all but one of what is given",
        capacities: (4, 2, 2),
        on_arc: [3, 2, 0],
        on_sink: [1, 2, 0],
        is_found: [false, true, false],
    },
    Known {
        name: "a node that would owe",
        capacities: (1, 5, 0),
        on_arc: [1, 0, 0],
        on_sink: [1, 0, 0],
        is_found: [true, true, false],
    },
    Known {
        name: "nothing is given",
        capacities: (0, 2, 2),
        on_arc: [0, 0, 0],
        on_sink: [0, 0, 0],
        is_found: [true, true, false],
    },
];

/// Returns whether a hint is as known.
fn is_as_known(hint: &Hint, known: &Known) -> bool {
    hint.flow.on_arc.as_slice() == known.on_arc.as_slice()
        && hint.flow.on_sink.as_slice() == known.on_sink.as_slice()
        && hint.levels.is_found.as_slice() == known.is_found.as_slice()
}

/// Returns whether the hint at a network is.
fn is_hinted(alloc: Global, known: &Known) -> Result<bool, Fail> {
    let net = three_nodes(alloc, 3, known.capacities)?;
    let hint = find_hint(alloc, &net, &mut Silent)?.ok_or("no hint")?;
    Ok(is_as_known(&hint, known))
}

#[test]
fn small_networks_have_their_largest_flows(rt: HostRuntime) -> Result<(), Fail> {
    for known in SMALL.as_slice() {
        if !is_hinted(rt.alloc(), known)? {
            return Err(Fail::from(known.name));
        }
    }
    Ok(())
}

/// What is listed at sinks before a hint is computed, and the flow into them.
const LISTED: [(&str, [u64; 3], [u64; 3]); 4] = [
    ("all is listed", [1, 1, 0], [1, 1, 0]),
    ("all is listed at one node", [0, 2, 0], [0, 2, 0]),
    ("some is listed", [1, 0, 0], [1, 1, 0]),
    ("more than comes", [5, 7, 9], [1, 1, 0]),
];

/// Returns whether the hint above a list leaves these amounts at the sinks.
fn is_hinted_above(alloc: Global, first: [u64; 3], on_sink: [u64; 3]) -> Result<bool, Fail> {
    let net = three_nodes(alloc, 3, (2, 2, 2))?;
    let found = find_hint_above(alloc, &net, &first, &mut Silent)?.ok_or("no hint")?;
    Ok(found.0.flow.on_sink.as_slice() == on_sink.as_slice())
}

#[test]
fn no_less_comes_to_a_sink_than_is_listed(rt: HostRuntime) -> Result<(), Fail> {
    for (name, first, on_sink) in LISTED {
        if !is_hinted_above(rt.alloc(), first, on_sink)? {
            return Err(Fail::from(name));
        }
    }
    Ok(())
}

const WIDE: u64 = 4_294_967_296;

/// Capacities increased from 10, 1 and 1, and the flow into the sinks.
const RISEN: [(&str, (u64, u64, u64), [u64; 3]); 5] = [
    ("nothing has risen", (10, 1, 1), [1, 1, 0]),
    ("a pair has risen", (10, 2, 2), [1, 2, 0]),
    ("all sinks are full", (10, 5, 5), [1, 3, 0]),
    ("more than 32 bits", (10, WIDE, WIDE), [1, 3, 0]),
    ("more is given", (WIDE, 2, 2), [1, 2, 0]),
];

/// Returns whether the hint that resumes with these capacities leaves these amounts at the sinks. Ten enter the node with sink
/// 1; of these, the capacity of the arc flows to the node with sink 3.
fn is_hinted_on(
    alloc: Global,
    capacities: (u64, u64, u64),
    on_sink: [u64; 3],
) -> Result<bool, Fail> {
    let before = three_nodes(alloc, 3, (10, 1, 1))?;
    let net = three_nodes(alloc, 3, capacities)?;
    let (_hint, kept) = find_hint_above(alloc, &before, &[], &mut Silent)?.ok_or("no hint")?;
    let found = find_hint_on(alloc, &net, kept)?.ok_or("no hint on it")?;
    Ok(found.0.flow.on_sink.as_slice() == on_sink.as_slice())
}

#[test]
fn a_hint_goes_on_where_capacities_have_risen(rt: HostRuntime) -> Result<(), Fail> {
    for (name, capacities, on_sink) in RISEN {
        if !is_hinted_on(rt.alloc(), capacities, on_sink)? {
            return Err(Fail::from(name));
        }
    }
    Ok(())
}

/// Returns a flow over three nodes.
fn flow_of(alloc: Global, on_arc: [u64; 3], on_sink: [u64; 3]) -> Result<Flow, Fail>
    ensures arcs { IfOk result (λ flow. length flow.on_arc ≡ 3) }
    ensures sinks { IfOk result (λ flow. length flow.on_sink ≡ 3) }
{
    Ok(Flow {
        on_arc: Sequence::from(Vec::from_array(alloc, on_arc)?),
        on_sink: Sequence::from(Vec::from_array(alloc, on_sink)?),
    })
}

/// Returns whether these nodes reach a sink with residual capacity by this flow, and node 0 has level 1 if it does. Levels
/// count arcs between free nodes: node 2 is fixed and has none.
fn is_at_levels(
    alloc: Global,
    on_arc: [u64; 3],
    on_sink: [u64; 3],
    is_found: [bool; 3],
) -> Result<bool, Fail> {
    let net = three_nodes(alloc, 3, (4, 2, 2))?;
    let flow = flow_of(alloc, on_arc, on_sink)?;
    let levels = find_levels(alloc, &net, &flow)?.ok_or("no levels")?;
    Ok(
        levels.is_found.as_slice() == is_found.as_slice()
            && (!is_found[0] || levels.level.first() == Some(&1))
            && levels.level.get(1) == Some(&0),
    )
}

#[test]
fn levels_count_the_arcs_to_a_sink_with_room(rt: HostRuntime) -> Result<(), Fail> {
    for (name, on_arc, on_sink, is_found) in [
        ("a full arc", [3, 2, 0], [1, 2, 0], [false, true, false]),
        (
            "room behind an arc",
            [2, 1, 0],
            [1, 1, 0],
            [true, true, false],
        ),
    ] {
        if !is_at_levels(rt.alloc(), on_arc, on_sink, is_found)? {
            return Err(Fail::from(name));
        }
    }
    Ok(())
}

const LIMIT: u64 = 1_152_921_504_606_846_976;

/// Returns whether there is a hint if all capacities are the limit.
fn has_hint_at_the_limit(alloc: Global) -> Result<bool, Fail> {
    let net = three_nodes(alloc, 3, (LIMIT, LIMIT, LIMIT))?;
    Ok(find_hint(alloc, &net, &mut Silent)?.is_some())
}

/// Returns whether there is one if a node receives the limit five times.
fn has_hint_beyond(alloc: Global) -> Result<bool, Fail> {
    let mut builder = NetBuilder::new(alloc);
    let outer = builder.add_fixed()?;
    let inner = builder.add_free(1)?;
    for _ in 0..5u32 {
        builder.feed(outer, inner, LIMIT)?;
    }
    let net = builder.build();
    Ok(find_hint(alloc, &net, &mut Silent)?.is_some())
}

#[test]
fn there_is_no_hint_where_sums_could_be_too_large(rt: HostRuntime) -> Result<(), Fail> {
    if !has_hint_at_the_limit(rt.alloc())? {
        return Err(Fail::from("none within the limit"));
    }
    if has_hint_beyond(rt.alloc())? {
        return Err(Fail::from("a hint beyond the limit"));
    }
    Ok(())
}
