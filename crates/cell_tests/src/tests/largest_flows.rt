//! Networks of many kinds, in which the value of the flow is the cost of the labels, and flows that are resumed after
//! capacities increase.

use super::flow_networks::{Kind, random_net, row_with_sights};
use flow_hint::Hinting;
use flow_net::{Net, NetBuilder, cost, value};
use max_flow::{
    is_valid_flow, least_inside, minimum_cut, minimum_cut_above, minimum_cut_and_preflow, resume,
    solve,
};
use std::alloc::Global;
use std::test::Fail;
use watch::Silent;

/// The largest capacity and the largest sink, 2^60.
const LIMIT: u64 = 1_152_921_504_606_846_976;

const MIDDLE: Kind = Kind {
    nodes: 30,
    pairs: 100,
    one_fixed_of: 4,
    sinks_below: 6,
    capacities_below: 5,
    times: 1,
};

/// Returns whether the value of a flow is the cost of the labels, and labels are the same without hints. No flow has a larger value
/// than the cost of any labels, so both are optimal then.
fn is_worth_its_cut(alloc: Global, net: &Net) -> Result<bool, Fail> {
    let (flow, labels) = minimum_cut(alloc, net, &mut Hinting { watch: Silent })?;
    let (_flow, plain) = minimum_cut(alloc, net, &mut Silent)?;
    Ok(
        is_valid_flow(alloc, net, &flow)?
            && value(net, &flow) == cost(net, &labels)
            && plain.inside.as_slice() == labels.inside.as_slice(),
    )
}

const KINDS: [(&str, Kind); 7] = [
    ("many sinks", MIDDLE),
    (
        "little smoothing",
        Kind {
            sinks_below: 3,
            capacities_below: 2,
            times: 7,
            ..MIDDLE
        },
    ),
    (
        "no fixed node",
        Kind {
            one_fixed_of: u64::MAX,
            ..MIDDLE
        },
    ),
    (
        "no sink with room",
        Kind {
            sinks_below: 1,
            ..MIDDLE
        },
    ),
    (
        "no capacity",
        Kind {
            capacities_below: 1,
            ..MIDDLE
        },
    ),
    (
        "nothing or the limit",
        Kind {
            sinks_below: 9,
            capacities_below: 2,
            times: LIMIT,
            ..MIDDLE
        },
    ),
    (
        "ten thousand arcs",
        Kind {
            nodes: 1000,
            pairs: 6000,
            one_fixed_of: 8,
            ..MIDDLE
        },
    ),
];

/// Tests fifteen networks of a kind.
fn are_worth_their_cuts(alloc: Global, state: &mut u64, kind: Kind) -> Result<bool, Fail> {
    for _ in 0..15u32 {
        let net = random_net(alloc, state, kind)?;
        if !is_worth_its_cut(alloc, &net)? {
            return Ok(false);
        }
    }
    Ok(true)
}

/// Tests ten rows with this area weight.
fn are_rows_worth_their_cuts(alloc: Global, state: &mut u64, smooth: u64) -> Result<bool, Fail> {
    for _ in 0..10u32 {
        let net = row_with_sights(alloc, state, smooth)?;
        if !is_worth_its_cut(alloc, &net)? {
            return Ok(false);
        }
    }
    Ok(true)
}

#[test]
fn as_much_flows_as_the_labels_cost(rt: HostRuntime) -> Result<(), Fail> {
    let mut state: u64 = 11;
    for (name, kind) in KINDS {
        if !are_worth_their_cuts(rt.alloc(), &mut state, kind)? {
            return Err(Fail::from(name));
        }
    }
    for smooth in [0, 1, 65_535] {
        if !are_rows_worth_their_cuts(rt.alloc(), &mut state, smooth)? {
            return Err(Fail::from("a row"));
        }
    }
    Ok(())
}

/// Returns the values of a maximum flow of one network in another, with the same arcs and no smaller capacities: resumed with
/// its preflow, and without.
fn gone_on(alloc: Global, before: &Net, net: &Net) -> Result<[u128; 2], Fail> {
    let mut hints = Hinting { watch: Silent };
    let (mut flow, _labels, mut kept) = minimum_cut_and_preflow(alloc, before, &mut hints)?;
    if !is_valid_flow(alloc, net, &flow)? {
        return Err(Fail::from("a flow that is none where capacities rise"));
    }
    let above = minimum_cut_above(alloc, net, &flow, &mut kept, &mut hints)?;
    resume(alloc, net, &mut flow)?;
    Ok([value(net, &above.0), value(net, &flow)])
}

/// Returns whether both values are that of a flow that is computed from scratch, on a network whose capacities double.
fn goes_on(alloc: Global, state: &mut u64) -> Result<bool, Fail> {
    let mut again = *state;
    let before = random_net(alloc, state, MIDDLE)?;
    let net = random_net(alloc, &mut again, Kind { times: 2, ..MIDDLE })?;
    let anew = value(&net, &solve(alloc, &net)?);
    Ok(gone_on(alloc, &before, &net)? == [anew; 2])
}

#[test]
fn a_largest_flow_goes_on_where_capacities_rise(rt: HostRuntime) -> Result<(), Fail> {
    let mut state: u64 = 3;
    for _ in 0..100u32 {
        if !goes_on(rt.alloc(), &mut state)? {
            return Err(Fail::from("another value"));
        }
    }
    Ok(())
}

#[test]
fn example_of_max_flow(rt: HostRuntime) -> Result<(), Fail> {
    let mut builder = NetBuilder::new(rt.alloc());
    let outside = builder.add_fixed()?;
    let near = builder.add_free(0)?;
    let far = builder.add_free(9)?;
    builder.feed(outside, near, 5)?;
    builder.join(near, far, 3, 0)?;
    let net = builder.build();
    let flow = solve(rt.alloc(), &net)?;
    assert_eq!(rt; value(&net, &flow), 3);
    let labels = least_inside(rt.alloc(), &net, &flow)?;
    assert_eq!(rt; labels.inside.as_slice(), [false, false, true].as_slice());
    Ok(())
}
