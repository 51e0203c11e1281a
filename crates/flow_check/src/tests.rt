//! A network and its flow, checked.

use crate::{Verdict, check_flow};
use flow_net::{Arc, Flow, Labels, Net, Sequence};
use std::alloc::Global;
use std::test::Fail;

/// Returns the network of a fixed node that feeds a free one.
fn fed(alloc: Global) -> Result<Option<Net>, Fail> {
    let arc = Arc {
        from: 0,
        to: 1,
        cap: 3,
        pair: None,
    };
    let fixed = vec![in alloc; true, false]?;
    let sinks = vec![in alloc; 0, 5]?;
    Ok(Net::try_new(fixed, sinks, vec![in alloc; arc]?))
}

/// Returns whether a flow of this amount shows that the free node is inside.
fn is_shown(alloc: Global, net: &Net, amount: u64) -> Result<bool, Fail> {
    let labels = Labels {
        inside: Sequence::from(vec![in alloc; false, true]?),
    };
    let flow = Flow {
        on_arc: Sequence::from(vec![in alloc; amount]?),
        on_sink: Sequence::from(vec![in alloc; 0, amount]?),
    };
    if net.fixed.as_slice().len() != 2 || net.arcs.len() != 1 {
        return Ok(false);
    }
    Ok(check_flow(alloc, net, &labels, &flow)? == Verdict::Yes)
}

#[test]
fn a_largest_flow_is_answered_by_yes(rt: HostRuntime) -> Result<(), Fail> {
    let net = fed(rt.alloc())?.ok_or("a network")?;
    if is_shown(rt.alloc(), &net, 3)? && !is_shown(rt.alloc(), &net, 2)? {
        Ok(())
    } else {
        Err(Fail::from("another verdict"))
    }
}
