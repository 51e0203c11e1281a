//! Nodes at which a flow is not balanced. It depends on the totals of `max_flow`.

ghost use Rattle.std.specs.Prelude.{◌≡◌, length, IfSome, IfNone};
ghost use Rattle.flow_net.specs.Flows.{amount_in};
ghost use Rattle.flow_net.specs.Firsts.{IsFirst, NoneBelow};
ghost use Rattle.max_flow.specs.Totals.{AreTotals};
ghost use Rattle.flow_net.specs.Flows.{numbered_of};
ghost use Rattle.flow_check.specs.Verdicts.{IsUnbalanced, total_out};

use flow_net::{Flow, Net};
use max_flow::Totals;

/// A free node that a flow enters with another amount than it leaves.
#[derive(Clone, Copy, Debug, PartialEq, Eq)]
pub struct Unbalance {
    pub node: usize,
    /// What enters the node over arcs.
    pub amount_in: u128,
    /// What leaves the node over arcs and at its sink.
    pub amount_out: u128,
}

/// The first free node that is not balanced, if there is one.
pub fn unbalanced(net: &Net, flow: &Flow, totals: &Totals) -> Option<Unbalance>
    requires nodes { length flow.now.on_sink ≡ length net.now.fixed }
    requires totals { AreTotals (numbered_of net.now) flow.now totals.now }
    ensures first { IfSome result (λ found. IsFirst (length net.now.fixed) (IsUnbalanced net.now flow.now) found.node) }
    ensures amount_in { IfSome result (λ found. found.amount_in ≡ amount_in net.now.arcs flow.now.on_arc found.node) }
    ensures amount_out { IfSome result (λ found. found.amount_out ≡ total_out net.now flow.now found.node) }
    ensures none { IfNone result (NoneBelow (length net.now.fixed) (IsUnbalanced net.now flow.now)) }
{
    let fixed = net.fixed.as_slice();
    let sent = flow.on_sink.as_slice();
    for node in 0..fixed.len() {
        let amount_in = totals.entering[node];
        let amount_out = totals.leaving[node] + u128::from(sent[node]);
        if !fixed[node] && amount_in != amount_out {
            return Some(Unbalance {
                node,
                amount_in,
                amount_out,
            });
        }
    }
    None
}
