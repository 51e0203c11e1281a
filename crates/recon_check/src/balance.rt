//! Cells at which a flow is not conserved. It depends on the totals of `max_flow`.

ghost use Rattle.std.specs.Prelude.{◌≡◌, ◌<◌, ◌≤◌, ◌⊎◌, Some, IfOk, IfSome, IfNone, length};
ghost use Rattle.flow_net.specs.Firsts.{NoneBelow};
ghost use Rattle.max_flow.specs.Totals.{AreTotals};
ghost use Rattle.cell_net.specs.Gathered.{row_key};
ghost use Rattle.recon_check.specs.ByRows.{numbers, IsUnbalanced, IsUnbalanceAt, IsLeastUnbalance};

use crate::NoMemory;
use cell_net::{CellNetwork, cell_key, cell_row};
use flow_net::{Flow, FlowNetwork};
use max_flow::{Totals, add_up, is_balanced};
use std::alloc::Global;
use tetra_store::Tetra;

/// A free cell at which a flow is not conserved.
#[derive(Clone, Copy, Debug)]
pub struct Unbalance {
    /// The cell.
    pub cell: [u32; 4],
    /// The flow that enters it over facets.
    pub amount_in: u128,
    /// The flow that leaves it over facets and at its sink.
    pub amount_out: u128,
}

/// Returns the cell with this number and its totals, if it is live and free and the flow is not conserved there.
fn unbalance_at(
    tetra: &Tetra,
    net: &CellNetwork<'_>,
    flow: &Flow,
    totals: &Totals,
    node: usize,
) -> Option<Unbalance>
    requires cells { net.now.tetra.now ≡ tetra.now }
    requires node { node < length net.now.counts.fixed.now }
    requires amounts { length flow.now.on_sink ≡ length net.now.counts.fixed.now }
    requires totals { AreTotals (numbers net.now) flow.now totals.now }
    ensures some { IfSome result (IsUnbalanceAt net.now flow.now node) }
    ensures none { IfNone result (¬ IsUnbalanced net.now flow.now node) }
{
    let id = tetra.id_at(node)?;
    let amount_in = totals.entering[node];
    let amount_out = totals.leaving[node] + u128::from(flow.on_sink.as_slice()[node]);
    if net.is_fixed(node) || amount_in == amount_out {
        return None;
    }
    Some(Unbalance {
        cell: cell_row(tetra.vertices(id)),
        amount_in,
        amount_out,
    })
}

/// Returns the one whose cell is the first in ascending order, of one that may have been found and another.
fn first_of(found: Option<Unbalance>, other: Unbalance) -> Unbalance
    ensures either { (result ≡ other) ⊎ (found ≡ Some result) }
    ensures before { row_key result.cell ≤ row_key other.cell }
    ensures least { IfSome found (λ least. row_key result.cell ≤ row_key least.cell) }
{
    match found {
        Some(least) if cell_key(least.cell) <= cell_key(other.cell) => least,
        _ => other,
    }
}

/// Finds the first cell, in ascending order, that is not balanced by these totals.
fn first_by(tetra: &Tetra, net: &CellNetwork<'_>, flow: &Flow, totals: &Totals) -> Option<Unbalance>
    requires cells { net.now.tetra.now ≡ tetra.now }
    requires amounts { length flow.now.on_sink ≡ length net.now.counts.fixed.now }
    requires totals { AreTotals (numbers net.now) flow.now totals.now }
    ensures first { IfSome result (IsLeastUnbalance net.now flow.now) }
    ensures none { IfNone result (NoneBelow (length net.now.counts.fixed.now) (IsUnbalanced net.now flow.now)) }
{
    let mut found = None;
    for node in 0..net.node_count() {
        if let Some(other) = unbalance_at(tetra, net, flow, totals, node) {
            found = Some(first_of(found, other));
        }
    }
    found
}

/// Finds the first cell, in ascending order, at which a flow is not conserved. Looks for it only if a faster test finds that there
/// is one. Frees the totals before it returns.
pub fn first_unbalanced(
    alloc: Global,
    tetra: &Tetra,
    net: &CellNetwork<'_>,
    flow: &Flow,
) -> Result<Option<Unbalance>, NoMemory>
    requires cells { net.now.tetra.now ≡ tetra.now }
    requires arcs { length flow.now.on_arc ≡ (numbers net.now).arc_count }
    requires sinks { length flow.now.on_sink ≡ length net.now.counts.fixed.now }
    ensures first { IfOk result (λ found. IfSome found (IsLeastUnbalance net.now flow.now)) }
    ensures none { IfOk result (λ found. IfNone found (NoneBelow (length net.now.counts.fixed.now) (IsUnbalanced net.now flow.now))) }
{
    if is_balanced(alloc, net, flow)? {
        return Ok(None);
    }
    let totals = add_up(alloc, net, flow)?;
    Ok(first_by(tetra, net, flow, &totals))
}
