//! The first fault of what a certificate states about linked cells. It depends on the searches by numbers and on `max_flow`.

ghost use Rattle.std.specs.Prelude.{◌≡◌, IfErr, IfSome, IfNone, OnOk};
ghost use Rattle.certificate.specs.Certificates.{claim_of};
ghost use Rattle.visibility.specs.Complexes.{Complex};
ghost use Rattle.visibility.specs.Scenes.{Scene};
ghost use Rattle.recon_check.specs.Faults.{IsWithinFacets, IsWithinLimits, IsCertified, IsBest};
ghost use Rattle.recon_check.specs.Over.{IsStatedOver, IsThereOver, IsAdmissibleOver, IsValidOver, TellsOver, ShowsOver};
ghost use Rattle.recon_check.specs.Stated.{IsStatedBy};
ghost use Rattle.recon_check.specs.Stops.{StopsFor};

use crate::Reason;
use crate::balance::first_unbalanced;
use crate::limits::{first_fixed, first_outside, first_over, first_over_sink, limit_at};
use crate::stated::Stated;
use crate::stop::Stop;
use cell_net::CellNetwork;
use certificate::{Certificate, FlowRow, SinkRow};
use flow_net::{FlowNetwork, cost, value};
use max_flow::least_inside;
use std::alloc::Global;
use tetra_store::Tetra;

/// Finds the first inside row whose cell is fixed outside. Rows are sorted, so its cell is the first.
fn fixed_inside(net: &CellNetwork<'_>, cert: &Certificate, stated: &Stated) -> Option<Reason>
    requires { IsStatedBy net.now.tetra.now.slots net.now.counts.fixed.now (claim_of cert.now) stated.now }
    ensures some { IfSome result (TellsOver net.now (claim_of cert.now) stated.now IsThereOver) }
    ensures none { IfNone result (ShowsOver net.now (claim_of cert.now) stated.now IsThereOver IsAdmissibleOver) }
{
    let row = first_fixed(net, &stated.cells)?;
    Some(Reason::FixedInside {
        cell: cert.inside[row],
    })
}

/// Finds the first flow row that states more than the capacity of its facet.
fn over_capacity(net: &CellNetwork<'_>, cert: &Certificate, stated: &Stated) -> Option<Reason>
    requires { IsStatedBy net.now.tetra.now.slots net.now.counts.fixed.now (claim_of cert.now) stated.now }
    ensures some { IfSome result (TellsOver net.now (claim_of cert.now) stated.now IsAdmissibleOver) }
    ensures none { IfNone result (ShowsOver net.now (claim_of cert.now) stated.now IsAdmissibleOver IsWithinFacets) }
{
    let row = first_over(net, &stated.sides, &stated.flow)?;
    let FlowRow { facet, amount } = cert.flow[row];
    Some(Reason::OverCapacity {
        facet,
        flow: amount,
        cap: net.capacity(stated.sides[row]),
    })
}

/// Finds the first sink row that states more than the limit of its cell.
fn over_sink(net: &CellNetwork<'_>, cert: &Certificate, stated: &Stated) -> Option<Reason>
    requires { IsStatedBy net.now.tetra.now.slots net.now.counts.fixed.now (claim_of cert.now) stated.now }
    ensures some { IfSome result (TellsOver net.now (claim_of cert.now) stated.now IsWithinFacets) }
    ensures none { IfNone result (ShowsOver net.now (claim_of cert.now) stated.now IsWithinFacets IsWithinLimits) }
{
    let row = first_over_sink(net, &stated.at_sinks, &stated.flow)?;
    let SinkRow { cell, amount } = cert.sink[row];
    Some(Reason::OverSink {
        cell,
        flow: amount,
        cap: limit_at(net, stated.at_sinks[row]),
    })
}

/// Checks that the flow is conserved at each cell, and stops at the first cell at which it is not.
fn show_balanced(
    alloc: Global,
    tetra: &Tetra,
    net: &CellNetwork<'_>,
    cert: &Certificate,
    stated: &Stated,
) -> Result<(), Stop>
    requires cells { net.now.tetra.now ≡ tetra.now }
    requires stated { IsStatedBy net.now.tetra.now.slots net.now.counts.fixed.now (claim_of cert.now) stated.now }
    ensures valid { OnOk result (ShowsOver net.now (claim_of cert.now) stated.now IsWithinLimits IsValidOver) }
    ensures fault { IfErr result (StopsFor (TellsOver net.now (claim_of cert.now) stated.now IsWithinLimits)) }
{
    let _cert = cert;
    match first_unbalanced(alloc, tetra, net, &stated.flow)? {
        Some(found) => {
            let cell = found.cell;
            Err(Stop::Fault(Reason::Unbalanced {
                cell,
                amount_in: found.amount_in,
                amount_out: found.amount_out,
            }))
        }
        None => Ok(()),
    }
}

/// Compares the value of the flow with the cost of the labels, and returns both if they differ.
fn not_equal(net: &CellNetwork<'_>, cert: &Certificate, stated: &Stated) -> Option<Reason>
    requires { IsStatedBy net.now.tetra.now.slots net.now.counts.fixed.now (claim_of cert.now) stated.now }
    ensures some { IfSome result (TellsOver net.now (claim_of cert.now) stated.now IsValidOver) }
    ensures none { IfNone result (ShowsOver net.now (claim_of cert.now) stated.now IsValidOver IsCertified) }
{
    let _cert = cert;
    let value = value(net, &stated.flow);
    let cost = cost(net, &stated.labels);
    if value == cost {
        return None;
    }
    Some(Reason::NotEqual { value, cost })
}

/// Checks that the labels are the minimum cut with the smallest inside, and stops at the first inside row whose cell that cut has outside.
fn show_least(
    alloc: Global,
    net: &CellNetwork<'_>,
    cert: &Certificate,
    stated: &Stated,
) -> Result<(), Stop>
    requires stated { IsStatedBy net.now.tetra.now.slots net.now.counts.fixed.now (claim_of cert.now) stated.now }
    requires certified { (s : Scene) × (complex : Complex) × IsStatedOver s complex net.now (claim_of cert.now) stated.now × IsCertified s complex (claim_of cert.now) }
    ensures best { OnOk result (ShowsOver net.now (claim_of cert.now) stated.now IsCertified IsBest) }
    ensures fault { IfErr result (StopsFor (TellsOver net.now (claim_of cert.now) stated.now IsCertified)) }
{
    let least = least_inside(alloc, net, &stated.flow)?;
    match first_outside(&stated.cells, &least) {
        Some(row) => Err(Stop::Fault(Reason::NotLeast {
            cell: cert.inside[row],
        })),
        None => Ok(()),
    }
}

/// Finds the first row that states too much: of inside rows, then of flow rows, then of sink rows.
fn row_fault(net: &CellNetwork<'_>, cert: &Certificate, stated: &Stated) -> Option<Reason>
    requires { IsStatedBy net.now.tetra.now.slots net.now.counts.fixed.now (claim_of cert.now) stated.now }
    ensures some { IfSome result (TellsOver net.now (claim_of cert.now) stated.now IsThereOver) }
    ensures none { IfNone result (ShowsOver net.now (claim_of cert.now) stated.now IsThereOver IsWithinLimits) }
{
    if let Some(reason) = fixed_inside(net, cert, stated) {
        return Some(reason);
    }
    if let Some(reason) = over_capacity(net, cert, stated) {
        return Some(reason);
    }
    over_sink(net, cert, stated)
}

/// Checks that the labels of a certificate are the minimum cut with the smallest inside, by the flow of the certificate, and stops at the
/// first fault in the order of the variants of [`Reason`]. Each row of the certificate names a cell or a facet.
pub fn show_best(
    alloc: Global,
    tetra: &Tetra,
    net: &CellNetwork<'_>,
    cert: &Certificate,
    stated: &Stated,
) -> Result<(), Stop>
    requires cells { net.now.tetra.now ≡ tetra.now }
    requires stated { IsStatedBy net.now.tetra.now.slots net.now.counts.fixed.now (claim_of cert.now) stated.now }
    requires over { (s : Scene) × (complex : Complex) × IsStatedOver s complex net.now (claim_of cert.now) stated.now × IsThereOver s complex (claim_of cert.now) }
    ensures best { OnOk result (ShowsOver net.now (claim_of cert.now) stated.now IsThereOver IsBest) }
    ensures fault { IfErr result (StopsFor (TellsOver net.now (claim_of cert.now) stated.now IsThereOver)) }
{
    if let Some(reason) = row_fault(net, cert, stated) {
        return Err(Stop::Fault(reason));
    }
    show_balanced(alloc, tetra, net, cert, stated)?;
    if let Some(reason) = not_equal(net, cert, stated) {
        return Err(Stop::Fault(reason));
    }
    show_least(alloc, net, cert, stated)
}
