//! The best surface of a scan. Depends on the minimum cut of its cells, on `surface` and on the rows of a certificate.

ghost use Rattle.std.specs.Prelude.{◌≡◌, ◌≤◌, ◌*◌, ◌++◌, IfOk, length};
ghost use Rattle.std.specs.Option.{option_map};
ghost use Rattle.certificate.specs.Certificates.{Claim, claim_of, stamp_view, IsWellFormed};
ghost use Rattle.geo_sign.specs.Vertices.{corners};
ghost use Rattle.mesh.specs.Meshes.{IsMesh, Surface};
ghost use Rattle.scan_rows.specs.Views.{shown_of};
ghost use Rattle.cell_net.specs.Counts.{AreCellsOf};
ghost use Rattle.solution.specs.Laws.{IsSame};
ghost use Rattle.solution.specs.Scans.{points_of, scene_of_scan};
ghost use Rattle.recon_build.specs.Certified.{CertifiesCut};
ghost use Rattle.solution.specs.Solutions.{HasCounts, IsSolution, surface_of};
ghost use Rattle.surface.specs.Closed.{IsClosed};
ghost use Rattle.solution.specs.MinimumCuts.{IsCutOf};
ghost use Rattle.solution.specs.Stored.{IsStoreOf};

use crate::NoMemory;
use crate::rows::{flow_rows, inside_rows, sink_rows};
use certificate::{Certificate, Stamp};
use flow_net::{FlowHints, Settings};
use geo_sign::CORNERS;
use mesh::Mesh;
use scan_rows::Scan;
use solution::{MinimumCut, counted_cells, minimum_cut_of};
use std::alloc::Global;
use surface::facets_by_number;
use tetra_store::Tetra;
use watch::Silent;

/// A surface, and the certificate of its optimality.
#[derive(Drop)]
pub struct Solved {
    /// The linked Delaunay cells of the box's corners and the scan's distinct points.
    pub tetra: Tetra,
    /// The facets between inside and outside, in scaled units.
    pub mesh: Mesh,
    /// The labels, and a flow whose value is their cost.
    pub cert: Certificate,
}

/// Returns the certificate of a minimum cut of a scan's cells, with this fingerprint or none.
fn certificate(
    alloc: Global,
    scan: &Scan,
    settings: Settings,
    tetra: &Tetra,
    cut: &MinimumCut,
    stamp: Option<Stamp>,
) -> Result<Certificate, NoMemory>
    requires points { tetra.now.points ≡ corners ++ points_of (shown_of scan.now) }
    requires sides { 4 * length tetra.now.slots ≤ length cut.now.flow.on_arc }
    ensures counts { IfOk result (λ cert. HasCounts (claim_of cert) (shown_of scan.now) settings) }
    ensures states { IfOk result (λ cert. CertifiesCut (scene_of_scan (shown_of scan.now) settings) tetra.now.slots cut.now (claim_of cert)) }
    ensures well_formed { IsCutOf (scene_of_scan (shown_of scan.now) settings) tetra.now.slots cut.now → IfOk result (λ cert. IsWellFormed (claim_of cert)) }
    ensures stamp { IfOk result (λ cert. (claim_of cert).stamp ≡ option_map stamp_view stamp) }
{
    Ok(Certificate {
        stamp,
        points: tetra.vertex_count() - CORNERS,
        scanners: scan.scanners.len() as u32,
        sights: scan.seen.len() as u32,
        vote: settings.vote,
        smooth: settings.smooth,
        cost: cut.cost,
        inside: inside_rows(alloc, tetra, cut.labels.inside.as_slice())?,
        flow: flow_rows(alloc, tetra, cut.flow.on_arc.as_slice())?,
        sink: sink_rows(alloc, tetra, cut.flow.on_sink.as_slice())?,
    })
}

/// Returns the mesh of the best labels of a scan's cells and their certificate, which has this fingerprint or none.
fn solve_over(
    alloc: Global,
    scan: &Scan,
    settings: Settings,
    tetra: Tetra,
    cut: MinimumCut,
    stamp: Option<Stamp>,
) -> Result<Solved, NoMemory>
    requires store { IsStoreOf (shown_of scan.now) settings tetra }
    requires cells { AreCellsOf (scene_of_scan (shown_of scan.now) settings) tetra.slots }
    requires cut { IsCutOf (scene_of_scan (shown_of scan.now) settings) tetra.slots cut }
    ensures solution { IfOk result (λ solved. IsSolution (shown_of scan.now) settings (surface_of solved.mesh) (claim_of solved.cert)) }
    ensures valid { IfOk result (λ solved. IsMesh solved.mesh.points.items solved.mesh.faces.items) }
    ensures well_formed { IfOk result (λ solved. IsWellFormed (claim_of solved.cert)) }
    ensures stamp { IfOk result (λ solved. (claim_of solved.cert).stamp ≡ option_map stamp_view stamp) }
    ensures tetra { IfOk result (λ solved. IsStoreOf (shown_of scan.now) settings solved.tetra) }
    ensures closed { IfOk result (λ solved. IsClosed solved.mesh.faces.items) }
{
    let mesh = facets_by_number(alloc, &tetra, cut.labels.inside.as_slice())?;
    let cert = certificate(alloc, scan, settings, &tetra, &cut, stamp)?;
    Ok(Solved { tetra, mesh, cert })
}

/// Returns the best surface of a scan at these settings, and its certificate, which has this fingerprint or none.
///
/// The surface is the mesh of the directed facets between outside and inside cells, under the labels of least sight-line cost
/// whose inside is smallest. The certificate has these labels and a flow whose value is that cost, so that no labels can cost
/// less. Equal points of several rows are one vertex, with the sights of all of them. The surface is closed: each directed edge
/// of its faces occurs as often as its reverse. The only error is out of memory.
///
/// It takes no hints at the maximum flow, and so longer than [`solve_scan_watched`] with a callback that gives some, as `Hinting` of
/// `flow_hint` does.
pub fn solve_scan(
    alloc: Global,
    scan: &Scan,
    settings: Settings,
    stamp: Option<Stamp>,
) -> Result<Solved, NoMemory>
    ensures solution { IfOk result (λ solved. IsSolution (shown_of scan.now) settings (surface_of solved.mesh) (claim_of solved.cert)) }
    ensures valid { IfOk result (λ solved. IsMesh solved.mesh.points.items solved.mesh.faces.items) }
    ensures well_formed { IfOk result (λ solved. IsWellFormed (claim_of solved.cert)) }
    ensures stamp { IfOk result (λ solved. (claim_of solved.cert).stamp ≡ option_map stamp_view stamp) }
    ensures tetra { IfOk result (λ solved. IsStoreOf (shown_of scan.now) settings solved.tetra) }
    ensures closed { IfOk result (λ solved. IsClosed solved.mesh.faces.items) }
{
    solve_scan_watched(alloc, scan, settings, stamp, &mut Silent)
}

/// Returns the same with the hints of a progress callback, to which it reports the stages of the work. It does not affect the result: any
/// other solution has the same mesh, and its certificate differs only in the flow, and in the fingerprint if another was passed.
pub fn solve_scan_watched<W: FlowHints>(
    alloc: Global,
    scan: &Scan,
    settings: Settings,
    stamp: Option<Stamp>,
    watch: &mut W,
) -> Result<Solved, NoMemory>
    ensures solution { IfOk result (λ solved. IsSolution (shown_of scan.now) settings (surface_of solved.mesh) (claim_of solved.cert)) }
    ensures valid { IfOk result (λ solved. IsMesh solved.mesh.points.items solved.mesh.faces.items) }
    ensures well_formed { IfOk result (λ solved. IsWellFormed (claim_of solved.cert)) }
    ensures stamp { IfOk result (λ solved. (claim_of solved.cert).stamp ≡ option_map stamp_view stamp) }
    ensures tetra { IfOk result (λ solved. IsStoreOf (shown_of scan.now) settings solved.tetra) }
    ensures closed { IfOk result (λ solved. IsClosed solved.mesh.faces.items) }
    ensures same { (mesh : Surface) (claim : Claim) → IsSolution (shown_of scan.now) settings mesh claim → IfOk result (λ solved. IsSame (surface_of solved.mesh) (claim_of solved.cert) mesh claim) }
{
    let (tetra, votes) = counted_cells(alloc, scan, settings, watch)?;
    let cut = minimum_cut_of(alloc, scan, settings, &tetra, votes, watch)?;
    solve_over(alloc, scan, settings, tetra, cut, stamp)
}
