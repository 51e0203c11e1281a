//! The check of a mesh and a certificate. It depends on all other files.

ghost use Rattle.std.specs.Prelude.{◌≡◌, ◌<◌, ◌^◌, ◌↔◌, ℕ, List, IfOk, IfErr, length};
ghost use Rattle.certificate.specs.Certificates.{claim_of, stamp_view, IsWellFormed};
ghost use Rattle.certificate.specs.Stamps.{StampView};
ghost use Rattle.cert_text.specs.Texts.{cert_text};
ghost use Rattle.mesh.specs.Meshes.{IsMesh};
ghost use Rattle.solution.specs.Scans.{scene_of_scan};
ghost use Rattle.solution.specs.Solutions.{surface_of, HasCounts};
ghost use Rattle.scan_rows.specs.Shown.{Shown};
ghost use Rattle.scan_rows.specs.Views.{shown_of};
ghost use Rattle.solution.specs.Stored.{IsStoreOf};
ghost use Rattle.cell_net.specs.Counts.{AreCountsOf};
ghost use Rattle.recon_check.specs.Answers.{IsFault, IsSolvedWith, IsAccepted, IsYes, IsYesWhereSolved, IsAnswer};
ghost use Rattle.recon_check.specs.Found.{answer_found, IsTextOf, IsParsedFrom};
ghost use Rattle.recon_check.specs.Surfaces.{AreShownLabels, IsBestSurface};
ghost use Rattle.recon_check.specs.Stops.{StopsFor};

use crate::counts::other_count;
use crate::faults::show_best;
use crate::stamps::other_stamp;
use crate::stated::{Stated, stated_by};
use crate::stop::Stop;
use crate::texts::first_difference;
use crate::{Answer, NoMemory, Reason};
use cell_net::CellNetwork;
use cert_text::{CertRefusal, read_cert};
use certificate::{Certificate, Stamp};
use flow_net::{Labels, Settings, value};
use mesh::Mesh;
use mesh_ply::push_mesh;
use scan_rows::Scan;
use solution::{Votes, counted_cells_with, seen_in};
use std::alloc::{AllocError, Global};
use surface::facets_by_number;
use tetra_store::Tetra;
use watch::{Silent, Watch};

/// The text of a mesh, and a parsed certificate.
#[derive(Drop)]
struct Claimed<'a> {
    /// The text of the mesh.
    mesh: &'a [u8],
    /// The certificate.
    cert: Certificate,
}

/// The numbers of a surface that the certificate shows best and whose text is the mesh.
#[derive(Drop)]
struct Accepted {
    /// The number of inside cells.
    inside: u64,
    /// The number of faces of the surface.
    faces: u64,
    /// The cost of the labels.
    cost: u64,
}

/// Parses the text of a certificate.
fn certificate(alloc: Global, bytes: &[u8]) -> Result<Certificate, Stop>
    ensures formed { IfOk result (λ cert. IsWellFormed (claim_of cert)) }
    ensures text { IfOk result (λ cert. bytes.now ≡ cert_text (claim_of cert)) }
    ensures refused { (scan : Shown) (settings : Settings) (stamp : StampView) (mesh : List ℕ) → IfErr result (StopsFor (λ reason. IsAnswer scan settings stamp mesh bytes.now (Answer.No reason))) }
{
    match read_cert(alloc, bytes) {
        Ok(cert) => Ok(cert),
        Err(CertRefusal::BadLine(line)) => Err(Stop::Fault(Reason::CertLine(line))),
        Err(CertRefusal::Order(line)) => Err(Stop::Fault(Reason::CertOrder(line))),
        Err(CertRefusal::CertCut) => Err(Stop::Fault(Reason::CertCut)),
        Err(CertRefusal::NoMemory) => Err(Stop::NoMemory),
    }
}

/// Returns the labels that a certificate shows best, by the cells' numbers, if it also states their cost. Frees the visibility weights.
fn best_labels(
    alloc: Global,
    scan: &Scan,
    settings: Settings,
    tetra: &Tetra,
    votes: Votes,
    cert: &Certificate,
) -> Result<Labels, Stop>
    requires counts { AreCountsOf (scene_of_scan (shown_of scan.now) settings) tetra.now.slots votes.crossed.items votes.behind.items votes.fixed.items }
    requires few { length votes.fixed.items < 2 ^ 32 }
    requires formed { IsWellFormed (claim_of cert.now) }
    requires stated { HasCounts (claim_of cert.now) (shown_of scan.now) settings }
    ensures best { IfOk result (AreShownLabels (shown_of scan.now) settings tetra.now.slots (claim_of cert.now)) }
    ensures fault { (mesh : List ℕ) → IfErr result (StopsFor (IsFault (shown_of scan.now) settings mesh (claim_of cert.now))) }
{
    let _scan = scan;
    let net = CellNetwork::new(tetra, votes.store_counts(), settings);
    let stated = stated_by(alloc, tetra, &votes.fixed, cert)?;
    show_best(alloc, tetra, &net, cert, &stated)?;
    // `show_best` has found that the value of the flow is the cost of the labels.
    let cost = value(&net, &stated.flow) as u64;
    if cert.cost != cost {
        return Err(Stop::Fault(Reason::WrongCost {
            stated: cert.cost,
            cost,
        }));
    }
    let Stated { labels, .. } = stated;
    Ok(labels)
}

/// Returns the surface of the labels that a certificate shows best. Frees the scan's cells and their visibility weights.
fn best_surface(
    alloc: Global,
    scan: &Scan,
    settings: Settings,
    tetra: Tetra,
    votes: Votes,
    cert: &Certificate,
) -> Result<Mesh, Stop>
    requires store { IsStoreOf (shown_of scan.now) settings tetra }
    requires counts { AreCountsOf (scene_of_scan (shown_of scan.now) settings) tetra.slots votes.crossed.items votes.behind.items votes.fixed.items }
    requires few { length votes.fixed.items < 2 ^ 32 }
    requires formed { IsWellFormed (claim_of cert.now) }
    requires stated { HasCounts (claim_of cert.now) (shown_of scan.now) settings }
    ensures surface { IfOk result (λ surface. IsBestSurface (shown_of scan.now) settings (claim_of cert.now) (surface_of surface)) }
    ensures valid { IfOk result (λ surface. IsMesh surface.points.items surface.faces.items) }
    ensures fault { (mesh : List ℕ) → IfErr result (StopsFor (IsFault (shown_of scan.now) settings mesh (claim_of cert.now))) }
{
    let labels = best_labels(alloc, scan, settings, &tetra, votes, cert)?;
    Ok(facets_by_number(alloc, &tetra, labels.inside.as_slice())?)
}

/// Returns the numbers of the surface, if the certificate shows it best over the scan's cells and its text is the mesh. The numbers that
/// the certificate states are the scan's.
fn shown_over(
    alloc: Global,
    scan: &Scan,
    settings: Settings,
    tetra: Tetra,
    votes: Votes,
    claimed: &Claimed,
) -> Result<Accepted, Stop>
    requires store { IsStoreOf (shown_of scan.now) settings tetra }
    requires counts { AreCountsOf (scene_of_scan (shown_of scan.now) settings) tetra.slots votes.crossed.items votes.behind.items votes.fixed.items }
    requires few { length votes.fixed.items < 2 ^ 32 }
    requires formed { IsWellFormed (claim_of claimed.now.cert) }
    requires stated { HasCounts (claim_of claimed.now.cert) (shown_of scan.now) settings }
    ensures shown { IfOk result (λ shown. IsSolvedWith (shown_of scan.now) settings claimed.now.mesh.now shown.inside shown.faces shown.cost (claim_of claimed.now.cert)) }
    ensures fault { IfErr result (StopsFor (IsFault (shown_of scan.now) settings claimed.now.mesh.now (claim_of claimed.now.cert))) }
{
    let cert = &claimed.cert;
    let surface = best_surface(alloc, scan, settings, tetra, votes, cert)?;
    let mut text = Vec::new(alloc);
    push_mesh(&mut text, &surface)?;
    match first_difference(claimed.mesh, &text) {
        Some(place) => Err(Stop::Fault(Reason::MeshDiffers { place })),
        None => Ok(Accepted {
            inside: cert.inside.len() as u64,
            faces: surface.faces.len() as u64,
            cost: cert.cost,
        }),
    }
}

/// Returns the numbers of the surface, if the certificate shows it best and its text is the mesh.
fn shown_by_certificate<W: Watch>(
    alloc: Global,
    scan: &Scan,
    settings: Settings,
    claimed: &Claimed,
    watch: &mut W,
) -> Result<Accepted, Stop>
    requires { IsWellFormed (claim_of claimed.now.cert) }
    ensures shown { IfOk result (λ shown. IsSolvedWith (shown_of scan.now) settings claimed.now.mesh.now shown.inside shown.faces shown.cost (claim_of claimed.now.cert)) }
    ensures fault { IfErr result (StopsFor (IsFault (shown_of scan.now) settings claimed.now.mesh.now (claim_of claimed.now.cert))) }
{
    let seen = seen_in(alloc, scan)?;
    if let Some(reason) = other_count(scan, &seen.points, settings, &claimed.cert) {
        return Err(Stop::Fault(reason));
    }
    let (tetra, votes) = counted_cells_with(alloc, scan, &seen, settings, watch)?;
    drop(seen);
    shown_over(alloc, scan, settings, tetra, votes, claimed)
}

/// Returns the numbers of the surface and the certificate, if the certificate shows the surface best, its text is the mesh, and it has no
/// fingerprint or this one.
fn shown_by_claim<W: Watch>(
    alloc: Global,
    scan: &Scan,
    settings: Settings,
    stamp: &Stamp,
    claimed: Claimed,
    watch: &mut W,
) -> Result<Confirmed, Stop>
    requires { IsWellFormed (claim_of claimed.cert) }
    ensures shown { IfOk result (λ shown. IsAnswer (shown_of scan.now) settings (stamp_view stamp.now) claimed.entry.mesh.now (cert_text (claim_of claimed.entry.cert)) (Answer.Yes shown.inside shown.faces shown.cost)) }
    ensures parsed { IfOk result (λ shown. shown.cert ≡ claimed.entry.cert) }
    ensures fault { IfErr result (StopsFor (λ reason. IsAnswer (shown_of scan.now) settings (stamp_view stamp.now) claimed.entry.mesh.now (cert_text (claim_of claimed.entry.cert)) (Answer.No reason))) }
{
    if let Some(reason) = other_stamp(stamp, &claimed.cert) {
        return Err(Stop::Fault(reason));
    }
    let Accepted {
        inside,
        faces,
        cost,
    } = shown_by_certificate(alloc, scan, settings, &claimed, watch)?;
    Ok(Confirmed {
        inside,
        faces,
        cost,
        cert: claimed.cert,
    })
}

/// The texts to be checked. Nothing is assumed about them.
#[derive(Clone, Copy, Debug)]
pub struct CheckedTexts<'a> {
    /// The text of a mesh.
    pub mesh: &'a [u8],
    /// The text of a certificate.
    pub cert: &'a [u8],
}

/// The same texts, if that of the certificate can be freed after it is parsed.
#[derive(Debug, Drop)]
pub struct OwnedTexts<'a> {
    /// The text of a mesh.
    pub mesh: &'a [u8],
    /// The text of a certificate.
    pub cert: Vec<u8>,
}

/// The numbers of a best surface, and its parsed certificate.
#[derive(Debug, Drop)]
pub struct Confirmed {
    /// The number of inside cells.
    pub inside: u64,
    /// The number of faces of the surface.
    pub faces: u64,
    /// The cost of the labels.
    pub cost: u64,
    /// The certificate.
    pub cert: Certificate,
}

/// What a check of two texts found.
#[derive(Debug, Drop)]
pub enum Checked {
    /// The texts are the best surface of the scan and a certificate of its optimality.
    Yes(Confirmed),
    /// The first reason why they are not.
    No(Reason),
}

/// Returns the numbers of the surface and the parsed certificate, if the certificate shows the surface best, its text is the mesh, and
/// the certificate has no fingerprint or this one.
fn shown_by_texts<W: Watch>(
    alloc: Global,
    scan: &Scan,
    settings: Settings,
    stamp: &Stamp,
    texts: &CheckedTexts,
    watch: &mut W,
) -> Result<Confirmed, Stop>
    ensures shown { IfOk result (λ shown. IsAnswer (shown_of scan.now) settings (stamp_view stamp.now) texts.now.mesh.now texts.now.cert.now (Answer.Yes shown.inside shown.faces shown.cost)) }
    ensures parsed { IfOk result (λ shown. IsTextOf shown.cert texts.now.cert.now) }
    ensures fault { IfErr result (StopsFor (λ reason. IsAnswer (shown_of scan.now) settings (stamp_view stamp.now) texts.now.mesh.now texts.now.cert.now (Answer.No reason))) }
{
    let cert = certificate(alloc, texts.cert)?;
    let mesh = texts.mesh;
    shown_by_claim(alloc, scan, settings, stamp, Claimed { mesh, cert }, watch)
}

/// Returns the same, and frees the text of the certificate after it is parsed.
fn shown_by_owned<W: Watch>(
    alloc: Global,
    scan: &Scan,
    settings: Settings,
    stamp: &Stamp,
    texts: OwnedTexts,
    watch: &mut W,
) -> Result<Confirmed, Stop>
    ensures shown { IfOk result (λ shown. IsAnswer (shown_of scan.now) settings (stamp_view stamp.now) texts.entry.mesh.now texts.entry.cert.items (Answer.Yes shown.inside shown.faces shown.cost)) }
    ensures parsed { IfOk result (λ shown. IsTextOf shown.cert texts.entry.cert.items) }
    ensures fault { IfErr result (StopsFor (λ reason. IsAnswer (shown_of scan.now) settings (stamp_view stamp.now) texts.entry.mesh.now texts.entry.cert.items (Answer.No reason))) }
{
    let OwnedTexts { mesh, cert: text } = texts;
    let cert = certificate(alloc, &text)?;
    drop(text);
    shown_by_claim(alloc, scan, settings, stamp, Claimed { mesh, cert }, watch)
}

/// Checks whether two texts are the best surface of a scan at these settings and its certificate of optimality, with no fingerprint of the
/// input or this one. If not, returns the first reason, in the order of the variants of [`Reason`].
///
/// The answer is `Yes` if and only if there are a surface and a well-formed certificate with these texts that solve the scan: the mesh has
/// the directed facets between outside and inside Delaunay cells by the minimum cut with the smallest inside, and the certificate states
/// the scan's numbers, the cost of that cut, the inside cells and a valid flow of that value. The fingerprint is compared before the rest
/// of the certificate. Nothing is assumed about either text. A surface and a certificate of `solve_scan` with no fingerprint or this one,
/// printed by `push_mesh` and `push_cert`, are answered by `Yes`. The only error is that the check runs out of memory.
pub fn check_all(
    alloc: Global,
    scan: &Scan,
    settings: Settings,
    stamp: &Stamp,
    mesh: &[u8],
    cert: &[u8],
) -> Result<Answer, NoMemory>
    ensures answer { IfOk result (IsAnswer (shown_of scan.now) settings (stamp_view stamp.now) mesh.now cert.now) }
    ensures only { (answer : Answer) → IsAnswer (shown_of scan.now) settings (stamp_view stamp.now) mesh.now cert.now answer → IfOk result (λ given. given ≡ answer) }
    ensures yes { IfOk result (λ answer. IsYes answer ↔ IsAccepted (shown_of scan.now) settings (stamp_view stamp.now) mesh.now cert.now) }
    ensures built { IfOk result (IsYesWhereSolved (shown_of scan.now) settings (stamp_view stamp.now) mesh.now cert.now) }
{
    let texts = CheckedTexts { mesh, cert };
    match check_all_watched(alloc, scan, settings, stamp, &texts, &mut Silent)? {
        Checked::Yes(shown) => Ok(Answer::Yes {
            inside: shown.inside,
            faces: shown.faces,
            cost: shown.cost,
        }),
        Checked::No(reason) => Ok(Answer::No(reason)),
    }
}

/// Checks the same as [`check_all`], and calls the progress callback at each stage. Returns the parsed certificate too, if the answer is
/// yes.
pub fn check_all_watched<W: Watch>(
    alloc: Global,
    scan: &Scan,
    settings: Settings,
    stamp: &Stamp,
    texts: &CheckedTexts,
    watch: &mut W,
) -> Result<Checked, NoMemory>
    ensures answer { IfOk result (λ checked. IsAnswer (shown_of scan.now) settings (stamp_view stamp.now) texts.now.mesh.now texts.now.cert.now (answer_found checked)) }
    ensures parsed { IfOk result (IsParsedFrom texts.now.cert.now) }
{
    match shown_by_texts(alloc, scan, settings, stamp, texts, watch) {
        Ok(shown) => Ok(Checked::Yes(shown)),
        Err(Stop::Fault(reason)) => Ok(Checked::No(reason)),
        Err(Stop::NoMemory) => Err(AllocError),
    }
}

/// Checks the same as [`check_all_watched`], and frees the text of the certificate after it is parsed. It takes less memory.
pub fn check_owned<W: Watch>(
    alloc: Global,
    scan: &Scan,
    settings: Settings,
    stamp: &Stamp,
    texts: OwnedTexts,
    watch: &mut W,
) -> Result<Checked, NoMemory>
    ensures answer { IfOk result (λ checked. IsAnswer (shown_of scan.now) settings (stamp_view stamp.now) texts.entry.mesh.now texts.entry.cert.items (answer_found checked)) }
    ensures parsed { IfOk result (IsParsedFrom texts.entry.cert.items) }
{
    match shown_by_owned(alloc, scan, settings, stamp, texts, watch) {
        Ok(shown) => Ok(Checked::Yes(shown)),
        Err(Stop::Fault(why)) => Ok(Checked::No(why)),
        Err(Stop::NoMemory) => Err(AllocError),
    }
}
