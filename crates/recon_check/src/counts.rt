//! The numbers that a certificate states against those of a scan. It depends on `scan` and `cert_text`.

ghost use Rattle.std.specs.Prelude.{◌≡◌, ℕ, List, IfSome, IfNone, None, Some, if◌then◌else◌, ◌==◌};
ghost use Rattle.certificate.specs.Certificates.{claim_of};
ghost use Rattle.solution.specs.Scans.{points_of};
ghost use Rattle.solution.specs.Solutions.{HasCounts};
ghost use Rattle.scan_rows.specs.Views.{shown_of};
ghost use Rattle.recon_check.specs.Answers.{IsFault};

use crate::{Reason, Which};
use certificate::Certificate;
use flow_net::Settings;
use geo_sign::Point;
use scan_rows::Scan;

/// Compares a stated number with the scan's, and returns both if they differ.
fn other(which: Which, stated: u32, here: u32) -> Option<Reason>
    ensures { result ≡ (if stated == here then None else Some (Reason.OtherCounts which stated here)) }
{
    if stated == here {
        None
    } else {
        Some(Reason::OtherCounts {
            which,
            stated,
            here,
        })
    }
}

/// Finds the first number of a certificate that differs from the scan's. `points` are the scan's distinct points.
pub fn other_count(
    scan: &Scan,
    points: &[Point],
    settings: Settings,
    cert: &Certificate,
) -> Option<Reason>
    requires { points.now ≡ points_of (shown_of scan.now) }
    ensures same { IfNone result (HasCounts (claim_of cert.now) (shown_of scan.now) settings) }
    ensures other { IfSome result (λ reason. (mesh : List ℕ) → IsFault (shown_of scan.now) settings mesh (claim_of cert.now) reason) }
{
    other(Which::Points, cert.points, points.len() as u32)
        .or(other(Which::Scanners, cert.scanners, scan.scanners.len() as u32))
        .or(other(Which::Sights, cert.sights, scan.seen.len() as u32))
        .or(other(Which::Vote, cert.vote, settings.vote))
        .or(other(Which::Smooth, cert.smooth, settings.smooth))
}
