//! The fingerprint of the input that a certificate has against that of this run. It depends on `cert_text`.

ghost use Rattle.std.specs.Prelude.{◌≡◌, ◌≢◌, IfSome, IfNone};
ghost use Rattle.std.specs.Bool.{OnTrue, OnFalse};
ghost use Rattle.certificate.specs.Certificates.{claim_of, stamp_view};
ghost use Rattle.recon_check.specs.Stamps.{IsStampedFor, IsOtherPart, IsOtherStamp};

use crate::Reason;
use certificate::{Certificate, Stamp};
use geo_sign::Point;

/// Compares two points.
fn is_same_point(a: &Point, b: &Point) -> bool
    ensures yes { OnTrue result (a.now ≡ b.now) }
    ensures no { OnFalse result (a.now ≢ b.now) }
{
    a.x() == b.x() && a.y() == b.y() && a.z() == b.z()
}

/// Compares two fixed scanners; two missing ones are the same.
fn is_same_place(a: &Option<Point>, b: &Option<Point>) -> bool
    ensures yes { OnTrue result (a.now ≡ b.now) }
    ensures no { OnFalse result (a.now ≢ b.now) }
{
    match a {
        None => b.is_none(),
        Some(a) => match b {
            None => false,
            Some(b) => is_same_point(a, b),
        },
    }
}

/// Finds the first part of a fingerprint that differs from that of this run: digest, scale, fixed scanner.
fn other_part(stated: &Stamp, here: &Stamp) -> Option<Reason>
    ensures same { IfNone result (stamp_view stated.now ≡ stamp_view here.now) }
    ensures other { IfSome result (IsOtherPart (stamp_view here.now) (stamp_view stated.now)) }
{
    if stated.digest != here.digest {
        return Some(Reason::OtherScan {
            stated: stated.digest,
            here: here.digest,
        });
    }
    if stated.unit != here.unit {
        return Some(Reason::OtherUnit {
            stated: stated.unit,
            here: here.unit,
        });
    }
    if !is_same_place(&stated.fixed, &here.fixed) {
        return Some(Reason::OtherFixed {
            stated: stated.fixed,
            here: here.fixed,
        });
    }
    None
}

/// Finds the first part of a certificate's fingerprint that differs from that of this run. A certificate without a fingerprint belongs to
/// any scan, so it returns `None`.
pub fn other_stamp(stamp: &Stamp, cert: &Certificate) -> Option<Reason>
    ensures same { IfNone result (IsStampedFor (stamp_view stamp.now) (claim_of cert.now)) }
    ensures other { IfSome result (IsOtherStamp (stamp_view stamp.now) (claim_of cert.now)) }
{
    match &cert.stamp {
        Some(stated) => other_part(stated, stamp),
        None => None,
    }
}
