//! Reads the first line of a certificate and its fingerprint. Depends on `line_text`.

ghost use Rattle.std.specs.Prelude.{◌≡◌, ◌<◌, ◌++◌, IfOk, IfErr, IfSome, IfNone};
ghost use Rattle.std.specs.Option.{option_map};
ghost use Rattle.geo_sign.specs.Point.{IsWithin};
ghost use Rattle.line_text.specs.Numbers.{signed_ended, BeginsWithNone};
ghost use Rattle.mesh_ply.specs.Texts.{IsCoordinate, point_line};
ghost use Rattle.certificate.specs.Stamps.{IsDigest, IsFixed, IsStamp, IsVersion};
ghost use Rattle.certificate.specs.Certificates.{stamp_view};
ghost use Rattle.cert_text.specs.Texts.{scan_line, place_line, fixed_line, stamp_text, version_text};
ghost use Rattle.cert_text.specs.Refusals.{RefusedLine, RefusedStamp, RefusedVersion, counts_line as line_of_counts};
ghost use Rattle.geo_sign.specs.declared.point.TheConstants.{DATA_LIMIT};

use crate::Stamp;
use crate::digits::digest_of;
use crate::words::{first_line, no_place, scan, scanner, stamped_first_line, unit};
use certificate::UNIT_LIMIT;
use geo_sign::{BOX_LIMIT, Point};
use line_text::{LineRefusal, behind, cut_at, number_line, refusal_of, signed_first, word_line};

/// Returns a coordinate of the box, and the text after its end.
fn coordinate_first(text: &[u8], end: u8) -> Option<(i64, &[u8])>
    requires { end < 45 }
    ensures some { IfSome result (λ read. IsCoordinate read.0 × (text.now ≡ signed_ended read.0 end ++ read.1.now)) }
    ensures none { IfNone result (BeginsWithNone IsCoordinate (λ z. signed_ended z end) text.now) }
{
    signed_first(text, end, -(BOX_LIMIT as i64), BOX_LIMIT as i64)
}

/// Returns the line of a data point.
fn data_first(text: &[u8]) -> Option<(Point, &[u8])>
    ensures some { IfSome result (λ read. IsWithin DATA_LIMIT read.0 × (text.now ≡ point_line read.0 ++ read.1.now)) }
    ensures none { IfNone result (BeginsWithNone (IsWithin DATA_LIMIT) point_line text.now) }
{
    let (x, rest) = coordinate_first(text, b' ')?;
    let (y, rest) = coordinate_first(rest, b' ')?;
    let (z, rest) = coordinate_first(rest, b'\n')?;
    let point = Point::data(x, y, z)?;
    Some((point, rest))
}

/// Returns a data point, or `None` for `none`, and the text after the end of the line.
fn place_first(text: &[u8]) -> Option<(Option<Point>, &[u8])>
    ensures some { IfSome result (λ read. IsFixed read.0 × (text.now ≡ place_line read.0 ++ read.1.now)) }
    ensures none { IfNone result (BeginsWithNone IsFixed place_line text.now) }
{
    match behind(text, no_place()) {
        Some(rest) => Some((None, rest)),
        None => match data_first(text) {
            Some((point, rest)) => Some((Some(point), rest)),
            None => None,
        },
    }
}

/// Returns the line of the fixed scanner.
fn fixed_first(text: &[u8]) -> Option<(Option<Point>, &[u8])>
    ensures some { IfSome result (λ read. IsFixed read.0 × (text.now ≡ fixed_line read.0 ++ read.1.now)) }
    ensures none { IfNone result (BeginsWithNone IsFixed fixed_line text.now) }
{
    let rest = behind(text, scanner())?;
    place_first(rest)
}

/// Returns the line of the digest.
fn digest_first(text: &[u8]) -> Option<([u8; 32], &[u8])>
    ensures some { IfSome result (λ read. IsDigest read.0 × (text.now ≡ scan_line read.0 ++ read.1.now)) }
    ensures none { IfNone result (BeginsWithNone IsDigest scan_line text.now) }
{
    let rest = behind(text, scan())?;
    let (token, rest) = cut_at(rest, b'\n')?;
    let digest = digest_of(token)?;
    Some((digest, rest))
}

/// Returns the same, as line 2.
fn read_digest(text: &[u8]) -> Result<([u8; 32], &[u8]), LineRefusal>
    ensures ok { IfOk result (λ read. IsDigest read.0 × (text.now ≡ scan_line read.0 ++ read.1.now)) }
    ensures refused { IfErr result (RefusedLine IsDigest scan_line 2 text.now) }
{
    match digest_first(text) {
        Some(read) => Ok(read),
        None => Err(refusal_of(text, 2)),
    }
}

/// Returns the line of the fixed scanner, as line 4.
fn read_fixed(text: &[u8]) -> Result<(Option<Point>, &[u8]), LineRefusal>
    ensures ok { IfOk result (λ read. IsFixed read.0 × (text.now ≡ fixed_line read.0 ++ read.1.now)) }
    ensures refused { IfErr result (RefusedLine IsFixed fixed_line 4 text.now) }
{
    match fixed_first(text) {
        Some(read) => Ok(read),
        None => Err(refusal_of(text, 4)),
    }
}

/// Returns the three lines of a fingerprint.
fn read_stamp(text: &[u8]) -> Result<(Stamp, &[u8]), LineRefusal>
    ensures ok { IfOk result (λ read. IsStamp (stamp_view read.0) × (text.now ≡ stamp_text (stamp_view read.0) ++ read.1.now)) }
    ensures refused { IfErr result (RefusedStamp text.now) }
{
    let (digest, rest) = read_digest(text)?;
    let (unit, rest) = number_line(rest, unit(), 1, UNIT_LIMIT as u64, 3)?;
    match read_fixed(rest) {
        Ok((fixed, rest)) => {
            let stamp = Stamp {
                digest,
                unit: unit as u32,
                fixed,
            };
            Ok((stamp, rest))
        }
        Err(refusal) => Err(refusal),
    }
}

/// Returns the first line, and the fingerprint if the line announces one.
pub fn read_version(text: &[u8]) -> Result<(Option<Stamp>, &[u8]), LineRefusal>
    ensures ok { IfOk result (λ read. IsVersion (option_map stamp_view read.0) × (text.now ≡ version_text (option_map stamp_view read.0) ++ read.1.now)) }
    ensures refused { IfErr result (RefusedVersion text.now) }
{
    if let Some(rest) = behind(text, first_line()) {
        return Ok((None, rest));
    }
    let rest = word_line(text, stamped_first_line(), 1)?;
    match read_stamp(rest) {
        Ok((stamp, rest)) => Ok((Some(stamp), rest)),
        Err(refusal) => Err(refusal),
    }
}

/// Returns the number of the line of the first count.
pub fn counts_line(stamp: &Option<Stamp>) -> u64
    ensures value { result ≡ line_of_counts (option_map stamp_view stamp.now) }
    ensures bound { result < 6 }
{
    match stamp {
        None => 2,
        Some(_) => 5,
    }
}
