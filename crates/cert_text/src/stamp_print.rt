//! Prints the first line of a certificate and its fingerprint. Depends on `line_text` and on `mesh_ply`, which prints points.

ghost use Rattle.std.specs.Prelude.{◌≡◌, ◌++◌, OnOk, OnErr, length, take};
ghost use Rattle.std.specs.Option.{option_map};
ghost use Rattle.certificate.specs.Certificates.{stamp_view};
ghost use Rattle.cert_text.specs.Texts.{scan_line, place_line, fixed_line, stamp_text, version_text};

use crate::digits::digits_of;
use crate::words::{first_line, no_place, scan, scanner, stamped_first_line, unit};
use crate::{NoMemory, Stamp};
use geo_sign::Point;
use line_text::push_counted;
use mesh_ply::push_point;

/// Appends the line of a digest.
fn push_digest(out: &mut Vec<u8>, digest: &[u8; 32]) -> Result<(), NoMemory>
    ensures ok { OnOk result (out.new.items ≡ out.old.items ++ scan_line digest.now) }
    ensures kept { OnErr result (take (length out.old.items) out.new.items ≡ out.old.items) }
{
    let digits = digits_of(digest);
    out.extend_from_slice(scan())?;
    out.extend_from_slice(&digits)?;
    out.push(b'\n')?;
    Ok(())
}

/// Appends a point, or `none`, and the end of the line.
fn push_place(out: &mut Vec<u8>, place: Option<Point>) -> Result<(), NoMemory>
    ensures ok { OnOk result (out.new.items ≡ out.old.items ++ place_line place) }
    ensures kept { OnErr result (take (length out.old.items) out.new.items ≡ out.old.items) }
{
    match place {
        None => out.extend_from_slice(no_place()),
        Some(point) => push_point(out, point),
    }
}

/// Appends the line of the fixed scanner.
fn push_fixed(out: &mut Vec<u8>, fixed: Option<Point>) -> Result<(), NoMemory>
    ensures ok { OnOk result (out.new.items ≡ out.old.items ++ fixed_line fixed) }
    ensures kept { OnErr result (take (length out.old.items) out.new.items ≡ out.old.items) }
{
    out.extend_from_slice(scanner())?;
    push_place(out, fixed)?;
    Ok(())
}

/// Appends the three lines of a fingerprint.
fn push_stamp(out: &mut Vec<u8>, stamp: &Stamp) -> Result<(), NoMemory>
    ensures ok { OnOk result (out.new.items ≡ out.old.items ++ stamp_text (stamp_view stamp.now)) }
    ensures kept { OnErr result (take (length out.old.items) out.new.items ≡ out.old.items) }
{
    push_digest(out, &stamp.digest)?;
    push_counted(out, unit(), u64::from(stamp.unit))?;
    push_fixed(out, stamp.fixed)?;
    Ok(())
}

/// Appends the first line, and the fingerprint if there is one.
pub fn push_version(out: &mut Vec<u8>, stamp: Option<Stamp>) -> Result<(), NoMemory>
    ensures ok { OnOk result (out.new.items ≡ out.old.items ++ version_text (option_map stamp_view stamp)) }
    ensures kept { OnErr result (take (length out.old.items) out.new.items ≡ out.old.items) }
{
    match stamp {
        None => out.extend_from_slice(first_line()),
        Some(stamp) => {
            out.extend_from_slice(stamped_first_line())?;
            push_stamp(out, &stamp)
        }
    }
}
