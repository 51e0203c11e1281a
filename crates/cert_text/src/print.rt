//! Prints the text of a certificate. Depends on `line_text`.

ghost use Rattle.std.specs.Prelude.{◌≡◌, ◌++◌, OnOk, OnErr, length, take};
ghost use Rattle.std.specs.List.{flat_map};
ghost use Rattle.line_text.specs.Lists.{list_text};
ghost use Rattle.certificate.specs.Certificates.{claim_of, IsWellFormed};
ghost use Rattle.cert_text.specs.Texts.{counts_text, cert_text};

use crate::row::Row;
use crate::stamp_print::push_version;
use crate::words::{cost, end_mark, points, scanners, sights, smooth, vote};
use crate::{Certificate, NoMemory};
use line_text::push_counted;

/// Appends the lines of the counts, the weights and the cost.
fn push_counts(out: &mut Vec<u8>, cert: &Certificate) -> Result<(), NoMemory>
    ensures ok { OnOk result (out.new.items ≡ out.old.items ++ counts_text (claim_of cert.now).counts) }
    ensures kept { OnErr result (take (length out.old.items) out.new.items ≡ out.old.items) }
{
    push_counted(out, points(), u64::from(cert.points))?;
    push_counted(out, scanners(), u64::from(cert.scanners))?;
    push_counted(out, sights(), u64::from(cert.sights))?;
    push_counted(out, vote(), u64::from(cert.vote))?;
    push_counted(out, smooth(), u64::from(cert.smooth))?;
    push_counted(out, cost(), cert.cost)?;
    Ok(())
}

/// Appends the lines of rows.
fn push_rows<R: Row>(out: &mut Vec<u8>, rows: &[R]) -> Result<(), NoMemory>
    ensures ok { OnOk result (out.new.items ≡ out.old.items ++ flat_map R.line rows.now) }
    ensures kept { OnErr result (take (length out.old.items) out.new.items ≡ out.old.items) }
{
    for row in rows {
        row.push(out)?;
    }
    Ok(())
}

/// Appends a list after its length.
fn push_list<R: Row>(out: &mut Vec<u8>, rows: &[R]) -> Result<(), NoMemory>
    ensures ok { OnOk result (out.new.items ≡ out.old.items ++ list_text R.line R.word rows.now) }
    ensures kept { OnErr result (take (length out.old.items) out.new.items ≡ out.old.items) }
{
    push_counted(out, R::word(), rows.len() as u64)?;
    push_rows(out, rows)?;
    Ok(())
}

fn push_parts(out: &mut Vec<u8>, cert: &Certificate) -> Result<(), NoMemory>
    ensures ok { OnOk result (out.new.items ≡ out.old.items ++ cert_text (claim_of cert.now)) }
    ensures kept { OnErr result (take (length out.old.items) out.new.items ≡ out.old.items) }
{
    push_version(out, cert.stamp)?;
    push_counts(out, cert)?;
    push_list(out, &cert.inside)?;
    push_list(out, &cert.flow)?;
    push_list(out, &cert.sink)?;
    out.extend_from_slice(end_mark())?;
    Ok(())
}

/// Appends the text of a well-formed certificate to `out`: a line with the format and its version, the three lines of the
/// fingerprint if there is one, six lines of a word and a number, then the inside cells, the flow over facets and the flow into
/// sinks, each list after its length, and the line `end`. Each line is ended by LF, single spaces separate tokens, and numbers
/// are decimal without leading zeros.
///
/// After `NoMemory`, `out` is unchanged.
pub fn push_cert(out: &mut Vec<u8>, cert: &Certificate) -> Result<(), NoMemory>
    requires { IsWellFormed (claim_of cert.now) }
    ensures printed { OnOk result (out.new.items ≡ out.old.items ++ cert_text (claim_of cert.now)) }
    ensures kept { OnErr result (out.new.items ≡ out.old.items) }
{
    let start = out.len();
    let pushed = push_parts(out, cert);
    if pushed.is_err() {
        out.truncate(start);
    }
    pushed
}
