//! Reads a certificate from its text. Accepts exactly the texts that are printed; any other text gives its first error in line
//! order. No memory is reserved by a stated count, so time and memory are linear in the bytes. Depends on `line_text`.

ghost use Rattle.std.specs.Prelude.{◌≡◌, ◌<◌, ◌+◌, ◌++◌, IfOk, IfErr, IsErr, MatchResult, List, Some, length};
ghost use Rattle.std.specs.Bool.{OnTrue, OnFalse};
ghost use Rattle.std.specs.List.{flat_map};
ghost use Rattle.line_text.specs.Numbers.{counted};
ghost use Rattle.geo_sign.specs.Numbers.{IsBetween};
ghost use Rattle.line_text.specs.Refusals.{line_after, RefusedNumber, AreRows, RisesAbove, IsRefusedRow};
ghost use Rattle.line_text.specs.Lists.{WithMemory, RefusedList, list_text, IsList};
ghost use Rattle.geo_sign.specs.Rising.{IsBefore};
ghost use Rattle.certificate.specs.Certificates.{Claim, claim_of, FitCounts, IsWellFormed};
ghost use Rattle.cert_text.specs.Texts.{counts_text, cert_text};
ghost use Rattle.cert_text.specs.Refusals.{OrNoMemory, RefusedCounts, AtCertificate, IsRefusedCertificate};
ghost use Rattle.cert_text.specs.declared.refusal.CertRefusal.{CertRefusal};
ghost use Rattle.cert_text.specs.Headings.{counts_of};

use crate::refusal::refusal_of_cert;
use crate::row::Row;
use crate::stamp_read::{counts_line, read_version};
use crate::words::{cost, end_mark, points, scanners, sights, smooth, vote};
use crate::{CertRefusal, Certificate};
use line_text::{LineRefusal, number_line, refusal_of, word_line};
use std::alloc::Global;

/// The counts, the weights and the cost.
#[derive(Clone, Copy)]
struct Heading {
    points: u32,
    scanners: u32,
    sights: u32,
    vote: u32,
    smooth: u32,
    cost: u64,
}

/// Reads a line of a word and a 32-bit number.
fn small_line<'a>(text: &'a [u8], word: &[u8], line: u64) -> Result<(u32, &'a [u8]), LineRefusal>
    ensures ok { IfOk result (λ read. IsBetween 0 4294967295 read.0 × (text.now ≡ counted word.now read.0 ++ read.1.now)) }
    ensures refused { IfErr result (RefusedNumber word.now 0 4294967295 line text.now) }
{
    let (n, rest) = number_line(text, word, 0, 4_294_967_295, line)?;
    Ok((n as u32, rest))
}

/// Reads the six lines of numbers, from this line on.
fn read_counts(text: &[u8], line: u64) -> Result<(Heading, &[u8]), LineRefusal>
    requires { line < 6 }
    ensures ok { IfOk result (λ read. FitCounts (counts_of read.0) × (text.now ≡ counts_text (counts_of read.0) ++ read.1.now)) }
    ensures refused { IfErr result (RefusedCounts line text.now) }
{
    let (points, rest) = small_line(text, points(), line)?;
    let (scanners, rest) = small_line(rest, scanners(), line + 1)?;
    let (sights, rest) = small_line(rest, sights(), line + 2)?;
    let (vote, rest) = small_line(rest, vote(), line + 3)?;
    let (smooth, rest) = small_line(rest, smooth(), line + 4)?;
    let (cost, rest) = number_line(rest, cost(), 0, u64::MAX, line + 5)?;
    let heading = Heading {
        points,
        scanners,
        sights,
        vote,
        smooth,
        cost,
    };
    Ok((heading, rest))
}

/// Returns whether a row comes before another one, compared lexicographically.
#[tactic(auto, using(line_text::proofs::Rows::before_nil))]
fn is_before(before: &[u32], row: &[u32]) -> bool
    ensures yes { OnTrue result (IsBefore before.now row.now) }
    ensures no { OnFalse result (¬ IsBefore before.now row.now) }
{
    match before {
        [] => false,
        [a, before @ ..] => match row {
            [] => false,
            [b, row @ ..] => *a < *b || (*a == *b && is_before(before, row)),
        },
    }
}

/// Returns whether the row is above the last of these.
fn rises<R: Row>(rows: &[R], row: R) -> bool
    ensures yes { OnTrue result (RisesAbove (Some R.key) rows.now row) }
    ensures no { OnFalse result (¬ RisesAbove (Some R.key) rows.now row) }
{
    match rows.last() {
        Some(before) => is_before(before.key(), row.key()),
        None => true,
    }
}

/// Reads the lines of this number of rows, from this line on.
fn read_rows<R: Row>(
    alloc: Global,
    text: &[u8],
    count: u64,
    line: u64,
) -> Result<(Vec<R>, &[u8]), LineRefusal>
    ensures ok { IfOk result (λ read. (length read.0.items ≡ count) × AreRows R.is_row (Some R.key) read.0.items × (text.now ≡ flat_map R.line read.0.items ++ read.1.now)) }
    ensures refused { IfErr result (λ r. WithMemory r (IsRefusedRow R.is_row R.line (Some R.key) count line text.now r)) }
{
    let mut rows: Vec<R> = Vec::new(alloc);
    let mut rest = text;
    let mut at = line;
    for k in 0..count {
        let (row, next) = match R::first(rest) {
            Some(read) => read,
            None => return Err(refusal_of(rest, at)),
        };
        if !rises(&rows, row) {
            return Err(LineRefusal::Order(at));
        }
        if rows.push(row).is_err() {
            return Err(LineRefusal::NoMemory);
        }
        rest = next;
        at = at.saturating_add(1);
    }
    Ok((rows, rest))
}

/// Reads a list after its length, and returns it with the number of the line after it.
fn read_list<R: Row>(
    alloc: Global,
    text: &[u8],
    line: u64,
) -> Result<(Vec<R>, &[u8], u64), LineRefusal>
    ensures ok { IfOk result (λ read. IsList R.is_row (Some R.key) read.0.items × (text.now ≡ list_text R.line R.word read.0.items ++ read.1.now) × (read.2 ≡ line_after line (1 + length read.0.items))) }
    ensures refused { IfErr result (λ r. WithMemory r (RefusedList R.is_row R.line (Some R.key) R.word line text.now r)) }
{
    let (count, rest) = number_line(text, R::word(), 0, u64::MAX, line)?;
    let first = line.saturating_add(1);
    let (rows, rest) = read_rows(alloc, rest, count, first)?;
    Ok((rows, rest, first.saturating_add(count)))
}

/// Returns the certificate, or the first error.
fn read_lines(alloc: Global, bytes: &[u8]) -> Result<Certificate, LineRefusal>
    ensures ok { IfOk result (λ cert. IsWellFormed (claim_of cert) × (bytes.now ≡ cert_text (claim_of cert))) }
    ensures refused { IfErr result (λ r. WithMemory r (AtCertificate bytes.now r)) }
{
    let (stamp, rest) = match read_version(bytes) {
        Ok(read) => read,
        Err(refusal) => return Err(refusal),
    };
    let line = counts_line(&stamp);
    let (heading, rest) = read_counts(rest, line)?;
    let (inside, rest, line) = read_list(alloc, rest, line + 6)?;
    let (flow, rest, line) = read_list(alloc, rest, line)?;
    let (sink, rest, line) = read_list(alloc, rest, line)?;
    let rest = word_line(rest, end_mark(), line)?;
    if !rest.is_empty() {
        return Err(LineRefusal::BadLine(line.saturating_add(1)));
    }
    Ok(Certificate {
        stamp,
        points: heading.points,
        scanners: heading.scanners,
        sights: heading.sights,
        vote: heading.vote,
        smooth: heading.smooth,
        cost: heading.cost,
        inside,
        flow,
        sink,
    })
}

/// Returns the certificate, or the first error as one of a certificate.
fn read_or_refuse(alloc: Global, bytes: &[u8]) -> Result<Certificate, CertRefusal>
    ensures ok { IfOk result (λ cert. IsWellFormed (claim_of cert) × (bytes.now ≡ cert_text (claim_of cert))) }
    ensures refused { IfErr result (λ r. OrNoMemory r (IsRefusedCertificate bytes.now r)) }
{
    match read_lines(alloc, bytes) {
        Ok(cert) => Ok(cert),
        Err(refusal) => Err(refusal_of_cert(refusal)),
    }
}

/// Returns the certificate whose text the bytes are.
///
/// Succeeds exactly for the texts that [`push_cert`](crate::push_cert) writes. Any other text gives its first error, line by
/// line: `CertCut` if the bytes end before the line feed of an expected line, `BadLine` if the line is invalid, which includes
/// any byte after the last line, as a line of its own, and `Order` if the row of the line is not above the row before it in its
/// list. Lines are counted from 1, and a line number stops at the maximum of 64 bits. `NoMemory` says nothing about the text.
pub fn read_cert(alloc: Global, bytes: &[u8]) -> Result<Certificate, CertRefusal>
    ensures ok { IfOk result (λ cert. IsWellFormed (claim_of cert) × (bytes.now ≡ cert_text (claim_of cert))) }
    ensures printed { (c : Claim) → IsWellFormed c → bytes.now ≡ cert_text c → MatchResult result (λ cert. claim_of cert ≡ c) (λ r. r ≡ CertRefusal.NoMemory) }
    ensures refused { IfErr result (λ r. OrNoMemory r (IsRefusedCertificate bytes.now r)) }
    ensures first { (r : CertRefusal) → IsRefusedCertificate bytes.now r → IfErr result (λ s. OrNoMemory s (s ≡ r)) × IsErr result }
{
    read_or_refuse(alloc, bytes)
}
