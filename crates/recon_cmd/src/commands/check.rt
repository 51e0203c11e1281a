//! `check IN MESH CERT`, its arguments, answer and lines: verifies that a mesh is the best surface of a scan, and a certificate
//! of its optimality. And `upgrade IN MESH CERT OUT`: if so, writes the certificate with the fingerprint of this run. Depends
//! on `recon_check`, which decides, and on `cert_text`.
ghost use Rattle.std.specs.Prelude.{map, string_bytes, ◌≡◌, false, IfOk, ℕ, ⊤, Some, []};
ghost use Rattle.certificate.specs.Certificates.{claim_of, stamp_view, IsWellFormed};
ghost use Rattle.cert_text.specs.Texts.{cert_text};
ghost use Rattle.command_run.specs.Replies.{answer_of};
ghost use Rattle.command_run.specs.Steps.{IsReplied, ReadsFor, CountsFaults, IsReplyOf};
ghost use Rattle.recon_cmd.specs.Check.{check_names, output_of, HasVerdictFor, MeshAnswerFor, CertAnswerFor, restamped, too_long_cert_line, upgraded_answer, upgraded_line, check_task, task_for};
ghost use Rattle.recon_cmd.specs.Commands.{IsCommand, asked_by, check_of, upgrade_of};
ghost use Rattle.recon_cmd.specs.OptionViews.{options_view};
ghost use Rattle.recon_cmd.specs.Steps.{ReadsOn};
ghost use Rattle.recon_cmd.specs.Words.{all_keys, named};

mod lines;

use crate::commands::{Command, Request};
use crate::names::{ALL_KEYS, NamesAndOptions, named};
use crate::options::Options;
use crate::stamps::stamp_of;
use crate::whole_run::{Reading, read_input};
use cert_text::push_cert;
use certificate::{Certificate, Stamp};
use command_run::{
    Line, NoMemory, Reply, Status, Stop, Text, invalid_input, line_of_too_long_mesh, push_labelled,
};
use host::{Host, ReadRefusal, read_all};
use lines::{line_of_reason, line_of_yes};
use recon_check::{Checked, Confirmed, OwnedTexts, check_owned};
use scan_rows::Scan;
use std::alloc::Global;
use watch::Watch;

/// The names of `check IN MESH CERT` and of `upgrade IN MESH CERT OUT`.
#[derive(Clone, Copy, Debug)]
pub struct CheckNames<'a> {
    /// The input scan.
    pub input: &'a str,
    /// The mesh to verify.
    pub mesh: &'a str,
    /// The certificate to verify.
    pub cert: &'a str,
    /// The output file for the certificate with the fingerprint of this run: `upgrade` has one, `check` has none.
    pub output: Option<&'a str>,
}

/// A scan and the fingerprint of its file.
#[derive(Drop)]
struct StampedScan {
    scan: Scan,
    stamp: Stamp,
}

/// The request of `check` or `upgrade`, and the maximal size of an input file in bytes.
#[derive(Clone, Copy)]
struct CheckAsked<'w, 'a> {
    names: &'w CheckNames<'a>,
    options: &'w Options,
    limit: u64,
}

/// Parses the arguments after `check`.
pub fn check_command(words: &[String]) -> Option<Request<'_>>
    ensures { IsCommand result (asked_by check_of (named 3 all_keys (map string_bytes words.now))) }
{
    let Some(NamesAndOptions { names, options }) = named(words, 3, &ALL_KEYS) else {
        return None;
    };
    let [input, mesh, cert] = names else {
        return None;
    };
    let names = CheckNames {
        input: input.as_str(),
        mesh: mesh.as_str(),
        cert: cert.as_str(),
        output: None,
    };
    Some(Request::Command(Command::Check(names, options)))
}

/// Parses the arguments after `upgrade`.
pub fn upgrade_command(words: &[String]) -> Option<Request<'_>>
    ensures { IsCommand result (asked_by upgrade_of (named 4 all_keys (map string_bytes words.now))) }
{
    let Some(NamesAndOptions { names, options }) = named(words, 4, &ALL_KEYS) else {
        return None;
    };
    let [input, mesh, cert, output] = names else {
        return None;
    };
    let names = CheckNames {
        input: input.as_str(),
        mesh: mesh.as_str(),
        cert: cert.as_str(),
        output: Some(output.as_str()),
    };
    Some(Request::Command(Command::Check(names, options)))
}

/// Reads the scan, the mesh and the certificate, each only if the one before is not rejected, and returns the answer of `check`
/// or `upgrade`. Nothing is written or printed.
pub fn reply_to_check<'a, H: Host, W: Watch>(
    alloc: Global,
    host: &mut H,
    names: &CheckNames<'a>,
    options: &Options,
    limit: u64,
    watch: &mut W,
) -> Result<Reply<'a>, Stop>
    requires { (H.state host.old).writing ≡ false }
    ensures replied { IfOk result (λ reply. IsReplied limit (check_task (check_names names.now) (output_of names.now) (options_view options.now)) reply (H.state host.old)) }
    ensures reads { ReadsFor limit (check_task (check_names names.now) (output_of names.now) (options_view options.now)) (H.state host.old) (H.state host.new) }
    ensures closed { (H.state host.new).writing ≡ false }
    ensures cause { CountsFaults result (H.state host.old).faults (H.state host.new).faults }
{
    match read_input(alloc, host, names.input, options, limit)? {
        Reading::Scan(scan, bytes) => {
            let stamp = stamp_of(bytes, options.unit, options.fixed);
            let scan = StampedScan { scan, stamp };
            let asked = CheckAsked {
                names,
                options,
                limit,
            };
            reply_to_scan(alloc, host, &scan, &asked, watch)
        }
        Reading::Refused(line) => Ok(invalid_input(alloc, line)),
    }
}

/// Reads the mesh and the certificate, and returns the answer to a scan and the fingerprint of its file.
fn reply_to_scan<'a, H: Host, W: Watch>(
    alloc: Global,
    host: &mut H,
    scan: &StampedScan,
    asked: &CheckAsked<'_, 'a>,
    watch: &mut W,
) -> Result<Reply<'a>, Stop>
    requires { (H.state host.old).writing ≡ false }
    ensures replied { IfOk result (λ reply. IsReplyOf (task_for asked.now) (MeshAnswerFor asked.now scan.now) reply (H.state host.old)) }
    ensures reads { ReadsOn 1 2 (MeshAnswerFor asked.now scan.now) (H.state host.old) (H.state host.new) }
    ensures closed { (H.state host.new).writing ≡ false }
    ensures cause { CountsFaults result (H.state host.old).faults (H.state host.new).faults }
{
    let mesh = match read_all(alloc, host, asked.names.mesh, asked.limit) {
        Ok(mesh) => mesh,
        Err(ReadRefusal::TooLong) => return Ok(invalid_input(
            alloc,
            Line::Fixed(line_of_too_long_mesh()),
        )),
        Err(ReadRefusal::Failed) => return Err(Stop::Failed),
        Err(ReadRefusal::NoMemory) => return Err(Stop::NoMemory),
    };
    reply_to_mesh(alloc, host, scan, asked, &mesh, watch)
}

/// Reads the certificate, and returns the answer to a scan and a mesh.
fn reply_to_mesh<'a, H: Host, W: Watch>(
    alloc: Global,
    host: &mut H,
    scan: &StampedScan,
    asked: &CheckAsked<'_, 'a>,
    mesh: &[u8],
    watch: &mut W,
) -> Result<Reply<'a>, Stop>
    requires { (H.state host.old).writing ≡ false }
    ensures replied { IfOk result (λ reply. IsReplyOf (task_for asked.now) (CertAnswerFor asked.now scan.now mesh.now) reply (H.state host.old)) }
    ensures reads { ReadsOn 2 1 (CertAnswerFor asked.now scan.now mesh.now) (H.state host.old) (H.state host.new) }
    ensures closed { (H.state host.new).writing ≡ false }
    ensures cause { CountsFaults result (H.state host.old).faults (H.state host.new).faults }
{
    let cert = match read_all(alloc, host, asked.names.cert, asked.limit) {
        Ok(cert) => cert,
        Err(ReadRefusal::TooLong) => return Ok(invalid_input(
            alloc,
            Line::Fixed(line_of_too_long_cert()),
        )),
        Err(ReadRefusal::Failed) => return Err(Stop::Failed),
        Err(ReadRefusal::NoMemory) => return Err(Stop::NoMemory),
    };
    let texts = OwnedTexts { mesh, cert };
    Ok(reply_to_texts(alloc, scan, asked, texts, watch)?)
}

/// Returns the verdict on a mesh and a certificate, and the resulting reply. The text of the certificate is freed when it is parsed.
fn reply_to_texts<'a, W: Watch>(
    alloc: Global,
    scan: &StampedScan,
    asked: &CheckAsked<'_, 'a>,
    texts: OwnedTexts,
    watch: &mut W,
) -> Result<Reply<'a>, NoMemory>
    ensures { IfOk result (λ reply. HasVerdictFor asked.now scan.now texts.entry.mesh.now texts.entry.cert.items (answer_of 3 reply)) }
{
    let settings = asked.options.settings;
    match check_owned(alloc, &scan.scan, settings, &scan.stamp, texts, watch)? {
        Checked::Yes(shown) => match asked.names.output {
            None => {
                let line = line_of_yes(alloc, shown.inside, shown.faces, shown.cost)?;
                Ok(said(alloc, Status::Done, line))
            }
            Some(output) => reply_of_upgrade(alloc, &scan.stamp, shown, output),
        },
        Checked::No(reason) => {
            let line = line_of_reason(alloc, &reason)?;
            Ok(said(alloc, Status::No, line))
        }
    }
}

/// Returns the reply that writes a verified certificate with this fingerprint, in place of its own.
fn reply_of_upgrade<'a>(
    alloc: Global,
    stamp: &Stamp,
    shown: Confirmed,
    output: &'a str,
) -> Result<Reply<'a>, NoMemory>
    requires { IsWellFormed (claim_of shown.cert) }
    ensures { IfOk result (λ reply. answer_of 3 reply ≡ upgraded_answer output.now (stamp_view stamp.now) (claim_of shown.cert) shown.cost) }
{
    let line = line_of_upgrade(alloc, shown.cost)?;
    let text = restamped_text(alloc, stamp, shown.cert)?;
    let mut texts = Vec::new(alloc);
    texts.push(Text {
        name: output,
        bytes: text,
    })?;
    Ok(Reply {
        status: Status::Done,
        texts,
        line: Line::Made(line),
    })
}

/// Returns the text of a certificate with this fingerprint, in place of its own.
fn restamped_text(alloc: Global, stamp: &Stamp, cert: Certificate) -> Result<Vec<u8>, NoMemory>
    requires { IsWellFormed (claim_of cert) }
    ensures { IfOk result (λ text. text.items ≡ cert_text (restamped (stamp_view stamp.now) (claim_of cert))) }
{
    let mut stated = cert;
    stated.stamp = Some(*stamp);
    let mut text = Vec::new(alloc);
    push_cert(&mut text, &stated)?;
    Ok(text)
}

/// Returns a reply that prints a line and writes nothing.
fn said<'a>(alloc: Global, status: Status, line: Vec<u8>) -> Reply<'a>
    ensures { answer_of 3 result ≡ record { status = status; reads = 3; writes = []; line = line.items } }
{
    Reply {
        status,
        texts: Vec::new(alloc),
        line: Line::Made(line),
    }
}

/// Returns the line for a certificate's file that is longer than the limit.
#[tactic(auto, unfolding(crate::specs::Check::too_long_cert_line))]
pub fn line_of_too_long_cert() -> &'static [u8]
    ensures { result.now ≡ too_long_cert_line }
{
    b"refused 19 too_long cert\n"
}

/// Returns the line of `upgrade` for yes: the cost of the labels.
#[tactic(auto, unfolding(crate::specs::Check::upgraded_line))]
pub fn line_of_upgrade(alloc: Global, cost: u64) -> Result<Vec<u8>, NoMemory>
    ensures { IfOk result (λ line. line.items ≡ upgraded_line cost) }
{
    let mut line = Vec::new(alloc);
    push_labelled(&mut line, b"upgraded cost ", cost)?;
    line.push(b'\n')?;
    Ok(line)
}
