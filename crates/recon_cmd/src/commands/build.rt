//! `build IN MESH CERT`, its arguments, answer and lines: the best surface of a scan, and the certificate of its optimality.
//! Depends on `recon_build`, which computes both, and on `mesh_ply` and `cert_text`, which print them.
ghost use Rattle.std.specs.Prelude.{map, string_bytes, ◌≡◌, false, IfOk, length};
ghost use Rattle.certificate.specs.Certificates.{claim_of, IsWellFormed};
ghost use Rattle.mesh.specs.Meshes.{IsMesh};
ghost use Rattle.scan_rows.specs.Views.{shown_of};
ghost use Rattle.solution.specs.Solutions.{surface_of};
ghost use Rattle.command_run.specs.Replies.{answer_of};
ghost use Rattle.command_run.specs.Steps.{IsReplied, ReadsFor, CountsFaults};
ghost use Rattle.recon_cmd.specs.Build.{build_names, WritesSurface, Shows, build_line, build_task};
ghost use Rattle.recon_cmd.specs.Commands.{IsCommand, asked_by, build_of};
ghost use Rattle.recon_cmd.specs.OptionViews.{options_view};
ghost use Rattle.recon_cmd.specs.Words.{all_keys, named};

use crate::commands::{Command, Request};
use crate::names::{ALL_KEYS, NamesAndOptions, named};
use crate::options::Options;
use crate::stamps::stamp_of;
use crate::whole_run::{Reading, read_input};
use cert_text::push_cert;
use certificate::Certificate;
use command_run::{Line, NoMemory, Reply, Status, Stop, Text, invalid_input, push_labelled};
use flow_net::FlowHints;
use host::Host;
use mesh_ply::push_mesh;
use recon_build::{Solved, solve_scan_watched};
use scan_rows::Scan;
use std::alloc::Global;

/// The names of `build IN MESH CERT`.
#[derive(Clone, Copy, Debug)]
pub struct BuildNames<'a> {
    /// The input scan.
    pub input: &'a str,
    /// The output file for the mesh.
    pub mesh: &'a str,
    /// The output file for the certificate.
    pub cert: &'a str,
}

/// Parses the arguments after `build`.
pub fn build_command(words: &[String]) -> Option<Request<'_>>
    ensures { IsCommand result (asked_by build_of (named 3 all_keys (map string_bytes words.now))) }
{
    let Some(NamesAndOptions { names, options }) = named(words, 3, &ALL_KEYS) else {
        return None;
    };
    let [input, mesh, cert] = names else {
        return None;
    };
    let names = BuildNames {
        input: input.as_str(),
        mesh: mesh.as_str(),
        cert: cert.as_str(),
    };
    Some(Request::Command(Command::Build(names, options)))
}

/// Reads the scan and returns the answer of `build`. Nothing is written or printed.
pub fn reply_to_build<'a, H: Host, W: FlowHints>(
    alloc: Global,
    host: &mut H,
    names: &BuildNames<'a>,
    options: &Options,
    limit: u64,
    watch: &mut W,
) -> Result<Reply<'a>, Stop>
    requires { (H.state host.old).writing ≡ false }
    ensures replied { IfOk result (λ reply. IsReplied limit (build_task (build_names names.now) (options_view options.now)) reply (H.state host.old)) }
    ensures reads { ReadsFor limit (build_task (build_names names.now) (options_view options.now)) (H.state host.old) (H.state host.new) }
    ensures cause { CountsFaults result (H.state host.old).faults (H.state host.new).faults }
{
    match read_input(alloc, host, names.input, options, limit)? {
        Reading::Scan(scan, bytes) => Ok(reply_to_scan(
            alloc, &scan, bytes, names, options, watch,
        )?),
        Reading::Refused(line) => Ok(invalid_input(alloc, line)),
    }
}

/// Returns the answer to a scan and the bytes of its file, which are freed before it is solved.
fn reply_to_scan<'a, W: FlowHints>(
    alloc: Global,
    scan: &Scan,
    bytes: Vec<u8>,
    names: &BuildNames<'a>,
    options: &Options,
    watch: &mut W,
) -> Result<Reply<'a>, NoMemory>
    ensures { IfOk result (λ reply. WritesSurface (build_names names.now) (options_view options.now) bytes.items (shown_of scan.now) (answer_of 1 reply)) }
{
    let stamp = stamp_of(bytes, options.unit, options.fixed);
    let solved = solve_scan_watched(alloc, scan, options.settings, Some(stamp), watch)?;
    reply_of(alloc, &solved, names.mesh, names.cert)
}

/// Returns the texts of a surface and its certificate, and the line.
fn reply_of<'a>(
    alloc: Global,
    solved: &Solved,
    mesh: &'a str,
    cert: &'a str,
) -> Result<Reply<'a>, NoMemory>
    requires valid { IsMesh solved.now.mesh.points.items solved.now.mesh.faces.items }
    requires well_formed { IsWellFormed (claim_of solved.now.cert) }
    ensures { IfOk result (λ reply. Shows mesh.now cert.now (surface_of solved.now.mesh) (claim_of solved.now.cert) (answer_of 1 reply)) }
{
    let mut mesh_bytes = Vec::new(alloc);
    push_mesh(&mut mesh_bytes, &solved.mesh)?;
    let mut cert_bytes = Vec::new(alloc);
    push_cert(&mut cert_bytes, &solved.cert)?;
    let line = line_of_build(alloc, &solved.cert, solved.mesh.faces.len())?;
    let mut texts = Vec::new(alloc);
    texts.push(Text {
        name: mesh,
        bytes: mesh_bytes,
    })?;
    texts.push(Text {
        name: cert,
        bytes: cert_bytes,
    })?;
    Ok(Reply {
        status: Status::Done,
        texts,
        line: Line::Made(line),
    })
}

/// Returns the line of `build`: the counts and the cost of the certificate, and the numbers of inside cells and of faces.
#[tactic(auto, unfolding(crate::specs::Build::build_line))]
pub fn line_of_build(alloc: Global, cert: &Certificate, faces: usize) -> Result<Vec<u8>, NoMemory>
    ensures { IfOk result (λ line. line.items ≡ build_line (claim_of cert.now).counts (length cert.now.inside.items) faces) }
{
    let mut line = Vec::new(alloc);
    push_labelled(&mut line, b"points ", u64::from(cert.points))?;
    push_labelled(&mut line, b" scanners ", u64::from(cert.scanners))?;
    push_labelled(&mut line, b" sights ", u64::from(cert.sights))?;
    push_labelled(&mut line, b" inside ", cert.inside.len() as u64)?;
    push_labelled(&mut line, b" faces ", faces as u64)?;
    push_labelled(&mut line, b" cost ", cert.cost)?;
    line.push(b'\n')?;
    Ok(line)
}
