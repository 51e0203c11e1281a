//! The fixtures of the tests: small scans with their meshes and certificates, hosts in memory that hold them, and the state
//! after a run.
ghost use Rattle.std.specs.Prelude.{◌≡◌, ◌<◌, false, IfOk};
ghost use Rattle.host.specs.Memory.{state_of, AreNumbers};
ghost use Rattle.host.specs.Handed.{NamesApart};

use host::{Host, HostCall, MemHost};
use mesh_form::{Form, ObjForm, OffForm, PlyForm};
use recon_cmd::{NoMemory, run_forms};
use std::alloc::Global;
use std::test::Fail;

/// The default maximal number of bytes that a call of a host moves.
pub const PIECE: usize = 65_536;

/// The capacity of each file of a host, in bytes.
const ROOM: usize = 65_536;

/// The arguments of commands without options.
pub const CELLS: [&str; 3] = ["cells", "in", "out"];

pub const BUILD: [&str; 4] = ["build", "in", "mesh", "cert"];

pub const CHECK: [&str; 4] = ["check", "in", "mesh", "cert"];

pub const UPGRADE: [&str; 5] = ["upgrade", "in", "mesh", "cert", "out"];

pub const EXPORT: [&str; 5] = ["export", "mesh", "out", "cert", "in"];

pub const SWEEP: [&str; 8] = ["sweep", "in", "0", "1", "2", "out", "mesh", "vote=1"];

pub const ASK: [&str; 4] = ["ask", "in", "mesh", "out"];

/// Four points around the origin, each seen from a scanner of its own, ten times as far out.
pub const FOUR: &str =
    "ply\nformat ascii 1.0\nelement vertex 4\nproperty int x\nproperty int y\nproperty int z\nproperty int scanner\nelement scanner 4\nproperty int x\nproperty int y\nproperty int z\nend_header\n100 100 100 0\n100 -100 -100 1\n-100 100 -100 2\n-100 -100 100 3\n1000 1000 1000\n1000 -1000 -1000\n-1000 1000 -1000\n-1000 -1000 1000\n";

pub const FOUR_CHECKED: &str = "yes inside 1 faces 4 cost 4\n";

/// The best surface of the four points at the weights 8 and 1, and its certificate: the flow is the only valid one of value 4.
pub const FOUR_MESH: &str =
    "ply\nformat ascii 1.0\nelement vertex 4\nproperty int x\nproperty int y\nproperty int z\nelement face 4\nproperty list uchar int vertex_indices\nend_header\n100 100 100\n100 -100 -100\n-100 100 -100\n-100 -100 100\n3 0 1 2\n3 0 2 3\n3 0 3 1\n3 1 3 2\n";

pub const FOUR_CERT: &str =
    "recon certificate 1\npoints 4\nscanners 4\nsights 4\nvote 8\nsmooth 1\ncost 4\ninside 1\n8 9 10 11\nflow 4\n8 9 10 1\n8 10 11 1\n8 11 9 1\n9 11 10 1\nsink 1\n8 9 10 11 4\nend\n";

/// The same surface in OFF, and in OBJ, where numbers count from 1.
pub const FOUR_OFF: &str =
    "OFF\n4 4 0\n100 100 100\n100 -100 -100\n-100 100 -100\n-100 -100 100\n3 0 1 2\n3 0 2 3\n3 0 3 1\n3 1 3 2\n";

pub const FOUR_OBJ: &str =
    "v 100 100 100\nv 100 -100 -100\nv -100 100 -100\nv -100 -100 100\nf 1 2 3\nf 1 3 4\nf 1 4 2\nf 2 4 3\n";

/// No point and no face.
pub const NO_FACE: &str =
    "ply\nformat ascii 1.0\nelement vertex 0\nproperty int x\nproperty int y\nproperty int z\nelement face 0\nproperty list uchar int vertex_indices\nend_header\n";

/// The line of `export` for it in three formats.
pub const FOUR_EXPORTED: &str = "exported 3 points 4 faces 4\n";

/// Returns the plain form of a scan with these lines.
pub fn plain(alloc: Global, points: &[&str], scanners: &[&str]) -> Result<String, Fail> {
    let vertices = points.len();
    let count = scanners.len();
    let mut text = format!(in alloc;
        "ply\nformat ascii 1.0\nelement vertex {vertices}\nproperty int x\nproperty int y\nproperty int z\nproperty int scanner\nelement scanner {count}\nproperty int x\nproperty int y\nproperty int z\nend_header\n"
    )?;
    for line in points {
        text.push_str(line)?;
        text.push('\n')?;
    }
    for line in scanners {
        text.push_str(line)?;
        text.push('\n')?;
    }
    Ok(text)
}

/// Returns the arguments as a command line has them.
pub fn owned(alloc: Global, words: &[&str]) -> Result<Vec<String>, NoMemory> {
    let mut owned = Vec::new(alloc);
    for word in words {
        owned.push(String::from_str(alloc, word)?)?;
    }
    Ok(owned)
}

/// Returns the bytes, if there are any.
fn copied(alloc: Global, bytes: Option<&[u8]>) -> Result<Option<Vec<u8>>, NoMemory> {
    match bytes {
        Some(bytes) => Ok(Some(bytes.to_vec(alloc)?)),
        None => Ok(None),
    }
}

/// Returns the files `in`, `out`, `mesh` and `cert`, which have these bytes in this order or do not exist, and `unit=3`, which
/// does not.
fn files_of(
    alloc: Global,
    held: [Option<&[u8]>; 4],
) -> Result<Vec<(String, Option<Vec<u8>>)>, NoMemory>
    ensures { IfOk result (λ files. NamesApart files.items) }
{
    let [input, output, mesh, cert] = held;
    Ok(vec![in alloc;
        (String::from_str(alloc, "in")?, copied(alloc, input)?),
        (String::from_str(alloc, "out")?, copied(alloc, output)?),
        (String::from_str(alloc, "mesh")?, copied(alloc, mesh)?),
        (String::from_str(alloc, "cert")?, copied(alloc, cert)?),
        (String::from_str(alloc, "unit=3")?, None),
    ]?)
}

/// Returns a host with these files, whose calls move at most this number of bytes, and some of them fail.
pub fn host_with(
    alloc: Global,
    held: [Option<&[u8]>; 4],
    piece: usize,
    failing: Vec<(HostCall, u64)>,
) -> Result<MemHost, NoMemory>
    requires piece { 0 < piece }
    requires failing { AreNumbers failing.items }
    ensures { IfOk result (λ host. (state_of host).writing ≡ false) }
{
    MemHost::new(alloc, files_of(alloc, held)?, piece, ROOM, failing)
}

/// Returns whether the same files have these texts or do not exist, `unit=3` does not, and this was printed.
pub fn leaves(host: &MemHost, held: [Option<&str>; 4], said: &str) -> bool {
    let [input, output, mesh, cert] = held;
    has(host, "in", input)
        && has(host, "out", output)
        && has(host, "mesh", mesh)
        && has(host, "cert", cert)
        && has(host, "unit=3", None)
        && host.said() == said.as_bytes()
}

/// Returns whether the file of this name has this text, or does not exist.
fn has(host: &MemHost, name: &str, text: Option<&str>) -> bool {
    match text {
        Some(text) => host.file(name) == Some(text.as_bytes()),
        None => host.file(name).is_none(),
    }
}

/// Returns the status of a run on these arguments; `export` and a `sweep` of three surfaces write PLY, OFF and OBJ.
pub fn in_three_forms<H: Host>(
    alloc: Global,
    words: &[String],
    host: &mut H,
) -> Result<u8, NoMemory>
    requires { (H.state host.old).writing ≡ false }
{
    let mut forms: Vec<Box<dyn Form>> = Vec::new(alloc);
    forms.push(Box::new(alloc, PlyForm::new(alloc))?)?;
    forms.push(Box::new(alloc, OffForm::new(alloc))?)?;
    forms.push(Box::new(alloc, ObjForm::new(alloc))?)?;
    Ok(run_forms(alloc, words, host, &mut forms))
}
