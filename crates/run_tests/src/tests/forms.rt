//! The initial and final states of runs of `export`.
ghost use Rattle.std.specs.Prelude.{◌≡◌, ◌<◌, false, IfOk};
ghost use Rattle.host.specs.Memory.{state_of, AreNumbers};

use super::fixtures::{FOUR_MESH, host_with, leaves};
use host::{HostCall, MemHost};
use recon_cmd::NoMemory;
use std::alloc::Global;

/// Returns the mesh of the four points; `out` and `cert` do not exist and `in` is not empty.
pub fn beginning(
    alloc: Global,
    piece: usize,
    failing: Vec<(HostCall, u64)>,
) -> Result<MemHost, NoMemory>
    requires piece { 0 < piece }
    requires failing { AreNumbers failing.items }
    ensures { IfOk result (λ host. (state_of host).writing ≡ false) }
{
    let (mesh, before) = (FOUR_MESH.as_bytes(), "before".as_bytes());
    host_with(
        alloc,
        [Some(before), None, Some(mesh), None],
        piece,
        failing,
    )
}

/// Returns whether `out`, `cert` and `in` have these texts or do not exist, beside the mesh of the four points, and this was
/// printed.
pub fn shows(host: &MemHost, texts: [Option<&str>; 3], said: &str) -> bool {
    let [output, cert, input] = texts;
    leaves(host, [input, output, Some(FOUR_MESH), cert], said)
}
