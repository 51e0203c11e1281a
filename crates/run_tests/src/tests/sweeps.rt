//! The initial and final states of runs of `sweep`.
ghost use Rattle.std.specs.Prelude.{◌≡◌, ◌<◌, false, IfOk};
ghost use Rattle.host.specs.Memory.{state_of, AreNumbers};

use super::fixtures::{FOUR, host_with, leaves};
use host::{HostCall, MemHost};
use recon_cmd::NoMemory;
use std::alloc::Global;

/// The line of `sweep` for the four points at the visibility weight 1 and the area weights 0 and 1: the inner cell vanishes
/// when its facets cost as much as its four sights.
pub const SWEPT: &str = "sweep 2 first_cost 0 last_cost 4\n";

/// Returns the four points; `mesh` does not exist and `out` is not empty.
pub fn beginning(
    alloc: Global,
    piece: usize,
    failing: Vec<(HostCall, u64)>,
) -> Result<MemHost, NoMemory>
    requires piece { 0 < piece }
    requires failing { AreNumbers failing.items }
    ensures { IfOk result (λ host. (state_of host).writing ≡ false) }
{
    let (scan, before) = (FOUR.as_bytes(), "before".as_bytes());
    host_with(
        alloc,
        [Some(scan), Some(before), None, None],
        piece,
        failing,
    )
}

/// Returns whether `out` and `mesh` have these texts or do not exist, beside the four points, and this was printed.
pub fn shows(host: &MemHost, texts: [Option<&str>; 2], said: &str) -> bool {
    let [output, mesh] = texts;
    leaves(host, [Some(FOUR), output, mesh, None], said)
}
