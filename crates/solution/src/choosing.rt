//! Which scanners have their sights counted together, by `beam`, and which by a walk along each: a matter of speed alone.
//!
//! A cell that many sights of a scanner pass is handled once for all of them, which costs as much as several steps of walks. So
//! this pays where sights are long. Some sights of each scanner are traversed in advance to estimate how many facets all cross:
//! if they cross many for each cell that there is, many pass the same cells.

ghost use Rattle.std.specs.Prelude.{◌≤◌, length};
ghost use Rattle.tetra_store.specs.Delaunay.{IsDelaunay};
ghost use Rattle.tetra_store.specs.Links.{links_of};
ghost use Rattle.tetra_store.specs.Store.{vertices_of};
ghost use Rattle.solution.specs.Lines.{CanFollow, IsLineIn};

use crate::NoMemory;
use crate::tally::{Line, Located, line_of};
use flow_net::Sight;
use sight::walk_into;
use std::alloc::Global;
use tetra_store::Tetra;

/// One of this number of sights of a scanner is traversed in advance.
const SAMPLED: u32 = 256;

/// The least number of crossings for each cell at which a scanner's sights are counted together.
const LEAST_CROSSINGS: usize = 16;

/// What is known of a scanner's sights: their number, and how many facets those that were traversed cross.
#[derive(Clone, Copy)]
struct Sample {
    sights: u32,
    crossings: usize,
}

/// Returns the number of facets that a line crosses.
fn crossings_of(t: &Tetra, line: &Line) -> usize
    requires delaunay { IsDelaunay (vertices_of t.now) (links_of t.now.slots) }
    requires line { IsLineIn t.now line.now }
{
    let mut along = walk_into(t, line.vertex, line.scanner, line.end);
    let mut count: usize = 0;
    while along.go_on() {
        count = count.saturating_add(1);
    }
    count
}

/// Adds a sight to what is known of its scanner. The last of each `SAMPLED` is traversed.
fn add(t: &Tetra, sample: &mut Sample, line: &Line)
    requires delaunay { IsDelaunay (vertices_of t.now) (links_of t.now.slots) }
    requires line { IsLineIn t.now line.now }
{
    sample.sights = sample.sights.wrapping_add(1);
    if sample.sights % SAMPLED == 0 {
        sample.crossings = sample.crossings.saturating_add(crossings_of(t, line));
    }
}

/// Returns what is known of the sights of each scanner.
fn samples(alloc: Global, located: &Located<'_>, sights: &[Sight]) -> Result<Vec<Sample>, NoMemory>
    requires sights { CanFollow located.now sights.now }
{
    let none = Sample {
        sights: 0,
        crossings: 0,
    };
    let mut list = vec![in alloc; none; located.scanners.len()]?;
    for sight in sights {
        let line = line_of(located, *sight);
        if let Some(sample) = list.get_mut(sight.scanner as usize) {
            add(located.t, sample, &line);
        }
    }
    Ok(list)
}

/// Returns whether a scanner's sights cross many facets for each cell.
fn has_long_sights(sample: &Sample, cells: usize) -> bool {
    sample.crossings.saturating_mul(SAMPLED as usize) / LEAST_CROSSINGS > cells
}

/// Returns for each scanner whether its sights are to be counted together.
pub(crate) fn together(
    alloc: Global,
    located: &Located<'_>,
    sights: &[Sight],
) -> Result<Vec<bool>, NoMemory>
    requires sights { CanFollow located.now sights.now }
{
    let list = samples(alloc, located, sights)?;
    let count = located.t.number_limit();
    let mut flags = Vec::with_capacity(alloc, list.len())?;
    for sample in &list {
        flags.push(has_long_sights(sample, count))?;
    }
    Ok(flags)
}

/// Returns whether a sight is to be counted with others of its scanner.
pub(crate) fn is_together(together: &[bool], sight: Sight) -> bool {
    match together.get(sight.scanner as usize) {
        Some(flag) => *flag,
        None => false,
    }
}

/// Returns the number of sights that are to be walked along, each alone.
pub(crate) fn number_alone(together: &[bool], sights: &[Sight]) -> usize
    ensures { result ≤ length sights.now }
{
    let mut count: usize = 0;
    for sight in sights {
        if !is_together(together, *sight) {
            count += 1;
        }
    }
    count
}
