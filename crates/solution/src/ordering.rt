//! Sorts sights so that successive ones cross much the same cells: from near vertices to near scanners. Near cells mostly have
//! near numbers, so a sight is a point in the plane whose coordinates are the number of its scanner's cell and that of a cell
//! at its vertex, and the order is that of the curve of Morton (1966) in this plane: for any cache size, most sights stay for a
//! while in a set of cells that fits. Those that are counted together come last, by their scanners.

ghost use Rattle.std.specs.Prelude.{◌≡◌, IfOk, All, length, map};
ghost use Rattle.std.specs.List.Sorted.{IsPermutation};
ghost use Rattle.tetra_store.specs.Store.{vertices_of};
ghost use Rattle.solution.specs.Counts.{IsInRange};
ghost use Rattle.solution.specs.Ordering.{the_sight};

use crate::NoMemory;
use crate::choosing::is_together;
use crate::tally::Located;
use flow_net::Sight;
use std::alloc::Global;

/// A sight and the key by which it is sorted.
#[derive(Clone, Copy)]
struct Keyed {
    key: u64,
    sight: Sight,
}

/// Spreads the 32 lowest bits of a number, with a zero bit above each.
fn spread(number: u64) -> u64 {
    let mut bits = number & 0xffff_ffff;
    bits = (bits | bits << 16) & 0x0000_ffff_0000_ffff;
    bits = (bits | bits << 8) & 0x00ff_00ff_00ff_00ff;
    bits = (bits | bits << 4) & 0x0f0f_0f0f_0f0f_0f0f;
    bits = (bits | bits << 2) & 0x3333_3333_3333_3333;
    (bits | bits << 1) & 0x5555_5555_5555_5555
}

/// Returns a sight with its key: if it is walked along, the interleaved bits of the numbers of its scanner's cell and of a cell
/// at its vertex, without the lowest; else, after all of these, its scanner and the cell.
fn with_key(located: &Located<'_>, sight: Sight, together: &[bool]) -> Keyed
    requires sight { IsInRange (vertices_of located.now.t.now) located.now.scanners.now sight }
    requires cells { length located.now.cells.now ≡ length located.now.scanners.now }
    ensures { the_sight result ≡ sight }
{
    let scanner_cell = located.cells[sight.scanner as usize].number() as u64;
    let vertex_cell = located.t.cell_at(sight.vertex).number() as u64;
    let key = if is_together(together, sight) {
        1 << 63 | (sight.scanner as u64) << 31 | vertex_cell >> 1
    } else {
        spread(scanner_cell) | spread(vertex_cell) >> 1
    };
    Keyed { key, sight }
}

/// Returns the sights with their keys.
fn with_keys(
    alloc: Global,
    located: &Located<'_>,
    sights: &[Sight],
    together: &[bool],
) -> Result<Vec<Keyed>, NoMemory>
    requires sights { All (IsInRange (vertices_of located.now.t.now) located.now.scanners.now) sights.now }
    requires cells { length located.now.cells.now ≡ length located.now.scanners.now }
    ensures { IfOk result (λ list. map the_sight list.items ≡ sights.now) }
{
    let mut list = Vec::with_capacity(alloc, sights.len())?;
    for sight in sights {
        list.push(with_key(located, *sight, together))?;
    }
    Ok(list)
}

/// Sorts sights by their keys.
fn sort(list: &mut [Keyed])
    ensures { IsPermutation list.old list.new }
{
    list.sort_unstable_by_key(|item| item.key);
}

/// Returns the sights with their keys, sorted by these.
fn sorted(
    alloc: Global,
    located: &Located<'_>,
    sights: &[Sight],
    together: &[bool],
) -> Result<Vec<Keyed>, NoMemory>
    requires sights { All (IsInRange (vertices_of located.now.t.now) located.now.scanners.now) sights.now }
    requires cells { length located.now.cells.now ≡ length located.now.scanners.now }
    ensures { IfOk result (λ list. IsPermutation sights.now (map the_sight list.items)) }
{
    let mut list = with_keys(alloc, located, sights, together)?;
    sort(&mut list);
    Ok(list)
}

/// Returns the sights without their keys.
fn without_keys(alloc: Global, list: &[Keyed]) -> Result<Vec<Sight>, NoMemory>
    ensures { IfOk result (λ sights. sights.items ≡ map the_sight list.now) }
{
    let mut sights = Vec::with_capacity(alloc, list.len())?;
    for item in list {
        sights.push(item.sight)?;
    }
    Ok(sights)
}

/// Returns the sights in this order. The keys are freed before it returns.
pub(crate) fn ordered(
    alloc: Global,
    located: &Located<'_>,
    sights: &[Sight],
    together: &[bool],
) -> Result<Vec<Sight>, NoMemory>
    requires sights { All (IsInRange (vertices_of located.now.t.now) located.now.scanners.now) sights.now }
    requires cells { length located.now.cells.now ≡ length located.now.scanners.now }
    ensures { IfOk result (λ ordered. IsPermutation sights.now ordered.items) }
{
    let list = sorted(alloc, located, sights, together)?;
    without_keys(alloc, &list)
}
