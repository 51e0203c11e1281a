//! The cells fixed outside.

ghost use Rattle.std.specs.Prelude.{◌≡◌, ◌≤◌, ℕ, IfOk, All, length};
ghost use Rattle.geo_sign.specs.declared.point.TheConstants.{DATA_LIMIT};
ghost use Rattle.geo_sign.specs.Point.{IsWithin};
ghost use Rattle.flow_net.specs.Nets.{flag_at};
ghost use Rattle.visibility.specs.Votes.{has_corner as has_corner_in, is_fixed_in};
ghost use Rattle.tetra_store.specs.Delaunay.{IsDelaunay};
ghost use Rattle.tetra_store.specs.Links.{links_of, tetrahedron_from, IsLive};
ghost use Rattle.tetra_store.specs.Store.{vertices_of};
ghost use Rattle.solution.specs.Counts.{AreScannerCells};

use crate::NoMemory;
use geo_sign::{CORNERS, Point};
use std::alloc::Global;
use tetra_store::{CellId, Tetra};
use tetra_walk::locate_scanner;

/// Returns the cell of each scanner.
pub(crate) fn scanner_cells(
    alloc: Global,
    t: &Tetra,
    scanners: &[Point],
) -> Result<Vec<CellId>, NoMemory>
    requires delaunay { IsDelaunay (vertices_of t.now) (links_of t.now.slots) }
    requires data_points { All (IsWithin DATA_LIMIT) scanners.now }
    ensures { IfOk result (λ cells. AreScannerCells t.now scanners.now cells.items) }
{
    let mut cells = Vec::with_capacity(alloc, scanners.len())?;
    for scanner in scanners {
        cells.push(locate_scanner(t, *scanner))?;
    }
    Ok(cells)
}

/// Returns whether a cell with these vertices has a corner of the box.
fn has_corner(v: [u32; 4]) -> bool
    ensures { result ≡ has_corner_in (tetrahedron_from v) }
{
    let [a, b, c, d] = v;
    a < CORNERS || b < CORNERS || c < CORNERS || d < CORNERS
}

/// Returns for each cell by its number whether it has a corner of the box.
fn corner_flags(alloc: Global, t: &Tetra) -> Result<Vec<bool>, NoMemory>
    ensures count { IfOk result (λ flags. length t.now.slots ≤ length flags.items) }
    ensures at { IfOk result (λ flags. (id : ℕ) → IsLive (links_of t.now.slots) id → flag_at flags.items id ≡ has_corner_in ((links_of t.now.slots).at id)) }
{
    let mut flags = vec![in alloc; false; t.number_limit()]?;
    let mut cells = t.cells();
    while let Some((id, cell)) = cells.next() {
        flags[id.number()] = has_corner(cell.v);
    }
    Ok(flags)
}

/// Returns for each cell by its number whether it has a corner of the box or a scanner, given the cells of the scanners.
pub(crate) fn fixed_cells(
    alloc: Global,
    t: &Tetra,
    scanners: &[Point],
    cells: &[CellId],
) -> Result<Vec<bool>, NoMemory>
    requires { AreScannerCells t.now scanners.now cells.now }
    ensures count { IfOk result (λ flags. length t.now.slots ≤ length flags.items) }
    ensures at { IfOk result (λ flags. (id : ℕ) → IsLive (links_of t.now.slots) id → flag_at flags.items id ≡ is_fixed_in (vertices_of t.now) scanners.now ((links_of t.now.slots).at id)) }
{
    let _scanners = scanners;
    let mut flags = corner_flags(alloc, t)?;
    for cell in cells {
        flags[cell.number()] = true;
    }
    Ok(flags)
}
