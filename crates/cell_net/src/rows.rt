//! The live cells by their ascending numbers.

ghost use Rattle.std.specs.Prelude.{◌≡◌, IfOk, map};
ghost use Rattle.std.specs.List.Sorted.{IsPermutation, IsNonDecreasingBy};
ghost use Rattle.tetra_store.specs.Links.{tetrahedron_from};
ghost use Rattle.cell_net.specs.CellRows.{low, high, risen, row_from};
ghost use Rattle.cell_net.specs.Gathered.{key_of_row, all_rows};
ghost use Rattle.cell_net.specs.Parts.{cell_of_row};

use crate::NoMemory;
use crate::keys::cell_key;
use std::alloc::Global;
use tetra_store::{CellId, Tetra};

/// A live cell.
#[derive(Clone, Copy)]
pub struct Row {
    /// Its four vertices by number, in ascending order.
    pub cell: [u32; 4],
    /// The cell by its number in the store.
    pub id: CellId,
}

/// Two numbers in order.
fn in_order(x: u32, y: u32) -> (u32, u32)
    ensures low { result.0 ≡ low x y }
    ensures high { result.1 ≡ high x y }
{
    if y < x { (y, x) } else { (x, y) }
}

/// The four vertices of a cell by number, in ascending order.
#[tactic(auto, unfolding(crate::specs::CellRows::risen))]
pub fn cell_row(v: [u32; 4]) -> [u32; 4]
    ensures { result ≡ row_from (risen (tetrahedron_from v)) }
{
    let (a, b) = in_order(v[0], v[1]);
    let (c, d) = in_order(v[2], v[3]);
    let (a, c) = in_order(a, c);
    let (b, d) = in_order(b, d);
    let (b, c) = in_order(b, c);
    [a, b, c, d]
}

/// The live cells, by ascending id.
fn rows(alloc: Global, t: &Tetra) -> Result<Vec<Row>, NoMemory>
    ensures { IfOk result (λ rows. rows.items ≡ all_rows t.now.slots) }
{
    let mut rows = Vec::with_capacity(alloc, t.number_limit())?;
    let mut cells = t.cells();
    while let Some((id, cell)) = cells.next() {
        rows.push(Row {
            cell: cell_row(cell.v),
            id,
        })?;
    }
    Ok(rows)
}

/// Puts rows in the order of their numbers.
fn sort_rows(rows: &mut [Row])
    ensures moved { IsPermutation rows.old rows.new }
    ensures sorted { IsNonDecreasingBy key_of_row rows.new }
{
    rows.sort_unstable_by_key(|row| cell_key(row.cell));
}

/// The live cells in ascending order of their vertices. The only error is out of memory.
pub fn sorted_rows(alloc: Global, t: &Tetra) -> Result<Vec<Row>, NoMemory>
    ensures moved { IfOk result (λ rows. IsPermutation (all_rows t.now.slots) rows.items) }
    ensures sorted { IfOk result (λ rows. IsNonDecreasingBy key_of_row rows.items) }
{
    let mut rows = rows(alloc, t)?;
    sort_rows(&mut rows);
    Ok(rows)
}

/// The vertices of the cells of rows. The only error is out of memory.
pub fn cells_of(alloc: Global, rows: &[Row]) -> Result<Vec<[u32; 4]>, NoMemory>
    ensures { IfOk result (λ v. v.items ≡ map cell_of_row rows.now) }
{
    let mut cells = Vec::with_capacity(alloc, rows.len())?;
    for row in rows {
        cells.push(row.cell)?;
    }
    Ok(cells)
}
