//! The index of each row and of each side in its list, by what they are in the store.

ghost use Rattle.std.specs.Prelude.{◌≡◌, ◌<◌, ◌^◌, IfOk, length, slice_index, Contains};
ghost use Rattle.cell_net.specs.Parts.{id_of_row, number_of_side, AreDistinctBy};
ghost use Rattle.votes.specs.Tables.{AreNumbered};
ghost use Rattle.cell_net.specs.declared.rows.Row.{Row};
ghost use Rattle.cell_net.specs.declared.sides.Side.{Side};

use crate::NoMemory;
use cell_net::{Row, Side};
use std::alloc::Global;

/// The number of a side among all sides, four a cell.
pub(crate) fn number(side: &Side) -> usize
    requires { number_of_side side.now < 2 ^ 64 }
    ensures { result ≡ number_of_side side.now }
{
    4 * side.id.number() + usize::from(side.side)
}

/// What a table has at an index, and 0 past its end.
pub(crate) fn entry(table: &[u32], index: usize) -> u32
    ensures { result ≡ slice_index table.now index }
{
    match table.get(index) {
        Some(number) => *number,
        None => 0,
    }
}

/// The index of each row in the list, by its id.
pub(crate) fn node_numbers(alloc: Global, rows: &[Row], count: usize) -> Result<Vec<u32>, NoMemory>
    requires few { length rows.now < 2 ^ 32 }
    requires ids { (r : Row) → Contains rows.now r → id_of_row r < count }
    requires apart { AreDistinctBy id_of_row rows.now }
    ensures { IfOk result (λ table. AreNumbered id_of_row rows.now table.items) }
{
    let mut table = vec![in alloc; 0u32; count]?;
    for (node, row) in rows.iter().enumerate() {
        table[row.id.number()] = node as u32;
    }
    Ok(table)
}

/// The index of each side in the list, by its number among all sides.
pub(crate) fn arc_numbers(alloc: Global, sides: &[Side], count: usize) -> Result<Vec<u32>, NoMemory>
    requires few { length sides.now < 2 ^ 32 }
    requires numbers { (x : Side) → Contains sides.now x → number_of_side x < count }
    requires apart { AreDistinctBy number_of_side sides.now }
    ensures { IfOk result (λ table. AreNumbered number_of_side sides.now table.items) }
{
    let mut table = vec![in alloc; 0u32; count]?;
    for (arc, side) in sides.iter().enumerate() {
        table[number(side)] = arc as u32;
    }
    Ok(table)
}
