//! The directed facets that have a capacity, in order.

ghost use Rattle.std.specs.Prelude.{◌≡◌, IfOk};
ghost use Rattle.std.specs.List.Sorted.{IsPermutation, IsNonDecreasingBy};
ghost use Rattle.cell_net.specs.Gathered.{key_of_side, all_open};

use crate::NoMemory;
use cell_net::{Side, push_open, sort_sides};
use std::alloc::Global;
use tetra_store::Tetra;

/// The sides with a free adjacent cell, by ascending id and side, in a list with capacity for all.
fn open_sides(alloc: Global, t: &Tetra, fixed: &[bool], room: usize) -> Result<Vec<Side>, NoMemory>
    ensures { IfOk result (λ sides. sides.items ≡ all_open fixed.now t.now.slots) }
{
    let mut sides = Vec::with_capacity(alloc, room)?;
    let mut cells = t.cells();
    while let Some((id, cell)) = cells.next() {
        push_open(&mut sides, fixed, id, &cell)?;
    }
    Ok(sides)
}

/// The sides with a free adjacent cell, in the order of their facets. The list has capacity for all from the start.
pub(crate) fn sorted_sides(
    alloc: Global,
    t: &Tetra,
    fixed: &[bool],
    room: usize,
) -> Result<Vec<Side>, NoMemory>
    ensures moved { IfOk result (λ sides. IsPermutation (all_open fixed.now t.now.slots) sides.items) }
    ensures sorted { IfOk result (λ sides. IsNonDecreasingBy key_of_side sides.items) }
{
    let mut sides = open_sides(alloc, t, fixed, room)?;
    sort_sides(&mut sides);
    Ok(sides)
}
