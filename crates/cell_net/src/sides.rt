//! Directed facets of cells by their numbers, the least first, and those between cells with a flag and cells with none.

ghost use Rattle.std.specs.Prelude.{◌≡◌, ◌++◌, ◌<◌, IfOk};
ghost use Rattle.std.specs.List.Sorted.{IsPermutation, IsNonDecreasingBy};
ghost use Rattle.geo_sign.specs.Tetrahedron.{facet_at, numbers_of};
ghost use Rattle.flow_net.specs.Nets.{flag_at};
ghost use Rattle.tetra_store.specs.Links.{tetrahedron_from};
ghost use Rattle.cell_net.specs.CellRows.{least_first as least_first_in, facet_row as facet_row_in};
ghost use Rattle.cell_net.specs.CutSides.{AreCutSides};
ghost use Rattle.cell_net.specs.Gathered.{side_at, side_if_open, open_at, cut_at, key_of_side, all_cut};

use crate::NoMemory;
use crate::keys::facet_key;
use std::alloc::Global;
use tetra_store::{Cell, CellId, Tetra};

/// A side of a live cell, with its directed facet as the cell has it.
#[derive(Clone, Copy)]
pub struct Side {
    /// The facet's three vertices by number, the least first.
    pub facet: [u32; 3],
    /// The side: 0 to 3, opposite to that vertex of the cell.
    pub side: u8,
    /// The cell by its number in the store.
    pub id: CellId,
}

/// Whether a list of flags has a cell. A number past its end has no flag.
pub fn flag(flags: &[bool], id: CellId) -> bool
    ensures { result ≡ flag_at flags.now id }
{
    match flags.get(id.number()) {
        Some(flag) => *flag,
        None => false,
    }
}

/// The numbers of the directed facet opposite to a vertex, the least first.
#[tactic(auto, unfolding(crate::specs::CellRows::least_first))]
fn least_first(facet: [u32; 3]) -> [u32; 3]
    ensures { result ≡ numbers_of (least_first_in (facet_at facet)) }
{
    let [a, b, c] = facet;
    if a < b && a < c {
        [a, b, c]
    } else if b < c {
        [b, c, a]
    } else {
        [c, a, b]
    }
}

/// The three vertices of the directed facet of a cell's side by number, the least first.
pub fn facet_row(v: [u32; 4], side: u8) -> [u32; 3]
    requires { side < 4 }
    ensures { result ≡ facet_row_in (tetrahedron_from v) side }
{
    let [a, b, c, d] = v;
    match side {
        0 => least_first([b, d, c]),
        1 => least_first([a, c, d]),
        2 => least_first([a, d, b]),
        _ => least_first([a, b, c]),
    }
}

/// The side of a cell.
pub(crate) fn side_of(id: CellId, cell: &Cell, side: u8) -> Side
    requires { side < 4 }
    ensures { result ≡ side_at (id, cell.now) side }
{
    Side {
        facet: facet_row(cell.v, side),
        side,
        id,
    }
}

/// Appends a side if the adjacent cell is free.
#[tactic(auto, unfolding(crate::specs::Gathered::side_if_open))]
fn push_if_open(
    sides: &mut Vec<Side>,
    fixed: &[bool],
    id: CellId,
    cell: &Cell,
    side: u8,
) -> Result<(), NoMemory>
    requires { side < 4 }
    ensures { IfOk result (λ _. sides.new.items ≡ sides.old.items ++ side_if_open fixed.now (id, cell.now) side) }
{
    if let Some(other) = cell.next[side as usize] {
        if !flag(fixed, other) {
            sides.push(side_of(id, cell, side))?;
        }
    }
    Ok(())
}

/// Appends the sides of a cell with a free adjacent cell, by ascending side. The only error is out of memory.
pub fn push_open(
    sides: &mut Vec<Side>,
    fixed: &[bool],
    id: CellId,
    cell: &Cell,
) -> Result<(), NoMemory>
    ensures { IfOk result (λ _. sides.new.items ≡ sides.old.items ++ open_at fixed.now (id, cell.now)) }
{
    push_if_open(sides, fixed, id, cell, 0)?;
    push_if_open(sides, fixed, id, cell, 1)?;
    push_if_open(sides, fixed, id, cell, 2)?;
    push_if_open(sides, fixed, id, cell, 3)
}

/// Sorts sides by their facets.
pub fn sort_sides(sides: &mut [Side])
    ensures moved { IsPermutation sides.old sides.new }
    ensures sorted { IsNonDecreasingBy key_of_side sides.new }
{
    sides.sort_unstable_by_key(|side| facet_key(side.facet));
}

/// Appends the sides of an outside cell with an inside adjacent cell.
#[tactic(auto, unfolding(crate::specs::Gathered::cut_at))]
fn push_cut(
    sides: &mut Vec<Side>,
    outside: &[bool],
    id: CellId,
    cell: &Cell,
) -> Result<(), NoMemory>
    ensures { IfOk result (λ _. sides.new.items ≡ sides.old.items ++ cut_at outside.now (id, cell.now)) }
{
    if flag(outside, id) {
        push_open(sides, outside, id, cell)?;
    }
    Ok(())
}

/// The sides of outside cells with an inside adjacent cell, by ascending id and side.
fn cut_sides(alloc: Global, t: &Tetra, outside: &[bool]) -> Result<Vec<Side>, NoMemory>
    ensures { IfOk result (λ sides. sides.items ≡ all_cut outside.now t.now.slots) }
{
    let mut sides = Vec::new(alloc);
    let mut cells = t.cells();
    while let Some((id, cell)) = cells.next() {
        push_cut(&mut sides, outside, id, &cell)?;
    }
    Ok(sides)
}

/// The sides of outside cells with an inside adjacent cell, each once, in the order of their facets.
pub fn sorted_cut(alloc: Global, t: &Tetra, outside: &[bool]) -> Result<Vec<Side>, NoMemory>
    ensures sides { IfOk result (λ sides. AreCutSides t.now.slots outside.now sides.items) }
    ensures moved { IfOk result (λ sides. IsPermutation (all_cut outside.now t.now.slots) sides.items) }
    ensures sorted { IfOk result (λ sides. IsNonDecreasingBy key_of_side sides.items) }
{
    let mut sides = cut_sides(alloc, t, outside)?;
    sort_sides(&mut sides);
    Ok(sides)
}
