//! The incident cell of each vertex, after cells are put in and before others are taken out.

ghost use Rattle.std.specs.Prelude.{◌≡◌, ◌<◌, ◌+◌, ◌^◌, ℕ, true, false, length, slice_index, Contains};
ghost use Rattle.geo_sign.specs.Tetrahedron.{vertex_of};
ghost use Rattle.tetra_store.specs.Links.{links_of, tetrahedron_from, IsLive};
ghost use Rattle.geo_sign.specs.Edges.{over};
ghost use Rattle.tetra_store.specs.Fan.{fan_facet, IsHeld};
ghost use Rattle.tetra_store.specs.Steps.{IsKeptAt, AreKeptNew, IsKeeperHeld, IsOutsideWith, IsMendedAt, AreMended};

use crate::kept::KeptCell;
use crate::linked::Linked;
use crate::{CellId, Facet};
use slab::Slab;

/// Keeps a cell for each of its vertices.
fn keep(kept: &mut [KeptCell], v: [u32; 4], id: CellId)
    requires vertices { (k : ℕ) → k < 4 → slice_index v k < length kept.old }
    requires small { id + 1 < 2 ^ 32 }
    ensures { IsKeptAt kept.old kept.new (tetrahedron_from v) id 4 }
{
    for k in 0..4 {
        kept[v[k] as usize] = KeptCell::new(id);
    }
}

/// Makes a cell over the boundary the incident cell of each boundary vertex, and of p.
pub(crate) fn keep_new(kept: &mut [KeptCell], fan: &[Facet], ids: &[CellId], p: u32)
    requires count { length ids.now ≡ length fan.now }
    requires small { (i : ℕ) → i < length ids.now → slice_index ids.now i + 1 < 2 ^ 32 }
    requires vertices { (i k : ℕ) → i < length fan.now → k < 4 → vertex_of (over (fan_facet fan.now i) p) k < length kept.old }
    ensures { AreKeptNew kept.old kept.new fan.now ids.now p (length fan.now) }
{
    for i in 0..fan.len() {
        let [a, b, c] = fan[i].v;
        keep(kept, [a, b, c, p], ids[i]);
    }
}

/// Whether a cell is live and not among these, and has a vertex.
fn is_outside(cells: &Slab<Linked>, old: &[CellId], v: u32, number: usize) -> bool
    ensures yes { result ≡ true → IsOutsideWith (links_of cells.now.slots) old.now v number }
    ensures no { result ≡ false → IsOutsideWith (links_of cells.now.slots) old.now v number → ⊥ }
{
    match cells.get(number) {
        Some(cell) => cell.has(v) && !old.contains(&CellId::new(number)),
        None => false,
    }
}

/// Returns a live cell that is not among these and has a vertex. There is one. It goes through the live cells, so it is called
/// only for a vertex that no boundary facet has.
fn find_outside(cells: &Slab<Linked>, old: &[CellId], v: u32) -> CellId
    requires few { cells.now.capacity < 2 ^ 32 }
    requires held { IsHeld (links_of cells.now.slots) old.now v }
    ensures outside { IsOutsideWith (links_of cells.now.slots) old.now v result }
    ensures small { result + 1 < 2 ^ 32 }
{
    for number in 0..cells.capacity() {
        if is_outside(cells, old, v, number) {
            return CellId::new(number);
        }
    }
    unreachable!()
}

/// Gives the vertices that keep a cell another that is not among these.
fn mend_cell(kept: &mut [KeptCell], cells: &Slab<Linked>, old: &[CellId], id: CellId)
    requires few { cells.now.capacity < 2 ^ 32 }
    requires live { IsLive (links_of cells.now.slots) id }
    requires listed { Contains old.now id }
    requires vertices { (k : ℕ) → k < 4 → vertex_of ((links_of cells.now.slots).at id) k < length kept.old }
    requires held { (k : ℕ) → k < 4 → IsKeeperHeld (links_of cells.now.slots) old.now kept.old id k }
    ensures { IsMendedAt (links_of cells.now.slots) old.now kept.old kept.new id 4 }
{
    let v = cells[id.number()].vertices();
    for k in 0..4 {
        if kept[v[k] as usize].id() == id {
            kept[v[k] as usize] = KeptCell::new(find_outside(cells, old, v[k]));
        }
    }
}

/// Gives each vertex that keeps one of these cells another that is not among them.
pub(crate) fn mend(kept: &mut [KeptCell], cells: &Slab<Linked>, old: &[CellId])
    requires few { cells.now.capacity < 2 ^ 32 }
    requires live { (id : ℕ) → Contains old.now id → IsLive (links_of cells.now.slots) id }
    requires vertices { (id k : ℕ) → Contains old.now id → k < 4 → vertex_of ((links_of cells.now.slots).at id) k < length kept.old }
    requires held { (id k : ℕ) → Contains old.now id → k < 4 → IsKeeperHeld (links_of cells.now.slots) old.now kept.old id k }
    ensures { AreMended (links_of cells.now.slots) old.now kept.old kept.new (length old.now) }
{
    for i in 0..old.len() {
        mend_cell(kept, cells, old, old[i]);
    }
}
