//! Putting in the cells over the boundary of the conflict region.

ghost use Rattle.std.specs.Prelude.{◌≡◌, ◌≢◌, ◌<◌, ◌≤◌, ◌+◌, ◌*◌, ◌^◌, ℕ, true, false, Some, None, [], ◌∷◌, length, slice_index, vec_capacity};
ghost use Rattle.slab.specs.Slab.{get, HasRoomFor, Updates, slab_len};
ghost use Rattle.std.specs.Option.{ForSome};
ghost use Rattle.geo_sign.specs.Tetrahedron.{facet_of, IsRotated, IsTurned, facet_at};
ghost use Rattle.tetra_store.specs.Links.{links_of, tetrahedron_from, IsLive};
ghost use Rattle.tetra_store.specs.Fan.{fan_facet};
ghost use Rattle.tetra_store.specs.Steps.{new_cell, ArePut, AreSmall, AreNamed, IsFacing, IsNaming, AreFacing, CanGrow, IsGrown};

use crate::edge::Edge;
use crate::hints::Hints;
use crate::joining::{join, push_edges};
use crate::link::Link;
use crate::linked::{Linked, set_back, set_next};
use crate::{CellId, Facet};
use slab::Slab;

/// Puts in a cell that has no neighbor but that opposite to its last vertex.
pub(crate) fn put(cells: &mut Slab<Linked>, v: [u32; 4], outer: Option<CellId>) -> CellId
    requires room { HasRoomFor cells.old 1 }
    requires few { cells.old.capacity < 2 ^ 32 }
    requires small { ForSome outer (λ y. y + 1 < 2 ^ 32) }
    ensures vacant { get cells.old result ≡ None }
    ensures updates { Updates cells.old cells.new result (Some (record { v = v; next = None ∷ None ∷ None ∷ outer ∷ [] })) }
    ensures small { result + 1 < 2 ^ 32 }
    ensures capacity { cells.new.capacity ≡ cells.old.capacity }
    ensures len { slab_len cells.new ≡ slab_len cells.old + 1 }
{
    let link = match outer {
        Some(id) => Link::to(id),
        None => Link::none(),
    };
    let number = cells.insert_reserved(Linked::new(v, link));
    CellId::new(number)
}

/// Puts in the cells over the boundary, and lists their numbers.
pub(crate) fn put_all(cells: &mut Slab<Linked>, fan: &[Facet], p: u32, ids: &mut Vec<CellId>)
    requires room { HasRoomFor cells.old (length fan.now) }
    requires few { cells.old.capacity < 2 ^ 32 }
    requires small { AreSmall fan.now }
    requires empty { ids.old.items ≡ [] }
    requires list { length fan.now ≤ vec_capacity ids.old }
    ensures count { length ids.new.items ≡ length fan.now }
    ensures put { ArePut cells.old.slots cells.new.slots (new_cell fan.now p) ids.new.items }
    ensures capacity { cells.new.capacity ≡ cells.old.capacity }
    ensures len { slab_len cells.new ≡ slab_len cells.old + length fan.now }
    ensures list { vec_capacity ids.new ≡ vec_capacity ids.old }
{
    for facet in fan {
        let v = [facet.v[0], facet.v[1], facet.v[2], p];
        ids.push_reserved(put(cells, v, facet.outer));
    }
}

/// Whether the second facet is the first in the other direction.
fn is_turned(f: [u32; 3], g: [u32; 3]) -> bool
    ensures yes { result ≡ true → IsTurned (facet_at f) (facet_at g) }
    ensures no { result ≡ false → IsTurned (facet_at f) (facet_at g) → ⊥ }
{
    let [a, b, c] = f;
    g == [a, c, b] || g == [c, b, a] || g == [b, a, c]
}

/// Whether a facet does not have a vertex.
fn is_opposite(f: [u32; 3], v: u32) -> bool
    ensures { result ≡ true → (slice_index f 0 ≢ v) × (slice_index f 1 ≢ v) × (slice_index f 2 ≢ v) }
{
    let [a, b, c] = f;
    (a != v) & (b != v) & (c != v)
}

/// The index of a vertex of a cell that a facet does not have, or 4 if there is none. All four are compared, without a branch.
fn opposite_index(v: [u32; 4], f: [u32; 3]) -> usize
    ensures { result < 4 → (slice_index f 0 ≢ slice_index v result) × (slice_index f 1 ≢ slice_index v result) × (slice_index f 2 ≢ slice_index v result) }
{
    let first = is_opposite(f, v[0]);
    let second = is_opposite(f, v[1]);
    let third = is_opposite(f, v[2]);
    let fourth = is_opposite(f, v[3]);
    let after_third = if fourth { 3 } else { 4 };
    let after_second = if third { 2 } else { after_third };
    let after_first = if second { 1 } else { after_second };
    if first { 0 } else { after_first }
}

/// The side of a cell that has a facet in the other direction, by comparing the facets of all sides.
fn turned_side(v: [u32; 4], f: [u32; 3]) -> usize
    requires { IsFacing (tetrahedron_from v) (facet_at f) }
    ensures side { result < 4 }
    ensures turned { IsTurned (facet_at f) (facet_of (tetrahedron_from v) result) }
{
    if is_turned(f, [v[1], v[3], v[2]]) {
        return 0;
    }
    if is_turned(f, [v[0], v[2], v[3]]) {
        return 1;
    }
    if is_turned(f, [v[0], v[3], v[1]]) {
        return 2;
    }
    3
}

/// The side of a cell that has a facet in the other direction. The vertex opposite to it is the one that the facet does not
/// have, and a cell of four distinct vertices has such a vertex.
fn facing_side(v: [u32; 4], f: [u32; 3]) -> usize
    requires { IsFacing (tetrahedron_from v) (facet_at f) }
    ensures side { result < 4 }
    ensures turned { IsTurned (facet_at f) (facet_of (tetrahedron_from v) result) }
{
    let side = opposite_index(v, f);
    if side < 4 {
        return side;
    }
    turned_side(v, f)
}

/// The side of a new cell that is its boundary facet.
const OUTER_SIDE: u8 = 3;

/// Makes a cell name a new one as its neighbor at a facet.
fn name(cells: &mut Slab<Linked>, y: CellId, f: [u32; 3], id: CellId)
    requires live { IsLive (links_of cells.old.slots) y }
    requires facing { IsFacing ((links_of cells.old.slots).at y) (facet_at f) }
    requires small { id + 1 < 2 ^ 32 }
    ensures naming { IsNaming (links_of cells.old.slots) (links_of cells.new.slots) (facet_at f) y id }
    ensures capacity { cells.new.capacity ≡ cells.old.capacity }
    ensures len { slab_len cells.new ≡ slab_len cells.old }
{
    let side = facing_side(cells[y.number()].vertices(), f);
    set_next(cells, y, side, id, OUTER_SIDE);
    set_back(cells, id, usize::from(OUTER_SIDE), side as u8);
}

/// Makes the outer cells adjacent to the boundary name the cells over it.
pub(crate) fn name_outer(cells: &mut Slab<Linked>, fan: &[Facet], ids: &[CellId])
    requires count { length ids.now ≡ length fan.now }
    requires small { (i : ℕ) → i < length ids.now → slice_index ids.now i + 1 < 2 ^ 32 }
    requires facing { AreFacing (links_of cells.old.slots) fan.now }
    requires once { (i j : ℕ) → i < length fan.now → j < length fan.now → IsRotated (fan_facet fan.now i) (fan_facet fan.now j) → i ≡ j }
    ensures named { AreNamed (links_of cells.old.slots) (links_of cells.new.slots) fan.now ids.now (length fan.now) }
    ensures capacity { cells.new.capacity ≡ cells.old.capacity }
    ensures len { slab_len cells.new ≡ slab_len cells.old }
{
    for i in 0..fan.len() {
        if let Some(y) = fan[i].outer {
            name(cells, y, fan[i].v, ids[i]);
        }
    }
}

/// Puts in the cells over the boundary, and makes them neighbors of each other and of the outer adjacent cells. The two lists
/// are cleared first, and have room.
pub(crate) fn grow(
    cells: &mut Slab<Linked>,
    ids: &mut Vec<CellId>,
    edges: &mut Vec<Edge>,
    hints: &mut Hints,
    fan: &[Facet],
    p: u32,
)
    requires room { HasRoomFor cells.old (length fan.now) }
    requires few { cells.old.capacity < 2 ^ 32 }
    requires ids_list { length fan.now ≤ vec_capacity ids.old }
    requires edges_list { 3 * length fan.now ≤ vec_capacity edges.old }
    requires can { CanGrow (links_of cells.old.slots) fan.now }
    ensures grown { IsGrown (links_of cells.old.slots) (links_of cells.new.slots) fan.now p ids.new.items }
    ensures count { length ids.new.items ≡ length fan.now }
    ensures small { (i : ℕ) → i < length ids.new.items → slice_index ids.new.items i + 1 < 2 ^ 32 }
    ensures capacity { cells.new.capacity ≡ cells.old.capacity }
    ensures len { slab_len cells.new ≡ slab_len cells.old + length fan.now }
    ensures ids_list { vec_capacity ids.new ≡ vec_capacity ids.old }
    ensures edges_list { vec_capacity edges.new ≡ vec_capacity edges.old }
{
    ids.clear();
    edges.clear();
    put_all(cells, fan, p, ids);
    name_outer(cells, fan, ids);
    push_edges(fan, ids, edges);
    hints.enter(fan);
    join(cells, edges, hints);
}
