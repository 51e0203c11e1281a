//! Making the cells over the boundary of the conflict region neighbors of each other.
//!
//! Two of them are neighbors where their facets have an edge in its two directions. So the directed edges are listed, and hints
//! say where the reverse of each stands. Each is checked before it is used. If one is wrong, the edges are sorted by their two
//! vertices in ascending order, and the reverse of each is then next to it. No memory is taken.

ghost use Rattle.std.specs.Prelude.{List, IfSome, ◌≡◌, ◌<◌, ◌≤◌, ◌+◌, ◌*◌, ◌^◌, ℕ, true, false, [], length, slice_index, vec_capacity, Contains};
ghost use Rattle.std.specs.List.Sorted.{IsPermutation};
ghost use Rattle.slab.specs.Slab.{slab_len};
ghost use Rattle.tetra_store.specs.Links.{links_of, IsLive};
ghost use Rattle.tetra_store.specs.declared.edge.Edge.{Edge};
ghost use Rattle.tetra_store.specs.Steps.{IsSideWritten, AreFanEdges, AreJoined, CanJoinEdges};
ghost use Rattle.tetra_store.specs.Edges.{edge_at, AreByKey, IsReverse, ArePairs};

use crate::edge::Edge;
use crate::hints::Hints;
use crate::linked::{Linked, set_next};
use crate::{CellId, Facet};
use slab::Slab;

/// Lists the directed edges of the boundary.
pub(crate) fn push_edges(fan: &[Facet], ids: &[CellId], edges: &mut Vec<Edge>)
    requires count { length ids.now ≡ length fan.now }
    requires small { (i : ℕ) → i < length ids.now → slice_index ids.now i + 1 < 2 ^ 32 }
    requires empty { edges.old.items ≡ [] }
    requires list { 3 * length fan.now ≤ vec_capacity edges.old }
    ensures edges { AreFanEdges fan.now ids.now edges.new.items (length fan.now) }
    ensures list { vec_capacity edges.new ≡ vec_capacity edges.old }
{
    for i in 0..fan.len() {
        let [a, b, c] = fan[i].v;
        let cell = ids[i].number() as u32;
        edges.push_reserved(Edge {
            start: b,
            end: c,
            cell,
            side: 0,
        });
        edges.push_reserved(Edge {
            start: c,
            end: a,
            cell,
            side: 1,
        });
        edges.push_reserved(Edge {
            start: a,
            end: b,
            cell,
            side: 2,
        });
    }
}

/// Makes the cell of an edge name that of its reverse.
fn join_side(cells: &mut Slab<Linked>, edge: Edge, mate: Edge)
    requires live { IsLive (links_of cells.old.slots) edge.cell }
    requires side { edge.side < 4 }
    requires small { mate.cell + 1 < 2 ^ 32 }
    ensures written { IsSideWritten (links_of cells.old.slots) (links_of cells.new.slots) edge.cell edge.side mate.cell }
    ensures capacity { cells.new.capacity ≡ cells.old.capacity }
    ensures len { slab_len cells.new ≡ slab_len cells.old }
{
    let id = CellId::new(edge.cell as usize);
    let other = CellId::new(mate.cell as usize);
    set_next(cells, id, usize::from(edge.side), other, mate.side);
}

/// Puts edges in the order of their keys.
fn sort(edges: &mut [Edge])
    ensures moved { IsPermutation edges.old edges.new }
    ensures sorted { AreByKey edges.new }
{
    edges.sort_unstable_by_key(|edge| edge.key());
}

/// Whether the next edge is the reverse of the one at a place.
fn is_reverse_next(edges: &[Edge], at: usize) -> bool
    requires { at < length edges.now }
    ensures yes { result ≡ true → (at + 1 < length edges.now) × IsReverse (edge_at edges.now at) (edge_at edges.now (at + 1)) }
    ensures no { result ≡ false → at + 1 < length edges.now → IsReverse (edge_at edges.now at) (edge_at edges.now (at + 1)) → ⊥ }
{
    at + 1 < edges.len() && edges[at + 1].is_reverse(&edges[at])
}

/// The reverse of the edge at a place. It stands next to it.
fn reverse_of(edges: &[Edge], at: usize) -> Edge
    requires within { at < length edges.now }
    requires sorted { AreByKey edges.now }
    requires pairs { ArePairs edges.now }
    ensures listed { Contains edges.now result }
    ensures reverse { IsReverse (edge_at edges.now at) result }
{
    if is_reverse_next(edges, at) {
        edges[at + 1]
    } else {
        edges[at - 1]
    }
}

/// Makes the cells of each edge and of its reverse neighbors, where the edges are in the order of their keys.
fn join_sorted(cells: &mut Slab<Linked>, edges: &[Edge])
    requires sorted { AreByKey edges.now }
    requires can { CanJoinEdges (links_of cells.old.slots) edges.now }
    ensures joined { AreJoined (links_of cells.old.slots) (links_of cells.new.slots) edges.now (length edges.now) }
    ensures capacity { cells.new.capacity ≡ cells.old.capacity }
    ensures len { slab_len cells.new ≡ slab_len cells.old }
{
    for at in 0..edges.len() {
        let edge = edges[at];
        let mate = reverse_of(edges, at);
        join_side(cells, edge, mate);
    }
}

/// The reverse of the edge at a place, if the hint leads to it.
fn hinted(edges: &[Edge], hints: &Hints, at: usize) -> Option<Edge>
    requires { at < length edges.now }
    ensures listed { IfSome result (λ mate. Contains edges.now mate) }
    ensures reverse { IfSome result (λ mate. IsReverse (edge_at edges.now at) mate) }
{
    let mate = edges.get(hints.reverse(&edges[at])?)?;
    if mate.is_reverse(&edges[at]) {
        Some(*mate)
    } else {
        None
    }
}

/// Makes the cells of edges and of their reverses neighbors, up to the first edge whose hint is wrong. Whether there is none.
fn join_hinted(cells: &mut Slab<Linked>, edges: &[Edge], hints: &Hints) -> bool
    requires { CanJoinEdges (links_of cells.old.slots) edges.now }
    ensures some { AreJoined (links_of cells.old.slots) (links_of cells.new.slots) edges.now 0 }
    ensures all { result ≡ true → AreJoined (links_of cells.old.slots) (links_of cells.new.slots) edges.now (length edges.now) }
    ensures capacity { cells.new.capacity ≡ cells.old.capacity }
    ensures len { slab_len cells.new ≡ slab_len cells.old }
{
    for at in 0..edges.len() {
        let edge = edges[at];
        let Some(mate) = hinted(edges, hints, at) else {
            return false;
        };
        join_side(cells, edge, mate);
    }
    true
}

/// Makes the cells of each edge and of its reverse neighbors. The edges may then stand in another order.
pub(crate) fn join(cells: &mut Slab<Linked>, edges: &mut [Edge], hints: &Hints)
    requires { (xs : List Edge) → IsPermutation edges.old xs → CanJoinEdges (links_of cells.old.slots) xs }
    ensures moved { IsPermutation edges.old edges.new }
    ensures joined { AreJoined (links_of cells.old.slots) (links_of cells.new.slots) edges.new (length edges.new) }
    ensures capacity { cells.new.capacity ≡ cells.old.capacity }
    ensures len { slab_len cells.new ≡ slab_len cells.old }
{
    if join_hinted(cells, edges, hints) {
        return;
    }
    sort(edges);
    join_sorted(cells, edges);
}
