//! A cell as the store keeps it, in 36 bytes.

ghost use Rattle.std.specs.Prelude.{◌≡◌, ◌+◌, ◌<◌, ◌^◌, ◌↔◌, ℕ, IsTrue, Some, None, [], ◌∷◌, length, slice_index_or, slice_set, if◌then◌else◌};
ghost use Rattle.slab.specs.Slab.{ContainsKey, slab_len};
ghost use Rattle.geo_sign.specs.Writings.{IsVertexOf};
ghost use Rattle.tetra_store.specs.Links.{links_of, slot_at, tetrahedron_from};
ghost use Rattle.tetra_store.specs.Steps.{IsSideWritten};

use crate::link::Link;
use crate::{Cell, CellId};
use slab::Slab;
use std::marker::Model;

/// A cell whose neighbors take four bytes each. Contracts see it as the cell that it stands for.
#[derive(Drop)]
pub(crate) struct Linked {
    v: [u32; 4],
    next: [Link; 4],
    // The mirror index of each neighbor: a hint, which nothing keeps true. Code that reads it tests it.
    backs: [u8; 4],
}

impl Model for Linked {
    ghost use Rattle.std.specs.Prelude.{◌≡◌, length};
    ghost use Rattle.tetra_store.specs.declared.link.Cell.{Cell};

    ghost Value = { Cell };

    ghost view = { λ c. record { v = c.v; next = c.next } };

    ghost invariant = { λ c. length c.next ≡ 4 };
}

/// Which of three tests is the first that holds, and 3 where none does, with no branch between.
fn first_of(a: bool, b: bool, c: bool) -> usize
    ensures { result ≡ if a then 0 else if b then 1 else if c then 2 else 3 }
{
    let after_second = if c { 2 } else { 3 };
    let after_first = if b { 1 } else { after_second };
    if a { 0 } else { after_first }
}

impl Linked {
    /// Returns a cell with these vertices, and no neighbor but that opposite to the last. Its hints are unknown.
    pub(crate) fn new(v: [u32; 4], outer: Link) -> Linked
        ensures { result ≡ record { v = v; next = None ∷ None ∷ None ∷ outer ∷ [] } }
    {
        Linked {
            v,
            next: [Link::none(), Link::none(), Link::none(), outer],
            backs: [0; 4],
        }
    }

    /// A cell with the vertices and the hints of this one, and these neighbors.
    pub(crate) fn with_links(&self, next: [Link; 4]) -> Linked
        ensures { result ≡ record self.now { next = next } }
    {
        Linked {
            v: self.v,
            next,
            backs: self.backs,
        }
    }

    /// Its vertices.
    pub(crate) fn vertices(&self) -> [u32; 4]
        ensures { result ≡ self.now.v }
    {
        self.v
    }

    /// Whether it has a vertex.
    pub(crate) fn has(&self, v: u32) -> bool
        ensures { IsTrue result ↔ IsVertexOf (tetrahedron_from self.now.v) v }
    {
        let [a, b, c, d] = self.v;
        a == v || b == v || c == v || d == v
    }

    /// Returns the neighbor at a side.
    pub(crate) fn next(&self, side: usize) -> Option<CellId>
        requires { side < 4 }
        ensures { result ≡ slice_index_or self.now.next side None }
    {
        self.next[side].get()
    }

    /// Returns the hint of the mirror index of the neighbor at a side.
    pub(crate) fn back(&self, side: usize) -> usize
        requires { side < 4 }
        ensures { result < 4 }
    {
        usize::from(self.backs[side]) % 4
    }

    /// Returns the side at which a neighbor of it is: this one, if it is there, and else the first such side.
    pub(crate) fn side_to(&self, other: CellId, hint: usize) -> usize
        requires neighbor { (k : ℕ) × (k < 4) × (slice_index_or self.now.next k None ≡ Some other) }
        requires hint { hint < 4 }
        ensures side { result < 4 }
        ensures named { slice_index_or self.now.next result None ≡ Some other }
    {
        if self.next[hint].is(other) {
            return hint;
        }
        self.first_side_to(other)
    }

    /// Returns the first side at which a neighbor of it is. It is seldom asked for, and stays a call: so a walk goes on with a
    /// hint before it is known to be right.
    #[inline(never)]
    fn first_side_to(&self, other: CellId) -> usize
        requires { (k : ℕ) × (k < 4) × (slice_index_or self.now.next k None ≡ Some other) }
        ensures side { result < 4 }
        ensures named { slice_index_or self.now.next result None ≡ Some other }
    {
        let first = self.next[0].is(other);
        let second = self.next[1].is(other);
        let third = self.next[2].is(other);
        first_of(first, second, third)
    }

    /// The cell that it stands for.
    pub(crate) fn cell(&self) -> Cell
        ensures { result ≡ self.now }
    {
        Cell {
            v: self.v,
            next: [self.next(0), self.next(1), self.next(2), self.next(3)],
        }
    }

    /// Names the neighbor at a side, with a hint of its mirror index.
    pub(crate) fn set_next(&mut self, side: usize, other: CellId, back: u8)
        requires side { side < 4 }
        requires other { other + 1 < 2 ^ 32 }
        ensures whole { length self.old.next ≡ 4 }
        ensures after { self.new ≡ record self.old { next = slice_set self.old.next side (Some other) } }
    {
        self.next[side] = Link::to(other);
        self.backs[side] = back;
    }

    /// Sets the hint of the mirror index of the neighbor at a side.
    pub(crate) fn set_back(&mut self, side: usize, back: u8)
        requires { side < 4 }
        ensures { self.new ≡ self.old }
    {
        self.backs[side] = back;
    }
}

/// Names a cell as the neighbor of another at a side, with a hint of its mirror index.
pub(crate) fn set_next(cells: &mut Slab<Linked>, id: CellId, side: usize, other: CellId, back: u8)
    requires live { ContainsKey cells.old id }
    requires side { side < 4 }
    requires small { other + 1 < 2 ^ 32 }
    ensures written { IsSideWritten (links_of cells.old.slots) (links_of cells.new.slots) id side other }
    ensures capacity { cells.new.capacity ≡ cells.old.capacity }
    ensures len { slab_len cells.new ≡ slab_len cells.old }
{
    let cell = &mut cells[id.number()];
    cell.set_next(side, other, back);
}

/// Sets the hint of the mirror index of the neighbor at a side of a cell.
pub(crate) fn set_back(cells: &mut Slab<Linked>, id: CellId, side: usize, back: u8)
    requires { side < 4 }
    ensures slots { (x : ℕ) → slot_at cells.new.slots x ≡ slot_at cells.old.slots x }
    ensures capacity { cells.new.capacity ≡ cells.old.capacity }
    ensures len { slab_len cells.new ≡ slab_len cells.old }
{
    if let Some(cell) = cells.get_mut(id.number()) {
        cell.set_back(side, back);
    }
}
