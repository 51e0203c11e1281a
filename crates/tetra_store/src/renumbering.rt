//! Giving cells other numbers, so that those which are near each other in an order have numbers near each other.
//!
//! First each cell gets a place, by the order that is asked for and then by its number, and then the cells are copied there one
//! after another, with the places of their neighbors. The order is a hint: a number in it that has no cell, or that it had
//! before, is passed over, and cells that it leaves out come last. So nothing is asked of it.

ghost use Rattle.std.specs.Prelude.{◌≡◌, ◌<◌, ◌≤◌, ◌+◌, ◌^◌, ℕ, Some, None, [], IsTrue, IsFalse, IfOk, OnOk, OnErr, length, slice_index_or};
ghost use Rattle.std.specs.Option.{ForSome};
ghost use Rattle.slab.specs.Slab.{HasRoomFor, slab_len};
ghost use Rattle.tetra_store.specs.Links.{links_of, IsLive};
ghost use Rattle.tetra_store.specs.Renumbered.{IsPlaced, HasPlace, AreAssigned, AreWithin, across_by, moved, AreMoved, AreKeptMoved, IsRenumbered};

use crate::kept::KeptCell;
use crate::link::Link;
use crate::linked::Linked;
use crate::store::MOST_CELLS;
use crate::{CellId, NoMemory, Tetra};
use slab::Slab;
use std::alloc::{AllocError, Global};

/// The places of cells by their numbers, and their numbers by their places.
#[derive(Drop)]
struct Places {
    of: Vec<Link>,
    from: Vec<u32>,
}

/// Whether a number is one of the list's and has no place there.
fn is_free(of: &[Link], number: usize) -> bool
    ensures yes { IsTrue result → (number < length of.now) × (slice_index_or of.now number None ≡ None) }
    ensures no { IsFalse result → number < length of.now → ¬ (slice_index_or of.now number None ≡ None) }
{
    match of.get(number) {
        Some(link) => link.get().is_none(),
        None => false,
    }
}

/// Gives the cell with a number the next place, if there is such a cell and it has none.
fn assign(cells: &Slab<Linked>, number: u32, places: &mut Places) -> Result<(), NoMemory>
    requires { AreAssigned (links_of cells.now.slots) places.old.of.items places.old.from.items }
    ensures assigned { OnOk result (AreAssigned (links_of cells.now.slots) places.new.of.items places.new.from.items) }
    ensures count { length places.new.of.items ≡ length places.old.of.items }
    ensures kept { OnOk result ((x n : ℕ) → IsPlaced places.old.of.items x n → IsPlaced places.new.of.items x n) }
    ensures placed { OnOk result (number < length places.old.of.items → IsLive (links_of cells.now.slots) number → HasPlace places.new.of.items number) }
{
    let at = number as usize;
    if !is_free(&places.of, at) {
        return Ok(());
    }
    if !cells.contains(at) {
        return Ok(());
    }
    let next = places.from.len();
    if next + 1 > MOST_CELLS {
        return Err(AllocError);
    }
    places.from.push(number)?;
    places.of[at] = Link::to(CellId::new(next));
    Ok(())
}

/// Gives the cells with these numbers their places, in this order.
fn assign_listed(cells: &Slab<Linked>, order: &[u32], places: &mut Places) -> Result<(), NoMemory>
    requires { AreAssigned (links_of cells.now.slots) places.old.of.items places.old.from.items }
    ensures assigned { OnOk result (AreAssigned (links_of cells.now.slots) places.new.of.items places.new.from.items) }
    ensures count { OnOk result (length places.new.of.items ≡ length places.old.of.items) }
{
    for number in order {
        assign(cells, *number, places)?;
    }
    Ok(())
}

/// Gives all cells that have none a place, by ascending number.
fn assign_rest(cells: &Slab<Linked>, places: &mut Places) -> Result<(), NoMemory>
    requires assigned { AreAssigned (links_of cells.now.slots) places.old.of.items places.old.from.items }
    requires few { length places.old.of.items < 2 ^ 32 }
    ensures assigned { OnOk result (AreAssigned (links_of cells.now.slots) places.new.of.items places.new.from.items) }
    ensures count { OnOk result (length places.new.of.items ≡ length places.old.of.items) }
    ensures all { OnOk result ((x : ℕ) → x < length places.old.of.items → IsLive (links_of cells.now.slots) x → HasPlace places.new.of.items x) }
{
    let count = places.of.len() as u32;
    for number in 0..count {
        assign(cells, number, places)?;
    }
    Ok(())
}

/// The places of all cells, in this order as far as it goes.
fn places_of(alloc: Global, cells: &Slab<Linked>, order: &[u32]) -> Result<Places, NoMemory>
    ensures assigned { IfOk result (λ p. AreAssigned (links_of cells.now.slots) p.of.items p.from.items) }
    ensures all { IfOk result (λ p. (x : ℕ) → IsLive (links_of cells.now.slots) x → HasPlace p.of.items x) }
    ensures fits { IfOk result (λ p. length cells.now.slots ≤ length p.of.items) }
{
    let limit = cells.capacity();
    if limit > MOST_CELLS {
        return Err(AllocError);
    }
    let mut places = Places {
        of: vec![in alloc; Link::none(); limit]?,
        from: Vec::with_capacity(alloc, cells.len())?,
    };
    assign_listed(cells, order, &mut places)?;
    assign_rest(cells, &mut places)?;
    Ok(places)
}

/// The place of a neighbor, if there is one.
fn moved_link(places: &[Link], link: Option<CellId>) -> Link
    requires { ForSome link (λ y. y < length places.now) }
    ensures { result ≡ across_by places.now link }
{
    match link {
        None => Link::none(),
        Some(id) => places[id.number()],
    }
}

/// A cell with the places of its neighbors. Its sides stay, and so do hints which of them lead back.
fn moved_cell(places: &[Link], cell: &Linked) -> Linked
    requires { (k : ℕ) → k < 4 → ForSome (slice_index_or cell.now.next k None) (λ y. y < length places.now) }
    ensures { result ≡ moved places.now cell.now }
{
    cell.with_links([
        moved_link(places, cell.next(0)),
        moved_link(places, cell.next(1)),
        moved_link(places, cell.next(2)),
        moved_link(places, cell.next(3)),
    ])
}

/// Copies the cell with the place `at` there, where the cells before it are.
fn copy_next(
    cells: &Slab<Linked>,
    places: &Places,
    at: usize,
    made: &mut Slab<Linked>,
) -> Result<(), NoMemory>
    requires assigned { AreAssigned (links_of cells.now.slots) places.now.of.items places.now.from.items }
    requires within { AreWithin (links_of cells.now.slots) (length places.now.of.items) }
    requires at { at < length places.now.from.items }
    requires room { HasRoomFor made.old 1 }
    requires before { AreMoved cells.now.slots made.old.slots places.now.of.items places.now.from.items at }
    ensures moved { OnOk result (AreMoved cells.now.slots made.new.slots places.now.of.items places.now.from.items (at + 1)) }
    ensures capacity { made.new.capacity ≡ made.old.capacity }
    ensures len { slab_len made.new ≡ slab_len made.old + 1 }
{
    let number = places.from[at] as usize;
    let key = made.insert_reserved(moved_cell(&places.of, &cells[number]));
    // A slab from which nothing was taken gives its keys as they rise.
    if key != at {
        return Err(AllocError);
    }
    Ok(())
}

/// The cells at their places.
fn copies(alloc: Global, cells: &Slab<Linked>, places: &Places) -> Result<Slab<Linked>, NoMemory>
    requires assigned { AreAssigned (links_of cells.now.slots) places.now.of.items places.now.from.items }
    requires within { AreWithin (links_of cells.now.slots) (length places.now.of.items) }
    ensures { IfOk result (λ made. AreMoved cells.now.slots made.slots places.now.of.items places.now.from.items (length places.now.from.items)) }
{
    let mut made = Slab::with_capacity(alloc, places.from.len())?;
    for at in 0..places.from.len() {
        copy_next(cells, places, at, &mut made)?;
    }
    Ok(made)
}

/// The place of a cell, if it has one.
fn place_of(of: &[Link], id: CellId) -> Option<CellId>
    ensures { result ≡ slice_index_or of.now id None }
{
    match of.get(id.number()) {
        Some(link) => link.get(),
        None => None,
    }
}

/// Returns the incident cell at its place, if it has one.
fn moved_kept(of: &[Link], cell: KeptCell) -> KeptCell
    requires { (x n : ℕ) → IsPlaced of.now x n → n + 1 < 2 ^ 32 }
    ensures { (m : ℕ) → IsPlaced of.now cell m → result ≡ m }
{
    match place_of(of, cell.id()) {
        Some(place) => KeptCell::new(place),
        None => cell,
    }
}

/// Returns the incident cells at their places.
fn all_moved_kept(alloc: Global, kept: &[KeptCell], of: &[Link]) -> Result<Vec<KeptCell>, NoMemory>
    requires { (x n : ℕ) → IsPlaced of.now x n → n + 1 < 2 ^ 32 }
    ensures { IfOk result (λ new. AreKeptMoved of.now kept.now new.items (length kept.now)) }
{
    let mut moved = Vec::with_capacity(alloc, kept.len())?;
    for cell in kept {
        moved.push(moved_kept(of, *cell))?;
    }
    Ok(moved)
}

impl Tetra {
    /// Gives the same cells other numbers, so that no number below that of a cell is free. `order` lists numbers of cells:
    /// cells that are near each other in it get numbers near each other. It is a hint that decides nothing but speed, and no
    /// clause speaks of it: any list will do, also one in which numbers stand twice, have no cell, or are left out.
    ///
    /// It frees the memory of numbers that are free. The only error is out of memory, and after it all is as it was.
    pub fn renumber(&mut self, alloc: Global, order: &[u32]) -> Result<(), NoMemory>
        ensures renumbered { OnOk result (IsRenumbered (links_of self.old.slots) (links_of self.new.slots)) }
        ensures points { self.new.points ≡ self.old.points }
        ensures inserted { self.new.inserted ≡ self.old.inserted }
        ensures slots_left { OnErr result (self.new.slots ≡ self.old.slots) }
        ensures kept_left { OnErr result (self.new.kept ≡ self.old.kept) }
    {
        let places = places_of(alloc, &self.cells, order)?;
        let cells = copies(alloc, &self.cells, &places)?;
        let kept = all_moved_kept(alloc, &self.kept, &places.of)?;
        self.cells = cells;
        self.kept = kept;
        Ok(())
    }
}
