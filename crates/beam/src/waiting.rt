//! Lines of sight that wait in cells.

ghost use Rattle.std.specs.Prelude.{◌≡◌, ◌≤◌, ◌<◌, ◌+◌, ◌++◌, ◌∷◌, [], ℕ, OnOk, IfOk, IfSome, IfNone, IsTrue, length, slice_index_or};
ghost use Rattle.std.specs.List.Sorted.{IsPermutation};
ghost use Rattle.tetra_store.specs.Links.{links_of, IsLive};
ghost use Rattle.beam.specs.declared.waiting.Waiting.{Waiting};
ghost use Rattle.beam.specs.Beams.{IsWaiting, AllWait, total};

use crate::NoMemory;
use crate::order::rank_of;
use crate::view::View;
use crate::ways::Ray;
use std::alloc::Global;
use std::collections::BinaryHeap;
use tetra_store::CellId;

/// A cell, and the lines of sight that have come to it and not gone on.
#[derive(Drop)]
pub(crate) struct Waiting {
    pub(crate) cell: CellId,
    pub(crate) rays: Vec<Ray>,
}

/// Cells with lines of sight that wait. The rest are hints, tested before they are used: for each number of a cell where it may
/// be in that list, and cells by their ranks and numbers, the greatest rank first.
#[derive(Drop)]
pub(crate) struct Queue {
    pub(crate) cells: Vec<Waiting>,
    pub(crate) places: Vec<u32>,
    pub(crate) order: BinaryHeap<(i64, usize)>,
}

/// Adds a line of sight to those that wait in a cell.
fn join(waiting: &mut Waiting, ray: Ray) -> Result<(), NoMemory>
    ensures cell { waiting.new.cell ≡ waiting.old.cell }
    ensures rays { OnOk result (waiting.new.rays.items ≡ waiting.old.rays.items ++ ray ∷ []) }
{
    waiting.rays.push(ray)?;
    Ok(())
}

/// Returns a cell with one line of sight that waits in it.
fn alone(alloc: Global, cell: CellId, ray: Ray) -> Result<Waiting, NoMemory>
    ensures { IfOk result (λ waiting. (waiting.cell ≡ cell) × (waiting.rays.items ≡ ray ∷ [])) }
{
    let mut rays = Vec::new(alloc);
    rays.push(ray)?;
    Ok(Waiting { cell, rays })
}

/// Returns whether a cell is at a place in the list.
fn is_at(queue: &Queue, place: usize, cell: CellId) -> bool
    ensures { IsTrue result → (place < length queue.now.cells.items) × ((d : Waiting) → (slice_index_or queue.now.cells.items place d).cell ≡ cell) }
{
    match queue.cells.get(place) {
        Some(there) => there.cell == cell,
        None => false,
    }
}

/// Returns where a cell is in the list, if that is noted.
fn place_of(queue: &Queue, cell: CellId) -> Option<usize>
    ensures { IfSome result (λ place. (place < length queue.now.cells.items) × ((d : Waiting) → (slice_index_or queue.now.cells.items place d).cell ≡ cell)) }
{
    let place = *queue.places.get(cell.number())? as usize;
    if is_at(queue, place, cell) {
        Some(place)
    } else {
        None
    }
}

/// Returns the number of cells in the list.
fn count_of(queue: &Queue) -> usize
    ensures { result ≡ length queue.now.cells.items }
{
    queue.cells.len()
}

/// Notes where a cell is in the list.
fn note_place(queue: &mut Queue, cell: CellId, place: usize)
    ensures { queue.new.cells.items ≡ queue.old.cells.items }
{
    if let Ok(place) = u32::try_from(place) {
        if let Some(entry) = queue.places.get_mut(cell.number()) {
            *entry = place;
        }
    }
}

/// Notes the rank of a cell.
fn note_rank(view: &View<'_>, queue: &mut Queue, cell: CellId) -> Result<(), NoMemory>
    requires { IsLive (links_of view.now.t.now.slots) cell }
    ensures { queue.new.cells.items ≡ queue.old.cells.items }
{
    view.t.facts();
    let rank = rank_of(view.t, view.t.vertices(cell), view.s);
    queue.order.push((rank, cell.number()))?;
    Ok(())
}

/// Has a line of sight wait in a cell, with the others that do.
pub(crate) fn put(
    alloc: Global,
    view: &View<'_>,
    queue: &mut Queue,
    cell: CellId,
    ray: Ray,
) -> Result<(), NoMemory>
    requires waiting { AllWait view.now.t.now view.now.s queue.old.cells.items }
    requires ray { IsWaiting view.now.t.now view.now.s cell ray }
    ensures waiting { OnOk result (AllWait view.now.t.now view.now.s queue.new.cells.items) }
    ensures sums { OnOk result ((f : ℕ → Ray → ℕ) → total f queue.new.cells.items ≡ total f queue.old.cells.items + f cell ray) }
    ensures few { OnOk result (length queue.new.cells.items ≤ length queue.old.cells.items + 1) }
{
    match place_of(queue, cell) {
        Some(place) => {
            join(&mut queue.cells[place], ray)?;
            Ok(())
        }
        None => {
            let last = count_of(queue);
            note_place(queue, cell, last);
            note_rank(view, queue, cell)?;
            queue.cells.push(alone(alloc, cell, ray)?)?;
            Ok(())
        }
    }
}

/// Returns the noted place of the next cell in the order, which is removed there.
fn next_place(queue: &mut Queue) -> usize
    ensures { queue.new.cells.items ≡ queue.old.cells.items }
{
    match queue.order.pop() {
        Some((_, number)) => match queue.places.get(number) {
            Some(place) => *place as usize,
            None => usize::MAX,
        },
        None => usize::MAX,
    }
}

/// Returns the place of a cell to be left next: of the next in the order, or else the last one. Returns `None` exactly if there
/// is none.
fn pick(queue: &mut Queue) -> Option<usize>
    ensures same { queue.new.cells.items ≡ queue.old.cells.items }
    ensures some { IfSome result (λ place. place < length queue.old.cells.items) }
    ensures none { IfNone result (queue.old.cells.items ≡ []) }
{
    let count = count_of(queue);
    if count == 0 {
        return None;
    }
    let place = next_place(queue);
    if place < count {
        Some(place)
    } else {
        Some(count - 1)
    }
}

/// Notes the place of the cell that is there now, if there is one.
fn note_moved(queue: &mut Queue, place: usize)
    ensures { queue.new.cells.items ≡ queue.old.cells.items }
{
    let cell = match queue.cells.get(place) {
        Some(there) => there.cell,
        None => return,
    };
    note_place(queue, cell, place);
}

/// Removes a cell from the list: the next in the order, if the hints are right.
pub(crate) fn take(queue: &mut Queue) -> Option<Waiting>
    ensures some { IfSome result (λ waiting. IsPermutation queue.old.cells.items (waiting ∷ queue.new.cells.items)) }
    ensures none { IfNone result (queue.old.cells.items ≡ []) }
{
    match pick(queue) {
        None => None,
        Some(place) => {
            let waiting = queue.cells.swap_remove(place);
            note_moved(queue, place);
            Some(waiting)
        }
    }
}
