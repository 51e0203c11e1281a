//! All lines of sight of one scanner, followed from its cell outward, cell by cell.
//!
//! They wait in cells. All that wait in a cell leave it together: each goes through the side through which it came in as seen
//! from its vertex, adds its weight to the counter of the facet, and waits in the adjacent cell; or it ends, if the cell is the
//! one at its vertex. What the counters have and those that wait are yet to add is the same sum at all times, whichever cell is
//! left next: the order of the cells is a matter of speed.

ghost use Rattle.std.specs.Prelude.{◌≡◌, ◌<◌, ◌≤◌, ◌+◌, ◌*◌, ◌^◌, ℕ, true, OnOk, length, slice_index};
ghost use Rattle.std.specs.List.{All, sum_by};
ghost use Rattle.geo_sign.specs.declared.point.TheConstants.{DATA_LIMIT};
ghost use Rattle.geo_sign.specs.Point.{IsWithin};
ghost use Rattle.geo_sign.specs.Rational.{displaced};
ghost use Rattle.geo_sign.specs.Sights.{is_crossed};
ghost use Rattle.geo_sign.specs.Tetrahedron.{facet_of};
ghost use Rattle.tetra_store.specs.Delaunay.{IsDelaunay};
ghost use Rattle.tetra_store.specs.Links.{links_of, IsLive};
ghost use Rattle.tetra_store.specs.Store.{vertices_of};
ghost use Rattle.sight.specs.Walks.{IsEndCell};
ghost use Rattle.beam.specs.Ways.{IsRayIn};
ghost use Rattle.beam.specs.Beams.{IsPassage, IsWaiting, AreWaiting, AllWait, total, weight_on, still_added, steps_left, work};

use crate::NoMemory;
use crate::view::View;
use crate::waiting::{Queue, Waiting, put, take};
use crate::ways::{Ray, Ways, side_entered, ways_into};
use std::alloc::Global;
use std::collections::BinaryHeap;
use tetra_store::{CellId, Tetra};
use tetra_walk::NO_SIDE;

/// A line of sight that leaves a cell through a side.
#[derive(Clone, Copy)]
struct Exit {
    cell: CellId,
    side: usize,
    ray: Ray,
}

/// Counts a line of sight at the facet of a side, and has it wait in the adjacent cell.
fn cross(
    alloc: Global,
    view: &View<'_>,
    exit: Exit,
    queue: &mut Queue,
    crossed: &mut [u32],
) -> Result<(), NoMemory>
    requires delaunay { IsDelaunay (vertices_of view.now.t.now) (links_of view.now.t.now.slots) }
    requires data_point { IsWithin DATA_LIMIT view.now.s }
    requires waiting { AllWait view.now.t.now view.now.s queue.old.cells.items }
    requires ray { IsWaiting view.now.t.now view.now.s exit.cell exit.ray }
    requires side { exit.side < 4 }
    requires through { is_crossed (vertices_of view.now.t.now) exit.ray.vertex (displaced view.now.s) (facet_of ((links_of view.now.t.now.slots).at exit.cell) exit.side) ≡ true }
    requires fits { 4 * length view.now.t.now.slots ≤ length crossed.old }
    requires room { slice_index crossed.old (4 * exit.cell + exit.side) + exit.ray.added < 2 ^ 32 }
    ensures count { length crossed.new ≡ length crossed.old }
    ensures waiting { OnOk result (AllWait view.now.t.now view.now.s queue.new.cells.items) }
    ensures sums { OnOk result ((id k : ℕ) → IsLive (links_of view.now.t.now.slots) id → k < 4 → slice_index crossed.new (4 * id + k) + total (still_added view.now.t.now view.now.s id k) queue.new.cells.items ≡ slice_index crossed.old (4 * id + k) + total (still_added view.now.t.now view.now.s id k) queue.old.cells.items + still_added view.now.t.now view.now.s id k exit.cell exit.ray) }
    ensures work { OnOk result (work view.now.t.now view.now.s queue.new.cells.items + 1 ≤ work view.now.t.now view.now.s queue.old.cells.items + 2 * steps_left view.now.t.now view.now.s exit.cell exit.ray) }
{
    view.t.facts();
    crossed[4 * exit.cell.number() + exit.side] += exit.ray.added;
    match view.t.across(exit.cell, exit.side as u8) {
        None => unreachable!(),
        Some(next) => {
            put(alloc, view, queue, next, exit.ray)?;
            Ok(())
        }
    }
}

/// A cell that is left: its number, its vertices and how lines of sight came into it.
#[derive(Clone, Copy)]
struct Passage {
    cell: CellId,
    vertices: [u32; 4],
    ways: Ways,
}

/// Returns a cell as lines of sight leave it.
fn passage_of(view: &View<'_>, cell: CellId) -> Passage
    requires delaunay { IsDelaunay (vertices_of view.now.t.now) (links_of view.now.t.now.slots) }
    requires live { IsLive (links_of view.now.t.now.slots) cell }
    ensures { IsPassage view.now.t.now view.now.s cell result }
{
    view.t.facts();
    let vertices = view.t.vertices(cell);
    Passage {
        cell,
        vertices,
        ways: ways_into(view.t, vertices, view.s),
    }
}

/// Has a line of sight leave a cell: through the side through which it came in, if it does not begin in the cell.
#[inline(always)]
fn step(
    alloc: Global,
    view: &View<'_>,
    from: &Passage,
    ray: &Ray,
    queue: &mut Queue,
    crossed: &mut [u32],
) -> Result<(), NoMemory>
    requires delaunay { IsDelaunay (vertices_of view.now.t.now) (links_of view.now.t.now.slots) }
    requires data_point { IsWithin DATA_LIMIT view.now.s }
    requires waiting { AllWait view.now.t.now view.now.s queue.old.cells.items }
    requires from { IsPassage view.now.t.now view.now.s from.now.cell from.now }
    requires ray { IsWaiting view.now.t.now view.now.s from.now.cell ray.now }
    requires fits { 4 * length view.now.t.now.slots ≤ length crossed.old }
    requires room { (k : ℕ) → k < 4 → slice_index crossed.old (4 * from.now.cell + k) + still_added view.now.t.now view.now.s from.now.cell k from.now.cell ray.now < 2 ^ 32 }
    ensures count { length crossed.new ≡ length crossed.old }
    ensures waiting { OnOk result (AllWait view.now.t.now view.now.s queue.new.cells.items) }
    ensures sums { OnOk result ((id k : ℕ) → IsLive (links_of view.now.t.now.slots) id → k < 4 → slice_index crossed.new (4 * id + k) + total (still_added view.now.t.now view.now.s id k) queue.new.cells.items ≡ slice_index crossed.old (4 * id + k) + total (still_added view.now.t.now view.now.s id k) queue.old.cells.items + still_added view.now.t.now view.now.s id k from.now.cell ray.now) }
    ensures work { OnOk result (work view.now.t.now view.now.s queue.new.cells.items ≤ work view.now.t.now view.now.s queue.old.cells.items + 2 * steps_left view.now.t.now view.now.s from.now.cell ray.now) }
{
    view.t.facts();
    let side = side_entered(view.t, from.vertices, view.s, &from.ways, ray);
    if side == NO_SIDE {
        return Ok(());
    }
    let exit = Exit {
        cell: from.cell,
        side,
        ray: *ray,
    };
    cross(alloc, view, exit, queue, crossed)?;
    Ok(())
}

/// Has all lines of sight that wait in a cell leave it.
fn leave(
    alloc: Global,
    view: &View<'_>,
    from: &Waiting,
    queue: &mut Queue,
    crossed: &mut [u32],
) -> Result<(), NoMemory>
    requires delaunay { IsDelaunay (vertices_of view.now.t.now) (links_of view.now.t.now.slots) }
    requires data_point { IsWithin DATA_LIMIT view.now.s }
    requires waiting { AllWait view.now.t.now view.now.s queue.old.cells.items }
    requires from { AreWaiting view.now.t.now view.now.s from.now }
    requires fits { 4 * length view.now.t.now.slots ≤ length crossed.old }
    requires room { (id k : ℕ) → IsLive (links_of view.now.t.now.slots) id → k < 4 → slice_index crossed.old (4 * id + k) + total (still_added view.now.t.now view.now.s id k) queue.old.cells.items + sum_by (still_added view.now.t.now view.now.s id k from.now.cell) from.now.rays.items < 2 ^ 32 }
    ensures count { length crossed.new ≡ length crossed.old }
    ensures waiting { OnOk result (AllWait view.now.t.now view.now.s queue.new.cells.items) }
    ensures sums { OnOk result ((id k : ℕ) → IsLive (links_of view.now.t.now.slots) id → k < 4 → slice_index crossed.new (4 * id + k) + total (still_added view.now.t.now view.now.s id k) queue.new.cells.items ≡ slice_index crossed.old (4 * id + k) + total (still_added view.now.t.now view.now.s id k) queue.old.cells.items + sum_by (still_added view.now.t.now view.now.s id k from.now.cell) from.now.rays.items) }
    ensures work { OnOk result (work view.now.t.now view.now.s queue.new.cells.items ≤ work view.now.t.now view.now.s queue.old.cells.items + 2 * sum_by (steps_left view.now.t.now view.now.s from.now.cell) from.now.rays.items) }
{
    let passage = passage_of(view, from.cell);
    for ray in &from.rays {
        step(alloc, view, &passage, ray, queue, crossed)?;
    }
    Ok(())
}

/// Follows all lines of sight that wait until each has ended.
fn follow(
    alloc: Global,
    view: &View<'_>,
    queue: &mut Queue,
    crossed: &mut [u32],
) -> Result<(), NoMemory>
    requires delaunay { IsDelaunay (vertices_of view.now.t.now) (links_of view.now.t.now.slots) }
    requires data_point { IsWithin DATA_LIMIT view.now.s }
    requires waiting { AllWait view.now.t.now view.now.s queue.old.cells.items }
    requires fits { 4 * length view.now.t.now.slots ≤ length crossed.old }
    requires room { (id k : ℕ) → IsLive (links_of view.now.t.now.slots) id → k < 4 → slice_index crossed.old (4 * id + k) + total (still_added view.now.t.now view.now.s id k) queue.old.cells.items < 2 ^ 32 }
    ensures count { length crossed.new ≡ length crossed.old }
    ensures sums { OnOk result ((id k : ℕ) → IsLive (links_of view.now.t.now.slots) id → k < 4 → slice_index crossed.new (4 * id + k) ≡ slice_index crossed.old (4 * id + k) + total (still_added view.now.t.now view.now.s id k) queue.old.cells.items) }
{
    while let Some(from) = take(queue) {
        leave(alloc, view, &from, queue, crossed)?;
    }
    Ok(())
}

/// Cells to be left, kept from one scanner to the next.
#[derive(Drop)]
pub struct Beams {
    queue: Queue,
}

impl Beams {
    /// Returns what is needed to count along the lines of sight of any scanner through the cells of a store: four bytes for
    /// each number of a cell.
    pub fn new(alloc: Global, t: &Tetra) -> Result<Beams, NoMemory> {
        Ok(Beams {
            queue: Queue {
                cells: Vec::new(alloc),
                places: vec![in alloc; 0; t.number_limit()]?,
                order: BinaryHeap::new(alloc),
            },
        })
    }

    /// Adds to the counter of each directed facet, at 4 * id + side, the weights of the lines of sight that cross it. They are
    /// from inserted data points to the scanner, whose cell is given, as `locate_scanner` finds it. The cells have to be
    /// Delaunay. The only error is out of memory; the counters are then meaningless.
    pub fn count(
        &mut self,
        alloc: Global,
        view: &View<'_>,
        end: CellId,
        rays: Vec<Ray>,
        crossed: &mut [u32],
    ) -> Result<(), NoMemory>
        requires delaunay { IsDelaunay (vertices_of view.now.t.now) (links_of view.now.t.now.slots) }
        requires data_point { IsWithin DATA_LIMIT view.now.s }
        requires end { IsEndCell view.now.t.now view.now.s end }
        requires rays { All (IsRayIn view.now.t.now) rays.items }
        requires fits { 4 * length view.now.t.now.slots ≤ length crossed.old }
        requires room { (id k : ℕ) → IsLive (links_of view.now.t.now.slots) id → k < 4 → slice_index crossed.old (4 * id + k) + sum_by (weight_on view.now.t.now view.now.s id k) rays.items < 2 ^ 32 }
        ensures count { length crossed.new ≡ length crossed.old }
        ensures added { OnOk result ((id k : ℕ) → IsLive (links_of view.now.t.now.slots) id → k < 4 → slice_index crossed.new (4 * id + k) ≡ slice_index crossed.old (4 * id + k) + sum_by (weight_on view.now.t.now view.now.s id k) rays.items) }
    {
        view.t.facts();
        self.queue.cells.clear();
        self.queue.order.clear();
        self.queue.cells.push(Waiting { cell: end, rays })?;
        follow(alloc, view, &mut self.queue, crossed)?;
        Ok(())
    }
}
