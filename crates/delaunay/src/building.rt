//! The insertion of all points.

ghost use Rattle.std.specs.Prelude.{◌≡◌, ◌<◌, ◌≤◌, ◌++◌, ℕ, true, false, IfOk, length, get_or, slice_index_or, nat_lt};
ghost use Rattle.geo_sign.specs.Point.{origin, IsWithin};
ghost use Rattle.geo_sign.specs.declared.point.TheConstants.{CORNERS, DATA_LIMIT};
ghost use Rattle.geo_sign.specs.Vertices.{corners, boxed_vertices};
ghost use Rattle.tetra_store.specs.declared.boxed.TheConstants.{VERTEX_LIMIT};
ghost use Rattle.tetra_store.specs.Links.{links_of};
ghost use Rattle.tetra_store.specs.Store.{vertices_of};
ghost use Rattle.tetra_store.specs.Delaunay.{IsDelaunay};
ghost use Rattle.curve_order.specs.Order.{IsOrder};
ghost use Rattle.delaunay.specs.Partition.{IsPartition};

use crate::NoMemory;
use crate::insertion::insert_with;
use crate::numbering::{along_ranks, ranks_of};
use cavity::Cavity;
use curve_order::{in_rounds, order};
use geo_sign::{CORNERS, Point};
use std::alloc::Global;
use tetra_store::Tetra;
use watch::{Silent, Stage, Watch, tell};

/// Returns the Delaunay cells of the box's corners and these distinct data points, all of them inserted; point i is vertex 8 +
/// i.
///
/// The points are inserted in rounds along a curve, so that each is near its predecessor and few short-lived cells are created.
/// In the end the cells are numbered along the curve. This affects the time, but not the set of cells. The only error is out of
/// memory.
pub fn build(alloc: Global, points: &[Point]) -> Result<Tetra, NoMemory>
    requires within { (k : ℕ) → k < length points.now → IsWithin DATA_LIMIT (get_or points.now k origin) }
    requires distinct { (j k : ℕ) → j < length points.now → k < length points.now → get_or points.now j origin ≡ get_or points.now k origin → j ≡ k }
    requires few { length points.now ≤ VERTEX_LIMIT }
    ensures points { IfOk result (λ t. t.points ≡ corners ++ points.now) }
    ensures inserted { IfOk result (λ t. (u : ℕ) → u < length t.points → slice_index_or t.inserted u false ≡ true) }
    ensures delaunay { IfOk result (λ t. IsDelaunay (vertices_of t) (links_of t.slots)) }
    ensures cells { IfOk result (λ t. IsDelaunay (boxed_vertices points.now) (links_of t.slots)) }
    ensures partition { IfOk result (λ t. IsPartition t) }
{
    build_watched(alloc, points, &mut Silent)
}

/// Returns the same, and reports the stage and the number of inserted points to a progress callback.
pub fn build_watched<W: Watch>(
    alloc: Global,
    points: &[Point],
    watch: &mut W,
) -> Result<Tetra, NoMemory>
    requires within { (k : ℕ) → k < length points.now → IsWithin DATA_LIMIT (get_or points.now k origin) }
    requires distinct { (j k : ℕ) → j < length points.now → k < length points.now → get_or points.now j origin ≡ get_or points.now k origin → j ≡ k }
    requires few { length points.now ≤ VERTEX_LIMIT }
    ensures points { IfOk result (λ t. t.points ≡ corners ++ points.now) }
    ensures inserted { IfOk result (λ t. (u : ℕ) → u < length t.points → slice_index_or t.inserted u false ≡ true) }
    ensures delaunay { IfOk result (λ t. IsDelaunay (vertices_of t) (links_of t.slots)) }
    ensures cells { IfOk result (λ t. IsDelaunay (boxed_vertices points.now) (links_of t.slots)) }
    ensures partition { IfOk result (λ t. IsPartition t) }
{
    watch.stage(Stage::Cells, points.len() as u64);
    let along = order(alloc, points)?;
    let ranks = ranks_of(alloc, &along)?;
    let order = in_rounds(along)?;
    let mut t = build_in_order(alloc, points, &order, watch)?;
    let numbers = along_ranks(alloc, &t, &ranks)?;
    t.renumber(alloc, &numbers)?;
    t.facts();
    Ok(t)
}

/// The approximate number of cells for each point, if points are distributed in space. There are fewer if they lie on surfaces.
const CELLS_PER_POINT: usize = 7;

/// Returns the box with these points, none of them inserted, and capacity for about the expected number of cells.
fn box_with(alloc: Global, points: &[Point]) -> Result<Tetra, NoMemory>
    requires within { (k : ℕ) → k < length points.now → IsWithin DATA_LIMIT (get_or points.now k origin) }
    requires distinct { (j k : ℕ) → j < length points.now → k < length points.now → get_or points.now j origin ≡ get_or points.now k origin → j ≡ k }
    requires few { length points.now ≤ VERTEX_LIMIT }
    ensures points { IfOk result (λ t. t.points ≡ corners ++ points.now) }
    ensures inserted { IfOk result (λ t. (u : ℕ) → slice_index_or t.inserted u false ≡ nat_lt u CORNERS) }
    ensures cells { IfOk result (λ t. IsDelaunay (vertices_of t) (links_of t.slots)) }
{
    let mut t = Tetra::with_box(alloc, points)?;
    t.reserve_cells(CELLS_PER_POINT * points.len())?;
    Ok(t)
}

/// Returns the same, with the points inserted in this order. Each walk begins at the cell that the previous insertion returned.
fn build_in_order<W: Watch>(
    alloc: Global,
    points: &[Point],
    order: &[u32],
    watch: &mut W,
) -> Result<Tetra, NoMemory>
    requires within { (k : ℕ) → k < length points.now → IsWithin DATA_LIMIT (get_or points.now k origin) }
    requires distinct { (j k : ℕ) → j < length points.now → k < length points.now → get_or points.now j origin ≡ get_or points.now k origin → j ≡ k }
    requires few { length points.now ≤ VERTEX_LIMIT }
    requires order { IsOrder (length points.now) order.now }
    ensures points { IfOk result (λ t. t.points ≡ corners ++ points.now) }
    ensures inserted { IfOk result (λ t. (u : ℕ) → u < length t.points → slice_index_or t.inserted u false ≡ true) }
    ensures delaunay { IfOk result (λ t. IsDelaunay (vertices_of t) (links_of t.slots)) }
    ensures cells { IfOk result (λ t. IsDelaunay (boxed_vertices points.now) (links_of t.slots)) }
    ensures partition { IfOk result (λ t. IsPartition t) }
{
    let mut t = box_with(alloc, points)?;
    t.facts();
    let mut cavity = Cavity::new(alloc);
    let mut at = t.cell_at(0);
    for i in 0..order.len() {
        tell(watch, i);
        t.facts();
        at = insert_with(&mut t, CORNERS + order[i], at, &mut cavity)?;
    }
    t.facts();
    Ok(t)
}
