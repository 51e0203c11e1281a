//! The store of the box: six cells over its corners.

ghost use Rattle.std.specs.Prelude.{◌≡◌, ◌<◌, ◌≤◌, ◌+◌, ◌^◌, ◌++◌, ℕ, true, false, [], IfOk, length, get_or, slice_index, slice_index_or, nat_lt};
ghost use Rattle.slab.specs.Slab.{ContainsKey};
ghost use Rattle.geo_sign.specs.Point.{origin, IsWithin};
ghost use Rattle.geo_sign.specs.declared.point.TheConstants.{CORNERS, DATA_LIMIT};
ghost use Rattle.geo_sign.specs.Vertices.{corners};
ghost use Rattle.tetra_store.specs.declared.boxed.TheConstants.{VERTEX_LIMIT};
ghost use Rattle.tetra_store.specs.Links.{links_of};
ghost use Rattle.tetra_store.specs.Steps.{ArePut};
ghost use Rattle.tetra_store.specs.Box.{box_keeper, box_cell, IsBoxStep, IsBoxLinked, AreBoxCells};
ghost use Rattle.tetra_store.specs.Delaunay.{IsDelaunay};

use crate::growth::put;
use crate::hints::Hints;
use crate::kept::KeptCell;
use crate::linked::{Linked, set_next};
use crate::store::MOST_CELLS;
use crate::{CellId, NoMemory, Tetra};
use geo_sign::{POINT_LIMIT, Point, corner};
use slab::Slab;
use std::alloc::{AllocError, Global};

/// The most data points of a store, so that numbers of vertices and heights fit.
pub const VERTEX_LIMIT: usize = POINT_LIMIT as usize;

/// The vertices of the six cells.
const ROWS: [[u32; 4]; 6] = [
    [0, 1, 2, 4],
    [1, 2, 4, 3],
    [1, 3, 4, 5],
    [2, 3, 6, 4],
    [3, 4, 5, 6],
    [3, 5, 7, 6],
];

/// Which of them is adjacent at each side; 6 stands for none.
const ACROSS: [[usize; 4]; 6] = [
    [1, 6, 6, 6],
    [3, 2, 6, 0],
    [4, 6, 6, 1],
    [4, 6, 1, 6],
    [6, 5, 3, 2],
    [6, 6, 4, 6],
];

/// One of them for each corner, which has it.
const KEEPERS: [usize; 8] = [0, 0, 0, 1, 0, 2, 3, 5];

/// Puts the six cells in, with no neighbors.
fn put_box(cells: &mut Slab<Linked>, ids: &mut Vec<CellId>) -> Result<(), NoMemory>
    requires empty { cells.old.slots ≡ [] }
    requires none { ids.old.items ≡ [] }
    ensures count { IfOk result (λ _. length ids.new.items ≡ 6) }
    ensures put { IfOk result (λ _. ArePut [] cells.new.slots box_cell ids.new.items) }
{
    cells.reserve(6)?;
    ids.reserve(6)?;
    if cells.capacity() > MOST_CELLS {
        return Err(AllocError);
    }
    for i in 0..6 {
        ids.push_reserved(put(cells, ROWS[i], None));
    }
    Ok(())
}

/// Links one side of one of the six cells.
fn link_side(cells: &mut Slab<Linked>, ids: &[CellId], i: usize, k: usize)
    requires count { length ids.now ≡ 6 }
    requires cell { i < 6 }
    requires side { k < 4 }
    requires small { (j : ℕ) → j < 6 → slice_index ids.now j + 1 < 2 ^ 32 }
    requires live { (j : ℕ) → j < 6 → ContainsKey cells.old (slice_index ids.now j) }
    ensures { IsBoxStep (links_of cells.old.slots) (links_of cells.new.slots) ids.now i k }
{
    let other = ACROSS[i][k];
    if other < 6 {
        set_next(cells, ids[i], k, ids[other], 0);
    }
}

/// Links the six cells.
fn link_box(cells: &mut Slab<Linked>, ids: &[CellId])
    requires count { length ids.now ≡ 6 }
    requires put { ArePut [] cells.old.slots box_cell ids.now }
    ensures { IsBoxLinked (links_of cells.old.slots) (links_of cells.new.slots) ids.now 24 }
{
    for n in 0..24 {
        link_side(cells, ids, n / 4, n % 4);
    }
}

/// The corners and then these points.
fn with_corners(alloc: Global, points: &[Point]) -> Result<Vec<Point>, NoMemory>
    ensures { IfOk result (λ all. all.items ≡ corners ++ points.now) }
{
    let mut all = vec![in alloc;
        corner(0),
        corner(1),
        corner(2),
        corner(3),
        corner(4),
        corner(5),
        corner(6),
        corner(7),
    ]?;
    all.extend_from_slice(points)?;
    Ok(all)
}

/// Returns the flags of `count` vertices with the corners alone inserted.
fn corner_flags(alloc: Global, count: usize) -> Result<Vec<bool>, NoMemory>
    requires { CORNERS ≤ count }
    ensures count { IfOk result (λ flags. length flags.items ≡ count) }
    ensures flags { IfOk result (λ flags. (u : ℕ) → slice_index_or flags.items u false ≡ nat_lt u CORNERS) }
{
    let mut flags = vec![in alloc; false; count]?;
    for u in 0..8 {
        flags[u] = true;
    }
    Ok(flags)
}

/// Returns incident cells for `count` vertices: that of each corner has it.
fn corner_keeps(alloc: Global, count: usize, ids: &[CellId]) -> Result<Vec<KeptCell>, NoMemory>
    requires count { CORNERS ≤ count }
    requires ids { length ids.now ≡ 6 }
    requires small { (i : ℕ) → i < 6 → slice_index ids.now i + 1 < 2 ^ 32 }
    ensures count { IfOk result (λ kept. length kept.items ≡ count) }
    ensures kept { IfOk result (λ kept. (u : ℕ) → u < CORNERS → slice_index kept.items u ≡ slice_index ids.now (box_keeper u)) }
{
    let mut kept = vec![in alloc; KeptCell::new(ids[0]); count]?;
    for u in 0..8 {
        kept[u] = KeptCell::new(ids[KEEPERS[u]]);
    }
    Ok(kept)
}

/// The six linked cells of the box, and their numbers.
fn box_cells(alloc: Global) -> Result<(Slab<Linked>, Vec<CellId>), NoMemory>
    ensures cells { IfOk result (λ r. AreBoxCells (links_of r.0.slots) r.1.items) }
    ensures count { IfOk result (λ r. length r.1.items ≡ 6) }
    ensures small { IfOk result (λ r. (i : ℕ) → i < 6 → slice_index r.1.items i + 1 < 2 ^ 32) }
{
    let mut cells = Slab::new(alloc);
    let mut ids = Vec::new(alloc);
    put_box(&mut cells, &mut ids)?;
    link_box(&mut cells, &ids);
    Ok((cells, ids))
}

impl Tetra {
    ghost use Rattle.tetra_store.specs.Store.{vertices_of};

    /// The store of the box with these points, none of them inserted. Point i is vertex 8 + i. The cells are the Delaunay cells of
    /// the corners. The points are distinct data points, `VERTEX_LIMIT` at most.
    pub fn with_box(alloc: Global, points: &[Point]) -> Result<Tetra, NoMemory>
        requires within { (k : ℕ) → k < length points.now → IsWithin DATA_LIMIT (get_or points.now k origin) }
        requires distinct { (j k : ℕ) → j < length points.now → k < length points.now → get_or points.now j origin ≡ get_or points.now k origin → j ≡ k }
        requires few { length points.now ≤ VERTEX_LIMIT }
        ensures points { IfOk result (λ t. t.points ≡ corners ++ points.now) }
        ensures inserted { IfOk result (λ t. (u : ℕ) → slice_index_or t.inserted u false ≡ nat_lt u CORNERS) }
        ensures cells { IfOk result (λ t. IsDelaunay (vertices_of t) (links_of t.slots)) }
    {
        let all = with_corners(alloc, points)?;
        let inserted = corner_flags(alloc, all.len())?;
        let (cells, ids) = box_cells(alloc)?;
        let kept = corner_keeps(alloc, all.len(), &ids)?;
        Ok(Tetra {
            points: all,
            inserted,
            kept,
            cells,
            ids,
            edges: Vec::new(alloc),
            hints: Hints::new(alloc),
        })
    }
}
