//! The store.

ghost use Rattle.std.specs.Prelude.{◌≡◌, ◌<◌, ◌≤◌, ◌++◌, ◌↔◌, ℕ, Some, None, OnOk, length, get_or, slice_index, slice_index_or, false, IfSome, IfNone};
ghost use Rattle.geo_sign.specs.Point.{origin};
ghost use Rattle.geo_sign.specs.Tetrahedron.{facet_of};
ghost use Rattle.geo_sign.specs.Vertices.{corners, Has, IsWall};
ghost use Rattle.geo_sign.specs.Writings.{IsVertexOf};
ghost use Rattle.tetra_store.specs.Links.{links_of, slot_at, tetrahedron_from, IsLive, IsOnlyAcross};

use crate::edge::Edge;
use crate::hints::Hints;
use crate::kept::KeptCell;
use crate::linked::Linked;
use crate::{Cell, CellId, NoMemory};
use geo_sign::{CORNERS, Point};
use slab::Slab;
use std::alloc::AllocError;
use std::marker::Model;

/// The cells that may have a number, as the largest stands for none.
pub const MOST_CELLS: usize = 4_294_967_295;

/// All vertices, which of them are inserted, and linked cells over those.
///
/// The corners of the box are the vertices 0 to 7 and are inserted. The others are distinct data points. Each cell is
/// positively oriented over distinct inserted vertices. No two cells have a directed facet in common. Neighbors name each other
/// at the same facet in its two directions. A facet has no neighbor exactly on a wall of the box. Each inserted vertex has an
/// incident cell.
#[derive(Drop)]
pub struct Tetra {
    pub(crate) points: Vec<Point>,
    pub(crate) inserted: Vec<bool>,
    pub(crate) kept: Vec<KeptCell>,
    pub(crate) cells: Slab<Linked>,
    // Filled and emptied by `replace`, so that it takes no memory.
    pub(crate) ids: Vec<CellId>,
    pub(crate) edges: Vec<Edge>,
    pub(crate) hints: Hints,
}

impl Model for Tetra {
    ghost use Rattle.std.specs.Prelude.{vec_capacity};
    ghost use Rattle.tetra_store.specs.Store.{Store, IsStore, store_from};

    ghost Value = { Store };

    ghost view = { λ t. store_from t.points.items t.inserted.items t.cells t.kept.items (vec_capacity t.ids) (vec_capacity t.edges) };

    ghost invariant = { λ t. IsStore (store_from t.points.items t.inserted.items t.cells t.kept.items (vec_capacity t.ids) (vec_capacity t.edges)) };
}

/// The adjacent cell at a side of another.
#[derive(Clone, Copy, Debug, PartialEq, Eq)]
pub struct Neighbor {
    /// Its number.
    pub id: CellId,
    /// The mirror index: the side of it, 0 to 3, at which the other cell is.
    pub side: usize,
    /// Its four vertices, as `vertices` has them.
    pub vertices: [u32; 4],
}

impl Tetra {
    ghost use Rattle.tetra_store.specs.Store.{IsStore, data_points_of, vertices_of};

    /// Does nothing. Its clause is what each store keeps, for the proofs of callers.
    pub fn facts(&self)
        ensures { IsStore self.now }
    {
        let _points = &self.points;
    }

    /// How many vertices there are, inserted or not: the eight corners and the data points. They are numbered from 0.
    pub fn vertex_count(&self) -> u32
        ensures { result ≡ length self.now.points }
    {
        self.points.len() as u32
    }

    /// Where a vertex is, in scaled whole units.
    pub fn point(&self, v: u32) -> Point
        requires { v < length self.now.points }
        ensures { result ≡ get_or self.now.points v origin }
    {
        self.points[v as usize]
    }

    /// The points of all vertices but the eight corners, in order of their numbers: the first is that of vertex 8.
    pub fn data_points(&self) -> &[Point]
        ensures value { result.now ≡ data_points_of self.now }
        ensures points { self.now.points ≡ corners ++ result.now }
    {
        &self.points[CORNERS as usize..]
    }

    /// Whether a vertex is inserted.
    pub fn is_inserted(&self, v: u32) -> bool
        requires { v < length self.now.points }
        ensures { result ≡ slice_index_or self.now.inserted v false }
    {
        self.inserted[v as usize]
    }

    /// The cell with a number, which is live.
    pub fn cell(&self, id: CellId) -> Cell
        requires { IsLive (links_of self.now.slots) id }
        ensures { slot_at self.now.slots id ≡ Some result }
    {
        self.cells[id.number()].cell()
    }

    /// The four vertices of a live cell, as `cell` has them.
    pub fn vertices(&self, id: CellId) -> [u32; 4]
        requires { IsLive (links_of self.now.slots) id }
        ensures { tetrahedron_from result ≡ (links_of self.now.slots).at id }
    {
        self.cells[id.number()].vertices()
    }

    /// Returns the neighbor of a cell at a side, which is 0 to 3: the adjacent cell at the facet opposite to that vertex. There
    /// is none exactly if the facet is on a wall, and else it is the only cell that has the facet in the other direction.
    pub fn across(&self, id: CellId, side: u8) -> Option<CellId>
        requires live { IsLive (links_of self.now.slots) id }
        requires side { side < 4 }
        ensures value { result ≡ (links_of self.now.slots).next id side }
        ensures wall { (result ≡ None) ↔ IsWall (vertices_of self.now) (facet_of ((links_of self.now.slots).at id) side) }
        ensures only { IfSome result (λ other. IsOnlyAcross (links_of self.now.slots) id side other) }
    {
        self.cells[id.number()].next(side as usize)
    }

    /// Returns the neighbor of a cell at a side, 0 to 3, as `across` returns it, with its mirror index and its vertices. Two
    /// cells are neighbors at one facet alone. For walks, which go from cell to cell: it looks each cell up once, and mostly
    /// does not search for the mirror index.
    #[inline(always)]
    pub fn neighbor(&self, id: CellId, side: usize) -> Option<Neighbor>
        requires live { IsLive (links_of self.now.slots) id }
        requires side { side < 4 }
        ensures across { IfSome result (λ n. (links_of self.now.slots).next id side ≡ Some n.id) }
        ensures wall { IfNone result ((links_of self.now.slots).next id side ≡ None) }
        ensures side { IfSome result (λ n. n.side < 4) }
        ensures back { IfSome result (λ n. (links_of self.now.slots).next n.id n.side ≡ Some id) }
        ensures vertices { IfSome result (λ n. tetrahedron_from n.vertices ≡ (links_of self.now.slots).at n.id) }
    {
        let cell = &self.cells[id.number()];
        let next = cell.next(side)?;
        let there = &self.cells[next.number()];
        Some(Neighbor {
            id: next,
            side: there.side_to(id, cell.back(side)),
            vertices: there.vertices(),
        })
    }

    /// Returns the incident cell of an inserted vertex: a live cell that has it. Which one it is changes as cells are replaced.
    pub fn cell_at(&self, v: u32) -> CellId
        requires { Has (vertices_of self.now) v }
        ensures value { result ≡ slice_index self.now.kept v }
        ensures live { IsLive (links_of self.now.slots) result }
        ensures has { IsVertexOf ((links_of self.now.slots).at result) v }
    {
        self.kept[v as usize].id()
    }

    /// A number above those of all cells, as for a list with an entry for each cell: for how many cells the store has taken memory.
    pub fn number_limit(&self) -> usize
        ensures capacity { result ≡ self.now.capacity }
        ensures slots { length self.now.slots ≤ result }
        ensures above { (id : ℕ) → IsLive (links_of self.now.slots) id → id < result }
    {
        self.cells.capacity()
    }

    /// Makes room for `cells` cells more than there are, so that the store is not copied while it grows by these. It gives
    /// `replace` no room: `reserve` does, and takes no more memory for cells then. Points, cells and what is inserted stay in
    /// any case, and `spare` does not grow less. Out of memory is returned too if numbers of cells would not fit 32 bits.
    pub fn reserve_cells(&mut self, cells: usize) -> Result<(), NoMemory>
        ensures spare { OnOk result (self.old.spare ≤ self.new.spare) }
        ensures capacity { self.old.capacity ≤ self.new.capacity }
        ensures points { self.new.points ≡ self.old.points }
        ensures inserted { self.new.inserted ≡ self.old.inserted }
        ensures slots { self.new.slots ≡ self.old.slots }
        ensures kept { self.new.kept ≡ self.old.kept }
    {
        if cells > MOST_CELLS {
            return Err(AllocError);
        }
        self.cells.reserve(cells)?;
        if self.cells.capacity() > MOST_CELLS {
            return Err(AllocError);
        }
        Ok(())
    }

    /// Makes room for `cells` new cells, so that `replace` may put them in with no memory taken. Out of memory is returned too if
    /// numbers of cells would not fit 32 bits. Points, cells and what is inserted stay in any case.
    pub fn reserve(&mut self, cells: usize) -> Result<(), NoMemory>
        ensures spare { OnOk result (cells ≤ self.new.spare) }
        ensures capacity { self.old.capacity ≤ self.new.capacity }
        ensures points { self.new.points ≡ self.old.points }
        ensures inserted { self.new.inserted ≡ self.old.inserted }
        ensures slots { self.new.slots ≡ self.old.slots }
        ensures kept { self.new.kept ≡ self.old.kept }
    {
        if cells > MOST_CELLS {
            return Err(AllocError);
        }
        self.ids.clear();
        self.ids.reserve(cells)?;
        self.edges.clear();
        self.edges.reserve(cells * 3)?;
        self.hints.reserve(self.points.len())?;
        self.cells.reserve(cells)?;
        if self.cells.capacity() > MOST_CELLS {
            return Err(AllocError);
        }
        Ok(())
    }
}
