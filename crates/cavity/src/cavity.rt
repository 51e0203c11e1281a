//! The conflict region of a vertex, and the call that finds it.

ghost use Rattle.std.specs.Prelude.{◌≡◌, ◌<◌, false, [], OnOk, OnErr, length, slice_index_or};
ghost use Rattle.tetra_store.specs.Links.{links_of, IsLive};
ghost use Rattle.tetra_store.specs.Store.{vertices_of};
ghost use Rattle.tetra_store.specs.Delaunay.{IsDelaunay};
ghost use Rattle.geo_sign.specs.Boxes.{IsInConflict};
ghost use Rattle.cavity.specs.Cavity.{IsCavity};

use crate::NoMemory;
use crate::flood::flood;
use crate::marks::Marks;
use smallvec::SmallVec;
use std::alloc::Global;
use tetra_store::{CellId, Facet, Tetra};

/// A list of cells. The value itself has room for most cavities, without a heap allocation.
pub type CellList = SmallVec<CellId, 32>;

/// A list of facets. The value itself has room for most cavities, without a heap allocation.
pub type FacetList = SmallVec<Facet, 64>;

/// The cells in conflict with a vertex (the conflict region), and the facets on its boundary, directed as in these cells. Each
/// boundary facet comes with its adjacent cell, which is not in conflict; a facet on a wall of the box has none.
///
/// It can be filled any number of times, and keeps its memory. Only `cavity_of` fills it.
#[derive(Drop)]
pub struct Cavity {
    /// The cells in conflict.
    pub cells: CellList,
    /// The boundary facets.
    pub fan: FacetList,
    // The numbers of the cells that the last flood reached.
    pub(crate) marks: Marks,
}

impl Cavity {
    /// Returns an empty cavity. Allocates no memory.
    pub fn new(alloc: Global) -> Cavity
        ensures cells { result.cells.items ≡ [] }
        ensures fan { result.fan.items ≡ [] }
    {
        Cavity {
            cells: SmallVec::new(alloc),
            fan: SmallVec::new(alloc),
            marks: Marks::new(alloc),
        }
    }

    /// Removes all cells and facets, and keeps the memory.
    pub fn clear(&mut self)
        ensures cells { self.new.cells.items ≡ [] }
        ensures fan { self.new.fan.items ≡ [] }
    {
        self.cells.clear();
        self.fan.clear();
    }
}

/// Finds the cells in conflict with a vertex that is not inserted yet, from one of them, and the boundary of this region, over
/// which the new cells are put. The previous content of `into` is lost. The result has each cell in conflict exactly once, and
/// its boundary is what `Tetra::replace` requires. The only error is out of memory, and after it `into` is empty.
pub fn cavity_of(t: &Tetra, p: u32, from: CellId, into: &mut Cavity) -> Result<(), NoMemory>
    requires delaunay { IsDelaunay (vertices_of t.now) (links_of t.now.slots) }
    requires below { p < length t.now.points }
    requires out { slice_index_or t.now.inserted p false ≡ false }
    requires live { IsLive (links_of t.now.slots) from }
    requires conflict { IsInConflict (vertices_of t.now) p ((links_of t.now.slots).at from) }
    ensures cavity { OnOk result (IsCavity t.now p into.new.cells.items into.new.fan.items) }
    ensures no_cells { OnErr result (into.new.cells.items ≡ []) }
    ensures no_fan { OnErr result (into.new.fan.items ≡ []) }
{
    t.facts();
    into.clear();
    into.marks.clear();
    match flood(into, t, p, from) {
        Ok(()) => Ok(()),
        Err(refused) => {
            into.clear();
            Err(refused)
        }
    }
}
