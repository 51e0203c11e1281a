//! The insertion of one vertex.

ghost use Rattle.std.specs.Prelude.{◌≡◌, ◌<◌, ◌⊎◌, [], true, false, OnOk, OnErr, IfOk, length, slice_index_or, slice_set};
ghost use Rattle.geo_sign.specs.Writings.{IsVertexOf};
ghost use Rattle.cavity.specs.Cavity.{IsCavity};
ghost use Rattle.tetra_store.specs.Links.{links_of, IsLive};
ghost use Rattle.tetra_store.specs.Store.{vertices_of};
ghost use Rattle.tetra_store.specs.Delaunay.{IsDelaunay};
ghost use Rattle.delaunay.specs.Partition.{IsPartition};

use crate::NoMemory;
use cavity::{Cavity, cavity_of};
use std::alloc::Global;
use tetra_store::{CellId, Tetra};
use tetra_walk::locate;

/// Inserts a vertex of any number that is not inserted yet: afterwards the cells are the Delaunay cells of the previous
/// vertices and this one, and no vertex has moved. The walk begins at the cell `from`, which should be near the vertex. Returns
/// a cell that has the vertex.
///
/// The only error is out of memory. After it cells and inserted vertices are unchanged: memory is allocated before any cell is
/// removed.
pub fn insert(alloc: Global, t: &mut Tetra, p: u32, from: CellId) -> Result<CellId, NoMemory>
    requires delaunay { IsDelaunay (vertices_of t.old) (links_of t.old.slots) }
    requires below { p < length t.old.points }
    requires out { slice_index_or t.old.inserted p false ≡ false }
    requires live { IsLive (links_of t.old.slots) from }
    ensures points { t.new.points ≡ t.old.points }
    ensures inserted { OnOk result (t.new.inserted ≡ slice_set t.old.inserted p true) }
    ensures delaunay { OnOk result (IsDelaunay (vertices_of t.new) (links_of t.new.slots)) }
    ensures partition { OnOk result (IsPartition t.new) }
    ensures cell { IfOk result (λ id. IsLive (links_of t.new.slots) id) }
    ensures has { IfOk result (λ id. IsVertexOf ((links_of t.new.slots).at id) p) }
    ensures cells_left { OnErr result (t.new.slots ≡ t.old.slots) }
    ensures inserted_left { OnErr result (t.new.inserted ≡ t.old.inserted) }
{
    insert_with(t, p, from, &mut Cavity::new(alloc))
}

/// Does the same over a cavity that the caller passes. The cavity is filled anew at each call and keeps its memory, so most
/// insertions of a series allocate none. Afterwards it holds the removed cells and the boundary facets; after out of memory
/// those, or nothing.
pub fn insert_with(
    t: &mut Tetra,
    p: u32,
    from: CellId,
    cavity: &mut Cavity,
) -> Result<CellId, NoMemory>
    requires delaunay { IsDelaunay (vertices_of t.old) (links_of t.old.slots) }
    requires below { p < length t.old.points }
    requires out { slice_index_or t.old.inserted p false ≡ false }
    requires live { IsLive (links_of t.old.slots) from }
    ensures points { t.new.points ≡ t.old.points }
    ensures inserted { OnOk result (t.new.inserted ≡ slice_set t.old.inserted p true) }
    ensures delaunay { OnOk result (IsDelaunay (vertices_of t.new) (links_of t.new.slots)) }
    ensures partition { OnOk result (IsPartition t.new) }
    ensures cell { IfOk result (λ id. IsLive (links_of t.new.slots) id) }
    ensures has { IfOk result (λ id. IsVertexOf ((links_of t.new.slots).at id) p) }
    ensures cavity { OnOk result (IsCavity t.old p cavity.new.cells.items cavity.new.fan.items) }
    ensures cavity_left { OnErr result (((cavity.new.cells.items ≡ []) × (cavity.new.fan.items ≡ [])) ⊎ IsCavity t.old p cavity.new.cells.items cavity.new.fan.items) }
    ensures cells_left { OnErr result (t.new.slots ≡ t.old.slots) }
    ensures inserted_left { OnErr result (t.new.inserted ≡ t.old.inserted) }
{
    t.facts();
    let found = locate(t, t.point(p), from);
    cavity_of(t, p, found, cavity)?;
    t.reserve(cavity.fan.len())?;
    let id = t.replace(&cavity.cells, &cavity.fan, p);
    t.facts();
    Ok(id)
}
