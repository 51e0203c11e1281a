//! The list of all cells.

ghost use Rattle.std.specs.Prelude.{◌≡◌, ◌<◌, ◌++◌, ℕ, true, false, List, IfOk, length, slice_index_or};
ghost use Rattle.geo_sign.specs.Point.{Point};
ghost use Rattle.geo_sign.specs.Vertices.{corners, boxed_vertices};
ghost use Rattle.geo_sign.specs.Cells.{IsCellList};
ghost use Rattle.tetra_store.specs.Links.{links_of};
ghost use Rattle.tetra_store.specs.Store.{vertices_of};
ghost use Rattle.tetra_store.specs.Delaunay.{IsDelaunay};

use crate::NoMemory;
use crate::rows::{cells_of, sorted_rows};
use std::alloc::Global;
use tetra_store::Tetra;

/// The list of all cells of the box's corners and the points that the store has after them, all inserted: the four vertices of
/// each cell by ascending number, the cells in ascending order. The only error is out of memory.
pub fn rising_cells(alloc: Global, t: &Tetra) -> Result<Vec<[u32; 4]>, NoMemory>
    requires inserted { (u : ℕ) → u < length t.now.points → slice_index_or t.now.inserted u false ≡ true }
    requires delaunay { IsDelaunay (vertices_of t.now) (links_of t.now.slots) }
    ensures { (points : List Point) → t.now.points ≡ corners ++ points → IfOk result (λ cells. IsCellList (boxed_vertices points) cells.items) }
{
    t.facts();
    let rows = sorted_rows(alloc, t)?;
    let cells = cells_of(alloc, &rows)?;
    Ok(cells)
}
