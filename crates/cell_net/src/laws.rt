//! What counts are, however a facet or a cell is written. The functions here do nothing: their contracts are the promises.

ghost use Rattle.cell_net.specs.CountLaws.{FacetCountLaw, CellCountLaw};
ghost use Rattle.cell_net.specs.StoredCells.{StoredCellsLaw};
ghost use Rattle.cell_net.specs.StoreLaws.{StoreNetworkLaw};

/// The crossings of a facet do not depend on the vertex from which it is written.
pub fn facet_count_law()
    ensures { FacetCountLaw }
{}

/// The counts of a row are those of the cell as the store has it.
pub fn cell_count_law()
    ensures { CellCountLaw }
{}

/// A store whose cells are Delaunay and whose vertices are all inserted has all cells of each scene of its points.
pub fn stored_cells_law()
    ensures { StoredCellsLaw }
{}

/// Linked cells with the counts of a scene are its network: what holds of labels and flows by the numbers of cells and of their sides
/// holds of those over cells and directed facets. Of these too the value of a valid flow is at most the cost of any admissible labels.
pub fn store_network_law()
    ensures { StoreNetworkLaw }
{}
