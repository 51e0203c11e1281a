//! Properties of linked Delaunay cells, as the contract of a call that does nothing.

ghost use Rattle.delaunay.specs.Partition.{PartitionLaw};

/// Linked cells that are the Delaunay cells of the inserted vertices partition the box, however they were created: those of the
/// box alone (`tetra_store`'s `with_box`), and those after an insertion or a build. The type invariant of each store is the
/// postcondition of its `facts`. For callers that need the cell of a point or of a facet.
pub fn partition_law()
    ensures { PartitionLaw }
{}
