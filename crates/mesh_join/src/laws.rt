//! Theorems of joins. The functions do nothing: their contracts are the theorems.

ghost use Rattle.mesh_join.specs.Laws.{FacesAtHomeAreKept, JoinsAreUnique};

/// States that a face of a tile that owns all its edges is in the join.
pub fn faces_at_home_are_kept()
    ensures { FacesAtHomeAreKept }
{}

/// States that owners, the lists of tiles and the filled faces decide the join.
pub fn joins_are_unique()
    ensures { JoinsAreUnique }
{}
