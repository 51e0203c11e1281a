//! A theorem on twins, as the contract of a function that does nothing.

ghost use Rattle.mesh_edges.specs.Laws.{PairedAreClosed};

/// In a paired mesh each directed edge occurs as often as its reverse.
pub fn paired_meshes_are_closed()
    ensures { PairedAreClosed }
{}
