//! A theorem of simplified meshes. The function here does nothing: its contract is the theorem.

ghost use Rattle.mesh_simplify.specs.Laws.{MeetsOnlyWhatMet};

/// By simplifying no two faces meet that were apart: two faces that are not apart were faces of the given mesh, with the same corners, and
/// were not apart there.
pub fn simplifying_makes_nothing_meet()
    ensures { MeetsOnlyWhatMet }
{}
