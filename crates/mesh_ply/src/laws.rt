//! Theorems of the texts of meshes. The function does nothing: its contract is the theorems.

ghost use Rattle.mesh_ply.specs.Laws.{TextsTellMeshes, NoTextIsAFront};

/// No text belongs to two meshes, and none is a proper prefix of another. For callers that compare meshes by their bytes, or
/// find one at the start of a longer text.
pub fn mesh_texts_are_distinct()
    ensures one_mesh { TextsTellMeshes }
    ensures no_prefix { NoTextIsAFront }
{}
