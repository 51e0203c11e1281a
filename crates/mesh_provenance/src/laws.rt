//! A theorem of texts of meshes with their provenance. The function here does nothing: its contract is the theorem.

ghost use Rattle.mesh_provenance.specs.Laws.{TextsTellFiles};

/// No text belongs to two meshes, or to a mesh with two provenances. For callers that compare finished meshes by their bytes.
pub fn file_texts_are_distinct()
    ensures { TextsTellFiles }
{}
