//! A theorem of meshes. The function does nothing: its contract is the theorem.

ghost use Rattle.std.specs.Prelude.{ℕ, List, AllPairs, length};
ghost use Rattle.geo_sign.specs.Point.{Point};
ghost use Rattle.geo_sign.specs.Rising.{IsBefore};
ghost use Rattle.mesh.specs.Laws.{FacetsMakeMeshes};
ghost use Rattle.mesh.specs.Meshes.{mesh_of, IsFaceList};

/// The mesh of an ascending list of facets is valid, and its faces ascend. For callers that make a mesh of facets by other
/// means.
pub fn facets_make_valid_meshes()
    ensures valid { FacetsMakeMeshes }
    ensures rising { (places : List Point) (facets : List (List ℕ)) → IsFaceList (length places) facets → AllPairs IsBefore (mesh_of places facets).faces }
{}
