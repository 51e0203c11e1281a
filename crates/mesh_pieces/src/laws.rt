//! A theorem on edges, as the contract of a function that does nothing.

ghost use Rattle.mesh_pieces.specs.Splits.{SplitsHaveTwoFaces};

/// Where no directed edge occurs twice in a closed mesh, each edge has exactly two faces, one on each side.
pub fn edges_have_two_faces()
    ensures { SplitsHaveTwoFaces }
{}
