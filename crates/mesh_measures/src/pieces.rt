//! The number of pieces.

ghost use Rattle.std.specs.Prelude.{◌<◌, length};
ghost use Rattle.std.specs.Bool.{OnTrue, OnFalse};
ghost use Rattle.mesh_edges.specs.Things.{AreSoMany};
ghost use Rattle.mesh_measures.specs.Merges.{ArePieceSets};
ghost use Rattle.mesh_measures.specs.Pieces.{IsFirstOfPiece};

use mesh_edges::{DisjointSets, next_count};

/// Returns whether no face before this one is connected with it.
fn is_first_of_piece(faces: &[[u32; 3]], sets: &DisjointSets, f: usize) -> bool
    requires sets { ArePieceSets faces.now sets.now.parents.items }
    requires within { f < length faces.now }
    ensures yes { OnTrue result (IsFirstOfPiece faces.now f) }
    ensures no { OnFalse result (¬ IsFirstOfPiece faces.now f) }
{
    sets.is_first(f)
}

/// Returns the number of pieces, where the sets are those of connected faces.
pub(crate) fn count_pieces(faces: &[[u32; 3]], sets: &DisjointSets) -> usize
    requires { ArePieceSets faces.now sets.now.parents.items }
    ensures { AreSoMany (λ f. (f < length faces.now) × IsFirstOfPiece faces.now f) result }
{
    let mut count = 0;
    for f in 0..faces.len() {
        let hit = is_first_of_piece(faces, sets, f);
        count = next_count(count, hit);
    }
    count
}
