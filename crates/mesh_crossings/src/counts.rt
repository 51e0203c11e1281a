//! How many pairs of faces cross, and the first of them.

ghost use Rattle.std.specs.Prelude.{◌≡◌, IfOk, slice_get};
ghost use Rattle.mesh.specs.Meshes.{IsMesh};
ghost use Rattle.mesh_crossings.specs.Counts.{CountsCrossings};

use crate::NoMemory;
use crate::gather::find_crossings;
use mesh::Mesh;
use mesh_edges::Pair;
use std::alloc::Global;

/// How many pairs of faces cross, and the first of them.
#[derive(Clone, Copy, Debug, PartialEq, Eq)]
pub struct CrossingCounts {
    /// How many pairs cross.
    pub crossing: usize,
    /// For how many pairs neither was shown.
    pub undecided: usize,
    /// The first pair that crosses, by the numbers of its faces; none if no pair does.
    pub first: Option<Pair>,
}

/// Returns the first of some pairs.
fn first_of(pairs: &[Pair]) -> Option<Pair>
    ensures { result ≡ slice_get pairs.now 0 }
{
    pairs.first().copied()
}

/// Counts the pairs of faces of a mesh that cross, and those for which neither was shown. Faces with the same three vertices do not count
/// as crossing.
pub fn count_crossings(alloc: Global, mesh: &Mesh) -> Result<CrossingCounts, NoMemory>
    requires { IsMesh mesh.now.points.items mesh.now.faces.items }
    ensures { IfOk result (λ counts. CountsCrossings mesh.now.points.items mesh.now.faces.items counts) }
{
    let pairs = find_crossings(alloc, mesh)?;
    Ok(CrossingCounts {
        crossing: pairs.crossing.len(),
        undecided: pairs.undecided.len(),
        first: first_of(&pairs.crossing),
    })
}
