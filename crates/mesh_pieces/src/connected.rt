//! The pieces of a mesh: faces that are connected across paired edges.

ghost use Rattle.std.specs.Prelude.{◌≡◌, ◌<◌, ℕ, IfOk, length};
ghost use Rattle.mesh_edges.specs.Sets.{AreTogether};
ghost use Rattle.mesh_edges.specs.HalfEdges.{ArePaired};
ghost use Rattle.mesh_pieces.specs.Chosen.{AreAcrossSets, AreFirstFaces};

use crate::NoMemory;
use mesh_edges::DisjointSets;
use std::alloc::Global;

/// Merges the sets of faces across each pair of half edges.
fn merge_across(faces: &[[u32; 3]], sets: &mut DisjointSets, twins: &[u32])
    requires paired { ArePaired faces.now twins.now }
    requires count { length sets.old.parents.items ≡ length faces.now }
    requires apart { (i j : ℕ) → AreTogether sets.old.parents.items i j → i ≡ j }
    ensures { AreAcrossSets twins.now (length faces.now) (length twins.now) sets.new.parents.items }
{
    for h in 0..twins.len() {
        sets.merge(h / 3, (twins[h] / 3) as usize);
    }
}

/// Returns the first face of the piece of each face.
pub(crate) fn first_faces(
    alloc: Global,
    faces: &[[u32; 3]],
    twins: &[u32],
) -> Result<Vec<usize>, NoMemory>
    requires { ArePaired faces.now twins.now }
    ensures { IfOk result (λ firsts. AreFirstFaces twins.now (length faces.now) firsts.items) }
{
    let mut sets = DisjointSets::new(alloc, faces.len())?;
    merge_across(faces, &mut sets, twins);
    let firsts = sets.firsts(alloc)?;
    Ok(firsts)
}
