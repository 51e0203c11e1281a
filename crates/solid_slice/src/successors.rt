//! The next face of each cut face.

ghost use Rattle.std.specs.Prelude.{◌≡◌, IfOk, length, map};
ghost use Rattle.solid_slice.specs.Crossings.{key_of_crossing, AreCrossings};
ghost use Rattle.solid_slice.specs.Walks.{IsSuccession};
ghost use Rattle.mesh.specs.Meshes.{IsMesh};

use crate::crossings::Crossings;
use crate::{Mesh, NoMemory};
use std::alloc::Global;

/// Returns a list with the next face of each cut face. At each index the two lists of crossings have the same edge, and the
/// face that goes up on it is the next of the one that goes down.
pub(crate) fn successors(
    alloc: Global,
    mesh: &Mesh,
    height: i32,
    crossings: &Crossings,
) -> Result<Vec<u32>, NoMemory>
    requires valid { IsMesh mesh.now.points.items mesh.now.faces.items }
    requires crossings { AreCrossings mesh.now.points.items mesh.now.faces.items height (length mesh.now.faces.items) crossings.now.ups.items crossings.now.downs.items }
    requires matched { map key_of_crossing crossings.now.ups.items ≡ map key_of_crossing crossings.now.downs.items }
    ensures { IfOk result (λ next. IsSuccession mesh.now.points.items mesh.now.faces.items height next.items) }
{
    let mut next = vec![in alloc; 0u32; mesh.faces.len()]?;
    for at in 0..crossings.downs.len() {
        next[crossings.downs[at].face as usize] = crossings.ups[at].face;
    }
    Ok(next)
}
