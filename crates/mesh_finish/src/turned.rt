//! Writes faces as a valid mesh has them, the smallest number first.

ghost use Rattle.std.specs.Prelude.{◌≡◌, ◌<◌, ℕ, All, IfOk, length};
ghost use Rattle.mesh.specs.Meshes.{IsFace};
ghost use Rattle.mesh_flips.specs.Turns.{IsTriangle, IsCycled};
ghost use Rattle.mesh_finish.specs.Finished.{AreTurned};

use crate::NoMemory;
use std::alloc::Global;

/// Returns the face with its smallest number first, in the same order around.
fn smallest_first(face: [u32; 3]) -> [u32; 3]
    ensures turned { IsCycled face result }
    ensures face { (n : ℕ) → IsTriangle n face → IsFace n result }
{
    let [a, b, c] = face;
    if a < b && a < c {
        return [a, b, c];
    }
    if b < c && b < a {
        return [b, c, a];
    }
    [c, a, b]
}

/// Returns the faces so written.
pub(crate) fn turned_faces(alloc: Global, faces: &[[u32; 3]]) -> Result<Vec<[u32; 3]>, NoMemory>
    ensures turned { IfOk result (λ turned. AreTurned faces.now turned.items) }
    ensures faces { (n : ℕ) → All (IsTriangle n) faces.now → IfOk result (λ turned. All (IsFace n) turned.items) }
{
    let mut turned = Vec::with_capacity(alloc, faces.len())?;
    for face in faces {
        turned.push(smallest_first(*face))?;
    }
    Ok(turned)
}
