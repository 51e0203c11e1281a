//! Whether no two faces have the same vertices, by sorted numbers of faces.

ghost use Rattle.std.specs.Prelude.{◌≡◌, ◌≤◌, ◌<◌, ◌==◌, ◌^◌, ◌+◌, ◌*◌, ℕ, All, IfOk, count_by, map, length};
ghost use Rattle.std.specs.Bool.{OnTrue};
ghost use Rattle.std.specs.List.Sorted.{IsPermutation, IsNonDecreasingBy};
ghost use Rattle.mesh.specs.Meshes.{IsFace};
ghost use Rattle.mesh_simplify.specs.Keys.{face_key};
ghost use Rattle.mesh_simplify.specs.Simplified.{AreDistinct};

use crate::NoMemory;
use std::alloc::Global;

/// Returns a number that is the same only for faces with the same vertices.
fn key_of(face: [u32; 3]) -> u128
    ensures { result ≡ face_key face }
{
    let [a, b, c] = face;
    u128::from(a) * 18_446_744_073_709_551_616
        + u128::from(b.min(c)) * 4_294_967_296
        + u128::from(b.max(c))
}

/// Returns the numbers of all faces.
fn keys_of(alloc: Global, faces: &[[u32; 3]]) -> Result<Vec<u128>, NoMemory>
    ensures { IfOk result (λ keys. keys.items ≡ map face_key faces.now) }
{
    let mut keys = Vec::with_capacity(alloc, faces.len())?;
    for face in faces {
        keys.push(key_of(*face))?;
    }
    Ok(keys)
}

/// Sorts numbers.
pub(crate) fn sort(keys: &mut [u128])
    ensures moved { IsPermutation keys.old keys.new }
    ensures sorted { IsNonDecreasingBy (λ k. k) keys.new }
{
    keys.sort_unstable();
}

/// Returns whether no number occurs twice among sorted ones.
pub(crate) fn are_single(keys: &[u128]) -> bool
    requires { IsNonDecreasingBy (λ k. k) keys.now }
    ensures { OnTrue result ((k : ℕ) → count_by (λ j. j == k) keys.now ≤ 1) }
{
    for at in 1..keys.len() {
        if keys[at - 1] == keys[at] {
            return false;
        }
    }
    true
}

/// Returns whether no two faces have the same vertices. Numbers of the faces are sorted.
pub(crate) fn are_distinct(alloc: Global, faces: &[[u32; 3]]) -> Result<bool, NoMemory>
    requires { All (IsFace (2 ^ 32)) faces.now }
    ensures { IfOk result (λ yes. OnTrue yes (AreDistinct faces.now)) }
{
    let mut keys = keys_of(alloc, faces)?;
    sort(&mut keys);
    Ok(are_single(&keys))
}
