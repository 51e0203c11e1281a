//! Whether a directed edge occurs twice, by sorted keys of edges.

ghost use Rattle.std.specs.Prelude.{◌≡◌, ◌^◌, All, IfOk, OnOk};
ghost use Rattle.std.specs.Bool.{OnTrue};
ghost use Rattle.mesh.specs.Meshes.{IsFace};
ghost use Rattle.mesh_edges.specs.Pairs.{key_of};
ghost use Rattle.mesh_pieces.specs.Splits.{AreSingle};
ghost use Rattle.mesh_simplify.specs.Keys.{CountsKeys, HasGainedKeys};

use crate::NoMemory;
use crate::distinct::{are_single, sort};
use std::alloc::Global;

/// Returns a number that is distinct for each directed edge.
fn key_of(from: u32, to: u32) -> u128
    ensures { result ≡ key_of from to }
{
    u128::from(from) * 4_294_967_296 + u128::from(to)
}

/// Appends the keys of the three edges of a face.
fn push_face(keys: &mut Vec<u128>, face: [u32; 3]) -> Result<(), NoMemory>
    requires { IsFace (2 ^ 32) face }
    ensures { OnOk result (HasGainedKeys face keys.old.items keys.new.items) }
{
    let [a, b, c] = face;
    keys.push(key_of(a, b))?;
    keys.push(key_of(b, c))?;
    keys.push(key_of(c, a))?;
    Ok(())
}

/// Returns the keys of all edges.
fn keys_of(alloc: Global, faces: &[[u32; 3]]) -> Result<Vec<u128>, NoMemory>
    requires { All (IsFace (2 ^ 32)) faces.now }
    ensures { IfOk result (λ keys. CountsKeys faces.now keys.items) }
{
    let mut keys = Vec::with_capacity(alloc, faces.len().saturating_mul(3))?;
    for face in faces {
        push_face(&mut keys, *face)?;
    }
    Ok(keys)
}

/// Returns whether no directed edge of the faces occurs twice. The edges are sorted.
pub(crate) fn are_edges_single(alloc: Global, faces: &[[u32; 3]]) -> Result<bool, NoMemory>
    requires { All (IsFace (2 ^ 32)) faces.now }
    ensures { IfOk result (λ answer. OnTrue answer (AreSingle faces.now)) }
{
    let mut keys = keys_of(alloc, faces)?;
    sort(&mut keys);
    Ok(are_single(&keys))
}
