//! The tests of a mesh, one after another.

ghost use Rattle.std.specs.Prelude.{◌≡◌, ◌<◌, false, IfOk, All, length, map};
ghost use Rattle.std.specs.Bool.{OnTrue};
ghost use Rattle.mesh.specs.Meshes.{IsMesh, point_at};
ghost use Rattle.mesh_simplify.specs.Simplified.{IsSimplified};

use crate::NoMemory;
use crate::distinct::are_distinct;
use crate::double::stays_single;
use crate::kept::are_apart_or_kept;
use crate::valid::{are_as_many, are_rising};
use mesh::Mesh;
use mesh_collapse::Request;
use mesh_edges::first_unbalanced;
use mesh_reach::{Reach, first_unreached};
use std::alloc::Global;

/// What a mesh may come from.
#[derive(Clone, Copy)]
pub(crate) struct Hints<'a> {
    /// The old number of each vertex.
    pub(crate) from: &'a [u32],
    /// For each face the number of an old one, which it may be.
    pub(crate) source: &'a [u32],
    /// For each old vertex the number of a face that it may be near.
    pub(crate) homes: &'a [u32],
}

/// Returns whether a mesh whose vertices come from old ones is simplified.
///
/// Each test is exact where it says yes. The time is that of sorting the edges and faces, and of testing pairs of faces whose boxes overlap.
pub(crate) fn is_simplified(
    alloc: Global,
    old: &Mesh,
    mesh: &Mesh,
    hints: &Hints,
    request: Request,
) -> Result<bool, NoMemory>
    requires old { IsMesh old.now.points.items old.now.faces.items }
    requires valid { IsMesh mesh.now.points.items mesh.now.faces.items }
    requires from { All (λ v. v < length old.now.points.items) hints.now.from.now }
    requires points { request.moves ≡ false → mesh.now.points.items ≡ map (point_at old.now.points.items) hints.now.from.now }
    ensures { IfOk result (λ yes. OnTrue yes (IsSimplified request.moves request.within old.now.points.items old.now.faces.items mesh.now.points.items mesh.now.faces.items)) }
{
    if !are_as_many(mesh, hints.from) {
        return Ok(false);
    }
    if !are_rising(hints.from) {
        return Ok(false);
    }
    if let Some(_) = first_unbalanced(alloc, mesh)? {
        return Ok(false);
    }
    if !stays_single(alloc, &old.faces, &mesh.faces)? {
        return Ok(false);
    }
    if !are_distinct(alloc, &mesh.faces)? {
        return Ok(false);
    }
    let reach = Reach {
        fine: 1,
        within: request.within,
    };
    if let Some(_) = first_unreached(alloc, old, mesh, hints.homes, reach)? {
        return Ok(false);
    }
    let kept = are_apart_or_kept(alloc, old, mesh, hints.from, hints.source)?;
    Ok(kept)
}
