//! Slices of meshes.

ghost use Rattle.std.specs.Prelude.{◌≤◌, IfOk, IfErr, length, map, sum_by};
ghost use Rattle.mesh.specs.Meshes.{IsMesh};
ghost use Rattle.mesh_edges.specs.Edges.{IsBalanced};
ghost use Rattle.solid_slice.specs.Slices.{steps_of, IsSlice};
ghost use Rattle.solid_slice.specs.Refusals.{IsRefusedSlice};

use crate::crossings::matched_crossings;
use crate::rings::rings_of;
use crate::step::Ring;
use crate::successors::successors;
use crate::{Mesh, SliceRefusal};
use mesh_edges::first_unbalanced;
use std::alloc::Global;

/// Rejects a mesh in which some directed edge does not occur as often as its reverse.
fn check_balance(alloc: Global, mesh: &Mesh) -> Result<(), SliceRefusal>
    requires { IsMesh mesh.now.points.items mesh.now.faces.items }
    ensures balanced { IfOk result (λ _. IsBalanced mesh.now.faces.items) }
    ensures refused { IfErr result (λ refusal. IsRefusedSlice mesh.now.faces.items refusal) }
{
    match first_unbalanced(alloc, mesh)? {
        None => Ok(()),
        Some(edge) => Err(SliceRefusal::Unbalanced {
            from: edge.from,
            to: edge.to,
            there: edge.there,
            back: edge.back,
        }),
    }
}

/// Returns the loops in which the plane at `height + 1/2` cuts a valid mesh.
///
/// Each cut face occurs in one ring, once, with the point on its up edge. In a ring each face is followed by its next face: if
/// it is the i-th in face order of the faces with the down edge from u to v, by the i-th of those with the up edge from v to u.
/// A ring begins with its smallest face, and the rings are sorted by their first faces.
///
/// Returns `Unbalanced` exactly if some directed edge does not occur as often as its reverse: then loops need not close.
/// `NoMemory` says nothing about the mesh.
pub fn slice(alloc: Global, mesh: &Mesh, height: i32) -> Result<Vec<Ring>, SliceRefusal>
    requires { IsMesh mesh.now.points.items mesh.now.faces.items }
    ensures balanced { IfOk result (λ _. IsBalanced mesh.now.faces.items) }
    ensures slice { IfOk result (λ rings. IsSlice mesh.now.points.items mesh.now.faces.items height (map steps_of rings.items)) }
    ensures few { IfOk result (λ rings. sum_by (λ ring. length ring) (map steps_of rings.items) ≤ length mesh.now.faces.items) }
    ensures refused { IfErr result (λ refusal. IsRefusedSlice mesh.now.faces.items refusal) }
{
    check_balance(alloc, mesh)?;
    let crossings = matched_crossings(alloc, mesh, height)?;
    let next = successors(alloc, mesh, height, &crossings)?;
    let rings = rings_of(alloc, mesh, height, &next)?;
    Ok(rings)
}
