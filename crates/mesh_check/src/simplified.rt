//! Tests the demands on a simplified mesh.

ghost use Rattle.std.specs.Prelude.{IfOk, MatchOption};
ghost use Rattle.mesh.specs.Meshes.{IsMesh};
ghost use Rattle.mesh_edges.specs.Edges.{IsBalanced};
ghost use Rattle.mesh_check.specs.Simplified.{IsCoveredIfAsked, IsNearMesh, IsSimplifyFault, IsSimplifyJudgment};

use crate::NoMemory;
use crate::farthest::{find_far_point, is_far_corner};
use crate::verdict::{Fault, Uncovered, Unreached, Verdict};
use mesh::Mesh;
use mesh_cover::find_uncovered;
use mesh_crossings::count_crossings;
use mesh_edges::first_unbalanced;
use mesh_reach::{Reach, first_unreached};
use std::alloc::Global;

/// Returns the first face of two meshes that is not shown to be within reach of the other mesh, if that is asked. If the scale is not 1, the
/// first face is returned without a test.
fn cover_fault(
    alloc: Global,
    home: &Mesh,
    mesh: &Mesh,
    reach: Reach,
    surface: bool,
) -> Result<Option<Fault>, NoMemory>
    requires home { IsMesh home.now.points.items home.now.faces.items }
    requires mesh { IsMesh mesh.now.points.items mesh.now.faces.items }
    requires closed { IsBalanced mesh.now.faces.items }
    ensures { IfOk result (λ fault. MatchOption fault (IsCoveredIfAsked surface reach.fine reach.within home.now.points.items home.now.faces.items mesh.now.points.items mesh.now.faces.items) (IsSimplifyFault reach.within home.now.points.items home.now.faces.items mesh.now.points.items mesh.now.faces.items)) }
{
    if !surface {
        return Ok(None);
    }
    if reach.fine != 1 {
        return Ok(Some(Fault::UncoveredOriginal(Uncovered { face: 0, far: None })));
    }
    if let Some(face) = find_uncovered(alloc, home, mesh, &[], reach.within)? {
        let far = find_far_point(alloc, home, face, mesh, reach.within)?;
        return Ok(Some(Fault::UncoveredOriginal(Uncovered { face, far })));
    }
    if let Some(face) = find_uncovered(alloc, mesh, home, &[], reach.within)? {
        let far = find_far_point(alloc, mesh, face, home, reach.within)?;
        return Ok(Some(Fault::UncoveredFace(Uncovered { face, far })));
    }
    Ok(None)
}

/// Returns the first demand that a mesh does not keep, or is not shown to keep.
fn simplify_fault(
    alloc: Global,
    home: &Mesh,
    mesh: &Mesh,
    reach: Reach,
    surface: bool,
) -> Result<Option<Fault>, NoMemory>
    requires home { IsMesh home.now.points.items home.now.faces.items }
    requires mesh { IsMesh mesh.now.points.items mesh.now.faces.items }
    ensures { IfOk result (λ fault. MatchOption fault (IsNearMesh surface reach.fine reach.within home.now.points.items home.now.faces.items mesh.now.points.items mesh.now.faces.items) (IsSimplifyFault reach.within home.now.points.items home.now.faces.items mesh.now.points.items mesh.now.faces.items)) }
{
    if let Some(edge) = first_unbalanced(alloc, mesh)? {
        return Ok(Some(Fault::Unbalanced(edge)));
    }
    if let Some(vertex) = first_unreached(alloc, home, mesh, &[], reach)? {
        let is_far = reach.fine == 1 && is_far_corner(home, vertex, mesh, reach.within);
        return Ok(Some(Fault::UnreachedVertex(Unreached { vertex, is_far })));
    }
    match cover_fault(alloc, home, mesh, reach, surface)? {
        Some(fault) => Ok(Some(fault)),
        None => Ok(None),
    }
}

/// Returns the first demand that a simplified mesh does not keep, or how many pairs of its faces cross. It has to be closed, and each corner
/// of the faces of the mesh that it was made of within reach of one of its faces; with `surface` each point of either mesh within reach of
/// the other, at the scale 1. That what is not shown near is far is promised only of the points that the fault names.
pub fn judge_simplified(
    alloc: Global,
    home: &Mesh,
    mesh: &Mesh,
    reach: Reach,
    surface: bool,
) -> Result<Verdict, NoMemory>
    requires home { IsMesh home.now.points.items home.now.faces.items }
    requires mesh { IsMesh mesh.now.points.items mesh.now.faces.items }
    ensures { IfOk result (λ verdict. IsSimplifyJudgment surface reach.fine reach.within home.now.points.items home.now.faces.items mesh.now.points.items mesh.now.faces.items verdict) }
{
    match simplify_fault(alloc, home, mesh, reach, surface)? {
        Some(fault) => Ok(Verdict::Breaks(fault)),
        None => Ok(Verdict::Keeps(count_crossings(alloc, mesh)?)),
    }
}
