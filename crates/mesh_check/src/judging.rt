//! Tests the demands in their order.

ghost use Rattle.std.specs.Prelude.{IfOk, MatchOption};
ghost use Rattle.mesh.specs.Meshes.{IsMesh};
ghost use Rattle.mesh_edges.specs.Edges.{IsBalanced};
ghost use Rattle.mesh_check.specs.Verdicts.{IsManifoldIfAsked, HasNonManifold, KeepsDemands, IsFirstFault, IsJudgment};

use crate::verdict::{Demands, Fault, Verdict};
use crate::{NoMemory, first_far};
use geo_sign::Point;
use mesh::Mesh;
use mesh_crossings::count_crossings;
use mesh_edges::first_unbalanced;
use mesh_measures::measure_topology;
use std::alloc::Global;

/// How many edges and vertices are not manifold.
#[derive(Clone, Copy)]
struct NonManifoldCounts {
    edges: usize,
    vertices: usize,
}

/// Returns how many edges and vertices are not manifold, if some are not and that is asked.
fn nonmanifold_counts(
    alloc: Global,
    mesh: &Mesh,
    asked: bool,
) -> Result<Option<NonManifoldCounts>, NoMemory>
    requires { IsMesh mesh.now.points.items mesh.now.faces.items }
    ensures { IfOk result (λ counts. MatchOption counts (IsManifoldIfAsked asked mesh.now.points.items mesh.now.faces.items) (λ n. HasNonManifold asked mesh.now.points.items mesh.now.faces.items n.edges n.vertices)) }
{
    if !asked {
        return Ok(None);
    }
    let topology = measure_topology(alloc, mesh)?;
    if topology.nonmanifold_edges == 0 && topology.nonmanifold_vertices == 0 {
        return Ok(None);
    }
    Ok(Some(NonManifoldCounts {
        edges: topology.nonmanifold_edges,
        vertices: topology.nonmanifold_vertices,
    }))
}

/// Returns the first vertex that is far from each home, as a fault of a mesh that keeps the other demands.
fn far_fault(homes: &[Point], mesh: &Mesh, demands: Demands) -> Option<Fault>
    requires closed { IsBalanced mesh.now.faces.items }
    requires manifold { IsManifoldIfAsked demands.manifold mesh.now.points.items mesh.now.faces.items }
    ensures { MatchOption result (KeepsDemands homes.now demands mesh.now.points.items mesh.now.faces.items) (IsFirstFault homes.now demands mesh.now.points.items mesh.now.faces.items) }
{
    match first_far(homes, &mesh.points, demands.fine, demands.within) {
        Some(vertex) => Some(Fault::FarVertex(vertex)),
        None => None,
    }
}

/// Returns the first demand that a closed mesh does not keep.
fn closed_fault(
    alloc: Global,
    homes: &[Point],
    mesh: &Mesh,
    demands: Demands,
) -> Result<Option<Fault>, NoMemory>
    requires valid { IsMesh mesh.now.points.items mesh.now.faces.items }
    requires closed { IsBalanced mesh.now.faces.items }
    ensures { IfOk result (λ fault. MatchOption fault (KeepsDemands homes.now demands mesh.now.points.items mesh.now.faces.items) (IsFirstFault homes.now demands mesh.now.points.items mesh.now.faces.items)) }
{
    match nonmanifold_counts(alloc, mesh, demands.manifold)? {
        Some(counts) => Ok(Some(Fault::NonManifold {
            edges: counts.edges,
            vertices: counts.vertices,
        })),
        None => Ok(far_fault(homes, mesh, demands)),
    }
}

/// Returns the first demand that a mesh does not keep.
fn first_fault(
    alloc: Global,
    homes: &[Point],
    mesh: &Mesh,
    demands: Demands,
) -> Result<Option<Fault>, NoMemory>
    requires { IsMesh mesh.now.points.items mesh.now.faces.items }
    ensures { IfOk result (λ fault. MatchOption fault (KeepsDemands homes.now demands mesh.now.points.items mesh.now.faces.items) (IsFirstFault homes.now demands mesh.now.points.items mesh.now.faces.items)) }
{
    match first_unbalanced(alloc, mesh)? {
        Some(edge) => Ok(Some(Fault::Unbalanced(edge))),
        None => closed_fault(alloc, homes, mesh, demands),
    }
}

/// Returns the first demand that a mesh does not keep, or how many pairs of its faces cross. `homes` are the points of the mesh that it
/// was made of.
pub fn judge(
    alloc: Global,
    homes: &[Point],
    mesh: &Mesh,
    demands: Demands,
) -> Result<Verdict, NoMemory>
    requires { IsMesh mesh.now.points.items mesh.now.faces.items }
    ensures { IfOk result (IsJudgment homes.now demands mesh.now.points.items mesh.now.faces.items) }
{
    match first_fault(alloc, homes, mesh, demands)? {
        Some(fault) => Ok(Verdict::Breaks(fault)),
        None => Ok(Verdict::Keeps(count_crossings(alloc, mesh)?)),
    }
}
