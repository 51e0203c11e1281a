//! The mesh whose vertices are split.

ghost use Rattle.std.specs.Prelude.{IfOk};
ghost use Rattle.mesh.specs.Meshes.{IsMesh};
ghost use Rattle.mesh_edges.specs.HalfEdges.{ArePaired};
ghost use Rattle.mesh_pieces.specs.Splits.{IsSplit};

use crate::vertices::{numbered, renumbered};
use crate::{Mesh, NoMemory, copied_points};
use mesh_edges::divide_umbrellas;
use std::alloc::Global;

/// Returns the mesh with a vertex of its own for each umbrella, where `twins` pair its half edges.
///
/// Where two half edges have the same umbrella at both ends, their umbrellas are divided first, so this always succeeds. The faces stand in
/// their order, and the copies of a vertex where it stood. A vertex without faces is left out. The umbrellas are sorted by their vertices,
/// and all else is linear.
pub fn split_mesh(alloc: Global, mesh: &Mesh, twins: Vec<u32>) -> Result<Mesh, NoMemory>
    requires valid { IsMesh mesh.now.points.items mesh.now.faces.items }
    requires paired { ArePaired mesh.now.faces.items twins.items }
    ensures split { IfOk result (λ new. IsSplit mesh.now.points.items mesh.now.faces.items new.points.items new.faces.items) }
    ensures valid { IfOk result (λ new. IsMesh new.points.items new.faces.items) }
{
    let umbrellas = divide_umbrellas(alloc, &mesh.faces, twins)?;
    let vertices = numbered(alloc, &mesh.faces, &umbrellas.roots)?;
    let faces = renumbered(alloc, &mesh.faces, &umbrellas.roots, &vertices.numbers)?;
    let points = copied_points(alloc, &mesh.points, &vertices.origin)?;
    Ok(Mesh { points, faces })
}
