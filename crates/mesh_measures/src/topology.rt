//! How the faces of a mesh are connected.

ghost use Rattle.std.specs.Prelude.{IfOk};
ghost use Rattle.mesh.specs.Meshes.{IsMesh};
ghost use Rattle.mesh_measures.specs.Topology.{IsTopologyOf};

use crate::NoMemory;
use crate::manifolds::{count_edges, count_vertices};
use crate::merges::{corner_sets, piece_sets};
use crate::pieces::count_pieces;
use crate::sides::sorted_sides;
use mesh::Mesh;
use std::alloc::Global;

/// How the faces of a mesh are connected.
#[derive(Clone, Copy, Debug, PartialEq, Eq)]
pub struct Topology {
    /// How many edges have other than two faces, in either direction.
    pub nonmanifold_edges: usize,
    /// How many vertices have an edge with other than two faces, or faces that are not connected by edges at the vertex.
    pub nonmanifold_vertices: usize,
    /// How many pieces there are: faces with an edge in common are of one piece.
    pub pieces: usize,
}

/// Returns how the faces of a mesh are connected, which need not be closed. The sides of the faces are sorted, and all else is nearly
/// linear.
pub fn measure_topology(alloc: Global, mesh: &Mesh) -> Result<Topology, NoMemory>
    requires { IsMesh mesh.now.points.items mesh.now.faces.items }
    ensures { IfOk result (λ t. IsTopologyOf mesh.now.points.items mesh.now.faces.items t) }
{
    let sides = sorted_sides(alloc, &mesh.faces)?;
    let pieces = piece_sets(alloc, &mesh.faces, &sides)?;
    let corners = corner_sets(alloc, &mesh.faces, &sides)?;
    Ok(Topology {
        nonmanifold_edges: count_edges(&mesh.faces, &sides),
        nonmanifold_vertices: count_vertices(
            alloc,
            mesh.points.len(),
            &mesh.faces,
            &sides,
            &corners,
        )?,
        pieces: count_pieces(&mesh.faces, &pieces),
    })
}
