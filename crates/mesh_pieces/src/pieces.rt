//! The mesh of the pieces that are kept.

ghost use Rattle.std.specs.Prelude.{IfOk};
ghost use Rattle.mesh.specs.Meshes.{IsMesh};
ghost use Rattle.mesh_edges.specs.HalfEdges.{ArePaired};
ghost use Rattle.mesh_pieces.specs.Pieces.{ArePieces};

use crate::kept::{are_used, marked_faces};
use crate::largest::marks_of_largest;
use crate::renumber::{Renumbered, kept_twins, without_unused};
use crate::{Mesh, NoMemory, copy_mesh, is_ascending};
use mesh_edges::are_twins;
use std::alloc::Global;

/// A mesh and the twins of its half edges.
#[derive(Drop)]
pub struct PairedMesh {
    /// The mesh.
    pub mesh: Mesh,
    /// The twin of each half edge.
    pub twins: Vec<u32>,
}

/// Why no pieces were kept.
#[derive(Clone, Copy, Debug, PartialEq, Eq)]
pub enum PiecesError {
    /// The copy of the pieces did not pass its verification. This was never seen.
    Unverified,
    /// Out of memory.
    NoMemory,
}

impl From<NoMemory> for PiecesError {
    fn from(_: NoMemory) -> PiecesError {
        PiecesError::NoMemory
    }
}

/// Returns the pieces with the most faces, at most `most` of them, of a mesh whose half edges have these twins.
///
/// The kept faces stand in their order, and so do the points that they have; all other points are left out. If a piece is left out, exactly
/// `most` are kept, and none of these has fewer faces. The pieces are sorted by size, and all else is nearly linear.
pub fn keep_pieces(
    alloc: Global,
    mesh: &Mesh,
    twins: &[u32],
    most: u32,
) -> Result<PairedMesh, PiecesError>
    requires valid { IsMesh mesh.now.points.items mesh.now.faces.items }
    requires paired { ArePaired mesh.now.faces.items twins.now }
    ensures pieces { IfOk result (λ new. ArePieces most mesh.now.points.items mesh.now.faces.items new.mesh.points.items new.mesh.faces.items) }
    ensures valid { IfOk result (λ new. IsMesh new.mesh.points.items new.mesh.faces.items) }
    ensures paired { IfOk result (λ new. ArePaired new.mesh.faces.items new.twins.items) }
{
    let kept = marks_of_largest(alloc, &mesh.faces, twins, most)?;
    let faces = marked_faces(alloc, &mesh.faces, &kept)?;
    let Renumbered {
        faces: new,
        origin,
        holder,
    } = without_unused(alloc, mesh.points.len(), &faces)?;
    let Some(mesh) = copy_mesh(alloc, &mesh.points, &faces, new, &origin)? else {
        return Err(PiecesError::Unverified);
    };
    let twins = kept_twins(alloc, twins, &kept)?;
    if !is_ascending(&origin)
        || !are_used(&mesh.faces, &holder, origin.len())
        || !are_twins(&mesh.faces, &twins)
    {
        return Err(PiecesError::Unverified);
    }
    Ok(PairedMesh { mesh, twins })
}
