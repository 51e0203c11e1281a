//! The steps before flips: half edges are paired, pieces kept and vertices split.

ghost use Rattle.std.specs.Prelude.{◌≡◌, ℕ, List, Some, IfOk, IfErr, All};
ghost use Rattle.geo_sign.specs.Point.{Point, IsWithin};
ghost use Rattle.mesh_edges.specs.Edges.{IsBalanced};
ghost use Rattle.finish_options.specs.declared.options.FinishOptions.{FinishOptions};
ghost use Rattle.geo_sign.specs.declared.point.TheConstants.{BOX_LIMIT};
ghost use Rattle.mesh.specs.Meshes.{IsMesh};
ghost use Rattle.mesh_edges.specs.HalfEdges.{ArePaired};
ghost use Rattle.mesh_pieces.specs.Pieces.{ArePieces};
ghost use Rattle.mesh_pieces.specs.Splits.{IsSplit};
ghost use Rattle.mesh_finish.specs.Steps.{ArePiecesIf, IsSplitIf, ExplainsFinish};

use crate::NoMemory;
use crate::options::{FinishError, Step};
use mesh::Mesh;
use mesh_edges::{PairingError, pair};
use mesh_pieces::{PairedMesh, PiecesError, keep_pieces, split_mesh};
use std::alloc::Global;

/// Returns the twin of each half edge of a closed mesh.
pub(crate) fn paired(alloc: Global, mesh: &Mesh) -> Result<Vec<u32>, FinishError>
    requires { IsMesh mesh.now.points.items mesh.now.faces.items }
    ensures paired { IfOk result (λ twins. ArePaired mesh.now.faces.items twins.items) }
    ensures why { (options : FinishOptions) (points : List Point) → IfErr result (λ error. ExplainsFinish options points mesh.now.faces.items error) }
{
    match pair(alloc, mesh) {
        Ok(twins) => Ok(twins),
        Err(PairingError::NotClosed(edge)) => Err(FinishError::NotClosed(edge)),
        Err(PairingError::NoMemory) => Err(FinishError::NoMemory),
    }
}

/// Returns the largest pieces of a mesh.
fn keep(alloc: Global, mesh: &Mesh, twins: &[u32], most: u32) -> Result<PairedMesh, FinishError>
    requires valid { IsMesh mesh.now.points.items mesh.now.faces.items }
    requires paired { ArePaired mesh.now.faces.items twins.now }
    ensures pieces { IfOk result (λ new. ArePieces most mesh.now.points.items mesh.now.faces.items new.mesh.points.items new.mesh.faces.items) }
    ensures valid { IfOk result (λ new. IsMesh new.mesh.points.items new.mesh.faces.items) }
    ensures boxed { All (IsWithin BOX_LIMIT) mesh.now.points.items → IfOk result (λ new. All (IsWithin BOX_LIMIT) new.mesh.points.items) }
    ensures paired { IfOk result (λ new. ArePaired new.mesh.faces.items new.twins.items) }
    ensures why { (options : FinishOptions) (points : List Point) (faces : List (List ℕ)) → IsBalanced faces → options.pieces ≡ Some most → IfErr result (λ error. ExplainsFinish options points faces error) }
{
    match keep_pieces(alloc, mesh, twins, most) {
        Ok(kept) => Ok(kept),
        Err(PiecesError::Unverified) => Err(FinishError::Unverified(Step::Pieces)),
        Err(PiecesError::NoMemory) => Err(FinishError::NoMemory),
    }
}

/// Returns the largest pieces, if the option asks for them, or the mesh as it is.
pub(crate) fn kept(
    alloc: Global,
    mesh: Mesh,
    twins: Vec<u32>,
    pieces: Option<u32>,
) -> Result<PairedMesh, FinishError>
    requires valid { IsMesh mesh.points.items mesh.faces.items }
    requires paired { ArePaired mesh.faces.items twins.items }
    ensures pieces { IfOk result (λ new. ArePiecesIf pieces mesh.points.items mesh.faces.items new.mesh.points.items new.mesh.faces.items) }
    ensures valid { IfOk result (λ new. IsMesh new.mesh.points.items new.mesh.faces.items) }
    ensures boxed { All (IsWithin BOX_LIMIT) mesh.points.items → IfOk result (λ new. All (IsWithin BOX_LIMIT) new.mesh.points.items) }
    ensures paired { IfOk result (λ new. ArePaired new.mesh.faces.items new.twins.items) }
    ensures why { (options : FinishOptions) (points : List Point) (faces : List (List ℕ)) → IsBalanced faces → options.pieces ≡ pieces → IfErr result (λ error. ExplainsFinish options points faces error) }
{
    match pieces {
        None => Ok(PairedMesh { mesh, twins }),
        Some(most) => {
            let new = keep(alloc, &mesh, &twins, most)?;
            Ok(new)
        }
    }
}

/// Returns a mesh with its vertices split.
fn split_all(alloc: Global, mesh: &Mesh, twins: Vec<u32>) -> Result<Mesh, NoMemory>
    requires valid { IsMesh mesh.now.points.items mesh.now.faces.items }
    requires paired { ArePaired mesh.now.faces.items twins.items }
    ensures split { IfOk result (λ new. IsSplit mesh.now.points.items mesh.now.faces.items new.points.items new.faces.items) }
    ensures valid { IfOk result (λ new. IsMesh new.points.items new.faces.items) }
    ensures boxed { All (IsWithin BOX_LIMIT) mesh.now.points.items → IfOk result (λ new. All (IsWithin BOX_LIMIT) new.points.items) }
{
    let new = split_mesh(alloc, mesh, twins)?;
    Ok(new)
}

/// Returns the mesh with its vertices split, if the option asks for it, or as it is.
pub(crate) fn split(alloc: Global, kept: PairedMesh, manifold: bool) -> Result<Mesh, NoMemory>
    requires valid { IsMesh kept.mesh.points.items kept.mesh.faces.items }
    requires paired { ArePaired kept.mesh.faces.items kept.twins.items }
    ensures split { IfOk result (λ new. IsSplitIf manifold kept.mesh.points.items kept.mesh.faces.items new.points.items new.faces.items) }
    ensures valid { IfOk result (λ new. IsMesh new.points.items new.faces.items) }
    ensures boxed { All (IsWithin BOX_LIMIT) kept.mesh.points.items → IfOk result (λ new. All (IsWithin BOX_LIMIT) new.points.items) }
    ensures closed { IfOk result (λ new. IsBalanced new.faces.items) }
{
    let PairedMesh { mesh, twins } = kept;
    if !manifold {
        return Ok(mesh);
    }
    let new = split_all(alloc, &mesh, twins)?;
    Ok(new)
}
