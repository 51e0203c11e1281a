//! The finished mesh.

ghost use Rattle.std.specs.Prelude.{◌≡◌, true, length, IfOk, IfErr, All};
ghost use Rattle.std.specs.Bool.{OnTrue, OnFalse};
ghost use Rattle.geo_sign.specs.Point.{IsWithin};
ghost use Rattle.geo_sign.specs.declared.point.TheConstants.{BOX_LIMIT};
ghost use Rattle.mesh.specs.Meshes.{IsMesh};
ghost use Rattle.mesh_edges.specs.Edges.{IsBalanced};
ghost use Rattle.mesh_pieces.specs.Splits.{AreSingle};
ghost use Rattle.mesh_finish.specs.Finished.{IsFinished};
ghost use Rattle.mesh_finish.specs.Steps.{AreFlippedIf, AreMade, AreUmbrellas, AreFinished, ExplainsFinish};

use crate::NoMemory;
use crate::options::{FinishError, Step};
use crate::order::in_order;
use crate::smoothed::{FinishedMesh, smoothed};
use crate::steps::{kept, paired, split};
use crate::turned::turned_faces;
use crate::umbrellas::are_umbrellas;
use finish_options::FinishOptions;
use geo_sign::Point;
use mesh::Mesh;
use mesh_edges::find_twins;
use mesh_flips::{FlipOrder, flip_edges};
use std::alloc::Global;

/// Returns the faces of a mesh with edges flipped.
fn finished_faces(
    alloc: Global,
    points: &[Point],
    faces: &[[u32; 3]],
) -> Result<Vec<[u32; 3]>, NoMemory>
    requires { IsMesh points.now faces.now }
    ensures finished { IfOk result (λ new. IsFinished points.now faces.now new.items) }
    ensures valid { IfOk result (λ new. IsMesh points.now new.items) }
    ensures closed { IsBalanced faces.now → IfOk result (λ new. IsBalanced new.items) }
    ensures single { AreSingle faces.now → IfOk result (λ new. AreSingle new.items) }
{
    let mut sorted = in_order(alloc, points, faces)?;
    let twins = find_twins(alloc, points, &sorted)?;
    flip_edges(alloc, points, &mut sorted, twins, FlipOrder::AreaFirst)?;
    let turned = turned_faces(alloc, &sorted)?;
    Ok(turned)
}

/// Returns the mesh with its edges flipped where that lowers the angles between faces. The points and their numbers stay, and the order
/// of faces changes.
fn flip_mesh(alloc: Global, mesh: Mesh) -> Result<Mesh, NoMemory>
    requires { IsMesh mesh.points.items mesh.faces.items }
    ensures points { IfOk result (λ new. new.points.items ≡ mesh.points.items) }
    ensures finished { IfOk result (λ new. IsFinished mesh.points.items mesh.faces.items new.faces.items) }
    ensures valid { IfOk result (λ new. IsMesh new.points.items new.faces.items) }
    ensures closed { IsBalanced mesh.faces.items → IfOk result (λ new. IsBalanced new.faces.items) }
    ensures single { AreSingle mesh.faces.items → IfOk result (λ new. AreSingle new.faces.items) }
{
    let Mesh { points, faces } = mesh;
    let faces = finished_faces(alloc, &points, &faces)?;
    Ok(Mesh { points, faces })
}

/// Returns the mesh with its edges flipped, if that is asked for, or as it is.
fn flipped(alloc: Global, mesh: Mesh, flips: bool) -> Result<Mesh, NoMemory>
    requires { IsMesh mesh.points.items mesh.faces.items }
    ensures points { IfOk result (λ new. new.points.items ≡ mesh.points.items) }
    ensures flips { IfOk result (λ new. AreFlippedIf flips mesh.points.items mesh.faces.items new.faces.items) }
    ensures valid { IfOk result (λ new. IsMesh new.points.items new.faces.items) }
    ensures closed { IsBalanced mesh.faces.items → IfOk result (λ new. IsBalanced new.faces.items) }
    ensures single { AreSingle mesh.faces.items → IfOk result (λ new. AreSingle new.faces.items) }
{
    if !flips {
        return Ok(mesh);
    }
    let new = flip_mesh(alloc, mesh)?;
    Ok(new)
}

/// Returns the mesh after what the options ask for, and its scale.
fn made(
    alloc: Global,
    mesh: Mesh,
    options: FinishOptions,
    targets: &[Point],
) -> Result<FinishedMesh, FinishError>
    requires { IsMesh mesh.points.items mesh.faces.items }
    ensures made { IfOk result (λ new. AreMade options mesh.points.items mesh.faces.items new.mesh.points.items new.mesh.faces.items new.fine) }
    ensures valid { IfOk result (λ new. IsMesh new.mesh.points.items new.mesh.faces.items) }
    ensures boxed { All (IsWithin BOX_LIMIT) mesh.points.items → IfOk result (λ new. All (IsWithin BOX_LIMIT) new.mesh.points.items) }
    ensures why { IfErr result (λ error. ExplainsFinish options mesh.points.items mesh.faces.items error) }
{
    let twins = paired(alloc, &mesh)?;
    let kept = kept(alloc, mesh, twins, options.pieces)?;
    let split = split(alloc, kept, options.manifold)?;
    let flipped = flipped(alloc, split, options.flips)?;
    let new = smoothed(alloc, flipped, options, targets)?;
    Ok(new)
}

/// Returns whether the faces around each vertex are one cycle, if vertices were split.
fn is_as_asked(alloc: Global, mesh: &Mesh, manifold: bool) -> Result<bool, NoMemory>
    requires { IsMesh mesh.now.points.items mesh.now.faces.items }
    ensures yes { manifold ≡ true → IfOk result (λ yes. OnTrue yes (AreUmbrellas (length mesh.now.points.items) mesh.now.faces.items)) }
    ensures no { IfOk result (λ yes. OnFalse yes ((manifold ≡ true) × (¬ AreUmbrellas (length mesh.now.points.items) mesh.now.faces.items))) }
{
    if !manifold {
        return Ok(true);
    }
    let answer = are_umbrellas(alloc, mesh)?;
    Ok(answer)
}

/// Returns the mesh after what the options ask for, and its scale.
///
/// Half edges are paired first, so a mesh that is not closed is an error in any case. Then pieces are kept, vertices split, edges
/// flipped and points moved. If vertices were split, the faces around each vertex of the result are tested to be one cycle.
///
/// `targets` are places to which the points are to move, in units of the result, one for each point that is left after pieces and
/// splitting: a hint, on which no clause depends. If it is empty, points move where neighboring faces agree on their directions.
pub fn finish_mesh(
    alloc: Global,
    mesh: Mesh,
    options: FinishOptions,
    targets: &[Point],
) -> Result<FinishedMesh, FinishError>
    requires { IsMesh mesh.points.items mesh.faces.items }
    ensures finished { IfOk result (λ new. AreFinished options mesh.points.items mesh.faces.items new.mesh.points.items new.mesh.faces.items new.fine) }
    ensures valid { IfOk result (λ new. IsMesh new.mesh.points.items new.mesh.faces.items) }
    ensures boxed { All (IsWithin BOX_LIMIT) mesh.points.items → IfOk result (λ new. All (IsWithin BOX_LIMIT) new.mesh.points.items) }
    ensures why { IfErr result (λ error. ExplainsFinish options mesh.points.items mesh.faces.items error) }
{
    let new = made(alloc, mesh, options, targets)?;
    if !is_as_asked(alloc, &new.mesh, options.manifold)? {
        return Err(FinishError::Unverified(Step::Umbrellas));
    }
    Ok(new)
}
