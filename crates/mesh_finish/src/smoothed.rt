//! The last step: points move, and the mesh has another scale.

ghost use Rattle.std.specs.Prelude.{◌≡◌, false, IfOk, All};
ghost use Rattle.geo_sign.specs.Point.{IsWithin};
ghost use Rattle.geo_sign.specs.declared.point.TheConstants.{BOX_LIMIT};
ghost use Rattle.mesh.specs.Meshes.{IsMesh};
ghost use Rattle.mesh_finish.specs.Finished.{AreSmoothed};
ghost use Rattle.mesh_finish.specs.Steps.{IsSmoothedIf};

use crate::NoMemory;
use crate::turned::turned_faces;
use finish_options::{FinishOptions, SmoothOptions};
use geo_sign::Point;
use mesh::Mesh;
use mesh_edges::find_twins;
use mesh_smooth::{MoveHints, Smoothing, smooth_mesh};
use std::alloc::Global;

/// A finished mesh and its scale.
#[derive(Drop)]
pub struct FinishedMesh {
    /// The mesh.
    pub mesh: Mesh,
    /// How many of its units one unit of the mesh before has: 1 without smoothing.
    pub fine: u32,
}

/// Returns the mesh smoothed, on a finer grid.
fn smooth_all(
    alloc: Global,
    mesh: Mesh,
    smoothing: Smoothing,
    targets: &[Point],
) -> Result<FinishedMesh, NoMemory>
    requires { IsMesh mesh.points.items mesh.faces.items }
    ensures smoothed { IfOk result (λ new. AreSmoothed mesh.points.items mesh.faces.items new.mesh.points.items new.mesh.faces.items new.fine smoothing.within) }
    ensures still { smoothing.flips ≡ false → IfOk result (λ new. new.mesh.faces.items ≡ mesh.faces.items) }
    ensures valid { IfOk result (λ new. IsMesh new.mesh.points.items new.mesh.faces.items) }
    ensures boxed { IfOk result (λ new. All (IsWithin BOX_LIMIT) new.mesh.points.items) }
{
    let Mesh { points, mut faces } = mesh;
    let twins = find_twins(alloc, &points, &faces)?;
    let hints = MoveHints { twins, targets };
    let new = smooth_mesh(alloc, &points, &mut faces, hints, smoothing)?;
    let faces = turned_faces(alloc, &faces)?;
    Ok(FinishedMesh {
        mesh: Mesh {
            points: new.points,
            faces,
        },
        fine: new.fine,
    })
}

/// Returns the mesh smoothed, if the options ask for it, or as it is. The targets are hints.
pub(crate) fn smoothed(
    alloc: Global,
    mesh: Mesh,
    options: FinishOptions,
    targets: &[Point],
) -> Result<FinishedMesh, NoMemory>
    requires { IsMesh mesh.points.items mesh.faces.items }
    ensures smoothed { IfOk result (λ new. IsSmoothedIf options.smoothing mesh.points.items mesh.faces.items new.mesh.points.items new.mesh.faces.items new.fine) }
    ensures still { options.flips ≡ false → IfOk result (λ new. new.mesh.faces.items ≡ mesh.faces.items) }
    ensures valid { IfOk result (λ new. IsMesh new.mesh.points.items new.mesh.faces.items) }
    ensures boxed { All (IsWithin BOX_LIMIT) mesh.points.items → IfOk result (λ new. All (IsWithin BOX_LIMIT) new.mesh.points.items) }
{
    match options.smoothing {
        None => Ok(FinishedMesh { mesh, fine: 1 }),
        Some(SmoothOptions { steps, within }) => {
            let flips = options.flips;
            let new = smooth_all(
                alloc,
                mesh,
                Smoothing {
                    steps,
                    within,
                    flips,
                },
                targets,
            )?;
            Ok(new)
        }
    }
}
