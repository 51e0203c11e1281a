//! The last test: around each vertex the faces are one cycle.

ghost use Rattle.std.specs.Prelude.{IfOk, length};
ghost use Rattle.std.specs.Bool.{OnTrue, OnFalse};
ghost use Rattle.mesh.specs.Meshes.{IsMesh};
ghost use Rattle.mesh_finish.specs.Steps.{AreUmbrellas};

use crate::NoMemory;
use mesh::Mesh;
use mesh_measures::measure_topology;
use std::alloc::Global;

/// Returns whether the faces around each vertex are one cycle.
pub(crate) fn are_umbrellas(alloc: Global, mesh: &Mesh) -> Result<bool, NoMemory>
    requires { IsMesh mesh.now.points.items mesh.now.faces.items }
    ensures yes { IfOk result (λ yes. OnTrue yes (AreUmbrellas (length mesh.now.points.items) mesh.now.faces.items)) }
    ensures no { IfOk result (λ yes. OnFalse yes (¬ AreUmbrellas (length mesh.now.points.items) mesh.now.faces.items)) }
{
    let topology = measure_topology(alloc, mesh)?;
    if topology.nonmanifold_vertices > 0 {
        return Ok(false);
    }
    Ok(true)
}
