//! The twins of a closed mesh, or why it has none.

ghost use Rattle.std.specs.Prelude.{◌≡◌, IfOk, IfErr};
ghost use Rattle.mesh_edges.specs.Edges.{IsBalanced};
ghost use Rattle.mesh.specs.Meshes.{IsMesh};
ghost use Rattle.mesh_edges.specs.HalfEdges.{ArePaired};
ghost use Rattle.mesh_edges.specs.Pairing.{Explains};
ghost use Rattle.mesh_edges.specs.declared.pairing.PairingError.TheVariants as errors;

use crate::matching::matched;
use crate::search::find_twins;
use crate::twins::are_twins;
use crate::umbrellas::divide_umbrellas;
use crate::{Mesh, NoMemory, UnbalancedEdge, first_unbalanced};
use std::alloc::{AllocError, Global};

/// How many faces there may be, so that the numbers of half edges fit 32 bits.
const MOST_FACES: usize = 1_431_655_765;

/// Why a mesh has no twins.
#[derive(Clone, Copy, Debug, PartialEq, Eq)]
pub enum PairingError {
    /// The mesh is not closed: this is its smallest edge that occurs another number of times than its reverse.
    NotClosed(UnbalancedEdge),
    /// Out of memory.
    NoMemory,
}

impl From<NoMemory> for PairingError {
    ghost from_gives = { λ _ error. error ≡ errors.NoMemory };

    fn from(_: NoMemory) -> PairingError {
        PairingError::NoMemory
    }
}

/// Returns twins that pair the half edges if the mesh is closed.
fn twins_of(alloc: Global, mesh: &Mesh) -> Result<Vec<u32>, NoMemory>
    requires { IsMesh mesh.now.points.items mesh.now.faces.items }
    ensures { IsBalanced mesh.now.faces.items → IfOk result (λ twins. ArePaired mesh.now.faces.items twins.items) }
{
    if mesh.faces.len() > MOST_FACES {
        return Err(AllocError);
    }
    let proposed = find_twins(alloc, &mesh.points, &mesh.faces)?;
    let twins = matched(alloc, &mesh.faces, &proposed)?;
    Ok(twins)
}

/// Returns the twins with umbrellas divided.
fn divided(alloc: Global, mesh: &Mesh, twins: Vec<u32>) -> Result<Vec<u32>, NoMemory>
    requires valid { IsMesh mesh.now.points.items mesh.now.faces.items }
    requires paired { ArePaired mesh.now.faces.items twins.items }
    ensures { IfOk result (λ new. ArePaired mesh.now.faces.items new.items) }
{
    let umbrellas = divide_umbrellas(alloc, &mesh.faces, twins)?;
    Ok(umbrellas.twins)
}

/// Returns the twin of each half edge of a closed mesh, which always has them.
///
/// Which half edges are paired where more than two faces meet in an edge is not promised: it goes by the wedges of the solid around the
/// edge, as exact orientations tell them, and by how these are connected. The edges are sorted, and all else is linear.
pub fn pair(alloc: Global, mesh: &Mesh) -> Result<Vec<u32>, PairingError>
    requires { IsMesh mesh.now.points.items mesh.now.faces.items }
    ensures paired { IfOk result (λ twins. ArePaired mesh.now.faces.items twins.items) }
    ensures why { IfErr result (λ error. Explains mesh.now.faces.items error) }
{
    let twins = twins_of(alloc, mesh)?;
    if are_twins(&mesh.faces, &twins) {
        let new = divided(alloc, mesh, twins)?;
        return Ok(new);
    }
    match first_unbalanced(alloc, mesh)? {
        Some(edge) => Err(PairingError::NotClosed(edge)),
        None => unreachable!(),
    }
}
