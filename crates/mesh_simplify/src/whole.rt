//! The simplified mesh.

ghost use Rattle.std.specs.Prelude.{◌≡◌, IfOk, IfErr, IfSome, All};
ghost use Rattle.geo_sign.specs.Point.{IsWithin};
ghost use Rattle.geo_sign.specs.declared.point.TheConstants.{BOX_LIMIT};
ghost use Rattle.mesh.specs.Meshes.{IsMesh};
ghost use Rattle.mesh_edges.specs.Edges.{IsBalanced};
ghost use Rattle.mesh_simplify.specs.Simplified.{IsSimplified, IsNearIfAsked, ExplainsSimplify};
ghost use Rattle.mesh_simplify.specs.Tested.{IsGood};

use crate::NoMemory;
use crate::candidate::{Candidate, find_candidate};
use crate::surface::{first_far, first_limits, lower, lower_all, push_far};
use crate::tests::{Hints, is_simplified};
use crate::valid::{is_mesh, keep_box, places_of};
use mesh::Mesh;
use mesh_collapse::{History, Request};
use mesh_edges::{UnbalancedEdge, first_unbalanced};
use std::alloc::Global;

/// How many searches are made.
const ROUNDS: usize = 16;

/// How many of them begin with the collapses of the one before.
const REPEATS: usize = 10;

/// Why a mesh is not simplified.
#[derive(Clone, Copy, Debug, PartialEq, Eq)]
pub enum SimplifyError {
    /// It is not closed: this is its smallest edge that occurs another number of times than its reverse.
    NotClosed(UnbalancedEdge),
    /// Out of memory.
    NoMemory,
}

/// Returns the mesh of a candidate, if it is valid and simplified, and near if that is asked. If only that fails, old vertices around the
/// points that are not shown to be near are appended to `far`.
fn tested(
    alloc: Global,
    old: &Mesh,
    new: Candidate,
    request: Request,
    surface: bool,
    far: &mut Vec<u32>,
) -> Result<Option<Mesh>, NoMemory>
    requires { IsMesh old.now.points.items old.now.faces.items }
    ensures { IfOk result (λ new. IfSome new (λ m. IsGood surface request.moves request.within old.now.points.items old.now.faces.items m.points.items m.faces.items)) }
{
    let Candidate {
        faces,
        from,
        points,
        source,
        homes,
    } = new;
    let Some(points) = places_of(alloc, &old.points, &from, points, request.moves)? else {
        return Ok(None);
    };
    let mesh = Mesh { points, faces };
    if !is_mesh(&mesh) {
        return Ok(None);
    }
    let hints = Hints {
        from: &from,
        source: &source,
        homes: &homes,
    };
    if !is_simplified(alloc, old, &mesh, &hints, request)? {
        return Ok(None);
    }
    if let Some(first) = first_far(alloc, old, &mesh, &homes, request.within, surface)? {
        push_far(alloc, old, &mesh, &hints, first, far)?;
        return Ok(None);
    }
    Ok(Some(mesh))
}

/// Returns what the search finds, if it passes all tests. If all points have to be near, it searches again around those that are not, with
/// shorter distances there, and if that does not end, everywhere.
fn found(
    alloc: Global,
    mesh: &Mesh,
    request: Request,
    surface: bool,
) -> Result<Option<Mesh>, NoMemory>
    requires { IsMesh mesh.now.points.items mesh.now.faces.items }
    ensures { IfOk result (λ new. IfSome new (λ m. IsGood surface request.moves request.within mesh.now.points.items mesh.now.faces.items m.points.items m.faces.items)) }
{
    let mut limits = first_limits(alloc, mesh.points.len(), request.within, surface)?;
    let mut far = Vec::new(alloc);
    let mut history = History::none(alloc);
    for round in 0..ROUNDS {
        let fresh = history.is_empty();
        let new = find_candidate(alloc, mesh, request, &limits, &mut history)?;
        let new = tested(alloc, mesh, new, request, surface, &mut far)?;
        if let Some(new) = new {
            return Ok(Some(new));
        }
        if far.is_empty() && fresh {
            return Ok(None);
        }
        if far.is_empty() || round >= REPEATS {
            history = History::none(alloc);
        }
        if round >= REPEATS {
            lower_all(&mut limits);
        }
        lower(&mut limits, &mut far, request.within);
        far.clear();
    }
    Ok(None)
}

/// Returns a closed mesh simplified, or as it is.
fn simplified(alloc: Global, mesh: Mesh, request: Request, surface: bool) -> Result<Mesh, NoMemory>
    requires valid { IsMesh mesh.points.items mesh.faces.items }
    requires closed { IsBalanced mesh.faces.items }
    ensures { IfOk result (λ new. IsGood surface request.moves request.within mesh.points.items mesh.faces.items new.points.items new.faces.items) }
{
    match found(alloc, &mesh, request, surface)? {
        Some(new) => Ok(new),
        None => Ok(mesh),
    }
}

/// Returns a closed mesh simplified: with fewer faces, down to a number of faces or as few as the search finds, and each corner of the
/// given mesh within a distance of them. With `surface` each point of either mesh is within the distance of the other. Vertices are where
/// they are in the given mesh, unless the request lets them move. A mesh for which the search finds none that passes all tests stays as it
/// is.
pub fn simplify_mesh(
    alloc: Global,
    mesh: Mesh,
    request: Request,
    surface: bool,
) -> Result<Mesh, SimplifyError>
    requires { IsMesh mesh.points.items mesh.faces.items }
    ensures simplified { IfOk result (λ new. IsSimplified request.moves request.within mesh.points.items mesh.faces.items new.points.items new.faces.items) }
    ensures near { IfOk result (λ new. IsNearIfAsked surface request.within mesh.points.items mesh.faces.items new.points.items new.faces.items) }
    ensures valid { IfOk result (λ new. IsMesh new.points.items new.faces.items) }
    ensures boxed { IfOk result (λ new. All (IsWithin BOX_LIMIT) new.points.items) }
    ensures why { IfErr result (λ error. ExplainsSimplify mesh.faces.items error) }
{
    match first_unbalanced(alloc, &mesh) {
        Ok(None) => {}
        Ok(Some(edge)) => return Err(SimplifyError::NotClosed(edge)),
        Err(_) => return Err(SimplifyError::NoMemory),
    }
    match simplified(alloc, mesh, request, surface) {
        Ok(new) => {
            keep_box(&new.points);
            Ok(new)
        }
        Err(_) => Err(SimplifyError::NoMemory),
    }
}
