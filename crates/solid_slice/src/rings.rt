//! Computes loops by following next faces.

ghost use Rattle.std.specs.Prelude.{◌≡◌, ◌+◌, ◌<◌, ◌==◌, ℕ, true, false, not, IfOk, All, map, count_by, slice_index};
ghost use Rattle.mesh.specs.Meshes.{IsMesh};
ghost use Rattle.solid_slice.specs.Cuts.{is_cut_face, IsStep};
ghost use Rattle.solid_slice.specs.Loops.{the_face, ring_faces, IsLoop, AreLoops};
ghost use Rattle.solid_slice.specs.Walks.{IsSuccession, is_visited, visits, IsBetweenLoops};

use crate::height::{is_face_cut, step_of};
use crate::step::{Ring, Step};
use crate::{Mesh, NoMemory};
use std::alloc::Global;

/// Returns the loop through a cut face that was not visited, starting there, and marks its faces as visited.
fn follow(
    alloc: Global,
    mesh: &Mesh,
    height: i32,
    next: &[u32],
    visited: &mut [bool],
    start: u32,
) -> Result<Vec<Step>, NoMemory>
    requires valid { IsMesh mesh.now.points.items mesh.now.faces.items }
    requires next { IsSuccession mesh.now.points.items mesh.now.faces.items height next.now }
    requires between { IsBetweenLoops mesh.now.points.items mesh.now.faces.items height next.now visited.old }
    requires fresh { is_visited visited.old start ≡ false }
    requires smaller { (f : ℕ) → f < start → is_visited visited.old f ≡ true }
    ensures points { IfOk result (λ steps. All (IsStep mesh.now.points.items mesh.now.faces.items height) steps.items) }
    ensures ring { IfOk result (λ steps. IsLoop mesh.now.points.items mesh.now.faces.items height (map the_face steps.items)) }
    ensures first { IfOk result (λ steps. slice_index (map the_face steps.items) 0 ≡ start) }
    ensures between { IfOk result (λ _. IsBetweenLoops mesh.now.points.items mesh.now.faces.items height next.now visited.new) }
    ensures visited { IfOk result (λ steps. (f : ℕ) → count_by (λ g. g == f) (map the_face steps.items) + visits visited.old f ≡ visits visited.new f) }
{
    let mut steps = Vec::new(alloc);
    let mut face = start;
    loop {
        steps.push(step_of(mesh, height, face))?;
        visited[face as usize] = true;
        face = next[face as usize];
        if face == start {
            return Ok(steps);
        }
    }
}

/// Returns a list of the faces that are not cut.
fn uncut_faces(alloc: Global, mesh: &Mesh, height: i32) -> Result<Vec<bool>, NoMemory>
    requires { IsMesh mesh.now.points.items mesh.now.faces.items }
    ensures { IfOk result (λ uncut. uncut.items ≡ map (λ face. not (is_cut_face mesh.now.points.items height face)) mesh.now.faces.items) }
{
    let mut uncut = Vec::new(alloc);
    for face in &mesh.faces {
        uncut.push(!is_face_cut(&mesh.points, height, *face))?;
    }
    Ok(uncut)
}

/// Returns the loops of all cut faces; faces that are not cut are marked as visited.
fn loops_of(
    alloc: Global,
    mesh: &Mesh,
    height: i32,
    next: &[u32],
    visited: &mut [bool],
) -> Result<Vec<Ring>, NoMemory>
    requires valid { IsMesh mesh.now.points.items mesh.now.faces.items }
    requires next { IsSuccession mesh.now.points.items mesh.now.faces.items height next.now }
    requires uncut { visited.old ≡ map (λ face. not (is_cut_face mesh.now.points.items height face)) mesh.now.faces.items }
    ensures loops { IfOk result (λ rings. AreLoops mesh.now.points.items mesh.now.faces.items height (map ring_faces rings.items)) }
    ensures points { IfOk result (λ rings. All (λ ring. All (IsStep mesh.now.points.items mesh.now.faces.items height) ring.steps.items) rings.items) }
{
    let mut rings = Vec::new(alloc);
    for start in 0..visited.len() {
        if !visited[start] {
            let steps = follow(alloc, mesh, height, next, visited, start as u32)?;
            rings.push(Ring { steps })?;
        }
    }
    Ok(rings)
}

/// Returns the loops of all cut faces.
pub(crate) fn rings_of(
    alloc: Global,
    mesh: &Mesh,
    height: i32,
    next: &[u32],
) -> Result<Vec<Ring>, NoMemory>
    requires valid { IsMesh mesh.now.points.items mesh.now.faces.items }
    requires next { IsSuccession mesh.now.points.items mesh.now.faces.items height next.now }
    ensures loops { IfOk result (λ rings. AreLoops mesh.now.points.items mesh.now.faces.items height (map ring_faces rings.items)) }
    ensures points { IfOk result (λ rings. All (λ ring. All (IsStep mesh.now.points.items mesh.now.faces.items height) ring.steps.items) rings.items) }
{
    let mut visited = uncut_faces(alloc, mesh, height)?;
    loops_of(alloc, mesh, height, next, &mut visited)
}
