//! Whether each point of two meshes is near the other mesh.

ghost use Rattle.std.specs.Prelude.{IfOk, IfNone};
ghost use Rattle.mesh.specs.Meshes.{IsMesh};
ghost use Rattle.mesh_simplify.specs.Simplified.{IsNearIfAsked};

use crate::NoMemory;
use crate::tests::Hints;
use mesh::Mesh;
use mesh_cover::{find_uncovered, list_uncovered};
use std::alloc::Global;

/// The part of the distance by which searches stay below it around points that were not near.
const MARGIN: u32 = 16;

/// Where to begin listing faces that are not shown to be near the other mesh.
#[derive(Clone, Copy)]
pub(crate) struct FirstFar {
    /// The distance.
    within: u32,
    /// The first of the old mesh.
    there: usize,
    /// The first of the new mesh.
    back: usize,
}

/// Returns the first face of either mesh that has a point not shown to be within a distance of the other, if that is asked.
///
/// `homes[v]` is the number of a face that old vertex `v` may be near. `None` is exact.
pub(crate) fn first_far(
    alloc: Global,
    old: &Mesh,
    mesh: &Mesh,
    homes: &[u32],
    within: u32,
    asked: bool,
) -> Result<Option<FirstFar>, NoMemory>
    requires old { IsMesh old.now.points.items old.now.faces.items }
    requires mesh { IsMesh mesh.now.points.items mesh.now.faces.items }
    ensures { IfOk result (λ first. IfNone first (IsNearIfAsked asked within old.now.points.items old.now.faces.items mesh.now.points.items mesh.now.faces.items)) }
{
    if !asked {
        return Ok(None);
    }
    if let Some(there) = find_uncovered(alloc, old, mesh, homes, within)? {
        return Ok(Some(FirstFar {
            within,
            there,
            back: 0,
        }));
    }
    if let Some(back) = find_uncovered(alloc, mesh, old, &[], within)? {
        return Ok(Some(FirstFar {
            within,
            there: old.faces.len(),
            back,
        }));
    }
    Ok(None)
}

/// Returns the distances within which points have to stay around each vertex, none if corners alone have to. At first corners are all that
/// is looked at.
pub(crate) fn first_limits(
    alloc: Global,
    count: usize,
    within: u32,
    asked: bool,
) -> Result<Vec<u32>, NoMemory> {
    let count = if asked { count } else { 0 };
    let limits = vec![in alloc; within; count]?;
    Ok(limits)
}

/// Appends the corners of some faces.
fn push_corners(
    list: &mut Vec<u32>,
    faces: &[[u32; 3]],
    numbers: &[usize],
) -> Result<(), NoMemory> {
    for i in numbers {
        if let Some(face) = faces.get(*i) {
            let [a, b, c] = *face;
            list.push(a)?;
            list.push(b)?;
            list.push(c)?;
        }
    }
    Ok(())
}

/// Appends the old numbers of vertices.
fn push_old(list: &mut Vec<u32>, from: &[u32], vertices: &[u32]) -> Result<(), NoMemory> {
    for v in vertices {
        if let Some(old) = from.get(*v as usize) {
            list.push(*old)?;
        }
    }
    Ok(())
}

/// Returns a mark for each of these numbers below a count.
fn marks_of(alloc: Global, count: usize, numbers: &[usize]) -> Result<Vec<bool>, NoMemory> {
    let mut marks = vec![in alloc; false; count]?;
    for i in numbers {
        if *i < marks.len() {
            marks[*i] = true;
        }
    }
    Ok(marks)
}

/// Appends the old vertices that are near some faces.
fn push_near(
    alloc: Global,
    list: &mut Vec<u32>,
    homes: &[u32],
    count: usize,
    numbers: &[usize],
) -> Result<(), NoMemory> {
    let marks = marks_of(alloc, count, numbers)?;
    let mut v = 0u32;
    for home in homes {
        if marks.get(*home as usize).copied().unwrap_or(false) {
            list.push(v)?;
        }
        v = v.saturating_add(1);
    }
    Ok(())
}

/// Appends old vertices around the points of either mesh that are not shown to be near the other, with repetitions. They are hints.
pub(crate) fn push_far(
    alloc: Global,
    old: &Mesh,
    mesh: &Mesh,
    hints: &Hints,
    first: FirstFar,
    list: &mut Vec<u32>,
) -> Result<(), NoMemory>
    requires old { IsMesh old.now.points.items old.now.faces.items }
    requires mesh { IsMesh mesh.now.points.items mesh.now.faces.items }
{
    let FirstFar {
        within,
        there,
        back,
    } = first;
    let there = list_uncovered(alloc, old, mesh, hints.homes, within, there)?;
    let back = list_uncovered(alloc, mesh, old, &[], within, back)?;
    push_corners(list, &old.faces, &there)?;
    let mut corners = Vec::new(alloc);
    push_corners(&mut corners, &mesh.faces, &back)?;
    push_old(list, hints.from, &corners)?;
    push_near(alloc, list, hints.homes, mesh.faces.len(), &back)
}

/// Makes the distance around a vertex shorter: a little at first, and by half if it was shorter before.
fn lower_at(limits: &mut [u32], v: u32, within: u32) {
    if (v as usize) < limits.len() {
        let limit = limits[v as usize];
        limits[v as usize] = if limit < within {
            limit / 2
        } else {
            limit - limit / MARGIN
        };
    }
}

/// Makes the distances around some vertices shorter, and sorts these.
pub(crate) fn lower(limits: &mut [u32], vertices: &mut [u32], within: u32) {
    vertices.sort_unstable();
    for at in 0..vertices.len() {
        if at == 0 || vertices[at - 1] != vertices[at] {
            lower_at(limits, vertices[at], within);
        }
    }
}

/// Makes all distances shorter.
pub(crate) fn lower_all(limits: &mut [u32]) {
    for v in 0..limits.len() {
        limits[v] -= limits[v] / MARGIN;
    }
}
