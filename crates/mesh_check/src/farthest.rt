//! Looks for a point of a face that is far from all faces of a mesh.

ghost use Rattle.std.specs.Prelude.{◌≡◌, true, IfOk, All, length};
ghost use Rattle.std.specs.Bool.{OnTrue};
ghost use Rattle.mesh.specs.Meshes.{IsFace, IsMesh, point_at};
ghost use Rattle.mesh_edges.specs.Edges.{face_at};
ghost use Rattle.mesh_check.specs.Far.{AreAllFar, IsFarIfGiven};

use crate::NoMemory;
use crate::far::{corners_of, is_far_point, is_far_vertex, way_at};
use face_near::{Corners, Weights, nearest_on};
use mesh::Mesh;
use mesh_flips::Way;
use std::alloc::Global;

/// Into how many parts sides are cut: points of a face with weights of this sum are tried.
const PARTS: u32 = 16;

/// How many pairs of weights up to that there are.
const PAIRS: u32 = 289;

/// Returns whether some of a span is within reach of another, by the three corners of each.
fn are_close(one: [f64; 3], other: [f64; 3], reach: f64) -> bool {
    let [a, b, c] = one;
    let [d, e, f] = other;
    a.min(b).min(c) - reach <= d.max(e).max(f) && d.min(e).min(f) - reach <= a.max(b).max(c)
}

/// Returns whether the boxes of two triangles are within reach.
fn may_be_near(s: &Corners, t: &Corners, reach: f64) -> bool {
    are_close([s.a.x, s.b.x, s.c.x], [t.a.x, t.b.x, t.c.x], reach)
        && are_close([s.a.y, s.b.y, s.c.y], [t.a.y, t.b.y, t.c.y], reach)
        && are_close([s.a.z, s.b.z, s.c.z], [t.a.z, t.b.z, t.c.z], reach)
}

/// Returns the faces of a mesh that may be within reach of a triangle.
fn near_faces(
    alloc: Global,
    onto: &Mesh,
    t: &Corners,
    within: u32,
) -> Result<Vec<Corners>, NoMemory> {
    let mut list = Vec::new(alloc);
    for face in &onto.faces {
        let corners = corners_of(&onto.points, *face);
        if may_be_near(&corners, t, f64::from(within)) {
            list.push(corners)?;
        }
    }
    Ok(list)
}

/// Returns the square of the distance from a place to the nearest of some faces.
fn square_to(from: Way, list: &[Corners]) -> f64 {
    let mut least = f64::INFINITY;
    for corners in list {
        least = least.min(nearest_on(from, corners).square);
    }
    least
}

/// Returns the weights of a point of a face that is as far from some faces as any of those that are tried.
fn farthest(t: &Corners, list: &[Corners]) -> Weights {
    let mut best = Weights { a: 1, b: 1, c: 1 };
    let mut far = square_to(way_at(best, t), list);
    for pair in 0..PAIRS {
        let (a, b) = (pair / (PARTS + 1), pair % (PARTS + 1));
        let w = Weights {
            a,
            b,
            c: PARTS.saturating_sub(a).saturating_sub(b),
        };
        let square = square_to(way_at(w, t), list);
        if a.saturating_add(b) <= PARTS && square > far {
            best = w;
            far = square;
        }
    }
    best
}

/// Returns the weights of a point of a face of a mesh that is shown to be farther than a distance from each face of another mesh, if one
/// is found.
pub(crate) fn find_far_point(
    alloc: Global,
    home: &Mesh,
    i: usize,
    onto: &Mesh,
    within: u32,
) -> Result<Option<Weights>, NoMemory>
    requires home { IsMesh home.now.points.items home.now.faces.items }
    requires onto { IsMesh onto.now.points.items onto.now.faces.items }
    ensures { IfOk result (λ far. IsFarIfGiven within home.now.points.items onto.now.points.items onto.now.faces.items (face_at home.now.faces.items i) far) }
{
    if i >= home.faces.len() {
        return Ok(None);
    }
    let face = home.faces[i];
    let corners = corners_of(&home.points, face);
    let list = near_faces(alloc, onto, &corners, within)?;
    let w = farthest(&corners, &list);
    if !is_far_point(&home.points, face, onto, w, within) {
        return Ok(None);
    }
    Ok(Some(w))
}

/// Returns whether a vertex of a mesh is shown to be farther than a distance from each face of another mesh. `true` is exact.
pub(crate) fn is_far_corner(home: &Mesh, v: u32, onto: &Mesh, within: u32) -> bool
    requires { IsMesh onto.now.points.items onto.now.faces.items }
    ensures { OnTrue result (AreAllFar within onto.now.points.items onto.now.faces.items 1 (point_at home.now.points.items v)) }
{
    (v as usize) < home.points.len() && is_far_vertex(&home.points, v, onto, within)
}
