//! The first face of a mesh that is not shown to be near another mesh.

ghost use Rattle.std.specs.Prelude.{◌≡◌, ◌<◌, IfOk, IfNone, All, length};
ghost use Rattle.std.specs.Bool.{OnTrue};
ghost use Rattle.mesh.specs.Meshes.{IsFace, IsMesh, point_at};
ghost use Rattle.mesh_cover.specs.Covers.{IsCovered, IsFaceCovered, IsTriangleCovered};

use crate::NoMemory;
use crate::cover::{Nearby, is_covered};
use crate::near::{corners_of, is_part_near};
use crate::part::Part;
use crate::place::Place;
use geo_sign::Point;
use mesh::Mesh;
use mesh_flips::{FaceOrder, faces_in_order, hull_of};
use std::alloc::Global;
use triangles::{Hull, Span};

/// How often parts are cut in four.
const DEPTH: u32 = 8;

/// What helps to find faces.
#[derive(Drop)]
struct Search {
    order: FaceOrder,
    found: Vec<usize>,
    nearby: Vec<Nearby>,
}

/// Returns a span with a distance added on both sides.
fn widened_span(s: Span, by: i32) -> Span {
    Span {
        low: s.low.saturating_sub(by),
        high: s.high.saturating_add(by),
    }
}

/// Returns a box with a distance added on all sides.
fn widened(hull: Hull, within: u32) -> Hull {
    let by = within.min(i32::MAX as u32) as i32;
    Hull {
        x: widened_span(hull.x, by),
        y: widened_span(hull.y, by),
        z: widened_span(hull.z, by),
    }
}

/// Returns the whole of a face with these corners.
fn whole(points: &[Point], a: u32, b: u32, c: u32) -> Part
    requires a { a < length points.now }
    requires b { b < length points.now }
    requires c { c < length points.now }
    ensures a { result.a ≡ point_at points.now a }
    ensures b { result.b ≡ point_at points.now b }
    ensures c { result.c ≡ point_at points.now c }
    ensures scale { result.scale ≡ 1 }
{
    Part {
        a: Place::of(points[a as usize]),
        b: Place::of(points[b as usize]),
        c: Place::of(points[c as usize]),
        scale: 1,
        spots: corners_of(points, [a, b, c]),
    }
}

/// Lists the faces of a mesh whose boxes overlap a box.
fn find_nearby(onto: &Mesh, hull: Hull, search: &mut Search) -> Result<(), NoMemory> {
    search.found.clear();
    search.nearby.clear();
    search.order.tree.near(hull, &mut search.found)?;
    for at in &search.found {
        let number = search.order.numbers.get(*at).copied();
        if let Some(near) = number.and_then(|i| Nearby::of(onto, i as usize)) {
            search.nearby.push(near)?;
        }
    }
    Ok(())
}

/// Returns whether all of a part is shown to be within reach of the hinted face of a vertex.
fn is_near_hint(onto: &Mesh, part: &Part, within: u32, hints: &[u32], v: u32) -> bool
    requires { All (IsFace (length onto.now.points.items)) onto.now.faces.items }
    ensures { OnTrue result (IsTriangleCovered within onto.now.points.items onto.now.faces.items part.now.scale part.now.a part.now.b part.now.c) }
{
    match hints.get(v as usize) {
        Some(i) => is_part_near(onto, *i as usize, part, within),
        None => false,
    }
}

/// Returns whether each point of a face is shown to be within reach of a face of a mesh: the hinted one of a corner, or others.
fn is_face_covered(
    points: &[Point],
    face: [u32; 3],
    onto: &Mesh,
    hints: &[u32],
    within: u32,
    search: &mut Search,
) -> Result<bool, NoMemory>
    requires face { IsFace (length points.now) face }
    requires each { All (IsFace (length onto.now.points.items)) onto.now.faces.items }
    ensures { IfOk result (λ yes. OnTrue yes (IsFaceCovered within points.now onto.now.points.items onto.now.faces.items face)) }
{
    let [a, b, c] = face;
    let part = whole(points, a, b, c);
    if is_near_hint(onto, &part, within, hints, a) {
        return Ok(true);
    }
    if is_near_hint(onto, &part, within, hints, b) {
        return Ok(true);
    }
    if is_near_hint(onto, &part, within, hints, c) {
        return Ok(true);
    }
    find_nearby(onto, widened(hull_of(points, face), within), search)?;
    let count = search.nearby.len();
    let covered = is_covered(onto, &part, within, &mut search.nearby, count, DEPTH)?;
    Ok(covered)
}

/// Returns the number of the first face that is not shown to be covered.
fn first_of_faces(
    points: &[Point],
    faces: &[[u32; 3]],
    onto: &Mesh,
    hints: &[u32],
    within: u32,
    search: &mut Search,
) -> Result<Option<usize>, NoMemory>
    requires home { All (IsFace (length points.now)) faces.now }
    requires each { All (IsFace (length onto.now.points.items)) onto.now.faces.items }
    ensures { IfOk result (λ i. IfNone i (IsCovered within points.now faces.now onto.now.points.items onto.now.faces.items)) }
{
    for i in 0..faces.len() {
        if !is_face_covered(points, faces[i], onto, hints, within, search)? {
            return Ok(Some(i));
        }
    }
    Ok(None)
}

/// Returns what helps to find faces of a mesh.
fn search_of(alloc: Global, onto: &Mesh) -> Result<Search, NoMemory>
    requires { IsMesh onto.now.points.items onto.now.faces.items }
{
    Ok(Search {
        order: faces_in_order(alloc, onto)?,
        found: Vec::new(alloc),
        nearby: Vec::new(alloc),
    })
}

/// Returns the number of the first face of a mesh that has a point not shown to be within reach of a face of another mesh. `None` only if
/// each point of each face is at most the distance from a point of a face of the other.
///
/// `hints[v]` is a face of the other mesh that vertex `v` may be near. The time is linear if the hints are right and the faces small.
pub fn find_uncovered(
    alloc: Global,
    home: &Mesh,
    onto: &Mesh,
    hints: &[u32],
    within: u32,
) -> Result<Option<usize>, NoMemory>
    requires home { IsMesh home.now.points.items home.now.faces.items }
    requires onto { IsMesh onto.now.points.items onto.now.faces.items }
    ensures { IfOk result (λ i. IfNone i (IsCovered within home.now.points.items home.now.faces.items onto.now.points.items onto.now.faces.items)) }
{
    let mut search = search_of(alloc, onto)?;
    first_of_faces(&home.points, &home.faces, onto, hints, within, &mut search)
}

/// Returns the numbers of all such faces from a number on. Nothing is stated of them: they are hints.
pub fn list_uncovered(
    alloc: Global,
    home: &Mesh,
    onto: &Mesh,
    hints: &[u32],
    within: u32,
    first: usize,
) -> Result<Vec<usize>, NoMemory>
    requires home { IsMesh home.now.points.items home.now.faces.items }
    requires onto { IsMesh onto.now.points.items onto.now.faces.items }
{
    let mut search = search_of(alloc, onto)?;
    let mut list = Vec::new(alloc);
    for i in first..home.faces.len() {
        if !is_face_covered(
            &home.points,
            home.faces[i],
            onto,
            hints,
            within,
            &mut search,
        )? {
            list.push(i)?;
        }
    }
    Ok(list)
}
