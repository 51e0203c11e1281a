//! The places of all vertices, by a sort that is verified. They stand in where those of `slots` do not fit.

ghost use Rattle.std.specs.Prelude.{◌≡◌, ◌<◌, ◌+◌, ◌-◌, ◌↔◌, ℕ, IfOk, Contains, length};
ghost use Rattle.std.specs.Bool.{OnTrue, OnFalse};
ghost use Rattle.std.specs.List.{flat_map};
ghost use Rattle.std.specs.List.Sorted.{IsPermutation};
ghost use Rattle.geo_sign.specs.Point.{Point};
ghost use Rattle.mesh.specs.Meshes.{point_at};
ghost use Rattle.mesh_join.specs.Joins.{ArePlacesRising, IsPlaceBefore};
ghost use Rattle.mesh_join.specs.Places.{mesh_points, NeverFall};
ghost use Rattle.mesh_join.specs.Refusals.{ArePlacesOf};

use crate::places::is_before;
use crate::slots::count_of;
use crate::{Mesh, NoMemory};
use geo_sign::Point;
use std::alloc::Global;

/// Returns the points of all vertices.
fn all_points(alloc: Global, meshes: &[Mesh]) -> Result<Vec<Point>, NoMemory>
    ensures { IfOk result (λ points. points.items ≡ flat_map mesh_points meshes.now) }
{
    let mut points = Vec::with_capacity(alloc, count_of(meshes))?;
    for mesh in meshes {
        points.extend_from_slice(&mesh.points)?;
    }
    Ok(points)
}

/// Sorts points.
fn sort(points: &mut [Point])
    ensures moved { IsPermutation points.old points.new }
    ensures sorted { NeverFall points.new }
{
    points.sort_unstable();
}

/// Returns whether a point is after the last place, if there is one.
fn follows(places: &[Point], point: Point) -> bool
    ensures yes { OnTrue result (0 < length places.now → IsPlaceBefore (point_at places.now (length places.now - 1)) point) }
    ensures no { OnFalse result ((0 < length places.now) × (¬ IsPlaceBefore (point_at places.now (length places.now - 1)) point)) }
{
    places.is_empty() || is_before(places[places.len() - 1], point)
}

/// Returns sorted points, each once.
fn each_once(alloc: Global, points: &[Point]) -> Result<Vec<Point>, NoMemory>
    requires { NeverFall points.now }
    ensures rising { IfOk result (λ places. ArePlacesRising places.items) }
    ensures same { IfOk result (λ places. (p : Point) → Contains places.items p ↔ Contains points.now p) }
{
    let mut places = Vec::new(alloc);
    for point in points {
        if follows(&places, *point) {
            places.push(*point)?;
        }
    }
    Ok(places)
}

/// Returns the places of all vertices, ascending, each once.
pub(crate) fn all_places(alloc: Global, meshes: &[Mesh]) -> Result<Vec<Point>, NoMemory>
    ensures { IfOk result (λ places. ArePlacesOf meshes.now places.items) }
{
    let mut points = all_points(alloc, meshes)?;
    sort(&mut points);
    each_once(alloc, &points)
}
