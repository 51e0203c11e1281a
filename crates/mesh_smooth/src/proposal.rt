//! Proposed places of vertices. No clause depends on them.

use crate::NoMemory;
use crate::directions::{filtered_directions, from_to, spot_at};
use crate::place::spot_of;
use crate::step::MoveHints;
use geo_sign::Point;
use mesh_flips::Way;
use std::alloc::Global;

/// How often vertices are drawn to the planes of their faces in a step.
const ROUNDS: usize = 2;

/// Moves that faces ask of a vertex: their sum and their number.
#[derive(Clone, Copy)]
struct Pull {
    sum: Way,
    count: u32,
}

/// Adds what moves a vertex along the direction of a face into the plane through the face's middle.
fn pull_one(pulls: &mut [Pull], spots: &[Way], v: u32, middle: Way, normal: Way) {
    let k = v as usize;
    if k < pulls.len() {
        let far = from_to(spot_at(spots, v), middle).dot(normal);
        let Pull { sum, count } = pulls[k];
        pulls[k] = Pull {
            sum: sum.plus(normal.times(far)),
            count: count.saturating_add(1),
        };
    }
}

/// Returns the moves that all faces ask.
fn pulls_of(
    alloc: Global,
    spots: &[Way],
    faces: &[[u32; 3]],
    normals: &[Way],
) -> Result<Vec<Pull>, NoMemory> {
    let none = Pull {
        sum: Way::NONE,
        count: 0,
    };
    let mut pulls = vec![in alloc; none; spots.len()]?;
    for f in 0..faces.len() {
        let [a, b, c] = faces[f];
        let normal = normals.get(f).copied().unwrap_or(Way::NONE);
        let sum = spot_at(spots, a).plus(spot_at(spots, b));
        let middle = sum.plus(spot_at(spots, c)).times(1.0 / 3.0);
        pull_one(&mut pulls, spots, a, middle, normal);
        pull_one(&mut pulls, spots, b, middle, normal);
        pull_one(&mut pulls, spots, c, middle, normal);
    }
    Ok(pulls)
}

/// Returns the place, or the one at this distance from home on the way to it if it is further.
fn held(home: Way, place: Way, within: f64) -> Way {
    let way = from_to(home, place);
    let far = way.length();
    if far > within {
        home.plus(way.times(within / far))
    } else {
        place
    }
}

/// Returns the place after the mean of the moves.
fn pulled(spot: Way, pull: Pull, home: Way, within: f64) -> Way {
    if pull.count == 0 {
        return spot;
    }
    let part = 1.0 / f64::from(pull.count);
    held(home, spot.plus(pull.sum.times(part)), within)
}

/// Moves each place by the mean of the moves that its faces ask, never further than `within` from home.
fn pull_all(spots: &mut [Way], pulls: &[Pull], home: &[Point], within: f64) {
    for v in 0..spots.len() {
        if v < pulls.len() && v < home.len() {
            spots[v] = pulled(spots[v], pulls[v], spot_of(home[v]), within);
        }
    }
}

/// Returns the target of each vertex, or the place at this distance from home on the way to it if it is further. A vertex without a
/// target stays.
fn held_targets(
    alloc: Global,
    points: &[Point],
    targets: &[Point],
    home: &[Point],
    within: f64,
) -> Result<Vec<Way>, NoMemory> {
    let mut spots = Vec::with_capacity(alloc, points.len())?;
    for v in 0..points.len() {
        let place = targets.get(v).copied().unwrap_or(points[v]);
        let start = home.get(v).copied().unwrap_or(place);
        spots.push(held(spot_of(start), spot_of(place), within))?;
    }
    Ok(spots)
}

/// Returns a place for each vertex at which neighboring faces agree better on their directions.
fn smoother_places(
    alloc: Global,
    points: &[Point],
    faces: &[[u32; 3]],
    twins: &[u32],
    home: &[Point],
    within: f64,
) -> Result<Vec<Way>, NoMemory> {
    let mut spots = Vec::with_capacity(alloc, points.len())?;
    for p in points {
        spots.push(spot_of(*p))?;
    }
    let normals = filtered_directions(alloc, &spots, faces, twins)?;
    for _ in 0..ROUNDS {
        let pulls = pulls_of(alloc, &spots, faces, &normals)?;
        pull_all(&mut spots, &pulls, home, within);
    }
    Ok(spots)
}

/// Returns a proposed place for each vertex.
pub(crate) fn proposed(
    alloc: Global,
    points: &[Point],
    faces: &[[u32; 3]],
    hints: &MoveHints<'_>,
    home: &[Point],
    within: u64,
) -> Result<Vec<Way>, NoMemory> {
    let reach = f64::from(within.min(u32::MAX as u64) as u32);
    if hints.targets.is_empty() {
        return smoother_places(alloc, points, faces, &hints.twins, home, reach);
    }
    held_targets(alloc, points, hints.targets, home, reach)
}
