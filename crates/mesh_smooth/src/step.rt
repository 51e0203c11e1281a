//! One step of smoothing.

ghost use Rattle.std.specs.Prelude.{◌≡◌, ◌<◌, ◌^◌, All, OnErr, length};
ghost use Rattle.mesh.specs.Meshes.{point_at};
ghost use Rattle.mesh_flips.specs.Turns.{IsTriangle};
ghost use Rattle.mesh_flips.specs.Flips.{KeepsApart};
ghost use Rattle.mesh_smooth.specs.Near.{IsNear, AreNearHome, IsSmoothed};

use crate::NoMemory;
use crate::place::near_place;
use crate::proposal::proposed;
use crate::rounds::untangle;
use geo_sign::Point;
use mesh_flips::Way;
use std::alloc::Global;

/// Returns the point of a vertex.
fn point(points: &[Point], v: usize) -> Point
    requires { v < length points.now }
    ensures { result ≡ point_at points.now v }
{
    points[v]
}

/// Returns the proposed place of a vertex, or the point before if it has none within reach.
fn next_place(home: Point, before: Point, spots: &[Way], v: usize, within: u64) -> Point
    requires { IsNear home before within }
    ensures { IsNear home result within }
{
    match spots.get(v) {
        Some(spot) => near_place(home, before, *spot, within),
        None => before,
    }
}

/// Moves each point to its proposed place, if that is at most `within` from its home.
fn move_all(points: &mut [Point], home: &[Point], spots: &[Way], within: u64)
    requires { AreNearHome home.now points.old within }
    ensures { AreNearHome home.now points.new within }
{
    for v in 0..points.len() {
        let start = point(home, v);
        let before = point(points, v);
        points[v] = next_place(start, before, spots, v, within);
    }
}

/// Moves points back until faces that were apart before are, all of them if there is no memory to find which.
fn settle(
    alloc: Global,
    points: &mut [Point],
    before: &[Point],
    faces: &[[u32; 3]],
    home: &[Point],
    within: u64,
) -> Result<(), NoMemory>
    requires each { All (IsTriangle (length points.old)) faces.now }
    requires few { length faces.now < 2 ^ 60 }
    requires before { AreNearHome home.now before.now within }
    requires near { AreNearHome home.now points.old within }
    ensures smoothed { IsSmoothed home.now before.now points.new faces.now within }
    ensures memory { OnErr result (points.new ≡ before.now) }
{
    match untangle(alloc, points, before, faces) {
        Ok(true) => Ok(()),
        Ok(false) => {
            points.copy_from_slice(before);
            Ok(())
        }
        Err(e) => {
            points.copy_from_slice(before);
            Err(e)
        }
    }
}

/// What proposes the places of points. No clause depends on it.
#[derive(Drop)]
pub struct MoveHints<'a> {
    /// The opposite of each half edge `h`, which is side `h % 3` of face `h / 3`.
    pub twins: Vec<u32>,
    /// Where the points are to go. If it is empty, they go where neighboring faces agree on their directions.
    pub targets: &'a [Point],
}

/// Moves the points of a mesh to their targets, or else so that neighboring faces agree on their directions.
///
/// Each point
/// stays at most `within` from its home, exactly, and faces that were apart stay apart. After `NoMemory` the points are as before the
/// step, so the same holds.
pub fn smooth(
    alloc: Global,
    points: &mut [Point],
    faces: &[[u32; 3]],
    hints: &MoveHints<'_>,
    home: &[Point],
    within: u64,
) -> Result<(), NoMemory>
    requires each { All (IsTriangle (length points.old)) faces.now }
    requires few { length faces.now < 2 ^ 60 }
    requires near { AreNearHome home.now points.old within }
    ensures smoothed { IsSmoothed home.now points.old points.new faces.now within }
    ensures memory { OnErr result (points.new ≡ points.old) }
{
    let before = Vec::from_slice(alloc, points)?;
    let spots = proposed(alloc, points, faces, hints, home, within)?;
    move_all(points, home, &spots, within);
    settle(alloc, points, &before, faces, home, within)?;
    Ok(())
}
