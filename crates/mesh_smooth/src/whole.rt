//! All steps of smoothing, on a finer grid.

ghost use Rattle.std.specs.Prelude.{◌≡◌, ◌<◌, ◌*◌, ◌^◌, All, IfOk, OnOk, length, false};
ghost use Rattle.geo_sign.specs.Point.{IsWithin};
ghost use Rattle.geo_sign.specs.declared.point.TheConstants.{BOX_LIMIT};
ghost use Rattle.mesh_flips.specs.Turns.{IsTriangle};
ghost use Rattle.mesh_smooth.specs.Near.{AreNearHome};
ghost use Rattle.mesh_smooth.specs.Smoothed.{IsReshaped, IsSmoothedMesh};

use crate::NoMemory;
use crate::fine_grid::{finest, greatest, keep_box, magnified_points};
use crate::step::{MoveHints, smooth};
use geo_sign::Point;
use mesh_flips::{FlipOrder, flip_edges};
use std::alloc::Global;

/// How a mesh is smoothed.
#[derive(Clone, Copy, Debug)]
pub struct Smoothing {
    /// How often points move.
    pub steps: u32,
    /// How far a point may be from where it was, in units of the mesh.
    pub within: u32,
    /// Whether edges are flipped after each step.
    pub flips: bool,
}

/// Points of a smoothed mesh.
#[derive(Drop)]
pub struct Smoothed {
    /// The points on the finer grid.
    pub points: Vec<Point>,
    /// How many units of the finer grid one unit of the old grid has.
    pub fine: u32,
}

/// Where points were, and how far they may be from there, in units of their grid.
#[derive(Clone, Copy)]
struct Home<'a> {
    points: &'a [Point],
    within: u64,
}

/// Moves the points of a mesh by one step and flips its edges if asked to. Returns the hints, with the opposites of half edges after
/// the flips.
fn smooth_and_flip<'a>(
    alloc: Global,
    points: &mut [Point],
    faces: &mut [[u32; 3]],
    hints: MoveHints<'a>,
    home: &Home<'_>,
    flips: bool,
) -> Result<MoveHints<'a>, NoMemory>
    requires each { All (IsTriangle (length points.old)) faces.old }
    requires few { length faces.old < 2 ^ 60 }
    requires near { AreNearHome home.now.points.now points.old home.now.within }
    ensures each { All (IsTriangle (length points.old)) faces.new }
    ensures near { AreNearHome home.now.points.now points.new home.now.within }
    ensures shape { OnOk result (IsReshaped points.old points.new faces.old faces.new) }
    ensures still { flips ≡ false → faces.new ≡ faces.old }
{
    smooth(alloc, points, faces, &hints, home.points, home.within)?;
    if !flips {
        return Ok(hints);
    }
    let MoveHints { twins, targets } = hints;
    let twins = flip_edges(alloc, points, faces, twins, FlipOrder::Angles)?;
    Ok(MoveHints { twins, targets })
}

/// Smooths a mesh by all steps.
fn all_steps(
    alloc: Global,
    points: &mut [Point],
    faces: &mut [[u32; 3]],
    hints: MoveHints<'_>,
    home: &Home<'_>,
    smoothing: Smoothing,
) -> Result<(), NoMemory>
    requires each { All (IsTriangle (length points.old)) faces.old }
    requires few { length faces.old < 2 ^ 60 }
    requires near { AreNearHome home.now.points.now points.old home.now.within }
    ensures each { All (IsTriangle (length points.old)) faces.new }
    ensures near { AreNearHome home.now.points.now points.new home.now.within }
    ensures shape { OnOk result (IsReshaped points.old points.new faces.old faces.new) }
    ensures still { smoothing.flips ≡ false → faces.new ≡ faces.old }
{
    let mut hints = hints;
    for _ in 0..smoothing.steps {
        let flips = smoothing.flips;
        hints = smooth_and_flip(alloc, points, faces, hints, home, flips)?;
    }
    Ok(())
}

/// Returns a distance in units of the finer grid.
fn fine_distance(fine: u32, within: u32) -> u64
    ensures { result ≡ fine * within }
{
    u64::from(fine) * u64::from(within)
}

/// Smooths a mesh, step by step, on a grid as fine as the box allows, and flips edges after each step where that lowers the angles
/// between faces.
///
/// Each point stays at most `within` units of the mesh from where it was, exactly. Faces that were apart stay apart, no directed
/// edge occurs twice that did not, and the faces are reached by flips alone; without flips they are as they were. `hints` are those
/// of [`smooth`], with targets in units of the finer grid.
pub fn smooth_mesh(
    alloc: Global,
    points: &[Point],
    faces: &mut [[u32; 3]],
    hints: MoveHints<'_>,
    smoothing: Smoothing,
) -> Result<Smoothed, NoMemory>
    requires each { All (IsTriangle (length points.now)) faces.old }
    requires few { length faces.old < 2 ^ 60 }
    ensures smoothed { IfOk result (λ s. IsSmoothedMesh points.now s.points.items faces.old faces.new s.fine smoothing.within) }
    ensures each { All (IsTriangle (length points.now)) faces.new }
    ensures boxed { IfOk result (λ s. All (IsWithin BOX_LIMIT) s.points.items) }
    ensures still { smoothing.flips ≡ false → faces.new ≡ faces.old }
{
    let reach = greatest(points);
    let fine = finest(reach);
    let home = magnified_points(alloc, points, fine, reach)?;
    let mut moved = Vec::from_slice(alloc, &home)?;
    let bounds = Home {
        points: &home,
        within: fine_distance(fine, smoothing.within),
    };
    all_steps(alloc, &mut moved, faces, hints, &bounds, smoothing)?;
    keep_box(&moved);
    Ok(Smoothed {
        points: moved,
        fine,
    })
}
