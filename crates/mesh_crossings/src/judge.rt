//! Which pairs of faces are shown to cross.

ghost use Rattle.std.specs.Prelude.{◌<◌, All, IfOk, length};
ghost use Rattle.std.specs.Bool.{OnTrue};
ghost use Rattle.triangles.specs.Gaps.{AreFacesApart};
ghost use Rattle.mesh_flips.specs.Turns.{IsTriangle};
ghost use Rattle.mesh_crossings.specs.Crossings.{AreCrossing, AreCrossingPairs, AreOrdered, IsRising};
ghost use Rattle.mesh_crossings.specs.Tested.{ArePairsKnown};

use crate::NoMemory;
use crate::propose::{PROPOSALS, proposed};
use crate::tidy::push_new;
use crate::witness::{corners_of, is_witness};
use geo_sign::Point;
use mesh_edges::Pair;
use std::alloc::Global;

/// Pairs of faces by their numbers, the smaller first. No pair is in both lists.
#[derive(Drop)]
pub struct Crossings {
    /// Those that cross, in ascending order.
    pub crossing: Vec<Pair>,
    /// Those for which neither was shown, in ascending order.
    pub undecided: Vec<Pair>,
}

/// Returns whether a proposal shows that two faces cross.
fn do_cross(points: &[Point], one: [u32; 3], other: [u32; 3]) -> bool
    requires one_in { All (λ v. v < length points.now) one }
    requires other_in { All (λ v. v < length points.now) other }
    ensures { OnTrue result (¬ AreFacesApart points.now one other) }
{
    let (f, g) = (corners_of(points, one), corners_of(points, other));
    for number in 0..PROPOSALS {
        if let Some(weights) = proposed(&f, &g, number) {
            if is_witness(points, one, other, weights.one, weights.other) {
                return true;
            }
        }
    }
    false
}

/// Returns whether a pair of faces is shown to cross.
fn is_crossing(points: &[Point], faces: &[[u32; 3]], pair: Pair) -> bool
    requires each { All (IsTriangle (length points.now)) faces.now }
    requires ordered { AreOrdered faces.now pair }
    ensures { OnTrue result (AreCrossing points.now faces.now pair) }
{
    let one = faces[pair.first as usize];
    let other = faces[pair.second as usize];
    do_cross(points, one, other)
}

/// Divides sorted pairs without repeats, among which are all that are not apart, into those that are shown to cross and the others.
pub(crate) fn judged(
    alloc: Global,
    points: &[Point],
    faces: &[[u32; 3]],
    pairs: &[Pair],
) -> Result<Crossings, NoMemory>
    requires each { All (IsTriangle (length points.now)) faces.now }
    requires ordered { All (AreOrdered faces.now) pairs.now }
    requires rising { IsRising pairs.now }
    requires known { ArePairsKnown points.now faces.now pairs.now }
    ensures { IfOk result (λ lists. AreCrossingPairs points.now faces.now lists.crossing.items lists.undecided.items) }
{
    let mut crossing = Vec::new(alloc);
    let mut undecided = Vec::new(alloc);
    for pair in pairs {
        if is_crossing(points, faces, *pair) {
            push_new(&mut crossing, *pair)?;
            continue;
        }
        push_new(&mut undecided, *pair)?;
    }
    Ok(Crossings {
        crossing,
        undecided,
    })
}
