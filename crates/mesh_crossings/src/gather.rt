//! Tests each pair of faces whose boxes overlap.

ghost use Rattle.std.specs.Prelude.{◌<◌, ℕ, All, Contains, IfOk, OnOk, length};
ghost use Rattle.std.specs.Bool.{OnTrue};
ghost use Rattle.mesh.specs.Meshes.{IsMesh};
ghost use Rattle.triangles.specs.Gaps.{AreFacesApart};
ghost use Rattle.mesh_flips.specs.Turns.{IsTriangle};
ghost use Rattle.mesh_flips.specs.Orders.{AreInOrder};
ghost use Rattle.mesh_crossings.specs.Crossings.{AreCrossingPairs, AreOrdered};
ghost use Rattle.mesh_crossings.specs.Tested.{AreAllKnown, AreRanksKnown, IsKnown, IsKnownEither, KeepsPairs};

use crate::NoMemory;
use crate::judge::{Crossings, judged};
use crate::tidy::tidied;
use geo_sign::Point;
use mesh::Mesh;
use mesh_edges::Pair;
use mesh_flips::{FaceOrder, faces_in_order, hull_of};
use std::alloc::Global;
use triangles::{HullTree, are_apart};

/// Returns whether the boxes of two faces are disjoint.
fn are_off(points: &[Point], one: [u32; 3], other: [u32; 3]) -> bool
    requires one_in { IsTriangle (length points.now) one }
    requires other_in { IsTriangle (length points.now) other }
    ensures { OnTrue result (AreFacesApart points.now one other) }
{
    let hull = hull_of(points, one);
    if !hull.meets(hull_of(points, other)) {
        return true;
    }
    false
}

/// Tests a pair of faces, and lists it if the two are not known to be apart.
fn test_ordered(
    points: &[Point],
    faces: &[[u32; 3]],
    pairs: &mut Vec<Pair>,
    pair: Pair,
) -> Result<(), NoMemory>
    requires each { All (IsTriangle (length points.now)) faces.now }
    requires order { pair.first < pair.second }
    requires within { pair.second < length faces.now }
    requires ordered { All (AreOrdered faces.now) pairs.old.items }
    ensures ordered { OnOk result (All (AreOrdered faces.now) pairs.new.items) }
    ensures kept { OnOk result (KeepsPairs pairs.old.items pairs.new.items) }
    ensures known { OnOk result (IsKnown points.now faces.now pairs.new.items pair.first pair.second) }
{
    let one = faces[pair.first as usize];
    let other = faces[pair.second as usize];
    if are_off(points, one, other) {
        return Ok(());
    }
    if are_apart(points, one, other) {
        return Ok(());
    }
    pairs.push(pair)?;
    Ok(())
}

/// Tests two faces, unless they are one.
fn test_pair(
    points: &[Point],
    faces: &[[u32; 3]],
    pairs: &mut Vec<Pair>,
    i: u32,
    j: u32,
) -> Result<(), NoMemory>
    requires each { All (IsTriangle (length points.now)) faces.now }
    requires one { i < length faces.now }
    requires other { j < length faces.now }
    requires ordered { All (AreOrdered faces.now) pairs.old.items }
    ensures ordered { OnOk result (All (AreOrdered faces.now) pairs.new.items) }
    ensures kept { OnOk result (KeepsPairs pairs.old.items pairs.new.items) }
    ensures known { OnOk result (IsKnownEither points.now faces.now pairs.new.items i j) }
{
    if i < j {
        test_ordered(
            points,
            faces,
            pairs,
            Pair {
                first: i,
                second: j,
            },
        )?;
        return Ok(());
    }
    if j < i {
        test_ordered(
            points,
            faces,
            pairs,
            Pair {
                first: j,
                second: i,
            },
        )?;
        return Ok(());
    }
    Ok(())
}

/// Tests the faces of two ranks, unless the second is not before the first.
fn test_ranks(
    points: &[Point],
    faces: &[[u32; 3]],
    numbers: &[u32],
    pairs: &mut Vec<Pair>,
    r: usize,
    s: usize,
) -> Result<(), NoMemory>
    requires each { All (IsTriangle (length points.now)) faces.now }
    requires numbers { All (λ i. i < length faces.now) numbers.now }
    requires within { r < length numbers.now }
    requires ordered { All (AreOrdered faces.now) pairs.old.items }
    ensures ordered { OnOk result (All (AreOrdered faces.now) pairs.new.items) }
    ensures kept { OnOk result (KeepsPairs pairs.old.items pairs.new.items) }
    ensures known { OnOk result (s < r → AreRanksKnown points.now faces.now numbers.now pairs.new.items r s) }
{
    if s >= r {
        return Ok(());
    }
    test_pair(points, faces, pairs, numbers[r], numbers[s])?;
    Ok(())
}

/// Tests the face of a rank with those of some ranks before it.
fn test_found(
    points: &[Point],
    faces: &[[u32; 3]],
    numbers: &[u32],
    pairs: &mut Vec<Pair>,
    r: usize,
    found: &[usize],
) -> Result<(), NoMemory>
    requires each { All (IsTriangle (length points.now)) faces.now }
    requires numbers { All (λ i. i < length faces.now) numbers.now }
    requires within { r < length numbers.now }
    requires ordered { All (AreOrdered faces.now) pairs.old.items }
    ensures ordered { OnOk result (All (AreOrdered faces.now) pairs.new.items) }
    ensures kept { OnOk result (KeepsPairs pairs.old.items pairs.new.items) }
    ensures known { OnOk result ((s : ℕ) → Contains found.now s → s < r → AreRanksKnown points.now faces.now numbers.now pairs.new.items r s) }
{
    for s in found {
        test_ranks(points, faces, numbers, pairs, r, *s)?;
    }
    Ok(())
}

/// Faces by rank: their numbers, the faces, and a tree of their boxes.
#[derive(Clone, Copy)]
struct Ranks<'a> {
    numbers: &'a [u32],
    faces: &'a [[u32; 3]],
    tree: &'a HullTree,
}

/// Tests the face of a rank with all of ranks before it.
fn test_rank(
    points: &[Point],
    faces: &[[u32; 3]],
    ranks: &Ranks<'_>,
    found: &mut Vec<usize>,
    pairs: &mut Vec<Pair>,
    r: usize,
) -> Result<(), NoMemory>
    requires each { All (IsTriangle (length points.now)) faces.now }
    requires ranks { AreInOrder points.now faces.now ranks.now.numbers.now ranks.now.faces.now ranks.now.tree.now }
    requires within { r < length ranks.now.numbers.now }
    requires ordered { All (AreOrdered faces.now) pairs.old.items }
    ensures ordered { OnOk result (All (AreOrdered faces.now) pairs.new.items) }
    ensures kept { OnOk result (KeepsPairs pairs.old.items pairs.new.items) }
    ensures known { OnOk result ((s : ℕ) → s < r → AreRanksKnown points.now faces.now ranks.now.numbers.now pairs.new.items r s) }
{
    found.clear();
    let hull = hull_of(points, ranks.faces[r]);
    ranks.tree.near(hull, found)?;
    test_found(points, faces, ranks.numbers, pairs, r, found)?;
    Ok(())
}

/// Returns the pairs of faces that are not shown to be apart, some more than once.
fn open_pairs(
    alloc: Global,
    points: &[Point],
    faces: &[[u32; 3]],
    ranks: &Ranks<'_>,
) -> Result<Vec<Pair>, NoMemory>
    requires each { All (IsTriangle (length points.now)) faces.now }
    requires ranks { AreInOrder points.now faces.now ranks.now.numbers.now ranks.now.faces.now ranks.now.tree.now }
    ensures ordered { IfOk result (λ pairs. All (AreOrdered faces.now) pairs.items) }
    ensures known { IfOk result (λ pairs. AreAllKnown points.now faces.now ranks.now.numbers.now pairs.items (length ranks.now.numbers.now)) }
{
    let mut pairs = Vec::new(alloc);
    let mut found = Vec::new(alloc);
    for r in 0..ranks.numbers.len() {
        test_rank(points, faces, ranks, &mut found, &mut pairs, r)?;
    }
    Ok(pairs)
}

/// Tests all faces with one another. The tree may name a face more than once, so repeated pairs are dropped before the rest are judged.
fn test_all(
    alloc: Global,
    points: &[Point],
    faces: &[[u32; 3]],
    ranks: &Ranks<'_>,
) -> Result<Crossings, NoMemory>
    requires each { All (IsTriangle (length points.now)) faces.now }
    requires ranks { AreInOrder points.now faces.now ranks.now.numbers.now ranks.now.faces.now ranks.now.tree.now }
    ensures { IfOk result (λ lists. AreCrossingPairs points.now faces.now lists.crossing.items lists.undecided.items) }
{
    let pairs = open_pairs(alloc, points, faces, ranks)?;
    let once = tidied(alloc, pairs)?;
    let lists = judged(alloc, points, faces, &once)?;
    Ok(lists)
}

/// Returns the pairs of faces of a mesh that cross, and those for which neither was shown. Faces with the same three vertices do not count
/// as crossing.
///
/// Faces are sorted along a curve, and each is tested with those before it whose boxes overlap its own. The time grows with the number of
/// these pairs.
pub fn find_crossings(alloc: Global, mesh: &Mesh) -> Result<Crossings, NoMemory>
    requires { IsMesh mesh.now.points.items mesh.now.faces.items }
    ensures { IfOk result (λ lists. AreCrossingPairs mesh.now.points.items mesh.now.faces.items lists.crossing.items lists.undecided.items) }
{
    let FaceOrder {
        numbers,
        faces,
        tree,
    } = faces_in_order(alloc, mesh)?;
    let ranks = Ranks {
        numbers: &numbers,
        faces: &faces,
        tree: &tree,
    };
    let lists = test_all(alloc, &mesh.points, &mesh.faces, &ranks)?;
    Ok(lists)
}
