//! The numbers of non-manifold edges and vertices.

ghost use Rattle.std.specs.Prelude.{◌≡◌, ◌+◌, ◌*◌, ◌<◌, ◌≤◌, ◌^◌, ◌⊎◌, ℕ, All, IfOk, length, slice_index_or, true, false};
ghost use Rattle.std.specs.List.Sorted.{IsNonDecreasingBy};
ghost use Rattle.mesh.specs.Meshes.{IsFace};
ghost use Rattle.mesh_edges.specs.HalfEdges.{start};
ghost use Rattle.mesh_edges.specs.Things.{AreSoMany};
ghost use Rattle.mesh_measures.specs.Manifolds.{IsManifoldVertex, IsNonManifoldPair};
ghost use Rattle.mesh_measures.specs.Marks.{HasCorner, HasSecond, IsEndOfOdd, IsFlagged, IsSuspect};
ghost use Rattle.mesh_measures.specs.Merges.{AreCornerSets, part_at};
ghost use Rattle.mesh_measures.specs.Sides.{AreSides, IsOddSide, side_key};

use crate::NoMemory;
use crate::merges::{Part, part_at};
use crate::sides::{Side, is_odd_side};
use mesh_edges::{DisjointSets, next_count, start};
use std::alloc::Global;

/// Returns how many sides are the first with their edge, where other than two have it.
fn count_odd_sides(sides: &[Side]) -> usize
    requires { IsNonDecreasingBy side_key sides.now }
    ensures { AreSoMany (λ i. (i < length sides.now) × IsOddSide sides.now i) result }
{
    let mut count = 0;
    for i in 0..sides.len() {
        let hit = is_odd_side(sides, i);
        count = next_count(count, hit);
    }
    count
}

/// Returns how many edges have other than two faces.
pub(crate) fn count_edges(faces: &[[u32; 3]], sides: &[Side]) -> usize
    requires each { All (IsFace (2 ^ 32)) faces.now }
    requires sides { AreSides faces.now sides.now }
    ensures { AreSoMany (IsNonManifoldPair faces.now) result }
{
    let _faces = faces;
    count_odd_sides(sides)
}

/// Returns the vertex at a part of a side.
fn end_of(faces: &[[u32; 3]], sides: &[Side], part: Part, i: usize) -> usize
    requires sides { AreSides faces.now sides.now }
    requires within { i < length sides.now }
    ensures value { result ≡ start faces.now (part_at part sides.now i) }
    ensures below { (n : ℕ) → All (IsFace n) faces.now → result < n }
{
    start(faces, part_at(part, sides, i)) as usize
}

/// Marks the ends of a side if it is the first with its edge and other than two sides have it.
fn mark_ends(flags: &mut [bool], faces: &[[u32; 3]], sides: &[Side], i: usize)
    requires each { All (IsFace (length flags.old)) faces.now }
    requires sides { AreSides faces.now sides.now }
    requires within { i < length sides.now }
    requires marked { IsFlagged (IsEndOfOdd faces.now sides.now i) flags.old }
    ensures count { length flags.new ≡ length flags.old }
    ensures marked { IsFlagged (IsEndOfOdd faces.now sides.now (i + 1)) flags.new }
{
    if !is_odd_side(sides, i) {
        return;
    }
    let low = end_of(faces, sides, Part::Low, i);
    let high = end_of(faces, sides, Part::High, i);
    flags[low] = true;
    flags[high] = true;
}

/// Marks the ends of all edges that have other than two faces.
fn mark_all_ends(flags: &mut [bool], faces: &[[u32; 3]], sides: &[Side])
    requires each { All (IsFace (length flags.old)) faces.now }
    requires sides { AreSides faces.now sides.now }
    requires marked { IsFlagged (IsEndOfOdd faces.now sides.now 0) flags.old }
    ensures count { length flags.new ≡ length flags.old }
    ensures marked { IsFlagged (IsEndOfOdd faces.now sides.now (length sides.now)) flags.new }
{
    for i in 0..sides.len() {
        mark_ends(flags, faces, sides, i);
    }
}

/// Marks the vertex of a corner if the corner is the first of its set, and not the first at the vertex. All vertices of corners before
/// are `seen`.
fn mark_second(
    flags: &mut [bool],
    seen: &mut [bool],
    faces: &[[u32; 3]],
    sides: &[Side],
    sets: &DisjointSets,
    c: usize,
)
    requires each { All (IsFace (length flags.old)) faces.now }
    requires same { length seen.old ≡ length flags.old }
    requires count { length sets.now.parents.items ≡ 3 * length faces.now }
    requires within { c < 3 * length faces.now }
    requires seen { IsFlagged (HasCorner faces.now c) seen.old }
    requires marked { IsFlagged (λ v. IsEndOfOdd faces.now sides.now (length sides.now) v ⊎ HasSecond faces.now sets.now.parents.items c v) flags.old }
    ensures flags { length flags.new ≡ length flags.old }
    ensures seen_count { length seen.new ≡ length seen.old }
    ensures seen { IsFlagged (HasCorner faces.now (c + 1)) seen.new }
    ensures marked { IsFlagged (λ v. IsEndOfOdd faces.now sides.now (length sides.now) v ⊎ HasSecond faces.now sets.now.parents.items (c + 1) v) flags.new }
{
    let _sides = sides;
    let v = start(faces, c) as usize;
    if !seen[v] {
        seen[v] = true;
        return;
    }
    if !sets.is_first(c) {
        return;
    }
    flags[v] = true;
}

/// Marks the vertices whose corners are in more than one set.
fn mark_all_seconds(
    flags: &mut [bool],
    seen: &mut [bool],
    faces: &[[u32; 3]],
    sides: &[Side],
    sets: &DisjointSets,
)
    requires each { All (IsFace (length flags.old)) faces.now }
    requires few { length faces.now < 2 ^ 32 }
    requires same { length seen.old ≡ length flags.old }
    requires count { length sets.now.parents.items ≡ 3 * length faces.now }
    requires seen { IsFlagged (HasCorner faces.now 0) seen.old }
    requires marked { IsFlagged (IsEndOfOdd faces.now sides.now (length sides.now)) flags.old }
    ensures flags { length flags.new ≡ length flags.old }
    ensures marked { IsFlagged (IsSuspect faces.now sides.now sets.now.parents.items) flags.new }
{
    for c in 0..3 * faces.len() {
        mark_second(flags, seen, faces, sides, sets, c);
    }
}

/// Returns how many flags are set.
fn count_flags(flags: &[bool]) -> usize
    ensures { AreSoMany (λ v. (v < length flags.now) × (slice_index_or flags.now v false ≡ true)) result }
{
    let mut count = 0;
    for v in 0..flags.len() {
        let hit = flags[v];
        count = next_count(count, hit);
    }
    count
}

/// Returns at how many vertices the faces are not one cycle, by flags of vertices that are not set, where the sets are those of connected
/// corners.
fn count_marked(
    flags: &mut [bool],
    seen: &mut [bool],
    faces: &[[u32; 3]],
    sides: &[Side],
    sets: &DisjointSets,
) -> usize
    requires few { length faces.now < 2 ^ 32 }
    requires small { length flags.old < 2 ^ 32 }
    requires each { All (IsFace (length flags.old)) faces.now }
    requires same { length seen.old ≡ length flags.old }
    requires clear { All (λ b. b ≡ false) flags.old }
    requires clear_seen { All (λ b. b ≡ false) seen.old }
    requires sides { AreSides faces.now sides.now }
    requires sets { AreCornerSets faces.now sets.now.parents.items }
    ensures { AreSoMany (λ v. (v < length flags.old) × (¬ IsManifoldVertex faces.now v)) result }
{
    mark_all_ends(flags, faces, sides);
    mark_all_seconds(flags, seen, faces, sides, sets);
    count_flags(flags)
}

/// Returns at how many of the vertices below `points` the faces are not one cycle, where the sets are those of connected corners.
pub(crate) fn count_vertices(
    alloc: Global,
    points: usize,
    faces: &[[u32; 3]],
    sides: &[Side],
    sets: &DisjointSets,
) -> Result<usize, NoMemory>
    requires few { length faces.now < 2 ^ 32 }
    requires small { points < 2 ^ 32 }
    requires each { All (IsFace points) faces.now }
    requires sides { AreSides faces.now sides.now }
    requires sets { AreCornerSets faces.now sets.now.parents.items }
    ensures { IfOk result (λ count. AreSoMany (λ v. (v < points) × (¬ IsManifoldVertex faces.now v)) count) }
{
    let mut flags = vec![in alloc; false; points]?;
    let mut seen = vec![in alloc; false; points]?;
    let count = count_marked(&mut flags, &mut seen, faces, sides, sets);
    Ok(count)
}
