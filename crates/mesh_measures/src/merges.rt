//! Sets of faces and of corners that are connected across edges.

ghost use Rattle.std.specs.Prelude.{◌≡◌, ◌≢◌, ◌-◌, ◌<◌, ◌≤◌, ◌^◌, ℕ, IfOk, length};
ghost use Rattle.std.specs.List.Sorted.{IsNonDecreasingBy};
ghost use Rattle.mesh_edges.specs.Sets.{IsMerge};
ghost use Rattle.mesh_measures.specs.Merges.{AreCornerSets, ArePieceSets, IsMergedBy, part_at, part_of};
ghost use Rattle.mesh_measures.specs.Sides.{AreSides, key_at, side_key};

use crate::NoMemory;
use crate::sides::{Side, key_at};
use mesh_edges::DisjointSets;
use std::alloc::Global;

/// What is merged where two sides have one edge.
#[derive(Clone, Copy, Debug, PartialEq, Eq)]
pub enum Part {
    /// Their faces.
    Face,
    /// Their corners at the smaller vertex.
    Low,
    /// Their corners at the greater vertex.
    High,
}

/// Returns the face of a side, or the corner at one of its ends.
fn part_of(part: Part, side: Side) -> usize
    ensures { result ≡ part_of part side }
{
    match part {
        Part::Face => side.low / 3,
        Part::Low => side.low,
        Part::High => side.high,
    }
}

/// Returns the part of a numbered side.
pub(crate) fn part_at(part: Part, sides: &[Side], i: usize) -> usize
    requires { i < length sides.now }
    ensures { result ≡ part_at part sides.now i }
{
    part_of(part, sides[i])
}

/// Merges the sets of the parts of a side and the one before, if they have one edge.
fn merge_at(sets: &mut DisjointSets, part: Part, sides: &[Side], i: usize)
    requires after { 1 ≤ i }
    requires here { i < length sides.now }
    requires within { (k : ℕ) → k < length sides.now → part_at part sides.now k < length sets.old.parents.items }
    ensures merged { key_at sides.now (i - 1) ≡ key_at sides.now i → IsMerge (part_at part sides.now (i - 1)) (part_at part sides.now i) sets.old.parents.items sets.new.parents.items }
    ensures same { key_at sides.now (i - 1) ≢ key_at sides.now i → sets.new.parents.items ≡ sets.old.parents.items }
{
    if key_at(sides, i - 1) != key_at(sides, i) {
        return;
    }
    sets.merge(part_at(part, sides, i - 1), part_at(part, sides, i));
}

/// Merges the sets of the parts of all sides with one edge.
fn merge_parts(sets: &mut DisjointSets, part: Part, sides: &[Side])
    requires sorted { IsNonDecreasingBy side_key sides.now }
    requires within { (i : ℕ) → i < length sides.now → part_at part sides.now i < length sets.old.parents.items }
    ensures { IsMergedBy part sides.now sets.old.parents.items sets.new.parents.items }
{
    for i in 1..sides.len() {
        merge_at(sets, part, sides, i);
    }
}

/// Returns the sets of faces that are connected across edges.
pub(crate) fn piece_sets(
    alloc: Global,
    faces: &[[u32; 3]],
    sides: &[Side],
) -> Result<DisjointSets, NoMemory>
    requires { AreSides faces.now sides.now }
    ensures { IfOk result (λ sets. ArePieceSets faces.now sets.parents.items) }
{
    let mut sets = DisjointSets::new(alloc, faces.len())?;
    merge_parts(&mut sets, Part::Face, sides);
    Ok(sets)
}

/// Returns the sets of corners that are connected across edges at their vertex.
pub(crate) fn corner_sets(
    alloc: Global,
    faces: &[[u32; 3]],
    sides: &[Side],
) -> Result<DisjointSets, NoMemory>
    requires few { length faces.now < 2 ^ 32 }
    requires sides { AreSides faces.now sides.now }
    ensures { IfOk result (λ sets. AreCornerSets faces.now sets.parents.items) }
{
    let mut sets = DisjointSets::new(alloc, faces.len() * 3)?;
    merge_parts(&mut sets, Part::Low, sides);
    merge_parts(&mut sets, Part::High, sides);
    Ok(sets)
}
