//! The sides of faces, sorted by their edges.

ghost use Rattle.std.specs.Prelude.{◌≡◌, ◌++◌, ◌+◌, ◌*◌, ◌<◌, ◌^◌, ◌≢◌, All, IfOk, OnOk, length, count_by, ◌==◌};
ghost use Rattle.std.specs.Bool.{OnTrue, OnFalse};
ghost use Rattle.std.specs.List.Sorted.{IsPermutation, IsNonDecreasingBy};
ghost use Rattle.mesh.specs.Meshes.{IsFace};
ghost use Rattle.mesh_measures.specs.Sides.{AreSides, IsFirstOfEdge, IsOddSide, key_at, side_key, side_between, sides_of_face};

use crate::NoMemory;
use mesh_edges::{Pair, start};
use std::alloc::Global;

/// A side of a face: its two corners, that at the smaller vertex first, and a number that is distinct for each pair of vertices.
#[derive(Clone, Copy, Debug, PartialEq, Eq)]
pub struct Side {
    pub(crate) key: u64,
    pub(crate) low: usize,
    pub(crate) high: usize,
}

/// Returns the side between two corners of a face.
fn side_between(faces: &[[u32; 3]], c: usize, d: usize) -> Side
    requires one { c < 3 * length faces.now }
    requires other { d < 3 * length faces.now }
    ensures { result ≡ side_between faces.now c d }
{
    let first = start(faces, c);
    let second = start(faces, d);
    if first < second {
        let key = Pair { first, second }.key();
        Side {
            key,
            low: c,
            high: d,
        }
    } else {
        let key = Pair {
            first: second,
            second: first,
        }
        .key();
        Side {
            key,
            low: d,
            high: c,
        }
    }
}

/// Appends the three sides of a face.
fn push_face(sides: &mut Vec<Side>, faces: &[[u32; 3]], f: usize) -> Result<(), NoMemory>
    requires few { length faces.now < 2 ^ 32 }
    requires within { f < length faces.now }
    ensures { OnOk result (sides.new.items ≡ sides.old.items ++ sides_of_face faces.now f) }
{
    let c = 3 * f;
    sides.push(side_between(faces, c, c + 1))?;
    sides.push(side_between(faces, c + 1, c + 2))?;
    sides.push(side_between(faces, c + 2, c))?;
    Ok(())
}

/// Sorts sides by their edges.
fn sort(sides: &mut [Side])
    ensures moved { IsPermutation sides.old sides.new }
    ensures sorted { IsNonDecreasingBy side_key sides.new }
{
    sides.sort_unstable_by_key(|side| side.key);
}

/// Returns the sides of all faces, sorted by their edges.
pub(crate) fn sorted_sides(alloc: Global, faces: &[[u32; 3]]) -> Result<Vec<Side>, NoMemory>
    requires few { length faces.now < 2 ^ 32 }
    requires each { All (IsFace (2 ^ 32)) faces.now }
    ensures { IfOk result (λ sides. AreSides faces.now sides.items) }
{
    let mut sides = Vec::with_capacity(alloc, faces.len() * 3)?;
    for f in 0..faces.len() {
        push_face(&mut sides, faces, f)?;
    }
    sort(&mut sides);
    Ok(sides)
}

/// Returns the number of the edge of a side.
pub(crate) fn key_at(sides: &[Side], i: usize) -> u64
    requires { i < length sides.now }
    ensures { result ≡ key_at sides.now i }
{
    sides[i].key
}

/// Returns whether no side before has the edge of this one.
fn is_first_of_edge(sides: &[Side], i: usize) -> bool
    requires sorted { IsNonDecreasingBy side_key sides.now }
    requires within { i < length sides.now }
    ensures yes { OnTrue result (IsFirstOfEdge sides.now i) }
    ensures no { OnFalse result (¬ IsFirstOfEdge sides.now i) }
{
    if i == 0 {
        return true;
    }
    key_at(sides, i - 1) != key_at(sides, i)
}

/// Returns whether there is a side `j` and it has the edge of side `i`.
fn has_edge_of(sides: &[Side], j: usize, i: usize) -> bool
    requires { i < length sides.now }
    ensures yes { OnTrue result ((j < length sides.now) × (key_at sides.now j ≡ key_at sides.now i)) }
    ensures no { OnFalse result (j < length sides.now → key_at sides.now j ≢ key_at sides.now i) }
{
    if j >= sides.len() {
        return false;
    }
    key_at(sides, j) == key_at(sides, i)
}

/// Returns whether a side is the first with its edge, and other than two sides have it.
pub(crate) fn is_odd_side(sides: &[Side], i: usize) -> bool
    requires sorted { IsNonDecreasingBy side_key sides.now }
    requires within { i < length sides.now }
    ensures yes { OnTrue result (IsOddSide sides.now i) }
    ensures no { OnFalse result (¬ IsOddSide sides.now i) }
{
    if !is_first_of_edge(sides, i) {
        return false;
    }
    if !has_edge_of(sides, i + 1, i) {
        return true;
    }
    has_edge_of(sides, i + 2, i)
}
