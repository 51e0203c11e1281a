//! Numbers of new vertices: one for each umbrella, in the order of the old vertices.

ghost use Rattle.std.specs.Prelude.{◌≡◌, ◌+◌, ◌<◌, ◌≤◌, ◌^◌, ℕ, All, IfOk, OnOk, Contains, length, slice_index};
ghost use Rattle.std.specs.Bool.{OnTrue, OnFalse};
ghost use Rattle.std.specs.List.Sorted.{IsPermutation, IsNonDecreasingBy};
ghost use Rattle.mesh.specs.Meshes.{IsFace};
ghost use Rattle.mesh_edges.specs.Pairs.{key_of_pair};
ghost use Rattle.mesh_edges.specs.HalfEdges.{start, ArePaired};
ghost use Rattle.mesh_edges.specs.Umbrellas.{AreDivided};
ghost use Rattle.mesh_pieces.specs.Vertices.{IsRoot, AreRoots, ArePlaced, HoldsVertex, IsHighest, AreVerticesOf, AreRenumbered, root_in, fan_number};

use crate::NoMemory;
use mesh_edges::{Pair, start};
use std::alloc::Global;

/// The number of the new vertex of each root, and the old vertex and the root of each new vertex.
#[derive(Drop)]
pub(crate) struct Vertices {
    pub(crate) numbers: Vec<u32>,
    pub(crate) origin: Vec<u32>,
    pub(crate) holders: Vec<u32>,
}

/// Appends a half edge with the vertex at which it begins, if it is a root.
fn push_root(
    list: &mut Vec<Pair>,
    faces: &[[u32; 3]],
    roots: &[u32],
    h: u32,
) -> Result<(), NoMemory>
    requires count { length roots.now ≡ length faces.now + length faces.now + length faces.now }
    requires within { h < length roots.now }
    requires list { AreRoots faces.now roots.now h list.old.items }
    ensures { OnOk result (AreRoots faces.now roots.now (h + 1) list.new.items) }
{
    if roots[h as usize] == h {
        list.push(Pair {
            first: start(faces, h as usize),
            second: h,
        })?;
    }
    Ok(())
}

/// Returns the roots of umbrellas with the vertices at which they begin.
fn roots_of(alloc: Global, faces: &[[u32; 3]], roots: &[u32]) -> Result<Vec<Pair>, NoMemory>
    requires count { length roots.now ≡ length faces.now + length faces.now + length faces.now }
    requires few { length roots.now ≤ 2147483647 }
    ensures { IfOk result (λ list. AreRoots faces.now roots.now (length roots.now) list.items) }
{
    let mut list = Vec::new(alloc);
    for h in 0..roots.len() {
        push_root(&mut list, faces, roots, h as u32)?;
    }
    Ok(list)
}

/// Sorts roots by their vertices.
fn sort(pairs: &mut [Pair])
    ensures moved { IsPermutation pairs.old pairs.new }
    ensures sorted { IsNonDecreasingBy key_of_pair pairs.new }
{
    pairs.sort_unstable_by_key(|pair| pair.key());
}

/// Returns the sorted roots.
fn sorted_roots(alloc: Global, faces: &[[u32; 3]], roots: &[u32]) -> Result<Vec<Pair>, NoMemory>
    requires count { length roots.now ≡ length faces.now + length faces.now + length faces.now }
    requires few { length roots.now ≤ 2147483647 }
    ensures roots { IfOk result (λ list. AreRoots faces.now roots.now (length roots.now) list.items) }
    ensures sorted { IfOk result (λ list. IsNonDecreasingBy key_of_pair list.items) }
{
    let mut list = roots_of(alloc, faces, roots)?;
    sort(&mut list);
    Ok(list)
}

/// Returns whether a root holds the new vertex that has its number.
fn is_placed(vertices: &Vertices, h: u32) -> bool
    requires { h < length vertices.now.numbers.items }
    ensures yes { OnTrue result (HoldsVertex vertices.now.numbers.items vertices.now.holders.items h) }
    ensures no { OnFalse result (¬ HoldsVertex vertices.now.numbers.items vertices.now.holders.items h) }
{
    let number = vertices.numbers[h as usize] as usize;
    if number >= vertices.holders.len() {
        return false;
    }
    vertices.holders[number] == h
}

/// Gives a root a new vertex.
fn place(
    faces: &[[u32; 3]],
    roots: &[u32],
    vertices: &mut Vertices,
    root: Pair,
) -> Result<(), NoMemory>
    requires placed { ArePlaced faces.now roots.now vertices.old.numbers.items vertices.old.origin.items vertices.old.holders.items }
    requires root { IsRoot faces.now roots.now root }
    requires few { length vertices.old.holders.items < 2147483647 }
    requires top { IsHighest vertices.old.origin.items root.first }
    ensures placed { OnOk result (ArePlaced faces.now roots.now vertices.new.numbers.items vertices.new.origin.items vertices.new.holders.items) }
    ensures here { OnOk result (HoldsVertex vertices.new.numbers.items vertices.new.holders.items root.second) }
    ensures kept { OnOk result ((h : ℕ) → HoldsVertex vertices.old.numbers.items vertices.old.holders.items h → HoldsVertex vertices.new.numbers.items vertices.new.holders.items h) }
    ensures top { OnOk result (IsHighest vertices.new.origin.items root.first) }
    ensures more { OnOk result (length vertices.new.holders.items ≤ length vertices.old.holders.items + 1) }
{
    if is_placed(vertices, root.second) {
        return Ok(());
    }
    vertices.numbers[root.second as usize] = vertices.holders.len() as u32;
    vertices.origin.push(root.first)?;
    vertices.holders.push(root.second)?;
    Ok(())
}

/// Returns a pair by its index.
fn pair_at(pairs: &[Pair], at: usize) -> Pair
    requires { at < length pairs.now }
    ensures { result ≡ root_in pairs.now at }
{
    pairs[at]
}

/// Returns a new vertex for each root, in the order of the old vertices.
pub(crate) fn numbered(
    alloc: Global,
    faces: &[[u32; 3]],
    roots: &[u32],
) -> Result<Vertices, NoMemory>
    requires count { length roots.now ≡ length faces.now + length faces.now + length faces.now }
    requires few { length roots.now ≤ 2147483647 }
    ensures { IfOk result (λ vertices. AreVerticesOf faces.now roots.now vertices.numbers.items vertices.origin.items vertices.holders.items) }
{
    let list = sorted_roots(alloc, faces, roots)?;
    let mut vertices = Vertices {
        numbers: vec![in alloc; 0u32; roots.len()]?,
        origin: Vec::new(alloc),
        holders: Vec::new(alloc),
    };
    for i in 0..list.len() {
        place(faces, roots, &mut vertices, pair_at(&list, i))?;
    }
    Ok(vertices)
}

/// Returns the number of the new vertex of a half edge.
fn number_of(numbers: &[u32], roots: &[u32], h: usize) -> u32
    requires within { h < length roots.now }
    requires root { slice_index roots.now h < length numbers.now }
    ensures { result ≡ fan_number numbers.now roots.now h }
{
    numbers[roots[h] as usize]
}

/// Returns the faces with new vertices at their corners.
pub(crate) fn renumbered(
    alloc: Global,
    faces: &[[u32; 3]],
    roots: &[u32],
    numbers: &[u32],
) -> Result<Vec<[u32; 3]>, NoMemory>
    requires count { length roots.now ≡ length faces.now + length faces.now + length faces.now }
    requires few { length roots.now ≤ 2147483647 }
    requires within { (h : ℕ) → h < length roots.now → slice_index roots.now h < length numbers.now }
    ensures { IfOk result (λ new. AreRenumbered faces.now roots.now numbers.now new.items) }
{
    let mut new = Vec::with_capacity(alloc, faces.len())?;
    for f in 0..faces.len() {
        new.push([
            number_of(numbers, roots, 3 * f),
            number_of(numbers, roots, 3 * f + 1),
            number_of(numbers, roots, 3 * f + 2),
        ])?;
    }
    Ok(new)
}
