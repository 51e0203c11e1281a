//! Umbrellas, divided until no two half edges have the same ones at both ends.

ghost use Rattle.std.specs.Prelude.{◌≡◌, ◌+◌, ◌<◌, ◌≤◌, ◌^◌, ℕ, All, IfOk, length, slice_index};
ghost use Rattle.mesh.specs.Meshes.{IsFace};
ghost use Rattle.mesh_edges.specs.HalfEdges.{ArePaired};
ghost use Rattle.mesh_edges.specs.Umbrellas.{AreFanLabels, AreDivided, AreMerged};
ghost use Rattle.mesh_edges.specs.Walks.{IsWalkState, AreFinal};

use crate::rotation::around;
use crate::walk::{Walk, walk_all};
use crate::{DisjointSets, NoMemory};
use std::alloc::{AllocError, Global};

/// How many half edges there may be, so that twice their number fits 32 bits.
const MOST_HALF_EDGES: usize = 2_147_483_647;

/// Twins of half edges, and their umbrellas.
#[derive(Drop)]
pub struct Umbrellas {
    /// The twin of each half edge.
    pub twins: Vec<u32>,
    /// A half edge of the umbrella of each half edge, the same for all of its half edges.
    pub roots: Vec<u32>,
}

/// Merges the set of each half edge with that of the next one around the vertex at which both begin.
fn merge_around(faces: &[[u32; 3]], sets: &mut DisjointSets, twins: &[u32])
    requires each { All (IsFace (2 ^ 32)) faces.now }
    requires paired { ArePaired faces.now twins.now }
    requires count { length sets.old.parents.items ≡ length twins.now }
    requires apart { AreMerged faces.now twins.now 0 sets.old.parents.items }
    ensures { AreMerged faces.now twins.now (length twins.now) sets.new.parents.items }
{
    for h in 0..twins.len() {
        sets.merge(h, around(twins, h));
    }
}

/// Returns numbers as 32 bits.
fn narrowed(alloc: Global, numbers: &[usize], limit: usize) -> Result<Vec<u32>, NoMemory>
    requires below { (i : ℕ) → i < length numbers.now → slice_index numbers.now i < limit }
    requires small { limit ≤ 2147483647 }
    ensures { IfOk result (λ list. list.items ≡ numbers.now) }
{
    let mut list = Vec::with_capacity(alloc, numbers.len())?;
    for i in 0..numbers.len() {
        list.push(numbers[i] as u32)?;
    }
    Ok(list)
}

/// Returns a label for each half edge: the smallest half edge of its umbrella.
fn labels_of(alloc: Global, faces: &[[u32; 3]], twins: &[u32]) -> Result<Vec<u32>, NoMemory>
    requires each { All (IsFace (2 ^ 32)) faces.now }
    requires paired { ArePaired faces.now twins.now }
    requires few { length twins.now ≤ 2147483647 }
    ensures labels { IfOk result (λ labels. AreFanLabels faces.now twins.now labels.items) }
    ensures loose { IfOk result (λ labels. (h : ℕ) → h < length twins.now → slice_index labels.items h < length twins.now) }
{
    let mut sets = DisjointSets::new(alloc, twins.len())?;
    merge_around(faces, &mut sets, twins);
    let firsts = sets.firsts(alloc)?;
    let labels = narrowed(alloc, &firsts, twins.len())?;
    Ok(labels)
}

/// Returns a walk that did not begin.
fn new_walk(alloc: Global, faces: &[[u32; 3]], twins: Vec<u32>) -> Result<Walk, NoMemory>
    requires each { All (IsFace (2 ^ 32)) faces.now }
    requires paired { ArePaired faces.now twins.items }
    requires few { length twins.items ≤ 2147483647 }
    ensures walk { IfOk result (λ walk. IsWalkState faces.now walk.twins.items walk.labels.items walk.seen.items walk.trail.items walk.visited.items) }
    ensures empty { IfOk result (λ walk. length walk.trail.items ≡ 0) }
    ensures count { IfOk result (λ walk. length walk.twins.items ≡ length twins.items) }
{
    let labels = labels_of(alloc, faces, &twins)?;
    let seen = vec![in alloc; 0u32; twins.len() + twins.len()]?;
    let visited = vec![in alloc; false; twins.len()]?;
    Ok(Walk {
        twins,
        labels,
        seen,
        trail: Vec::new(alloc),
        visited,
    })
}

/// Returns the half edges that labels name.
fn roots_of(alloc: Global, labels: &[u32]) -> Result<Vec<u32>, NoMemory>
    requires settled { AreFinal labels.now }
    requires all { (h : ℕ) → h < length labels.now → length labels.now ≤ slice_index labels.now h }
    ensures count { IfOk result (λ roots. length roots.items ≡ length labels.now) }
    ensures roots { IfOk result (λ roots. (h : ℕ) → h < length labels.now → slice_index roots.items h + length labels.now ≡ slice_index labels.now h) }
{
    let mut roots = Vec::with_capacity(alloc, labels.len())?;
    for h in 0..labels.len() {
        roots.push((labels[h] as usize - labels.len()) as u32)?;
    }
    Ok(roots)
}

/// Returns umbrellas, where twins pair the half edges, and the twins after that.
///
/// The umbrella of a vertex is its faces, as they are connected across paired edges. Two half edges may have the same umbrella at one end,
/// and at the other. Then two pairs exchange their twins, and the umbrellas at both ends are divided. So afterwards each edge has at most
/// one half edge between the same two umbrellas, and vertices can be split. No umbrella has half edges that had different ones. Time grows
/// with the number of half edges.
pub fn divide_umbrellas(
    alloc: Global,
    faces: &[[u32; 3]],
    twins: Vec<u32>,
) -> Result<Umbrellas, NoMemory>
    requires each { All (IsFace (2 ^ 32)) faces.now }
    requires paired { ArePaired faces.now twins.items }
    ensures paired { IfOk result (λ new. ArePaired faces.now new.twins.items) }
    ensures umbrellas { IfOk result (λ new. AreDivided faces.now new.twins.items new.roots.items) }
    ensures few { IfOk result (λ new. length new.roots.items ≤ 2147483647) }
{
    if twins.len() > MOST_HALF_EDGES {
        return Err(AllocError);
    }
    let mut walk = new_walk(alloc, faces, twins)?;
    walk_all(faces, &mut walk)?;
    let roots = roots_of(alloc, &walk.labels)?;
    Ok(Umbrellas {
        twins: walk.twins,
        roots,
    })
}
