//! A walk around vertices that divides umbrellas.
//!
//! The walk goes around a vertex from half edge to half edge. Those that it passed are on a trail. Where the next half edge has the same
//! umbrella at its other end as one on the trail, the two exchange their twins. That closes a circle, from the one on the trail to the
//! last: an umbrella of its own, which is taken off the trail. So no two half edges of an umbrella have the same umbrella at the other
//! end. As a closed walk is taken apart into simple circles, each half edge is passed once.

ghost use Rattle.std.specs.Prelude.{◌≡◌, ◌≢◌, ◌+◌, ◌*◌, ◌%◌, ◌<◌, ◌≤◌, ◌^◌, ◌++◌, ◌⊎◌, ℕ, List, [], ◌∷◌, true, false, OnOk, IfSome, IfNone, length, slice_index, slice_index_or, slice_set, take, All};
ghost use Rattle.mesh.specs.Meshes.{IsFace};
ghost use Rattle.mesh_edges.specs.HalfEdges.{start, around, behind, ArePaired};
ghost use Rattle.mesh_edges.specs.Walks.{IsExchanged, IsRelabelled, IsTrail, IsWalkState, IsClosing, MayFollow, IsWalkStep, StaySettled, IsOn, unvisited};

use crate::NoMemory;
use crate::rotation::{ahead, far_label};

/// What a walk knows of each half edge: its twin, a label for its umbrella, and whether it was visited; of each label the index in the
/// trail of the half edge that has it at its other end; and the trail.
#[derive(Drop)]
pub(crate) struct Walk {
    pub(crate) twins: Vec<u32>,
    pub(crate) labels: Vec<u32>,
    pub(crate) seen: Vec<u32>,
    pub(crate) trail: Vec<u32>,
    pub(crate) visited: Vec<bool>,
}

/// Exchanges the twins of two half edges.
fn exchange(twins: &mut [u32], one: u32, other: u32)
    requires paired { (faces : List (List ℕ)) × ArePaired faces twins.old }
    requires one { one < length twins.old }
    requires other { other < length twins.old }
    requires differ { one ≢ other }
    requires apart { slice_index twins.old one ≢ other }
    ensures { IsExchanged one other twins.old twins.new }
{
    let here = twins[one as usize];
    let there = twins[other as usize];
    twins[one as usize] = there;
    twins[other as usize] = here;
    twins[here as usize] = other;
    twins[there as usize] = one;
}

/// Gives the half edges of a trail from an index on a label.
fn relabel(labels: &mut [u32], trail: &[u32], from: usize, label: u32)
    requires within { All (λ h. h < length labels.old) trail.now }
    requires below { from ≤ length trail.now }
    ensures { IsRelabelled from (length trail.now) trail.now label labels.old labels.new }
{
    for i in from..trail.len() {
        labels[trail[i] as usize] = label;
    }
}

/// Returns the index in the trail of the half edge that has a label at its other end, if there is one.
fn index_on(labels: &[u32], seen: &[u32], trail: &[u32], label: u32) -> Option<usize>
    requires whole { length labels.now % 3 ≡ 0 }
    requires within { All (λ h. h < length labels.now) trail.now }
    requires place { label < length seen.now }
    requires found { (i : ℕ) → i < length trail.now → slice_index seen.now (slice_index labels.now (behind (slice_index trail.now i))) ≡ i }
    ensures some { IfSome result (λ i. (i < length trail.now) × (slice_index labels.now (behind (slice_index trail.now i)) ≡ label)) }
    ensures none { IfNone result ((i : ℕ) → i < length trail.now → slice_index labels.now (behind (slice_index trail.now i)) ≢ label) }
{
    let i = seen[label as usize] as usize;
    if i < trail.len() && far_label(labels, trail[i] as usize) == label {
        return Some(i);
    }
    None
}

/// Gives the half edges of the trail from an index on, which are a circle, a label of their own, and takes them off.
fn cut(faces: &[[u32; 3]], walk: &mut Walk, from: usize)
    requires each { All (IsFace (2 ^ 32)) faces.now }
    requires few { length walk.old.twins.items + length walk.old.twins.items < 2 ^ 32 }
    requires closing { IsClosing faces.now walk.old.twins.items walk.old.labels.items walk.old.seen.items walk.old.trail.items walk.old.visited.items from }
    ensures walk { IsWalkState faces.now walk.new.twins.items walk.new.labels.items walk.new.seen.items walk.new.trail.items walk.new.visited.items }
    ensures stay { StaySettled walk.old.labels.items walk.new.labels.items }
    ensures kept { (h : ℕ) → IsOn walk.old.trail.items 0 (length walk.old.trail.items) h → (length walk.new.labels.items ≤ slice_index walk.new.labels.items h) ⊎ IsOn walk.new.trail.items 0 (length walk.new.trail.items) h }
    ensures twins { walk.new.twins.items ≡ walk.old.twins.items }
    ensures visited { walk.new.visited.items ≡ walk.old.visited.items }
    ensures trail { walk.new.trail.items ≡ take from walk.old.trail.items }
    ensures relabelled { IsRelabelled from (length walk.old.trail.items) walk.old.trail.items (length walk.old.labels.items + slice_index walk.old.trail.items from) walk.old.labels.items walk.new.labels.items }
{
    let label = walk.labels.len() as u32 + walk.trail[from];
    relabel(&mut walk.labels, &walk.trail, from, label);
    walk.trail.truncate(from);
}

/// Goes on to the next half edge.
fn push(faces: &[[u32; 3]], walk: &mut Walk, next: u32) -> Result<(), NoMemory>
    requires each { All (IsFace (2 ^ 32)) faces.now }
    requires few { length walk.old.twins.items + length walk.old.twins.items < 2 ^ 32 }
    requires walk { IsWalkState faces.now walk.old.twins.items walk.old.labels.items walk.old.seen.items walk.old.trail.items walk.old.visited.items }
    requires next { MayFollow walk.old.twins.items walk.old.labels.items walk.old.trail.items next }
    ensures walk { OnOk result (IsWalkState faces.now walk.new.twins.items walk.new.labels.items walk.new.seen.items walk.new.trail.items walk.new.visited.items) }
    ensures twins { OnOk result (walk.new.twins.items ≡ walk.old.twins.items) }
    ensures labels { OnOk result (walk.new.labels.items ≡ walk.old.labels.items) }
    ensures trail { OnOk result (walk.new.trail.items ≡ walk.old.trail.items ++ next ∷ []) }
    ensures less { OnOk result (unvisited walk.new.visited.items + 1 ≡ unvisited walk.old.visited.items) }
{
    let label = far_label(&walk.labels, next as usize);
    walk.seen[label as usize] = walk.trail.len() as u32;
    walk.visited[next as usize] = true;
    walk.trail.push(next)?;
    Ok(())
}

/// Closes the circle that a half edge of the trail begins and the last one ends, where the next half edge is another one with the same
/// labels at both ends: the two exchange their twins.
fn divide(faces: &[[u32; 3]], walk: &mut Walk, from: usize, next: u32) -> Result<(), NoMemory>
    requires each { All (IsFace (2 ^ 32)) faces.now }
    requires few { length walk.old.twins.items + length walk.old.twins.items < 2 ^ 32 }
    requires walk { IsWalkState faces.now walk.old.twins.items walk.old.labels.items walk.old.seen.items walk.old.trail.items walk.old.visited.items }
    requires below { from < length walk.old.trail.items }
    requires next { (i : ℕ) → i + 1 ≡ length walk.old.trail.items → next ≡ around walk.old.twins.items (slice_index walk.old.trail.items i) }
    requires same { slice_index walk.old.labels.items (behind (slice_index walk.old.trail.items from)) ≡ slice_index walk.old.labels.items (behind next) }
    requires differ { slice_index walk.old.trail.items from ≢ next }
    ensures step { OnOk result (IsWalkStep faces.now walk.old.trail.items walk.old.labels.items walk.old.visited.items walk.new.twins.items walk.new.labels.items walk.new.seen.items walk.new.trail.items walk.new.visited.items) }
{
    let first = walk.trail[from];
    exchange(&mut walk.twins, first, next);
    cut(faces, walk, from);
    push(faces, walk, next)?;
    Ok(())
}

/// Closes the circle that a half edge of the trail begins and the last one ends, where the next half edge has the same labels at both
/// ends: it is that of the trail, or the two exchange their twins.
fn close(faces: &[[u32; 3]], walk: &mut Walk, from: usize, next: u32) -> Result<(), NoMemory>
    requires each { All (IsFace (2 ^ 32)) faces.now }
    requires few { length walk.old.twins.items + length walk.old.twins.items < 2 ^ 32 }
    requires walk { IsWalkState faces.now walk.old.twins.items walk.old.labels.items walk.old.seen.items walk.old.trail.items walk.old.visited.items }
    requires below { from < length walk.old.trail.items }
    requires next { (i : ℕ) → i + 1 ≡ length walk.old.trail.items → next ≡ around walk.old.twins.items (slice_index walk.old.trail.items i) }
    requires same { slice_index walk.old.labels.items (behind (slice_index walk.old.trail.items from)) ≡ slice_index walk.old.labels.items (behind next) }
    ensures step { OnOk result (IsWalkStep faces.now walk.old.trail.items walk.old.labels.items walk.old.visited.items walk.new.twins.items walk.new.labels.items walk.new.seen.items walk.new.trail.items walk.new.visited.items) }
{
    if walk.trail[from] == next {
        cut(faces, walk, from);
        return Ok(());
    }
    divide(faces, walk, from, next)?;
    Ok(())
}

/// Goes one step on.
fn advance(faces: &[[u32; 3]], walk: &mut Walk) -> Result<(), NoMemory>
    requires each { All (IsFace (2 ^ 32)) faces.now }
    requires few { length walk.old.twins.items + length walk.old.twins.items < 2 ^ 32 }
    requires walk { IsWalkState faces.now walk.old.twins.items walk.old.labels.items walk.old.seen.items walk.old.trail.items walk.old.visited.items }
    requires some { 0 < length walk.old.trail.items }
    ensures step { OnOk result (IsWalkStep faces.now walk.old.trail.items walk.old.labels.items walk.old.visited.items walk.new.twins.items walk.new.labels.items walk.new.seen.items walk.new.trail.items walk.new.visited.items) }
{
    let top = walk.trail[walk.trail.len() - 1];
    let next = walk.twins[ahead(top as usize)];
    let label = far_label(&walk.labels, next as usize);
    match index_on(&walk.labels, &walk.seen, &walk.trail, label) {
        None => {
            push(faces, walk, next)?;
            Ok(())
        }
        Some(from) => {
            close(faces, walk, from, next)?;
            Ok(())
        }
    }
}

/// Goes on until the trail is empty.
fn walk_on(faces: &[[u32; 3]], walk: &mut Walk) -> Result<(), NoMemory>
    requires each { All (IsFace (2 ^ 32)) faces.now }
    requires few { length walk.old.twins.items + length walk.old.twins.items < 2 ^ 32 }
    requires walk { IsWalkState faces.now walk.old.twins.items walk.old.labels.items walk.old.seen.items walk.old.trail.items walk.old.visited.items }
    ensures walk { OnOk result (IsWalkState faces.now walk.new.twins.items walk.new.labels.items walk.new.seen.items walk.new.trail.items walk.new.visited.items) }
    ensures count { OnOk result (length walk.new.twins.items ≡ length walk.old.twins.items) }
    ensures empty { OnOk result (length walk.new.trail.items ≡ 0) }
    ensures stay { OnOk result (StaySettled walk.old.labels.items walk.new.labels.items) }
    ensures settled { OnOk result ((h : ℕ) → IsOn walk.old.trail.items 0 (length walk.old.trail.items) h → length walk.new.labels.items ≤ slice_index walk.new.labels.items h) }
{
    'steps: while walk.trail.len() > 0 {
        advance(faces, walk)?;
    }
    Ok(())
}

/// Walks around the vertex of a half edge, unless that was done.
fn walk_from(faces: &[[u32; 3]], walk: &mut Walk, h: usize) -> Result<(), NoMemory>
    requires each { All (IsFace (2 ^ 32)) faces.now }
    requires few { length walk.old.twins.items + length walk.old.twins.items < 2 ^ 32 }
    requires walk { IsWalkState faces.now walk.old.twins.items walk.old.labels.items walk.old.seen.items walk.old.trail.items walk.old.visited.items }
    requires empty { length walk.old.trail.items ≡ 0 }
    requires within { h < length walk.old.twins.items }
    ensures walk { OnOk result (IsWalkState faces.now walk.new.twins.items walk.new.labels.items walk.new.seen.items walk.new.trail.items walk.new.visited.items) }
    ensures count { OnOk result (length walk.new.twins.items ≡ length walk.old.twins.items) }
    ensures empty { OnOk result (length walk.new.trail.items ≡ 0) }
    ensures stay { OnOk result (StaySettled walk.old.labels.items walk.new.labels.items) }
    ensures settled { OnOk result (length walk.new.labels.items ≤ slice_index walk.new.labels.items h) }
{
    if walk.labels[h] as usize >= walk.labels.len() {
        return Ok(());
    }
    push(faces, walk, h as u32)?;
    walk_on(faces, walk)?;
    Ok(())
}

/// Walks around all vertices.
pub(crate) fn walk_all(faces: &[[u32; 3]], walk: &mut Walk) -> Result<(), NoMemory>
    requires each { All (IsFace (2 ^ 32)) faces.now }
    requires few { length walk.old.twins.items + length walk.old.twins.items < 2 ^ 32 }
    requires walk { IsWalkState faces.now walk.old.twins.items walk.old.labels.items walk.old.seen.items walk.old.trail.items walk.old.visited.items }
    requires empty { length walk.old.trail.items ≡ 0 }
    ensures walk { OnOk result (IsWalkState faces.now walk.new.twins.items walk.new.labels.items walk.new.seen.items walk.new.trail.items walk.new.visited.items) }
    ensures count { OnOk result (length walk.new.twins.items ≡ length walk.old.twins.items) }
    ensures settled { OnOk result ((h : ℕ) → h < length walk.new.twins.items → length walk.new.labels.items ≤ slice_index walk.new.labels.items h) }
{
    let count = walk.twins.len();
    for h in 0..count {
        walk_from(faces, walk, h)?;
    }
    Ok(())
}
