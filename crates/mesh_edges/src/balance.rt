//! Whether each directed edge occurs as often as its reverse.
//!
//! Each edge stands in one of two lists, the smaller vertex first: by its direction, from the smaller to the greater or
//! back. Sorted, the two are the same exactly where all edges are balanced, and where they first differ stands the smallest
//! pair that is not.

ghost use Rattle.std.specs.Prelude.{◌≡◌, ◌≢◌, ◌<◌, ◌^◌, ℕ, OnOk, IfOk, IfSome, IfNone, All};
ghost use Rattle.std.specs.List.Sorted.{IsNonDecreasingBy};
ghost use Rattle.mesh.specs.Meshes.{IsFace, IsMesh};
ghost use Rattle.mesh_edges.specs.Edges.{is_edge, has_edge, IsBalanced, IsFirstUnbalanced};
ghost use Rattle.mesh_edges.specs.Pairs.{key_of_pair, key_count, HasGained, IsPairOf, AreRising, IsFirstUnequalPair};

use crate::pairs::{Pair, sort_pairs};
use crate::{Mesh, NoMemory};
use std::alloc::Global;

/// The edges of faces, the smaller vertex first: those that go from it in `there`, those that come back in `back`.
#[derive(Drop)]
struct Sides {
    there: Vec<Pair>,
    back: Vec<Pair>,
}

/// One edge more.
fn push_edge(sides: &mut Sides, from: u32, to: u32) -> Result<(), NoMemory>
    requires { from ≢ to }
    ensures there { OnOk result (HasGained (λ u v. is_edge u v from to) sides.old.there.items sides.new.there.items) }
    ensures back { OnOk result (HasGained (λ u v. is_edge v u from to) sides.old.back.items sides.new.back.items) }
    ensures there_rising { AreRising sides.old.there.items → OnOk result (AreRising sides.new.there.items) }
    ensures back_rising { AreRising sides.old.back.items → OnOk result (AreRising sides.new.back.items) }
{
    if from < to {
        sides.there.push(Pair {
            first: from,
            second: to,
        })?;
    } else {
        sides.back.push(Pair {
            first: to,
            second: from,
        })?;
    }
    Ok(())
}

/// The three edges of a face more.
fn push_face(sides: &mut Sides, face: [u32; 3]) -> Result<(), NoMemory>
    requires { IsFace (2 ^ 32) face }
    ensures there { OnOk result (HasGained (λ u v. has_edge u v face) sides.old.there.items sides.new.there.items) }
    ensures back { OnOk result (HasGained (λ u v. has_edge v u face) sides.old.back.items sides.new.back.items) }
    ensures there_rising { AreRising sides.old.there.items → OnOk result (AreRising sides.new.there.items) }
    ensures back_rising { AreRising sides.old.back.items → OnOk result (AreRising sides.new.back.items) }
{
    let [a, b, c] = face;
    push_edge(sides, a, b)?;
    push_edge(sides, b, c)?;
    push_edge(sides, c, a)?;
    Ok(())
}

/// The edges of all faces.
fn sides_of(alloc: Global, faces: &[[u32; 3]]) -> Result<Sides, NoMemory>
    requires { All (IsFace (2 ^ 32)) faces.now }
    ensures pairs { IfOk result (λ sides. IsPairOf faces.now sides.there.items sides.back.items) }
    ensures rising { IfOk result (λ sides. AreRising sides.there.items × AreRising sides.back.items) }
{
    let mut sides = Sides {
        there: Vec::new(alloc),
        back: Vec::new(alloc),
    };
    for face in faces {
        push_face(&mut sides, *face)?;
    }
    Ok(sides)
}

/// The edges of all faces, in order.
fn sorted_sides(alloc: Global, faces: &[[u32; 3]]) -> Result<Sides, NoMemory>
    requires { All (IsFace (2 ^ 32)) faces.now }
    ensures pairs { IfOk result (λ sides. IsPairOf faces.now sides.there.items sides.back.items) }
    ensures rising { IfOk result (λ sides. AreRising sides.there.items × AreRising sides.back.items) }
    ensures there_sorted { IfOk result (λ sides. IsNonDecreasingBy key_of_pair sides.there.items) }
    ensures back_sorted { IfOk result (λ sides. IsNonDecreasingBy key_of_pair sides.back.items) }
{
    let mut sides = sides_of(alloc, faces)?;
    sort_pairs(&mut sides.there);
    sort_pairs(&mut sides.back);
    Ok(sides)
}

/// The least pair that one list has more often than the other.
fn first_difference(there: &[Pair], back: &[Pair]) -> Option<Pair>
    requires there_sorted { IsNonDecreasingBy key_of_pair there.now }
    requires back_sorted { IsNonDecreasingBy key_of_pair back.now }
    requires there_rising { AreRising there.now }
    requires back_rising { AreRising back.now }
    ensures some { IfSome result (λ p. IsFirstUnequalPair there.now back.now p × (p.first < p.second)) }
    ensures none { IfNone result ((k : ℕ) → key_count k there.now ≡ key_count k back.now) }
{
    for (at, pair) in there.iter().enumerate() {
        if at == back.len() {
            return Some(*pair);
        }
        let other = back[at];
        if pair.key() < other.key() {
            return Some(*pair);
        }
        if other.key() < pair.key() {
            return Some(other);
        }
    }
    if there.len() < back.len() {
        Some(back[there.len()])
    } else {
        None
    }
}

/// How often a list has a pair.
fn count(pairs: &[Pair], pair: Pair) -> usize
    ensures { result ≡ key_count (key_of_pair pair) pairs.now }
{
    let key = pair.key();
    pairs.iter().filter(|other| other.key() == key).count()
}

/// An edge that occurs another number of times than its reverse.
#[derive(Clone, Copy, Debug, PartialEq, Eq)]
pub struct UnbalancedEdge {
    /// The vertex with the smaller number.
    pub from: u32,
    /// The vertex with the greater number.
    pub to: u32,
    /// How many faces have the edge from `from` to `to`.
    pub there: u32,
    /// How many faces have the edge from `to` to `from`.
    pub back: u32,
}

/// Returns the smallest pair of vertices whose edge occurs another number of times than its reverse, or `None` if each directed
/// edge of the mesh occurs as often as its reverse.
///
/// The edges are sorted, and all else is linear. `NoMemory` says nothing of the mesh.
pub fn first_unbalanced(alloc: Global, mesh: &Mesh) -> Result<Option<UnbalancedEdge>, NoMemory>
    requires { IsMesh mesh.now.points.items mesh.now.faces.items }
    ensures balanced { IfOk result (λ edge. IfNone edge (IsBalanced mesh.now.faces.items)) }
    ensures unbalanced { IfOk result (λ edge. IfSome edge (λ e. IsFirstUnbalanced mesh.now.faces.items e.from e.to e.there e.back)) }
{
    let sides = sorted_sides(alloc, &mesh.faces)?;
    match first_difference(&sides.there, &sides.back) {
        None => Ok(None),
        Some(pair) => Ok(Some(UnbalancedEdge {
            from: pair.first,
            to: pair.second,
            there: count(&sides.there, pair) as u32,
            back: count(&sides.back, pair) as u32,
        })),
    }
}
