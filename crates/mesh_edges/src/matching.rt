//! Pairs the half edges of each edge by their ranks, so that all have twins if the mesh is closed.
//!
//! Half edges that go from the smaller vertex to the greater stand in one list, the others in another, both sorted by edge and then by rank.
//! In a closed mesh the two lists have the same edges, one by one.

ghost use Rattle.std.specs.Prelude.{◌≡◌, ◌+◌, ◌*◌, ◌<◌, ◌≤◌, ◌^◌, ℕ, All, IfOk, OnOk, length};
ghost use Rattle.std.specs.List.Sorted.{IsPermutation, IsNonDecreasingBy};
ghost use Rattle.mesh.specs.Meshes.{IsFace};
ghost use Rattle.mesh_edges.specs.Edges.{IsBalanced};
ghost use Rattle.mesh_edges.specs.HalfEdges.{ArePaired};
ghost use Rattle.mesh_edges.specs.Matching.{order_of, AreHalves, AreTwinsByIndex, rises, falls};

use crate::NoMemory;
use crate::twins::{behind, start};
use std::alloc::Global;

/// A half edge, with the number of its edge and its rank among those of one edge.
#[derive(Clone, Copy)]
pub(crate) struct Ranked {
    edge: u64,
    rank: u32,
    half: u32,
}

impl Ranked {
    /// Returns a number by which half edges are in order: by edge, then by rank.
    fn order(&self) -> u128
        ensures { result ≡ order_of self.now }
    {
        u128::from(self.edge) * 4_294_967_296 + u128::from(self.rank)
    }
}

/// Half edges that go to the greater vertex, and those that go back.
#[derive(Drop)]
struct Sides {
    there: Vec<Ranked>,
    back: Vec<Ranked>,
}

/// Returns the rank of a half edge: the smaller number of its proposed pair, or its own.
fn rank_of(proposed: &[u32], h: u32) -> u32 {
    match proposed.get(h as usize) {
        Some(twin) => h.min(*twin),
        None => h,
    }
}

/// Returns a number that is distinct for each pair of vertices.
fn edge_of(low: u32, high: u32) -> u64
    ensures { result ≡ low * 4294967296 + high }
{
    u64::from(low) * 4_294_967_296 + u64::from(high)
}

/// Appends a half edge to its side.
fn push_half(
    sides: &mut Sides,
    faces: &[[u32; 3]],
    proposed: &[u32],
    h: u32,
) -> Result<(), NoMemory>
    requires within { h < 3 * length faces.now }
    requires there { AreHalves faces.now (rises faces.now) h sides.old.there.items }
    requires back { AreHalves faces.now (falls faces.now) h sides.old.back.items }
    ensures there { OnOk result (AreHalves faces.now (rises faces.now) (h + 1) sides.new.there.items) }
    ensures back { OnOk result (AreHalves faces.now (falls faces.now) (h + 1) sides.new.back.items) }
{
    let from = start(faces, h as usize);
    let to = start(faces, behind(h as usize));
    let rank = rank_of(proposed, h);
    if from < to {
        let edge = edge_of(from, to);
        sides.there.push(Ranked {
            edge,
            rank,
            half: h,
        })?;
    } else {
        let edge = edge_of(to, from);
        sides.back.push(Ranked {
            edge,
            rank,
            half: h,
        })?;
    }
    Ok(())
}

/// Returns the half edges of both sides.
fn sides_of(alloc: Global, faces: &[[u32; 3]], proposed: &[u32]) -> Result<Sides, NoMemory>
    requires { length faces.now ≤ 1431655765 }
    ensures there { IfOk result (λ sides. AreHalves faces.now (rises faces.now) (3 * length faces.now) sides.there.items) }
    ensures back { IfOk result (λ sides. AreHalves faces.now (falls faces.now) (3 * length faces.now) sides.back.items) }
{
    let mut sides = Sides {
        there: Vec::new(alloc),
        back: Vec::new(alloc),
    };
    for h in 0..3 * faces.len() {
        push_half(&mut sides, faces, proposed, h as u32)?;
    }
    Ok(sides)
}

/// Sorts half edges by their order.
fn sort(list: &mut [Ranked])
    ensures moved { IsPermutation list.old list.new }
    ensures sorted { IsNonDecreasingBy order_of list.new }
{
    list.sort_unstable_by_key(|ranked| ranked.order());
}

/// Makes half edges at one index of two lists twins.
fn link_all(
    alloc: Global,
    faces: &[[u32; 3]],
    there: &[Ranked],
    back: &[Ranked],
) -> Result<Vec<u32>, NoMemory>
    requires few { length faces.now ≤ 1431655765 }
    requires there { AreHalves faces.now (rises faces.now) (3 * length faces.now) there.now }
    requires back { AreHalves faces.now (falls faces.now) (3 * length faces.now) back.now }
    ensures count { IfOk result (λ twins. length twins.items ≡ 3 * length faces.now) }
    ensures linked { IfOk result (λ twins. AreTwinsByIndex there.now back.now twins.items) }
{
    let mut twins = vec![in alloc; u32::MAX; 3 * faces.len()]?;
    for i in 0..there.len().min(back.len()) {
        let (one, other) = (there[i].half, back[i].half);
        twins[one as usize] = other;
        twins[other as usize] = one;
    }
    Ok(twins)
}

/// Returns the twin of each half edge, as proposed where that is possible. If the mesh is closed, all have one.
pub(crate) fn matched(
    alloc: Global,
    faces: &[[u32; 3]],
    proposed: &[u32],
) -> Result<Vec<u32>, NoMemory>
    requires each { All (IsFace (2 ^ 32)) faces.now }
    requires few { length faces.now ≤ 1431655765 }
    ensures { IsBalanced faces.now → IfOk result (λ twins. ArePaired faces.now twins.items) }
{
    let mut sides = sides_of(alloc, faces, proposed)?;
    sort(&mut sides.there);
    sort(&mut sides.back);
    let twins = link_all(alloc, faces, &sides.there, &sides.back)?;
    Ok(twins)
}
