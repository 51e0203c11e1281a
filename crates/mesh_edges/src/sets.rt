//! The sets themselves.

ghost use Rattle.std.specs.Prelude.{◌≡◌, ◌<◌, ◌≤◌, ℕ, IfOk, length, slice_index, vec_len};
ghost use Rattle.std.specs.Bool.{OnTrue, OnFalse};
ghost use Rattle.mesh_edges.specs.Sets.{AreTogether, IsFirstOfSet, IsForest, IsMerge, IsTop};

use crate::NoMemory;
use crate::forest::{first_after, is_own, merge};
use std::alloc::Global;

/// Disjoint sets of the numbers below a count.
#[derive(Drop)]
pub struct DisjointSets {
    pub(crate) parents: Vec<usize>,
    ghost forest: { IsForest parents.items },
}

impl DisjointSets {
    /// Returns the numbers below `count`, each in a set of its own.
    pub fn new(alloc: Global, count: usize) -> Result<DisjointSets, NoMemory>
        ensures count { IfOk result (λ sets. length sets.parents.items ≡ count) }
        ensures apart { IfOk result (λ sets. (i j : ℕ) → AreTogether sets.parents.items i j → i ≡ j) }
    {
        let mut parents = Vec::with_capacity(alloc, count)?;
        for i in 0..count {
            parents.push(i)?;
        }
        Ok(DisjointSets { parents })
    }

    /// Makes the sets of two numbers one. Its time is nearly constant in the mean.
    pub fn merge(&mut self, i: usize, j: usize)
        requires one { i < length self.old.parents.items }
        requires other { j < length self.old.parents.items }
        ensures { IsMerge i j self.old.parents.items self.new.parents.items }
    {
        merge(&mut self.parents, i, j);
    }

    /// Returns whether a number is the smallest of its set.
    pub fn is_first(&self, i: usize) -> bool
        requires { i < length self.now.parents.items }
        ensures yes { OnTrue result (IsFirstOfSet self.now.parents.items i) }
        ensures no { OnFalse result ((j : ℕ) × (j < i) × AreTogether self.now.parents.items i j) }
    {
        is_own(&self.parents, i)
    }

    /// Returns the smallest number of the set of each number. Linear.
    pub fn firsts(&self, alloc: Global) -> Result<Vec<usize>, NoMemory>
        ensures count { IfOk result (λ firsts. length firsts.items ≡ length self.now.parents.items) }
        ensures tops { IfOk result (λ firsts. (i : ℕ) → i < length firsts.items → IsTop self.now.parents.items i (slice_index firsts.items i)) }
        ensures least { IfOk result (λ firsts. (i : ℕ) → i < length firsts.items → slice_index firsts.items i ≤ i) }
    {
        let mut firsts: Vec<usize> = Vec::with_capacity(alloc, self.parents.len())?;
        for i in 0..self.parents.len() {
            let first = first_after(&self.parents, &firsts, i);
            firsts.push(first)?;
        }
        Ok(firsts)
    }
}
