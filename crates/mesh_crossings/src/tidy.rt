//! Sorts pairs, and drops repeated ones.

ghost use Rattle.std.specs.Prelude.{◌≡◌, ◌≢◌, ◌+◌, ◌<◌, ◌≤◌, ◌⊎◌, ℕ, All, Contains, IfOk, OnOk, length};
ghost use Rattle.std.specs.Bool.{OnTrue, OnFalse};
ghost use Rattle.std.specs.List.Sorted.{IsPermutation, IsNonDecreasingBy};
ghost use Rattle.mesh_edges.specs.Pairs.{key_of_pair};
ghost use Rattle.mesh_crossings.specs.Crossings.{IsRising};
ghost use Rattle.mesh_crossings.specs.Tested.{AreSamePairs, IsOneMore, KeepsPairs, pair_in};

use crate::NoMemory;
use mesh_edges::Pair;
use std::alloc::Global;

/// Sorts pairs by their keys.
fn sort(pairs: &mut [Pair])
    ensures moved { IsPermutation pairs.old pairs.new }
    ensures sorted { IsNonDecreasingBy key_of_pair pairs.new }
{
    pairs.sort_unstable_by_key(|pair| pair.key());
}

/// Returns a pair by its index.
fn pair_at(pairs: &[Pair], at: usize) -> Pair
    requires { at < length pairs.now }
    ensures { result ≡ pair_in pairs.now at }
{
    pairs[at]
}

/// Returns whether a list ends with a pair.
fn ends_with(list: &[Pair], pair: Pair) -> bool
    ensures yes { OnTrue result (Contains list.now pair) }
    ensures no { OnFalse result ((i : ℕ) → i + 1 ≡ length list.now → key_of_pair (pair_in list.now i) ≢ key_of_pair pair) }
{
    if list.len() == 0 {
        return false;
    }
    let last = pair_at(list, list.len() - 1);
    last.key() == pair.key()
}

/// Appends a pair, unless the list ends with it.
pub(crate) fn push_new(list: &mut Vec<Pair>, pair: Pair) -> Result<(), NoMemory>
    requires rising { IsRising list.old.items }
    requires top { All (λ p. key_of_pair p ≤ key_of_pair pair) list.old.items }
    ensures rising { OnOk result (IsRising list.new.items) }
    ensures kept { OnOk result (KeepsPairs list.old.items list.new.items) }
    ensures has { OnOk result (Contains list.new.items pair) }
    ensures only { OnOk result (IsOneMore list.old.items pair list.new.items) }
{
    if ends_with(list, pair) {
        return Ok(());
    }
    list.push(pair)?;
    Ok(())
}

/// Returns sorted pairs, each once.
fn without_repeats(alloc: Global, pairs: &[Pair]) -> Result<Vec<Pair>, NoMemory>
    requires { IsNonDecreasingBy key_of_pair pairs.now }
    ensures rising { IfOk result (λ list. IsRising list.items) }
    ensures same { IfOk result (λ list. AreSamePairs pairs.now list.items) }
{
    let mut list = Vec::new(alloc);
    for pair in pairs {
        push_new(&mut list, *pair)?;
    }
    Ok(list)
}

/// Returns pairs in ascending order, each once.
pub(crate) fn tidied(alloc: Global, mut pairs: Vec<Pair>) -> Result<Vec<Pair>, NoMemory>
    ensures rising { IfOk result (λ list. IsRising list.items) }
    ensures same { IfOk result (λ list. AreSamePairs pairs.items list.items) }
{
    sort(&mut pairs);
    let list = without_repeats(alloc, &pairs)?;
    Ok(list)
}
