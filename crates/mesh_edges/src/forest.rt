//! The parents of numbers, and the paths to the first number of each set.

ghost use Rattle.std.specs.Prelude.{◌≡◌, ◌<◌, ◌≤◌, ℕ, length, slice_index};
ghost use Rattle.std.specs.Bool.{OnTrue, OnFalse};
ghost use Rattle.mesh_edges.specs.Sets.{AreTogether, IsFirstOfSet, IsForest, IsMerge, IsTop};

/// Returns the number that the path from `i` ends in.
fn top_of(parents: &[usize], i: usize) -> usize
    requires forest { IsForest parents.now }
    requires within { i < length parents.now }
    ensures top { IsTop parents.now i result }
    ensures least { result ≤ i }
{
    let mut at = i;
    while parents[at] != at {
        at = parents[at];
    }
    at
}

/// Makes the number that the path from `i` ends in the parent of all numbers on it.
fn shorten(parents: &mut [usize], i: usize, top: usize)
    requires forest { IsForest parents.old }
    requires within { i < length parents.old }
    requires top { IsTop parents.old i top }
    ensures forest { IsForest parents.new }
    ensures count { length parents.new ≡ length parents.old }
    ensures kept { (k t : ℕ) → IsTop parents.old k t → IsTop parents.new k t }
{
    let mut at = i;
    while parents[at] != at {
        let next = parents[at];
        parents[at] = top;
        at = next;
    }
}

/// Returns the number that the path from `i` ends in, and shortens the path.
fn find(parents: &mut [usize], i: usize) -> usize
    requires forest { IsForest parents.old }
    requires within { i < length parents.old }
    ensures forest { IsForest parents.new }
    ensures count { length parents.new ≡ length parents.old }
    ensures top { IsTop parents.new i result }
    ensures least { result ≤ i }
    ensures kept { (k t : ℕ) → IsTop parents.old k t → IsTop parents.new k t }
{
    let top = top_of(parents, i);
    shorten(parents, i, top);
    top
}

/// Makes the sets of two numbers one.
pub(crate) fn merge(parents: &mut [usize], i: usize, j: usize)
    requires forest { IsForest parents.old }
    requires one { i < length parents.old }
    requires other { j < length parents.old }
    ensures forest { IsForest parents.new }
    ensures merged { IsMerge i j parents.old parents.new }
{
    let one = find(parents, i);
    let other = find(parents, j);
    if one < other {
        parents[other] = one;
    } else {
        parents[one] = other;
    }
}

/// Returns whether a number is its own parent: the smallest of its set.
pub(crate) fn is_own(parents: &[usize], i: usize) -> bool
    requires forest { IsForest parents.now }
    requires within { i < length parents.now }
    ensures yes { OnTrue result (IsFirstOfSet parents.now i) }
    ensures no { OnFalse result ((j : ℕ) × (j < i) × AreTogether parents.now i j) }
{
    parents[i] == i
}

/// Returns the number that the path from `i` ends in, where those of the numbers before `i` are known.
pub(crate) fn first_after(parents: &[usize], firsts: &[usize], i: usize) -> usize
    requires forest { IsForest parents.now }
    requires within { i < length parents.now }
    requires before { i ≤ length firsts.now }
    requires tops { (k : ℕ) → k < i → IsTop parents.now k (slice_index firsts.now k) }
    requires below { (k : ℕ) → k < i → slice_index firsts.now k ≤ k }
    ensures top { IsTop parents.now i result }
    ensures least { result ≤ i }
{
    let parent = parents[i];
    if parent == i {
        return i;
    }
    firsts[parent]
}
