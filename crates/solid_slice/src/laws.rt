//! Theorems over the definitions, as the contracts of calls that do nothing.

ghost use Rattle.solid_slice.specs.Laws.{SliceIsOne, RefusalIsOne, BalancedIsSliced, ClosedIsSliced};

/// Two results of `slice` for one mesh and height are equal, except out of memory: two lists of loops that are its slice are
/// equal, two unbalanced edges that are reported are equal, with the same counts, and no mesh has both. So its slice has one
/// text.
pub fn slices_are_unique()
    ensures slice { SliceIsOne }
    ensures refusal { RefusalIsOne }
    ensures apart { BalancedIsSliced }
{}

/// A closed mesh, in which each directed edge occurs as often as its reverse, has no unbalanced edge. So `slice` returns its
/// loops unless memory runs out.
pub fn closed_meshes_are_sliced()
    ensures { ClosedIsSliced }
{}
