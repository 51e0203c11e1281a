//! Two vertices, and the order of pairs.

ghost use Rattle.std.specs.Prelude.{◌≡◌, List};
ghost use Rattle.std.specs.List.Sorted.{IsPermutation, IsNonDecreasingBy};
ghost use Rattle.mesh_edges.specs.Pairs.{key_of_pair};

/// Two vertices: of an edge without its direction, the smaller first; of one that goes through the height, the lower first.
#[derive(Clone, Copy, Debug, PartialEq, Eq)]
pub struct Pair {
    /// The vertex that comes first.
    pub first: u32,
    /// The other one.
    pub second: u32,
}

impl Pair {
    /// Returns a number by which pairs are in order: by the first vertex, then by the second.
    pub fn key(&self) -> u64
        ensures { result ≡ key_of_pair self.now }
    {
        u64::from(self.first) * 4_294_967_296 + u64::from(self.second)
    }
}

/// Sorts pairs by their keys.
pub(crate) fn sort_pairs(pairs: &mut [Pair])
    ensures moved { IsPermutation pairs.old pairs.new }
    ensures sorted { IsNonDecreasingBy key_of_pair pairs.new }
{
    pairs.sort_unstable_by_key(|pair| pair.key());
}
