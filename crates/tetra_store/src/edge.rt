//! Directed edges of the boundary of the conflict region.

ghost use Rattle.std.specs.Prelude.{◌≡◌, ◌↔◌, IsTrue};
ghost use Rattle.tetra_store.specs.Edges.{key_of_edge, IsReverse};

/// A directed edge of the boundary, the new cell over its facet, and its side opposite to the facet's third vertex.
#[derive(Clone, Copy)]
pub(crate) struct Edge {
    pub(crate) start: u32,
    pub(crate) end: u32,
    pub(crate) cell: u32,
    pub(crate) side: u8,
}

impl Edge {
    /// A number for its vertices, the same for its reverse.
    pub(crate) fn key(&self) -> u64
        ensures { result ≡ key_of_edge self.now }
    {
        let low = self.start.min(self.end);
        let high = self.start.max(self.end);
        u64::from(low) * 4_294_967_296 + u64::from(high)
    }

    /// Whether it is the reverse of another edge.
    pub(crate) fn is_reverse(&self, other: &Edge) -> bool
        ensures { IsTrue result ↔ IsReverse other.now self.now }
    {
        self.start == other.end && self.end == other.start
    }
}
