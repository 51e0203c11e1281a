//! The network of linked cells.

ghost use Rattle.std.specs.Prelude.{◌≡◌, ◌<◌, ◌≤◌, ◌+◌, ◌*◌, ◌/◌, ◌%◌, ◌^◌, ◌||◌, Some, IfSome, IsSome, IfNone, is_some, true, false, length};
ghost use Rattle.tetra_store.specs.Links.{links_of, IsLive};
ghost use Rattle.cell_net.specs.Arcs.{IsShape, across, is_free};

use crate::StoreCounts;
use flow_net::{FlowNetwork, Settings};
use tetra_store::{CellId, Tetra};

/// Linked cells and what is counted of them, as a network. It holds no list of its own: what an arc leads to is asked of the cells, and
/// capacities and sinks are computed from the counts.
#[derive(Clone, Copy)]
pub struct CellNetwork<'a> {
    tetra: &'a Tetra,
    counts: StoreCounts<'a>,
    settings: Settings,
    pub ghost shape: { IsShape tetra.now.slots counts.crossed.now counts.behind.now counts.fixed.now settings },
    pub ghost few: { length counts.fixed.now < 2 ^ 32 },
}

impl<'a> CellNetwork<'a> {
    /// The network of cells and of what is counted of them. It has as many nodes as there are flags.
    pub fn new(tetra: &'a Tetra, counts: StoreCounts<'a>, settings: Settings) -> CellNetwork<'a>
        requires crossed { 4 * length tetra.now.slots ≤ length counts.crossed.now }
        requires behind { length tetra.now.slots ≤ length counts.behind.now }
        requires fixed { length tetra.now.slots ≤ length counts.fixed.now }
        requires few { length counts.fixed.now < 2 ^ 32 }
        ensures tetra { result.tetra.now ≡ tetra.now }
        ensures crossed { result.counts.crossed.now ≡ counts.entry.crossed.now }
        ensures behind { result.counts.behind.now ≡ counts.entry.behind.now }
        ensures fixed { result.counts.fixed.now ≡ counts.entry.fixed.now }
        ensures settings { result.settings ≡ settings }
    {
        CellNetwork::over(tetra, counts.crossed, counts.behind, counts.fixed, settings)
    }

    /// The network of cells and of these lists.
    fn over(
        tetra: &'a Tetra,
        crossed: &'a [u32],
        behind: &'a [u32],
        fixed: &'a [bool],
        settings: Settings,
    ) -> CellNetwork<'a>
        requires crossed { 4 * length tetra.now.slots ≤ length crossed.now }
        requires behind { length tetra.now.slots ≤ length behind.now }
        requires fixed { length tetra.now.slots ≤ length fixed.now }
        requires few { length fixed.now < 2 ^ 32 }
        ensures tetra { result.tetra.now ≡ tetra.now }
        ensures crossed { result.counts.crossed.now ≡ crossed.now }
        ensures behind { result.counts.behind.now ≡ behind.now }
        ensures fixed { result.counts.fixed.now ≡ fixed.now }
        ensures settings { result.settings ≡ settings }
    {
        tetra.facts();
        let counts = StoreCounts {
            crossed,
            behind,
            fixed,
        };
        CellNetwork {
            tetra,
            counts,
            settings,
        }
    }

    /// The adjacent cell at the side of an arc.
    fn across(&self, arc: usize) -> Option<CellId>
        ensures value { result ≡ across self.now.tetra.now.slots arc }
        ensures live { IfSome result (λ other. IsLive (links_of self.now.tetra.now.slots) other) }
    {
        self.tetra.neighbor_at(arc / 4, (arc % 4) as u8)
    }

    /// The adjacent cell at the side of an arc, if it is free.
    fn free_across(&self, arc: usize) -> Option<CellId>
        ensures some { IsSome result → is_free self.now.counts.fixed.now (across self.now.tetra.now.slots arc) ≡ true }
        ensures none { IfNone result (is_free self.now.counts.fixed.now (across self.now.tetra.now.slots arc) ≡ false) }
        ensures value { IfSome result (λ other. across self.now.tetra.now.slots arc ≡ result) }
        ensures live { IfSome result (λ other. IsLive (links_of self.now.tetra.now.slots) other) }
    {
        let other = self.across(arc)?;
        if self.counts.fixed[other.number()] {
            return None;
        }
        Some(other)
    }

    /// The arc that leads back from the cell adjacent at a side, if that cell is free.
    fn arc_back(&self, id: CellId, side: usize) -> Option<usize>
        requires live { IsLive (links_of self.now.tetra.now.slots) id }
        requires side { side < 4 }
        ensures there { is_some result ≡ is_free self.now.counts.fixed.now ((links_of self.now.tetra.now.slots).next id side) }
        ensures from { IfSome result (λ arc. (links_of self.now.tetra.now.slots).next id side ≡ Some (arc / 4)) }
        ensures to { IfSome result (λ arc. across self.now.tetra.now.slots arc ≡ Some id) }
        ensures live { IfSome result (λ arc. IsLive (links_of self.now.tetra.now.slots) (arc / 4)) }
    {
        let neighbor = self.tetra.neighbor(id, side)?;
        if self.counts.fixed[neighbor.id.number()] {
            return None;
        }
        Some(4 * neighbor.id.number() + neighbor.side)
    }
}

impl<'a> FlowNetwork for CellNetwork<'a> {
    ghost use Rattle.cell_net.specs.Arcs.{is_paired};
    ghost use Rattle.cell_net.specs.Shape.{numbered_with};

    ghost numbered = { λ net. numbered_with net.tetra.now.slots net.counts.crossed.now net.counts.behind.now net.counts.fixed.now net.settings net.shape };

    ghost paired = { λ net arc. is_paired net.tetra.now.slots net.counts.fixed.now arc };

    #[inline]
    fn node_count(&self) -> usize {
        self.counts.fixed.len()
    }

    #[inline]
    fn arc_count(&self) -> usize {
        4 * self.counts.fixed.len()
    }

    #[inline]
    fn tail(&self, arc: usize) -> usize {
        arc / 4
    }

    #[inline]
    fn head(&self, arc: usize) -> usize {
        match self.across(arc) {
            Some(other) => other.number(),
            None => arc / 4,
        }
    }

    #[inline]
    fn reverse(&self, arc: usize) -> Option<usize> {
        if self.counts.fixed[arc / 4] {
            return None;
        }
        let id = self.tetra.id_at(arc / 4)?;
        self.arc_back(id, arc % 4)
    }

    #[inline]
    fn is_paired(&self, arc: usize) -> bool {
        !self.counts.fixed[arc / 4] && self.free_across(arc).is_some()
    }

    #[inline]
    fn capacity(&self, arc: usize) -> u64 {
        match self.free_across(arc) {
            Some(_) => {
                u64::from(self.settings.vote) * u64::from(self.counts.crossed[arc])
                    + u64::from(self.settings.smooth)
            }
            None => 0,
        }
    }

    #[inline]
    fn is_fixed(&self, node: usize) -> bool {
        self.counts.fixed[node] || self.tetra.id_at(node).is_none()
    }

    #[inline]
    fn sink(&self, node: usize) -> u64 {
        match self.tetra.id_at(node) {
            Some(_) => u64::from(self.settings.vote) * u64::from(self.counts.behind[node]),
            None => 0,
        }
    }
}
