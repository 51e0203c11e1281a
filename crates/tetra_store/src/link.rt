//! Cells, as callers see them, and neighbors, as the store keeps them in four bytes.

ghost use Rattle.std.specs.Prelude.{◌≡◌, ◌+◌, ◌<◌, ◌^◌, ◌↔◌, IsTrue, Some, None};

use crate::CellId;
use std::marker::Model;

/// The number that no cell has.
const NO_CELL: u32 = u32::MAX;

/// A cell, as callers see it.
#[derive(Clone, Copy, Debug, PartialEq, Eq)]
pub struct Cell {
    /// Its four vertices by number, positively oriented: vertex 3 is on the positive side of the facet of vertices 0, 1, 2.
    pub v: [u32; 4],
    /// The neighbor opposite to each vertex. There is none exactly if the facet opposite to the vertex is on a wall of the box.
    pub next: [Option<CellId>; 4],
}

/// A neighbor or none, in four bytes.
#[derive(Clone, Copy, Debug, PartialEq, Eq)]
pub(crate) struct Link {
    number: u32,
}

impl Model for Link {
    ghost use Rattle.std.specs.Prelude.{Option, ℕ};
    ghost use Rattle.std.proofs.Common.{ap};
    ghost use Rattle.tetra_store.specs.Packed.{link_of, packed_number, packed_number-link_of};

    ghost Value = { Option ℕ };

    ghost view = { λ l. link_of l.number };

    ghost inverse = { λ o. record { number = packed_number o } };

    ghost inverse_ok = { λ l h. ap (λ n. record { number = n }) (packed_number-link_of l.number) };
}

impl Link {
    /// No neighbor.
    pub(crate) fn none() -> Link
        ensures { result ≡ None }
    {
        Link { number: NO_CELL }
    }

    /// This neighbor, whose number is small enough.
    pub(crate) fn to(id: CellId) -> Link
        requires { id + 1 < 2 ^ 32 }
        ensures { result ≡ Some id }
    {
        Link {
            number: id.number() as u32,
        }
    }

    /// Whether the neighbor is this cell.
    pub(crate) fn is(self, other: CellId) -> bool
        ensures { IsTrue result ↔ (self ≡ Some other) }
    {
        self.number != NO_CELL && self.number as usize == other.number()
    }

    /// The neighbor.
    pub(crate) fn get(self) -> Option<CellId>
        ensures { result ≡ self }
    {
        if self.number == NO_CELL {
            None
        } else {
            Some(CellId::new(self.number as usize))
        }
    }
}
