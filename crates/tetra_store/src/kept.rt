//! The incident cell of a vertex, in four bytes.

use crate::CellId;
use std::marker::Model;

/// The incident cell of a vertex, in four bytes. Contracts see it as that cell's number.
#[derive(Clone, Copy)]
pub(crate) struct KeptCell {
    number: u32,
}

impl Model for KeptCell {
    ghost use Rattle.std.specs.Prelude.{ℕ};

    ghost Value = { ℕ };

    ghost view = { λ k. k.number };

    ghost inverse = { λ n. record { number = n } };
}

impl KeptCell {
    ghost use Rattle.std.specs.Prelude.{◌≡◌, ◌+◌, ◌<◌, ◌^◌};

    /// This cell, whose number is small enough.
    pub(crate) fn new(id: CellId) -> KeptCell
        requires { id + 1 < 2 ^ 32 }
        ensures { result ≡ id }
    {
        KeptCell {
            number: id.number() as u32,
        }
    }

    /// The cell.
    pub(crate) fn id(self) -> CellId
        ensures { result ≡ self }
    {
        CellId::new(self.number as usize)
    }
}
