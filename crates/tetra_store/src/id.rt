//! Numbers of cells.

use std::marker::Model;

/// The number of a cell, by which the store names it. It stays while the cell is live, and may be given to another cell after that.
/// Contracts see it as the number itself. A list with a place for each number up to the largest has a place for each cell.
#[derive(Clone, Copy, Debug, Default, PartialEq, Eq)]
pub struct CellId {
    number: usize,
}

impl Model for CellId {
    ghost use Rattle.std.specs.Prelude.{ℕ};

    ghost Value = { ℕ };

    ghost view = { λ id. id.number };

    ghost inverse = { λ n. record { number = n } };
}

impl CellId {
    ghost use Rattle.std.specs.Prelude.{◌≡◌};

    /// The id with this number.
    pub(crate) fn new(number: usize) -> CellId
        ensures { result ≡ number }
    {
        CellId { number }
    }

    /// The number itself, as for an index into a list of one's own.
    pub fn number(self) -> usize
        ensures { result ≡ self }
    {
        self.number
    }
}
