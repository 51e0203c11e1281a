//! Cells by any number, also one with no cell.

ghost use Rattle.std.specs.Prelude.{◌≡◌, ◌<◌, IfSome, IfNone, false};
ghost use Rattle.tetra_store.specs.Links.{links_of, IsLive};

use crate::{CellId, Tetra};

impl Tetra {
    /// The cell with this number. None where the number has no cell.
    pub fn id_at(&self, number: usize) -> Option<CellId>
        ensures live { IfSome result (λ id. IsLive (links_of self.now.slots) id) }
        ensures value { IfSome result (λ id. id ≡ number) }
        ensures none { IfNone result ((links_of self.now.slots).is_live number ≡ false) }
    {
        if self.cells.contains(number) {
            Some(CellId::new(number))
        } else {
            None
        }
    }

    /// Returns the neighbor at a side, which is 0 to 3, of the cell with this number. None if the facet is on a wall or the
    /// number has no cell.
    pub fn neighbor_at(&self, number: usize, side: u8) -> Option<CellId>
        requires { side < 4 }
        ensures value { result ≡ (links_of self.now.slots).next number side }
        ensures live { IfSome result (λ other. IsLive (links_of self.now.slots) other) }
    {
        match self.cells.get(number) {
            Some(cell) => cell.next(side as usize),
            None => None,
        }
    }
}
