//! Replacing cells.
//!
//! The new cells are put in before the old ones are taken out, so no number is both. Nothing has to hold in between: each step
//! says what it writes, and one lemma (`linked_again`) shows that the cells are linked at the end.

ghost use Rattle.std.specs.Prelude.{◌≡◌};
ghost use Rattle.tetra_store.specs.Links.{links_of, IsLive};
ghost use Rattle.tetra_store.specs.Fan.{CanReplace, IsReplaced, IsOver};

use crate::growth::grow;
use crate::keeping::{keep_new, mend};
use crate::removal::take_out;
use crate::{CellId, Facet, Tetra};

impl Tetra {
    /// Takes out the cells `old`, puts in the cell over each facet of their boundary `fan` with the vertex `p`, links all of
    /// these, and marks p as inserted. Returns one of the new cells. It takes no memory.
    ///
    /// It asks that `old` holds live cells, each once and at least one; that `fan` holds exactly their facets with no neighbor
    /// among them, each once and with that neighbor; that p is on the positive side of each; that each directed edge of `fan`
    /// is there once, and so is its reverse; that p is a vertex that is not inserted; that each inserted vertex is in `fan` or
    /// in a cell that stays; and that there is room for `fan`. All other cells keep their numbers.
    pub fn replace(&mut self, old: &[CellId], fan: &[Facet], p: u32) -> CellId
        requires { CanReplace self.old old.now fan.now p }
        ensures replaced { IsReplaced self.old self.new old.now fan.now p }
        ensures live { IsLive (links_of self.new.slots) result }
        ensures new { IsOver (links_of self.new.slots) fan.now p result }
        ensures capacity { self.new.capacity ≡ self.old.capacity }
    {
        // Each live number is below the capacity, which the room that was reserved keeps below the number that stands for none.
        let _most = self.cells.capacity();
        grow(
            &mut self.cells,
            &mut self.ids,
            &mut self.edges,
            &mut self.hints,
            fan,
            p,
        );
        keep_new(&mut self.kept, fan, &self.ids, p);
        mend(&mut self.kept, &self.cells, old);
        take_out(&mut self.cells, old);
        self.inserted[p as usize] = true;
        self.ids[0]
    }
}
