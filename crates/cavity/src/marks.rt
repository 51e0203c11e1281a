//! Marks of numbers, all removed at once in constant time.

ghost use Rattle.std.specs.Prelude.{◌≡◌, ◌↔◌, ◌⊎◌, ℕ, IsTrue, OnOk};
ghost use Rattle.cavity.specs.Marks.{AreStamps, IsMarked};

use crate::NoMemory;
use std::alloc::Global;

/// Which numbers are marked: those whose entry is the number of the current round. So clearing takes constant time, and a mark
/// allocates memory only if its number is above all that were marked before.
#[derive(Drop)]
pub(crate) struct Marks {
    stamps: Vec<u32>,
    round: u32,
    ghost valid: { AreStamps stamps.items round },
}

impl Marks {
    /// Returns an empty set of marks.
    pub(crate) fn new(alloc: Global) -> Marks
        ensures { (x : ℕ) → IsMarked result.stamps.items result.round x → ⊥ }
    {
        Marks {
            stamps: Vec::new(alloc),
            round: 1,
        }
    }

    /// Removes all marks.
    pub(crate) fn clear(&mut self)
        ensures { (x : ℕ) → IsMarked self.new.stamps.items self.new.round x → ⊥ }
    {
        if self.round == u32::MAX {
            self.stamps.clear();
            self.round = 0;
        }
        self.round += 1;
    }

    /// Returns whether a number is marked.
    pub(crate) fn has(&self, x: usize) -> bool
        ensures { IsTrue result ↔ IsMarked self.now.stamps.items self.now.round x }
    {
        match self.stamps.get(x) {
            Some(stamp) => *stamp == self.round,
            None => false,
        }
    }

    /// Marks a number.
    pub(crate) fn mark(&mut self, x: usize) -> Result<(), NoMemory>
        ensures { OnOk result ((y : ℕ) → IsMarked self.new.stamps.items self.new.round y ↔ (IsMarked self.old.stamps.items self.old.round y ⊎ (y ≡ x))) }
    {
        while self.stamps.len() <= x {
            self.stamps.push(0)?;
        }
        self.stamps[x] = self.round;
        Ok(())
    }
}
