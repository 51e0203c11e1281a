//! The tree itself, as a list of boxes.

ghost use Rattle.std.specs.Prelude.{◌≡◌, ◌≤◌, ◌<◌, ◌*◌, ◌^◌, vec_len, IfOk};

use crate::NoMemory;
use crate::hull::Hull;
use std::alloc::Global;

/// How many numbers share a leaf.
pub(crate) const LEAF: usize = 4;

/// A tree of boxes for numbers from 0.
#[derive(Drop)]
pub struct HullTree {
    pub(crate) hulls: Vec<Hull>,
    pub(crate) leaves: usize,
    pub(crate) height: usize,
    ghost filled: { vec_len hulls ≡ 2 * leaves },
    ghost even: { leaves ≡ 2 ^ height },
    ghost few: { height ≤ 60 },
    ghost small: { leaves ≤ 2 ^ 59 },
}

impl HullTree {
    /// Returns a tree for the numbers below `count`, with no box inserted. It has at most `count` nodes, rounded up to a power of two.
    pub fn new(alloc: Global, count: usize) -> Result<HullTree, NoMemory>
        requires { count < 2 ^ 60 }
        ensures { IfOk result (λ tree. count ≤ 4 * tree.leaves) }
    {
        let mut leaves = 1;
        let mut height = 0;
        while leaves * LEAF < count {
            leaves *= 2;
            height += 1;
        }
        let hulls = vec![in alloc; Hull::empty(); 2 * leaves]?;
        Ok(HullTree {
            hulls,
            leaves,
            height,
        })
    }
}
