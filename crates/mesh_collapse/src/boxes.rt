//! Boxes around faces in levels: level 0 has a box for each eight consecutive faces, and each level above one for each four boxes of the
//! level below. Boxes only grow, so each contains, at any time, all faces below it.

use crate::NoMemory;
use crate::surface::hull_among;
use geo_sign::Point;
use std::alloc::Global;
use triangles::Hull;

/// How many faces share a leaf, as a power of two.
const LEAF_BITS: usize = 3;

/// How many faces share a leaf.
pub(crate) const LEAF: usize = 8;

/// The most levels.
const LEVELS: usize = 24;

/// Boxes in levels, the leaves first.
#[derive(Drop)]
pub(crate) struct Boxes {
    hulls: Vec<Hull>,
    /// Where each level begins.
    starts: Vec<usize>,
    leaves: usize,
}

/// Where a search is: at the box of a level above a leaf.
#[derive(Clone, Copy)]
pub(crate) struct Cursor {
    level: usize,
    leaf: usize,
}

/// Returns a leaf's place in a level.
fn above(leaf: usize, level: usize) -> usize {
    leaf >> (2 * level.min(LEVELS))
}

/// Returns how many leaves are below a box of a level.
fn width(level: usize) -> usize {
    1 << (2 * level.min(LEVELS))
}

impl Boxes {
    /// Returns boxes for this many faces, all empty.
    fn empty(alloc: Global, faces: usize) -> Result<Boxes, NoMemory> {
        let leaves = faces / LEAF + 1;
        let mut starts = Vec::with_capacity(alloc, LEVELS)?;
        let mut count = 0usize;
        let mut size = leaves;
        for _ in 0..LEVELS {
            starts.push(count)?;
            count = count.saturating_add(size);
            if size <= 1 {
                break;
            }
            size = (size - 1) / 4 + 1;
        }
        let hulls = vec![in alloc; Hull::empty(); count]?;
        Ok(Boxes {
            hulls,
            starts,
            leaves,
        })
    }

    /// Returns the boxes of faces, those that are gone left out.
    pub(crate) fn of(
        alloc: Global,
        points: &[Point],
        faces: &[[u32; 3]],
    ) -> Result<Boxes, NoMemory> {
        let mut boxes = Boxes::empty(alloc, faces.len())?;
        for (f, face) in faces.iter().enumerate() {
            boxes.cover(f, hull_among(points, *face));
        }
        Ok(boxes)
    }

    /// Returns the index of the box of a level above a leaf.
    fn index(&self, leaf: usize, level: usize) -> usize {
        match self.starts.get(level) {
            Some(start) => start.saturating_add(above(leaf, level)),
            None => usize::MAX,
        }
    }

    /// Grows the boxes above a face until they contain a box.
    pub(crate) fn cover(&mut self, face: usize, hull: Hull) {
        let leaf = face >> LEAF_BITS;
        for level in 0..self.starts.len() {
            let i = self.index(leaf, level);
            if i < self.hulls.len() {
                let had = self.hulls[i];
                self.hulls[i] = had.joined(hull);
            }
        }
    }

    /// Returns where a search begins.
    pub(crate) fn top(&self) -> Cursor {
        Cursor {
            level: self.starts.len().saturating_sub(1),
            leaf: 0,
        }
    }

    /// Returns whether the box at a cursor overlaps another.
    fn meets(&self, cursor: &Cursor, hull: Hull) -> bool {
        match self.hulls.get(self.index(cursor.leaf, cursor.level)) {
            Some(own) => own.meets(hull),
            None => false,
        }
    }

    /// Moves a cursor past the leaves below its box, and up as far as the next box begins there.
    fn pass(&self, cursor: &mut Cursor) {
        cursor.leaf = cursor.leaf.saturating_add(width(cursor.level));
        let top = self.starts.len().saturating_sub(1);
        for level in cursor.level..top {
            let next = level.saturating_add(1);
            if cursor.leaf & (width(next).saturating_sub(1)) != 0 {
                break;
            }
            cursor.level = next;
        }
    }

    /// Returns the next leaf from a cursor on whose box overlaps another.
    pub(crate) fn next_leaf(&self, hull: Hull, cursor: &mut Cursor) -> Option<usize> {
        for _ in 0..self.hulls.len() {
            if cursor.leaf >= self.leaves {
                return None;
            }
            if !self.meets(cursor, hull) {
                self.pass(cursor);
            } else if cursor.level == 0 {
                let leaf = cursor.leaf;
                self.pass(cursor);
                return Some(leaf);
            } else {
                cursor.level -= 1;
            }
        }
        None
    }
}
