//! Whether a collapse keeps how faces are connected: its ends have two common neighbors (Dey et al., 1999).

use crate::numbers::{number_at, put};
use crate::surface::Surface;

/// Marks of vertices, which are all removed at once.
#[derive(Drop)]
pub(crate) struct Marks {
    pub(crate) marks: Vec<u32>,
    pub(crate) stamp: u32,
}

impl Marks {
    /// Marks the vertices at which half edges end, and no others.
    fn mark_ends(&mut self, surface: &Surface, ring: &[u32]) {
        self.stamp = self.stamp.saturating_add(1);
        for h in ring {
            put(&mut self.marks, surface.to(*h), self.stamp);
        }
    }

    /// Returns how many half edges end at a marked vertex.
    fn count_marked(&self, surface: &Surface, star: &[u32]) -> usize {
        star.iter()
            .filter(|h| number_at(&self.marks, surface.to(**h)) == self.stamp)
            .count()
    }

    /// Returns whether the ends of an edge have two common neighbors, and more faces than those of a tetrahedron.
    pub(crate) fn is_linked(&mut self, surface: &Surface, ring: &[u32], star: &[u32]) -> bool {
        if ring.len() < 3 || star.len() < 3 || ring.len().saturating_add(star.len()) < 7 {
            return false;
        }
        self.mark_ends(surface, ring);
        self.count_marked(surface, star) == 2
    }
}
