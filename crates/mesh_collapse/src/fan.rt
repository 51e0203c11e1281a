//! The faces around the two ends of an edge: those that a collapse changes, and those that go.

use crate::NoMemory;
use crate::numbers::{NONE, after, number_at};
use crate::surface::Surface;
use face_near::Corners;
use mesh_flips::Way;
use std::alloc::Global;
use triangles::Hull;

/// The most faces around a vertex that stays.
const MOST_STAYING: usize = 4096;

/// A face that a collapse changes.
#[derive(Clone, Copy)]
pub(crate) struct Changed {
    /// Its number.
    pub(crate) face: u32,
    /// Its vertices afterwards.
    pub(crate) corners: [u32; 3],
    pub(crate) spots: Corners,
    pub(crate) normal: Way,
    pub(crate) hull: Hull,
}

/// A face that a collapse does not change, which points of those that go may be near.
#[derive(Clone, Copy)]
pub(crate) struct Beside {
    pub(crate) face: u32,
    pub(crate) spots: Corners,
}

/// A given point, and the face that it is near afterwards.
#[derive(Clone, Copy)]
pub(crate) struct Moved {
    pub(crate) point: u32,
    pub(crate) face: u32,
}

/// The faces around the ends of an edge that collapses.
#[derive(Drop)]
pub(crate) struct Fan {
    /// The half edges from the vertex that goes, that to the other end first.
    pub(crate) ring: Vec<u32>,
    /// The half edges from the vertex that stays, that to the other end first.
    pub(crate) star: Vec<u32>,
    /// A half edge of each face that changes.
    pub(crate) staying: Vec<u32>,
    /// A half edge of each face that goes.
    pub(crate) going: Vec<u32>,
    /// The faces beside those that go.
    pub(crate) beside: Vec<Beside>,
    /// What the faces that change are afterwards.
    pub(crate) changed: Vec<Changed>,
    pub(crate) moved: Vec<Moved>,
    /// Whether the vertex that stays moves.
    pub(crate) moves: bool,
    /// The least distance within which one of the points that move to other faces has to stay.
    pub(crate) least: f64,
}

impl Fan {
    /// Returns lists without faces.
    pub(crate) fn empty(alloc: Global) -> Fan {
        Fan {
            ring: Vec::new(alloc),
            star: Vec::new(alloc),
            staying: Vec::new(alloc),
            going: Vec::new(alloc),
            beside: Vec::new(alloc),
            changed: Vec::new(alloc),
            moved: Vec::new(alloc),
            moves: false,
            least: f64::INFINITY,
        }
    }

    /// Clears all lists.
    fn clear(&mut self) {
        self.ring.clear();
        self.star.clear();
        self.staying.clear();
        self.going.clear();
        self.beside.clear();
        self.changed.clear();
        self.moved.clear();
        self.moves = false;
    }

    /// Gathers the half edges around both ends of an edge, and returns whether they are two cycles.
    pub(crate) fn gather(&mut self, surface: &Surface, edge: u32) -> Result<bool, NoMemory> {
        self.clear();
        let ring = walk(surface, edge, &mut self.ring)?;
        let star = walk(surface, surface.twin(edge), &mut self.star)?;
        Ok(ring && star)
    }

    /// Lists the faces that the collapse of this edge changes, and those that go.
    pub(crate) fn note_collapse(&mut self, surface: &Surface) -> Result<(), NoMemory> {
        push_inner(&mut self.staying, &self.ring)?;
        if self.moves {
            push_inner(&mut self.staying, &self.star)?;
        }
        let first = number_at(&self.ring, 0);
        let last = self.ring.last().copied().unwrap_or(NONE);
        self.going.push(first)?;
        self.going.push(last)?;
        self.beside
            .push(face_beside(surface, surface.twin(after(first))))?;
        self.beside
            .push(face_beside(surface, surface.twin(after(last))))?;
        Ok(())
    }

    /// Returns whether a face is one of those that change or go.
    pub(crate) fn is_own(&self, f: u32) -> bool {
        self.staying.iter().any(|h| *h / 3 == f) || self.going.iter().any(|h| *h / 3 == f)
    }
}

/// Returns the face of a half edge, with its places.
fn face_beside(surface: &Surface, h: u32) -> Beside {
    Beside {
        face: h / 3,
        spots: surface.corners(surface.face(h / 3)),
    }
}

/// Appends half edges but the first and the last.
fn push_inner(list: &mut Vec<u32>, edges: &[u32]) -> Result<(), NoMemory> {
    let last = edges.len().saturating_sub(1);
    for i in 1..last {
        list.push(edges.get(i).copied().unwrap_or(NONE))?;
    }
    Ok(())
}

/// Lists the half edges around the vertex at which one begins, and returns whether they are a cycle.
fn walk(surface: &Surface, first: u32, list: &mut Vec<u32>) -> Result<bool, NoMemory> {
    list.clear();
    let mut h = first;
    for _ in 0..MOST_STAYING {
        list.push(h)?;
        h = surface.turn(h);
        if h == first {
            return Ok(true);
        }
    }
    Ok(false)
}
