//! Which vertices may collapse: those whose faces are one cycle that meets no neighbor twice.

use crate::NoMemory;
use crate::numbers::{NONE, number_at, put};
use crate::order::short;
use crate::surface::Surface;
use std::alloc::Global;

/// The most faces around a vertex that collapses.
pub(crate) const MOST_AROUND: usize = 256;

/// How many corners are at each vertex, and a half edge that begins there.
#[derive(Drop)]
struct Corners {
    counts: Vec<u32>,
    edges: Vec<u32>,
}

fn corners_of(alloc: Global, count: usize, faces: &[[u32; 3]]) -> Result<Corners, NoMemory> {
    let mut corners = Corners {
        counts: vec![in alloc; 0; count]?,
        edges: vec![in alloc; NONE; count]?,
    };
    for (f, face) in faces.iter().enumerate() {
        let first = short(f).saturating_mul(3);
        let [a, b, c] = *face;
        note(&mut corners, a, first);
        note(&mut corners, b, first.saturating_add(1));
        note(&mut corners, c, first.saturating_add(2));
    }
    Ok(corners)
}

/// Counts a corner.
fn note(corners: &mut Corners, v: u32, h: u32) {
    let count = number_at(&corners.counts, v);
    put(&mut corners.counts, v, count.saturating_add(1));
    put(&mut corners.edges, v, h);
}

/// Returns whether the faces around a vertex are one cycle with this many faces, and no neighbor is met twice.
fn is_fan(surface: &Surface, v: u32, first: u32, count: u32, marks: &mut [u32]) -> bool {
    let mut h = first;
    for steps in 1..MOST_AROUND {
        let w = surface.to(h);
        if number_at(marks, w) == v {
            return false;
        }
        put(marks, w, v);
        h = surface.turn(h);
        if h == first {
            return short(steps) == count;
        }
    }
    false
}

/// Finds a half edge for each vertex that may collapse.
pub(crate) fn find_fans(alloc: Global, surface: &mut Surface) -> Result<(), NoMemory> {
    let count = surface.places.len();
    let corners = corners_of(alloc, count, &surface.faces)?;
    let mut marks = vec![in alloc; NONE; count]?;
    let mut edges = vec![in alloc; NONE; count]?;
    for i in 0..count {
        let v = short(i);
        let first = number_at(&corners.edges, v);
        if first != NONE && is_fan(surface, v, first, number_at(&corners.counts, v), &mut marks) {
            put(&mut edges, v, first);
        }
    }
    surface.edge_of = edges;
    Ok(())
}
