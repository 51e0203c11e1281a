//! Carries out a collapse.

use crate::collapse::Work;
use crate::fan::Fan;
use crate::numbers::{GONE, NONE, after, before, number_at, put};
use crate::planes::UNKNOWN;
use crate::surface::Surface;

/// Makes two half edges opposites of each other.
fn pair(twins: &mut [u32], one: u32, other: u32) {
    put(twins, one, other);
    put(twins, other, one);
}

/// Removes a face.
fn remove(surface: &mut Surface, f: u32) {
    if (f as usize) < surface.faces.len() {
        surface.faces[f as usize] = GONE;
    }
}

/// Notes a half edge of a vertex that may collapse.
fn note_edge(surface: &mut Surface, v: u32, h: u32) {
    if surface.is_free(v) {
        put(&mut surface.edge_of, v, h);
    }
}

/// Connects the faces across the two that go, and removes these.
fn close(surface: &mut Surface, first: u32, last: u32) {
    let (one, other) = (surface.to(after(first)), surface.to(last));
    let (a, b) = (surface.twin(after(first)), surface.twin(before(first)));
    let (c, d) = (surface.twin(last), surface.twin(after(last)));
    remove(surface, first / 3);
    remove(surface, last / 3);
    pair(&mut surface.twins, a, b);
    pair(&mut surface.twins, c, d);
    note_edge(surface, one, a);
    note_edge(surface, other, c);
}

/// Forgets what failed at a vertex, its cost and the planes around it.
fn renew(work: &mut Work, v: u32) {
    if (v as usize) < work.floors.len() {
        work.floors[v as usize] = -1.0;
    }
    if (v as usize) < work.costs.len() {
        work.costs[v as usize] = -1.0;
    }
    if (v as usize) < work.planes.len() {
        work.planes[v as usize] = UNKNOWN;
    }
}

/// Forgets the costs of the neighbors of both ends.
fn renew_around(work: &mut Work, fan: &Fan) {
    for h in &fan.ring {
        let w = work.surface.to(*h);
        renew(work, w);
    }
    for h in &fan.star {
        let w = work.surface.to(*h);
        renew(work, w);
    }
}

/// Writes the faces that change.
fn write_faces(work: &mut Work, fan: &Fan) {
    for new in &fan.changed {
        if (new.face as usize) < work.surface.faces.len() {
            work.surface.faces[new.face as usize] = new.corners;
        }
        work.boxes.cover(new.face as usize, new.hull);
    }
}

/// Carries out a collapse of `u` to `v`.
pub(crate) fn commit(work: &mut Work, fan: &Fan, u: u32, v: u32) {
    renew_around(work, fan);
    let first = number_at(&fan.ring, 0);
    let second = number_at(&fan.ring, 1);
    let last = fan.ring.last().copied().unwrap_or(NONE);
    close(&mut work.surface, first, last);
    write_faces(work, fan);
    put(&mut work.surface.edge_of, u, NONE);
    note_edge(&mut work.surface, v, second);
    work.lists.move_points(fan);
    work.surface.live = work.surface.live.saturating_sub(2);
    renew(work, v);
}
