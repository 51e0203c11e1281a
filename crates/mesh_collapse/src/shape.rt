//! Whether the new faces of a collapse look about the way of the old ones, and are no slivers.

use crate::NoMemory;
use crate::fan::{Changed, Fan};
use crate::numbers::NONE;
use crate::surface::{Surface, between, normal_of};
use face_near::Corners;
use mesh_flips::Way;

/// The least cosine between the normals of a face before and after.
const LEAST_COSINE: f64 = 0.1;

/// The least quality of a new face, unless a worse one goes.
const SLIVER: f64 = 0.03;

/// What makes the quality of a triangle with equal sides 1.
const EQUAL_SIDES: f64 = 3.464101615137754;

/// Returns the area of a triangle over the sum of its squared sides, 1 for equal sides.
fn quality(t: &Corners, normal: Way) -> f64 {
    let (p, q, r) = (between(t.a, t.b), between(t.b, t.c), between(t.c, t.a));
    let sides = p.dot(p) + q.dot(q) + r.dot(r);
    if sides > 0.0 {
        EQUAL_SIDES * normal.length() / sides
    } else {
        0.0
    }
}

/// Returns a face with one vertex in place of another.
fn replaced(face: [u32; 3], u: u32, v: u32) -> [u32; 3] {
    let [a, b, c] = face;
    [
        if a == u { v } else { a },
        if b == u { v } else { b },
        if c == u { v } else { c },
    ]
}

/// The ends of an edge that collapses.
#[derive(Clone, Copy)]
pub(crate) struct Ends {
    /// The vertex that goes.
    pub(crate) u: u32,
    /// The vertex that stays, at its new place.
    pub(crate) v: u32,
    /// Where it was.
    pub(crate) was: Way,
}

/// The worst qualities of faces.
#[derive(Clone, Copy)]
struct Worst {
    new: f64,
    old: f64,
}

/// Returns what a collapse makes of a face.
fn changed(surface: &Surface, h: u32, ends: &Ends) -> Changed {
    let corners = replaced(surface.face(h / 3), ends.u, ends.v);
    let spots = surface.corners(corners);
    Changed {
        face: h / 3,
        corners,
        spots,
        normal: normal_of(&spots),
        hull: surface.hull(corners),
    }
}

/// Returns the corners of a face before a collapse.
fn corners_before(surface: &Surface, h: u32, ends: &Ends) -> Corners {
    let [a, b, c] = surface.face(h / 3);
    let t = surface.corners([a, b, c]);
    Corners {
        a: if a == ends.v { ends.was } else { t.a },
        b: if b == ends.v { ends.was } else { t.b },
        c: if c == ends.v { ends.was } else { t.c },
    }
}

/// Returns whether a face is turned too far.
fn is_turned(was: Way, new: Way) -> bool {
    !(was.dot(new) > LEAST_COSINE * (was.dot(was) * new.dot(new)).sqrt())
}

/// Lists what a collapse makes of a face, and returns whether it looks about the same way.
fn add_face(
    surface: &Surface,
    fan: &mut Fan,
    h: u32,
    ends: &Ends,
    worst: &mut Worst,
) -> Result<bool, NoMemory> {
    let new = changed(surface, h, ends);
    let old = corners_before(surface, h, ends);
    let normal = normal_of(&old);
    if is_turned(normal, new.normal) {
        return Ok(false);
    }
    worst.new = worst.new.min(quality(&new.spots, new.normal));
    worst.old = worst.old.min(quality(&old, normal));
    fan.changed.push(new)?;
    Ok(true)
}

/// Lists what a collapse makes of the faces that change, and returns whether they look about the same way and none is a sliver.
pub(crate) fn has_shape(surface: &Surface, fan: &mut Fan, ends: &Ends) -> Result<bool, NoMemory> {
    fan.changed.clear();
    let mut worst = Worst { new: 1.0, old: 1.0 };
    for i in 0..fan.staying.len() {
        let h = fan.staying.get(i).copied().unwrap_or(NONE);
        if !add_face(surface, fan, h, ends, &mut worst)? {
            return Ok(false);
        }
    }
    Ok(worst.new >= SLIVER || worst.new >= worst.old)
}
