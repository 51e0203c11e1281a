//! Whether the new faces of a collapse are apart from one another and from all others.

ghost use Rattle.std.specs.Prelude.{◌<◌, All, length};
ghost use Rattle.std.specs.Bool.{OnTrue};

use crate::boxes::{Boxes, LEAF};
use crate::fan::{Changed, Fan};
use crate::numbers::has;
use crate::order::short;
use crate::surface::{Surface, between, normal_of};
use face_near::Corners;
use geo_sign::Point;
use mesh_flips::Way;
use triangles::{Hull, are_apart};

/// The rounding error of a height over a plane is at most this part of the sum of its three parts' absolute values.
const ROUNDING: f64 = 0.000000000000001;

/// On which sides of a plane corners are.
#[derive(Clone, Copy)]
struct Sides {
    above: bool,
    below: bool,
}

impl Sides {
    /// Adds a corner.
    fn add(&mut self, normal: Way, p: Way, q: Way) {
        let d = between(p, q);
        let (x, y, z) = (normal.x * d.x, normal.y * d.y, normal.z * d.z);
        let height = x + y + z;
        let error = ROUNDING * (x.abs() + y.abs() + z.abs());
        self.above = self.above && height > error;
        self.below = self.below && height < -error;
    }
}

/// Returns whether the corners of a face that another has not are all on one side of the other's plane.
fn is_off(normal: Way, one: [u32; 3], p: Way, other: [u32; 3], t: &Corners) -> bool {
    let mut sides = Sides {
        above: true,
        below: true,
    };
    let [a, b, c] = other;
    if !has(one, a) {
        sides.add(normal, p, t.a);
    }
    if !has(one, b) {
        sides.add(normal, p, t.b);
    }
    if !has(one, c) {
        sides.add(normal, p, t.c);
    }
    sides.above || sides.below
}

/// Returns whether all vertices of a face are below a count.
fn fits(points: &[Point], face: [u32; 3]) -> bool
    ensures { OnTrue result (All (λ v. v < length points.now) face) }
{
    let [a, b, c] = face;
    (a as usize) < points.len() && (b as usize) < points.len() && (c as usize) < points.len()
}

/// Returns whether two faces are shown to be apart, whichever is named first.
fn are_known_apart(points: &[Point], one: [u32; 3], other: [u32; 3]) -> bool {
    if !fits(points, one) {
        return false;
    }
    if !fits(points, other) {
        return false;
    }
    are_apart(points, one, other) && are_apart(points, other, one)
}

/// Returns whether all corners of a face are those of another.
fn is_same(one: [u32; 3], other: [u32; 3]) -> bool {
    let [a, b, c] = other;
    has(one, a) && has(one, b) && has(one, c)
}

/// Returns whether a new face is apart from another face, and has not its three corners. The planes of the two are tried in floating point
/// first.
fn is_apart(
    places: &[Point],
    new: &Changed,
    other: [u32; 3],
    spots: &Corners,
    normal: Way,
) -> bool {
    if is_same(new.corners, other) {
        return false;
    }
    if is_off(new.normal, new.corners, new.spots.a, other, spots) {
        return true;
    }
    if is_off(normal, other, spots.a, new.corners, &new.spots) {
        return true;
    }
    are_known_apart(places, new.corners, other)
}

/// Returns whether a new face is apart from those before it.
fn is_apart_before(places: &[Point], changed: &[Changed], new: &Changed, i: usize) -> bool {
    for (j, other) in changed.iter().enumerate() {
        if j >= i {
            break;
        }
        if !is_apart(places, new, other.corners, &other.spots, other.normal) {
            return false;
        }
    }
    true
}

/// Returns whether the new faces are apart from one another.
fn are_apart_among(places: &[Point], changed: &[Changed]) -> bool {
    for (i, new) in changed.iter().enumerate() {
        if !is_apart_before(places, changed, new, i) {
            return false;
        }
    }
    true
}

/// Returns whether a face has the vertex that stays and a vertex that becomes its neighbor.
fn has_new_edge(surface: &Surface, fan: &Fan, face: [u32; 3], v: u32) -> bool {
    if !has(face, v) {
        return false;
    }
    let last = fan.ring.len().saturating_sub(1);
    for (i, h) in fan.ring.iter().enumerate() {
        if i >= 2 && i < last && has(face, surface.to(*h)) {
            return true;
        }
    }
    false
}

/// Returns whether the new faces are apart from a face.
fn are_apart_from(surface: &Surface, changed: &[Changed], face: [u32; 3], hull: Hull) -> bool {
    let spots = surface.corners(face);
    let normal = normal_of(&spots);
    for new in changed {
        if new.hull.meets(hull) && !is_apart(&surface.places, new, face, &spots, normal) {
            return false;
        }
    }
    true
}

/// Returns whether the new faces are apart from a face, unless it is one of those that change or go, and it has no new edge.
fn is_clear_of(surface: &Surface, fan: &Fan, f: usize, all: Hull, v: u32) -> bool {
    let number = short(f);
    let face = surface.face(number);
    let hull = surface.hull(face);
    if !hull.meets(all) || fan.is_own(number) {
        return true;
    }
    if has_new_edge(surface, fan, face, v) {
        return false;
    }
    are_apart_from(surface, &fan.changed, face, hull)
}

/// Returns whether that holds for the faces of a leaf.
fn is_clear_of_leaf(surface: &Surface, fan: &Fan, leaf: usize, all: Hull, v: u32) -> bool {
    let first = leaf.saturating_mul(LEAF);
    for k in 0..LEAF {
        if !is_clear_of(surface, fan, first.saturating_add(k), all, v) {
            return false;
        }
    }
    true
}

/// Returns the box of the new faces.
fn hull_of_all(changed: &[Changed]) -> Hull {
    let mut all = Hull::empty();
    for new in changed {
        all = all.joined(new.hull);
    }
    all
}

/// Returns whether the new faces are apart from one another and from all others, and no other face has a new edge.
pub(crate) fn is_clear(surface: &Surface, boxes: &Boxes, fan: &Fan, v: u32) -> bool {
    if !are_apart_among(&surface.places, &fan.changed) {
        return false;
    }
    let all = hull_of_all(&fan.changed);
    let mut cursor = boxes.top();
    for _ in 0..surface.faces.len() {
        match boxes.next_leaf(all, &mut cursor) {
            Some(leaf) => {
                if !is_clear_of_leaf(surface, fan, leaf, all, v) {
                    return false;
                }
            }
            None => return true,
        }
    }
    true
}
