//! Whether the new faces of a collapse stay near the given mesh, by some of their points, where faces have to stay nearer than elsewhere.

use crate::fan::{Changed, Fan};
use crate::given::{Given, middle_of};
use crate::numbers::number_at;
use crate::surface::{Surface, between};
use mesh_flips::Way;

/// The most parts of a side that are looked at.
const PARTS: f64 = 16.0;

/// The same as a count.
const SIDE: usize = 16;

/// Returns the ends of the side of a face that begins at a vertex.
fn side_at(new: &Changed, v: u32) -> (Way, Way) {
    let [a, b, _] = new.corners;
    let t = &new.spots;
    if a == v {
        (t.a, t.b)
    } else if b == v {
        (t.b, t.c)
    } else {
        (t.c, t.a)
    }
}

/// Returns whether points of a side of a face are near the given mesh: more of them if it is long.
fn is_side_over(given: &Given, ends: (Way, Way), limit: f64) -> bool {
    let (from, to) = ends;
    let whole = between(from, to);
    let step = (1.0 / PARTS).max(limit / (whole.length() + 2.0 * limit));
    let mut part = step;
    for _ in 0..SIDE {
        if !(part < 1.0) {
            return true;
        }
        if !given.is_near(from.plus(whole.times(part)), limit) {
            return false;
        }
        part += step;
    }
    true
}

/// Returns the given numbers of a face's vertices.
fn given_face(surface: &Surface, face: [u32; 3]) -> [u32; 3] {
    let [a, b, c] = face;
    [
        number_at(&surface.origin, a),
        number_at(&surface.origin, b),
        number_at(&surface.origin, c),
    ]
}

/// Returns how near the new faces have to stay to the given mesh: as near as to one of their corners, or of the points that move to them.
fn limit_of(given: &Given, surface: &Surface, fan: &Fan) -> f64 {
    let mut limit = fan.least;
    for new in &fan.changed {
        limit = limit.min(given.limit_on(given_face(surface, new.corners)));
    }
    limit
}

/// Returns whether the middles of the new faces, and points of their new sides at the vertex that stays, are near the given mesh, and that
/// vertex if it moves.
pub(crate) fn are_over(given: &Given, surface: &Surface, fan: &Fan, v: u32) -> bool {
    if given.faces.is_empty() {
        return true;
    }
    let limit = limit_of(given, surface, fan);
    if !(limit < given.within) {
        return true;
    }
    if fan.moves && !given.is_near(surface.spot_at(v), limit) {
        return false;
    }
    for new in &fan.changed {
        if !given.is_near(middle_of(&new.spots), limit) {
            return false;
        }
        if !is_side_over(given, side_at(new, v), limit) {
            return false;
        }
    }
    true
}
