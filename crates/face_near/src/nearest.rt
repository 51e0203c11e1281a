//! The point of a triangle nearest to a point, in floating point (Ericson, 2005, 5.1.5). No clause depends on it.

use crate::exact::Weights;
use geo_sign::Point;
use mesh_flips::Way;
use std::num::saturating_f64_to_u32;

/// The sum of proposed weights.
const TOTAL: u32 = 1_048_576;

/// The same in floating point.
const WHOLE: f64 = 1_048_576.0;

/// A triangle in floating point.
#[derive(Clone, Copy, Debug)]
pub struct Corners {
    /// The first corner.
    pub a: Way,
    /// The second corner.
    pub b: Way,
    /// The third corner.
    pub c: Way,
}

/// The point of a triangle nearest to a point: the parts of its corners, and how far it is.
#[derive(Clone, Copy, Debug)]
pub struct Nearest {
    /// The part of the first corner.
    pub a: f64,
    /// The part of the second corner; that of the third is the rest to 1.
    pub b: f64,
    /// The square of the distance.
    pub square: f64,
}

/// The scalar products that say in which region of the triangle's plane the point is.
#[derive(Clone, Copy)]
struct Products {
    d1: f64,
    d2: f64,
    d3: f64,
    d4: f64,
    d5: f64,
    d6: f64,
}

/// Returns the place of a point in floating point, which is exact.
pub fn spot(p: Point) -> Way {
    Way {
        x: f64::from(p.x()),
        y: f64::from(p.y()),
        z: f64::from(p.z()),
    }
}

/// Returns the vector from one place to another.
fn between(a: Way, b: Way) -> Way {
    Way {
        x: b.x - a.x,
        y: b.y - a.y,
        z: b.z - a.z,
    }
}

fn products_of(p: Way, t: &Corners) -> Products {
    let (ab, ac) = (between(t.a, t.b), between(t.a, t.c));
    let (ap, bp, cp) = (between(t.a, p), between(t.b, p), between(t.c, p));
    Products {
        d1: ab.dot(ap),
        d2: ac.dot(ap),
        d3: ab.dot(bp),
        d4: ac.dot(bp),
        d5: ab.dot(cp),
        d6: ac.dot(cp),
    }
}

/// Returns the parts of the first two corners, where the nearest point is at a corner.
fn at_corner(d: &Products) -> Option<(f64, f64)> {
    if d.d1 <= 0.0 && d.d2 <= 0.0 {
        return Some((1.0, 0.0));
    }
    if d.d3 >= 0.0 && d.d4 <= d.d3 {
        return Some((0.0, 1.0));
    }
    if d.d6 >= 0.0 && d.d5 <= d.d6 {
        return Some((0.0, 0.0));
    }
    None
}

/// Returns the parts of the first two corners, where the nearest point is at no corner.
fn off_corners(d: &Products) -> (f64, f64) {
    let c = d.d1 * d.d4 - d.d3 * d.d2;
    if c <= 0.0 && d.d1 >= 0.0 && d.d3 <= 0.0 {
        let part = d.d1 / (d.d1 - d.d3);
        return (1.0 - part, part);
    }
    let b = d.d5 * d.d2 - d.d1 * d.d6;
    if b <= 0.0 && d.d2 >= 0.0 && d.d6 <= 0.0 {
        return (1.0 - d.d2 / (d.d2 - d.d6), 0.0);
    }
    let a = d.d3 * d.d6 - d.d5 * d.d4;
    let (there, back) = (d.d4 - d.d3, d.d5 - d.d6);
    if a <= 0.0 && there >= 0.0 && back >= 0.0 {
        return (0.0, 1.0 - there / (there + back));
    }
    let total = a + b + c;
    (a / total, b / total)
}

/// Returns the point of a triangle that is nearest to a place.
pub fn nearest_on(p: Way, t: &Corners) -> Nearest {
    let d = products_of(p, t);
    let (a, b) = match at_corner(&d) {
        Some(parts) => parts,
        None => off_corners(&d),
    };
    let c = 1.0 - a - b;
    let gap = Way {
        x: a * t.a.x + b * t.b.x + c * t.c.x - p.x,
        y: a * t.a.y + b * t.b.y + c * t.c.y - p.y,
        z: a * t.a.z + b * t.b.z + c * t.c.z - p.z,
    };
    Nearest {
        a,
        b,
        square: gap.dot(gap),
    }
}

/// Returns a part in whole units, at most `most`.
fn part(x: f64, most: u32) -> u32 {
    saturating_f64_to_u32(x * WHOLE + 0.5).min(most)
}

/// Returns whole weights with the sum 2^20 that are near these parts: a hint.
pub fn weights_of(near: &Nearest) -> Weights {
    let a = part(near.a, TOTAL);
    let b = part(near.b, TOTAL.saturating_sub(a));
    Weights {
        a,
        b,
        c: TOTAL.saturating_sub(a).saturating_sub(b),
    }
}
