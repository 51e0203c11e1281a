//! Where the vertex that stays in a collapse is best, and what that costs: the squared distances to the planes of the faces around both
//! ends, times the squared areas, at a place that keeps the volume (Lindstrom and Turk, 1998).

use crate::costs::Candidate;
use crate::fans::MOST_AROUND;
use crate::numbers::NONE;
use crate::surface::{Surface, between, normal_of};
use face_near::spot;
use geo_sign::Point;
use mesh_flips::Way;
use std::num::saturating_f64_to_i64;

/// What the squared distances to both ends count, so that flat regions have an order too.
const ENDS: f64 = 0.0002;

/// The volume is kept where the squared sum of the normals is at least this part of the sum of their squares.
const FACING: f64 = 0.1;

/// The planes of faces around a vertex, as seen from it: a sum of squared distances times squared areas.
#[derive(Clone, Copy)]
pub(crate) struct Planes {
    xx: f64,
    xy: f64,
    xz: f64,
    yy: f64,
    yz: f64,
    zz: f64,
    /// The sum of the normals.
    normal: Way,
}

/// No planes.
const ZERO: Planes = Planes {
    xx: 0.0,
    xy: 0.0,
    xz: 0.0,
    yy: 0.0,
    yz: 0.0,
    zz: 0.0,
    normal: Way::NONE,
};

/// Planes that are not known.
pub(crate) const UNKNOWN: Planes = Planes {
    xx: -1.0,
    xy: 0.0,
    xz: 0.0,
    yy: 0.0,
    yz: 0.0,
    zz: 0.0,
    normal: Way::NONE,
};

/// The planes around both ends of an edge, as seen from the vertex that goes.
#[derive(Clone, Copy)]
struct Both {
    planes: Planes,
    /// Half of the slope of the sum where the vertex that goes is, turned.
    linear: Way,
    /// The sum there.
    least: f64,
    /// What the product of a place with the sum of the normals is where the volume stays.
    volume: f64,
}

impl Planes {
    /// Adds a face, by its normal, or takes one away if the sign is -1.
    fn add(&mut self, n: Way, sign: f64) {
        let s = n.times(sign);
        self.xx += s.x * n.x;
        self.xy += s.x * n.y;
        self.xz += s.x * n.z;
        self.yy += s.y * n.y;
        self.yz += s.y * n.z;
        self.zz += s.z * n.z;
        self.normal = self.normal.plus(s);
    }

    /// Returns the planes with those around another vertex.
    fn plus(self, other: Planes) -> Planes {
        Planes {
            xx: self.xx + other.xx,
            xy: self.xy + other.xy,
            xz: self.xz + other.xz,
            yy: self.yy + other.yy,
            yz: self.yz + other.yz,
            zz: self.zz + other.zz,
            normal: self.normal.plus(other.normal),
        }
    }

    /// Returns the sum of the squared areas.
    fn total(&self) -> f64 {
        self.xx + self.yy + self.zz
    }

    /// Returns the product of the matrix and a vector.
    fn times(&self, p: Way) -> Way {
        Way {
            x: self.xx * p.x + self.xy * p.y + self.xz * p.z,
            y: self.xy * p.x + self.yy * p.y + self.yz * p.z,
            z: self.xz * p.x + self.yz * p.y + self.zz * p.z,
        }
    }

    /// Returns the inverse of the matrix; not of numbers, if it has none.
    fn inverse(&self) -> Planes {
        let xx = self.yy * self.zz - self.yz * self.yz;
        let xy = self.xz * self.yz - self.xy * self.zz;
        let xz = self.xy * self.yz - self.xz * self.yy;
        let part = 1.0 / (self.xx * xx + self.xy * xy + self.xz * xz);
        Planes {
            xx: xx * part,
            xy: xy * part,
            xz: xz * part,
            yy: (self.xx * self.zz - self.xz * self.xz) * part,
            yz: (self.xy * self.xz - self.xx * self.yz) * part,
            zz: (self.xx * self.yy - self.xy * self.xy) * part,
            normal: Way::NONE,
        }
    }
}

impl Both {
    /// Adds the squared distances to both ends.
    fn add_ends(&mut self, d: Way) {
        let weight = ENDS * self.planes.total();
        self.planes.xx += weight;
        self.planes.yy += weight;
        self.planes.zz += weight;
        self.linear = self.linear.plus(d.times(0.5 * weight));
        self.least += 0.5 * weight * d.dot(d);
    }

    /// Returns the sum at a place.
    fn at(&self, p: Way) -> f64 {
        let slope = self.planes.times(p).plus(self.linear.times(-2.0));
        (p.dot(slope) + self.least).max(0.0)
    }

    /// Returns where the sum is least among the places that keep the volume, or among all where the normals cancel.
    fn best(&self) -> Way {
        let inverse = self.planes.inverse();
        let place = inverse.times(self.linear);
        let normal = self.planes.normal;
        if !(normal.dot(normal) > FACING * self.planes.total()) {
            return place;
        }
        let step = inverse.times(normal);
        let part = (self.volume - normal.dot(place)) / normal.dot(step);
        place.plus(step.times(part))
    }
}

/// Returns the planes around a vertex whose faces are a cycle.
fn planes_around(surface: &Surface, first: u32) -> Planes {
    let mut sum = ZERO;
    let mut h = first;
    for _ in 0..MOST_AROUND {
        sum.add(normal_of(&surface.corners(surface.face(h / 3))), 1.0);
        h = surface.turn(h);
        if h == first {
            break;
        }
    }
    sum
}

/// Returns the planes around a vertex, and finds them if they are not known: none around one that stays.
fn planes_of(surface: &Surface, known: &mut [Planes], v: u32) -> Planes {
    let first = surface.edge_at(v);
    if first == NONE || v as usize >= known.len() {
        return ZERO;
    }
    if known[v as usize].xx < 0.0 {
        known[v as usize] = planes_around(surface, first);
    }
    known[v as usize]
}

/// Returns the planes around both ends of an edge, the two faces at it once.
fn planes_at(surface: &Surface, known: &mut [Planes], edge: u32, d: Way) -> Both {
    let (u, v) = (surface.from(edge), surface.to(edge));
    let far = planes_of(surface, known, v);
    let mut planes = planes_of(surface, known, u).plus(far);
    if surface.is_free(v) {
        let other = surface.twin(edge);
        planes.add(normal_of(&surface.corners(surface.face(edge / 3))), -1.0);
        planes.add(normal_of(&surface.corners(surface.face(other / 3))), -1.0);
    }
    let linear = far.times(d);
    let mut both = Both {
        planes,
        linear,
        least: d.dot(linear),
        volume: far.normal.dot(d),
    };
    both.add_ends(d);
    both
}

/// Returns a sum of coordinates, rounded.
fn rounded(x: i32, step: f64) -> i64 {
    saturating_f64_to_i64((f64::from(x) + step + 0.5).floor())
}

/// Returns the point of the box that is nearest to a place as seen from a point.
fn nearest_point(from: Point, step: Way) -> Option<Point> {
    Point::in_box(
        rounded(from.x(), step.x),
        rounded(from.y(), step.y),
        rounded(from.z(), step.z),
    )
}

/// Returns where the vertex that stays is best, unless that is farther from the middle of the edge than its ends are from each other.
fn best_point(both: &Both, from: Point, d: Way) -> Option<Point> {
    let step = both.best();
    let off = between(d.times(0.5), step);
    if !(off.dot(off) <= d.dot(d)) {
        return None;
    }
    nearest_point(from, step)
}

/// Returns what a collapse costs, and where the vertex that stays goes.
pub(crate) fn placed(surface: &Surface, known: &mut [Planes], edge: u32) -> Candidate {
    let (u, v) = (surface.from(edge), surface.to(edge));
    let start = surface.spot_at(u);
    let d = between(start, surface.spot_at(v));
    let both = planes_at(surface, known, edge, d);
    let stay = Candidate {
        cost: both.at(d),
        edge,
        place: None,
    };
    let Some(from) = surface.places.get(u as usize).copied() else {
        return stay;
    };
    if !surface.is_free(v) {
        return stay;
    }
    let Some(place) = best_point(&both, from, d) else {
        return stay;
    };
    let cost = both.at(between(start, spot(place)));
    if !(cost < stay.cost) {
        return stay;
    }
    Candidate {
        cost,
        edge,
        place: Some(place),
    }
}

/// Returns the cheapest collapse of a vertex that costs more than a given amount, if vertices move.
pub(crate) fn cheapest_placed(
    surface: &Surface,
    known: &mut [Planes],
    u: u32,
    above: f64,
) -> Option<Candidate> {
    let first = surface.edge_at(u);
    if first == NONE {
        return None;
    }
    let mut found: Option<Candidate> = None;
    let mut best = f64::INFINITY;
    let mut h = first;
    for _ in 0..MOST_AROUND {
        let candidate = placed(surface, known, h);
        if candidate.cost > above && candidate.cost < best {
            best = candidate.cost;
            found = Some(candidate);
        }
        h = surface.turn(h);
        if h == first {
            break;
        }
    }
    found
}
