//! What a collapse costs: the squared distances of the place that is left to the planes of the faces around the vertex that goes, by area,
//! and a thousandth of those to the middles of these faces, so that flat regions have an order too. This is for vertices that stay where
//! they are given; `planes` is for those that move.

use crate::fans::MOST_AROUND;
use crate::numbers::NONE;
use crate::surface::{Surface, between, normal_of};
use face_near::Corners;
use geo_sign::Point;
use mesh_flips::Way;

/// What the squared distance to the middle of a face counts.
const MIDDLE: f64 = 0.001;

/// A sum of squared distances as a function of a place.
#[derive(Clone, Copy)]
struct Quadric {
    xx: f64,
    xy: f64,
    xz: f64,
    yy: f64,
    yz: f64,
    zz: f64,
    linear: Way,
    least: f64,
}

const ZERO: Quadric = Quadric {
    xx: 0.0,
    xy: 0.0,
    xz: 0.0,
    yy: 0.0,
    yz: 0.0,
    zz: 0.0,
    linear: Way::NONE,
    least: 0.0,
};

impl Quadric {
    /// Adds the squared distance to the plane through a place with a normal of length 1.
    fn add_plane(&mut self, n: Way, p: Way, weight: f64) {
        let d = -n.dot(p);
        let (x, y, z) = (weight * n.x, weight * n.y, weight * n.z);
        self.xx += x * n.x;
        self.xy += x * n.y;
        self.xz += x * n.z;
        self.yy += y * n.y;
        self.yz += y * n.z;
        self.zz += z * n.z;
        self.linear = self.linear.plus(n.times(weight * d));
        self.least += weight * d * d;
    }

    /// Adds the squared distance to a place.
    fn add_place(&mut self, p: Way, weight: f64) {
        self.xx += weight;
        self.yy += weight;
        self.zz += weight;
        self.linear = self.linear.plus(p.times(-weight));
        self.least += weight * p.dot(p);
    }

    /// Returns the sum at a place.
    fn at(&self, p: Way) -> f64 {
        let x = self.xx * p.x + 2.0 * (self.xy * p.y + self.xz * p.z + self.linear.x);
        let y = self.yy * p.y + 2.0 * (self.yz * p.z + self.linear.y);
        let z = self.zz * p.z + 2.0 * self.linear.z;
        x * p.x + y * p.y + z * p.z + self.least
    }
}

/// Adds a face, by its corners.
fn add_face(sum: &mut Quadric, t: &Corners) {
    let normal = normal_of(t);
    let area = normal.length();
    if area > 0.0 {
        let middle = t.a.plus(t.b).plus(t.c).times(1.0 / 3.0);
        sum.add_plane(normal.times(1.0 / area), t.a, area);
        sum.add_place(middle, MIDDLE * area);
    }
}

/// Returns the corners of a face as seen from a place.
fn seen_from(p: Way, t: &Corners) -> Corners {
    Corners {
        a: between(p, t.a),
        b: between(p, t.b),
        c: between(p, t.c),
    }
}

/// Returns the sum for the faces around a vertex, as seen from its place.
fn quadric_around(surface: &Surface, place: Way, first: u32) -> Quadric {
    let mut sum = ZERO;
    let mut h = first;
    for _ in 0..MOST_AROUND {
        let t = surface.corners(surface.face(h / 3));
        add_face(&mut sum, &seen_from(place, &t));
        h = surface.turn(h);
        if h == first {
            break;
        }
    }
    sum
}

/// A collapse, and what it costs.
#[derive(Clone, Copy)]
pub(crate) struct Candidate {
    pub(crate) cost: f64,
    /// The half edge from the vertex that goes to the one that stays.
    pub(crate) edge: u32,
    /// Where the vertex that stays goes, if it moves.
    pub(crate) place: Option<Point>,
}

/// Returns the cheapest collapse of a vertex that costs more than a given amount.
pub(crate) fn cheapest(surface: &Surface, u: u32, above: f64) -> Option<Candidate> {
    let first = surface.edge_at(u);
    if first == NONE {
        return None;
    }
    let place = surface.spot_at(u);
    let sum = quadric_around(surface, place, first);
    let mut found: Option<Candidate> = None;
    let mut best = f64::INFINITY;
    let mut h = first;
    for _ in 0..MOST_AROUND {
        let cost = sum
            .at(between(place, surface.spot_at(surface.to(h))))
            .max(0.0);
        if cost > above && cost < best {
            best = cost;
            found = Some(Candidate {
                cost,
                edge: h,
                place: None,
            });
        }
        h = surface.turn(h);
        if h == first {
            break;
        }
    }
    found
}
