//! The given mesh, and its places that have to stay near the faces: its vertices, and on faces whose vertices have to stay nearer than
//! others three on each edge and the middle too.
//!
//! Of `V` vertices and `F` faces, place `v` is vertex `v`, place `V + 3 h + k` is on half edge `h`, and place `V + 9 F + f` is the middle of
//! face `f`.

use crate::NoMemory;
use crate::boxes::{Boxes, LEAF};
use crate::numbers::{GONE, after, number_at};
use crate::order::short;
use crate::surface::{between, corners_among};
use face_near::{Corners, nearest_on};
use geo_sign::Point;
use mesh_flips::Way;
use std::alloc::Global;
use std::num::saturating_f64_to_i64;
use triangles::{Hull, Span};

/// The given mesh along the curve.
#[derive(Drop)]
pub(crate) struct Given {
    pub(crate) points: Vec<Point>,
    /// The faces; none if all vertices have to stay equally near.
    pub(crate) faces: Vec<[u32; 3]>,
    /// For each vertex how near faces have to stay to it, and to the faces around it.
    pub(crate) limits: Vec<u32>,
    /// How near faces have to stay to most vertices.
    pub(crate) within: f64,
    boxes: Boxes,
}

/// A place, and how near a face has to stay to it.
#[derive(Clone, Copy)]
pub(crate) struct Probe {
    pub(crate) at: Way,
    pub(crate) limit: f64,
}

/// How many places are on an edge.
pub(crate) const ON_EDGE: u32 = 3;

/// Returns the middle of a triangle.
pub(crate) fn middle_of(t: &Corners) -> Way {
    t.a.plus(t.b).plus(t.c).times(1.0 / 3.0)
}

/// Returns a number as a coordinate, the nearest one if it does not fit.
fn coordinate(x: f64) -> i32 {
    saturating_f64_to_i64(x)
        .max(i64::from(i32::MIN))
        .min(i64::from(i32::MAX)) as i32
}

/// Returns the coordinates within a distance of one.
fn span_around(x: f64, reach: f64) -> Span {
    Span {
        low: coordinate(x - reach),
        high: coordinate(x + reach),
    }
}

/// Returns a box around all that is within a distance of a place.
fn hull_around(p: Way, reach: f64) -> Hull {
    Hull {
        x: span_around(p.x, reach + 1.0),
        y: span_around(p.y, reach + 1.0),
        z: span_around(p.z, reach + 1.0),
    }
}

impl Given {
    /// Returns a given mesh, with its faces if some vertices have to stay nearer than others.
    pub(crate) fn of(
        alloc: Global,
        places: &[Point],
        faces: &[[u32; 3]],
        limits: Vec<u32>,
        within: u32,
    ) -> Result<Given, NoMemory> {
        let mut points = Vec::with_capacity(alloc, places.len())?;
        points.extend_from_slice(places)?;
        let mut own = Vec::with_capacity(alloc, faces.len())?;
        own.extend_from_slice(faces)?;
        Ok(Given {
            points,
            boxes: Boxes::of(alloc, places, &own)?,
            faces: own,
            limits,
            within: f64::from(within),
        })
    }

    /// Returns how near faces have to stay to a vertex.
    pub(crate) fn limit_at(&self, v: u32) -> f64 {
        match self.limits.get(v as usize) {
            Some(limit) => f64::from(*limit),
            None => 0.0,
        }
    }

    /// Returns how near they have to stay to a face.
    pub(crate) fn limit_on(&self, face: [u32; 3]) -> f64 {
        let [a, b, c] = face;
        self.limit_at(a).min(self.limit_at(b)).min(self.limit_at(c))
    }

    /// Returns whether faces have to stay nearer to a vertex than to most.
    pub(crate) fn is_strict(&self, v: u32) -> bool {
        self.limit_at(v) < self.within
    }

    /// Returns whether they have to stay nearer to a face.
    pub(crate) fn is_strict_on(&self, f: u32) -> bool {
        self.limit_on(self.face(f)) < self.within
    }

    /// Returns a face.
    fn face(&self, f: u32) -> [u32; 3] {
        self.faces.get(f as usize).copied().unwrap_or(GONE)
    }

    /// Returns how many places there are.
    pub(crate) fn count(&self) -> usize {
        self.points
            .len()
            .saturating_add(self.faces.len().saturating_mul(10))
    }

    /// Returns the number of the first place on a half edge.
    pub(crate) fn side(&self, h: u32) -> u32 {
        short(self.points.len()).saturating_add(h.saturating_mul(ON_EDGE))
    }

    /// Returns the number of the middle of a face.
    pub(crate) fn middle(&self, f: u32) -> u32 {
        self.side(short(self.faces.len()).saturating_mul(3))
            .saturating_add(f)
    }

    /// Returns the vertex at which a half edge begins.
    fn from(&self, h: u32) -> u32 {
        self.face(h / 3)[(h % 3) as usize]
    }

    /// Returns whether a half edge is the one of its edge whose places count.
    pub(crate) fn is_first(&self, h: u32) -> bool {
        self.from(h) < self.from(after(h))
    }

    /// Returns a place.
    pub(crate) fn probe(&self, number: u32) -> Probe {
        let (sides, middles) = (self.side(0), self.middle(0));
        if number < sides {
            return self.between([number, number, number], 0.0);
        }
        if number < middles {
            let (h, k) = ((number - sides) / ON_EDGE, (number - sides) % ON_EDGE);
            let (u, v) = (self.from(h), self.from(after(h)));
            return self.between([u, v, u], f64::from(k + 1) / f64::from(ON_EDGE + 1));
        }
        let face = self.face(number - middles);
        Probe {
            at: middle_of(&corners_among(&self.points, face)),
            limit: self.limit_on(face),
        }
    }

    /// Returns the place between the first two corners of a face, a part of the way.
    fn between(&self, face: [u32; 3], part: f64) -> Probe {
        let t = corners_among(&self.points, face);
        Probe {
            at: t.a.plus(between(t.a, t.b).times(part)),
            limit: self.limit_on(face),
        }
    }

    /// Returns whether a face of a leaf is within a distance of a place.
    fn is_near_leaf(&self, leaf: usize, p: Way, limit: f64) -> bool {
        let first = leaf.saturating_mul(LEAF);
        for k in 0..LEAF {
            let Some(face) = self.faces.get(first.saturating_add(k)) else {
                return false;
            };
            if nearest_on(p, &corners_among(&self.points, *face)).square <= limit * limit {
                return true;
            }
        }
        false
    }

    /// Returns whether some face is within a distance of a place.
    pub(crate) fn is_near(&self, p: Way, limit: f64) -> bool {
        let around = hull_around(p, limit);
        let mut cursor = self.boxes.top();
        for _ in 0..self.faces.len() {
            match self.boxes.next_leaf(around, &mut cursor) {
                Some(leaf) => {
                    if self.is_near_leaf(leaf, p, limit) {
                        return true;
                    }
                }
                None => return false,
            }
        }
        false
    }
}
