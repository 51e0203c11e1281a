//! The faces that are left, and how they are connected.

use crate::numbers::{GONE, NONE, after, before, number_at};
use face_near::{Corners, spot};
use geo_sign::Point;
use mesh_flips::Way;
use triangles::Hull;

/// Vertices and faces. A vertex or a face that is gone stays in the lists until they are packed.
#[derive(Drop)]
pub(crate) struct Surface {
    pub(crate) places: Vec<Point>,
    pub(crate) faces: Vec<[u32; 3]>,
    pub(crate) twins: Vec<u32>,
    /// A half edge that begins at the vertex; none if it is gone or stays.
    pub(crate) edge_of: Vec<u32>,
    /// The number of the vertex at the start, along the curve.
    pub(crate) origin: Vec<u32>,
    /// The number of the face at the start.
    pub(crate) source: Vec<u32>,
    /// How many faces are left.
    pub(crate) live: usize,
}

impl Surface {
    /// Returns a face.
    pub(crate) fn face(&self, f: u32) -> [u32; 3] {
        match self.faces.get(f as usize) {
            Some(face) => *face,
            None => GONE,
        }
    }

    /// Returns the vertex at which a half edge begins.
    pub(crate) fn from(&self, h: u32) -> u32 {
        self.face(h / 3)[(h % 3) as usize]
    }

    /// Returns the vertex at which a half edge ends.
    pub(crate) fn to(&self, h: u32) -> u32 {
        self.from(after(h))
    }

    /// Returns the opposite half edge.
    pub(crate) fn twin(&self, h: u32) -> u32 {
        number_at(&self.twins, h)
    }

    /// Returns the next half edge around the vertex at which one begins.
    pub(crate) fn turn(&self, h: u32) -> u32 {
        self.twin(before(h))
    }

    /// Returns a half edge that begins at a vertex that may collapse.
    pub(crate) fn edge_at(&self, v: u32) -> u32 {
        number_at(&self.edge_of, v)
    }

    /// Returns the place of a vertex, the origin past the end.
    pub(crate) fn spot_at(&self, v: u32) -> Way {
        spot_among(&self.places, v)
    }

    /// Returns the places of a face's corners.
    pub(crate) fn corners(&self, face: [u32; 3]) -> Corners {
        corners_among(&self.places, face)
    }

    /// Returns the smallest box that contains a face, empty if it is gone.
    pub(crate) fn hull(&self, face: [u32; 3]) -> Hull {
        hull_among(&self.places, face)
    }

    /// Moves a vertex to a place, if there is one, and returns where it was if that is elsewhere.
    pub(crate) fn move_to(&mut self, v: u32, place: Option<Point>) -> Option<Point> {
        let place = place?;
        let was = self.places.get(v as usize).copied()?;
        if was == place {
            return None;
        }
        if (v as usize) < self.places.len() {
            self.places[v as usize] = place;
        }
        Some(was)
    }

    /// Returns whether a vertex may collapse.
    pub(crate) fn is_free(&self, v: u32) -> bool {
        self.edge_at(v) != NONE
    }
}

/// Returns the place of a vertex, the origin past the end.
fn spot_among(points: &[Point], v: u32) -> Way {
    match points.get(v as usize) {
        Some(p) => spot(*p),
        None => Way::NONE,
    }
}

/// Returns the places of the corners of a face.
pub(crate) fn corners_among(points: &[Point], face: [u32; 3]) -> Corners {
    let [a, b, c] = face;
    Corners {
        a: spot_among(points, a),
        b: spot_among(points, b),
        c: spot_among(points, c),
    }
}

/// Returns the smallest box that contains a face, empty if it is gone.
pub(crate) fn hull_among(points: &[Point], face: [u32; 3]) -> Hull {
    let [a, b, c] = face;
    match (
        points.get(a as usize),
        points.get(b as usize),
        points.get(c as usize),
    ) {
        (Some(p), Some(q), Some(r)) => Hull::of_points(*p, *q, *r),
        _ => Hull::empty(),
    }
}

/// Returns the vector from one place to another.
pub(crate) fn between(a: Way, b: Way) -> Way {
    Way {
        x: b.x - a.x,
        y: b.y - a.y,
        z: b.z - a.z,
    }
}

/// Returns a normal of a triangle, twice its area long.
pub(crate) fn normal_of(t: &Corners) -> Way {
    between(t.a, t.b).across(between(t.a, t.c))
}
