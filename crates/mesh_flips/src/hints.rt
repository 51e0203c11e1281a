//! Hints for the choice of flips: opposite half edges, normals of faces, and the queue of edges. No clause depends on them, since a
//! flip reads the two faces themselves.

use crate::NoMemory;
use crate::falls::{Falls, fall};
use crate::quad::{Quad, quad_at, turned};
use crate::way::Way;
use geo_sign::Point;
use std::alloc::Global;
use std::collections::VecDeque;

/// Opposite half edges, normals of faces, and the queue of edges.
#[derive(Drop)]
pub(crate) struct Hints {
    pub(crate) twins: Vec<u32>,
    pub(crate) normals: Vec<Way>,
    /// The angle at each half edge times the edge's length; empty while the area is lowered.
    pub(crate) bends: Vec<f64>,
    pub(crate) waits: Vec<bool>,
    /// Whether a flip of the edge gained anything when it was last weighed. All that it depends on is weighed again after each flip.
    pub(crate) gains: Vec<bool>,
    pub(crate) queue: VecDeque<u32>,
    /// Edges by how much a flip lowers the area.
    pub(crate) falls: Falls,
    /// Faces near a quad, a list that is filled anew for each.
    pub(crate) found: Vec<usize>,
}

/// What a flip has to lower.
#[derive(Clone, Copy)]
pub(crate) enum Aim {
    /// The area of the two faces, if no edge of the four corners is longer than this.
    Area(f64),
    /// The sum of angle times length around the quad, by more than this part.
    Angle(f64),
}

impl Aim {
    /// Returns what a flip has to gain more than.
    pub(crate) fn least(self) -> f64 {
        match self {
            Aim::Area(_) => 0.0,
            Aim::Angle(least) => least,
        }
    }
}

/// What a flip would gain, and the normals of the new faces.
#[derive(Clone, Copy)]
pub(crate) struct Weighed {
    pub(crate) part: f64,
    pub(crate) left: Way,
    pub(crate) right: Way,
}

impl Weighed {
    pub(crate) const NONE: Weighed = Weighed {
        part: 0.0,
        left: Way::NONE,
        right: Way::NONE,
    };
}

/// Returns the next half edge of the face.
pub(crate) fn after(h: u32) -> u32 {
    if h % 3 == 2 {
        h - 2
    } else {
        h.saturating_add(1)
    }
}

/// Returns the previous half edge of the face.
pub(crate) fn before(h: u32) -> u32 {
    if h % 3 == 0 {
        h.saturating_add(2)
    } else {
        h - 1
    }
}

/// Returns a point, or the origin past the end.
pub(crate) fn place(points: &[Point], v: u32) -> Option<Point> {
    points.get(v as usize).copied()
}

/// Returns the vector from one point to another.
pub(crate) fn way(points: &[Point], from: u32, to: u32) -> Way {
    match (place(points, from), place(points, to)) {
        (Some(a), Some(b)) => Way::between(a, b),
        _ => Way::NONE,
    }
}

/// Returns the normal of a face, of length 1.
pub(crate) fn normal(points: &[Point], a: u32, b: u32, c: u32) -> Way {
    way(points, a, b).across(way(points, a, c)).unit()
}

impl Hints {
    /// Returns the opposite half edge.
    pub(crate) fn twin(&self, h: u32) -> u32 {
        self.twins.get(h as usize).copied().unwrap_or(h)
    }

    /// Returns the normal of the face of a half edge.
    pub(crate) fn normal_at(&self, h: u32) -> Way {
        self.normals
            .get((h / 3) as usize)
            .copied()
            .unwrap_or(Way::NONE)
    }

    fn join(&mut self, h: u32, far: u32) {
        if (h as usize) < self.twins.len() {
            self.twins[h as usize] = far;
        }
    }

    /// Makes two half edges opposites of each other.
    pub(crate) fn pair(&mut self, h: u32, far: u32) {
        self.join(h, far);
        self.join(far, h);
    }

    /// Returns the angle at a half edge times the edge's length.
    fn bend(&self, h: u32) -> f64 {
        self.bends.get(h as usize).copied().unwrap_or(0.0)
    }

    fn set_bend(&mut self, h: u32, bend: f64) {
        if (h as usize) < self.bends.len() {
            self.bends[h as usize] = bend;
        }
    }

    /// Computes the angle at an edge times its length, by one of its half edges.
    fn measure(&mut self, points: &[Point], faces: &[[u32; 3]], h: u32) {
        if let Some(face) = faces.get((h / 3) as usize) {
            let [from, to, _] = turned(*face, h % 3);
            let far = self.twin(h);
            let angle = self.normal_at(h).angle(self.normal_at(far));
            let bend = angle * way(points, from, to).length();
            self.set_bend(h, bend);
            self.set_bend(far, bend);
        }
    }

    /// Computes the angles at all edges times their lengths.
    pub(crate) fn measure_all(
        &mut self,
        alloc: Global,
        points: &[Point],
        faces: &[[u32; 3]],
    ) -> Result<(), NoMemory> {
        self.bends = vec![in alloc; 0.0; self.twins.len()]?;
        for h in 0..self.twins.len().min(u32::MAX as usize) {
            let h = h as u32;
            if h <= self.twin(h) {
                self.measure(points, faces, h);
            }
        }
        Ok(())
    }

    /// Computes the angles at the edges of two faces with a common edge times their lengths.
    fn measure_around(&mut self, points: &[Point], faces: &[[u32; 3]], one: u32, other: u32) {
        if self.bends.is_empty() {
            return;
        }
        self.measure(points, faces, one);
        self.measure(points, faces, one.saturating_add(1));
        self.measure(points, faces, one.saturating_add(2));
        self.measure(points, faces, other);
        self.measure(points, faces, other.saturating_add(1));
    }

    pub(crate) fn look(&mut self, face: u32, normal: Way) {
        if (face as usize) < self.normals.len() {
            self.normals[face as usize] = normal;
        }
    }

    /// Appends an edge to the queue, unless it is in it.
    pub(crate) fn wait(&mut self, h: u32) -> Result<(), NoMemory> {
        let h = h.min(self.twin(h));
        if (h as usize) < self.waits.len() && !self.waits[h as usize] {
            self.queue.push_back(h)?;
            self.waits[h as usize] = true;
        }
        Ok(())
    }

    /// Removes and returns the first edge of the queue.
    pub(crate) fn next(&mut self) -> Option<u32> {
        let h = self.queue.pop_front()?;
        if (h as usize) < self.waits.len() {
            self.waits[h as usize] = false;
        }
        Some(h)
    }

    /// Returns what a flip of an edge would gain.
    pub(crate) fn weigh(&self, points: &[Point], edge: u32, quad: Quad, aim: Aim) -> Weighed {
        match aim {
            Aim::Area(longest) => fall(points, quad, longest),
            Aim::Angle(_) => gain(self, points, edge, self.twin(edge), quad),
        }
    }

    /// Notes whether a flip of an edge gains anything; the fall of areas is weighed each time.
    pub(crate) fn note(&mut self, h: u32, gain: f64, aim: Aim) {
        if matches!(aim, Aim::Angle(_)) && (h as usize) < self.gains.len() {
            self.gains[h as usize] = gain > 0.0;
        }
    }

    /// Appends an edge to the queue, if a flip of it gained anything when it was last weighed.
    fn wait_to_gain(&mut self, h: u32) -> Result<(), NoMemory> {
        if (h as usize) < self.gains.len() && self.gains[h as usize] {
            self.wait(h)?;
        }
        Ok(())
    }

    /// Appends those edges of a face to the queue that gained anything when they were last weighed.
    pub(crate) fn wait_again(&mut self, face: u32) -> Result<(), NoMemory> {
        let first = face.saturating_mul(3);
        self.wait_to_gain(first)?;
        self.wait_to_gain(first.saturating_add(1))?;
        self.wait_to_gain(first.saturating_add(2))
    }

    /// Weighs by how much a flip of an edge lowers the area, and appends the edge to the queue of that fall.
    pub(crate) fn put_by_fall(
        &mut self,
        points: &[Point],
        faces: &[[u32; 3]],
        edge: u32,
        longest: f64,
    ) -> Result<(), NoMemory> {
        match quad_at(faces, edge, self.twin(edge)) {
            Some(quad) => self.falls.put(edge, fall(points, quad, longest).part),
            None => Ok(()),
        }
    }

    /// Appends the edges of all faces to the queue.
    pub(crate) fn wait_for_all(&mut self, faces: usize) -> Result<(), NoMemory> {
        for face in 0..faces {
            self.wait_around(face.min(u32::MAX as usize) as u32)?;
        }
        Ok(())
    }

    /// Appends the three edges of a face to the queue.
    pub(crate) fn wait_around(&mut self, face: u32) -> Result<(), NoMemory> {
        let first = face.saturating_mul(3);
        self.wait(first)?;
        self.wait(first.saturating_add(1))?;
        self.wait(first.saturating_add(2))
    }

    /// Updates opposites, normals, angles and queue after the flip of the edge between two faces.
    pub(crate) fn turn(
        &mut self,
        points: &[Point],
        faces: &[[u32; 3]],
        edge: u32,
        twin: u32,
        weighed: Weighed,
    ) -> Result<(), NoMemory> {
        let (one, other) = (edge / 3, twin / 3);
        let (ca, ad) = (self.twin(before(edge)), self.twin(after(twin)));
        let (db, bc) = (self.twin(before(twin)), self.twin(after(edge)));
        let (one_side, other_side) = (one.saturating_mul(3), other.saturating_mul(3));
        self.pair(one_side, ad);
        self.pair(one_side.saturating_add(2), ca);
        self.pair(other_side, db);
        self.pair(other_side.saturating_add(1), bc);
        self.pair(one_side.saturating_add(1), other_side.saturating_add(2));
        self.look(one, weighed.left);
        self.look(other, weighed.right);
        self.measure_around(points, faces, one_side, other_side);
        self.wait_around(one)?;
        self.wait_around(other)?;
        self.wait_around(ca / 3)?;
        self.wait_around(ad / 3)?;
        self.wait_around(db / 3)?;
        self.wait_around(bc / 3)
    }
}

/// Returns the part by which a flip lowers the sum of angle times length over the five edges of a quad, or 0 if a new face would be
/// turned over.
pub(crate) fn gain(hints: &Hints, points: &[Point], edge: u32, twin: u32, quad: Quad) -> Weighed {
    let (Some(a), Some(b)) = (place(points, quad.a), place(points, quad.b)) else {
        return Weighed::NONE;
    };
    let (Some(c), Some(d)) = (place(points, quad.c), place(points, quad.d)) else {
        return Weighed::NONE;
    };
    let (ad, ac, db, dc) = (
        Way::between(a, d),
        Way::between(a, c),
        Way::between(d, b),
        Way::between(d, c),
    );
    let (left, right) = (ad.across(ac), db.across(dc));
    let both = left.plus(right);
    if left.dot(both) <= 0.0 || right.dot(both) <= 0.0 {
        return Weighed::NONE;
    }
    let (left, right) = (left.unit(), right.unit());
    let now = hints.bend(edge)
        + hints.bend(after(edge))
        + hints.bend(before(edge))
        + hints.bend(after(twin))
        + hints.bend(before(twin));
    // what is added to the sum is never negative, so it is left as soon as it shows that nothing is gained
    let then = left.angle(right) * dc.length();
    if then >= now {
        return Weighed::NONE;
    }
    let on_bc = hints.normal_at(hints.twin(after(edge)));
    let on_ca = hints.normal_at(hints.twin(before(edge)));
    let on_ad = hints.normal_at(hints.twin(after(twin)));
    let on_db = hints.normal_at(hints.twin(before(twin)));
    let then = then
        + right.angle(on_bc) * Way::between(b, c).length()
        + left.angle(on_ca) * ac.length();
    if then >= now {
        return Weighed::NONE;
    }
    let then = then + left.angle(on_ad) * ad.length() + right.angle(on_db) * db.length();
    let part = (now - then) / now;
    Weighed { part, left, right }
}

/// Returns hints for a mesh with these opposite half edges, with no edge in the queue.
pub(crate) fn hints_of(
    alloc: Global,
    points: &[Point],
    faces: &[[u32; 3]],
    twins: Vec<u32>,
) -> Result<Hints, NoMemory> {
    let mut normals = Vec::with_capacity(alloc, faces.len())?;
    for face in faces {
        let [a, b, c] = *face;
        normals.push(normal(points, a, b, c))?;
    }
    let waits = vec![in alloc; false; twins.len()]?;
    let gains = vec![in alloc; true; twins.len()]?;
    Ok(Hints {
        falls: Falls::new(alloc, twins.len())?,
        twins,
        normals,
        bends: Vec::new(alloc),
        waits,
        gains,
        queue: VecDeque::new(alloc),
        found: Vec::new(alloc),
    })
}
