//! Flips that lower the area of two faces, the greatest fall first. Where no line of sight says that a cell is solid, the surface dives
//! into the object; a pit of this kind is closed by flips that lower the area, though each may raise the sum of angles. Hints: no clause
//! depends on them.

use crate::NoMemory;
use crate::hints::{Weighed, place};
use crate::quad::Quad;
use crate::way::Way;
use geo_sign::Point;
use std::alloc::Global;
use std::num::saturating_f64_to_i64;

/// How many levels there are: falls of one level differ by less than a factor of 2.
const LEVELS: usize = 64;

/// The level of an edge that waits in no queue.
const NOWHERE: u8 = 255;

/// Into how many parts a unit of length or area is divided.
const PARTS: f64 = 256.0;

/// How many faces are looked at for the median side of a face.
const SAMPLE: usize = 65_536;

/// How many median sides an edge may have where the area is lowered. Longer edges are those of faces that nothing was measured in.
const SIDES: f64 = 8.0;

/// Edges in queues by the fall of the area, the greatest fall first.
#[derive(Drop)]
pub(crate) struct Falls {
    queues: Vec<Vec<u32>>,
    levels: Vec<u8>,
    first: usize,
}

/// An edge, and the level of the queue that it was in.
#[derive(Clone, Copy)]
pub(crate) struct Fallen {
    pub(crate) edge: u32,
    level: u8,
}

/// Returns the level of a fall.
fn level_of(fall: f64) -> u8 {
    let zeros = saturating_f64_to_i64(fall * PARTS).leading_zeros();
    zeros.min(63) as u8
}

impl Falls {
    /// Returns empty queues for this many half edges.
    pub(crate) fn new(alloc: Global, count: usize) -> Result<Falls, NoMemory> {
        let mut queues = Vec::with_capacity(alloc, LEVELS)?;
        for _ in 0..LEVELS {
            queues.push(Vec::new(alloc))?;
        }
        let levels = vec![in alloc; NOWHERE; count]?;
        Ok(Falls {
            queues,
            levels,
            first: LEVELS,
        })
    }

    fn set(&mut self, edge: u32, level: u8) {
        if (edge as usize) < self.levels.len() {
            self.levels[edge as usize] = level;
        }
    }

    fn level(&self, edge: u32) -> u8 {
        self.levels.get(edge as usize).copied().unwrap_or(NOWHERE)
    }

    /// Appends an edge to the queue of its fall, unless it is there; without a fall it waits nowhere.
    pub(crate) fn put(&mut self, edge: u32, fall: f64) -> Result<(), NoMemory> {
        if fall <= 0.0 {
            self.set(edge, NOWHERE);
            return Ok(());
        }
        let level = level_of(fall);
        let at = level as usize;
        if self.level(edge) == level || at >= self.queues.len() {
            return Ok(());
        }
        self.queues[at].push(edge)?;
        self.set(edge, level);
        self.first = self.first.min(at);
        Ok(())
    }

    /// Removes and returns an edge with the greatest fall. It is to be left out unless [`is_due`](Falls::is_due).
    pub(crate) fn next(&mut self) -> Option<Fallen> {
        for level in self.first.min(LEVELS)..self.queues.len().min(LEVELS) {
            if let Some(edge) = self.queues[level].pop() {
                self.first = level;
                let level = level as u8;
                return Some(Fallen { edge, level });
            }
        }
        None
    }

    /// Returns whether an edge waited at this level, and not at another since; then it waits nowhere.
    pub(crate) fn is_due(&mut self, fallen: Fallen) -> bool {
        let is_due = self.level(fallen.edge) == fallen.level;
        if is_due {
            self.set(fallen.edge, NOWHERE);
        }
        is_due
    }
}

/// Returns the length of the longest edge of the four corners.
fn longest_edge(a: Point, b: Point, c: Point, d: Point) -> f64 {
    let one = Way::between(a, b).length().max(Way::between(b, c).length());
    let two = Way::between(c, a).length().max(Way::between(a, d).length());
    let three = Way::between(d, b).length().max(Way::between(d, c).length());
    one.max(two).max(three)
}

/// Returns by how much a flip lowers twice the area, or 0 if a new face would be turned over or an edge is too long.
pub(crate) fn fall(points: &[Point], quad: Quad, longest: f64) -> Weighed {
    let (Some(a), Some(b)) = (place(points, quad.a), place(points, quad.b)) else {
        return Weighed::NONE;
    };
    let (Some(c), Some(d)) = (place(points, quad.c), place(points, quad.d)) else {
        return Weighed::NONE;
    };
    let (ad, ac, ab) = (Way::between(a, d), Way::between(a, c), Way::between(a, b));
    let (left, right) = (ad.across(ac), Way::between(d, b).across(Way::between(d, c)));
    let both = left.plus(right);
    let is_turned = left.dot(both) <= 0.0 || right.dot(both) <= 0.0;
    if is_turned || longest_edge(a, b, c, d) > longest {
        return Weighed::NONE;
    }
    let now = ab.across(ac).length() + ab.across(ad).length();
    let part = now - left.length() - right.length();
    let (left, right) = (left.unit(), right.unit());
    Weighed { part, left, right }
}

/// Returns the length of the first side of a face in parts of a unit, rounded down.
fn first_side(points: &[Point], face: [u32; 3]) -> u32 {
    let [a, b, _] = face;
    match (place(points, a), place(points, b)) {
        (Some(a), Some(b)) => {
            let parts = saturating_f64_to_i64(Way::between(a, b).length() * PARTS);
            parts.clamp(0, i64::from(u32::MAX)) as u32
        }
        _ => 0,
    }
}

/// Returns the length up to which edges take part where the area is lowered: 8 median sides, of a sample of the faces.
pub(crate) fn longest_side(
    alloc: Global,
    points: &[Point],
    faces: &[[u32; 3]],
) -> Result<f64, NoMemory> {
    let mut sides = Vec::with_capacity(alloc, faces.len().min(SAMPLE))?;
    let step = faces.len() / SAMPLE + 1;
    for k in 0..faces.len().min(SAMPLE) {
        if let Some(face) = faces.get(k.saturating_mul(step)) {
            sides.push(first_side(points, *face))?;
        }
    }
    sides.sort_unstable();
    let middle = sides.get(sides.len() / 2).copied().unwrap_or(0);
    Ok(SIDES * f64::from(middle) / PARTS)
}
