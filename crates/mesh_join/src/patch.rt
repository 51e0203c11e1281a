//! Fills a circle of vertices by the triangles of the least area that add no edge which a face has already. No clause depends on it.
//!
//! The method is the minimum-weight triangulation of Barequet and Sharir (1995): the best triangles over an arc of the circle are one over
//! its ends and the best ones over the two arcs beside it. Time grows with the third power of the length, so a long circle is filled by
//! triangles from the vertex that is nearest to its middle.

use crate::NoMemory;
use crate::owners::edge_key;
use geo_sign::Point;
use std::alloc::Global;
use std::collections::HashSet;

/// The most vertices of a circle for which the best triangles are found.
const MOST: usize = 120;

/// What an edge costs that a face has already: more than all triangles over a circle.
const TAKEN: f64 = 1.0e17;

/// A vector in floating point.
#[derive(Clone, Copy)]
struct Step {
    x: f64,
    y: f64,
    z: f64,
}

impl Step {
    fn between(p: Point, q: Point) -> Step {
        Step {
            x: f64::from(q.x()) - f64::from(p.x()),
            y: f64::from(q.y()) - f64::from(p.y()),
            z: f64::from(q.z()) - f64::from(p.z()),
        }
    }

    fn across(self, other: Step) -> Step {
        Step {
            x: self.y * other.z - self.z * other.y,
            y: self.z * other.x - self.x * other.z,
            z: self.x * other.y - self.y * other.x,
        }
    }

    fn square(self) -> f64 {
        self.x * self.x + self.y * self.y + self.z * self.z
    }
}

/// A circle of vertices, and the best triangles over its arcs: the cost over the arc from `i` to `j`, and the third vertex of the triangle
/// over its ends, at `i * circle.len() + j`.
#[derive(Drop)]
struct Circle<'a> {
    circle: &'a [u32],
    places: &'a [Point],
    taken: &'a HashSet<u64>,
    costs: Vec<f64>,
    tops: Vec<usize>,
}

impl<'a> Circle<'a> {
    fn place(&self, i: usize) -> Option<Point> {
        let vertex = self.circle.get(i)?;
        let place = self.places.get(*vertex as usize)?;
        Some(*place)
    }

    fn slot(&self, i: usize, j: usize) -> usize {
        i.saturating_mul(self.circle.len()).saturating_add(j)
    }

    /// Returns the cost of an edge inside the circle: its length, and more if a face has it.
    fn edge_cost(&self, i: usize, j: usize) -> f64 {
        let (Some(p), Some(q)) = (self.place(i), self.place(j)) else {
            return TAKEN;
        };
        let (Some(u), Some(v)) = (self.circle.get(i), self.circle.get(j)) else {
            return TAKEN;
        };
        let length = Step::between(p, q).square().sqrt();
        if self.taken.contains(&edge_key(*u, *v)) {
            TAKEN + length
        } else {
            length
        }
    }

    fn area(&self, i: usize, k: usize, j: usize) -> f64 {
        let (Some(p), Some(q), Some(r)) = (self.place(i), self.place(k), self.place(j)) else {
            return TAKEN;
        };
        let doubled = Step::between(p, q).across(Step::between(p, r));
        doubled.square().sqrt() / 2.0
    }

    fn cost(&self, i: usize, j: usize) -> f64 {
        match self.costs.get(self.slot(i, j)) {
            Some(cost) => *cost,
            None => TAKEN,
        }
    }

    /// Finds the best triangles over an arc.
    fn find(&mut self, i: usize, j: usize) {
        let (mut least, mut top) = (f64::INFINITY, i);
        for k in i.saturating_add(1)..j {
            let cost = self.cost(i, k) + self.cost(k, j) + self.area(i, k, j);
            if cost < least {
                least = cost;
                top = k;
            }
        }
        let edge = self.edge_cost(i, j);
        let slot = self.slot(i, j);
        if slot < self.costs.len() && slot < self.tops.len() {
            self.costs[slot] = least + edge;
            self.tops[slot] = top;
        }
    }

    /// Finds the best triangles over all arcs of a length.
    fn find_all(&mut self, length: usize) {
        for i in 0..self.circle.len().saturating_sub(length) {
            self.find(i, i.saturating_add(length));
        }
    }

    /// Returns the third vertex of the best triangle over the ends of an arc, if the arc has more than an edge.
    fn top(&self, i: usize, j: usize) -> Option<usize> {
        let top = *self.tops.get(self.slot(i, j))?;
        if i < top && top < j { Some(top) } else { None }
    }
}

pub(crate) fn turned(a: u32, b: u32, c: u32) -> [u32; 3] {
    if a < b && a < c {
        [a, b, c]
    } else if b < a && b < c {
        [b, c, a]
    } else {
        [c, a, b]
    }
}

/// Returns the best triangles over a circle.
fn best(
    alloc: Global,
    places: &[Point],
    taken: &HashSet<u64>,
    circle: &[u32],
) -> Result<Vec<[u32; 3]>, NoMemory> {
    let slots = circle.len().saturating_mul(circle.len());
    let mut arcs = Circle {
        circle,
        places,
        taken,
        costs: vec![in alloc; 0.0f64; slots]?,
        tops: vec![in alloc; 0usize; slots]?,
    };
    for length in 2..circle.len() {
        arcs.find_all(length);
    }
    triangles(alloc, &arcs)
}

/// Returns the triangles that were found.
fn triangles(alloc: Global, arcs: &Circle) -> Result<Vec<[u32; 3]>, NoMemory> {
    let mut list = Vec::new(alloc);
    let mut open = Vec::new(alloc);
    open.push((0usize, arcs.circle.len().saturating_sub(1)))?;
    for _ in 0..arcs.circle.len().saturating_mul(2) {
        let Some((i, j)) = open.pop() else {
            return Ok(list);
        };
        if let Some(k) = arcs.top(i, j) {
            if let (Some(a), Some(b), Some(c)) = (
                arcs.circle.get(i),
                arcs.circle.get(k),
                arcs.circle.get(j),
            ) {
                list.push(turned(*a, *b, *c))?;
            }
            open.push((i, k))?;
            open.push((k, j))?;
        }
    }
    Ok(list)
}

/// Returns the middle of a circle's vertices, seen from the origin.
fn middle_of(places: &[Point], circle: &[u32]) -> Step {
    let mut sum = Step {
        x: 0.0,
        y: 0.0,
        z: 0.0,
    };
    let mut count = 0.0f64;
    for vertex in circle {
        if let Some(p) = places.get(*vertex as usize) {
            sum.x += f64::from(p.x());
            sum.y += f64::from(p.y());
            sum.z += f64::from(p.z());
            count += 1.0;
        }
    }
    Step {
        x: sum.x / count,
        y: sum.y / count,
        z: sum.z / count,
    }
}

/// Returns the index of the vertex that is nearest to the middle of a circle.
fn nearest_to_middle(places: &[Point], circle: &[u32]) -> usize {
    let middle = middle_of(places, circle);
    let (mut least, mut index) = (f64::INFINITY, 0usize);
    for (at, vertex) in circle.iter().enumerate() {
        if let Some(p) = places.get(*vertex as usize) {
            let way = Step {
                x: f64::from(p.x()) - middle.x,
                y: f64::from(p.y()) - middle.y,
                z: f64::from(p.z()) - middle.z,
            };
            if way.square() < least {
                least = way.square();
                index = at;
            }
        }
    }
    index
}

/// Returns a vertex of a circle, by its index after another one.
fn vertex_after(circle: &[u32], start: usize, step: usize) -> Option<u32> {
    let at = start.saturating_add(step);
    let vertex = if at < circle.len() {
        circle.get(at)?
    } else {
        circle.get(at.saturating_sub(circle.len()))?
    };
    Some(*vertex)
}

/// Returns triangles from the vertex of a circle that is nearest to its middle.
fn fan(alloc: Global, places: &[Point], circle: &[u32]) -> Result<Vec<[u32; 3]>, NoMemory> {
    let mut list = Vec::new(alloc);
    let apex = nearest_to_middle(places, circle);
    for step in 2..circle.len() {
        let (Some(a), Some(b), Some(c)) = (
            vertex_after(circle, apex, 0),
            vertex_after(circle, apex, step.saturating_sub(1)),
            vertex_after(circle, apex, step),
        ) else {
            return Ok(list);
        };
        list.push(turned(a, b, c))?;
    }
    Ok(list)
}

/// Returns triangles that fill a circle.
pub(crate) fn patch(
    alloc: Global,
    places: &[Point],
    taken: &HashSet<u64>,
    circle: &[u32],
) -> Result<Vec<[u32; 3]>, NoMemory> {
    if circle.len() <= MOST {
        best(alloc, places, taken, circle)
    } else {
        fan(alloc, places, circle)
    }
}
