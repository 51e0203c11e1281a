//! Repeats the collapses of an earlier search, and tests them again only where faces have to stay nearer than then.
//!
//! A vertex is strange if faces have to stay nearer to it than to most, or if a collapse of it or to it is not made again. Faces without
//! strange vertices are as they were in the earlier search, so a collapse that meets only these is made without tests.

use crate::NoMemory;
use crate::collapse::{Work, try_edge};
use crate::costs::Candidate;
use crate::fan::Fan;
use crate::fans::MOST_AROUND;
use crate::numbers::{NONE, number_at, put};
use crate::order::short;
use crate::pack::{is_sparse, pack};
use crate::surface::Surface;
use geo_sign::Point;
use std::alloc::Global;

/// A collapse that was made, by the numbers of its ends along the curve.
#[derive(Clone, Copy)]
pub(crate) struct Step {
    pub(crate) from: u32,
    pub(crate) to: u32,
    /// Where the vertex that stays is then.
    pub(crate) place: Point,
}

/// The collapses that a search made, in their order, and what it knew at its end.
#[derive(Drop)]
pub struct History {
    steps: Vec<Step>,
    /// For each given vertex along the curve up to which cost collapses have failed.
    floors: Vec<f64>,
    /// Whether vertices were moved at the end.
    places: bool,
}

/// What a search notes of its collapses.
#[derive(Drop)]
pub(crate) struct Notes {
    pub(crate) steps: Vec<Step>,
    /// Whether collapses are noted at all.
    pub(crate) keeps: bool,
    /// Whether the collapses of an earlier search are repeated.
    pub(crate) repeats: bool,
    /// For each given vertex along the curve whether it is strange; none without an earlier search.
    pub(crate) strange: Vec<bool>,
}

impl History {
    /// Returns the history of no search.
    pub fn none(alloc: Global) -> History {
        History {
            steps: Vec::new(alloc),
            floors: Vec::new(alloc),
            places: false,
        }
    }

    /// Returns whether there was no collapse.
    pub fn is_empty(&self) -> bool {
        self.steps.is_empty()
    }
}

impl Notes {
    /// Returns notes without collapses.
    pub(crate) fn empty(alloc: Global, keeps: bool) -> Notes {
        Notes {
            steps: Vec::new(alloc),
            keeps,
            repeats: false,
            strange: Vec::new(alloc),
        }
    }

    /// Returns whether a given vertex is strange.
    fn is_strange(&self, origin: u32) -> bool {
        self.strange.get(origin as usize).copied().unwrap_or(false)
    }

    /// Notes that a given vertex is strange.
    fn note_strange(&mut self, origin: u32) {
        if (origin as usize) < self.strange.len() {
            self.strange[origin as usize] = true;
        }
    }

    /// Returns whether half edges end at vertices that are not strange.
    fn are_familiar(&self, surface: &Surface, edges: &[u32]) -> bool {
        for h in edges {
            if self.is_strange(number_at(&surface.origin, surface.to(*h))) {
                return false;
            }
        }
        true
    }

    /// Returns whether the faces around the ends of an edge are as they were when the earlier search collapsed it.
    pub(crate) fn is_known(&self, surface: &Surface, fan: &Fan) -> bool {
        self.repeats
            && self.are_familiar(surface, &fan.ring)
            && self.are_familiar(surface, &fan.star)
    }

    /// Notes a collapse.
    pub(crate) fn note(&mut self, step: Step) -> Result<(), NoMemory> {
        if self.keeps {
            self.steps.push(step)?;
        }
        Ok(())
    }
}

/// Returns the half edge between two vertices, if the first may collapse.
fn edge_between(surface: &Surface, u: u32, v: u32) -> u32 {
    let first = surface.edge_at(u);
    let mut h = first;
    for _ in 0..MOST_AROUND {
        if h == NONE || surface.to(h) == v {
            return h;
        }
        h = surface.turn(h);
        if h == first {
            return NONE;
        }
    }
    NONE
}

/// Returns the number of each given vertex that is left.
fn numbers_of(alloc: Global, work: &Work) -> Result<Vec<u32>, NoMemory> {
    let mut numbers = vec![in alloc; NONE; work.vertices.len()]?;
    for (v, origin) in work.surface.origin.iter().enumerate() {
        put(&mut numbers, *origin, short(v));
    }
    Ok(numbers)
}

/// Makes a collapse again, if it may be made, and returns whether that is so.
fn make_again(
    work: &mut Work,
    fan: &mut Fan,
    numbers: &[u32],
    step: Step,
) -> Result<bool, NoMemory> {
    let (u, v) = (number_at(numbers, step.from), number_at(numbers, step.to));
    let edge = edge_between(&work.surface, u, v);
    if edge == NONE {
        return Ok(false);
    }
    let candidate = Candidate {
        cost: 0.0,
        edge,
        place: Some(step.place),
    };
    try_edge(work, fan, candidate)
}

/// Makes all collapses again that may be made.
fn make_all(alloc: Global, work: &mut Work, fan: &mut Fan, steps: &[Step]) -> Result<(), NoMemory> {
    let mut numbers = numbers_of(alloc, work)?;
    for step in steps {
        if !make_again(work, fan, &numbers, *step)? {
            work.notes.note_strange(step.from);
            work.notes.note_strange(step.to);
        }
        if is_sparse(work) {
            pack(alloc, work)?;
            numbers = numbers_of(alloc, work)?;
        }
    }
    Ok(())
}

/// Returns whether no strange vertex is at a vertex that may collapse, or beside it.
fn is_familiar(work: &Work, v: u32) -> bool {
    let first = work.surface.edge_at(v);
    if first == NONE || work.notes.is_strange(number_at(&work.surface.origin, v)) {
        return false;
    }
    let mut h = first;
    for _ in 0..MOST_AROUND {
        let w = work.surface.to(h);
        if work.notes.is_strange(number_at(&work.surface.origin, w)) {
            return false;
        }
        h = work.surface.turn(h);
        if h == first {
            return true;
        }
    }
    false
}

/// Takes what the earlier search knew of vertices around which all is as it was.
fn take_floors(work: &mut Work, history: &History) {
    for v in 0..work.floors.len() {
        let origin = number_at(&work.surface.origin, short(v)) as usize;
        if is_familiar(work, short(v)) {
            work.floors[v] = history.floors.get(origin).copied().unwrap_or(-1.0);
        }
    }
}

/// Returns for each given vertex whether faces have to stay nearer to it than to most.
fn strict_vertices(alloc: Global, work: &Work) -> Result<Vec<bool>, NoMemory> {
    let mut list = Vec::with_capacity(alloc, work.vertices.len())?;
    for v in 0..work.vertices.len() {
        list.push(work.lists.given.is_strict(short(v)))?;
    }
    Ok(list)
}

/// Repeats an earlier search on the same mesh, if there is one.
pub(crate) fn repeat(
    alloc: Global,
    work: &mut Work,
    fan: &mut Fan,
    history: &History,
) -> Result<(), NoMemory> {
    if history.is_empty() {
        return Ok(());
    }
    work.notes.strange = strict_vertices(alloc, work)?;
    work.notes.repeats = true;
    make_all(alloc, work, fan, &history.steps)?;
    work.notes.repeats = false;
    pack(alloc, work)?;
    work.places = history.places;
    take_floors(work, history);
    Ok(())
}

/// Returns the history of a search that has ended.
pub(crate) fn history_of(alloc: Global, work: &mut Work) -> Result<History, NoMemory> {
    let count = if work.notes.keeps {
        work.vertices.len()
    } else {
        0
    };
    let mut floors = vec![in alloc; -1.0; count]?;
    for (v, origin) in work.surface.origin.iter().enumerate() {
        let i = *origin as usize;
        if i < floors.len() {
            floors[i] = work.floors.get(v).copied().unwrap_or(-1.0);
        }
    }
    let mut steps = Vec::new(alloc);
    std::mem::swap(&mut steps, &mut work.notes.steps);
    Ok(History {
        steps,
        floors,
        places: work.places,
    })
}
