//! The search as a whole.

use crate::NoMemory;
use crate::boxes::Boxes;
use crate::clear::is_clear;
use crate::commit::commit;
use crate::costs::{Candidate, cheapest};
use crate::fan::Fan;
use crate::fans::find_fans;
use crate::given::Given;
use crate::homes::collapsed_of;
use crate::link::Marks;
use crate::numbers::{NONE, number_at, put};
use crate::order::{Ordered, along_curve, first_numbers};
use crate::over::are_over;
use crate::passes::make_passes;
use crate::planes::{Planes, UNKNOWN, cheapest_placed, placed};
use crate::reach::{Lists, keeps_points};
use crate::repeat::{History, Notes, Step, history_of, repeat};
use crate::shape::{Ends, has_shape};
use crate::surface::Surface;
use geo_sign::Point;
use mesh_edges::find_twins;
use std::alloc::Global;

/// What is asked for.
#[derive(Clone, Copy, Debug, PartialEq, Eq)]
pub struct Request {
    /// How far a given point may be from the nearest new face.
    pub within: u32,
    /// How many faces are left at least, if the given ones are that many.
    pub faces: u32,
    /// Whether vertices move to the places that suit the faces around them, or stay where they are given.
    pub moves: bool,
}

/// The faces that are left, and hints for tests.
#[derive(Drop)]
pub struct Collapsed {
    /// The faces, by the numbers of the given vertices.
    pub faces: Vec<[u32; 3]>,
    /// For each face the number of a given one, whose corners it may have.
    pub source: Vec<u32>,
    /// For each given vertex the index of a face that it may be near.
    pub homes: Vec<u32>,
    /// For each given vertex where it is, if it is left.
    pub places: Vec<Point>,
    /// How the search went, if limits are given.
    pub history: History,
}

/// All that a search works on.
#[derive(Drop)]
pub(crate) struct Work {
    pub(crate) surface: Surface,
    pub(crate) lists: Lists,
    pub(crate) boxes: Boxes,
    pub(crate) marks: Marks,
    /// What the cheapest collapse of each vertex costs; below 0 if that is not known.
    pub(crate) costs: Vec<f64>,
    /// The half edge of that collapse.
    pub(crate) cheapest: Vec<u32>,
    /// Up to which cost collapses of each vertex have failed.
    pub(crate) floors: Vec<f64>,
    /// The planes around each vertex, if vertices move.
    pub(crate) planes: Vec<Planes>,
    /// Whether vertices are moved now: if they move at all, when few faces are left.
    pub(crate) places: bool,
    /// The number of each given vertex along the curve.
    pub(crate) vertices: Vec<u32>,
    pub(crate) notes: Notes,
}

/// Returns whether a collapse may be made, where the vertex that stays is at its new place. One that an earlier search made is not tested
/// for what other faces have to do with it.
fn is_allowed(work: &mut Work, fan: &mut Fan, ends: &Ends) -> Result<bool, NoMemory> {
    let known = work.notes.is_known(&work.surface, fan);
    if !known && !work.marks.is_linked(&work.surface, &fan.ring, &fan.star) {
        return Ok(false);
    }
    fan.note_collapse(&work.surface)?;
    if !has_shape(&work.surface, fan, ends)? {
        return Ok(false);
    }
    if !keeps_points(&work.surface, &work.lists, fan, ends.u)? {
        return Ok(false);
    }
    if known {
        return Ok(true);
    }
    if !is_clear(&work.surface, &work.boxes, fan, ends.v) {
        return Ok(false);
    }
    Ok(are_over(&work.lists.given, &work.surface, fan, ends.v))
}

/// Carries out a collapse if it may be made, and returns whether it is done.
pub(crate) fn try_edge(
    work: &mut Work,
    fan: &mut Fan,
    candidate: Candidate,
) -> Result<bool, NoMemory> {
    if !fan.gather(&work.surface, candidate.edge)? {
        return Ok(false);
    }
    let v = work.surface.to(candidate.edge);
    let ends = Ends {
        u: work.surface.from(candidate.edge),
        v,
        was: work.surface.spot_at(v),
    };
    let was = work.surface.move_to(v, candidate.place);
    fan.moves = was.is_some();
    if !is_allowed(work, fan, &ends)? {
        let _ = work.surface.move_to(v, was);
        return Ok(false);
    }
    note_step(work, &ends)?;
    commit(work, fan, ends.u, v);
    Ok(true)
}

/// Notes a collapse that is made.
fn note_step(work: &mut Work, ends: &Ends) -> Result<(), NoMemory> {
    let Some(place) = work.surface.places.get(ends.v as usize).copied() else {
        return Ok(());
    };
    work.notes.note(Step {
        from: number_at(&work.surface.origin, ends.u),
        to: number_at(&work.surface.origin, ends.v),
        place,
    })
}

/// Returns the half edge of the cheapest collapse of a vertex whose cost is known.
pub(crate) fn cheapest_edge(work: &Work, u: u32) -> u32 {
    number_at(&work.cheapest, u)
}

/// Returns the cheapest collapse of a vertex whose cost is known.
pub(crate) fn cheapest_of(work: &mut Work, u: u32, cost: f64) -> Candidate {
    let edge = cheapest_edge(work, u);
    if work.places {
        placed(&work.surface, &mut work.planes, edge)
    } else {
        Candidate {
            cost,
            edge,
            place: None,
        }
    }
}

/// Finds the cheapest collapse of a vertex that costs more than a given amount.
fn find_cheapest(work: &mut Work, u: u32, above: f64) -> Option<Candidate> {
    if work.places {
        cheapest_placed(&work.surface, &mut work.planes, u, above)
    } else {
        cheapest(&work.surface, u, above)
    }
}

/// Returns the cost of the cheapest collapse of a vertex, infinite if there is none.
pub(crate) fn cost_of(work: &mut Work, u: u32) -> f64 {
    let known = work.costs.get(u as usize).copied().unwrap_or(f64::INFINITY);
    if known >= 0.0 {
        return known;
    }
    let floor = work.floors.get(u as usize).copied().unwrap_or(0.0);
    let (cost, edge) = match find_cheapest(work, u, floor) {
        Some(candidate) => (candidate.cost, candidate.edge),
        None => (f64::INFINITY, NONE),
    };
    if (u as usize) < work.costs.len() {
        work.costs[u as usize] = cost;
    }
    put(&mut work.cheapest, u, edge);
    cost
}

/// Returns the work on a mesh.
fn work_on(
    alloc: Global,
    ordered: Ordered,
    given: Given,
    moves: bool,
    keeps: bool,
) -> Result<Work, NoMemory> {
    let Ordered {
        vertices,
        places,
        faces,
        source,
    } = ordered;
    let twins = find_twins(alloc, &places, &faces)?;
    let (count, live) = (places.len(), faces.len());
    let origin = first_numbers(alloc, count)?;
    let mut surface = Surface {
        places,
        faces,
        twins,
        edge_of: Vec::new(alloc),
        origin,
        source,
        live,
    };
    find_fans(alloc, &mut surface)?;
    Ok(Work {
        lists: Lists::of(alloc, given, &surface, moves)?,
        boxes: Boxes::of(alloc, &surface.places, &surface.faces)?,
        marks: Marks {
            marks: vec![in alloc; 0; count]?,
            stamp: 0,
        },
        costs: vec![in alloc; -1.0; count]?,
        cheapest: vec![in alloc; NONE; count]?,
        floors: vec![in alloc; -1.0; count]?,
        planes: vec![in alloc; UNKNOWN; if moves { count } else { 0 }]?,
        places: false,
        vertices,
        notes: Notes::empty(alloc, keeps),
        surface,
    })
}

/// Returns the limits of vertices in their order, the same one for all if none are given.
fn limits_of(
    alloc: Global,
    vertices: &[u32],
    within: u32,
    limits: &[u32],
) -> Result<Vec<u32>, NoMemory> {
    let mut list = Vec::with_capacity(alloc, vertices.len())?;
    for v in vertices {
        list.push(limits.get(*v as usize).copied().unwrap_or(within))?;
    }
    Ok(list)
}

/// Returns the given mesh in its order, with its faces if some limits are less than the distance.
fn given_of(
    alloc: Global,
    ordered: &Ordered,
    within: u32,
    limits: &[u32],
) -> Result<Given, NoMemory> {
    let list = limits_of(alloc, &ordered.vertices, within, limits)?;
    let faces = if limits.iter().any(|limit| *limit < within) {
        &ordered.faces[..]
    } else {
        &[]
    };
    Given::of(alloc, &ordered.places, faces, list, within)
}

/// Collapses edges of a mesh while its given vertices stay within a distance of the faces, down to a number of faces. Around vertices whose
/// limits are less than the distance, points of the given faces and of the new ones are looked at too.
///
/// Nothing is promised of the result. The search makes some 30 passes over the vertices, each in the time of sorting them. It first repeats
/// an earlier search on the same mesh, if that has a history.
pub fn collapse_edges(
    alloc: Global,
    points: &[Point],
    faces: &[[u32; 3]],
    request: Request,
    limits: &[u32],
    history: &History,
) -> Result<Collapsed, NoMemory> {
    let ordered = along_curve(alloc, points, faces)?;
    let given = given_of(alloc, &ordered, request.within, limits)?;
    let mut work = work_on(alloc, ordered, given, request.moves, !limits.is_empty())?;
    let mut fan = Fan::empty(alloc);
    repeat(alloc, &mut work, &mut fan, history)?;
    make_passes(alloc, &mut work, &mut fan, request.faces as usize)?;
    let history = history_of(alloc, &mut work)?;
    collapsed_of(alloc, &work, points, history)
}
