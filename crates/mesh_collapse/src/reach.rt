//! Whether the given points around a collapse stay near a face.

use crate::NoMemory;
use crate::fan::{Fan, Moved};
use crate::given::{Given, ON_EDGE};
use crate::numbers::{NONE, number_at, put};
use crate::order::short;
use crate::surface::{Surface, between};
use face_near::{Corners, nearest_on};
use mesh_flips::Way;
use std::alloc::Global;

/// The given mesh, and for each face a list of its places that are near it. A vertex that is left is on no list, unless vertices move.
#[derive(Drop)]
pub(crate) struct Lists {
    pub(crate) given: Given,
    /// The first point of each face's list.
    pub(crate) head: Vec<u32>,
    /// The point after each one in its list.
    pub(crate) next: Vec<u32>,
    /// Whether each given vertex is on a list, since vertices move.
    pub(crate) moves: bool,
}

/// The nearest face of a point so far.
#[derive(Clone, Copy)]
struct Best {
    face: u32,
    square: f64,
    /// The distance up to which it counts as near.
    limit: f64,
}

/// What rounding to whole weights may add to a distance, for each unit of length of a face's sides.
const SLACK: f64 = 0.000002;

/// Returns the distance up to which a point counts as near a face, less what rounding may add.
fn limit_on(t: &Corners, within: f64) -> f64 {
    let (p, q) = (between(t.a, t.b), between(t.a, t.c));
    (within - SLACK * (p.length() + q.length())).max(0.0)
}

impl Best {
    /// Takes a face if it is nearer.
    fn improve(&mut self, p: Way, t: &Corners, face: u32, within: f64) {
        let square = nearest_on(p, t).square;
        if square < self.square {
            self.square = square;
            self.face = face;
            self.limit = limit_on(t, within);
        }
    }

    fn is_near(&self) -> bool {
        self.face != NONE && (self.square == 0.0 || self.square < self.limit * self.limit)
    }
}

/// Returns the nearest face of a point among those that change and those beside.
fn nearest_face(fan: &Fan, p: Way, within: f64) -> Best {
    let mut best = Best {
        face: NONE,
        square: f64::INFINITY,
        limit: 0.0,
    };
    for new in &fan.changed {
        best.improve(p, &new.spots, new.face, within);
    }
    improved_beside(fan, p, within, best)
}

/// Returns the nearest face of a point among this one and those beside.
fn improved_beside(fan: &Fan, p: Way, within: f64, best: Best) -> Best {
    let mut best = best;
    for other in &fan.beside {
        best.improve(p, &other.spots, other.face, within);
    }
    best
}

/// Finds a face that a point is near, and returns whether there is one.
fn place_point(lists: &Lists, fan: &mut Fan, point: u32) -> Result<bool, NoMemory> {
    let probe = lists.given.probe(point);
    fan.least = fan.least.min(probe.limit);
    let best = nearest_face(fan, probe.at, probe.limit);
    if !best.is_near() {
        return Ok(false);
    }
    fan.moved.push(Moved {
        point,
        face: best.face,
    })?;
    Ok(true)
}

/// Finds faces that the points of a face's list are near, and returns whether there is one for each.
fn place_list(lists: &Lists, fan: &mut Fan, face: u32) -> Result<bool, NoMemory> {
    let mut point = number_at(&lists.head, face);
    for _ in 0..lists.next.len() {
        if point == NONE {
            break;
        }
        if !place_point(lists, fan, point)? {
            return Ok(false);
        }
        point = number_at(&lists.next, point);
    }
    Ok(true)
}

/// Finds faces that the points of the lists of faces that change are near, and returns whether there is one for each.
fn place_staying(lists: &Lists, fan: &mut Fan) -> Result<bool, NoMemory> {
    for i in 0..fan.staying.len() {
        let h = fan.staying.get(i).copied().unwrap_or(NONE);
        if !place_list(lists, fan, h / 3)? {
            return Ok(false);
        }
    }
    Ok(true)
}

/// Finds faces that the points of the lists of faces that go are near, and returns whether there is one for each.
fn place_going(lists: &Lists, fan: &mut Fan) -> Result<bool, NoMemory> {
    for i in 0..fan.going.len() {
        let h = fan.going.get(i).copied().unwrap_or(NONE);
        if !place_list(lists, fan, h / 3)? {
            return Ok(false);
        }
    }
    Ok(true)
}

/// Finds faces that the given points around a collapse of `u` are near afterwards, and returns whether there is one for each.
pub(crate) fn keeps_points(
    surface: &Surface,
    lists: &Lists,
    fan: &mut Fan,
    u: u32,
) -> Result<bool, NoMemory> {
    fan.moved.clear();
    fan.least = f64::INFINITY;
    if !lists.moves && !place_point(lists, fan, number_at(&surface.origin, u))? {
        return Ok(false);
    }
    if !place_staying(lists, fan)? {
        return Ok(false);
    }
    place_going(lists, fan)
}

impl Lists {
    /// Returns the lists at the start: the middle of each face that has to stay nearer than others and places on its sides, and the
    /// vertices, if these move.
    pub(crate) fn of(
        alloc: Global,
        given: Given,
        surface: &Surface,
        moves: bool,
    ) -> Result<Lists, NoMemory> {
        let mut lists = Lists {
            head: vec![in alloc; NONE; surface.faces.len()]?,
            next: vec![in alloc; NONE; given.count()]?,
            given,
            moves,
        };
        for f in 0..lists.given.faces.len() {
            if lists.given.is_strict_on(short(f)) {
                lists.begin(short(f));
            }
        }
        if moves {
            lists.note_vertices(alloc, surface)?;
        }
        Ok(lists)
    }

    /// Puts each vertex on the list of one of its faces.
    fn note_vertices(&mut self, alloc: Global, surface: &Surface) -> Result<(), NoMemory> {
        let mut faces = vec![in alloc; NONE; surface.places.len()]?;
        for (f, face) in surface.faces.iter().enumerate() {
            let [a, b, c] = *face;
            put(&mut faces, a, short(f));
            put(&mut faces, b, short(f));
            put(&mut faces, c, short(f));
        }
        for v in 0..faces.len() {
            self.note(faces[v], short(v));
        }
        Ok(())
    }

    /// Appends a place to the list of a face.
    fn note(&mut self, face: u32, point: u32) {
        let first = number_at(&self.head, face);
        put(&mut self.next, point, first);
        put(&mut self.head, face, point);
    }

    /// Begins the list of a face with its middle and the places on its sides.
    fn begin(&mut self, f: u32) {
        let middle = self.given.middle(f);
        self.note(f, middle);
        for k in 0..3 {
            let h = f.saturating_mul(3).saturating_add(k);
            if self.given.is_first(h) {
                let first = self.given.side(h);
                self.note_side(f, first);
            }
        }
    }

    /// Appends the places on an edge to the list of a face.
    fn note_side(&mut self, f: u32, first: u32) {
        for k in 0..ON_EDGE {
            self.note(f, first.saturating_add(k));
        }
    }

    /// Clears the lists of faces.
    fn clear(&mut self, edges: &[u32]) {
        for h in edges {
            put(&mut self.head, *h / 3, NONE);
        }
    }

    /// Moves points to the lists of the faces that they are near.
    pub(crate) fn move_points(&mut self, fan: &Fan) {
        self.clear(&fan.staying);
        self.clear(&fan.going);
        for moved in &fan.moved {
            self.note(moved.face, moved.point);
        }
    }
}
