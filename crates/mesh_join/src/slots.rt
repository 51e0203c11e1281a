//! Collects the places of vertices, and finds their numbers soon. No clause depends on it: `are_rising` and `numbers_of` verify them.

use crate::all_places::all_places;
use crate::{Mesh, NoMemory};
use geo_sign::Point;
use std::alloc::Global;

/// A box of points: by their keys in it, points are in the order of places.
#[derive(Clone, Copy)]
struct Frame {
    low: [i32; 3],
    high: [i32; 3],
}

fn beyond(low: i32, x: i32) -> u64 {
    i64::from(x).saturating_sub(i64::from(low)).unsigned_abs()
}

fn before(low: i32, x: u64) -> i64 {
    i64::from(low).saturating_add(x.min(1 << 32) as i64)
}

impl Frame {
    /// Extends the box.
    fn add(&mut self, p: Point) {
        let [a, b, c] = self.low;
        self.low = [a.min(p.x()), b.min(p.y()), c.min(p.z())];
        let [a, b, c] = self.high;
        self.high = [a.max(p.x()), b.max(p.y()), c.max(p.z())];
    }

    /// Returns how many coordinates each axis has.
    fn sides(&self) -> [u64; 3] {
        let ([a, b, c], [d, e, f]) = (self.low, self.high);
        [
            beyond(a, d).saturating_add(1),
            beyond(b, e).saturating_add(1),
            beyond(c, f).saturating_add(1),
        ]
    }

    /// Returns whether keys have 64 bits.
    fn is_small(&self) -> bool {
        let [x, y, z] = self.sides();
        match x.checked_mul(y) {
            Some(area) => area.checked_mul(z).is_some(),
            None => false,
        }
    }

    fn key_of(&self, p: Point) -> u64 {
        let [a, b, c] = self.low;
        let [_, wide, deep] = self.sides();
        let row = beyond(a, p.x())
            .wrapping_mul(wide)
            .wrapping_add(beyond(b, p.y()));
        row.wrapping_mul(deep).wrapping_add(beyond(c, p.z()))
    }

    /// Returns the point with a key.
    fn point_of(&self, key: u64) -> Option<Point> {
        let [a, b, c] = self.low;
        let [_, wide, deep] = self.sides();
        let (row, z) = (key.checked_div(deep)?, key.checked_rem(deep)?);
        let (x, y) = (row.checked_div(wide)?, row.checked_rem(wide)?);
        Point::in_box(before(a, x), before(b, y), before(c, z))
    }
}

fn extend(frame: &mut Frame, points: &[Point]) {
    for p in points {
        frame.add(*p);
    }
}

fn frame_of(meshes: &[Mesh]) -> Frame {
    let mut frame = Frame {
        low: [i32::MAX, i32::MAX, i32::MAX],
        high: [i32::MIN, i32::MIN, i32::MIN],
    };
    for mesh in meshes {
        extend(&mut frame, &mesh.points);
    }
    frame
}

/// Returns the number of points of all meshes.
pub(crate) fn count_of(meshes: &[Mesh]) -> usize {
    let mut count = 0usize;
    for mesh in meshes {
        count = count.saturating_add(mesh.points.len());
    }
    count
}

fn push_keys(keys: &mut Vec<u64>, frame: &Frame, points: &[Point]) -> Result<(), NoMemory> {
    for p in points {
        keys.push(frame.key_of(*p))?;
    }
    Ok(())
}

/// Returns the keys of all places, ascending.
fn keys_of(alloc: Global, frame: &Frame, meshes: &[Mesh]) -> Result<Vec<u64>, NoMemory> {
    let mut keys = Vec::with_capacity(alloc, count_of(meshes))?;
    for mesh in meshes {
        push_keys(&mut keys, frame, &mesh.points)?;
    }
    keys.sort_unstable();
    keys.dedup();
    Ok(keys)
}

/// Returns the places of all vertices, ascending, each once.
pub(crate) fn places_of(alloc: Global, meshes: &[Mesh]) -> Result<Vec<Point>, NoMemory> {
    let frame = frame_of(meshes);
    if !frame.is_small() {
        return all_places(alloc, meshes);
    }
    let keys = keys_of(alloc, &frame, meshes)?;
    let mut places = Vec::with_capacity(alloc, keys.len())?;
    for key in &keys {
        if let Some(place) = frame.point_of(*key) {
            places.push(place)?;
        }
    }
    Ok(places)
}

/// Where places are, by their first coordinates: those of slot `s` are from `starts[s]` on and before `starts[s + 1]`.
#[derive(Drop)]
pub(crate) struct Slots {
    low: i32,
    shift: u32,
    starts: Vec<u32>,
}

impl Slots {
    fn slot_of(&self, p: Point) -> usize {
        beyond(self.low, p.x()).wrapping_shr(self.shift) as usize
    }

    /// Returns the number of a point's place, or some number.
    pub(crate) fn find(&self, places: &[Point], point: Point) -> usize {
        let slot = self.slot_of(point);
        let Some(start) = self.starts.get(slot) else {
            return 0;
        };
        let start = *start as usize;
        let end = match self.starts.get(slot.saturating_add(1)) {
            Some(end) => (*end as usize).min(places.len()),
            None => places.len(),
        };
        if start >= end {
            return 0;
        }
        match places[start..end].binary_search(&point) {
            Ok(n) => start.saturating_add(n),
            Err(_) => 0,
        }
    }

    /// Starts all slots up to one at a place.
    fn start_up_to(&mut self, slot: usize, n: u32) -> Result<(), NoMemory> {
        for _ in self.starts.len()..slot.saturating_add(1) {
            self.starts.push(n)?;
        }
        Ok(())
    }
}

/// Returns where places are. There are about as many slots as places.
pub(crate) fn slots_of(alloc: Global, places: &[Point]) -> Result<Slots, NoMemory> {
    let (low, high) = match (places.first(), places.last()) {
        (Some(first), Some(last)) => (first.x(), last.x()),
        _ => (0, 0),
    };
    let wide = beyond(low, high)
        .checked_div((places.len() as u64).saturating_add(1))
        .unwrap_or(0);
    let shift = match wide.checked_ilog2() {
        Some(bits) => bits.saturating_add(1),
        None => 0,
    };
    let mut slots = Slots {
        low,
        shift,
        starts: Vec::new(alloc),
    };
    let mut n = 0u32;
    for place in places {
        let slot = slots.slot_of(*place);
        slots.start_up_to(slot, n)?;
        n = n.saturating_add(1);
    }
    Ok(slots)
}
