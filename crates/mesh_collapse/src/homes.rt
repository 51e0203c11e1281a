//! The faces that are left, with hints for tests.

use crate::NoMemory;
use crate::collapse::{Collapsed, Work};
use crate::numbers::{NONE, number_at, put};
use crate::order::short;
use crate::repeat::History;
use geo_sign::Point;
use std::alloc::Global;

/// Returns the number of a vertex in the given mesh.
fn given(work: &Work, v: u32) -> u32 {
    number_at(&work.vertices, number_at(&work.surface.origin, v))
}

/// Notes the face at which a given vertex is, or that it is near.
fn note(work: &Work, homes: &mut [u32], point: u32, face: u32) {
    put(homes, number_at(&work.vertices, point), face);
}

/// Notes the face of the points on its list.
fn note_list(work: &Work, homes: &mut [u32], f: u32, face: u32) {
    let mut point = number_at(&work.lists.head, f);
    for _ in 0..work.lists.next.len() {
        if point == NONE {
            return;
        }
        note(work, homes, point, face);
        point = number_at(&work.lists.next, point);
    }
}

/// Appends a face that is left.
fn push_face(work: &Work, list: &mut Collapsed, f: u32, face: [u32; 3]) -> Result<(), NoMemory> {
    let [a, b, c] = face;
    let number = short(list.faces.len());
    let corners = [given(work, a), given(work, b), given(work, c)];
    if !work.lists.moves {
        put(&mut list.homes, corners[0], number);
        put(&mut list.homes, corners[1], number);
        put(&mut list.homes, corners[2], number);
    }
    note_list(work, &mut list.homes, f, number);
    list.source.push(number_at(&work.surface.source, f))?;
    list.faces.push(corners)?;
    Ok(())
}

/// Notes where vertices are that are left.
fn note_places(work: &Work, places: &mut [Point]) {
    for (v, place) in work.surface.places.iter().enumerate() {
        let number = given(work, short(v)) as usize;
        if number < places.len() {
            places[number] = *place;
        }
    }
}

/// Returns the faces that are left, by the numbers of the given vertices.
pub(crate) fn collapsed_of(
    alloc: Global,
    work: &Work,
    points: &[Point],
    history: History,
) -> Result<Collapsed, NoMemory> {
    let mut list = Collapsed {
        faces: Vec::with_capacity(alloc, work.surface.live)?,
        source: Vec::with_capacity(alloc, work.surface.live)?,
        homes: vec![in alloc; NONE; work.vertices.len()]?,
        places: Vec::with_capacity(alloc, points.len())?,
        history,
    };
    list.places.extend_from_slice(points)?;
    note_places(work, &mut list.places);
    for (f, face) in work.surface.faces.iter().enumerate() {
        let [a, _, _] = *face;
        if a != NONE {
            push_face(work, &mut list, short(f), *face)?;
        }
    }
    Ok(list)
}
