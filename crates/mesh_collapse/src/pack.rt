//! Leaves out the vertices and faces that are gone.

use crate::NoMemory;
use crate::boxes::Boxes;
use crate::collapse::{Work, cheapest_edge};
use crate::numbers::{NONE, number_at, put};
use crate::order::short;
use crate::surface::Surface;
use std::alloc::Global;

/// The new numbers of vertices and faces that are left.
#[derive(Drop)]
struct Numbers {
    vertices: Vec<u32>,
    faces: Vec<u32>,
}

/// Returns the new numbers of faces.
fn face_numbers(alloc: Global, surface: &Surface) -> Result<Vec<u32>, NoMemory> {
    let mut numbers = vec![in alloc; NONE; surface.faces.len()]?;
    let mut count = 0u32;
    for (f, face) in surface.faces.iter().enumerate() {
        let [a, _, _] = *face;
        if a != NONE {
            put(&mut numbers, short(f), count);
            count = count.saturating_add(1);
        }
    }
    Ok(numbers)
}

/// Marks the corners of faces that are left.
fn mark_corners(marks: &mut [u32], faces: &[[u32; 3]]) {
    for face in faces {
        let [a, b, c] = *face;
        put(marks, a, 0);
        put(marks, b, 0);
        put(marks, c, 0);
    }
}

/// Returns the new numbers of vertices.
fn vertex_numbers(alloc: Global, surface: &Surface) -> Result<Vec<u32>, NoMemory> {
    let mut numbers = vec![in alloc; NONE; surface.places.len()]?;
    mark_corners(&mut numbers, &surface.faces);
    let mut count = 0u32;
    for v in 0..numbers.len() {
        if numbers[v] != NONE {
            numbers[v] = count;
            count = count.saturating_add(1);
        }
    }
    Ok(numbers)
}

/// Returns a half edge by the new number of its face.
fn half_edge(numbers: &Numbers, h: u32) -> u32 {
    let face = number_at(&numbers.faces, h / 3);
    if face == NONE || h == NONE {
        return NONE;
    }
    face.saturating_mul(3).saturating_add(h % 3)
}

/// Keeps the vertices that are left.
fn pack_vertices(work: &mut Work, numbers: &Numbers) {
    let mut count = 0usize;
    for v in 0..numbers.vertices.len() {
        let to = numbers.vertices[v] as usize;
        if numbers.vertices[v] != NONE {
            move_vertex(work, numbers, v, to);
            count = to.saturating_add(1);
        }
    }
    work.surface.places.truncate(count);
    work.surface.edge_of.truncate(count);
    work.surface.origin.truncate(count);
    work.costs.truncate(count);
    work.cheapest.truncate(count);
    work.floors.truncate(count);
    work.planes.truncate(count);
    work.marks.marks.truncate(count);
}

/// Moves what is known of a vertex to its new number.
fn move_vertex(work: &mut Work, numbers: &Numbers, from: usize, to: usize) {
    if from < work.surface.places.len() && to <= from {
        work.surface.places[to] = work.surface.places[from];
    }
    if from < work.costs.len() && to <= from {
        work.costs[to] = work.costs[from];
    }
    if from < work.floors.len() && to <= from {
        work.floors[to] = work.floors[from];
    }
    if from < work.planes.len() && to <= from {
        work.planes[to] = work.planes[from];
    }
    let (old, new) = (short(from), short(to));
    let origin = number_at(&work.surface.origin, old);
    put(&mut work.surface.origin, new, origin);
    let edge = half_edge(numbers, number_at(&work.surface.edge_of, old));
    put(&mut work.surface.edge_of, new, edge);
    let cheapest = half_edge(numbers, cheapest_edge(work, old));
    put(&mut work.cheapest, new, cheapest);
}

/// Keeps the faces that are left.
fn pack_faces(work: &mut Work, numbers: &Numbers) {
    let mut count = 0usize;
    for f in 0..numbers.faces.len() {
        let to = numbers.faces[f];
        if to != NONE {
            move_face(work, numbers, short(f), to);
            count = (to as usize).saturating_add(1);
        }
    }
    work.surface.faces.truncate(count);
    work.surface.source.truncate(count);
    work.surface.twins.truncate(count.saturating_mul(3));
    work.lists.head.truncate(count);
}

/// Moves what is known of a face to its new number.
fn move_face(work: &mut Work, numbers: &Numbers, from: u32, to: u32) {
    let [a, b, c] = work.surface.face(from);
    if (to as usize) < work.surface.faces.len() {
        work.surface.faces[to as usize] = [
            number_at(&numbers.vertices, a),
            number_at(&numbers.vertices, b),
            number_at(&numbers.vertices, c),
        ];
    }
    let source = number_at(&work.surface.source, from);
    put(&mut work.surface.source, to, source);
    let first = number_at(&work.lists.head, from);
    put(&mut work.lists.head, to, first);
    for k in 0..3 {
        let twin = work.surface.twin(from.saturating_mul(3).saturating_add(k));
        let twin = half_edge(numbers, twin);
        put(
            &mut work.surface.twins,
            to.saturating_mul(3).saturating_add(k),
            twin,
        );
    }
}

/// Leaves out the vertices and faces that are gone.
pub(crate) fn pack(alloc: Global, work: &mut Work) -> Result<(), NoMemory> {
    let numbers = Numbers {
        vertices: vertex_numbers(alloc, &work.surface)?,
        faces: face_numbers(alloc, &work.surface)?,
    };
    pack_vertices(work, &numbers);
    pack_faces(work, &numbers);
    work.marks.marks.fill(0);
    work.marks.stamp = 0;
    work.boxes = Boxes::of(alloc, &work.surface.places, &work.surface.faces)?;
    Ok(())
}

/// Returns whether less than six tenths of the faces are left.
pub(crate) fn is_sparse(work: &Work) -> bool {
    work.surface.live <= work.surface.faces.len() / 10 * 6
}

/// Leaves out what is gone, if less than six tenths of the faces are left.
pub(crate) fn pack_if_sparse(alloc: Global, work: &mut Work) -> Result<(), NoMemory> {
    if !is_sparse(work) {
        return Ok(());
    }
    pack(alloc, work)
}
