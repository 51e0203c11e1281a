//! The faces that the search found, with hints for its tests. No clause says anything of it.

use crate::NoMemory;
use geo_sign::Point;
use mesh::Mesh;
use mesh_collapse::{Collapsed, History, Request, collapse_edges};
use std::alloc::Global;

/// Faces, and what they may come from.
#[derive(Drop)]
pub(crate) struct Candidate {
    /// The faces.
    pub(crate) faces: Vec<[u32; 3]>,
    /// The old number of each vertex.
    pub(crate) from: Vec<u32>,
    /// Where each vertex is.
    pub(crate) points: Vec<Point>,
    /// For each face the number of an old one, which it may be.
    pub(crate) source: Vec<u32>,
    /// For each old vertex the number of a face that it may be near.
    pub(crate) homes: Vec<u32>,
}

/// The vertices that faces have, and the new number of each.
#[derive(Drop)]
struct Used {
    from: Vec<u32>,
    numbers: Vec<u32>,
}

/// Marks a vertex.
fn mark(marks: &mut [bool], v: u32) {
    if (v as usize) < marks.len() {
        marks[v as usize] = true;
    }
}

/// Returns a mark for each vertex that a face has.
fn marks_of(alloc: Global, count: usize, faces: &[[u32; 3]]) -> Result<Vec<bool>, NoMemory> {
    let mut marks = vec![in alloc; false; count]?;
    for face in faces {
        let [a, b, c] = *face;
        mark(&mut marks, a);
        mark(&mut marks, b);
        mark(&mut marks, c);
    }
    Ok(marks)
}

/// Returns a 32-bit number, the greatest for those that do not fit.
fn short(i: usize) -> u32 {
    i.min(u32::MAX as usize) as u32
}

/// Returns the vertices that faces have.
fn used_vertices(alloc: Global, count: usize, faces: &[[u32; 3]]) -> Result<Used, NoMemory> {
    let marks = marks_of(alloc, count, faces)?;
    let mut list = Used {
        from: Vec::new(alloc),
        numbers: Vec::with_capacity(alloc, count)?,
    };
    for (v, mark) in marks.iter().enumerate() {
        list.numbers.push(short(list.from.len()))?;
        if *mark {
            list.from.push(short(v))?;
        }
    }
    Ok(list)
}

/// Returns the number at an index, the greatest past the end.
fn number_at(list: &[u32], i: u32) -> u32 {
    match list.get(i as usize) {
        Some(number) => *number,
        None => u32::MAX,
    }
}

/// Returns a face from its smallest vertex on.
fn smallest_first(face: [u32; 3]) -> [u32; 3] {
    let [a, b, c] = face;
    if a < b && a < c {
        face
    } else if b < c {
        [b, c, a]
    } else {
        [c, a, b]
    }
}

/// Returns faces with new numbers of their vertices.
fn renumbered(
    alloc: Global,
    faces: &[[u32; 3]],
    numbers: &[u32],
) -> Result<Vec<[u32; 3]>, NoMemory> {
    let mut list = Vec::with_capacity(alloc, faces.len())?;
    for face in faces {
        let [a, b, c] = *face;
        list.push(smallest_first([
            number_at(numbers, a),
            number_at(numbers, b),
            number_at(numbers, c),
        ]))?;
    }
    Ok(list)
}

/// Returns the places of vertices, by their old numbers.
fn places_at(alloc: Global, places: &[Point], from: &[u32]) -> Result<Vec<Point>, NoMemory> {
    let mut list = Vec::with_capacity(alloc, from.len())?;
    for v in from {
        if let Some(place) = places.get(*v as usize) {
            list.push(*place)?;
        }
    }
    Ok(list)
}

/// Returns what the search finds for a mesh. It begins with what the one before made, and notes what it has made itself.
pub(crate) fn find_candidate(
    alloc: Global,
    mesh: &Mesh,
    request: Request,
    limits: &[u32],
    before: &mut History,
) -> Result<Candidate, NoMemory> {
    let Collapsed {
        faces,
        source,
        homes,
        places,
        history,
    } = collapse_edges(alloc, &mesh.points, &mesh.faces, request, limits, before)?;
    *before = history;
    let Used { from, numbers } = used_vertices(alloc, mesh.points.len(), &faces)?;
    Ok(Candidate {
        faces: renumbered(alloc, &faces, &numbers)?,
        points: places_at(alloc, &places, &from)?,
        from,
        source,
        homes,
    })
}
