//! Vertices and faces in their order along the curve of Morton (1966): what is near in space is near in memory.

use crate::NoMemory;
use crate::numbers::{NONE, number_at, put};
use geo_sign::Point;
use std::alloc::Global;

/// A number and its sort key.
#[derive(Clone, Copy)]
struct Keyed {
    key: u64,
    number: u32,
}

/// Vertices along the curve, and the faces by their first vertex there.
#[derive(Drop)]
pub(crate) struct Ordered {
    /// The number of each vertex in the given mesh.
    pub(crate) vertices: Vec<u32>,
    pub(crate) places: Vec<Point>,
    pub(crate) faces: Vec<[u32; 3]>,
    /// The number of each face in the given mesh.
    pub(crate) source: Vec<u32>,
}

/// Returns the bits of a number of 21 bits, each followed by two zeros.
fn spread(x: u64) -> u64 {
    let x = (x | x << 32) & 0x001f_0000_0000_ffff;
    let x = (x | x << 16) & 0x001f_0000_ff00_00ff;
    let x = (x | x << 8) & 0x100f_00f0_0f00_f00f;
    let x = (x | x << 4) & 0x10c3_0c30_c30c_30c3;
    (x | x << 2) & 0x1249_2492_4924_9249
}

/// Returns an eighth of the distance from the box's wall.
fn cell(x: i32) -> u64 {
    (i64::from(x) + 8_388_608).unsigned_abs() >> 3 & 0x001f_ffff
}

/// Returns the position of a point on the curve.
fn key_of(p: Point) -> u64 {
    spread(cell(p.x())) | spread(cell(p.y())) << 1 | spread(cell(p.z())) << 2
}

/// Returns a 32-bit number, the greatest for those that do not fit.
pub(crate) fn short(i: usize) -> u32 {
    i.min(u32::MAX as usize) as u32
}

/// Returns the numbers below a count.
pub(crate) fn first_numbers(alloc: Global, count: usize) -> Result<Vec<u32>, NoMemory> {
    let mut numbers = Vec::with_capacity(alloc, count)?;
    for i in 0..count {
        numbers.push(short(i))?;
    }
    Ok(numbers)
}

/// Returns the numbers of vertices along the curve.
fn vertices_in_order(alloc: Global, points: &[Point]) -> Result<Vec<u32>, NoMemory> {
    let mut keyed = Vec::with_capacity(alloc, points.len())?;
    for (v, p) in points.iter().enumerate() {
        keyed.push(Keyed {
            key: key_of(*p),
            number: short(v),
        })?;
    }
    numbers_in_order(alloc, &mut keyed)
}

/// Sorts numbers by their keys, and returns them.
fn numbers_in_order(alloc: Global, keyed: &mut [Keyed]) -> Result<Vec<u32>, NoMemory> {
    keyed.sort_unstable_by_key(|k| (k.key, k.number));
    let mut numbers = Vec::with_capacity(alloc, keyed.len())?;
    for k in keyed.iter() {
        numbers.push(k.number)?;
    }
    Ok(numbers)
}

/// Returns the position of each vertex in the order.
fn ranks_of(alloc: Global, order: &[u32]) -> Result<Vec<u32>, NoMemory> {
    let mut ranks = vec![in alloc; NONE; order.len()]?;
    for (rank, v) in order.iter().enumerate() {
        put(&mut ranks, *v, short(rank));
    }
    Ok(ranks)
}

/// Returns a face with the numbers of its vertices along the curve.
fn ranked(ranks: &[u32], face: [u32; 3]) -> [u32; 3] {
    let [a, b, c] = face;
    [
        number_at(ranks, a),
        number_at(ranks, b),
        number_at(ranks, c),
    ]
}

/// Returns the numbers of faces by their first vertex along the curve.
fn faces_in_order(alloc: Global, ranks: &[u32], faces: &[[u32; 3]]) -> Result<Vec<u32>, NoMemory> {
    let mut keyed = Vec::with_capacity(alloc, faces.len())?;
    for (f, face) in faces.iter().enumerate() {
        let [a, b, c] = ranked(ranks, *face);
        keyed.push(Keyed {
            key: u64::from(a.min(b).min(c)),
            number: short(f),
        })?;
    }
    numbers_in_order(alloc, &mut keyed)
}

/// Returns the places of vertices in an order.
fn places_in(alloc: Global, points: &[Point], order: &[u32]) -> Result<Vec<Point>, NoMemory> {
    let mut places = Vec::with_capacity(alloc, order.len())?;
    for v in order {
        if let Some(p) = points.get(*v as usize) {
            places.push(*p)?;
        }
    }
    Ok(places)
}

/// Returns the faces in an order, with the numbers of their vertices along the curve.
fn faces_in(
    alloc: Global,
    faces: &[[u32; 3]],
    ranks: &[u32],
    order: &[u32],
) -> Result<Vec<[u32; 3]>, NoMemory> {
    let mut list = Vec::with_capacity(alloc, order.len())?;
    for f in order {
        if let Some(face) = faces.get(*f as usize) {
            list.push(ranked(ranks, *face))?;
        }
    }
    Ok(list)
}

/// Returns the vertices and faces of a mesh along the curve.
pub(crate) fn along_curve(
    alloc: Global,
    points: &[Point],
    faces: &[[u32; 3]],
) -> Result<Ordered, NoMemory> {
    let vertices = vertices_in_order(alloc, points)?;
    let ranks = ranks_of(alloc, &vertices)?;
    let source = faces_in_order(alloc, &ranks, faces)?;
    let places = places_in(alloc, points, &vertices)?;
    let faces = faces_in(alloc, faces, &ranks, &source)?;
    Ok(Ordered {
        vertices,
        places,
        faces,
        source,
    })
}
