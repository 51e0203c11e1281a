//! Numbers of what is kept. No clause depends on them, since they are verified where they are used.

use crate::NoMemory;
use std::alloc::Global;

/// The number of an item that is not kept.
const LEFT_OUT: u32 = u32::MAX;

/// Faces with new vertices, the old vertex of each new one, and a face that has it.
#[derive(Drop)]
pub(crate) struct Renumbered {
    pub(crate) faces: Vec<[u32; 3]>,
    pub(crate) origin: Vec<u32>,
    pub(crate) holder: Vec<u32>,
}

/// Returns the numbers of the kept items among the kept ones.
fn numbers_of(alloc: Global, kept: &[bool]) -> Result<Vec<u32>, NoMemory> {
    let mut numbers = Vec::with_capacity(alloc, kept.len())?;
    let mut next = 0u32;
    for is_kept in kept {
        if *is_kept {
            numbers.push(next)?;
            next = next.saturating_add(1);
        } else {
            numbers.push(LEFT_OUT)?;
        }
    }
    Ok(numbers)
}

fn number_in(numbers: &[u32], at: u32) -> u32 {
    match numbers.get(at as usize) {
        Some(number) => *number,
        None => LEFT_OUT,
    }
}

fn set(list: &mut [u32], at: u32, value: u32) {
    if (at as usize) < list.len() {
        list[at as usize] = value;
    }
}

fn mark(list: &mut [bool], at: u32) {
    if (at as usize) < list.len() {
        list[at as usize] = true;
    }
}

/// Returns the vertices that are marked.
fn marked_vertices(alloc: Global, marks: &[bool]) -> Result<Vec<u32>, NoMemory> {
    let mut vertices = Vec::new(alloc);
    for (v, is_used) in marks.iter().enumerate() {
        if *is_used {
            vertices.push(v.min(u32::MAX as usize) as u32)?;
        }
    }
    Ok(vertices)
}

/// Returns a face of each of `count` vertices.
fn holders_of(alloc: Global, count: usize, faces: &[[u32; 3]]) -> Result<Vec<u32>, NoMemory> {
    let mut holder = vec![in alloc; LEFT_OUT; count]?;
    let mut number = 0u32;
    for face in faces {
        let [a, b, c] = *face;
        set(&mut holder, a, number);
        set(&mut holder, b, number);
        set(&mut holder, c, number);
        number = number.saturating_add(1);
    }
    Ok(holder)
}

/// Returns the faces with the vertices that they have renumbered in their order, where vertices are below `count`.
pub(crate) fn without_unused(
    alloc: Global,
    count: usize,
    faces: &[[u32; 3]],
) -> Result<Renumbered, NoMemory> {
    let mut marks = vec![in alloc; false; count]?;
    for face in faces {
        let [a, b, c] = *face;
        mark(&mut marks, a);
        mark(&mut marks, b);
        mark(&mut marks, c);
    }
    let numbers = numbers_of(alloc, &marks)?;
    let origin = marked_vertices(alloc, &marks)?;
    let mut new = Vec::with_capacity(alloc, faces.len())?;
    for face in faces {
        let [a, b, c] = *face;
        new.push([
            number_in(&numbers, a),
            number_in(&numbers, b),
            number_in(&numbers, c),
        ])?;
    }
    let holder = holders_of(alloc, origin.len(), &new)?;
    Ok(Renumbered {
        faces: new,
        origin,
        holder,
    })
}

/// Returns the twins of the half edges of kept faces, by their new numbers.
pub(crate) fn kept_twins(
    alloc: Global,
    twins: &[u32],
    kept: &[bool],
) -> Result<Vec<u32>, NoMemory> {
    let numbers = numbers_of(alloc, kept)?;
    let mut new = Vec::new(alloc);
    for (h, twin) in twins.iter().enumerate() {
        if let Some(true) = kept.get(h / 3) {
            let face = number_in(&numbers, *twin / 3);
            new.push(face.saturating_mul(3).saturating_add(*twin % 3))?;
        }
    }
    Ok(new)
}
