//! Faces that close what stays open in a mesh. No clause depends on it: the mesh with these faces is verified to be closed afterwards.
//!
//! Each half edge without a twin lacks a face on the other side, with the edge back. These lacking edges run in circles, and triangles
//! fill each circle (`patch`).

use crate::NoMemory;
use crate::owners::edge_key;
use crate::patch::patch;
use crate::twins::{SINGLE, ends_of};
use geo_sign::Point;
use std::alloc::Global;
use std::collections::HashSet;

/// A lacking edge, and whether a face has it by now.
#[derive(Clone, Copy)]
struct Gap {
    from: u32,
    to: u32,
    is_filled: bool,
}

/// Returns the lacking edges of faces with these twins, by their first vertices.
fn gaps_of(alloc: Global, faces: &[[u32; 3]], twins: &[u32]) -> Result<Vec<Gap>, NoMemory> {
    let mut gaps = Vec::new(alloc);
    let mut half = 0u32;
    for twin in twins {
        if *twin == SINGLE {
            let (to, from) = ends_of(faces, half);
            gaps.push(Gap {
                from,
                to,
                is_filled: false,
            })?;
        }
        half = half.saturating_add(1);
    }
    gaps.sort_unstable_by_key(|gap| (gap.from, gap.to));
    Ok(gaps)
}

/// Takes the next lacking edge from a vertex, and returns its end.
fn take_from(gaps: &mut [Gap], vertex: u32) -> Option<u32> {
    let first = gaps.partition_point(|gap| gap.from < vertex);
    for gap in gaps[first..].iter_mut() {
        if gap.from != vertex {
            return None;
        }
        if !gap.is_filled {
            gap.is_filled = true;
            return Some(gap.to);
        }
    }
    None
}

/// Follows lacking edges from a vertex, and appends each circle.
fn push_circles(
    alloc: Global,
    circles: &mut Vec<Vec<u32>>,
    gaps: &mut [Gap],
    start: u32,
) -> Result<(), NoMemory> {
    let mut path = Vec::new(alloc);
    path.push(start)?;
    let mut last = start;
    for _ in 0..gaps.len() {
        let Some(next) = take_from(gaps, last) else {
            return Ok(());
        };
        match path.iter().position(|vertex| *vertex == next) {
            Some(at) => {
                let circle = path.split_off(at)?;
                circles.push(circle)?;
            }
            None => {}
        }
        path.push(next)?;
        last = next;
    }
    Ok(())
}

/// Returns the circles of lacking edges.
fn circles_of(alloc: Global, gaps: &mut [Gap]) -> Result<Vec<Vec<u32>>, NoMemory> {
    let mut starts = Vec::with_capacity(alloc, gaps.len())?;
    for gap in gaps.iter() {
        starts.push(gap.from)?;
    }
    let mut circles = Vec::new(alloc);
    for start in &starts {
        push_circles(alloc, &mut circles, gaps, *start)?;
    }
    Ok(circles)
}

fn has_gap(gaps: &[Gap], vertex: u32) -> bool {
    let first = gaps.partition_point(|gap| gap.from < vertex);
    match gaps.get(first) {
        Some(gap) => gap.from == vertex,
        None => false,
    }
}

fn push_edge(edges: &mut HashSet<u64>, gaps: &[Gap], u: u32, v: u32) -> Result<(), NoMemory> {
    if has_gap(gaps, u) && has_gap(gaps, v) {
        edges.insert(edge_key(u, v))?;
    }
    Ok(())
}

/// Returns the edges of faces between vertices with a gap.
fn edges_of(alloc: Global, faces: &[[u32; 3]], gaps: &[Gap]) -> Result<HashSet<u64>, NoMemory> {
    let mut edges = HashSet::new(alloc);
    for face in faces {
        let [a, b, c] = *face;
        push_edge(&mut edges, gaps, a, b)?;
        push_edge(&mut edges, gaps, b, c)?;
        push_edge(&mut edges, gaps, c, a)?;
    }
    Ok(edges)
}

/// Appends the triangles that fill a circle, and their edges.
fn push_patch(
    alloc: Global,
    list: &mut Vec<[u32; 3]>,
    edges: &mut HashSet<u64>,
    places: &[Point],
    circle: &[u32],
) -> Result<(), NoMemory> {
    let triangles = patch(alloc, places, edges, circle)?;
    for face in &triangles {
        let [a, b, c] = *face;
        edges.insert(edge_key(a, b))?;
        edges.insert(edge_key(b, c))?;
        edges.insert(edge_key(c, a))?;
        list.push(*face)?;
    }
    Ok(())
}

/// Returns faces that close what is open in a mesh with these faces and twins.
pub(crate) fn patches_of(
    alloc: Global,
    places: &[Point],
    faces: &[[u32; 3]],
    twins: &[u32],
) -> Result<Vec<[u32; 3]>, NoMemory> {
    let mut gaps = gaps_of(alloc, faces, twins)?;
    let mut edges = edges_of(alloc, faces, &gaps)?;
    let circles = circles_of(alloc, &mut gaps)?;
    let mut list = Vec::new(alloc);
    for circle in &circles {
        push_patch(alloc, &mut list, &mut edges, places, circle)?;
    }
    Ok(list)
}
