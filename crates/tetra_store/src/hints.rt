//! Hints where the reverse of each edge of the boundary of the conflict region stands.
//!
//! The vertices of a boundary are numbered as they come. So an edge has an entry in a square table: the row of its start and
//! the column of its end. Each edge is entered there with its index in the list of edges, and its reverse finds it there. The
//! caller checks each hint that it reads. So nothing has to be kept true of the table: what earlier boundaries entered stays,
//! and if a boundary has too many vertices, a reverse is not found, which costs time and nothing else.

use crate::Facet;
use crate::edge::Edge;
use std::alloc::{AllocError, Global};

/// How many numbers there are for the vertices of a boundary: those that fit a byte.
const NUMBERS: usize = 256;

/// Hints for the edges of one boundary. They are found anew for each boundary, which takes no memory.
#[derive(Drop)]
pub(crate) struct Hints {
    // The number of each vertex in the last boundary that had it.
    numbers: Vec<u8>,
    // The vertices of the last boundary by their numbers.
    vertices: [u32; NUMBERS],
    // The indices of edges, by the numbers of start and end.
    table: Vec<u32>,
}

impl Hints {
    /// Hints with room for no vertex.
    pub(crate) fn new(alloc: Global) -> Hints {
        Hints {
            numbers: Vec::new(alloc),
            vertices: [0; NUMBERS],
            table: Vec::new(alloc),
        }
    }

    /// Makes room for boundaries over `vertices` vertices: a byte for each, and 2^18 bytes for the table.
    pub(crate) fn reserve(&mut self, vertices: usize) -> Result<(), AllocError> {
        if self.numbers.len() < vertices {
            self.numbers.resize(vertices, 0)?;
        }
        if self.table.is_empty() {
            self.table.resize(NUMBERS * NUMBERS, 0)?;
        }
        Ok(())
    }

    /// Enters the edges of a boundary, three for each facet: those that start at its second, its third and its first vertex.
    pub(crate) fn enter(&mut self, fan: &[Facet]) {
        let mut count = 0u8;
        let mut at = 0u32;
        for facet in fan {
            let [a, b, c] = facet.v;
            let a = number_of(&mut self.numbers, &mut self.vertices, &mut count, a);
            let b = number_of(&mut self.numbers, &mut self.vertices, &mut count, b);
            let c = number_of(&mut self.numbers, &mut self.vertices, &mut count, c);
            write(&mut self.table, place(b, c), at);
            write(&mut self.table, place(c, a), at.wrapping_add(1));
            write(&mut self.table, place(a, b), at.wrapping_add(2));
            at = at.wrapping_add(3);
        }
    }

    /// The index at which the reverse of an edge may stand.
    pub(crate) fn reverse(&self, edge: &Edge) -> Option<usize> {
        let start = self.numbers.get(edge.start as usize)?;
        let end = self.numbers.get(edge.end as usize)?;
        let index = self.table.get(place(*end, *start))?;
        Some(*index as usize)
    }
}

/// Returns the number of a vertex, which is the next one if it has none yet. Most vertices of a boundary come several times, in
/// no predictable order. So there is no branch: the vertex is noted as the next one in any case, and counted only if it is new.
fn number_of(numbers: &mut [u8], vertices: &mut [u32; NUMBERS], count: &mut u8, v: u32) -> u8 {
    let Some(number) = numbers.get_mut(v as usize) else {
        return 0;
    };
    let is_new = (*number >= *count) | (vertices[usize::from(*number)] != v);
    vertices[usize::from(*count)] = v;
    *number = if is_new { *count } else { *number };
    *count = count.wrapping_add(u8::from(is_new));
    *number
}

/// The place of an edge in the table, by the numbers of its vertices.
fn place(start: u8, end: u8) -> usize {
    usize::from(start) * NUMBERS + usize::from(end)
}

/// Writes an index into the table.
fn write(table: &mut [u32], place: usize, index: u32) {
    if let Some(entry) = table.get_mut(place) {
        *entry = index;
    }
}
