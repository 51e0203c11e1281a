//! Faces by the cells of a grid that they are near. No clause depends on it.

use crate::NoMemory;
use crate::crossing::Corners;
use geo_sign::Point;
use std::alloc::Global;

/// A face that is near a cell, by its number.
#[derive(Clone, Copy)]
struct Entry {
    cell: u64,
    number: u32,
}

/// The most cells of one face. Faces that are near more are left out.
const MOST: u64 = 1000;

/// Faces by the cells that are at most a side away from them. Where `marks` is false for the hash of a cell, there is none.
#[derive(Drop)]
pub(crate) struct Grid {
    shift: u32,
    entries: Vec<Entry>,
    marks: Vec<bool>,
}

fn step_of(x: i32, shift: u32) -> u64 {
    i64::from(x)
        .saturating_add(16_777_216)
        .unsigned_abs()
        .wrapping_shr(shift)
}

fn cell_of(x: u64, y: u64, z: u64) -> u64 {
    x.wrapping_shl(42) | y.wrapping_shl(21) | z
}

/// Returns where the mark of a cell is among a number of marks, a power of two.
fn mark_of(count: usize, cell: u64) -> usize {
    let hash = cell.wrapping_mul(0x9e37_79b9_7f4a_7c15);
    (hash.wrapping_shr(40) as usize) & count.saturating_sub(1)
}

/// Returns the marks of the cells of entries.
fn marks_of(alloc: Global, entries: &[Entry]) -> Result<Vec<bool>, NoMemory> {
    let bits = entries
        .len()
        .checked_ilog2()
        .unwrap_or(0)
        .saturating_add(3)
        .min(24);
    let mut marks = vec![in alloc; false; 1usize.wrapping_shl(bits)]?;
    for entry in entries {
        let at = mark_of(marks.len(), entry.cell);
        if at < marks.len() {
            marks[at] = true;
        }
    }
    Ok(marks)
}

/// Returns the widest span of a face.
fn extent(face: &Corners) -> u32 {
    let [a, b, c] = face.spans();
    let x = a.1.abs_diff(a.0);
    let y = b.1.abs_diff(b.0);
    let z = c.1.abs_diff(c.0);
    x.max(y).max(z)
}

/// Returns the shift of a grid whose side is at least that of three quarters of the faces.
fn shift_of(alloc: Global, faces: &[Corners]) -> Result<u32, NoMemory> {
    let mut extents = Vec::with_capacity(alloc, faces.len())?;
    for face in faces {
        extents.push(extent(face))?;
    }
    extents.sort_unstable();
    let bits = match extents.get(faces.len() / 4 * 3) {
        Some(extent) => extent.checked_ilog2(),
        None => None,
    };
    match bits {
        Some(bits) => Ok(bits.saturating_add(1).max(4).min(24)),
        None => Ok(4),
    }
}

/// Returns the first and the last step of a span, with one side more on both ends.
fn steps(span: (i32, i32), shift: u32) -> (u64, u64) {
    (
        step_of(span.0, shift).saturating_sub(1),
        step_of(span.1, shift).saturating_add(1),
    )
}

fn count(steps: (u64, u64)) -> u64 {
    steps.1.saturating_sub(steps.0).saturating_add(1)
}

impl Grid {
    fn push_row(&mut self, number: u32, x: u64, y: u64, z: (u64, u64)) -> Result<(), NoMemory> {
        for step in z.0..z.1.saturating_add(1) {
            self.entries.push(Entry {
                cell: cell_of(x, y, step),
                number,
            })?;
        }
        Ok(())
    }

    fn push_layer(
        &mut self,
        number: u32,
        x: u64,
        y: (u64, u64),
        z: (u64, u64),
    ) -> Result<(), NoMemory> {
        for step in y.0..y.1.saturating_add(1) {
            self.push_row(number, x, step, z)?;
        }
        Ok(())
    }

    /// Adds a face, unless it is near too many cells.
    fn add(&mut self, number: u32, face: &Corners) -> Result<(), NoMemory> {
        let [x, y, z] = face.spans();
        let x = steps(x, self.shift);
        let y = steps(y, self.shift);
        let z = steps(z, self.shift);
        if count(x).saturating_mul(count(y)).saturating_mul(count(z)) > MOST {
            return Ok(());
        }
        for step in x.0..x.1.saturating_add(1) {
            self.push_layer(number, step, y, z)?;
        }
        Ok(())
    }

    fn is_marked(&self, cell: u64) -> bool {
        match self.marks.get(mark_of(self.marks.len(), cell)) {
            Some(mark) => *mark,
            None => false,
        }
    }

    /// Appends the numbers of faces near a point.
    pub(crate) fn push_near(&self, found: &mut Vec<u32>, p: Point) -> Result<(), NoMemory> {
        let cell = cell_of(
            step_of(p.x(), self.shift),
            step_of(p.y(), self.shift),
            step_of(p.z(), self.shift),
        );
        if !self.is_marked(cell) {
            return Ok(());
        }
        let first = self.entries.partition_point(|entry| entry.cell < cell);
        for entry in &self.entries[first..] {
            if entry.cell != cell {
                return Ok(());
            }
            found.push(entry.number)?;
        }
        Ok(())
    }
}

/// Returns faces by the cells that they are near.
pub(crate) fn grid_of(alloc: Global, faces: &[Corners]) -> Result<Grid, NoMemory> {
    let mut grid = Grid {
        shift: shift_of(alloc, faces)?,
        entries: Vec::new(alloc),
        marks: Vec::new(alloc),
    };
    let mut number = 0u32;
    for face in faces {
        grid.add(number, face)?;
        number = number.saturating_add(1);
    }
    grid.entries.sort_unstable_by_key(|entry| entry.cell);
    grid.marks = marks_of(alloc, &grid.entries)?;
    Ok(grid)
}
