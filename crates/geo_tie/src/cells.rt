//! Lists all cells of a few points by testing each set of four vertices against each vertex: the brute-force oracle for the
//! incremental tetrahedralization.

ghost use Rattle.std.specs.Prelude.{◌≡◌, ◌≢◌, ◌<◌, ◌≤◌, ◌+◌, ◌<ℤ◌, ◌≤ℤ◌, ◌↔◌, ◌++◌, ◌∷◌, [], pos, ℕ, IsTrue, IfOk, length};
ghost use Rattle.geo_sign.specs.Vertices.{boxed_vertices, orientation_of, power_of, corners};
ghost use Rattle.geo_sign.specs.Cells.{FormCell, IsCellList};
ghost use Rattle.geo_tie.specs.Rising.{all_at, IsCellListBefore};
ghost use Rattle.geo_tie.specs.declared.cells.TheConstants.{PLAIN_LIMIT};

use crate::NoMemory;
use crate::tie::is_in_conflict;
use geo_sign::{CORNERS, Point, Sign, corner, orient};
use std::alloc::Global;

/// The most points that the oracle accepts: it tries each four of them and the corners.
pub const PLAIN_LIMIT: usize = 56;

/// Returns vertex u with its number.
fn numbered(vertices: &[Point], u: usize) -> (u32, Point)
    requires few { length vertices.now ≤ 64 }
    requires inside { u < length vertices.now }
    ensures { result ≡ (u, (all_at vertices.now).at u) }
{
    (u as u32, vertices[u])
}

/// Returns whether vertex u is not in conflict with the cell a b c d. The cell's own vertices are not.
fn is_outside(vertices: &[Point], a: usize, b: usize, c: usize, d: usize, u: usize) -> bool
    requires few { length vertices.now ≤ 64 }
    requires distinct { (a ≢ b) × (a ≢ c) × (a ≢ d) × (b ≢ c) × (b ≢ d) × (c ≢ d) }
    requires inside { (a < length vertices.now) × (b < length vertices.now) × (c < length vertices.now) × (d < length vertices.now) × (u < length vertices.now) }
    requires positive { pos 0 <ℤ orientation_of (all_at vertices.now) a b c d }
    ensures { IsTrue result ↔ (pos 0 ≤ℤ power_of (all_at vertices.now) a b c d u) }
{
    if u == a || u == b || u == c || u == d {
        return true;
    }
    !is_in_conflict(
        numbered(vertices, a),
        numbered(vertices, b),
        numbered(vertices, c),
        numbered(vertices, d),
        numbered(vertices, u),
    )
}

/// Returns whether no vertex is in conflict with the cell a b c d.
fn is_clear(vertices: &[Point], a: usize, b: usize, c: usize, d: usize) -> bool
    requires few { length vertices.now ≤ 64 }
    requires distinct { (a ≢ b) × (a ≢ c) × (a ≢ d) × (b ≢ c) × (b ≢ d) × (c ≢ d) }
    requires inside { (a < length vertices.now) × (b < length vertices.now) × (c < length vertices.now) × (d < length vertices.now) }
    requires positive { pos 0 <ℤ orientation_of (all_at vertices.now) a b c d }
    ensures { IsTrue result ↔ ((u : ℕ) → u < length vertices.now → pos 0 ≤ℤ power_of (all_at vertices.now) a b c d u) }
{
    for u in 0..vertices.len() {
        if !is_outside(vertices, a, b, c, d, u) {
            return false;
        }
    }
    true
}

/// Returns whether the four vertices are a cell. Rejects flat ones first.
fn are_cell(vertices: &[Point], a: usize, b: usize, c: usize, d: usize) -> bool
    requires few { length vertices.now ≤ 64 }
    requires rising { (a < b) × (b < c) × (c < d) × (d < length vertices.now) }
    ensures { IsTrue result ↔ FormCell (all_at vertices.now) a b c d }
{
    match orient(vertices[a], vertices[b], vertices[c], vertices[d]) {
        Sign::Pos => is_clear(vertices, a, b, c, d),
        Sign::Zero => false,
        Sign::Neg => is_clear(vertices, a, b, d, c),
    }
}

/// Appends the cells whose first three vertices are a, b, c.
fn push_cells_of_three(
    cells: &mut Vec<[u32; 4]>,
    vertices: &[Point],
    a: usize,
    b: usize,
    c: usize,
) -> Result<(), NoMemory>
    requires few { length vertices.now ≤ 64 }
    requires rising { (a < b) × (b < c) × (c < length vertices.now) }
    requires listed { IsCellListBefore (all_at vertices.now) (a ∷ b ∷ c ∷ []) cells.old.items }
    ensures { IfOk result (λ _. IsCellListBefore (all_at vertices.now) (a ∷ b ∷ (c + 1) ∷ []) cells.new.items) }
{
    for d in c + 1..vertices.len() {
        if are_cell(vertices, a, b, c, d) {
            cells.push([a as u32, b as u32, c as u32, d as u32])?;
        }
    }
    Ok(())
}

/// Appends the cells whose first two vertices are a, b.
fn push_cells_of_two(
    cells: &mut Vec<[u32; 4]>,
    vertices: &[Point],
    a: usize,
    b: usize,
) -> Result<(), NoMemory>
    requires few { length vertices.now ≤ 64 }
    requires rising { (a < b) × (b < length vertices.now) }
    requires listed { IsCellListBefore (all_at vertices.now) (a ∷ b ∷ []) cells.old.items }
    ensures { IfOk result (λ _. IsCellListBefore (all_at vertices.now) (a ∷ (b + 1) ∷ []) cells.new.items) }
{
    for c in b + 1..vertices.len() {
        push_cells_of_three(cells, vertices, a, b, c)?;
    }
    Ok(())
}

/// Appends the cells whose first vertex is a.
fn push_cells_of_one(
    cells: &mut Vec<[u32; 4]>,
    vertices: &[Point],
    a: usize,
) -> Result<(), NoMemory>
    requires few { length vertices.now ≤ 64 }
    requires inside { a < length vertices.now }
    requires listed { IsCellListBefore (all_at vertices.now) (a ∷ []) cells.old.items }
    ensures { IfOk result (λ _. IsCellListBefore (all_at vertices.now) ((a + 1) ∷ []) cells.new.items) }
{
    for b in a + 1..vertices.len() {
        push_cells_of_two(cells, vertices, a, b)?;
    }
    Ok(())
}

/// Returns the box's corners, and these points after them.
fn with_corners(alloc: Global, points: &[Point]) -> Result<Vec<Point>, NoMemory>
    requires few { length points.now ≤ PLAIN_LIMIT }
    ensures { IfOk result (λ vertices. vertices.items ≡ corners ++ points.now) }
{
    let mut vertices = Vec::with_capacity(alloc, CORNERS as usize + points.len())?;
    vertices.extend_from_slice(&[
        corner(0),
        corner(1),
        corner(2),
        corner(3),
        corner(4),
        corner(5),
        corner(6),
        corner(7),
    ])?;
    vertices.extend_from_slice(points)?;
    Ok(vertices)
}

/// Returns the cells of the box's corners and these points: the corners have the numbers 0 to 7, and the points follow. Each
/// cell occurs once, as its sorted vertex tuple, and the list is sorted. The only error is out of memory.
pub fn plain_cells(alloc: Global, points: &[Point]) -> Result<Vec<[u32; 4]>, NoMemory>
    requires few { length points.now ≤ PLAIN_LIMIT }
    ensures { IfOk result (λ cells. IsCellList (boxed_vertices points.now) cells.items) }
{
    let vertices = with_corners(alloc, points)?;
    let mut cells = Vec::new(alloc);
    for a in 0..vertices.len() {
        push_cells_of_one(&mut cells, &vertices, a)?;
    }
    Ok(cells)
}
