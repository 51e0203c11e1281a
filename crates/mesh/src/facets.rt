//! The mesh of a list of directed facets among numbered points: the surface between outside and inside cells, as extracted from
//! the labels by Labatut, Pons and Keriven (2007).
//!
//! The vertices of facets are marked once and numbered by a running count, so the work is linear in the numbers of points and
//! of facets. Depends on `geo_sign`'s points.

ghost use Rattle.std.specs.Prelude.{◌≡◌, ◌<◌, ◌^◌, ◌||◌, ℕ, false, IfOk, All, AllPairs, length, map, slice_index, slice_index_or};
ghost use Rattle.geo_sign.specs.Rising.{IsBefore};
ghost use Rattle.mesh.specs.Meshes.{below, is_vertex_of, is_used, point_at, mesh_of, IsFace, IsFaceList, IsMesh};
ghost use Rattle.mesh.specs.Marks.{marked, number_among};

use crate::{Mesh, NoMemory};
use geo_sign::Point;
use std::alloc::{AllocError, Global};

/// Marks the three vertices of a facet.
fn mark_facet(marks: &mut [bool], facet: [u32; 3])
    requires { IsFace (length marks.old) facet }
    ensures { (v : ℕ) → v < length marks.old → slice_index_or marks.new v false ≡ (slice_index_or marks.old v false || is_vertex_of v facet) }
{
    let [a, b, c] = facet;
    marks[a as usize] = true;
    marks[b as usize] = true;
    marks[c as usize] = true;
}

/// Returns one mark for each of `count` vertices: whether some facet has it.
fn vertex_marks(alloc: Global, count: usize, facets: &[[u32; 3]]) -> Result<Vec<bool>, NoMemory>
    requires { All (IsFace count) facets.now }
    ensures { IfOk result (λ marks. marks.items ≡ map (is_used facets.now) (below count)) }
{
    let mut marks = vec![in alloc; false; count]?;
    for facet in facets {
        mark_facet(&mut marks, *facet);
    }
    Ok(marks)
}

/// The points of the marked vertices, and each vertex's new number.
#[derive(Drop)]
struct Numbering {
    points: Vec<Point>,
    numbers: Vec<u32>,
}

fn numbering_of(alloc: Global, places: &[Point], marks: &[bool]) -> Result<Numbering, NoMemory>
    requires few { length places.now < 2 ^ 32 }
    requires marks { length marks.now ≡ length places.now }
    ensures points { IfOk result (λ n. n.points.items ≡ map (point_at places.now) (marked marks.now (length places.now))) }
    ensures numbers { IfOk result (λ n. n.numbers.items ≡ map (number_among marks.now) (below (length places.now))) }
{
    let mut points = Vec::new(alloc);
    let mut numbers = Vec::new(alloc);
    for (v, place) in places.iter().enumerate() {
        numbers.push(points.len() as u32)?;
        if marks[v] {
            points.push(*place)?;
        }
    }
    Ok(Numbering { points, numbers })
}

/// Returns a facet with its vertices' new numbers.
fn face_of(numbers: &[u32], facet: [u32; 3]) -> [u32; 3]
    requires { IsFace (length numbers.now) facet }
    ensures { result ≡ map (slice_index numbers.now) facet }
{
    let [a, b, c] = facet;
    [
        numbers[a as usize],
        numbers[b as usize],
        numbers[c as usize],
    ]
}

fn faces_of(alloc: Global, numbers: &[u32], facets: &[[u32; 3]]) -> Result<Vec<[u32; 3]>, NoMemory>
    requires { All (IsFace (length numbers.now)) facets.now }
    ensures { IfOk result (λ faces. faces.items ≡ map (map (slice_index numbers.now)) facets.now) }
{
    let mut faces = Vec::new(alloc);
    for facet in facets {
        faces.push(face_of(numbers, *facet))?;
    }
    Ok(faces)
}

/// Returns the mesh of directed facets among numbered points; vertex `v` is `places[v]`.
///
/// Points without a facet are left out, and the others are numbered from 0 in the order of their vertex numbers. The facets,
/// each with three distinct vertices and the smallest number first, must be in ascending order; the faces are the same facets
/// in the same order, renumbered, so they too have their smallest number first and ascend.
///
/// Returns `NoMemory` also if there are more than 2^32 - 1 facets, which no valid mesh has.
pub fn mesh_of_facets(
    alloc: Global,
    places: &[Point],
    facets: &[[u32; 3]],
) -> Result<Mesh, NoMemory>
    requires few { length places.now < 2 ^ 32 }
    requires facets { IsFaceList (length places.now) facets.now }
    ensures points { IfOk result (λ mesh. mesh.points.items ≡ (mesh_of places.now facets.now).points) }
    ensures faces { IfOk result (λ mesh. mesh.faces.items ≡ (mesh_of places.now facets.now).faces) }
    ensures valid { IfOk result (λ mesh. IsMesh mesh.points.items mesh.faces.items) }
    ensures rising { IfOk result (λ mesh. AllPairs IsBefore mesh.faces.items) }
{
    if facets.len() > u32::MAX as usize {
        return Err(AllocError);
    }
    let marks = vertex_marks(alloc, places.len(), facets)?;
    let numbering = numbering_of(alloc, places, &marks)?;
    let faces = faces_of(alloc, &numbering.numbers, facets)?;
    Ok(Mesh {
        points: numbering.points,
        faces,
    })
}
