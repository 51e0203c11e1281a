//! Directions of faces, filtered. No clause depends on them.

use crate::NoMemory;
use mesh_flips::Way;
use std::alloc::Global;

/// How often the directions are filtered in a step.
const ROUNDS: usize = 2;

/// What is added to the cosine between two faces for the weight of one at the other: faces that look more than 120 degrees apart count
/// nothing.
const OPEN_COSINE: f64 = 0.5;

/// The direction of each face, of length 1, and twice its area.
#[derive(Drop)]
pub(crate) struct Directions {
    pub(crate) normals: Vec<Way>,
    pub(crate) areas: Vec<f64>,
}

/// Returns the place of a vertex, the origin past the end.
pub(crate) fn spot_at(spots: &[Way], v: u32) -> Way {
    spots.get(v as usize).copied().unwrap_or(Way::NONE)
}

/// Returns the vector from one place to another.
pub(crate) fn from_to(a: Way, b: Way) -> Way {
    b.plus(a.times(-1.0))
}

/// Returns the directions and areas of faces.
fn directions_of(alloc: Global, spots: &[Way], faces: &[[u32; 3]]) -> Result<Directions, NoMemory> {
    let mut normals = Vec::with_capacity(alloc, faces.len())?;
    let mut areas = Vec::with_capacity(alloc, faces.len())?;
    for face in faces {
        let [a, b, c] = *face;
        let from = spot_at(spots, a);
        let first = from_to(from, spot_at(spots, b));
        let normal = first.across(from_to(from, spot_at(spots, c)));
        normals.push(normal.unit())?;
        areas.push(normal.length())?;
    }
    Ok(Directions { normals, areas })
}

impl Directions {
    /// Returns what the face across a half edge adds to the direction of a face.
    fn part(&self, own: Way, twins: &[u32], h: usize) -> Way {
        let other = match twins.get(h) {
            Some(twin) => (*twin / 3) as usize,
            None => h / 3,
        };
        let normal = self.normals.get(other).copied().unwrap_or(Way::NONE);
        let area = self.areas.get(other).copied().unwrap_or(0.0);
        let weight = (own.dot(normal) + OPEN_COSINE).max(0.0) * area / (1.0 + OPEN_COSINE);
        normal.times(weight)
    }

    /// Returns the mean direction of a face and the three across its edges.
    fn agreed(&self, twins: &[u32], face: usize) -> Way {
        let own = self.normals.get(face).copied().unwrap_or(Way::NONE);
        let area = self.areas.get(face).copied().unwrap_or(0.0);
        let first = face.saturating_mul(3);
        let sum = own
            .times(area)
            .plus(self.part(own, twins, first))
            .plus(self.part(own, twins, first.saturating_add(1)))
            .plus(self.part(own, twins, first.saturating_add(2)));
        sum.unit()
    }

    /// Returns the directions, each the mean of itself and those across its edges.
    fn filtered(&self, alloc: Global, twins: &[u32]) -> Result<Vec<Way>, NoMemory> {
        let mut normals = Vec::with_capacity(alloc, self.normals.len())?;
        for face in 0..self.normals.len() {
            normals.push(self.agreed(twins, face))?;
        }
        Ok(normals)
    }
}

/// Returns the directions of faces, filtered by those across their edges.
pub(crate) fn filtered_directions(
    alloc: Global,
    spots: &[Way],
    faces: &[[u32; 3]],
    twins: &[u32],
) -> Result<Vec<Way>, NoMemory> {
    let mut directions = directions_of(alloc, spots, faces)?;
    for _ in 0..ROUNDS {
        directions.normals = directions.filtered(alloc, twins)?;
    }
    Ok(directions.normals)
}
