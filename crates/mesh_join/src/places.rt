//! Numbers of places for the vertices of tiles.

ghost use Rattle.std.specs.Prelude.{◌≡◌, ◌<◌, ◌≤◌, ◌^◌, ◌↔◌, ◌⊎◌, ℕ, List, IsTrue, IfOk, IfErr, IfSome, IfNone, All, Contains, length, map, slice_index_or};
ghost use Rattle.std.specs.Bool.{OnTrue};
ghost use Rattle.std.specs.Cmp.Lexicographic.{slice_cmp};
ghost use Rattle.std.specs.List.Sorted.{IsSorted};
ghost use Rattle.std.specs.Ordering.{nat_cmp};
ghost use Rattle.mesh.specs.Meshes.{point_at, IsFace, IsMesh};
ghost use Rattle.mesh.specs.declared.mesh.Mesh.{Mesh};
ghost use Rattle.mesh_join.specs.Joins.{face_at_places, lists_of, turned_face, AreMeshesNumbered, ArePlacesRising, IsNumbered, IsPlaceBefore};
ghost use Rattle.mesh_join.specs.Refusals.{IsFlatMesh, LacksPlace};

use crate::held::Tile;
use crate::rows::sorted;
use crate::slots::{Slots, slots_of};
use crate::{Mesh, NoMemory};
use geo_sign::Point;
use std::alloc::Global;

/// Returns whether a place is before another.
pub(crate) fn is_before(p: Point, q: Point) -> bool
    ensures { IsTrue result ↔ IsPlaceBefore p q }
{
    if p.x() != q.x() {
        return p.x() < q.x();
    }
    if p.y() != q.y() {
        return p.y() < q.y();
    }
    p.z() < q.z()
}

/// Returns whether each place is before the next.
pub(crate) fn are_rising(places: &[Point]) -> bool
    ensures { OnTrue result (ArePlacesRising places.now) }
{
    for k in 1..places.len() {
        if !is_before(places[k - 1], places[k]) {
            return false;
        }
    }
    true
}

fn is_same(p: Point, q: Point) -> bool
    ensures { IsTrue result ↔ (p ≡ q) }
{
    p.x() == q.x() && p.y() == q.y() && p.z() == q.z()
}

/// Returns a number if it is that of a point's place.
fn number_at(places: &[Point], point: Point, n: usize) -> Option<u32>
    requires { length places.now < 2 ^ 32 }
    ensures within { IfSome result (λ n. n < length places.now) }
    ensures at { IfSome result (λ n. point_at places.now n ≡ point) }
    ensures none { IfNone result (n < length places.now → ¬ (point_at places.now n ≡ point)) }
{
    if n < places.len() && is_same(places[n], point) {
        Some(n as u32)
    } else {
        None
    }
}

/// Returns how many places are before a point.
fn position_of(places: &[Point], point: Point) -> usize
    requires { ArePlacesRising places.now }
    ensures within { result ≤ length places.now }
    ensures before { (k : ℕ) → k < result → IsPlaceBefore (point_at places.now k) point }
    ensures after { (k : ℕ) → result ≤ k → k < length places.now → ¬ IsPlaceBefore (point_at places.now k) point }
{
    let mut low = 0usize;
    let mut high = places.len();
    while low < high {
        let middle = low + (high - low) / 2;
        if is_before(places[middle], point) {
            low = middle + 1;
        } else {
            high = middle;
        }
    }
    low
}

/// Returns the number of a point's place.
fn number_of(places: &[Point], slots: &Slots, point: Point) -> Option<u32>
    requires few { length places.now < 2 ^ 32 }
    requires rising { ArePlacesRising places.now }
    ensures within { IfSome result (λ n. n < length places.now) }
    ensures at { IfSome result (λ n. point_at places.now n ≡ point) }
    ensures none { IfNone result (¬ Contains places.now point) }
{
    let near = number_at(places, point, slots.find(places, point));
    if near.is_some() {
        return near;
    }
    number_at(places, point, position_of(places, point))
}

/// Returns the number of each point's place; `None` if a point has none.
fn numbers_of(
    alloc: Global,
    places: &[Point],
    slots: &Slots,
    points: &[Point],
) -> Result<Option<Vec<u32>>, NoMemory>
    requires few { length places.now < 2 ^ 32 }
    requires rising { ArePlacesRising places.now }
    ensures within { IfOk result (λ list. IfSome list (λ numbers. All (λ n. n < length places.now) numbers.items)) }
    ensures at { IfOk result (λ list. IfSome list (λ numbers. points.now ≡ map (point_at places.now) numbers.items)) }
    ensures none { IfOk result (λ list. IfNone list (LacksPlace places.now points.now)) }
{
    let mut numbers = Vec::with_capacity(alloc, points.len())?;
    for point in points {
        match number_of(places, slots, *point) {
            Some(n) => numbers.push(n)?,
            None => return Ok(None),
        }
    }
    Ok(Some(numbers))
}

fn turned(a: u32, b: u32, c: u32) -> [u32; 3]
    ensures { result ≡ turned_face a b c }
{
    if a < b && a < c {
        [a, b, c]
    } else if b < a && b < c {
        [b, c, a]
    } else {
        [c, a, b]
    }
}

/// Returns whether a face is valid among `n` places.
pub(crate) fn is_face(n: usize, face: [u32; 3]) -> bool
    ensures { IsTrue result ↔ IsFace n face }
{
    let [a, b, c] = face;
    a < b && a < c && b != c && (b as usize) < n && (c as usize) < n
}

/// Returns a face by numbers of places.
fn face_at(numbers: &[u32], face: [u32; 3]) -> [u32; 3]
    requires { IsFace (length numbers.now) face }
    ensures { result ≡ face_at_places numbers.now face }
{
    let [a, b, c] = face;
    turned(
        numbers[a as usize],
        numbers[b as usize],
        numbers[c as usize],
    )
}

/// Returns the faces by numbers of places, below `n`; `None` if one has two vertices at one place.
fn faces_at(
    alloc: Global,
    n: usize,
    numbers: &[u32],
    faces: &[[u32; 3]],
) -> Result<Option<Vec<[u32; 3]>>, NoMemory>
    requires { All (IsFace (length numbers.now)) faces.now }
    ensures valid { IfOk result (λ list. IfSome list (λ l. All (IsFace n) l.items)) }
    ensures same { IfOk result (λ list. IfSome list (λ l. l.items ≡ map (face_at_places numbers.now) faces.now)) }
    ensures none { IfOk result (λ list. IfNone list ((f : List ℕ) × Contains faces.now f × (¬ IsFace n (face_at_places numbers.now f)))) }
{
    let mut list = Vec::with_capacity(alloc, faces.len())?;
    for face in faces {
        let at = face_at(numbers, *face);
        if !is_face(n, at) {
            return Ok(None);
        }
        list.push(at)?;
    }
    Ok(Some(list))
}

/// Returns a tile's faces by numbers of places; `None` if one has two vertices at one place, or a vertex has no place.
fn tile_of(
    alloc: Global,
    places: &[Point],
    slots: &Slots,
    mesh: &Mesh,
) -> Result<Option<Tile>, NoMemory>
    requires few { length places.now < 2 ^ 32 }
    requires rising { ArePlacesRising places.now }
    requires mesh { IsMesh mesh.now.points.items mesh.now.faces.items }
    ensures numbered { IfOk result (λ tile. IfSome tile (λ t. IsNumbered places.now mesh.now.points.items mesh.now.faces.items t.faces.items)) }
    ensures sorted { IfOk result (λ tile. IfSome tile (λ t. IsSorted (slice_cmp nat_cmp) t.faces.items)) }
    ensures valid { IfOk result (λ tile. IfSome tile (λ t. All (IsFace (length places.now)) t.faces.items)) }
    ensures none { IfOk result (λ tile. IfNone tile (LacksPlace places.now mesh.now.points.items ⊎ IsFlatMesh mesh.now)) }
{
    let Some(numbers) = numbers_of(alloc, places, slots, &mesh.points)? else {
        return Ok(None);
    };
    let Some(faces) = faces_at(alloc, places.len(), &numbers, &mesh.faces)? else {
        return Ok(None);
    };
    let list = sorted(alloc, faces)?;
    Ok(Some(Tile { faces: list }))
}

/// Returns the faces of each tile by numbers of places, or the number of the first tile for which [`tile_of`] gives `None`.
pub(crate) fn tiles_of(
    alloc: Global,
    places: &[Point],
    meshes: &[Mesh],
) -> Result<Result<Vec<Tile>, usize>, NoMemory>
    requires few { length places.now < 2 ^ 32 }
    requires rising { ArePlacesRising places.now }
    requires meshes { All (λ m. IsMesh m.points.items m.faces.items) meshes.now }
    ensures count { IfOk result (λ r. IfOk r (λ tiles. length (lists_of tiles.items) ≡ length meshes.now)) }
    ensures numbered { IfOk result (λ r. IfOk r (λ tiles. AreMeshesNumbered places.now meshes.now (lists_of tiles.items))) }
    ensures sorted { IfOk result (λ r. IfOk r (λ tiles. All (IsSorted (slice_cmp nat_cmp)) (lists_of tiles.items))) }
    ensures valid { IfOk result (λ r. IfOk r (λ tiles. All (All (IsFace (length places.now))) (lists_of tiles.items))) }
    ensures within { IfOk result (λ r. IfErr r (λ i. i < length meshes.now)) }
    ensures none { IfOk result (λ r. IfErr r (λ i. (m : Mesh) → LacksPlace places.now (slice_index_or meshes.now i m).points.items ⊎ IsFlatMesh (slice_index_or meshes.now i m))) }
{
    let slots = slots_of(alloc, places)?;
    let mut tiles = Vec::new(alloc);
    for (i, mesh) in meshes.iter().enumerate() {
        match tile_of(alloc, places, &slots, mesh)? {
            Some(tile) => tiles.push(tile)?,
            None => return Ok(Err(i)),
        }
    }
    Ok(Ok(tiles))
}
