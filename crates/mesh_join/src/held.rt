//! Which faces are joined: those that the owners of their edges have.

ghost use Rattle.std.specs.Prelude.{◌≡◌, ◌<◌, ◌↔◌, List, ℕ, IsTrue, IfOk, OnOk, All, Contains, length};
ghost use Rattle.std.specs.Cmp.Lexicographic.{slice_cmp};
ghost use Rattle.std.specs.List.Sorted.{IsSorted};
ghost use Rattle.std.specs.Ordering.{nat_cmp};
ghost use Rattle.mesh.specs.Meshes.{IsFace};
ghost use Rattle.mesh_join.specs.Joins.{faces_of, lists_of, AreTiles, HasOwnerWith, IsOwnerWith, IsJoined, OwnsFirst};

use crate::NoMemory;
use crate::owners::Owners;
use std::alloc::Global;

/// The faces of a tile by numbers of places, sorted.
#[derive(Drop)]
pub struct Tile {
    /// The faces, each with its smallest number first.
    pub faces: Vec<[u32; 3]>,
}

/// Returns whether a sorted list has a face.
pub(crate) fn has(faces: &[[u32; 3]], face: [u32; 3]) -> bool
    requires { IsSorted (slice_cmp nat_cmp) faces.now }
    ensures { IsTrue result ↔ Contains faces.now face }
{
    faces.binary_search(&face).is_ok()
}

/// Returns the faces of tile `i`.
fn list_of(tiles: &[Tile], i: usize) -> &[[u32; 3]]
    requires { i < length tiles.now }
    ensures { result.now ≡ faces_of (lists_of tiles.now) i }
{
    &tiles[i].faces
}

/// Returns whether tile `i` owns an edge and has a face.
fn is_held_by(owners: &Owners, tiles: &[Tile], face: [u32; 3], u: u32, v: u32, i: usize) -> bool
    requires tiles { AreTiles owners.now (lists_of tiles.now) }
    requires from { u < length owners.now.places.items }
    requires to { v < length owners.now.places.items }
    requires tile { i < length tiles.now }
    ensures { IsTrue result ↔ IsOwnerWith owners.now (lists_of tiles.now) face u v i }
{
    let owns = owners.owns(i, u, v);
    owns && has(list_of(tiles, i), face)
}

/// Returns whether some tile owns an edge and has a face.
fn is_held(owners: &Owners, tiles: &[Tile], face: [u32; 3], u: u32, v: u32) -> bool
    requires tiles { AreTiles owners.now (lists_of tiles.now) }
    requires from { u < length owners.now.places.items }
    requires to { v < length owners.now.places.items }
    ensures { IsTrue result ↔ HasOwnerWith owners.now (lists_of tiles.now) face u v }
{
    for i in 0..tiles.len() {
        if is_held_by(owners, tiles, face, u, v, i) {
            return true;
        }
    }
    false
}

/// Returns the same of a face that tile `i` has.
fn is_held_too(owners: &Owners, tiles: &[Tile], i: usize, face: [u32; 3], u: u32, v: u32) -> bool
    requires tiles { AreTiles owners.now (lists_of tiles.now) }
    requires tile { i < length tiles.now }
    requires has { Contains (faces_of (lists_of tiles.now) i) face }
    requires from { u < length owners.now.places.items }
    requires to { v < length owners.now.places.items }
    ensures { IsTrue result ↔ HasOwnerWith owners.now (lists_of tiles.now) face u v }
{
    owners.owns(i, u, v) || is_held(owners, tiles, face, u, v)
}

/// Returns whether a face of tile `i` is joined, if the tile owns its first edge, and else `false`.
fn keeps(owners: &Owners, tiles: &[Tile], i: usize, face: [u32; 3]) -> bool
    requires tiles { AreTiles owners.now (lists_of tiles.now) }
    requires tile { i < length tiles.now }
    requires has { Contains (faces_of (lists_of tiles.now) i) face }
    requires valid { IsFace (length owners.now.places.items) face }
    ensures sound { IsTrue result → IsJoined owners.now (lists_of tiles.now) face }
    ensures complete { IsJoined owners.now (lists_of tiles.now) face → OwnsFirst owners.now i face → IsTrue result }
{
    let [a, b, c] = face;
    if !owners.owns(i, a, b) {
        return false;
    }
    if !is_held_too(owners, tiles, i, face, b, c) {
        return false;
    }
    is_held_too(owners, tiles, i, face, c, a)
}

/// Appends a face of tile `i` if it is joined and the tile owns its first edge.
fn push_if_kept(
    list: &mut Vec<[u32; 3]>,
    owners: &Owners,
    tiles: &[Tile],
    i: usize,
    face: [u32; 3],
) -> Result<(), NoMemory>
    requires tiles { AreTiles owners.now (lists_of tiles.now) }
    requires tile { i < length tiles.now }
    requires has { Contains (faces_of (lists_of tiles.now) i) face }
    requires valid { IsFace (length owners.now.places.items) face }
    ensures sound { All (IsJoined owners.now (lists_of tiles.now)) list.old.items → OnOk result (All (IsJoined owners.now (lists_of tiles.now)) list.new.items) }
    ensures kept { OnOk result ((f : List ℕ) → Contains list.old.items f → Contains list.new.items f) }
    ensures complete { OnOk result (IsJoined owners.now (lists_of tiles.now) face → OwnsFirst owners.now i face → Contains list.new.items face) }
{
    if keeps(owners, tiles, i, face) {
        list.push(face)?;
    }
    Ok(())
}

/// Appends the joined faces of tile `i` whose first edge it owns.
fn push_kept(
    list: &mut Vec<[u32; 3]>,
    owners: &Owners,
    tiles: &[Tile],
    i: usize,
) -> Result<(), NoMemory>
    requires tiles { AreTiles owners.now (lists_of tiles.now) }
    requires tile { i < length tiles.now }
    ensures sound { All (IsJoined owners.now (lists_of tiles.now)) list.old.items → OnOk result (All (IsJoined owners.now (lists_of tiles.now)) list.new.items) }
    ensures kept { OnOk result ((f : List ℕ) → Contains list.old.items f → Contains list.new.items f) }
    ensures complete { OnOk result ((f : List ℕ) → Contains (faces_of (lists_of tiles.now) i) f → IsJoined owners.now (lists_of tiles.now) f → OwnsFirst owners.now i f → Contains list.new.items f) }
{
    let faces = list_of(tiles, i);
    for face in faces {
        push_if_kept(list, owners, tiles, i, *face)?;
    }
    Ok(())
}

/// Returns the number of faces of all tiles.
fn count_of(tiles: &[Tile]) -> usize {
    let mut count = 0usize;
    for tile in tiles {
        count = count.saturating_add(tile.faces.len());
    }
    count
}

/// Returns the joined faces.
pub(crate) fn joined_faces(
    alloc: Global,
    owners: &Owners,
    tiles: &[Tile],
) -> Result<Vec<[u32; 3]>, NoMemory>
    requires { AreTiles owners.now (lists_of tiles.now) }
    ensures sound { IfOk result (λ list. All (IsJoined owners.now (lists_of tiles.now)) list.items) }
    ensures complete { IfOk result (λ list. (f : List ℕ) → IsJoined owners.now (lists_of tiles.now) f → Contains list.items f) }
{
    let mut list = Vec::with_capacity(alloc, count_of(tiles))?;
    for i in 0..tiles.len() {
        push_kept(&mut list, owners, tiles, i)?;
    }
    Ok(list)
}
