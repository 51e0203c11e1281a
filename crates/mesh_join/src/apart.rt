//! Finds faces of different tiles that cross. No clause depends on it.
//!
//! Two such faces are not both inside the cores of their tiles, so one of them reaches out of its core. The few faces that reach out stand
//! in a grid, and all others are looked up there.

use crate::NoMemory;
use crate::crossing::{Corners, corners_of};
use crate::grid::{Grid, grid_of};
use crate::held::Tile;
use crate::owners::Core;
use crate::search::{NO_TILE, Search, edges_inside, keys_of};
use geo_sign::Point;
use std::alloc::Global;

/// Joined faces that reach out of cores, the tile of each, if its edges have one, and the grid in which they are found.
#[derive(Drop)]
struct Reaching {
    faces: Vec<Corners>,
    tiles: Vec<u32>,
    grid: Grid,
}

fn holds_place(places: &[Point], core: &Core, vertex: u32) -> bool {
    match places.get(vertex as usize) {
        Some(p) => core.holds(*p, *p),
        None => false,
    }
}

/// Returns whether all vertices of a face are in a core. Then so are the middles of its edges.
fn is_inside(places: &[Point], core: &Core, face: [u32; 3]) -> bool {
    let [a, b, c] = face;
    holds_place(places, core, a) && holds_place(places, core, b) && holds_place(places, core, c)
}

/// Appends the joined faces of a tile with an edge in its core that reach out of it.
fn push_reaching(
    list: &mut Vec<[u32; 3]>,
    search: &Search,
    tile: &Tile,
    core: &Core,
) -> Result<(), NoMemory> {
    for face in &tile.faces {
        let reaches = edges_inside(search.places, core, *face) > 0
            && !is_inside(search.places, core, *face);
        if reaches && search.is_joined(*face) {
            list.push(*face)?;
        }
    }
    Ok(())
}

/// Appends the joined faces at moved edges.
fn push_moved(alloc: Global, list: &mut Vec<[u32; 3]>, search: &Search) -> Result<(), NoMemory> {
    let mut faces = Vec::new(alloc);
    for (edge, tile) in search.moved.iter() {
        search.push_faces_at(&mut faces, *tile, *edge)?;
    }
    for face in &faces {
        if search.is_joined(*face) {
            list.push(*face)?;
        }
    }
    Ok(())
}

/// Returns the joined faces that reach out of cores, or have moved edges, ascending.
fn reaching_faces(alloc: Global, search: &Search) -> Result<Vec<[u32; 3]>, NoMemory> {
    let mut list = Vec::new(alloc);
    for (tile, core) in search.tiles.iter().zip(search.cores) {
        push_reaching(&mut list, search, tile, core)?;
    }
    push_moved(alloc, &mut list, search)?;
    list.sort_unstable();
    list.dedup();
    Ok(list)
}

/// Returns the tile that owns all edges of a face, or [`NO_TILE`].
fn tile_of(search: &Search, face: [u32; 3]) -> u32 {
    let [a, b, c] = keys_of(face);
    let tile = search.owner_of(a);
    if search.owner_of(b) == tile && search.owner_of(c) == tile {
        tile
    } else {
        NO_TILE
    }
}

/// Returns the joined faces that reach out of cores, in a grid.
fn in_grid(alloc: Global, search: &Search, list: &[[u32; 3]]) -> Result<Reaching, NoMemory> {
    let mut faces = Vec::new(alloc);
    let mut tiles = Vec::new(alloc);
    for face in list {
        if let Some(corners) = corners_of(search.places, *face) {
            faces.push(corners)?;
            tiles.push(tile_of(search, *face))?;
        }
    }
    let grid = grid_of(alloc, &faces)?;
    Ok(Reaching { faces, tiles, grid })
}

/// Appends the pairs of a face of a tile and one of another tile that reaches out and crosses it.
fn push_pairs(
    pairs: &mut Vec<([u32; 3], [u32; 3])>,
    found: &mut Vec<u32>,
    reaching: &Reaching,
    face: &Corners,
    tile: u32,
) -> Result<(), NoMemory> {
    found.clear();
    reaching.grid.push_near(found, face.first())?;
    for number in found.iter() {
        let (Some(other), Some(owner)) = (
            reaching.faces.get(*number as usize),
            reaching.tiles.get(*number as usize),
        ) else {
            return Ok(());
        };
        if (*owner != tile || tile == NO_TILE) && face.crosses(other) {
            pairs.push((face.face, other.face))?;
        }
    }
    Ok(())
}

/// Appends the pairs of a face inside the core of a tile and one that reaches out.
fn push_inner_pairs(
    pairs: &mut Vec<([u32; 3], [u32; 3])>,
    found: &mut Vec<u32>,
    search: &Search,
    reaching: &Reaching,
    number: usize,
) -> Result<(), NoMemory> {
    let (Some(tile), Some(core)) = (search.tiles.get(number), search.cores.get(number)) else {
        return Ok(());
    };
    for face in &tile.faces {
        if let Some(corners) = corners_of(search.places, *face) {
            if is_inside(search.places, core, *face) {
                let tile = u32::try_from(number).unwrap_or(NO_TILE);
                push_pairs(pairs, found, reaching, &corners, tile)?;
            }
        }
    }
    Ok(())
}

/// Returns pairs of joined faces of different tiles that cross. Very large faces are left out.
pub(crate) fn crossing_pairs(
    alloc: Global,
    search: &Search,
) -> Result<Vec<([u32; 3], [u32; 3])>, NoMemory> {
    let list = reaching_faces(alloc, search)?;
    let reaching = in_grid(alloc, search, &list)?;
    let mut pairs = Vec::new(alloc);
    let mut found = Vec::new(alloc);
    for number in 0..search.tiles.len() {
        push_inner_pairs(&mut pairs, &mut found, search, &reaching, number)?;
    }
    for (face, tile) in reaching.faces.iter().zip(reaching.tiles.iter()) {
        push_pairs(&mut pairs, &mut found, &reaching, face, *tile)?;
    }
    Ok(pairs)
}
