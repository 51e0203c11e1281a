//! Looks for the edges to move, so that tiles agree about every face. No clause depends on it: what is joined is decided by the moved
//! edges, whichever they are, and verified to be closed afterwards.
//!
//! Tiles disagree about a face if some owners of its edges have it and some do not. One of these tiles is then made the owner of the
//! face's edges, and of the edges of further faces as long as that makes new disagreements. Of the tiles the one is taken that gets the
//! fewest edges; if each would get too many, the face is left. Two joined faces of different tiles that cross are handled alike, so that
//! one of them is not joined.

use crate::NoMemory;
use crate::apart::crossing_pairs;
use crate::held::Tile;
use crate::owners::{Core, edge_key};
use geo_sign::Point;
use std::alloc::Global;
use std::collections::{HashMap, HashSet};

/// The tiles, and the owners of edges so far.
#[derive(Drop)]
pub(crate) struct Search<'a> {
    pub(crate) cores: &'a [Core],
    pub(crate) places: &'a [Point],
    pub(crate) tiles: &'a [Tile],
    /// Of each tile, the numbers of its faces by their second smallest vertices: 2^32 times the vertex plus the face's number, ascending.
    middles: Vec<Vec<u64>>,
    pub(crate) moved: HashMap<u64, u32>,
}

/// A number that no tile has.
pub(crate) const NO_TILE: u32 = u32::MAX;

/// The greatest number below a unit of the first vertex.
const UNIT: u64 = 4_294_967_296;

fn first_of(face: [u32; 3]) -> u64 {
    let [first, _, _] = face;
    u64::from(first)
}

pub(crate) fn keys_of(face: [u32; 3]) -> [u64; 3] {
    let [a, b, c] = face;
    [edge_key(a, b), edge_key(b, c), edge_key(c, a)]
}

impl<'a> Search<'a> {
    /// Returns the tile in whose core an edge's middle lies.
    fn home_of(&self, key: u64) -> u32 {
        let (Some(p), Some(q)) = (
            self.places.get((key / UNIT) as usize),
            self.places.get((key % UNIT) as usize),
        ) else {
            return NO_TILE;
        };
        for (i, core) in self.cores.iter().enumerate() {
            if core.holds(*p, *q) {
                return u32::try_from(i).unwrap_or(NO_TILE);
            }
        }
        NO_TILE
    }

    /// Returns the tile that owns an edge.
    pub(crate) fn owner_of(&self, key: u64) -> u32 {
        match self.moved.get(&key) {
            Some(tile) => *tile,
            None => self.home_of(key),
        }
    }

    fn has(&self, tile: u32, face: [u32; 3]) -> bool {
        match self.tiles.get(tile as usize) {
            Some(tile) => tile.faces.binary_search(&face).is_ok(),
            None => false,
        }
    }

    /// Returns whether the owners of all edges of a face have it.
    pub(crate) fn is_joined(&self, face: [u32; 3]) -> bool {
        let [a, b, c] = keys_of(face);
        self.has(self.owner_of(a), face)
            && self.has(self.owner_of(b), face)
            && self.has(self.owner_of(c), face)
    }

    /// Returns whether the owners of an edge have a face, if the tile owns all edges of a set.
    fn has_owner(&self, over: &HashSet<u64>, tile: u32, key: u64, face: [u32; 3]) -> bool {
        if over.contains(&key) {
            self.has(tile, face)
        } else {
            self.has(self.owner_of(key), face)
        }
    }

    /// Returns whether some owners of a face's edges have it and some do not.
    fn disagree(&self, over: &HashSet<u64>, tile: u32, face: [u32; 3]) -> bool {
        let [a, b, c] = keys_of(face);
        let first = self.has_owner(over, tile, a, face);
        let second = self.has_owner(over, tile, b, face);
        let third = self.has_owner(over, tile, c, face);
        first != second || second != third
    }

    /// Appends the faces of a tile at an edge: the smaller end is the face's smallest vertex, by which faces are sorted, or its second one.
    pub(crate) fn push_faces_at(
        &self,
        list: &mut Vec<[u32; 3]>,
        tile: u32,
        key: u64,
    ) -> Result<(), NoMemory> {
        let (Some(faces), Some(middles)) = (
            self.tiles.get(tile as usize),
            self.middles.get(tile as usize),
        ) else {
            return Ok(());
        };
        push_first(list, &faces.faces, key)?;
        push_second(list, &faces.faces, middles, key)
    }

    /// Gives a tile all edges of the faces at an edge about which owners disagree.
    fn give_at(
        &self,
        faces: &mut Vec<[u32; 3]>,
        over: &mut HashSet<u64>,
        queue: &mut Vec<u64>,
        tile: u32,
        key: u64,
    ) -> Result<(), NoMemory> {
        faces.clear();
        self.push_faces_at(faces, tile, key)?;
        self.push_faces_at(faces, self.owner_of(key), key)?;
        for face in faces.iter() {
            if self.disagree(over, tile, *face) {
                for edge in keys_of(*face) {
                    over.insert(edge)?;
                    queue.push(edge)?;
                }
            }
        }
        Ok(())
    }

    /// Returns the edges that a tile has to get with some edges, so that none disagree with it; `None` if they are too many.
    fn spread(
        &self,
        alloc: Global,
        edges: &[u64],
        tile: u32,
        most: usize,
    ) -> Result<Option<HashSet<u64>>, NoMemory> {
        let mut over = HashSet::new(alloc);
        let mut queue = Vec::new(alloc);
        let mut faces = Vec::new(alloc);
        for edge in edges {
            over.insert(*edge)?;
            queue.push(*edge)?;
        }
        for at in 0..most.saturating_mul(4) {
            if over.len() > most {
                return Ok(None);
            }
            match queue.get(at) {
                Some(key) => {
                    let key = *key;
                    self.give_at(&mut faces, &mut over, &mut queue, tile, key)?;
                }
                None => return Ok(Some(over)),
            }
        }
        Ok(None)
    }

    /// Makes a tile the owner of an edge.
    fn move_to(&mut self, edge: u64, tile: u32) -> Result<(), NoMemory> {
        if self.home_of(edge) == tile {
            self.moved.remove(&edge);
        } else {
            self.moved.insert(edge, tile)?;
        }
        Ok(())
    }

    /// Returns whether a tile owns one of some edges.
    fn owns_any(&self, tile: u32, edges: &[u64]) -> bool {
        for edge in edges {
            if self.owner_of(*edge) == tile {
                return true;
            }
        }
        false
    }

    /// Gives some edges to one of their owners, with those that have to change with them, the fewest, if these are at most `most`.
    fn settle(&mut self, alloc: Global, edges: &[u64], most: usize) -> Result<bool, NoMemory> {
        let mut best: Option<(u32, HashSet<u64>)> = None;
        for (at, edge) in edges.iter().enumerate() {
            let tile = self.owner_of(*edge);
            if self.owns_any(tile, &edges[..at]) {
                continue;
            }
            if let Some(over) = self.spread(alloc, edges, tile, most)? {
                let fewer = match &best {
                    Some((_, least)) => over.len() < least.len(),
                    None => true,
                };
                if fewer {
                    best = Some((tile, over));
                }
            }
        }
        let Some((tile, over)) = best else {
            return Ok(false);
        };
        for edge in over.iter() {
            self.move_to(*edge, tile)?;
        }
        Ok(true)
    }

    /// Does the same, and tries first whether a few edges are enough. They are at most 5,000, and fewer if there
    /// are few places.
    fn settle_soon(&mut self, alloc: Global, edges: &[u64]) -> Result<bool, NoMemory> {
        let most = (self.places.len() / 32).min(5000);
        if self.settle(alloc, edges, most.min(64))? {
            return Ok(true);
        }
        self.settle(alloc, edges, most)
    }
}

fn has_vertex(face: [u32; 3], vertex: u64) -> bool {
    let [a, b, c] = face;
    u64::from(a) == vertex || u64::from(b) == vertex || u64::from(c) == vertex
}

/// Appends the faces at an edge whose smallest vertex is on it.
fn push_first(list: &mut Vec<[u32; 3]>, faces: &[[u32; 3]], key: u64) -> Result<(), NoMemory> {
    let (low, high) = (key / UNIT, key % UNIT);
    let first = faces.partition_point(|face| first_of(*face) < low);
    for face in &faces[first..] {
        if first_of(*face) != low {
            break;
        }
        if has_vertex(*face, high) {
            list.push(*face)?;
        }
    }
    Ok(())
}

/// Appends the faces at an edge whose smallest vertex is not on it.
fn push_second(
    list: &mut Vec<[u32; 3]>,
    faces: &[[u32; 3]],
    middles: &[u64],
    key: u64,
) -> Result<(), NoMemory> {
    let (low, high) = (key / UNIT, key % UNIT);
    let first = middles.partition_point(|middle| *middle / UNIT < low);
    for middle in &middles[first..] {
        if *middle / UNIT != low {
            break;
        }
        if let Some(face) = faces.get((*middle % UNIT) as usize) {
            if has_vertex(*face, high) {
                list.push(*face)?;
            }
        }
    }
    Ok(())
}

/// Returns whether a face has one of these edges.
fn touches(edges: &HashSet<u64>, face: [u32; 3]) -> bool {
    let [a, b, c] = keys_of(face);
    edges.contains(&a) || edges.contains(&b) || edges.contains(&c)
}

/// Returns of how many edges of a face the middle lies in a core.
pub(crate) fn edges_inside(places: &[Point], core: &Core, face: [u32; 3]) -> u32 {
    let [a, b, c] = face;
    let (Some(p), Some(q), Some(r)) = (
        places.get(a as usize),
        places.get(b as usize),
        places.get(c as usize),
    ) else {
        return 0;
    };
    u32::from(core.holds(*p, *q))
        .saturating_add(u32::from(core.holds(*q, *r)))
        .saturating_add(u32::from(core.holds(*r, *p)))
}

/// Appends the faces of a tile with edges in several cores about which owners disagree.
fn push_disputed(
    list: &mut Vec<[u32; 3]>,
    search: &Search,
    nothing: &HashSet<u64>,
    tile: &Tile,
    core: &Core,
) -> Result<(), NoMemory> {
    for face in &tile.faces {
        let inside = edges_inside(search.places, core, *face);
        if (inside == 1 || inside == 2) && search.disagree(nothing, NO_TILE, *face) {
            list.push(*face)?;
        }
    }
    Ok(())
}

/// Returns the faces of tiles with edges in several cores about which owners disagree, ascending.
fn disputed(alloc: Global, search: &Search) -> Result<Vec<[u32; 3]>, NoMemory> {
    let nothing = HashSet::new(alloc);
    let mut list = Vec::new(alloc);
    for (tile, core) in search.tiles.iter().zip(search.cores) {
        push_disputed(&mut list, search, &nothing, tile, core)?;
    }
    list.sort_unstable();
    list.dedup();
    Ok(list)
}

/// Returns the second smallest vertex of a face, whose first one is the smallest.
fn second_of(face: [u32; 3]) -> u32 {
    let [_, b, c] = face;
    b.min(c)
}

fn middles_of_tile(alloc: Global, tile: &Tile) -> Result<Vec<u64>, NoMemory> {
    let mut middles = Vec::with_capacity(alloc, tile.faces.len())?;
    let mut number = 0u64;
    for face in &tile.faces {
        middles.push((u64::from(second_of(*face)) * UNIT).saturating_add(number))?;
        number = number.saturating_add(1);
    }
    middles.sort_unstable();
    Ok(middles)
}

/// Returns the faces of each tile by their second smallest vertices.
fn middles_of(alloc: Global, tiles: &[Tile]) -> Result<Vec<Vec<u64>>, NoMemory> {
    let mut lists = Vec::new(alloc);
    for tile in tiles {
        lists.push(middles_of_tile(alloc, tile)?)?;
    }
    Ok(lists)
}

/// How often faces of different tiles that cross are looked for.
const ROUNDS: usize = 4;

impl<'a> Search<'a> {
    /// Prepares to look for faces at edges.
    fn index(&mut self, alloc: Global) -> Result<(), NoMemory> {
        if self.middles.is_empty() {
            self.middles = middles_of(alloc, self.tiles)?;
        }
        Ok(())
    }

    /// Moves edges until owners agree about these faces. If a face does not come to rest, faces beside it are not tried.
    fn settle_all(&mut self, alloc: Global, faces: &[[u32; 3]]) -> Result<(), NoMemory> {
        self.index(alloc)?;
        let nothing = HashSet::new(alloc);
        let mut left = HashSet::new(alloc);
        for face in faces {
            if self.disagree(&nothing, NO_TILE, *face) {
                let is_tried = touches(&left, *face);
                if is_tried || !self.settle_soon(alloc, &keys_of(*face))? {
                    for edge in keys_of(*face) {
                        left.insert(edge)?;
                    }
                }
            }
        }
        Ok(())
    }

    /// Moves edges so that two faces are not both joined. Returns whether they were.
    fn part(&mut self, alloc: Global, pair: ([u32; 3], [u32; 3])) -> Result<bool, NoMemory> {
        if !self.is_joined(pair.0) || !self.is_joined(pair.1) {
            return Ok(false);
        }
        self.index(alloc)?;
        let [a, b, c] = keys_of(pair.0);
        let [d, e, f] = keys_of(pair.1);
        let _is_done = self.settle_soon(alloc, &[a, b, c, d, e, f])?;
        Ok(true)
    }

    /// Moves edges so that no joined faces of different tiles cross. Returns whether there were any.
    fn part_all(&mut self, alloc: Global) -> Result<bool, NoMemory> {
        let pairs = crossing_pairs(alloc, self)?;
        let mut were_joined = false;
        for pair in &pairs {
            if self.part(alloc, *pair)? {
                were_joined = true;
            }
        }
        Ok(were_joined)
    }
}

/// Returns the tile of each edge that is moved, by the edge's number.
pub(crate) fn moved_edges(
    alloc: Global,
    cores: &[Core],
    places: &[Point],
    tiles: &[Tile],
) -> Result<HashMap<u64, u32>, NoMemory> {
    let mut search = Search {
        cores,
        places,
        tiles,
        middles: Vec::new(alloc),
        moved: HashMap::new(alloc),
    };
    let seeds = disputed(alloc, &search)?;
    if !seeds.is_empty() {
        search.settle_all(alloc, &seeds)?;
    }
    for round in 0..ROUNDS {
        if !search.part_all(alloc)? {
            break;
        }
    }
    Ok(search.moved)
}
