//! The joined mesh, closed.

ghost use Rattle.std.specs.Prelude.{◌≡◌, ◌<◌, ◌^◌, ◌↔◌, ℕ, List, IsTrue, IfOk, IfErr, All, length};
ghost use Rattle.std.specs.HashMap.{hash_map_len};
ghost use Rattle.std.specs.Bool.{OnTrue};
ghost use Rattle.mesh.specs.Meshes.{IsFace, IsMesh};
ghost use Rattle.mesh_edges.specs.Edges.{IsBalanced};
ghost use Rattle.mesh_join.specs.Joins.{lists_of, AreListsOf, AreTiles, IsClosedJoin, IsJoin, IsJoining, IsMeshOfJoin};
ghost use Rattle.mesh_join.specs.Refusals.{IsRefusedJoin, StaysOpen};
ghost use Rattle.mesh_join.specs.declared.owners.Core.{Core};

use crate::all_places::all_places;
use crate::fill::patches_of;
use crate::held::{Tile, joined_faces};
use crate::owners::{Core, Owners};
use crate::places::{are_rising, is_face, tiles_of};
use crate::rows::ascending;
use crate::search::moved_edges;
use crate::slots::places_of;
use crate::twins::twins_of;
use crate::{Mesh, NoMemory};
use geo_sign::Point;
use mesh::mesh_of_facets;
use mesh_edges::{UnbalancedEdge, are_twins, first_unbalanced, paired_meshes_are_closed};
use std::alloc::Global;

/// A joined mesh.
#[derive(Debug, Drop)]
pub struct Joined {
    /// The mesh.
    pub mesh: Mesh,
    /// How many edges are owned by another tile than the one at home.
    pub moved: usize,
    /// How many faces are of no tile.
    pub filled: usize,
}

/// Why tiles are not joined.
#[derive(Clone, Copy, Debug, PartialEq, Eq)]
pub enum Refusal {
    /// There are 4,294,967,296 places or more.
    TooMany,
    /// The tile with this number has a face with two vertices at one place.
    Flat(usize),
    /// An edge stays open, also with filled faces: by its vertices in the mesh that was tried last.
    Open(UnbalancedEdge),
}

/// A mesh that was tried, its faces by numbers of places, and their twins as they were found.
#[derive(Drop)]
struct Trial {
    mesh: Mesh,
    facets: Vec<[u32; 3]>,
    twins: Vec<u32>,
}

/// Places, and the faces of tiles by their numbers.
#[derive(Drop)]
struct Numbering {
    places: Vec<Point>,
    tiles: Vec<Tile>,
}

/// Returns the joined faces and those of a list, ascending.
fn facets_of(
    alloc: Global,
    owners: &Owners,
    tiles: &[Tile],
    filling: &[[u32; 3]],
) -> Result<Vec<[u32; 3]>, NoMemory>
    requires tiles { AreTiles owners.now (lists_of tiles.now) }
    requires filling { All (IsFace (length owners.now.places.items)) filling.now }
    ensures join { IfOk result (λ facets. IsJoin owners.now (lists_of tiles.now) filling.now facets.items) }
    ensures valid { IfOk result (λ facets. All (IsFace (length owners.now.places.items)) facets.items) }
{
    let mut faces = joined_faces(alloc, owners, tiles)?;
    faces.extend_from_slice(filling)?;
    let facets = ascending(alloc, faces)?;
    Ok(facets)
}

/// Joins tiles, with the faces of a list besides.
fn attempt(
    alloc: Global,
    owners: &Owners,
    tiles: &[Tile],
    filling: &[[u32; 3]],
) -> Result<Trial, NoMemory>
    requires few { length owners.now.places.items < 2 ^ 32 }
    requires tiles { AreTiles owners.now (lists_of tiles.now) }
    requires filling { All (IsFace (length owners.now.places.items)) filling.now }
    ensures join { IfOk result (λ a. IsMeshOfJoin owners.now (lists_of tiles.now) filling.now a.mesh.points.items a.mesh.faces.items) }
    ensures valid { IfOk result (λ a. IsMesh a.mesh.points.items a.mesh.faces.items) }
{
    let facets = facets_of(alloc, owners, tiles, filling)?;
    let mesh = mesh_of_facets(alloc, &owners.places, &facets)?;
    let twins = twins_of(alloc, mesh.points.len(), &mesh.faces)?;
    Ok(Trial {
        mesh,
        facets,
        twins,
    })
}

/// Returns whether the twins of a mesh show that it is closed.
fn is_paired(mesh: &Mesh, twins: &[u32]) -> bool
    requires { IsMesh mesh.now.points.items mesh.now.faces.items }
    ensures { OnTrue result (IsBalanced mesh.now.faces.items) }
{
    paired_meshes_are_closed();
    are_twins(&mesh.faces, twins)
}

/// Returns whether a mesh is closed. If its twins do not show that, all edges are sorted.
fn is_closed(alloc: Global, mesh: &Mesh, twins: &[u32]) -> Result<bool, NoMemory>
    requires { IsMesh mesh.now.points.items mesh.now.faces.items }
    ensures { IfOk result (λ closed. IsTrue closed ↔ IsBalanced mesh.now.faces.items) }
{
    if is_paired(mesh, twins) {
        return Ok(true);
    }
    let edge = first_unbalanced(alloc, mesh)?;
    Ok(edge.is_none())
}

/// Returns the faces of a list that are valid among `n` places.
fn valid_faces(alloc: Global, n: usize, list: &[[u32; 3]]) -> Result<Vec<[u32; 3]>, NoMemory>
    ensures { IfOk result (λ faces. All (IsFace n) faces.items) }
{
    let mut faces = Vec::new(alloc);
    for face in list {
        if is_face(n, *face) {
            faces.push(*face)?;
        }
    }
    Ok(faces)
}

/// Joins tiles, and fills what stays open.
fn close(
    alloc: Global,
    owners: &Owners,
    tiles: &[Tile],
) -> Result<Result<Joined, UnbalancedEdge>, NoMemory>
    requires few { length owners.now.places.items < 2 ^ 32 }
    requires tiles { AreTiles owners.now (lists_of tiles.now) }
    ensures closed { IfOk result (λ r. IfOk r (λ j. (filling : List (List ℕ)) × IsClosedJoin owners.now (lists_of tiles.now) filling j.mesh.points.items j.mesh.faces.items × (j.filled ≡ length filling))) }
    ensures moved { IfOk result (λ r. IfOk r (λ j. j.moved ≡ hash_map_len owners.now.moved)) }
    ensures valid { IfOk result (λ r. IfOk r (λ j. IsMesh j.mesh.points.items j.mesh.faces.items)) }
    ensures open { IfOk result (λ r. IfErr r (StaysOpen owners.now (lists_of tiles.now))) }
{
    let moved = owners.moved.len();
    let first = attempt(alloc, owners, tiles, &[])?;
    if is_closed(alloc, &first.mesh, &first.twins)? {
        return Ok(Ok(Joined {
            mesh: first.mesh,
            moved,
            filled: 0,
        }));
    }
    let patches = patches_of(alloc, &owners.places, &first.facets, &first.twins)?;
    drop(first);
    let filling = valid_faces(alloc, owners.places.len(), &patches)?;
    let second = attempt(alloc, owners, tiles, &filling)?;
    match first_unbalanced(alloc, &second.mesh)? {
        None => Ok(Ok(Joined {
            mesh: second.mesh,
            moved,
            filled: filling.len(),
        })),
        Some(edge) => Ok(Err(edge)),
    }
}

/// Numbers the places of vertices. Those that are found soon are used if they fit, else those of a verified sort.
fn number(alloc: Global, meshes: &[Mesh]) -> Result<Result<Numbering, Refusal>, NoMemory>
    requires { All (λ m. IsMesh m.points.items m.faces.items) meshes.now }
    ensures lists { IfOk result (λ r. IfOk r (λ n. AreListsOf n.places.items meshes.now (lists_of n.tiles.items))) }
    ensures refused { IfOk result (λ r. IfErr r (λ why. (cores : List Core) → IsRefusedJoin cores meshes.now why)) }
{
    let places = places_of(alloc, meshes)?;
    if places.len() <= u32::MAX as usize && are_rising(&places) {
        if let Ok(tiles) = tiles_of(alloc, &places, meshes)? {
            return Ok(Ok(Numbering { places, tiles }));
        }
    }
    let places = all_places(alloc, meshes)?;
    if places.len() > u32::MAX as usize {
        return Ok(Err(Refusal::TooMany));
    }
    match tiles_of(alloc, &places, meshes)? {
        Ok(tiles) => Ok(Ok(Numbering { places, tiles })),
        Err(tile) => Ok(Err(Refusal::Flat(tile))),
    }
}

/// Joins the meshes of tiles into one closed mesh: each edge takes the faces of the tile that owns it.
///
/// A tile owns the edges whose middle lies in its core, but for some edges that are moved to another tile, so that tiles agree about
/// every face. Where they still do not, faces of no tile fill what stays open. Both are looked for without a promise; the result is
/// verified: a face is joined exactly if the owners of its three edges have it, and the mesh is closed. So is an error: `Flat` and
/// `TooMany` are about the meshes, and `Open` is about the join that was found and the faces that fill it.
///
/// Places and faces are sorted, and all else is linear but for faces at several cores.
pub fn join_tiles(
    alloc: Global,
    cores: Vec<Core>,
    meshes: &[Mesh],
) -> Result<Result<Joined, Refusal>, NoMemory>
    requires count { length cores.items ≡ length meshes.now }
    requires valid { All (λ m. IsMesh m.points.items m.faces.items) meshes.now }
    ensures joining { IfOk result (λ r. IfOk r (λ j. IsJoining cores.items meshes.now j.mesh.points.items j.mesh.faces.items j.moved j.filled)) }
    ensures valid { IfOk result (λ r. IfOk r (λ j. IsMesh j.mesh.points.items j.mesh.faces.items)) }
    ensures refused { IfOk result (λ r. IfErr r (IsRefusedJoin cores.items meshes.now)) }
{
    let Numbering { places, tiles } = match number(alloc, meshes)? {
        Ok(numbering) => numbering,
        Err(why) => return Ok(Err(why)),
    };
    let moved = moved_edges(alloc, &cores, &places, &tiles)?;
    let owners = Owners {
        cores,
        places,
        moved,
    };
    match close(alloc, &owners, &tiles)? {
        Ok(joined) => Ok(Ok(joined)),
        Err(edge) => Ok(Err(Refusal::Open(edge))),
    }
}
