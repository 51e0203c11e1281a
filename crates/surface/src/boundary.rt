//! The mesh of labels.

ghost use Rattle.std.specs.Prelude.{◌≡◌, IfOk, AllPairs, length};
ghost use Rattle.flow_net.specs.Nets.{flag_at};
ghost use Rattle.geo_sign.specs.Rising.{IsBefore};
ghost use Rattle.mesh.specs.Meshes.{IsMesh};
ghost use Rattle.surface.specs.Closed.{IsClosed};
ghost use Rattle.surface.specs.Labelled.{AreAllLive, IsCutMesh, NoneHasCorner, OverScenes, listed_label, mesh_over};

use crate::NoMemory;
use crate::cut::{cut_facets, outside_flags};
use crate::numbered::labels_by_number;
use flow_net::Labels;
use geo_sign::Point;
use mesh::{Mesh, mesh_of_facets};
use std::alloc::Global;
use tetra_store::{CellId, Tetra};

/// Returns the positions of the vertices, in order of their numbers.
fn points_of(alloc: Global, t: &Tetra) -> Result<Vec<Point>, NoMemory>
    ensures { IfOk result (λ points. points.items ≡ t.now.points) }
{
    let mut points = Vec::with_capacity(alloc, t.vertex_count() as usize)?;
    for v in 0..t.vertex_count() {
        points.push(t.point(v))?;
    }
    Ok(points)
}

/// Returns the mesh of labels of linked cells: the facets of outside cells whose adjacent cell is inside, directed as in the
/// outside cell, so that a face's three points are counterclockwise as seen from outside. The cells need only satisfy the
/// invariant of the store.
///
/// `ids` are all live cells of the store, each once, in any order, and `labels` has one label for each of them, in this order.
/// No cell inside has a corner of the box. Points without a face are left out, and the others are numbered in the order of
/// their vertex numbers. The faces have their smallest number first and ascend. They are closed: each directed edge occurs as
/// often as its reverse. If the cells are all cells of a scene and no cell that is fixed outside is inside, the facets are
/// those of the scene that the labels cut. The only error is out of memory, also for 2^32 faces and more. With the labels at
/// the cells' numbers, `facets_by_number` makes the same mesh and copies no labels.
pub fn facets(alloc: Global, t: &Tetra, ids: &[CellId], labels: &Labels) -> Result<Mesh, NoMemory>
    requires ids { AreAllLive t.now.slots ids.now }
    requires labels { length labels.now.inside ≡ length ids.now }
    requires corners { NoneHasCorner t.now.slots (listed_label ids.now labels.now.inside) }
    ensures cut { IfOk result (IsCutMesh t.now.points t.now.slots (listed_label ids.now labels.now.inside)) }
    ensures points { OverScenes t.now.slots (listed_label ids.now labels.now.inside) (λ scene rising test. IfOk result (λ mesh. mesh.points.items ≡ (mesh_over t.now.points scene rising test).points)) }
    ensures faces { OverScenes t.now.slots (listed_label ids.now labels.now.inside) (λ scene rising test. IfOk result (λ mesh. mesh.faces.items ≡ (mesh_over t.now.points scene rising test).faces)) }
    ensures valid { IfOk result (λ mesh. IsMesh mesh.points.items mesh.faces.items) }
    ensures rising { IfOk result (λ mesh. AllPairs IsBefore mesh.faces.items) }
    ensures closed { IfOk result (λ mesh. IsClosed mesh.faces.items) }
{
    t.facts();
    let inside = labels_by_number(alloc, t, ids, labels)?;
    facets_by_number(alloc, t, &inside)
}

/// Makes the mesh of labels as `facets` does, where `inside` has the labels at the cells' numbers in the store; a cell past its end is
/// outside.
pub fn facets_by_number(alloc: Global, t: &Tetra, inside: &[bool]) -> Result<Mesh, NoMemory>
    requires { NoneHasCorner t.now.slots (flag_at inside.now) }
    ensures cut { IfOk result (IsCutMesh t.now.points t.now.slots (flag_at inside.now)) }
    ensures points { OverScenes t.now.slots (flag_at inside.now) (λ scene rising test. IfOk result (λ mesh. mesh.points.items ≡ (mesh_over t.now.points scene rising test).points)) }
    ensures faces { OverScenes t.now.slots (flag_at inside.now) (λ scene rising test. IfOk result (λ mesh. mesh.faces.items ≡ (mesh_over t.now.points scene rising test).faces)) }
    ensures valid { IfOk result (λ mesh. IsMesh mesh.points.items mesh.faces.items) }
    ensures rising { IfOk result (λ mesh. AllPairs IsBefore mesh.faces.items) }
    ensures closed { IfOk result (λ mesh. IsClosed mesh.faces.items) }
{
    t.facts();
    let outside = outside_flags(alloc, inside, t.number_limit())?;
    let facets = cut_facets(alloc, t, &outside)?;
    let points = points_of(alloc, t)?;
    mesh_of_facets(alloc, &points, &facets)
}
