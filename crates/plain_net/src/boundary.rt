//! The mesh of labels: the facets of outside cells with an inside adjacent cell. It depends on `network` and `mesh_ply`.

ghost use Rattle.std.specs.Prelude.{◌≡◌, ◌<◌, ◌≤◌, ◌++◌, IfOk, AllPairs, length};
ghost use Rattle.flow_net.specs.Flows.{IsAdmissible};
ghost use Rattle.geo_sign.specs.Vertices.{corners, boxed_vertices};
ghost use Rattle.geo_sign.specs.Rising.{IsBefore};
ghost use Rattle.mesh.specs.Meshes.{IsMesh};
ghost use Rattle.plain_net.specs.Networks.{IsNetworkAmong};
ghost use Rattle.plain_net.specs.CutRows.{is_cut_arc, cut_rows, mesh_cut};
ghost use Rattle.geo_tie.specs.declared.cells.TheConstants.{PLAIN_LIMIT};

use crate::NoMemory;
use crate::vertices::flag;
use flow_net::{Arc, Labels, Voted};
use geo_sign::{Point, corner};
use mesh::{Mesh, mesh_of_facets};
use std::alloc::Global;

/// The corners of the box, and the points after them.
fn indices(alloc: Global, points: &[Point]) -> Result<Vec<Point>, NoMemory>
    ensures { IfOk result (λ indices. indices.items ≡ corners ++ points.now) }
{
    let mut indices = Vec::from_slice(
        alloc,
        &[
            corner(0),
            corner(1),
            corner(2),
            corner(3),
            corner(4),
            corner(5),
            corner(6),
            corner(7),
        ],
    )?;
    indices.extend_from_slice(points)?;
    Ok(indices)
}

/// Whether an arc leads from an outside node to an inside one.
fn is_cut(arcs: &[Arc], inside: &[bool], index: usize) -> bool
    requires { index < length arcs.now }
    ensures { result ≡ is_cut_arc arcs.now inside.now index }
{
    let arc = &arcs[index];
    !flag(inside, arc.from) && flag(inside, arc.to)
}

/// The facets of the arcs that lead from an outside node to an inside one.
fn cut(
    alloc: Global,
    arcs: &[Arc],
    inside: &[bool],
    facets: &[[u32; 3]],
) -> Result<Vec<[u32; 3]>, NoMemory>
    requires { length facets.now ≡ length arcs.now }
    ensures { IfOk result (λ v. v.items ≡ cut_rows (length facets.now) arcs.now inside.now facets.now) }
{
    let mut list = Vec::new(alloc);
    for (index, numbers) in facets.iter().enumerate() {
        if is_cut(arcs, inside, index) {
            list.push(*numbers)?;
        }
    }
    Ok(list)
}

/// The mesh of labels of the network of these points: the facets of outside cells with an inside adjacent cell, as outside
/// cells have them, so that a face's three points turn counterclockwise as seen from outside.
///
/// Points that no face has are left out, and the others are numbered in the order of their vertex numbers. The faces have their
/// smallest number first and rise. The only error is out of memory, which also stands for more than 2^32 - 1 faces.
pub fn plain_mesh(
    alloc: Global,
    points: &[Point],
    voted: &Voted,
    labels: &Labels,
) -> Result<Mesh, NoMemory>
    requires few { length points.now ≤ PLAIN_LIMIT }
    requires network { IsNetworkAmong (boxed_vertices points.now) voted.now }
    requires labels { IsAdmissible voted.now.net labels.now }
    ensures points { IfOk result (λ mesh. mesh.points.items ≡ (mesh_cut points.now voted.now labels.now).points) }
    ensures faces { IfOk result (λ mesh. mesh.faces.items ≡ (mesh_cut points.now voted.now labels.now).faces) }
    ensures valid { IfOk result (λ mesh. IsMesh mesh.points.items mesh.faces.items) }
    ensures rising { IfOk result (λ mesh. AllPairs IsBefore mesh.faces.items) }
{
    let indices = indices(alloc, points)?;
    let arcs = voted.net.arcs.to_vec(alloc)?;
    let cut = cut(
        alloc,
        &arcs,
        labels.inside.as_slice(),
        voted.facets.as_slice(),
    )?;
    mesh_of_facets(alloc, &indices, &cut)
}
