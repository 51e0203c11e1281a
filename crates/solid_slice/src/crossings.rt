//! The faces that cross the height, listed by the edges that cross it.

ghost use Rattle.std.specs.Prelude.{◌≡◌, ◌++◌, ℕ, OnOk, IfOk, length, map};
ghost use Rattle.std.specs.List.Sorted.{IsNonDecreasingBy};
ghost use Rattle.mesh.specs.Meshes.{IsMesh};
ghost use Rattle.mesh_edges.specs.Edges.{IsBalanced};
ghost use Rattle.solid_slice.specs.Crossings.{crossings_at, key_of_crossing, faces_of_pair, AreCrossings};

use crate::height::{down_edge, up_edge};
use crate::{Mesh, NoMemory};
use mesh_edges::Pair;
use std::alloc::Global;

/// A face, and an edge of it that crosses the height, its lower vertex first.
#[derive(Clone, Copy)]
pub(crate) struct Crossing {
    pub(crate) edge: Pair,
    pub(crate) face: u32,
}

/// The faces by their up edges, and by their down edges.
#[derive(Drop)]
pub(crate) struct Crossings {
    pub(crate) ups: Vec<Crossing>,
    pub(crate) downs: Vec<Crossing>,
}

/// Appends a face's crossing, if it has one.
fn push_crossing(list: &mut Vec<Crossing>, edge: Option<Pair>, face: u32) -> Result<(), NoMemory>
    ensures { OnOk result (list.new.items ≡ list.old.items ++ crossings_at edge face) }
{
    if let Some(edge) = edge {
        list.push(Crossing { edge, face })?;
    }
    Ok(())
}

/// Returns the crossings, in face order.
fn crossings_of(alloc: Global, mesh: &Mesh, height: i32) -> Result<Crossings, NoMemory>
    requires { IsMesh mesh.now.points.items mesh.now.faces.items }
    ensures { IfOk result (λ c. AreCrossings mesh.now.points.items mesh.now.faces.items height (length mesh.now.faces.items) c.ups.items c.downs.items) }
{
    let mut ups = Vec::new(alloc);
    let mut downs = Vec::new(alloc);
    for (number, face) in mesh.faces.iter().enumerate() {
        let up = up_edge(&mesh.points, height, *face);
        push_crossing(&mut ups, up, number as u32)?;
        let down = down_edge(&mesh.points, height, *face);
        push_crossing(&mut downs, down, number as u32)?;
    }
    Ok(Crossings { ups, downs })
}

/// Sorts crossings by their edges, those of one edge in face order.
fn sort_crossings(list: &mut Vec<Crossing>) -> Result<(), NoMemory>
    ensures sorted { OnOk result (IsNonDecreasingBy key_of_crossing list.new.items) }
    ensures stable { OnOk result ((k : ℕ) → faces_of_pair k list.new.items ≡ faces_of_pair k list.old.items) }
{
    list.sort_by_key(|crossing| crossing.edge.key())?;
    Ok(())
}

/// Returns the crossings of a balanced mesh, sorted so that the two lists have the same edge at each index: that of a face's up
/// edge and of the down edge of the face that it follows.
pub(crate) fn matched_crossings(
    alloc: Global,
    mesh: &Mesh,
    height: i32,
) -> Result<Crossings, NoMemory>
    requires valid { IsMesh mesh.now.points.items mesh.now.faces.items }
    requires balanced { IsBalanced mesh.now.faces.items }
    ensures crossings { IfOk result (λ c. AreCrossings mesh.now.points.items mesh.now.faces.items height (length mesh.now.faces.items) c.ups.items c.downs.items) }
    ensures matched { IfOk result (λ c. map key_of_crossing c.ups.items ≡ map key_of_crossing c.downs.items) }
{
    let mut crossings = crossings_of(alloc, mesh, height)?;
    sort_crossings(&mut crossings.ups)?;
    sort_crossings(&mut crossings.downs)?;
    Ok(crossings)
}
