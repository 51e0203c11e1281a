//! A property of the brute-force oracle that no contract states: the mesh of four points.

ghost use Rattle.std.specs.Prelude.{IfOk};
ghost use Rattle.flow_net.specs.Flows.{IsAdmissible};

use super::points::{five_scanners, five_sights, four_points, point, scene_of};
use flow_net::{Labels, Net, Sequence, are_sights};
use mesh::Mesh;
use plain_net::{NoMemory, plain_mesh, plain_net};
use std::alloc::Global;
use std::test::Fail;

/// Labels with each free node inside.
pub fn all_free_inside(alloc: Global, net: &Net) -> Result<Labels, NoMemory>
    ensures { IfOk result (IsAdmissible net.now) }
{
    let mut inside = Vec::new(alloc);
    for fixed in net.fixed.as_slice() {
        inside.push(!*fixed)?;
    }
    Ok(Labels {
        inside: Sequence::from(inside),
    })
}

/// Returns the mesh of four points whose one cell is inside.
fn mesh_of_four(alloc: Global) -> Result<Mesh, Fail> {
    let points = four_points()?;
    let scanners = five_scanners(point(2000, 2000, 2000)?)?;
    let sights = five_sights(0, 1);
    if !are_sights(&sights) {
        return Err(Fail::from("sights"));
    }
    let scene = scene_of(&points, &scanners, &sights)?;
    let voted = plain_net(
        alloc,
        scene.points,
        scene.sights,
        scene.scanners,
        scene.settings,
    )?;
    let labels = all_free_inside(alloc, &voted.net)?;
    Ok(plain_mesh(alloc, scene.points, &voted, &labels)?)
}

#[test]
fn the_cell_of_four_points_has_four_faces(rt: HostRuntime) -> Result<(), Fail> {
    let mesh = mesh_of_four(rt.alloc())?;
    if mesh.faces.as_slice() == [[0, 1, 2], [0, 2, 3], [0, 3, 1], [1, 3, 2]].as_slice() {
        Ok(())
    } else {
        Err(Fail::from("other faces"))
    }
}
