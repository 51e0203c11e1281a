//! `count_votes` over built cells compared with the brute-force oracle, on scans whose sights cross other cells, are repeated,
//! or have scanners in one cell; and `facets` of these cells compared with the oracle's mesh, with each free cell inside.

ghost use Rattle.std.specs.Prelude.{◌≤◌, All, IsTrue, length};
ghost use Rattle.flow_net.specs.Weights.{IsSightList};
ghost use Rattle.visibility.specs.SceneViews.{IsSightOf};

use super::plain_networks::all_free_inside;
use super::points::{
    are_data, are_distinct, cube, five_scanners, five_sights, four_points, point, scattered,
    scene_of,
};
use delaunay::build;
use flow_net::{Sight, Voted, are_sights};
use geo_sign::Point;
use mesh::Mesh;
use plain_net::{plain_mesh, plain_net};
use std::alloc::{AllocError, Global};
use std::test::Fail;
use surface::facets;
use visibility::Scene;
use votes::count_votes;

/// Returns whether a sight is of one of the points, from one of the scanners.
fn is_in_range(scene: &Scene<'_>, sight: Sight) -> bool
    ensures { IsTrue result → IsSightOf scene.now.points.now scene.now.scanners.now sight }
{
    sight.vertex >= 8
        && ((sight.vertex - 8) as usize) < scene.points.len()
        && (sight.scanner as usize) < scene.scanners.len()
}

/// Returns whether all sights are.
fn are_in_range(scene: &Scene<'_>) -> bool
    ensures { IsTrue result → All (IsSightOf scene.now.points.now scene.now.scanners.now) scene.now.sights.now }
{
    scene.sights.iter().all(|sight| is_in_range(scene, *sight))
}

/// Returns whether two networks are equal, with their nodes and arcs.
fn is_same(alloc: Global, one: &Voted, other: &Voted) -> Result<bool, AllocError> {
    let arcs = one.net.arcs.to_vec(alloc)?;
    let other_arcs = other.net.arcs.to_vec(alloc)?;
    Ok(
        one.cells.as_slice() == other.cells.as_slice()
            && one.facets.as_slice() == other.facets.as_slice()
            && one.net.fixed.as_slice() == other.net.fixed.as_slice()
            && one.net.sink.as_slice() == other.net.sink.as_slice()
            && arcs.as_slice() == other_arcs.as_slice(),
    )
}

/// A network, and the mesh with each free cell inside.
#[derive(Drop)]
struct Answers {
    voted: Voted,
    mesh: Mesh,
}

/// Returns whether two are equal.
fn are_same(alloc: Global, one: &Answers, other: &Answers) -> Result<bool, AllocError> {
    Ok(
        is_same(alloc, &one.voted, &other.voted)?
            && one.mesh.points.as_slice() == other.mesh.points.as_slice()
            && one.mesh.faces.as_slice() == other.mesh.faces.as_slice(),
    )
}

/// Returns those of linked cells, by walks along the sights, or `None` if points are not distinct data points or too many, or
/// sights are out of range or have weight 0.
fn walked(alloc: Global, scene: &Scene<'_>) -> Result<Option<Answers>, AllocError> {
    if scene.points.len() > 48 || !are_sights(scene.sights) {
        return Ok(None);
    }
    if !are_data(scene.points) || !are_distinct(scene.points) || !are_data(scene.scanners) {
        return Ok(None);
    }
    if !are_in_range(scene) {
        return Ok(None);
    }
    let t = build(alloc, scene.points)?;
    t.facts();
    let counted = count_votes(alloc, &t, scene.sights, scene.scanners, scene.settings)?;
    let labels = all_free_inside(alloc, &counted.voted.net)?;
    let mesh = facets(alloc, &t, &counted.ids, &labels)?;
    Ok(Some(Answers {
        voted: counted.voted,
        mesh,
    }))
}

/// Returns those by tests of each facet against each sight.
fn tested(alloc: Global, scene: &Scene<'_>) -> Result<Answers, AllocError>
    requires few { length scene.now.points.now ≤ 48 }
    requires sights { IsSightList scene.now.sights.now }
{
    let voted = plain_net(
        alloc,
        scene.points,
        scene.sights,
        scene.scanners,
        scene.settings,
    )?;
    let labels = all_free_inside(alloc, &voted.net)?;
    let mesh = plain_mesh(alloc, scene.points, &voted, &labels)?;
    Ok(Answers { voted, mesh })
}

/// Returns whether both are equal.
fn agrees(
    alloc: Global,
    points: &[Point],
    scanners: &[Point],
    sights: &[Sight],
) -> Result<bool, Fail> {
    let scene = scene_of(points, scanners, sights)?;
    if scene.points.len() > 48 || !are_sights(scene.sights) {
        return Ok(false);
    }
    let walked = walked(alloc, &scene)?.ok_or("a scan")?;
    let tested = tested(alloc, &scene)?;
    Ok(are_same(alloc, &walked, &tested)?)
}

/// Returns whether they agree if the first of four points is seen once more, through their cell, by a sight with this weight.
fn agrees_on_four(alloc: Global, weight: u32) -> Result<bool, Fail> {
    let points = four_points()?;
    let scanners = five_scanners(point(-1000, -1000, -1000)?)?;
    agrees(alloc, &points, &scanners, &five_sights(4, weight))
}

#[test]
fn four_points_and_a_sight_through_their_cell_agree(rt: HostRuntime) -> Result<(), Fail> {
    if agrees_on_four(rt.alloc(), 1)? && agrees_on_four(rt.alloc(), 255)? {
        Ok(())
    } else {
        Err(Fail::from("another network"))
    }
}

/// Returns a scanner beyond each point, farther along one axis than along the others.
fn beyond(alloc: Global, points: &[Point]) -> Result<Vec<Point>, Fail> {
    let mut scanners = Vec::new(alloc);
    for p in points {
        let (x, y, z) = (i64::from(p.x()), i64::from(p.y()), i64::from(p.z()));
        scanners.push(point(x.wrapping_mul(7), y.wrapping_mul(9), z.wrapping_mul(11))?)?;
    }
    Ok(scanners)
}

/// Returns each of eight points from the scanner of its number, twice, and from the one of the opposite point.
fn from_both_sides(alloc: Global) -> Result<Vec<Sight>, AllocError> {
    let mut sights = Vec::new(alloc);
    for k in 0..8 {
        for (scanner, weight) in [(k, 1), (7 - k, 9), (k, 3)] {
            sights.push(Sight {
                vertex: 8 + k,
                scanner,
                weight,
            })?;
        }
    }
    Ok(sights)
}

/// Returns whether they agree if the corners of a cube are seen so.
fn agrees_on_cube(alloc: Global) -> Result<bool, Fail> {
    let points = cube(alloc, 100)?;
    let scanners = beyond(alloc, &points)?;
    let sights = from_both_sides(alloc)?;
    agrees(alloc, &points, &scanners, &sights)
}

#[test]
fn the_cube_seen_from_both_sides_agrees(rt: HostRuntime) -> Result<(), Fail> {
    if agrees_on_cube(rt.alloc())? {
        Ok(())
    } else {
        Err(Fail::from("another network"))
    }
}

/// Returns three sights of each of 24 points. The last scanner sees nothing, and the first sees some points twice.
fn three_of_each(alloc: Global) -> Result<Vec<Sight>, AllocError> {
    let mut sights = Vec::new(alloc);
    for k in 0..24 {
        for scanner in [k % 5, (3 * k + 1) % 5, 0] {
            sights.push(Sight {
                vertex: 8 + k,
                scanner,
                weight: 1 + 10 * k,
            })?;
        }
    }
    Ok(sights)
}

/// Returns whether they agree if scattered points are seen so.
fn agrees_on_scattered(alloc: Global) -> Result<bool, Fail> {
    let points = scattered(alloc, 0, 24, false)?;
    let scanners = scattered(alloc, 100, 6, false)?;
    let sights = three_of_each(alloc)?;
    agrees(alloc, &points, &scanners, &sights)
}

#[test]
fn scattered_points_seen_from_scattered_scanners_agree(rt: HostRuntime) -> Result<(), Fail> {
    if agrees_on_scattered(rt.alloc())? {
        Ok(())
    } else {
        Err(Fail::from("another network"))
    }
}
