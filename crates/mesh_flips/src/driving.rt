//! Flips edges while that lowers the area of two faces, then while it lowers the angles between faces.

ghost use Rattle.std.specs.Prelude.{◌≡◌, ◌<◌, ◌^◌, All, IfOk, length};
ghost use Rattle.mesh_flips.specs.Turns.{IsTriangle};
ghost use Rattle.mesh_flips.specs.Quads.{IsQuad, flipped};
ghost use Rattle.mesh_flips.specs.Flips.{IsFlipped};
ghost use Rattle.mesh_flips.specs.Clear.{IsFree};
ghost use Rattle.mesh_flips.specs.Fields.{IsReady};

use crate::NoMemory;
use crate::clear::{FlipSite, hull_of, is_free};
use crate::falls::longest_side;
use crate::flips::flip;
use crate::hints::{Aim, Hints, hints_of};
use crate::quad::{Quad, quad_at};
use geo_sign::Point;
use std::alloc::Global;
use triangles::HullTree;

/// What flips lower, one after the other.
#[derive(Clone, Copy, Debug, PartialEq, Eq)]
pub enum FlipOrder {
    /// The area of the faces, which closes pits, then the angles between faces.
    AreaFirst,
    /// The angles between faces alone.
    Angles,
}

impl FlipOrder {
    /// Returns how many of the faces take part where the area is lowered.
    fn area_faces(self, count: usize) -> usize {
        match self {
            FlipOrder::AreaFirst => count,
            FlipOrder::Angles => 0,
        }
    }
}

/// The part of the sum of angle times length by which a flip has to lower it, pass by pass.
const LEAST_GAINS: [f64; 3] = [0.3, 0.1, 0.000000001];

/// How many edges are tried in a pass, for each edge of the mesh.
const LOOKS: usize = 64;

/// Flips an edge and inserts the boxes of the new faces into the tree.
fn turn(points: &[Point], faces: &mut [[u32; 3]], tree: &mut HullTree, site: FlipSite)
    requires ready { IsReady points.now faces.old tree.old }
    requires lie { IsQuad faces.old site.one site.other site.quad }
    requires free { IsFree points.now faces.old site.one site.other site.quad }
    ensures flipped { IsFlipped points.now faces.old faces.new }
    ensures ready { IsReady points.now faces.new tree.new }
{
    let FlipSite { one, other, quad } = site;
    let Quad { a, b, c, d } = quad;
    tree.insert(one, hull_of(points, [a, d, c]));
    tree.insert(other, hull_of(points, [d, b, c]));
    flip(faces, one, other, quad);
}

/// Flips an edge, if that gains more than its aim says and the new faces are clear of all others.
fn try_flip(
    points: &[Point],
    faces: &mut [[u32; 3]],
    tree: &mut HullTree,
    hints: &mut Hints,
    edge: u32,
    aim: Aim,
) -> Result<(), NoMemory>
    requires { IsReady points.now faces.old tree.old }
    ensures flipped { IsFlipped points.now faces.old faces.new }
    ensures ready { IsReady points.now faces.new tree.new }
{
    let twin = hints.twin(edge);
    let Some(quad) = quad_at(faces, edge, twin) else {
        return Ok(());
    };
    let weighed = hints.weigh(points, edge, quad, aim);
    hints.note(edge, weighed.part, aim);
    if weighed.part <= aim.least() {
        return Ok(());
    }
    let site = FlipSite {
        one: (edge / 3) as usize,
        other: (twin / 3) as usize,
        quad,
    };
    if !is_free(points, faces, tree, &mut hints.found, site)? {
        return Ok(());
    }
    turn(points, faces, tree, site);
    hints.turn(points, faces, edge, twin, weighed)
}

/// Tries all edges that may gain, and again those around each flip, until no edge waits.
fn flip_pass(
    points: &[Point],
    faces: &mut [[u32; 3]],
    tree: &mut HullTree,
    hints: &mut Hints,
    aim: Aim,
) -> Result<(), NoMemory>
    requires { IsReady points.now faces.old tree.old }
    ensures flipped { IsFlipped points.now faces.old faces.new }
    ensures ready { IsReady points.now faces.new tree.new }
{
    for face in 0..faces.len() {
        hints.wait_again(face.min(u32::MAX as usize) as u32)?;
    }
    for _ in 0..faces.len().saturating_mul(LOOKS) {
        match hints.next() {
            Some(edge) => try_flip(points, faces, tree, hints, edge, aim)?,
            None => return Ok(()),
        }
    }
    Ok(())
}

/// Weighs an edge of the queue, if there is one, or else flips the edge with the greatest fall of the area. Returns whether there was
/// an edge.
fn step_down(
    points: &[Point],
    faces: &mut [[u32; 3]],
    tree: &mut HullTree,
    hints: &mut Hints,
    longest: f64,
) -> Result<bool, NoMemory>
    requires { IsReady points.now faces.old tree.old }
    ensures flipped { IsFlipped points.now faces.old faces.new }
    ensures ready { IsReady points.now faces.new tree.new }
{
    if let Some(edge) = hints.next() {
        hints.put_by_fall(points, faces, edge, longest)?;
        return Ok(true);
    }
    let Some(fallen) = hints.falls.next() else {
        return Ok(false);
    };
    if hints.falls.is_due(fallen) {
        try_flip(points, faces, tree, hints, fallen.edge, Aim::Area(longest))?;
    }
    Ok(true)
}

/// Flips edges while that lowers the area of two faces, the greatest fall first, if the order begins with it.
fn lower_area(
    points: &[Point],
    faces: &mut [[u32; 3]],
    tree: &mut HullTree,
    hints: &mut Hints,
    longest: f64,
    order: FlipOrder,
) -> Result<(), NoMemory>
    requires { IsReady points.now faces.old tree.old }
    ensures flipped { IsFlipped points.now faces.old faces.new }
    ensures ready { IsReady points.now faces.new tree.new }
{
    let count = order.area_faces(faces.len());
    hints.wait_for_all(count)?;
    for _ in 0..count.saturating_mul(LOOKS) {
        if !step_down(points, faces, tree, hints, longest)? {
            return Ok(());
        }
    }
    Ok(())
}

/// Returns a tree with the box of each face, at the face's number.
pub fn tree_of(alloc: Global, points: &[Point], faces: &[[u32; 3]]) -> Result<HullTree, NoMemory>
    requires each { All (IsTriangle (length points.now)) faces.now }
    requires few { length faces.now < 2 ^ 60 }
    ensures { IfOk result (λ tree. IsReady points.now faces.now tree) }
{
    let mut tree = HullTree::new(alloc, faces.len())?;
    for i in 0..faces.len() {
        tree.insert(i, hull_of(points, faces[i]));
    }
    Ok(tree)
}

/// Flips edges of a mesh where that lowers the angles between faces; if the order says so, first where it lowers the area, the greatest
/// fall first, except at edges of more than 8 median sides.
///
/// `twins[h]` is the opposite of half edge `h`, which is side `h % 3` of face `h / 3`. It is a hint: if it is wrong, that edge is not
/// flipped. Faces that were apart stay apart, and no directed edge occurs twice that did not. After `NoMemory` some edges are flipped,
/// and the same holds.
///
/// Returns the opposites after the flips, a hint again.
pub fn flip_edges(
    alloc: Global,
    points: &[Point],
    faces: &mut [[u32; 3]],
    twins: Vec<u32>,
    order: FlipOrder,
) -> Result<Vec<u32>, NoMemory>
    requires each { All (IsTriangle (length points.now)) faces.old }
    requires few { length faces.old < 2 ^ 60 }
    ensures flipped { IsFlipped points.now faces.old faces.new }
    ensures each { All (IsTriangle (length points.now)) faces.new }
{
    let mut tree = tree_of(alloc, points, faces)?;
    let mut hints = hints_of(alloc, points, faces, twins)?;
    let longest = longest_side(alloc, points, faces)?;
    lower_area(points, faces, &mut tree, &mut hints, longest, order)?;
    hints.measure_all(alloc, points, faces)?;
    for least in LEAST_GAINS {
        flip_pass(points, faces, &mut tree, &mut hints, Aim::Angle(least))?;
    }
    Ok(hints.twins)
}
