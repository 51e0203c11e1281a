//! Puts corners back, round by round, until no face with a moved corner is in a pair that is not known to be apart.

ghost use Rattle.std.specs.Prelude.{◌≡◌, ◌<◌, ◌^◌, ◌⊎◌, ℕ, All, IfOk, OnOk, length, true, false};
ghost use Rattle.std.specs.Bool.{OnTrue, OnFalse};
ghost use Rattle.mesh.specs.Meshes.{point_at};
ghost use Rattle.mesh_flips.specs.Turns.{IsTriangle};
ghost use Rattle.mesh_flips.specs.Fields.{IsTreeOf};
ghost use Rattle.mesh_flips.specs.Flips.{KeepsApart};
ghost use Rattle.mesh_smooth.specs.Rounds.{flag, AreKeptApart};

use crate::NoMemory;
use crate::boxes::insert_asked;
use crate::marking::mark_crossing;
use crate::putting_back::{ask, put_back};
use geo_sign::Point;
use mesh_flips::tree_of;
use std::alloc::Global;
use triangles::HullTree;

/// Tests the asked faces against those near them, puts corners of pairs that are not apart back, and asks the faces that this changes.
/// Returns whether there is one.
fn next_round(
    alloc: Global,
    points: &mut [Point],
    before: &[Point],
    faces: &[[u32; 3]],
    tree: &mut HullTree,
    asked: &mut [bool],
) -> Result<bool, NoMemory>
    requires each { All (IsTriangle (length points.old)) faces.now }
    requires count { length before.now ≡ length points.old }
    requires asked { length asked.old ≡ length faces.now }
    requires tree { IsTreeOf points.old faces.now tree.old }
    requires kept { AreKeptApart before.now points.old faces.now asked.old }
    ensures either { (v : ℕ) → (point_at points.new v ≡ point_at points.old v) ⊎ (point_at points.new v ≡ point_at before.now v) }
    ensures tree { OnOk result (IsTreeOf points.new faces.now tree.new) }
    ensures kept { OnOk result (AreKeptApart before.now points.new faces.now asked.new) }
    ensures done { IfOk result (λ some. OnFalse some (KeepsApart before.now points.new faces.now faces.now)) }
{
    let mut found = Vec::new(alloc);
    let mut crosses = vec![in alloc; false; faces.len()]?;
    let mut back = vec![in alloc; false; points.len()]?;
    mark_crossing(points, faces, tree, asked, &mut crosses, &mut found)?;
    put_back(points, before, faces, &crosses, &mut back);
    let some = ask(faces, &back, asked);
    insert_asked(points, faces, tree, asked);
    Ok(some)
}

/// Asks all faces.
fn ask_all(asked: &mut [bool])
    ensures { (k : ℕ) → k < length asked.new → flag asked.new k ≡ true }
{
    for k in 0..asked.len() {
        asked[k] = true;
    }
}

/// Goes on until no face is asked. Returns whether that came about within as many rounds as there are points; it does, since each round
/// but the last puts a point back.
fn all_rounds(
    alloc: Global,
    points: &mut [Point],
    before: &[Point],
    faces: &[[u32; 3]],
    tree: &mut HullTree,
    asked: &mut [bool],
) -> Result<bool, NoMemory>
    requires each { All (IsTriangle (length points.old)) faces.now }
    requires count { length before.now ≡ length points.old }
    requires asked { length asked.old ≡ length faces.now }
    requires tree { IsTreeOf points.old faces.now tree.old }
    ensures either { (v : ℕ) → (point_at points.new v ≡ point_at points.old v) ⊎ (point_at points.new v ≡ point_at before.now v) }
    ensures apart { IfOk result (λ done. OnTrue done (KeepsApart before.now points.new faces.now faces.now)) }
{
    ask_all(asked);
    for _ in 0..points.len().saturating_add(1) {
        if !next_round(alloc, points, before, faces, tree, asked)? {
            return Ok(true);
        }
    }
    Ok(false)
}

/// Puts points back to where they were before until faces that were apart then are. Returns whether that came about.
pub(crate) fn untangle(
    alloc: Global,
    points: &mut [Point],
    before: &[Point],
    faces: &[[u32; 3]],
) -> Result<bool, NoMemory>
    requires each { All (IsTriangle (length points.old)) faces.now }
    requires few { length faces.now < 2 ^ 60 }
    requires count { length before.now ≡ length points.old }
    ensures either { (v : ℕ) → (point_at points.new v ≡ point_at points.old v) ⊎ (point_at points.new v ≡ point_at before.now v) }
    ensures apart { IfOk result (λ done. OnTrue done (KeepsApart before.now points.new faces.now faces.now)) }
{
    let mut tree = tree_of(alloc, points, faces)?;
    let mut asked = vec![in alloc; false; faces.len()]?;
    let done = all_rounds(alloc, points, before, faces, &mut tree, &mut asked)?;
    Ok(done)
}
