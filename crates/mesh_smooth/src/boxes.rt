//! Inserts the boxes of faces that changed.

ghost use Rattle.std.specs.Prelude.{◌≡◌, ◌≤◌, ◌<◌, ◌*◌, ℕ, All, length, true};
ghost use Rattle.triangles.specs.Trees.{IsInserted};
ghost use Rattle.triangles.specs.declared.hull.Hull.{Hull};
ghost use Rattle.mesh_flips.specs.Turns.{IsTriangle};
ghost use Rattle.mesh_flips.specs.Fields.{HasBox, IsTreeOf};
ghost use Rattle.mesh_smooth.specs.Rounds.{flag, HasRest};

use geo_sign::Point;
use mesh_flips::hull_of;
use triangles::HullTree;

/// Inserts the box of a face at its number if the face is asked.
fn insert_face(points: &[Point], faces: &[[u32; 3]], tree: &mut HullTree, asked: &[bool], f: usize)
    requires each { All (IsTriangle (length points.now)) faces.now }
    requires asked { length asked.now ≡ length faces.now }
    requires face { f < length faces.now }
    requires room { length faces.now ≤ 4 * tree.old.leaves }
    ensures insert { flag asked.now f ≡ true → HasBox points.now faces.now tree.new f }
    ensures kept { (i : ℕ) (h : Hull) → IsInserted tree.old i h → IsInserted tree.new i h }
    ensures same { tree.new.leaves ≡ tree.old.leaves }
{
    if !asked[f] {
        return;
    }
    tree.insert(f, hull_of(points, faces[f]));
}

/// Inserts the box of each asked face.
pub(crate) fn insert_asked(
    points: &[Point],
    faces: &[[u32; 3]],
    tree: &mut HullTree,
    asked: &[bool],
)
    requires each { All (IsTriangle (length points.now)) faces.now }
    requires asked { length asked.now ≡ length faces.now }
    requires rest { HasRest points.now faces.now tree.old asked.now }
    ensures { IsTreeOf points.now faces.now tree.new }
{
    for f in 0..faces.len() {
        insert_face(points, faces, tree, asked, f);
    }
}
