//! Puts corners of marked faces back, and finds the faces that change by it.

ghost use Rattle.std.specs.Prelude.{◌≡◌, ◌<◌, ◌||◌, ℕ, All, length, true, false};
ghost use Rattle.std.specs.Bool.{OnTrue, OnFalse};
ghost use Rattle.mesh.specs.Meshes.{point_at};
ghost use Rattle.mesh_edges.specs.Edges.{face_at};
ghost use Rattle.mesh_flips.specs.Turns.{IsTriangle};
ghost use Rattle.mesh_smooth.specs.Rounds.{flag, KeepsFlags, IsStill, HasGoneBack, IsUnflagged, AreAsked};

use geo_sign::Point;

/// Returns whether two points are the same.
fn is_same(p: Point, q: Point) -> bool
    ensures { OnTrue result (p ≡ q) }
{
    p.x() == q.x() && p.y() == q.y() && p.z() == q.z()
}

/// Puts a point back to where it was before, and flags it if that moves it.
fn put_corner(points: &mut [Point], before: &[Point], v: u32, back: &mut [bool])
    requires within { v < length points.old }
    requires count { length before.now ≡ length points.old }
    requires flags { length back.old ≡ length points.old }
    ensures back { HasGoneBack before.now points.old points.new back.old back.new }
    ensures there { point_at points.new v ≡ point_at before.now v }
{
    let k = v as usize;
    if !is_same(before[k], points[k]) {
        points[k] = before[k];
        back[k] = true;
    }
}

/// Puts the corners of a face back if it is marked.
fn put_face(points: &mut [Point], before: &[Point], face: [u32; 3], marked: bool, back: &mut [bool])
    requires face { IsTriangle (length points.old) face }
    requires count { length before.now ≡ length points.old }
    requires flags { length back.old ≡ length points.old }
    ensures back { HasGoneBack before.now points.old points.new back.old back.new }
    ensures there { marked ≡ true → IsStill before.now points.new face }
{
    if !marked {
        return;
    }
    let [a, b, c] = face;
    put_corner(points, before, a, back);
    put_corner(points, before, b, back);
    put_corner(points, before, c, back);
}

/// Puts the corners of all marked faces back.
pub(crate) fn put_back(
    points: &mut [Point],
    before: &[Point],
    faces: &[[u32; 3]],
    crosses: &[bool],
    back: &mut [bool],
)
    requires each { All (IsTriangle (length points.old)) faces.now }
    requires marks { length crosses.now ≡ length faces.now }
    requires count { length before.now ≡ length points.old }
    requires flags { length back.old ≡ length points.old }
    ensures back { HasGoneBack before.now points.old points.new back.old back.new }
    ensures there { (f : ℕ) → f < length faces.now → flag crosses.now f ≡ true → IsStill before.now points.new (face_at faces.now f) }
{
    for f in 0..faces.len() {
        put_face(points, before, faces[f], crosses[f], back);
    }
}

/// Returns whether a corner of a face is flagged.
fn is_changed(face: [u32; 3], back: &[bool]) -> bool
    requires { IsTriangle (length back.now) face }
    ensures { OnFalse result (IsUnflagged back.now face) }
{
    let [a, b, c] = face;
    back[a as usize] || back[b as usize] || back[c as usize]
}

/// Returns whether one of two is so.
fn is_either(one: bool, other: bool) -> bool
    ensures { result ≡ (one || other) }
{
    one || other
}

/// Asks the faces with a flagged corner, and no others. Returns whether there is one.
pub(crate) fn ask(faces: &[[u32; 3]], back: &[bool], asked: &mut [bool]) -> bool
    requires each { All (IsTriangle (length back.now)) faces.now }
    requires count { length asked.old ≡ length faces.now }
    ensures asked { AreAsked faces.now back.now asked.new }
    ensures none { OnFalse result ((f : ℕ) → f < length faces.now → flag asked.new f ≡ false) }
{
    let mut some = false;
    for f in 0..faces.len() {
        let changed = is_changed(faces[f], back);
        asked[f] = changed;
        some = is_either(some, changed);
    }
    some
}
