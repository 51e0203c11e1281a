//! Tests whether an edge may be flipped: the new faces are apart from all others, and no other face has the new edge.

ghost use Rattle.std.specs.Prelude.{◌≡◌, ◌≢◌, ◌<◌, ℕ, [], ◌∷◌, All, Contains, IfOk, length};
ghost use Rattle.std.specs.Bool.{OnTrue};
ghost use Rattle.mesh_flips.specs.Turns.{IsTriangle};
ghost use Rattle.mesh_flips.specs.Quads.{HasCorners};
ghost use Rattle.mesh_edges.specs.Edges.{face_at};
ghost use Rattle.mesh_flips.specs.Clear.{IsClear, IsFree};
ghost use Rattle.triangles.specs.Gaps.{AreFacesApart};
ghost use Rattle.mesh_flips.specs.Fields.{HoldsFace, AreHullsOf, IsTreeOf};
ghost use Rattle.mesh.specs.Meshes.{is_vertex_of, point_at};

use crate::NoMemory;
use crate::quad::Quad;
use geo_sign::Point;
use triangles::{Hull, HullTree, are_apart};

/// An edge that may be flipped: the numbers of its two faces, and their corners.
#[derive(Clone, Copy)]
pub(crate) struct FlipSite {
    pub(crate) one: usize,
    pub(crate) other: usize,
    pub(crate) quad: Quad,
}

/// Boxes of the two new faces of a quad, and of both.
#[derive(Clone, Copy)]
pub(crate) struct QuadHulls {
    pub(crate) first: Hull,
    pub(crate) second: Hull,
    pub(crate) both: Hull,
}

/// Returns the point of a vertex.
fn place(points: &[Point], v: u32) -> Point
    requires { v < length points.now }
    ensures { result ≡ point_at points.now v }
{
    points[v as usize]
}

/// Returns the smallest box that contains a face.
pub fn hull_of(points: &[Point], face: [u32; 3]) -> Hull
    requires { IsTriangle (length points.now) face }
    ensures { HoldsFace points.now result face }
{
    let [a, b, c] = face;
    Hull::of_points(place(points, a), place(points, b), place(points, c))
}

/// Returns whether a face has a vertex.
fn has(face: [u32; 3], v: u32) -> bool
    ensures { result ≡ is_vertex_of v face }
{
    let [a, b, c] = face;
    a == v || b == v || c == v
}

/// Returns whether two faces are known to be apart, by their boxes or by planes.
fn are_known_apart(points: &[Point], one: [u32; 3], hull: Hull, other: [u32; 3], near: Hull) -> bool
    requires one_in { All (λ v. v < length points.now) one }
    requires other_in { All (λ v. v < length points.now) other }
    requires hull { HoldsFace points.now hull one }
    requires near { HoldsFace points.now near other }
    ensures { OnTrue result (AreFacesApart points.now one other) }
{
    if !hull.meets(near) {
        return true;
    }
    are_apart(points, one, other)
}

/// Returns whether the new faces of a quad are known to be apart from a face, and the face has not both ends of the new edge.
fn is_clear(points: &[Point], face: [u32; 3], hulls: QuadHulls, quad: Quad) -> bool
    requires face { IsTriangle (length points.now) face }
    requires corners { HasCorners (length points.now) quad }
    requires hulls { AreHullsOf points.now hulls quad }
    ensures { OnTrue result (IsClear points.now quad face) }
{
    let hull = hull_of(points, face);
    if !hull.meets(hulls.both) {
        return true;
    }
    let Quad { a, b, c, d } = quad;
    if has(face, c) && has(face, d) {
        return false;
    }
    if !are_known_apart(points, [a, d, c], hulls.first, face, hull) {
        return false;
    }
    are_known_apart(points, [d, b, c], hulls.second, face, hull)
}

/// Returns the smallest box that contains three points.
fn hull_around(points: &[Point], a: u32, b: u32, c: u32) -> Hull
    requires a { a < length points.now }
    requires b { b < length points.now }
    requires c { c < length points.now }
    ensures { HoldsFace points.now result (a ∷ b ∷ c ∷ []) }
{
    Hull::of_points(place(points, a), place(points, b), place(points, c))
}

/// Returns the boxes of a quad.
fn hulls_of(points: &[Point], quad: Quad) -> QuadHulls
    requires { HasCorners (length points.now) quad }
    ensures { AreHullsOf points.now result quad }
{
    let Quad { a, b, c, d } = quad;
    let first = hull_around(points, a, d, c);
    let second = hull_around(points, d, b, c);
    let both = first.joined(second);
    QuadHulls {
        first,
        second,
        both,
    }
}

/// Returns whether a number is that of one of the quad's own faces, of no face, or of a face that is clear.
fn is_own_or_clear(
    points: &[Point],
    faces: &[[u32; 3]],
    i: usize,
    hulls: QuadHulls,
    site: FlipSite,
) -> bool
    requires each { All (IsTriangle (length points.now)) faces.now }
    requires corners { HasCorners (length points.now) site.quad }
    requires hulls { AreHullsOf points.now hulls site.quad }
    ensures { OnTrue result (i < length faces.now → i ≢ site.one → i ≢ site.other → IsClear points.now site.quad (face_at faces.now i)) }
{
    if i >= faces.len() || i == site.one || i == site.other {
        return true;
    }
    is_clear(points, faces[i], hulls, site.quad)
}

/// Returns whether each of some faces, but for two, is clear of a quad.
fn are_clear(
    points: &[Point],
    faces: &[[u32; 3]],
    found: &[usize],
    hulls: QuadHulls,
    site: FlipSite,
) -> bool
    requires each { All (IsTriangle (length points.now)) faces.now }
    requires corners { HasCorners (length points.now) site.quad }
    requires hulls { AreHullsOf points.now hulls site.quad }
    ensures { OnTrue result ((i : ℕ) → Contains found.now i → i < length faces.now → i ≢ site.one → i ≢ site.other → IsClear points.now site.quad (face_at faces.now i)) }
{
    for i in found {
        if !is_own_or_clear(points, faces, *i, hulls, site) {
            return false;
        }
    }
    true
}

/// Returns whether an edge may be flipped.
pub(crate) fn is_free(
    points: &[Point],
    faces: &[[u32; 3]],
    tree: &HullTree,
    found: &mut Vec<usize>,
    site: FlipSite,
) -> Result<bool, NoMemory>
    requires each { All (IsTriangle (length points.now)) faces.now }
    requires corners { HasCorners (length points.now) site.quad }
    requires tree { IsTreeOf points.now faces.now tree.now }
    ensures { IfOk result (λ yes. OnTrue yes (IsFree points.now faces.now site.one site.other site.quad)) }
{
    found.clear();
    let hulls = hulls_of(points, site.quad);
    tree.near(hulls.both, found)?;
    if !are_clear(points, faces, found, hulls, site) {
        return Ok(false);
    }
    let Quad { a, b, c, d } = site.quad;
    Ok(are_apart(points, [a, d, c], [d, b, c]))
}
