//! Which vertices are above the height, and the edges of a face that cross it.

ghost use Rattle.std.specs.Prelude.{◌≡◌, ◌+◌, ◌<◌, ◌≤◌, ◌^◌, IfSome, IfNone, true, false, length, unsigned_abs, ◌+ℤ◌, ◌-ℤ◌, ◌*ℤ◌};
ghost use Rattle.mesh.specs.Meshes.{IsFace, IsMesh, point_at};
ghost use Rattle.solid_slice.specs.Cuts.{is_above, is_cut_face, is_cut_at, IsUpEdge, IsDownEdge, IsStep, at_height, rise};

use crate::Mesh;
use crate::step::Step;
use geo_sign::Point;
use mesh_edges::Pair;

/// Returns whether a vertex is above `height + 1/2`.
fn is_vertex_above(points: &[Point], height: i32, vertex: u32) -> bool
    requires { vertex < length points.now }
    ensures { result ≡ is_above points.now height vertex }
{
    points[vertex as usize].z() > height
}

/// Returns the edge of a face that crosses the height upwards, if the face is cut.
pub(crate) fn up_edge(points: &[Point], height: i32, face: [u32; 3]) -> Option<Pair>
    requires { IsFace (length points.now) face }
    ensures some { IfSome result (λ e. IsUpEdge points.now height face e.first e.second) }
    ensures none { IfNone result (is_cut_face points.now height face ≡ false) }
{
    let [a, b, c] = face;
    let over_a = is_vertex_above(points, height, a);
    let over_b = is_vertex_above(points, height, b);
    let over_c = is_vertex_above(points, height, c);
    if !over_a && over_b {
        return Some(Pair {
            first: a,
            second: b,
        });
    }
    if !over_b && over_c {
        return Some(Pair {
            first: b,
            second: c,
        });
    }
    if !over_c && over_a {
        return Some(Pair {
            first: c,
            second: a,
        });
    }
    None
}

/// Returns the edge of a face that crosses the height downwards, its lower vertex first, if the face is cut. In the reversed
/// face it goes up.
pub(crate) fn down_edge(points: &[Point], height: i32, face: [u32; 3]) -> Option<Pair>
    requires { IsFace (length points.now) face }
    ensures some { IfSome result (λ e. IsDownEdge points.now height face e.second e.first) }
    ensures none { IfNone result (is_cut_face points.now height face ≡ false) }
{
    let [a, b, c] = face;
    up_edge(points, height, [a, c, b])
}

/// Returns whether a face has vertices above and below.
pub(crate) fn is_face_cut(points: &[Point], height: i32, face: [u32; 3]) -> bool
    requires { IsFace (length points.now) face }
    ensures { result ≡ is_cut_face points.now height face }
{
    let [a, b, c] = face;
    let over_a = is_vertex_above(points, height, a);
    let over_b = is_vertex_above(points, height, b);
    let over_c = is_vertex_above(points, height, c);
    (over_a || over_b || over_c) && (!over_a || !over_b || !over_c)
}

/// Returns the coordinate where an edge crosses the height, times its rise `d`: twice the height from its lower end to its
/// upper one; `climb` is twice the height to the plane.
fn along_edge(from: i64, to: i64, d: i64, climb: i64) -> i64
    requires from_within { unsigned_abs from ≤ 2 ^ 23 }
    requires to_within { unsigned_abs to ≤ 2 ^ 23 }
    requires d_within { unsigned_abs d ≤ 2 ^ 25 }
    requires climb_within { unsigned_abs climb ≤ 2 ^ 25 + 1 }
    ensures { result ≡ from *ℤ d +ℤ (to -ℤ from) *ℤ climb }
{
    from * d + (to - from) * climb
}

/// Returns the step of a face with this up edge: the point where the edge crosses the height.
fn step_on(points: &[Point], height: i32, edge: Pair, face: u32) -> Step
    requires lower { edge.first < length points.now }
    requires upper { edge.second < length points.now }
    requires from_below { is_above points.now height edge.first ≡ false }
    requires to_above { is_above points.now height edge.second ≡ true }
    ensures x { result.x ≡ at_height height (point_at points.now edge.first) (point_at points.now edge.second) (point_at points.now edge.first).x (point_at points.now edge.second).x }
    ensures y { result.y ≡ at_height height (point_at points.now edge.first) (point_at points.now edge.second) (point_at points.now edge.first).y (point_at points.now edge.second).y }
    ensures d { result.d ≡ rise (point_at points.now edge.first) (point_at points.now edge.second) }
    ensures face { result.face ≡ face }
{
    let lower = points[edge.first as usize];
    let upper = points[edge.second as usize];
    lower.facts();
    upper.facts();
    let low = i64::from(lower.z());
    let d = 2 * (i64::from(upper.z()) - low);
    let climb = 2 * i64::from(height) + 1 - 2 * low;
    let x = along_edge(i64::from(lower.x()), i64::from(upper.x()), d, climb);
    let y = along_edge(i64::from(lower.y()), i64::from(upper.y()), d, climb);
    Step { face, x, y, d }
}

/// Returns the step of a cut face: the point on its up edge.
pub(crate) fn step_of(mesh: &Mesh, height: i32, face: u32) -> Step
    requires valid { IsMesh mesh.now.points.items mesh.now.faces.items }
    requires cut { is_cut_at mesh.now.points.items mesh.now.faces.items height face ≡ true }
    ensures step { IsStep mesh.now.points.items mesh.now.faces.items height result }
    ensures face { result.face ≡ face }
{
    let edge = up_edge(&mesh.points, height, mesh.faces[face as usize]).unwrap();
    step_on(&mesh.points, height, edge, face)
}
