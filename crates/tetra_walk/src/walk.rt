//! The loop of all walks, and where they end.

ghost use Rattle.std.specs.Prelude.{◌≡◌, ◌≤◌, ◌<◌, ◌↔◌, ℕ, true, IsTrue, IfSome, IfNone, length, slice_index};
ghost use Rattle.geo_sign.specs.declared.point.TheConstants.{CORNERS, DATA_LIMIT};
ghost use Rattle.geo_sign.specs.Point.{IsWithin};
ghost use Rattle.geo_sign.specs.Rational.{rational, displaced};
ghost use Rattle.geo_sign.specs.Sights.{is_cell_of, is_towards, is_behind};
ghost use Rattle.geo_sign.specs.Vertices.{Has};
ghost use Rattle.geo_sign.specs.Places.{IsLyingIn};
ghost use Rattle.tetra_store.specs.Delaunay.{IsDelaunay};
ghost use Rattle.tetra_store.specs.Links.{links_of, tetrahedron_from, IsLive};
ghost use Rattle.tetra_store.specs.Store.{vertices_of};
ghost use Rattle.tetra_walk.specs.Goals.{place_of, IsGoal};
ghost use Rattle.tetra_walk.specs.Walks.{IsBehindSide};

use crate::goal::Goal;
use crate::side::facet;
use geo_sign::Point;
use tetra_store::{CellId, Tetra};

/// Returns whether the goal is behind a side of the cell with these vertices.
fn is_behind_side(t: &Tetra, goal: &Goal, v: [u32; 4], side: usize) -> bool
    requires goal { IsGoal goal.now }
    requires side { side < 4 }
    requires known { (k : ℕ) → k < 4 → slice_index v k < length t.now.points }
    ensures { IsTrue result ↔ IsBehindSide (vertices_of t.now) (tetrahedron_from v) side (place_of goal.now) }
{
    t.facts();
    let [a, b, c] = facet(v, side);
    goal.is_behind(t.point(a), t.point(b), t.point(c))
}

/// Returns the first side that the goal is behind, except for one that the goal is known not to be behind. A number above 3 is
/// no side.
fn side_behind(t: &Tetra, goal: &Goal, v: [u32; 4], entered: usize) -> Option<usize>
    requires goal { IsGoal goal.now }
    requires known { (k : ℕ) → k < 4 → slice_index v k < length t.now.points }
    requires entered { entered < 4 → ¬ IsBehindSide (vertices_of t.now) (tetrahedron_from v) entered (place_of goal.now) }
    ensures some { IfSome result (λ k. (k < 4) × IsBehindSide (vertices_of t.now) (tetrahedron_from v) k (place_of goal.now)) }
    ensures none { IfNone result ((k : ℕ) → k < 4 → ¬ IsBehindSide (vertices_of t.now) (tetrahedron_from v) k (place_of goal.now)) }
{
    for side in 0..4 {
        if side != entered && is_behind_side(t, goal, v, side) {
            return Some(side);
        }
    }
    None
}

/// The entry side before the first step: none.
pub const NO_SIDE: usize = 4;

/// Walks to a cell that contains the goal. Never tests the side through which it entered a cell: the goal was behind the
/// opposite facet.
fn walk_to(t: &Tetra, goal: &Goal, from: CellId) -> CellId
    requires delaunay { IsDelaunay (vertices_of t.now) (links_of t.now.slots) }
    requires goal { IsGoal goal.now }
    requires live { IsLive (links_of t.now.slots) from }
    ensures live { IsLive (links_of t.now.slots) result }
    ensures lies { IsLyingIn (vertices_of t.now) ((links_of t.now.slots).at result) (place_of goal.now) }
{
    t.facts();
    let mut at = from;
    let mut vertices = t.vertices(at);
    let mut entered = NO_SIDE;
    loop {
        match side_behind(t, goal, vertices, entered) {
            None => return at,
            Some(side) => match t.neighbor(at, side) {
                Some(next) => {
                    at = next.id;
                    vertices = next.vertices;
                    entered = next.side;
                }
                None => unreachable!(),
            },
        }
    }
}

/// Returns a cell that contains a data point, inside or on a facet, found by a walk from any live cell. The cells have to be
/// Delaunay.
///
/// It allocates no memory and does not fail: each data point lies in some cell. The nearer the start, the shorter the walk.
pub fn locate(t: &Tetra, q: Point, from: CellId) -> CellId
    requires delaunay { IsDelaunay (vertices_of t.now) (links_of t.now.slots) }
    requires data_point { IsWithin DATA_LIMIT q }
    requires live { IsLive (links_of t.now.slots) from }
    ensures live { IsLive (links_of t.now.slots) result }
    ensures lies { IsLyingIn (vertices_of t.now) ((links_of t.now.slots).at result) (rational q) }
{
    walk_to(t, &Goal::Point(q), from)
}

/// Returns the cell that contains the symbolically perturbed scanner at a data point, found by a walk from any live cell. There
/// is exactly one, even if the point is a vertex or lies on a facet. The cells have to be Delaunay.
///
/// It allocates no memory and does not fail. The nearer the start, the shorter the walk.
pub fn locate_displaced(t: &Tetra, s: Point, from: CellId) -> CellId
    requires delaunay { IsDelaunay (vertices_of t.now) (links_of t.now.slots) }
    requires data_point { IsWithin DATA_LIMIT s }
    requires live { IsLive (links_of t.now.slots) from }
    ensures live { IsLive (links_of t.now.slots) result }
    ensures is { is_cell_of (vertices_of t.now) (displaced s) ((links_of t.now.slots).at result) ≡ true }
    ensures only { (id : ℕ) → IsLive (links_of t.now.slots) id → is_cell_of (vertices_of t.now) (displaced s) ((links_of t.now.slots).at id) ≡ true → id ≡ result }
{
    t.facts();
    walk_to(t, &Goal::Scanner(s), from)
}

/// Returns the cell that contains the symbolically perturbed scanner at a data point. There is exactly one. The cells have to
/// be Delaunay.
///
/// It allocates no memory and does not fail. The walk begins at a corner: from a cell nearby, [`locate_displaced`] is shorter.
pub fn locate_scanner(t: &Tetra, s: Point) -> CellId
    requires delaunay { IsDelaunay (vertices_of t.now) (links_of t.now.slots) }
    requires data_point { IsWithin DATA_LIMIT s }
    ensures live { IsLive (links_of t.now.slots) result }
    ensures is { is_cell_of (vertices_of t.now) (displaced s) ((links_of t.now.slots).at result) ≡ true }
    ensures only { (id : ℕ) → IsLive (links_of t.now.slots) id → is_cell_of (vertices_of t.now) (displaced s) ((links_of t.now.slots).at id) ≡ true → id ≡ result }
{
    t.facts();
    locate_displaced(t, s, t.cell_at(0))
}

/// Returns the cell at a vertex that the sight to a scanner enters first: the scanner is on the inner side of each of its
/// facets there. There is exactly one. The cells have to be Delaunay, the vertex an inserted data point, the scanner at a data
/// point.
///
/// It allocates no memory and does not fail. The walk begins in the vertex's incident cell, and mostly stays among the cells at
/// it.
pub fn toward(t: &Tetra, v: u32, s: Point) -> CellId
    requires delaunay { IsDelaunay (vertices_of t.now) (links_of t.now.slots) }
    requires inserted { Has (vertices_of t.now) v }
    requires data_vertex { CORNERS ≤ v }
    requires data_point { IsWithin DATA_LIMIT s }
    ensures live { IsLive (links_of t.now.slots) result }
    ensures is { is_towards (vertices_of t.now) v (displaced s) ((links_of t.now.slots).at result) ≡ true }
    ensures only { (id : ℕ) → IsLive (links_of t.now.slots) id → is_towards (vertices_of t.now) v (displaced s) ((links_of t.now.slots).at id) ≡ true → id ≡ result }
{
    t.facts();
    walk_to(t, &Goal::Towards(t.point(v), s), t.cell_at(v))
}

/// Returns the cell at a vertex behind the sight from a scanner: the scanner is on the outer side of each of its facets there.
/// There is exactly one. The cells have to be Delaunay, the vertex an inserted data point, the scanner at a data point.
///
/// It allocates no memory and does not fail.
pub fn behind(t: &Tetra, v: u32, s: Point) -> CellId
    requires delaunay { IsDelaunay (vertices_of t.now) (links_of t.now.slots) }
    requires inserted { Has (vertices_of t.now) v }
    requires data_vertex { CORNERS ≤ v }
    requires data_point { IsWithin DATA_LIMIT s }
    ensures live { IsLive (links_of t.now.slots) result }
    ensures is { is_behind (vertices_of t.now) v (displaced s) ((links_of t.now.slots).at result) ≡ true }
    ensures only { (id : ℕ) → IsLive (links_of t.now.slots) id → is_behind (vertices_of t.now) v (displaced s) ((links_of t.now.slots).at id) ≡ true → id ≡ result }
{
    t.facts();
    walk_to(t, &Goal::Behind(t.point(v), s), t.cell_at(v))
}
