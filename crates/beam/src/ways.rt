//! The side through which a line of sight came into a cell, seen from its vertex: where it leaves the cell if it is followed
//! from the scanner outward.
//!
//! It comes in through a side whose facet has the scanner on its inner side, and so not through a side d that has not. The
//! facets of the other sides x, y and z turn around vertex d: d y z, d z x and d x y. A line of sight that comes in through x
//! passes the edge d y on one side and the edge d z on the other; and so do y and z with theirs. So the planes through the
//! scanner and these edges part the lines of sight among the three sides, and two signs tell which it is, or one if another
//! side is excluded as well. If none is, the line of sight of vertex d itself begins in the cell.

ghost use Rattle.std.specs.Prelude.{◌≡◌, ◌<◌, ◌↔◌, ◌<ℤ◌, ℕ, pos, true, false, IsTrue, IfSome, length, get_or, slice_index, slice_index_or};
ghost use Rattle.geo_sign.specs.Cells.{IsCell};
ghost use Rattle.geo_sign.specs.Point.{origin};
ghost use Rattle.geo_sign.specs.Rational.{side, rational, displaced};
ghost use Rattle.geo_sign.specs.Sights.{is_crossed};
ghost use Rattle.geo_sign.specs.Tetrahedron.{facet_of};
ghost use Rattle.tetra_store.specs.Links.{tetrahedron_from};
ghost use Rattle.tetra_store.specs.Store.{vertices_of};
ghost use Rattle.cell_laws.specs.Paths.{IsOnSight};
ghost use Rattle.sight.specs.Exits.{IsEntered};
ghost use Rattle.beam.specs.Planes.{IsPlaneOf};
ghost use Rattle.beam.specs.Ways.{IsRayIn, IsCrossing, IsTurn, AreKnown, IsAhead, AreAhead, IsPair, IsTriple, AreWays};

use crate::plane::{Plane, is_before, plane_of};
use geo_sign::{Point, Sign, orient, side_of_scanner};
use tetra_store::Tetra;
use tetra_walk::{NO_SIDE, facet};

/// A line of sight to a scanner: from the point of a vertex, with the weight that it adds to each facet that it crosses.
#[derive(Clone, Copy)]
pub struct Ray {
    /// The position of the vertex.
    pub point: Point,
    /// The vertex.
    pub vertex: u32,
    /// The weight.
    pub added: u32,
}

/// A vertex of a cell, and the three other sides in the order in which their facets turn around it.
#[derive(Clone, Copy)]
pub(crate) struct Turn {
    pub(crate) around: usize,
    pub(crate) first: usize,
    pub(crate) second: usize,
    pub(crate) third: usize,
}

/// Two sides, and the plane that parts the lines of sight between them: those whose points are before it came in through one.
#[derive(Clone, Copy)]
pub(crate) struct Pair {
    pub(crate) plane: Plane,
    pub(crate) before: usize,
    pub(crate) behind: usize,
}

/// Three sides around a vertex, each with the plane through the scanner and the edge from the vertex to the one opposite to
/// the side.
#[derive(Clone, Copy)]
pub(crate) struct Triple {
    pub(crate) vertex: u32,
    pub(crate) turn: Turn,
    pub(crate) first: Plane,
    pub(crate) second: Plane,
    pub(crate) third: Plane,
}

/// How the lines of sight to one scanner came into a cell.
#[derive(Clone, Copy)]
pub(crate) enum Ways {
    /// In any way.
    Any,
    /// Through one side.
    One(usize),
    /// Through one of two sides.
    Two(Pair),
    /// Through one of three sides, if they do not begin at the vertex between these.
    Three(Triple),
}

/// Returns a vertex and three sides.
fn sides(around: usize, first: usize, second: usize, third: usize) -> Turn
    ensures { result ≡ record { around = around; first = first; second = second; third = third } }
{
    Turn {
        around,
        first,
        second,
        third,
    }
}

/// Returns the sides around a vertex of a cell.
fn turn_around(vertex: usize) -> Turn
    requires { vertex < 4 }
    ensures turn { IsTurn result }
    ensures around { result.around ≡ vertex }
{
    match vertex {
        0 => sides(0, 1, 2, 3),
        1 => sides(1, 0, 3, 2),
        2 => sides(2, 0, 1, 3),
        _ => sides(3, 0, 2, 1),
    }
}

/// Returns the same sides, from the second on.
fn next(turn: Turn) -> Turn
    requires { IsTurn turn }
    ensures { (result ≡ record { around = turn.around; first = turn.second; second = turn.third; third = turn.first }) × IsTurn result }
{
    sides(turn.around, turn.second, turn.third, turn.first)
}

/// Returns whether the scanner is on the inner side of the facet a b c.
fn is_ahead(a: Point, b: Point, c: Point, s: Point) -> bool
    ensures { IsTrue result ↔ (pos 0 <ℤ side a b c (displaced s)) }
{
    match side_of_scanner(a, b, c, s) {
        Sign::Neg => false,
        Sign::Zero => false,
        Sign::Pos => true,
    }
}

/// Returns whether the scanner is on the inner side of the facet of a cell's side.
fn is_side_ahead(t: &Tetra, v: [u32; 4], s: Point, k: usize) -> bool
    requires known { AreKnown t.now v }
    requires side { k < 4 }
    ensures { IsTrue result ↔ IsAhead (vertices_of t.now) (displaced s) (tetrahedron_from v) k }
{
    let [a, b, c] = facet(v, k);
    is_ahead(t.point(a), t.point(b), t.point(c), s)
}

/// Returns the same for each of the four sides.
fn sides_ahead(t: &Tetra, v: [u32; 4], s: Point) -> [bool; 4]
    requires known { AreKnown t.now v }
    ensures count { length result ≡ 4 }
    ensures each { AreAhead (vertices_of t.now) (displaced s) (tetrahedron_from v) result }
{
    [
        is_side_ahead(t, v, s, 0),
        is_side_ahead(t, v, s, 1),
        is_side_ahead(t, v, s, 2),
        is_side_ahead(t, v, s, 3),
    ]
}

/// Returns the plane through the scanner and two vertices of a cell.
fn plane_at(t: &Tetra, v: [u32; 4], s: Point, from: usize, to: usize) -> Plane
    requires known { AreKnown t.now v }
    requires from { from < 4 }
    requires to { to < 4 }
    ensures { IsPlaneOf s (get_or t.now.points (slice_index v from) origin) (get_or t.now.points (slice_index v to) origin) result }
{
    plane_of(s, t.point(v[from]), t.point(v[to]))
}

/// Returns the ways into a cell if no line of sight comes in through the side of the vertex that is turned around, nor through
/// the first of the others.
fn two_ways(t: &Tetra, v: [u32; 4], s: Point, ahead: [bool; 4], turn: Turn) -> Ways
    requires known { AreKnown t.now v }
    requires cell { let r = tetrahedron_from v in IsCell (vertices_of t.now) r.a r.b r.c r.d }
    requires count { length ahead ≡ 4 }
    requires ahead { AreAhead (vertices_of t.now) (displaced s) (tetrahedron_from v) ahead }
    requires turn { IsTurn turn }
    requires around { slice_index_or ahead turn.around false ≡ false }
    requires first { slice_index_or ahead turn.first false ≡ false }
    ensures { AreWays (vertices_of t.now) s (tetrahedron_from v) result }
{
    if !ahead[turn.second] {
        return Ways::One(turn.third);
    }
    if !ahead[turn.third] {
        return Ways::One(turn.second);
    }
    Ways::Two(Pair {
        plane: plane_at(t, v, s, turn.around, turn.first),
        before: turn.third,
        behind: turn.second,
    })
}

/// Returns the ways into a cell if no line of sight comes in through the side of the vertex that is turned around.
fn three_ways(t: &Tetra, v: [u32; 4], s: Point, ahead: [bool; 4], turn: Turn) -> Ways
    requires known { AreKnown t.now v }
    requires cell { let r = tetrahedron_from v in IsCell (vertices_of t.now) r.a r.b r.c r.d }
    requires count { length ahead ≡ 4 }
    requires ahead { AreAhead (vertices_of t.now) (displaced s) (tetrahedron_from v) ahead }
    requires turn { IsTurn turn }
    requires around { slice_index_or ahead turn.around false ≡ false }
    ensures { AreWays (vertices_of t.now) s (tetrahedron_from v) result }
{
    if !ahead[turn.first] {
        return two_ways(t, v, s, ahead, turn);
    }
    if !ahead[turn.second] {
        return two_ways(t, v, s, ahead, next(turn));
    }
    if !ahead[turn.third] {
        return two_ways(t, v, s, ahead, next(next(turn)));
    }
    Ways::Three(Triple {
        vertex: v[turn.around],
        turn,
        first: plane_at(t, v, s, turn.around, turn.first),
        second: plane_at(t, v, s, turn.around, turn.second),
        third: plane_at(t, v, s, turn.around, turn.third),
    })
}

/// Returns the first side of four for which it does not hold.
fn first_false(ahead: [bool; 4]) -> Option<usize>
    requires { length ahead ≡ 4 }
    ensures { IfSome result (λ k. (k < 4) × (slice_index_or ahead k false ≡ false)) }
{
    for k in 0..4 {
        if !ahead[k] {
            return Some(k);
        }
    }
    None
}

/// Returns how lines of sight to a scanner came into a cell.
pub(crate) fn ways_into(t: &Tetra, v: [u32; 4], s: Point) -> Ways
    requires known { AreKnown t.now v }
    requires cell { let r = tetrahedron_from v in IsCell (vertices_of t.now) r.a r.b r.c r.d }
    ensures { AreWays (vertices_of t.now) s (tetrahedron_from v) result }
{
    let ahead = sides_ahead(t, v, s);
    match first_false(ahead) {
        None => Ways::Any,
        Some(k) => three_ways(t, v, s, ahead, turn_around(k)),
    }
}

/// Returns whether p is behind the facet a b c.
#[tactic(auto, using(geo_sign::proofs::Exchanges::point_side))]
fn is_behind(a: Point, b: Point, c: Point, p: Point) -> bool
    ensures { IsTrue result ↔ (side a b c (rational p) <ℤ pos 0) }
{
    match orient(a, b, c, p) {
        Sign::Neg => true,
        Sign::Zero => false,
        Sign::Pos => false,
    }
}

/// Returns whether the line of sight from p crosses the facet a b c, by the definition.
fn crosses(a: Point, b: Point, c: Point, p: Point, s: Point) -> bool
    ensures { IsTrue result ↔ IsCrossing (displaced s) a b c p }
{
    if !is_ahead(a, b, c, s) {
        return false;
    }
    if !is_behind(a, b, c, p) {
        return false;
    }
    if !is_ahead(p, a, b, s) {
        return false;
    }
    if !is_ahead(p, b, c, s) {
        return false;
    }
    is_ahead(p, c, a, s)
}

/// Returns whether a line of sight comes into a cell through a side, by the definition.
fn is_through(t: &Tetra, v: [u32; 4], s: Point, k: usize, ray: &Ray) -> bool
    requires known { AreKnown t.now v }
    requires side { k < 4 }
    requires ray { IsRayIn t.now ray.now }
    ensures { IsTrue result ↔ (is_crossed (vertices_of t.now) ray.now.vertex (displaced s) (facet_of (tetrahedron_from v) k) ≡ true) }
{
    let [a, b, c] = facet(v, k);
    crosses(t.point(a), t.point(b), t.point(c), ray.point, s)
}

/// Returns the side through which a line of sight that passes a cell came into it, or 4 if it begins in the cell: by the
/// definition alone.
fn side_by_trial(t: &Tetra, v: [u32; 4], s: Point, ray: &Ray) -> usize
    requires known { AreKnown t.now v }
    requires ray { IsRayIn t.now ray.now }
    requires on { IsOnSight (vertices_of t.now) ray.now.vertex (displaced s) (tetrahedron_from v) }
    ensures { IsEntered (vertices_of t.now) ray.now.vertex (displaced s) (tetrahedron_from v) result }
{
    for k in 0..4 {
        if is_through(t, v, s, k, ray) {
            return k;
        }
    }
    NO_SIDE
}

/// Returns which of two sides it is.
#[inline(always)]
fn side_of_two(t: &Tetra, v: [u32; 4], s: Point, pair: &Pair, ray: &Ray) -> usize
    requires pair { IsPair (vertices_of t.now) s (tetrahedron_from v) pair.now }
    requires ray { IsRayIn t.now ray.now }
    requires on { IsOnSight (vertices_of t.now) ray.now.vertex (displaced s) (tetrahedron_from v) }
    ensures { IsEntered (vertices_of t.now) ray.now.vertex (displaced s) (tetrahedron_from v) result }
{
    let (_t, _v, _s) = (t, v, s);
    if is_before(&pair.plane, ray.point) {
        pair.before
    } else {
        pair.behind
    }
}

/// Returns which of three sides it is, or 4.
#[inline(always)]
fn side_of_three(t: &Tetra, v: [u32; 4], s: Point, triple: &Triple, ray: &Ray) -> usize
    requires triple { IsTriple (vertices_of t.now) s (tetrahedron_from v) triple.now }
    requires ray { IsRayIn t.now ray.now }
    requires on { IsOnSight (vertices_of t.now) ray.now.vertex (displaced s) (tetrahedron_from v) }
    ensures { IsEntered (vertices_of t.now) ray.now.vertex (displaced s) (tetrahedron_from v) result }
{
    let (_t, _v, _s) = (t, v, s);
    if ray.vertex == triple.vertex {
        return NO_SIDE;
    }
    if is_before(&triple.first, ray.point) {
        if is_before(&triple.second, ray.point) {
            triple.turn.first
        } else {
            triple.turn.third
        }
    } else if is_before(&triple.third, ray.point) {
        triple.turn.second
    } else {
        triple.turn.first
    }
}

/// Returns the side through which a line of sight that passes a cell came into it, or 4 if it begins in the cell. It takes two
/// signs at most, unless the scanner is in the cell.
pub(crate) fn side_entered(t: &Tetra, v: [u32; 4], s: Point, ways: &Ways, ray: &Ray) -> usize
    requires known { AreKnown t.now v }
    requires ways { AreWays (vertices_of t.now) s (tetrahedron_from v) ways.now }
    requires ray { IsRayIn t.now ray.now }
    requires on { IsOnSight (vertices_of t.now) ray.now.vertex (displaced s) (tetrahedron_from v) }
    ensures { IsEntered (vertices_of t.now) ray.now.vertex (displaced s) (tetrahedron_from v) result }
{
    match ways {
        Ways::Any => side_by_trial(t, v, s, ray),
        Ways::One(side) => *side,
        Ways::Two(pair) => side_of_two(t, v, s, pair, ray),
        Ways::Three(triple) => side_of_three(t, v, s, triple, ray),
    }
}
