//! Walks along sights.

ghost use Rattle.std.specs.Prelude.{◌≡◌, ◌≤◌, [], true, false, IsTrue, IsFalse, IfSome, IfNone};
ghost use Rattle.std.specs.Option.{ForSome};
ghost use Rattle.geo_sign.specs.declared.point.TheConstants.{CORNERS, DATA_LIMIT};
ghost use Rattle.geo_sign.specs.Point.{IsWithin};
ghost use Rattle.geo_sign.specs.Rational.{displaced};
ghost use Rattle.geo_sign.specs.Sights.{is_cell_of};
ghost use Rattle.geo_sign.specs.Vertices.{Has};
ghost use Rattle.tetra_store.specs.Delaunay.{IsDelaunay};
ghost use Rattle.tetra_store.specs.Links.{links_of};
ghost use Rattle.tetra_store.specs.Store.{vertices_of};
ghost use Rattle.sight.specs.Walks.{IsSight, IsGoneOn, IsTaken, IsEndCell};

use crate::exit::{Reached, exit, front_of, go_through};
use crate::image::{Ray, screen_of};
use geo_sign::Point;
use std::marker::Model;
use tetra_store::{CellId, Tetra};
use tetra_walk::{NO_SIDE, facet, toward};

/// A directed facet that a sight crosses. The sight's point is behind it, the scanner before it.
#[derive(Clone, Copy, Debug, PartialEq, Eq)]
pub struct Crossing {
    /// Its three vertex numbers, as the cell on the scanner's side has them.
    pub facet: [u32; 3],
    /// The cell whose facet it is.
    pub scanner_side: CellId,
    /// The adjacent cell.
    pub point_side: CellId,
}

/// A traversal of the cells along the sight from a vertex to a symbolically perturbed scanner.
///
/// Contracts describe it by the facets still to come, the nearest to the vertex first, each as a side of the cell that is
/// entered through it, and by the current cell with its entry side.
#[derive(Drop)]
pub struct SightWalk<'a> {
    tetra: &'a Tetra,
    ray: Ray,
    reached: Reached,
    end: Option<CellId>,
}

impl<'a> Model for SightWalk<'a> {
    ghost use Rattle.sight.specs.Walks.{Walk, IsWalking, IsEndCell, walk_of};
    ghost use Rattle.sight.specs.Fronts.{KeepsFront};
    ghost use Rattle.sight.specs.Images.{IsLookedAlong};
    ghost use Rattle.std.specs.Option.{ForSome};

    ghost Value = { Walk };

    ghost view = { λ w. walk_of w.tetra.now w.ray w.reached };

    ghost invariant = { λ w. IsWalking w.tetra.now w.ray w.reached × IsLookedAlong w.tetra.now w.ray × KeepsFront w.tetra.now w.ray w.reached × ForSome w.end (λ e. IsEndCell w.tetra.now w.ray.scanner e) };
}

/// Returns a walk that begins in the cell towards the scanner; its end may be given.
fn begin<'a>(t: &'a Tetra, v: u32, s: Point, end: Option<CellId>) -> SightWalk<'a>
    requires delaunay { IsDelaunay (vertices_of t.now) (links_of t.now.slots) }
    requires inserted { Has (vertices_of t.now) v }
    requires data_vertex { CORNERS ≤ v }
    requires data_point { IsWithin DATA_LIMIT s }
    requires end { ForSome end (λ e. IsEndCell t.now s e) }
    ensures same { (result.store ≡ t.now) × (result.vertex ≡ v) × (result.scanner ≡ s) }
    ensures sight { IsSight result }
{
    t.facts();
    let at = toward(t, v, s);
    let point = t.point(v);
    let ray = Ray {
        vertex: v,
        point,
        scanner: s,
        screen: screen_of(point, s),
    };
    let reached = Reached {
        at,
        vertices: t.vertices(at),
        entered: NO_SIDE,
        front: front_of(t, &ray, [v, v, v]),
    };
    SightWalk {
        tetra: t,
        ray,
        reached,
        end,
    }
}

/// Returns the walk along the sight from an inserted data point, a vertex number of at least 8, to the scanner at a data point,
/// with exactly the facets to come that the sight crosses, each once, each nearer to the point than every later one. The cells
/// have to be Delaunay.
///
/// It allocates no memory and does not fail.
pub fn walk<'a>(t: &'a Tetra, v: u32, s: Point) -> SightWalk<'a>
    requires delaunay { IsDelaunay (vertices_of t.now) (links_of t.now.slots) }
    requires inserted { Has (vertices_of t.now) v }
    requires data_vertex { CORNERS ≤ v }
    requires data_point { IsWithin DATA_LIMIT s }
    ensures same { (result.store ≡ t.now) × (result.vertex ≡ v) × (result.scanner ≡ s) }
    ensures sight { IsSight result }
{
    begin(t, v, s, None)
}

/// Returns the same walk, given the scanner's cell as `locate_scanner` finds it: a step then takes one sign less.
pub fn walk_into<'a>(t: &'a Tetra, v: u32, s: Point, end: CellId) -> SightWalk<'a>
    requires delaunay { IsDelaunay (vertices_of t.now) (links_of t.now.slots) }
    requires inserted { Has (vertices_of t.now) v }
    requires data_vertex { CORNERS ≤ v }
    requires data_point { IsWithin DATA_LIMIT s }
    requires end { IsEndCell t.now s end }
    ensures same { (result.store ≡ t.now) × (result.vertex ≡ v) × (result.scanner ≡ s) }
    ensures sight { IsSight result }
{
    begin(t, v, s, Some(end))
}

impl<'a> SightWalk<'a> {
    /// Goes through the next facet that the sight crosses. Returns false exactly if the current cell is the scanner's; then no
    /// facets are left and the walk does not change. Allocates no memory.
    pub fn go_on(&mut self) -> bool
        ensures on { IsTrue result → IsGoneOn self.old self.new }
        ensures more { IsTrue result → is_cell_of (vertices_of self.old.store) (displaced self.old.scanner) ((links_of self.old.store.slots).at self.old.at) ≡ false }
        ensures out { IsFalse result → (self.old.to_come ≡ []) × (self.new ≡ self.old) }
        ensures end { IsFalse result → is_cell_of (vertices_of self.old.store) (displaced self.old.scanner) ((links_of self.old.store.slots).at self.old.at) ≡ true }
    {
        self.tetra.facts();
        match exit(self.tetra, &self.ray, &self.reached, self.end) {
            None => false,
            Some(exit) => match self.tetra.neighbor(self.reached.at, exit.side) {
                None => unreachable!(),
                Some(next) => {
                    go_through(self.tetra, &self.ray, &mut self.reached, exit);
                    let vertices = next.vertices;
                    self.reached.at = next.id;
                    self.reached.vertices = vertices;
                    self.reached.entered = next.side;
                    true
                }
            },
        }
    }

    /// Returns the next facet that the sight crosses, from the point towards the scanner: the first of those to come. Its point
    /// side is the cell before, its scanner side the cell reached now. Returns `None` exactly if the current cell is the
    /// scanner's; then no facets are left and the walk does not change. Allocates no memory.
    pub fn next(&mut self) -> Option<Crossing>
        ensures some { IfSome result (λ c. IsTaken self.old self.new c) }
        ensures more { IfSome result (λ _. is_cell_of (vertices_of self.old.store) (displaced self.old.scanner) ((links_of self.old.store.slots).at self.old.at) ≡ false) }
        ensures none { IfNone result ((self.old.to_come ≡ []) × (self.new ≡ self.old)) }
        ensures end { IfNone result (is_cell_of (vertices_of self.old.store) (displaced self.old.scanner) ((links_of self.old.store.slots).at self.old.at) ≡ true) }
    {
        let before = self.reached.at;
        if self.go_on() {
            Some(Crossing {
                facet: facet(self.reached.vertices, self.reached.entered),
                scanner_side: self.reached.at,
                point_side: before,
            })
        } else {
            None
        }
    }

    /// Returns the current cell: before the first step the one towards the scanner, after `None` the scanner's.
    pub fn end_cell(&self) -> CellId
        ensures { result ≡ self.now.at }
    {
        self.reached.at
    }

    /// Returns the side, 0 to 3, through which the current cell was entered, which is the last crossing's facet. Before the
    /// first step, in the cell at the vertex, it is 4.
    pub fn entered(&self) -> usize
        ensures { result ≡ self.now.entered }
    {
        self.reached.entered
    }
}
