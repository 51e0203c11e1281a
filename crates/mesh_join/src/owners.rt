//! Which tile owns an edge.

ghost use Rattle.std.specs.Prelude.{◌≡◌, ◌<◌, pos, ◌+ℤ◌, ◌*ℤ◌, length};
ghost use Rattle.mesh_join.specs.Joins.{unordered_key, holds_middle as core_holds, is_between as lies_between, owns as is_owner_of};

use geo_sign::Point;
use std::collections::HashMap;

/// A part of space, along the axes: the points from `low` on and below `high`.
#[derive(Clone, Copy, Debug)]
pub struct Core {
    /// The least coordinates.
    pub low: Point,
    /// The first coordinates beyond.
    pub high: Point,
}

fn twice(x: i32) -> i64
    ensures { result ≡ pos 2 *ℤ x }
{
    2 * i64::from(x)
}

fn sum(a: i32, b: i32) -> i64
    ensures { result ≡ a +ℤ b }
{
    i64::from(a) + i64::from(b)
}

/// Returns whether half of a sum is from `low` on and below `high`.
#[tactic(auto, unfolding(crate::specs::Joins::is_between))]
fn is_between(low: i32, high: i32, a: i32, b: i32) -> bool
    ensures { result ≡ lies_between low high a b }
{
    let sum = sum(a, b);
    twice(low) <= sum && sum < twice(high)
}

impl Core {
    fn holds_x(&self, p: Point, q: Point) -> bool
        ensures { result ≡ lies_between self.now.low.x self.now.high.x p.x q.x }
    {
        is_between(self.low.x(), self.high.x(), p.x(), q.x())
    }

    fn holds_y(&self, p: Point, q: Point) -> bool
        ensures { result ≡ lies_between self.now.low.y self.now.high.y p.y q.y }
    {
        is_between(self.low.y(), self.high.y(), p.y(), q.y())
    }

    fn holds_z(&self, p: Point, q: Point) -> bool
        ensures { result ≡ lies_between self.now.low.z self.now.high.z p.z q.z }
    {
        is_between(self.low.z(), self.high.z(), p.z(), q.z())
    }

    /// Returns whether the middle of two points lies in the core.
    pub fn holds(&self, p: Point, q: Point) -> bool
        ensures { result ≡ core_holds self.now p q }
    {
        self.holds_x(p, q) && self.holds_y(p, q) && self.holds_z(p, q)
    }
}

/// Returns the number of an edge.
pub(crate) fn edge_key(u: u32, v: u32) -> u64
    ensures { result ≡ unordered_key u v }
{
    u64::from(u.min(v)) * 4_294_967_296 + u64::from(u.max(v))
}

/// What decides which tile owns an edge.
#[derive(Drop)]
pub struct Owners {
    /// The core of each tile.
    pub cores: Vec<Core>,
    /// All places, ascending.
    pub places: Vec<Point>,
    /// The tile of each edge that its home does not own, by the edge's number.
    pub moved: HashMap<u64, u32>,
}

impl Owners {
    /// Returns whether tile `i` owns an edge.
    pub(crate) fn owns(&self, i: usize, u: u32, v: u32) -> bool
        requires tile { i < length self.now.cores.items }
        requires from { u < length self.now.places.items }
        requires to { v < length self.now.places.items }
        ensures { result ≡ is_owner_of self.now i u v }
    {
        match self.moved.get(&edge_key(u, v)) {
            Some(tile) => *tile as usize == i,
            None => self.cores[i].holds(self.places[u as usize], self.places[v as usize]),
        }
    }
}
