//! The first point that is far from each home.

ghost use Rattle.std.specs.Prelude.{ℕ, ◌<◌, ◌≤◌, length, MatchOption};
ghost use Rattle.mesh.specs.Meshes.{point_at};
ghost use Rattle.mesh_check.specs.Homes.{IsNearHome, IsNearSome, AreAllNear, IsFirstFar};

use crate::near::is_near;
use geo_sign::Point;

/// Returns the first home from `start` on and before `end` that a point is near.
fn near_between(
    homes: &[Point],
    start: usize,
    end: usize,
    p: Point,
    fine: u32,
    within: u32,
) -> Option<usize>
    requires { end ≤ length homes.now }
    ensures { MatchOption result ((k : ℕ) → start ≤ k → k < end → ¬ IsNearHome fine within (point_at homes.now k) p) (λ k. (k < end) × IsNearHome fine within (point_at homes.now k) p) }
{
    for k in start..end {
        if is_near(fine, within, homes[k], p) {
            return Some(k);
        }
    }
    None
}

/// Returns a home that a point is near: the first from `start` on, or else the first of those before.
fn near_home(homes: &[Point], start: usize, p: Point, fine: u32, within: u32) -> Option<usize>
    requires { start ≤ length homes.now }
    ensures { MatchOption result (¬ IsNearSome fine within homes.now p) (λ k. (k < length homes.now) × IsNearHome fine within (point_at homes.now k) p) }
{
    match near_between(homes, start, homes.len(), p, fine, within) {
        Some(k) => Some(k),
        None => near_between(homes, 0, start, p, fine, within),
    }
}

/// Returns the number of the first point that is farther than `within` units of the homes' grid from each home. One of these units is
/// `fine` units of the points. `None` exactly if each point is as near as that to a home.
///
/// The home of a point is looked for from the home of the point before on. So the time grows with the number of points and homes if the
/// points stand in the order of their homes, and at worst with their product.
pub fn first_far(homes: &[Point], points: &[Point], fine: u32, within: u32) -> Option<usize>
    ensures { MatchOption result (AreAllNear fine within homes.now points.now) (IsFirstFar fine within homes.now points.now) }
{
    let mut home = 0;
    for i in 0..points.len() {
        match near_home(homes, home, points[i], fine, within) {
            Some(k) => {
                home = k;
            }
            None => return Some(i),
        }
    }
    None
}
