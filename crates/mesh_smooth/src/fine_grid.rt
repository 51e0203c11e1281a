//! The finer grid on which points move.

ghost use Rattle.std.specs.Prelude.{ℕ, ◌≡◌, ◌≤◌, ◌<◌, ◌*◌, pos, ◌*ℤ◌, All, IfOk};
ghost use Rattle.geo_sign.specs.Point.{IsWithin};
ghost use Rattle.geo_sign.specs.declared.point.TheConstants.{BOX_LIMIT};
ghost use Rattle.mesh_smooth.specs.Smoothed.{magnified, IsMagnified, FitsTimes, IsLargestScale};

use crate::NoMemory;
use geo_sign::Point;
use std::alloc::Global;

/// How many units of the finer grid one unit has at most.
const FINEST: u64 = 1024;

/// The greatest absolute coordinate on the finer grid: half of the box, so that points have room to move.
const INNER_LIMIT: u64 = 4_194_304;

/// Returns the greatest absolute coordinate of a point.
fn reach_of(p: Point) -> u32
    ensures within { IsWithin result p }
    ensures bound { result ≤ BOX_LIMIT }
    ensures least { (k limit : ℕ) → IsWithin limit (magnified k p) → k * result ≤ limit }
{
    p.facts();
    let flat = p.x().unsigned_abs().max(p.y().unsigned_abs());
    flat.max(p.z().unsigned_abs())
}

/// Returns the greatest absolute coordinate of some points.
pub(crate) fn greatest(points: &[Point]) -> u32
    ensures each { All (IsWithin result) points.now }
    ensures bound { result ≤ BOX_LIMIT }
    ensures least { (k : ℕ) → FitsTimes points.now k → k * result ≤ INNER_LIMIT }
{
    let mut reach = 0;
    for p in points {
        reach = reach.max(reach_of(*p));
    }
    reach
}

/// Returns how many units of the finer grid one unit has: the greatest power of two by which the coordinates stay in half of the
/// box, at least 1 and at most 1024.
pub(crate) fn finest(reach: u32) -> u32
    requires { reach ≤ BOX_LIMIT }
    ensures some { 0 < result }
    ensures bound { result * reach ≤ BOX_LIMIT }
    ensures scale { IsLargestScale (λ k. k * reach ≤ INNER_LIMIT) result }
{
    let reach = u64::from(reach);
    let mut fine = 1u64;
    while fine < FINEST && 2 * (fine * reach) <= INNER_LIMIT {
        fine *= 2;
    }
    fine as u32
}

/// Returns a coordinate times `fine`.
fn magnified_number(x: i32, fine: u32) -> i64
    ensures { result ≡ pos fine *ℤ x }
{
    i64::from(fine) * i64::from(x)
}

/// Returns the point with each coordinate times `fine`.
fn magnified_point(p: Point, fine: u32, reach: u32) -> Point
    requires within { IsWithin reach p }
    requires bound { fine * reach ≤ BOX_LIMIT }
    ensures { result ≡ magnified fine p }
{
    p.facts();
    let x = magnified_number(p.x(), fine);
    let y = magnified_number(p.y(), fine);
    let z = magnified_number(p.z(), fine);
    match Point::in_box(x, y, z) {
        Some(q) => q,
        None => p,
    }
}

/// Returns the points with each coordinate times `fine`.
pub(crate) fn magnified_points(
    alloc: Global,
    points: &[Point],
    fine: u32,
    reach: u32,
) -> Result<Vec<Point>, NoMemory>
    requires within { All (IsWithin reach) points.now }
    requires bound { fine * reach ≤ BOX_LIMIT }
    ensures { IfOk result (λ new. IsMagnified fine points.now new.items) }
{
    let mut new = Vec::with_capacity(alloc, points.len())?;
    for p in points {
        new.push(magnified_point(*p, fine, reach))?;
    }
    Ok(new)
}

/// Does nothing. Its clause is what each point keeps, for the proofs of callers.
pub(crate) fn keep_box(points: &[Point])
    ensures { All (IsWithin BOX_LIMIT) points.now }
{
    for p in points {
        p.facts();
    }
}
