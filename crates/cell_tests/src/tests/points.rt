//! Fixtures: points, scanners and scenes, and the cells of a store.
ghost use Rattle.std.specs.Prelude.{◌≡◌, ◌<◌, ℕ, IfOk, IsTrue, length, get_or};
ghost use Rattle.geo_sign.specs.declared.point.TheConstants.{DATA_LIMIT};
ghost use Rattle.geo_sign.specs.Point.{origin, IsWithin};

use flow_net::{Settings, Sight};
use geo_sign::Point;
use std::alloc::{AllocError, Global};
use std::test::Fail;
use tetra_store::Tetra;
use visibility::Scene;

/// Returns whether all are data points.
pub fn are_data(points: &[Point]) -> bool
    ensures { IsTrue result → (k : ℕ) → k < length points.now → IsWithin DATA_LIMIT (get_or points.now k origin) }
{
    for i in 0..points.len() {
        let p = points[i];
        if Point::data(i64::from(p.x()), i64::from(p.y()), i64::from(p.z())).is_none() {
            return false;
        }
    }
    true
}

/// Returns whether no point before the one at an index is equal to it.
fn is_first(points: &[Point], k: usize) -> bool
    requires { k < length points.now }
    ensures { IsTrue result → (j : ℕ) → j < k → get_or points.now j origin ≡ get_or points.now k origin → ⊥ }
{
    for j in 0..k {
        if points[j] == points[k] {
            return false;
        }
    }
    true
}

/// Returns whether no two are equal.
pub fn are_distinct(points: &[Point]) -> bool
    ensures { IsTrue result → (j k : ℕ) → j < length points.now → k < length points.now → get_or points.now j origin ≡ get_or points.now k origin → j ≡ k }
{
    for k in 0..points.len() {
        if !is_first(points, k) {
            return false;
        }
    }
    true
}

/// Returns the point with these coordinates.
pub fn point(x: i64, y: i64, z: i64) -> Result<Point, Fail>
    ensures { IfOk result (IsWithin DATA_LIMIT) }
{
    Ok(Point::data(x, y, z).ok_or("a point")?)
}

/// Returns four points around the origin.
pub fn four_points() -> Result<[Point; 4], Fail> {
    Ok([
        point(100, 100, 100)?,
        point(100, -100, -100)?,
        point(-100, 100, -100)?,
        point(-100, -100, 100)?,
    ])
}

/// Returns a scanner beyond each of the four points, and a fifth one.
pub fn five_scanners(fifth: Point) -> Result<[Point; 5], Fail> {
    Ok([
        point(1000, 1000, 1000)?,
        point(1000, -1000, -1000)?,
        point(-1000, 1000, -1000)?,
        point(-1000, -1000, 1000)?,
        fifth,
    ])
}

/// Returns the sights of the four points from the scanners beyond them, with weight 1, and one of the first point from another
/// scanner.
pub fn five_sights(scanner: u32, weight: u32) -> [Sight; 5] {
    let sight = |vertex, scanner, weight| Sight {
        vertex,
        scanner,
        weight,
    };
    [
        sight(8, 0, 1),
        sight(9, 1, 1),
        sight(10, 2, 1),
        sight(11, 3, 1),
        sight(8, scanner, weight),
    ]
}

/// Returns the scene of these with visibility weight 8 and area weight 1.
pub fn scene_of<'a>(
    points: &'a [Point],
    scanners: &'a [Point],
    sights: &'a [Sight],
) -> Result<Scene<'a>, Fail>
    ensures { IfOk result (λ scene. (scene.points.now ≡ points.now) × (scene.sights.now ≡ sights.now)) }
{
    Ok(Scene {
        points,
        scanners,
        sights,
        settings: Settings::new(8, 1).ok_or("settings")?,
    })
}

/// Returns a number from -1000 to 1000 by its index, the same at each run.
fn number(index: u64) -> i64 {
    let mixed = index
        .wrapping_mul(6_364_136_223_846_793_005)
        .wrapping_add(1_442_695_040_888_963_407);
    (((mixed ^ (mixed >> 29)).wrapping_mul(2_862_933_555_777_941_757) >> 33) as i64
        % 2001).wrapping_sub(1000)
}

/// Returns points with pseudo-random coordinates, from an index on, in the plane z = 0 if they are flat.
pub fn scattered(alloc: Global, first: u64, count: u64, flat: bool) -> Result<Vec<Point>, Fail> {
    let mut points = Vec::new(alloc);
    for i in 0..count {
        let at = first.wrapping_add(i).wrapping_mul(3);
        let z = if flat { 0 } else { number(at.wrapping_add(2)) };
        points.push(point(number(at), number(at.wrapping_add(1)), z)?)?;
    }
    Ok(points)
}

/// Returns the corners of a cube around the origin.
pub fn cube(alloc: Global, size: i64) -> Result<Vec<Point>, Fail> {
    let sides = [size.wrapping_neg(), size];
    let mut points = Vec::new(alloc);
    for z in sides {
        for y in sides {
            for x in sides {
                points.push(point(x, y, z)?)?;
            }
        }
    }
    Ok(points)
}

/// Returns the sorted vertex tuple of each cell, in ascending order.
pub fn rows(alloc: Global, store: &Tetra) -> Result<Vec<[u32; 4]>, AllocError> {
    let mut rows = Vec::new(alloc);
    let mut cells = store.cells();
    while let Some((_, cell)) = cells.next() {
        let mut v = cell.v;
        v.sort_unstable();
        rows.push(v)?;
    }
    rows.sort_unstable();
    Ok(rows)
}
