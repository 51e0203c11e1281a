//! `build` compared with the brute-force oracle, on sets of points with and without ties.

use super::points::{are_data, are_distinct, cube, rows, scattered};
use delaunay::build;
use geo_sign::Point;
use geo_tie::plain_cells;
use std::alloc::{AllocError, Global};
use std::test::Fail;

/// Returns whether `build` gives the same cells as the brute-force oracle. Returns false, too, if points are not distinct data
/// points or too many.
fn agrees(alloc: Global, points: &[Point]) -> Result<bool, AllocError> {
    if points.len() > 48 || !are_data(points) || !are_distinct(points) {
        return Ok(false);
    }
    let store = build(alloc, points)?;
    let found = rows(alloc, &store)?;
    let plain = plain_cells(alloc, points)?;
    Ok(found.as_slice() == plain.as_slice())
}

/// Returns points from three lists of coordinates.
fn grid(alloc: Global, xs: &[i64], ys: &[i64], zs: &[i64]) -> Result<Vec<Point>, AllocError> {
    let mut points = Vec::new(alloc);
    for x in xs {
        for y in ys {
            for z in zs {
                if let Some(point) = Point::data(*x, *y, *z) {
                    points.push(point)?;
                }
            }
        }
    }
    Ok(points)
}

#[test]
fn example_of_delaunay(rt: HostRuntime) -> Result<(), Fail> {
    let points = [
        Point::data(0, 0, 0).ok_or("a data point")?,
        Point::data(300, 0, 0).ok_or("a data point")?,
        Point::data(0, 300, 0).ok_or("a data point")?,
        Point::data(0, 0, 300).ok_or("a data point")?,
        Point::data(50, 50, 50).ok_or("a data point")?,
    ];
    let store = build(rt.alloc(), &points)?;
    let mut cells = store.cells();
    let mut inner = Vec::new(rt.alloc());
    while let Some((_, cell)) = cells.next() {
        if cell.v.iter().all(|v| *v >= 8) {
            inner.push(cell.v)?;
        }
    }
    assert_eq!(rt; inner.len(), 4);
    Ok(())
}

/// Returns whether they agree on this number of pseudo-random points, in a plane if they are flat.
fn agrees_on_scattered(alloc: Global, count: u64, flat: bool) -> Result<bool, Fail> {
    let points = scattered(alloc, 0, count, flat)?;
    Ok(agrees(alloc, &points)?)
}

#[test]
fn points_in_general_position_are_built(rt: HostRuntime) -> Result<(), Fail> {
    for count in [0, 1, 2, 3, 5, 12, 24] {
        if !agrees_on_scattered(rt.alloc(), count, false)? {
            return Err(Fail::from("scattered points"));
        }
    }
    Ok(())
}

/// Fails if a set of points does not agree.
fn expect(agrees: bool) -> Result<(), Fail> {
    if agrees {
        Ok(())
    } else {
        Err(Fail::from("other cells"))
    }
}

#[test]
fn forty_eight_points_are_built(rt: HostRuntime) -> Result<(), Fail> {
    expect(agrees_on_scattered(rt.alloc(), 48, false)?)
}

#[test]
fn points_of_a_plane_are_built(rt: HostRuntime) -> Result<(), Fail> {
    expect(agrees_on_scattered(rt.alloc(), 48, true)?)
}

/// Returns whether they agree on points from three lists of coordinates, of this number.
fn agrees_on_grid(
    alloc: Global,
    xs: &[i64],
    ys: &[i64],
    zs: &[i64],
    count: usize,
) -> Result<bool, Fail> {
    let points = grid(alloc, xs, ys, zs)?;
    Ok(points.len() == count && agrees(alloc, &points)?)
}

/// Returns whether two coordinates have the same absolute value.
fn has_one_size_twice(point: &Point) -> bool {
    let [x, y, z] = [point.x(), point.y(), point.z()].map(i32::unsigned_abs);
    x == y || y == z || z == x
}

/// Returns the points whose coordinates have the absolute values 10, 20 and 40 in any order, which lie on one sphere.
fn sphere(alloc: Global) -> Result<Vec<Point>, AllocError> {
    let sizes = [-40, -20, -10, 10, 20, 40];
    let mut points = grid(alloc, &sizes, &sizes, &sizes)?;
    points.retain(|point| !has_one_size_twice(point));
    Ok(points)
}

/// Returns whether they agree on these.
fn agrees_on_sphere(alloc: Global) -> Result<bool, Fail> {
    let points = sphere(alloc)?;
    Ok(points.len() == 48 && agrees(alloc, &points)?)
}

/// Returns whether they agree on the corners of a cube.
fn agrees_on_cube(alloc: Global) -> Result<bool, Fail> {
    let points = cube(alloc, 100)?;
    Ok(points.len() == 8 && agrees(alloc, &points)?)
}

#[test]
fn a_cube_and_a_line_are_built(rt: HostRuntime) -> Result<(), Fail> {
    expect(agrees_on_cube(rt.alloc())?)?;
    expect(agrees_on_grid(rt.alloc(), &[-70, -3, 0, 1, 2, 5, 80, 90], &[7], &[-7], 8)?)
}

#[test]
fn points_of_a_lattice_are_built(rt: HostRuntime) -> Result<(), Fail> {
    let four = [-10, 0, 10, 20];
    expect(agrees_on_grid(rt.alloc(), &four, &four, &[-10, 0, 10], 48)?)
}

#[test]
fn points_of_a_sphere_are_built(rt: HostRuntime) -> Result<(), Fail> {
    expect(agrees_on_sphere(rt.alloc())?)
}
