//! Whether a point is near a point of a coarser grid, exactly.

ghost use Rattle.std.specs.Prelude.{◌≡◌, ◌≤◌, ◌*◌, ◌^◌, ◌↔◌, pos, unsigned_abs, ◌-ℤ◌, ◌*ℤ◌, IsTrue};
ghost use Rattle.geo_sign.specs.declared.point.TheConstants.{BOX_LIMIT};
ghost use Rattle.mesh_check.specs.Homes.{IsNearHome};

use geo_sign::Point;

/// Returns a coordinate less that of a home, in units of the finer grid.
fn gap(fine: u32, home: i32, x: i32) -> i64
    requires home_in { unsigned_abs home ≤ BOX_LIMIT }
    requires x_in { unsigned_abs x ≤ BOX_LIMIT }
    ensures value { result ≡ x -ℤ pos fine *ℤ home }
    ensures bound { unsigned_abs result ≤ 2 ^ 56 }
{
    i64::from(x) - i64::from(fine) * i64::from(home)
}

/// Returns the square of a number.
fn squared(x: i64) -> u128
    requires { unsigned_abs x ≤ 2 ^ 56 }
    ensures value { pos result ≡ x *ℤ x }
    ensures bound { result ≤ 2 ^ 112 }
{
    let size = u128::from(x.unsigned_abs());
    size * size
}

/// Returns the square of the difference of two coordinates, in units of the finer grid.
fn squared_gap(fine: u32, home: i32, x: i32) -> u128
    requires home_in { unsigned_abs home ≤ BOX_LIMIT }
    requires x_in { unsigned_abs x ≤ BOX_LIMIT }
    ensures value { pos result ≡ (x -ℤ pos fine *ℤ home) *ℤ (x -ℤ pos fine *ℤ home) }
    ensures bound { result ≤ 2 ^ 112 }
{
    squared(gap(fine, home, x))
}

/// Returns the square of a distance, in units of the finer grid.
fn squared_reach(fine: u32, within: u32) -> u128
    ensures { result ≡ fine * within * (fine * within) }
{
    let reach = u128::from(u64::from(fine) * u64::from(within));
    reach * reach
}

/// Returns whether a point is at most `within` units of the coarser grid from a home.
pub(crate) fn is_near(fine: u32, within: u32, home: Point, p: Point) -> bool
    ensures { IsTrue result ↔ IsNearHome fine within home p }
{
    home.facts();
    p.facts();
    let x = squared_gap(fine, home.x(), p.x());
    let y = squared_gap(fine, home.y(), p.y());
    let z = squared_gap(fine, home.z(), p.z());
    x + y + z <= squared_reach(fine, within)
}
