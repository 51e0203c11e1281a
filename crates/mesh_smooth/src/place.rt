//! Places for vertices: floating point proposes, whole numbers decide.

ghost use Rattle.std.specs.Bool.{OnTrue};
ghost use Rattle.mesh_smooth.specs.Near.{IsNear};

use geo_sign::Point;
use mesh_flips::Way;
use std::num::saturating_f64_to_i64;

/// Returns a point as a vector.
pub(crate) fn spot_of(p: Point) -> Way {
    Way {
        x: f64::from(p.x()),
        y: f64::from(p.y()),
        z: f64::from(p.z()),
    }
}

/// Returns the whole number nearest to a number.
fn nearest(x: f64) -> i64 {
    saturating_f64_to_i64((x + 0.5).floor())
}

/// Returns the whole number nearest to a number between it and `home`.
fn toward(home: i32, x: f64) -> i64 {
    i64::from(home).saturating_add(saturating_f64_to_i64(x - f64::from(home)))
}

/// Returns whether a place is at most `within` from home.
fn is_near(home: Point, place: Point, within: u64) -> bool
    ensures { OnTrue result (IsNear home place within) }
{
    let way = home.to(place);
    let reach = u128::from(within);
    if way.dot(way).unsigned_abs() > reach * reach {
        return false;
    }
    true
}

/// Returns the place if it is a point at most `within` from home, else the point before.
fn taken(home: Point, before: Point, place: Option<Point>, within: u64) -> Point
    requires { IsNear home before within }
    ensures { IsNear home result within }
{
    match place {
        Some(p) => { if is_near(home, p, within) { p } else { before } }
        None => before,
    }
}

/// Returns the point nearest to a spot that is at most `within` from home: the nearest one if it is, else the one rounded toward home,
/// else the point before.
pub(crate) fn near_place(home: Point, before: Point, spot: Way, within: u64) -> Point
    requires { IsNear home before within }
    ensures { IsNear home result within }
{
    let inner = Point::in_box(
        toward(home.x(), spot.x),
        toward(home.y(), spot.y),
        toward(home.z(), spot.z),
    );
    let before = taken(home, before, inner, within);
    let place = Point::in_box(nearest(spot.x), nearest(spot.y), nearest(spot.z));
    taken(home, before, place, within)
}
