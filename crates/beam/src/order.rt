//! The order in which cells are left.
//!
//! A line of sight followed outward comes to cells of ascending power: that of the scanner's position with respect to the sphere
//! through a cell's vertices. So if the cell of the least power is left next, all lines of sight that pass it wait in it by
//! then. Nothing depends on this but how often a cell is left.

ghost use Rattle.beam.specs.Ways.{AreKnown};

use geo_sign::Point;
use tetra_store::Tetra;

/// Returns the square of the distance of two points.
fn squared_distance(p: Point, q: Point) -> i128 {
    let x = i64::from(q.x()) - i64::from(p.x());
    let y = i64::from(q.y()) - i64::from(p.y());
    let z = i64::from(q.z()) - i64::from(p.z());
    i128::from(
        x.wrapping_mul(x)
            .wrapping_add(y.wrapping_mul(y))
            .wrapping_add(z.wrapping_mul(z)),
    )
}

/// Returns a quotient, or 0 if the divisor is 0.
fn quotient(dividend: i128, divisor: i128) -> i128 {
    if divisor == 0 {
        return 0;
    }
    dividend.wrapping_div(divisor)
}

/// Returns the power of a position with respect to the sphere through a cell's vertices, rounded, with the opposite sign.
///
/// With O the volumes of the four tetrahedra over the cell's facets and q the squares of the distances to its vertices, it is
/// the sum of the products over the sum of O. A value that does not fit 64 bits is replaced.
pub(crate) fn rank_of(t: &Tetra, v: [u32; 4], s: Point) -> i64
    requires { AreKnown t.now v }
{
    let (a, b, c, d) = (t.point(v[0]), t.point(v[1]), t.point(v[2]), t.point(v[3]));
    let first = s.to(a).cross(s.to(b));
    let second = s.to(c).cross(s.to(d));
    let over_a = second.dot(s.to(b));
    let over_b = second.dot(s.to(a)).wrapping_neg();
    let over_c = first.dot(s.to(d));
    let over_d = first.dot(s.to(c)).wrapping_neg();
    let sum = over_a
        .wrapping_add(over_b)
        .wrapping_add(over_c)
        .wrapping_add(over_d);
    let products = over_a
        .wrapping_mul(squared_distance(s, a))
        .wrapping_add(over_b.wrapping_mul(squared_distance(s, b)))
        .wrapping_add(over_c.wrapping_mul(squared_distance(s, c)))
        .wrapping_add(over_d.wrapping_mul(squared_distance(s, d)));
    i64::try_from(quotient(products, sum)).unwrap_or(0)
}
