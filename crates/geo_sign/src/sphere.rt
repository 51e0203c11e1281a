//! The power of a point at four others: where it lies by the sphere through them.
//!
//! Degree 5. It is computed over the differences u, v, w, t of a, b, c, d from p, at which the power is
//! |t|^2 [u v w] - |w|^2 [u v t] + |v|^2 [u w t] - |u|^2 [v w t] with [u v w] = (u x v) . w. The six minors of the first two
//! coordinates are computed once each, in 64 bits. A determinant is at most 3 * 2^73, a squared length at most 3 * 2^48 and the
//! whole at most 36 * 2^121, below 2^127.

ghost use Rattle.std.specs.Prelude.{◌≡◌, ◌≤◌, ◌*◌, ◌^◌, unsigned_abs, ◌*ℤ◌};
ghost use Rattle.geo_sign.specs.Point.{IsWithin, cross, dot, square};
ghost use Rattle.geo_sign.specs.Power.{plain_power};
ghost use Rattle.geo_sign.specs.Signs.{sign_of};
ghost use Rattle.geo_sign.specs.declared.point.TheConstants.{BOX_LIMIT};

use crate::vector::Vector;
use crate::{Point, Sign};

/// The determinant of three vectors between points, expanded along their last coordinates from the minors of the first two.
fn determinant(u: Vector, v: Vector, w: Vector, uv: i64, uw: i64, vw: i64) -> i128
    requires first { IsWithin (2 ^ 24) u }
    requires second { IsWithin (2 ^ 24) v }
    requires third { IsWithin (2 ^ 24) w }
    requires first_minor { uv ≡ (cross u v).z }
    requires second_minor { uw ≡ (cross u w).z }
    requires third_minor { vw ≡ (cross v w).z }
    ensures value { result ≡ dot (cross u v) w }
    ensures bound { unsigned_abs result ≤ 3 * 2 ^ 73 }
{
    Vector::new(vw, -uw, uv).dot(Vector::new(u.z(), v.z(), w.z()))
}

/// The square of a vector's length, times a determinant.
fn lifted(u: Vector, volume: i128) -> i128
    requires first { IsWithin (2 ^ 24) u }
    requires second { unsigned_abs volume ≤ 3 * 2 ^ 73 }
    ensures value { result ≡ square u *ℤ volume }
    ensures bound { unsigned_abs result ≤ 9 * 2 ^ 121 }
{
    i128::from(u.square()) * volume
}

/// The sign of the power of p at a, b, c, d. For four points positively oriented it is negative where p is inside the sphere
/// through them, zero where it is on it.
pub fn in_sphere(a: Point, b: Point, c: Point, d: Point, p: Point) -> Sign
    ensures value { result ≡ sign_of (plain_power a b c d p) }

    // The range that every point keeps: it bounds the orientations of these five.
    ensures kept { IsWithin BOX_LIMIT a × IsWithin BOX_LIMIT b × IsWithin BOX_LIMIT c × IsWithin BOX_LIMIT d × IsWithin BOX_LIMIT p }
{
    let u = p.to(a);
    let v = p.to(b);
    let w = p.to(c);
    let t = p.to(d);
    let uv = u.minor(v);
    let uw = u.minor(w);
    let ut = u.minor(t);
    let vw = v.minor(w);
    let vt = v.minor(t);
    let wt = w.minor(t);
    Sign::of(
        lifted(t, determinant(u, v, w, uv, uw, vw)) - lifted(w, determinant(u, v, t, uv, ut, vt))
            + lifted(v, determinant(u, w, t, uw, ut, wt))
            - lifted(u, determinant(v, w, t, vw, vt, wt)),
    )
}
