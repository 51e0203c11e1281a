//! Keys along the curve.

ghost use Rattle.std.specs.Prelude.{◌≡◌, ◌<◌, ◌≤◌, ◌+◌, ◌*◌, ◌%◌, ◌^◌};
ghost use Rattle.geo_sign.specs.Point.{IsWithin};
ghost use Rattle.geo_sign.specs.declared.point.TheConstants.{DATA_LIMIT};
ghost use Rattle.curve_order.specs.Curve.{interleave, curve_key};

use geo_sign::{DATA_LIMIT, Point};

/// The number of bits of each coordinate in a key: a coordinate counted from the least one is below 2^22.
const BITS: u32 = 22;

/// The negated origin of coordinates.
const SHIFT: i32 = DATA_LIMIT as i32;

/// Returns the lowest bit of each of three numbers, interleaved.
fn lowest(x: u32, y: u32, z: u32) -> u32
    ensures { result ≡ x % 2 * 4 + y % 2 * 2 + z % 2 }
{
    x % 2 * 4 + y % 2 * 2 + z % 2
}

/// Interleaves fewer than `BITS` of the lowest bits of three numbers. They fit 64 bits, which is faster.
fn interleaved(bits: u32, x: u32, y: u32, z: u32) -> u64
    requires { bits ≤ 21 }
    ensures value { result ≡ interleave bits x y z }
    ensures bound { result < 8 ^ bits }
{
    if bits == 0 {
        return 0;
    }
    let high = interleaved(bits - 1, x / 2, y / 2, z / 2);
    high * 8 + u64::from(lowest(x, y, z))
}

/// Interleaves the `BITS` lowest bits of three numbers.
fn all_interleaved(x: u32, y: u32, z: u32) -> u128
    ensures value { result ≡ interleave 22 x y z }
    ensures bound { result < 2 ^ 66 }
{
    let high = interleaved(BITS - 1, x / 2, y / 2, z / 2);
    u128::from(high) * 8 + u128::from(lowest(x, y, z))
}

/// Returns the key of a data point.
pub(crate) fn key_of(p: Point) -> u128
    requires { IsWithin DATA_LIMIT p }
    ensures value { result ≡ curve_key p }
    ensures bound { result < 2 ^ 66 }
{
    all_interleaved(
        (p.x() + SHIFT) as u32,
        (p.y() + SHIFT) as u32,
        (p.z() + SHIFT) as u32,
    )
}
