//! Points sorted along the curve.

ghost use Rattle.std.specs.Prelude.{◌≡◌, ◌<◌, ◌^◌, ℕ, IfOk, length, get_or, map};
ghost use Rattle.std.specs.List.Sorted.{IsPermutation, IsNonDecreasingBy};
ghost use Rattle.geo_sign.specs.Point.{origin, IsWithin};
ghost use Rattle.geo_sign.specs.declared.point.TheConstants.{DATA_LIMIT};
ghost use Rattle.curve_order.specs.Curve.{curve_key, key_in};
ghost use Rattle.curve_order.specs.Order.{IsOrder, IsByKey};
ghost use Rattle.curve_order.specs.Ranks.{rank_of, the_rank, the_number, AreRanked};

use crate::NoMemory;
use crate::curve::key_of;
use geo_sign::Point;
use std::alloc::Global;

/// The number of a point, and the rank by which it is sorted.
#[derive(Clone, Copy)]
struct Ranked {
    rank: u128,
    number: u32,
}

/// Returns the rank of a data point with a number: its key, and below it 32 bits of the number.
fn rank_at(p: Point, number: u32) -> u128
    requires { IsWithin DATA_LIMIT p }
    ensures { result ≡ rank_of (curve_key p) number }
{
    key_of(p) * 4_294_967_296 + u128::from(number)
}

/// Returns the points with their ranks.
fn with_ranks(alloc: Global, points: &[Point]) -> Result<Vec<Ranked>, NoMemory>
    requires few { length points.now < 2 ^ 32 }
    requires within { (k : ℕ) → k < length points.now → IsWithin DATA_LIMIT (get_or points.now k origin) }
    ensures { IfOk result (λ list. AreRanked points.now list.items (length points.now)) }
{
    let mut list = Vec::new(alloc);
    for i in 0..points.len() {
        let number = i as u32;
        list.push(Ranked {
            rank: rank_at(points[i], number),
            number,
        })?;
    }
    Ok(list)
}

/// Sorts points by their ranks.
fn sort(list: &mut [Ranked])
    ensures moved { IsPermutation list.old list.new }
    ensures sorted { IsNonDecreasingBy the_rank list.new }
{
    list.sort_unstable_by_key(|ranked| ranked.rank);
}

/// Returns their numbers.
fn numbers(alloc: Global, list: &[Ranked]) -> Result<Vec<u32>, NoMemory>
    ensures { IfOk result (λ numbers. numbers.items ≡ map the_number list.now) }
{
    let mut numbers = Vec::new(alloc);
    for ranked in list {
        numbers.push(ranked.number)?;
    }
    Ok(numbers)
}

/// Returns the numbers of data points along the curve: each number below the count once, by ascending key, and numbers with
/// equal keys in ascending order. The only error is out of memory.
pub fn order(alloc: Global, points: &[Point]) -> Result<Vec<u32>, NoMemory>
    requires few { length points.now < 2 ^ 32 }
    requires within { (k : ℕ) → k < length points.now → IsWithin DATA_LIMIT (get_or points.now k origin) }
    ensures order { IfOk result (λ order. IsOrder (length points.now) order.items) }
    ensures by_key { IfOk result (λ order. IsByKey (key_in points.now) (length points.now) order.items) }
{
    let mut list = with_ranks(alloc, points)?;
    sort(&mut list);
    numbers(alloc, &list)
}
