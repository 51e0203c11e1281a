//! Reads points from a text of decimals. Depends on `num_text`, which reads a decimal in scaled units.

ghost use Rattle.std.specs.Prelude.{◌≡◌, ◌≤◌, ◌<◌, ◌+◌, ◌*◌, ◌%◌, ◌^◌, IfOk, All, length, map, [], unsigned_abs};
ghost use Rattle.geo_sign.specs.declared.point.TheConstants.{DATA_LIMIT};
ghost use Rattle.geo_sign.specs.Point.{IsWithin};
ghost use Rattle.num_text.specs.declared.decimal.TheConstants.{UNIT_LIMIT};
ghost use Rattle.ply_rows.specs.Tokens.{is_white_space as is_white_space_in};
ghost use Rattle.solid_query.specs.Queries.{token_coordinate, point_or_refusal, points_from, points_in, units_or_refusal, tokens_of as tokens_in, Gives};

use crate::NoMemory;
use crate::refusal::QueryRefusal;
use geo_sign::Point;
use num_text::{NumRefusal, scaled};
use std::alloc::Global;

/// The maximal number of tokens in a text of points: three for each of 1,048,576 points.
pub const TOKEN_LIMIT: u32 = 3_145_728;

/// Returns whether a byte is space, tab, CR or LF.
fn is_white_space(byte: u8) -> bool
    ensures { result ≡ is_white_space_in byte }
{
    byte == b' ' || byte == b'\t' || byte == b'\r' || byte == b'\n'
}

/// Returns the number of tokens of a text.
fn token_count(bytes: &[u8]) -> usize
    ensures { result ≡ length (tokens_in bytes.now) }
{
    bytes
        .split(|byte| is_white_space(*byte))
        .filter(|token| !token.is_empty())
        .count()
}

/// Returns the tokens of a text.
fn tokens_of<'a>(alloc: Global, bytes: &'a [u8]) -> Result<Vec<&'a [u8]>, NoMemory>
    ensures { IfOk result (λ tokens. map (λ token. token.now) tokens.items ≡ tokens_in bytes.now) }
{
    bytes
        .split(|byte| is_white_space(*byte))
        .filter(|token| !token.is_empty())
        .collect(alloc)
}

/// Returns the number of units in the token with this number, or its error.
fn told(number: u32, units: Result<i64, NumRefusal>) -> Result<i64, QueryRefusal>
    ensures { result ≡ units_or_refusal number units }
{
    match units {
        Ok(units) => Ok(units),
        Err(NumRefusal::NotANumber) => Err(QueryRefusal::BadToken(number)),
        Err(NumRefusal::LongNumber) => Err(QueryRefusal::LongNumber(number)),
        Err(NumRefusal::OutOfRange) => Err(QueryRefusal::OutOfRange(number)),
    }
}

/// Returns the coordinate in the token with this number.
fn coordinate(unit: u32, number: u32, token: &[u8]) -> Result<i64, QueryRefusal>
    requires at_least_one { 1 ≤ unit }
    requires at_most_a_million { unit ≤ UNIT_LIMIT }
    ensures said { result ≡ token_coordinate unit number token.now }
    ensures data { IfOk result (λ units. unsigned_abs units ≤ DATA_LIMIT) }
{
    told(number, scaled(token, unit))
}

/// Returns the point of three tokens, the first with this number.
fn point_at(unit: u32, number: u32, x: &[u8], y: &[u8], z: &[u8]) -> Result<Point, QueryRefusal>
    requires at_least_one { 1 ≤ unit }
    requires at_most_a_million { unit ≤ UNIT_LIMIT }
    requires number { number + 2 < 2 ^ 32 }
    ensures said { result ≡ point_or_refusal (token_coordinate unit number x.now) (token_coordinate unit (number + 1) y.now) (token_coordinate unit (number + 2) z.now) }
    ensures data { IfOk result (IsWithin DATA_LIMIT) }
{
    let x = coordinate(unit, number, x)?;
    let y = coordinate(unit, number + 1, y)?;
    let z = coordinate(unit, number + 2, z)?;
    match Point::data(x, y, z) {
        Some(point) => Ok(point),
        // Each is within the limit of a scan's coordinates.
        None => unreachable!(),
    }
}

/// Returns the points of tokens, three a point.
fn points_of(alloc: Global, unit: u32, tokens: &[&[u8]]) -> Result<Vec<Point>, QueryRefusal>
    requires at_least_one { 1 ≤ unit }
    requires at_most_a_million { unit ≤ UNIT_LIMIT }
    requires few { length tokens.now ≤ TOKEN_LIMIT }
    requires even { length tokens.now % 3 ≡ 0 }
    ensures said { Gives (λ points. points.items) result (points_from unit 0 (map (λ token. token.now) tokens.now)) }
    ensures data { IfOk result (λ points. All (IsWithin DATA_LIMIT) points.items) }
{
    let mut points = Vec::with_capacity(alloc, tokens.len() / 3)?;
    for k in 0..tokens.len() / 3 {
        let at = 3 * k;
        let point = point_at(unit, at as u32, tokens[at], tokens[at + 1], tokens[at + 2])?;
        points.push(point)?;
    }
    Ok(points)
}

/// Reads points from a text of decimals, in scaled units: tokens between white space (space, tab, CR and LF), three for each
/// point.
///
/// Rejects, in this order, more tokens than [`TOKEN_LIMIT`], a number of tokens that is no multiple of three, and the first
/// token that is not a number of scaled units within the limit of a scan's coordinates.
#[tactic(auto, unfolding(crate::specs::Queries::points_in))]
pub fn read_queries(alloc: Global, bytes: &[u8], unit: u32) -> Result<Vec<Point>, QueryRefusal>
    requires at_least_one { 1 ≤ unit }
    requires at_most_a_million { unit ≤ UNIT_LIMIT }
    ensures read { Gives (λ points. points.items) result (points_in bytes.now unit) }
    ensures data { IfOk result (λ points. All (IsWithin DATA_LIMIT) points.items) }
{
    let count = token_count(bytes);
    if count > TOKEN_LIMIT as usize {
        return Err(QueryRefusal::TooMany {
            tokens: count as u64,
        });
    }
    if count % 3 != 0 {
        return Err(QueryRefusal::Uneven {
            tokens: count as u32,
        });
    }
    let tokens = tokens_of(alloc, bytes)?;
    points_of(alloc, unit, &tokens)
}
