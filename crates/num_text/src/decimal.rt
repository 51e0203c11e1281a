//! Reads decimals from a token, as a number of scaled units.
//!
//! A decimal's absolute value is a fraction `N / M` of whole numbers, `M` a power of ten, and at scale `U` it is `floor((2·N·U
//! + M) / (2·M))` units. The fraction itself may need thousands of digits and is never formed: at most 30 digits and a scale of
//! at most a million give a number of units below 10^36, which is then multiplied or divided by one power of ten. So every
//! number here fits 128 bits.

ghost use Rattle.std.specs.Prelude.{◌≡◌, ◌+◌, ◌*◌, ◌^◌, ◌/◌, ◌≤◌, ◌<◌, ◌++◌, length, drop, true, false, nat_lt, Ok, Err, IfOk, unsigned_abs};
ghost use Rattle.std.specs.List.{list_all, position_or_len};
ghost use Rattle.std.specs.Char.{is_ascii_digit};
ghost use Rattle.std.specs.Str.Parse.{digits_value};
ghost use Rattle.num_text.specs.WholeNumbers.{are_digits, significant};
ghost use Rattle.num_text.specs.Decimals.{is_exponent_mark, is_point, decimal_parts, is_decimal, is_long, exponent_of, numerator, denominator, nearest, scaled_of};
ghost use Rattle.num_text.specs.Steps.{within_limit};
ghost use Rattle.num_text.specs.Views.{parts_view};
ghost use Rattle.num_text.specs.declared.decimal.TheConstants.{SCALED_LIMIT, UNIT_LIMIT};

use crate::digits::{
    all_digits, has_minus, some_digits, value_after, with_sign, without_sign, without_zeros,
};
use crate::refusal::NumRefusal;

/// The largest scale at which [`scaled`] reads.
pub const UNIT_LIMIT: u32 = 1_000_000;

/// The largest absolute value that [`scaled`] returns, in units.
pub const SCALED_LIMIT: u64 = 2_097_151;

/// The maximal number of digits after leading zeros: before the exponent, and in it.
const MOST_DIGITS: usize = 30;

const MOST_EXPONENT_DIGITS: usize = 4;

/// A decimal's parts: a sign, the digits before and after the point, and an exponent.
#[derive(Clone, Copy, Debug)]
struct DecimalParts<'a> {
    is_negative: bool,
    whole: &'a [u8],
    fraction: &'a [u8],
    has_exponent: bool,
    exponent_is_negative: bool,
    exponent: &'a [u8],
}

fn is_exponent_mark_byte(byte: u8) -> bool
    ensures { result ≡ is_exponent_mark byte }
{
    byte == b'e' || byte == b'E'
}

fn is_point_byte(byte: u8) -> bool
    ensures { result ≡ is_point byte }
{
    byte == b'.'
}

/// Returns the position of the first `e` or `E`, or the length if there is none.
fn exponent_mark_position(text: &[u8]) -> usize
    ensures { result ≡ position_or_len is_exponent_mark text.now }
{
    for (position, byte) in text.iter().enumerate() {
        if is_exponent_mark_byte(*byte) {
            return position;
        }
    }
    text.len()
}

/// Returns the position of the first point, or the length if there is none.
fn point_position(text: &[u8]) -> usize
    ensures { result ≡ position_or_len is_point text.now }
{
    for (position, byte) in text.iter().enumerate() {
        if is_point_byte(*byte) {
            return position;
        }
    }
    text.len()
}

/// Returns the text after the byte at a position: empty if the position is the length.
fn behind(text: &[u8], position: usize) -> &[u8]
    ensures { result.now ≡ drop (position + 1) text.now }
{
    if position < text.len() {
        &text[position + 1..]
    } else {
        &text[text.len()..]
    }
}

fn split_parts<'a>(token: &'a [u8]) -> DecimalParts<'a>
    ensures { parts_view result ≡ decimal_parts token.now }
{
    let body = without_sign(token);
    let mark = exponent_mark_position(body);
    let mantissa = &body[..mark];
    let exponent = behind(body, mark);
    let point = point_position(mantissa);
    DecimalParts {
        is_negative: has_minus(token),
        whole: &mantissa[..point],
        fraction: behind(mantissa, point),
        has_exponent: mark < body.len(),
        exponent_is_negative: has_minus(exponent),
        exponent: without_sign(exponent),
    }
}

fn some_digits_of_two(whole: &[u8], fraction: &[u8]) -> bool
    ensures { result ≡ are_digits (whole.now ++ fraction.now) }
{
    if whole.is_empty() {
        return some_digits(fraction);
    }
    all_digits(whole) && all_digits(fraction)
}

fn is_decimal_text(parts: &DecimalParts<'_>) -> bool
    ensures { result ≡ is_decimal (parts_view parts.now) }
{
    some_digits_of_two(parts.whole, parts.fraction)
        && (!parts.has_exponent || some_digits(parts.exponent))
}

/// Returns whether more than 30 digits follow the leading zeros of the two runs together.
fn has_many_digits(whole: &[u8], fraction: &[u8]) -> bool
    ensures { result ≡ nat_lt 30 (length (significant (whole.now ++ fraction.now))) }
{
    let first = without_zeros(whole);
    if first.is_empty() {
        return without_zeros(fraction).len() > MOST_DIGITS;
    }
    first.len() > MOST_DIGITS || fraction.len() > MOST_DIGITS - first.len()
}

fn is_long_text(parts: &DecimalParts<'_>) -> bool
    ensures { result ≡ is_long (parts_view parts.now) }
{
    has_many_digits(parts.whole, parts.fraction)
        || without_zeros(parts.exponent).len() > MOST_EXPONENT_DIGITS
}

/// Returns the number that the two runs of digits make together.
fn value_of_two(whole: &[u8], fraction: &[u8]) -> u128
    requires digits { list_all is_ascii_digit (whole.now ++ fraction.now) ≡ true }
    requires short { length (significant (whole.now ++ fraction.now)) ≤ 30 }
    ensures value { result ≡ digits_value 10 (whole.now ++ fraction.now) }
    ensures small { result < 10 ^ 30 }
{
    let first = without_zeros(whole);
    if first.is_empty() {
        return value_after(0, without_zeros(fraction));
    }
    let start = value_after(0, first);
    value_after(start, fraction)
}

fn power_of_ten(exponent: u32) -> u128
    requires { exponent ≤ 38 }
    ensures { result ≡ 10 ^ exponent }
{
    let mut power: u128 = 1;
    for _ in 0..exponent {
        power *= 10;
    }
    power
}

fn limited(units: u128) -> Option<u64>
    ensures { result ≡ within_limit units }
{
    if units > SCALED_LIMIT as u128 {
        None
    } else {
        Some(units as u64)
    }
}

/// Returns a number of units times a power of ten.
fn units_times(units: u128, exponent: u128) -> Option<u64>
    ensures { result ≡ within_limit (units * 10 ^ exponent) }
{
    if units == 0 {
        return Some(0);
    }
    if units > SCALED_LIMIT as u128 {
        return None;
    }
    // Even one unit is out of range at 10^8.
    if exponent > 7 {
        return None;
    }
    limited(units * power_of_ten(exponent as u32))
}

/// Returns a number of units divided by a power of ten, rounded half up.
fn units_over(units: u128, exponent: u128) -> Option<u64>
    requires { units < 10 ^ 36 }
    ensures { result ≡ within_limit ((2 * units + 10 ^ exponent) / (2 * 10 ^ exponent)) }
{
    if exponent > 36 {
        return Some(0);
    }
    let power = power_of_ten(exponent as u32);
    let twice = 2 * power;
    let raised = 2 * units + power;
    let rounded = raised / twice;
    limited(rounded)
}

/// Returns the fraction `value · 10^up / 10^down` in units.
fn nearest_units(value: u128, up: u128, down: u128, unit: u32) -> Option<u64>
    requires value { value < 10 ^ 30 }
    requires unit { unit ≤ UNIT_LIMIT }
    ensures { result ≡ within_limit (nearest (value * 10 ^ up) (10 ^ down) unit) }
{
    let units = value * u128::from(unit);
    if up >= down {
        units_times(units, up - down)
    } else {
        units_over(units, down - up)
    }
}

fn units_of(parts: &DecimalParts<'_>, unit: u32) -> Option<u64>
    requires decimal { is_decimal (parts_view parts.now) ≡ true }
    requires short { is_long (parts_view parts.now) ≡ false }
    requires unit { unit ≤ UNIT_LIMIT }
    ensures { result ≡ within_limit (nearest (numerator (parts_view parts.now)) (denominator (parts_view parts.now)) unit) }
{
    let value = value_of_two(parts.whole, parts.fraction);
    let exponent = exponent_value(parts);
    let behind = parts.fraction.len() as u128;
    if parts.exponent_is_negative {
        nearest_units(value, 0, behind + exponent, unit)
    } else {
        nearest_units(value, exponent, behind, unit)
    }
}

/// Returns the exponent's absolute value, 0 if there is none.
fn exponent_value(parts: &DecimalParts<'_>) -> u128
    requires decimal { is_decimal (parts_view parts.now) ≡ true }
    requires short { is_long (parts_view parts.now) ≡ false }
    ensures value { result ≡ exponent_of (parts_view parts.now) }
    ensures small { result < 10 ^ 4 }
{
    if !parts.has_exponent {
        return 0;
    }
    value_after(0, without_zeros(parts.exponent))
}

/// Returns the number of units in a decimal, rounded to the nearest whole number, halves away from zero. `unit` is the scale,
/// the number of units in 1: at 1000, `1.5` is 1500.
///
/// A decimal is an optional `+` or `-`, digits with at most one `.` among, before or after them and at least one digit, and
/// then optionally `e` or `E`, an optional sign and at least one digit. Any other token gives `NotANumber`. A decimal with more
/// than 30 digits before the exponent, without the point and leading zeros, or with more than 4 digits after the leading zeros
/// of its exponent gives `LongNumber`. Of the others, those whose absolute value in units is over [`SCALED_LIMIT`] give
/// `OutOfRange`.
#[tactic(auto, unfolding(crate::specs::Decimals::scaled_of))]
pub fn scaled(token: &[u8], unit: u32) -> Result<i64, NumRefusal>
    requires at_least_one { 1 ≤ unit }
    requires at_most_a_million { unit ≤ UNIT_LIMIT }
    ensures exact { result ≡ scaled_of token.now unit }
    ensures in_range { IfOk result (λ units. unsigned_abs units ≤ SCALED_LIMIT) }
{
    let parts = split_parts(token);
    if !is_decimal_text(&parts) {
        return Err(NumRefusal::NotANumber);
    }
    if is_long_text(&parts) {
        return Err(NumRefusal::LongNumber);
    }
    match units_of(&parts, unit) {
        None => Err(NumRefusal::OutOfRange),
        Some(units) => Ok(with_sign(parts.is_negative, units)),
    }
}
