//! Reads numbers at the start of a text. Accepts exactly the printed form: digits without a leading zero and without a sign.

ghost use Rattle.std.specs.Prelude.{◌≡◌, ◌<◌, ◌≤◌, ◌^◌, ◌++◌, ◌∷◌, ℕ, ℤ, List, IfSome, IfNone, length, slice_index, decimal};
ghost use Rattle.std.specs.Fmt.{signed_decimal};
ghost use Rattle.std.specs.Int.{IsInRange};
ghost use Rattle.std.specs.Int.Signed.{mag};
ghost use Rattle.line_text.specs.Numbers.{ended, counted, signed_ended, BeginsWithNone, Lacks, IsSignedBetween};
ghost use Rattle.geo_sign.specs.Numbers.{IsBetween};

use crate::digits::{behind_byte, number_front};

/// Returns the position of the first such byte, or the length if there is none.
fn place_of(text: &[u8], byte: u8) -> usize
    ensures within { result ≤ length text.now }
    ensures before { (k : ℕ) → k < result → slice_index text.now k ≡ byte → ⊥ }
    ensures found { result < length text.now → slice_index text.now result ≡ byte }
{
    for (i, x) in text.iter().enumerate() {
        if *x == byte {
            return i;
        }
    }
    text.len()
}

/// Splits a text at the first such byte, and returns the parts before and after it, or `None` if the text lacks the byte.
pub fn cut_at(text: &[u8], byte: u8) -> Option<(&[u8], &[u8])>
    ensures some { IfSome result (λ parts. (text.now ≡ parts.0.now ++ (byte ∷ parts.1.now)) × Lacks byte parts.0.now) }
    ensures none { IfNone result (Lacks byte text.now) }
{
    let place = place_of(text, byte);
    if place < text.len() {
        Some((&text[..place], &text[place + 1..]))
    } else {
        None
    }
}

/// Returns the number whose decimal text the token is, or `None` if it is not the text of a 64-bit number.
pub fn number_of(token: &[u8]) -> Option<u64>
    ensures some { IfSome result (λ n. token.now ≡ decimal n) }
    ensures none { IfNone result ((n : ℕ) → n < 2 ^ 64 → ¬ (token.now ≡ decimal n)) }
{
    let (n, rest) = number_front(token)?;
    if rest.is_empty() { Some(n) } else { None }
}

/// Returns the number of at most `limit` at the start of a text, with the byte that ends it, and the text after that byte, or
/// `None` if there is no such number.
pub fn number_first(text: &[u8], end: u8, limit: u64) -> Option<(u64, &[u8])>
    requires { end < 48 }
    ensures some { IfSome result (λ read. (read.0 ≤ limit) × (text.now ≡ ended read.0 end ++ read.1.now)) }
    ensures none { IfNone result (BeginsWithNone (λ n. n ≤ limit) (λ n. ended n end) text.now) }
{
    let (n, rest) = number_front(text)?;
    let rest = behind_byte(rest, end)?;
    if n <= limit { Some((n, rest)) } else { None }
}

/// Returns the number from `least` to `greatest` at the start of a text, with the byte that ends it, and the text after that
/// byte, or `None` if there is no such number.
pub fn number_within(text: &[u8], end: u8, least: u64, greatest: u64) -> Option<(u64, &[u8])>
    requires { end < 48 }
    ensures some { IfSome result (λ read. IsBetween least greatest read.0 × (text.now ≡ ended read.0 end ++ read.1.now)) }
    ensures none { IfNone result (BeginsWithNone (IsBetween least greatest) (λ n. ended n end) text.now) }
{
    let (n, rest) = number_first(text, end, greatest)?;
    if n >= least { Some((n, rest)) } else { None }
}

/// Returns the number from `least` to `greatest` that a line with this word states, and the text after the line, or `None` if
/// the text does not begin with such a line.
pub fn counted_within<'a>(
    text: &'a [u8],
    word: &[u8],
    least: u64,
    greatest: u64,
) -> Option<(u64, &'a [u8])>
    ensures some { IfSome result (λ read. IsBetween least greatest read.0 × (text.now ≡ counted word.now read.0 ++ read.1.now)) }
    ensures none { IfNone result (BeginsWithNone (IsBetween least greatest) (counted word.now) text.now) }
{
    let rest = behind(text, word)?;
    number_within(rest, b'\n', least, greatest)
}

/// Returns the negative 64-bit number with the digits at the start of a text, and the text after them.
fn below_zero(text: &[u8]) -> Option<(i64, &[u8])>
    ensures some { IfSome result (λ read. (mag read.0 < 2 ^ 63) × (45 ∷ text.now ≡ signed_decimal read.0 ++ read.1.now) × ¬ IsInRange 48 57 (slice_index read.1.now 0)) }
    ensures none { IfNone result ((z : ℤ) (rest : List ℕ) → mag z < 2 ^ 63 → ¬ IsInRange 48 57 (slice_index rest 0) → ¬ (45 ∷ text.now ≡ signed_decimal z ++ rest)) }
{
    let (n, rest) = number_front(text)?;
    if n >= 1 && n <= 1 << 63 {
        Some((-1 - (n - 1) as i64, rest))
    } else {
        None
    }
}

/// Returns the signed 64-bit number whose decimal text is at the start of a text, and the text from the first byte on that is
/// no digit, or `None` if there is no such number: no plus sign, no leading zero, no sign at zero.
fn signed_front(text: &[u8]) -> Option<(i64, &[u8])>
    ensures some { IfSome result (λ read. (mag read.0 < 2 ^ 63) × (text.now ≡ signed_decimal read.0 ++ read.1.now) × ¬ IsInRange 48 57 (slice_index read.1.now 0)) }
    ensures none { IfNone result ((z : ℤ) (rest : List ℕ) → mag z < 2 ^ 63 → ¬ IsInRange 48 57 (slice_index rest 0) → ¬ (text.now ≡ signed_decimal z ++ rest)) }
{
    match behind_byte(text, b'-') {
        Some(rest) => below_zero(rest),
        None => {
            let (n, rest) = number_front(text)?;
            if n < 1 << 63 {
                Some((n as i64, rest))
            } else {
                None
            }
        }
    }
}

/// Returns the signed number from `least` to `greatest` at the start of a text, with the byte that ends it, and the text after
/// that byte, or `None` if there is no such number: it has no plus sign and no leading zeros, and zero has no sign.
pub fn signed_first(text: &[u8], end: u8, least: i64, greatest: i64) -> Option<(i64, &[u8])>
    requires { end < 45 }
    ensures some { IfSome result (λ read. IsSignedBetween least greatest read.0 × (text.now ≡ signed_ended read.0 end ++ read.1.now)) }
    ensures none { IfNone result (BeginsWithNone (IsSignedBetween least greatest) (λ z. signed_ended z end) text.now) }
{
    let (z, rest) = signed_front(text)?;
    let rest = behind_byte(rest, end)?;
    if least <= z && z <= greatest {
        Some((z, rest))
    } else {
        None
    }
}

/// Returns the text after this prefix, or `None` if the text does not begin with it.
pub fn behind<'a>(text: &'a [u8], front: &[u8]) -> Option<&'a [u8]>
    ensures some { IfSome result (λ rest. text.now ≡ front.now ++ rest.now) }
    ensures none { IfNone result ((rest : List ℕ) → ¬ (text.now ≡ front.now ++ rest)) }
{
    text.strip_prefix(front)
}
