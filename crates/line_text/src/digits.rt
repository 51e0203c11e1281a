//! Reads the decimal text of a number at the start of a text, in one pass over its digits.
//!
//! Nineteen digits fit 64 bits, so the pass needs no test of an overflow. What can still be wrong is tested once after it: the
//! twentieth digit, and the first, which is a zero only of the number zero.

ghost use Rattle.std.specs.Prelude.{◌≡◌, ◌<◌, ◌≤◌, ◌^◌, ◌++◌, ◌∷◌, ℕ, List, IfSome, IfNone, length, take, drop, slice_index, decimal};
ghost use Rattle.std.specs.Bool.{OnTrue, OnFalse};
ghost use Rattle.std.specs.Int.{IsInRange};
ghost use Rattle.std.specs.Str.Parse.{AllDigits, digits_value};
ghost use Rattle.line_text.specs.Tokens.{IsPlain};

/// The maximal number of digits whose number always fits 64 bits.
const SURE_DIGITS: usize = 19;

/// Returns the number that the digits at the start of a text write, and how many they are, of the first 19 bytes.
fn sure_digits(text: &[u8]) -> (u64, usize)
    ensures count { result.1 ≤ length text.now }
    ensures few { result.1 ≤ 19 }
    ensures digits { AllDigits 10 (take result.1 text.now) }
    ensures value { result.0 ≡ digits_value 10 (take result.1 text.now) }
    ensures stops { result.1 < 19 → ¬ IsInRange 48 57 (slice_index text.now result.1) }
{
    let most = text.len().min(SURE_DIGITS);
    let mut n: u64 = 0;
    for count in 0..most {
        let byte = text[count];
        if byte < b'0' || byte > b'9' {
            return (n, count);
        }
        n = n * 10 + u64::from(byte - b'0');
    }
    (n, most)
}

/// Returns whether the byte at a position is a digit.
fn has_digit_at(text: &[u8], position: usize) -> bool
    ensures yes { OnTrue result (position < length text.now × IsInRange 48 57 (slice_index text.now position)) }
    ensures no { OnFalse result (¬ IsInRange 48 57 (slice_index text.now position)) }
{
    if position >= text.len() {
        return false;
    }
    b'0' <= text[position] && text[position] <= b'9'
}

/// Returns the number that all digits at the start of a text write, and how many they are, or `None` if it is past 64 bits.
fn all_digits_first(text: &[u8]) -> Option<(u64, usize)>
    ensures some { IfSome result (λ read. (read.1 ≤ length text.now) × AllDigits 10 (take read.1 text.now) × (read.0 ≡ digits_value 10 (take read.1 text.now)) × ¬ IsInRange 48 57 (slice_index text.now read.1)) }
    ensures none { IfNone result ((n : ℕ) (rest : List ℕ) → n < 2 ^ 64 → ¬ IsInRange 48 57 (slice_index rest 0) → ¬ (text.now ≡ decimal n ++ rest)) }
{
    let (n, count) = sure_digits(text);
    if count < SURE_DIGITS || !has_digit_at(text, count) {
        return Some((n, count));
    }
    let tens = n.checked_mul(10)?;
    let n = tens.checked_add(u64::from(text[count] - b'0'))?;
    if has_digit_at(text, count + 1) {
        return None;
    }
    Some((n, count + 1))
}

/// Returns whether the first byte can begin a printed number.
fn is_plain(token: &[u8]) -> bool
    ensures yes { OnTrue result (IsPlain token.now) }
    ensures no { OnFalse result (¬ IsPlain token.now) }
{
    if token.is_empty() {
        return false;
    }
    let first = token[0];
    first != b'+' && (first != b'0' || token.len() == 1)
}

/// Returns the number of 64 bits whose decimal text is at the start of a text, and the text from the first byte on that is no
/// digit, or `None` if the digits at the start are not such a text.
pub(crate) fn number_front(text: &[u8]) -> Option<(u64, &[u8])>
    ensures some { IfSome result (λ read. (read.0 < 2 ^ 64) × (text.now ≡ decimal read.0 ++ read.1.now) × ¬ IsInRange 48 57 (slice_index read.1.now 0)) }
    ensures none { IfNone result ((n : ℕ) (rest : List ℕ) → n < 2 ^ 64 → ¬ IsInRange 48 57 (slice_index rest 0) → ¬ (text.now ≡ decimal n ++ rest)) }
{
    let (n, count) = all_digits_first(text)?;
    if is_plain(&text[..count]) {
        Some((n, &text[count..]))
    } else {
        None
    }
}

/// Returns the text after its first byte, if this is it.
pub(crate) fn behind_byte(text: &[u8], byte: u8) -> Option<&[u8]>
    ensures some { IfSome result (λ rest. text.now ≡ byte ∷ rest.now) }
    ensures none { IfNone result ((rest : List ℕ) → ¬ (text.now ≡ byte ∷ rest)) }
{
    if text.is_empty() || text[0] != byte {
        return None;
    }
    Some(&text[1..])
}
