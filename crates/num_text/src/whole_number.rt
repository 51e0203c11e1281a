//! Reads whole numbers from a token.

ghost use Rattle.std.specs.Prelude.{◌≡◌, ◌<◌, ◌^◌, IfOk, unsigned_abs};
ghost use Rattle.num_text.specs.WholeNumbers.{whole_of};

use crate::digits::{has_minus, some_digits, value_after, with_sign, without_sign, without_zeros};
use crate::refusal::NumRefusal;

/// The maximal number of digits after leading zeros.
const MOST_DIGITS: usize = 18;

/// Parses a whole number: an optional `+` or `-` and at least one digit.
///
/// Any other token gives `NotANumber`; then more than 18 digits after the leading zeros give `LongNumber`. Never returns
/// `OutOfRange`.
#[tactic(auto, unfolding(crate::specs::WholeNumbers::whole_of))]
pub fn whole(token: &[u8]) -> Result<i64, NumRefusal>
    ensures exact { result ≡ whole_of token.now }
    ensures short { IfOk result (λ number. unsigned_abs number < 10 ^ 18) }
{
    let digits = without_sign(token);
    if !some_digits(digits) {
        return Err(NumRefusal::NotANumber);
    }
    let digits = without_zeros(digits);
    if digits.len() > MOST_DIGITS {
        return Err(NumRefusal::LongNumber);
    }
    let value = value_after(0, digits) as u64;
    Ok(with_sign(has_minus(token), value))
}
