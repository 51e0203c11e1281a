//! Signs and digits: what whole numbers and decimals have in common.

ghost use Rattle.std.specs.Prelude.{◌≡◌, ◌+◌, ◌*◌, ◌^◌, ◌≤◌, ◌<◌, length, true};
ghost use Rattle.std.specs.List.{list_all};
ghost use Rattle.std.specs.Char.{is_ascii_digit};
ghost use Rattle.std.specs.Str.Parse.{digits_value_after};
ghost use Rattle.num_text.specs.WholeNumbers.{is_minus, behind_sign, are_digits, significant, signed};

/// Returns whether a text begins with a minus sign.
pub(crate) fn has_minus(text: &[u8]) -> bool
    ensures { result ≡ is_minus text.now }
{
    if text.is_empty() {
        return false;
    }
    text[0] == b'-'
}

/// Returns a text without its sign, if it begins with one.
pub(crate) fn without_sign(text: &[u8]) -> &[u8]
    ensures { result.now ≡ behind_sign text.now }
{
    if text.is_empty() {
        return text;
    }
    if text[0] == b'+' || text[0] == b'-' {
        &text[1..]
    } else {
        text
    }
}

/// Returns whether each byte is a digit.
pub fn all_digits(text: &[u8]) -> bool
    ensures { result ≡ list_all is_ascii_digit text.now }
{
    text.iter().all(|byte| b'0' <= *byte && *byte <= b'9')
}

/// Returns whether a text is one or more digits.
pub(crate) fn some_digits(text: &[u8]) -> bool
    ensures { result ≡ are_digits text.now }
{
    !text.is_empty() && all_digits(text)
}

/// Returns digits without their leading zeros.
pub(crate) fn without_zeros(digits: &[u8]) -> &[u8]
    ensures { result.now ≡ significant digits.now }
{
    for (position, byte) in digits.iter().enumerate() {
        if *byte != b'0' {
            return &digits[position..];
        }
    }
    &digits[digits.len()..]
}

/// Returns the number with the digits of `start` and then these digits.
pub(crate) fn value_after(start: u128, digits: &[u8]) -> u128
    requires digits { list_all is_ascii_digit digits.now ≡ true }
    requires room { (start + 1) * 10 ^ length digits.now ≤ 10 ^ 30 }
    ensures { result ≡ digits_value_after 10 start digits.now }
{
    let mut value = start;
    for byte in digits {
        value = value * 10 + u128::from(*byte - b'0');
    }
    value
}

/// Returns a number with its sign.
pub(crate) fn with_sign(is_negative: bool, value: u64) -> i64
    requires { value < 2 ^ 63 }
    ensures { result ≡ signed is_negative value }
{
    let value = value as i64;
    if is_negative { -value } else { value }
}
