//! Properties of printing and reading. The function here does nothing: its contract is the theorem.

ghost use Rattle.std.specs.Prelude.{◌≡◌, ◌^◌, ◌≤◌, ◌<◌, Ok, ℤ, unsigned_abs};
ghost use Rattle.std.specs.Fmt.{signed_decimal};
ghost use Rattle.num_text.specs.WholeNumbers.{whole_of};
ghost use Rattle.num_text.specs.Decimals.{scaled_of};
ghost use Rattle.num_text.specs.declared.decimal.TheConstants.{SCALED_LIMIT};

/// The text that [`push_whole`](crate::push_whole) prints is read back as the same number: by [`whole`](crate::whole) if it has
/// at most 18 digits, and by [`scaled`](crate::scaled) at scale 1 if it is within [`SCALED_LIMIT`](crate::SCALED_LIMIT). For
/// callers that write numbers and read them again.
pub fn printed_numbers_are_read()
    ensures whole { (z : ℤ) → unsigned_abs z < 10 ^ 18 → whole_of (signed_decimal z) ≡ Ok z }
    ensures scaled { (z : ℤ) → unsigned_abs z ≤ SCALED_LIMIT → scaled_of (signed_decimal z) 1 ≡ Ok z }
{}
