//! Prints whole numbers as decimal text, by `itoa`.

ghost use Rattle.std.specs.Prelude.{◌≡◌, ◌++◌, ◌∷◌, [], OnOk, OnErr, length, take, decimal};
ghost use Rattle.std.specs.Fmt.{signed_decimal};

use itoa::Buffer;
use std::alloc::AllocError;

/// Out of memory.
pub type NoMemory = AllocError;

/// Appends the decimal text of `n` to `out`: a minus sign if `n` is negative, then its digits without leading zeros, and `0`
/// for zero.
///
/// After `NoMemory`, `out` is unchanged.
pub fn push_whole(out: &mut Vec<u8>, n: i128) -> Result<(), NoMemory>
    ensures printed { OnOk result (out.new.items ≡ out.old.items ++ signed_decimal n) }
    ensures kept { OnErr result (out.new.items ≡ out.old.items) }
{
    let mut buffer = Buffer::new();
    out.extend_from_slice(buffer.format(n).as_bytes())
}

/// Appends the decimal text of a nonnegative number, without leading zeros, to `out`, as [`push_whole`] does.
///
/// After `NoMemory`, `out` is unchanged.
pub fn push_natural(out: &mut Vec<u8>, n: u128) -> Result<(), NoMemory>
    ensures printed { OnOk result (out.new.items ≡ out.old.items ++ decimal n) }
    ensures kept { OnErr result (out.new.items ≡ out.old.items) }
{
    let mut digits = Buffer::new();
    out.extend_from_slice(digits.format(n).as_bytes())
}

/// Appends the decimal text of `n`, as [`push_whole`] does, and the byte `end` to `out`.
///
/// After `NoMemory` the previous bytes of `out` are still at its start, and the number's may follow.
pub fn push_ended(out: &mut Vec<u8>, n: i128, end: u8) -> Result<(), NoMemory>
    ensures printed { OnOk result (out.new.items ≡ out.old.items ++ (signed_decimal n ++ end ∷ [])) }
    ensures kept { OnErr result (take (length out.old.items) out.new.items ≡ out.old.items) }
{
    push_whole(out, n)?;
    out.push(end)?;
    Ok(())
}
