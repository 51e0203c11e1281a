//! Prints a number and the byte that ends it. Depends on `num_text`.

ghost use Rattle.std.specs.Prelude.{◌≡◌, ◌++◌, OnOk, OnErr, length, take};
ghost use Rattle.line_text.specs.Numbers.{ended, counted, signed_ended};

use num_text::push_ended;
use std::alloc::AllocError;

/// Out of memory.
pub type NoMemory = AllocError;

/// Appends the decimal text of `n` and the byte `end` to `out`.
///
/// After `NoMemory` the previous bytes of `out` are still at its start, and some of the number's may follow.
pub fn push_number(out: &mut Vec<u8>, n: u64, end: u8) -> Result<(), NoMemory>
    ensures ok { OnOk result (out.new.items ≡ out.old.items ++ ended n end) }
    ensures kept { OnErr result (take (length out.old.items) out.new.items ≡ out.old.items) }
{
    push_ended(out, i128::from(n), end)
}

/// Appends `text`, then the decimal text of `n` and a line feed, to `out`: a line that ends in a number, with the text before
/// it.
///
/// After `NoMemory` the previous bytes of `out` are still at its start, and more may follow.
pub fn push_counted(out: &mut Vec<u8>, text: &[u8], n: u64) -> Result<(), NoMemory>
    ensures ok { OnOk result (out.new.items ≡ out.old.items ++ counted text.now n) }
    ensures kept { OnErr result (take (length out.old.items) out.new.items ≡ out.old.items) }
{
    out.extend_from_slice(text)?;
    push_number(out, n, b'\n')?;
    Ok(())
}

/// Appends the decimal text of `z` and the byte `end` to `out`. Only a negative number has a sign.
///
/// After `NoMemory` the previous bytes of `out` are still at its start, and some of the number's may follow.
pub fn push_signed(out: &mut Vec<u8>, z: i64, end: u8) -> Result<(), NoMemory>
    ensures ok { OnOk result (out.new.items ≡ out.old.items ++ signed_ended z end) }
    ensures kept { OnErr result (take (length out.old.items) out.new.items ≡ out.old.items) }
{
    push_ended(out, i128::from(z), end)
}
