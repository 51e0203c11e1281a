//! Lines at the start of a text that are a fixed text, or a word and a number: read, or rejected with the line number.

ghost use Rattle.std.specs.Prelude.{◌≡◌, ◌++◌, IfOk, IfErr};
ghost use Rattle.line_text.specs.Numbers.{counted};
ghost use Rattle.geo_sign.specs.Numbers.{IsBetween};
ghost use Rattle.line_text.specs.Refusals.{RefusedWord, RefusedNumber};

use crate::read::{behind, counted_within};
use crate::refusal::{LineRefusal, refusal_of};

/// Returns the text after line `line`, which is this fixed text.
pub fn word_line<'a>(text: &'a [u8], word: &[u8], line: u64) -> Result<&'a [u8], LineRefusal>
    ensures ok { IfOk result (λ rest. text.now ≡ word.now ++ rest.now) }
    ensures refused { IfErr result (RefusedWord word.now line text.now) }
{
    match behind(text, word) {
        Some(rest) => Ok(rest),
        None => Err(refusal_of(text, line)),
    }
}

/// Returns the number from `least` to `greatest` that line `line` states after this word, and the text after the line.
pub fn number_line<'a>(
    text: &'a [u8],
    word: &[u8],
    least: u64,
    greatest: u64,
    line: u64,
) -> Result<(u64, &'a [u8]), LineRefusal>
    ensures ok { IfOk result (λ read. IsBetween least greatest read.0 × (text.now ≡ counted word.now read.0 ++ read.1.now)) }
    ensures refused { IfErr result (RefusedNumber word.now least greatest line text.now) }
{
    match counted_within(text, word, least, greatest) {
        Some(read) => Ok(read),
        None => Err(refusal_of(text, line)),
    }
}
