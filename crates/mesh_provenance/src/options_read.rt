//! Reads options as they are printed. Depends on `line_text`, which reads numbers.

ghost use Rattle.std.specs.Prelude.{◌≡◌, ◌<◌, ◌≤◌, ◌++◌, ◌-◌, ◌^◌, ℕ, List, length, slice_index, decimal, IfSome, IfNone};
ghost use Rattle.std.specs.Bool.{OnTrue, OnFalse};
ghost use Rattle.line_text.specs.Numbers.{BeginsWithNone};
ghost use Rattle.geo_sign.specs.Numbers.{IsBetween};
ghost use Rattle.mesh_provenance.specs.Options.{IsSmoothing, AreOptions, smooth_end, flips_end, split_end, options_end};
ghost use Rattle.mesh_provenance.specs.Tails.{IsStop, IsStopped, IsNumbers, numbers_end, IsFlipsTail, IsSplitTail, IsCounted, counted_end};

use crate::words::{no_flips, pieces, smooth, split, within};
use finish_options::{FARTHEST, FinishOptions, MOST_STEPS, SmoothOptions};
use line_text::{behind, counted_within, number_of, number_within};

/// Returns the numbers of smoothing and the end of the line.
fn numbers_first(text: &[u8]) -> Option<(SmoothOptions, &[u8])>
    ensures some { IfSome result (λ read. IsNumbers read.0 × (text.now ≡ numbers_end read.0 ++ read.1.now)) }
    ensures none { IfNone result (BeginsWithNone IsNumbers numbers_end text.now) }
{
    let rest = behind(text, smooth())?;
    let (steps, rest) = number_within(rest, b' ', 1, MOST_STEPS as u64)?;
    let (distance, rest) = counted_within(rest, within(), 1, FARTHEST as u64)?;
    let numbers = SmoothOptions {
        steps: steps as u32,
        within: distance as u32,
    };
    Some((numbers, rest))
}

/// Returns how a mesh is smoothed, up to the end of the line.
fn smoothing_first(text: &[u8]) -> Option<(Option<SmoothOptions>, &[u8])>
    ensures some { IfSome result (λ read. IsSmoothing read.0 × (text.now ≡ smooth_end read.0 ++ read.1.now)) }
    ensures none { IfNone result (BeginsWithNone IsSmoothing smooth_end text.now) }
{
    match behind(text, b"\n") {
        Some(rest) => Some((None, rest)),
        None => {
            let (numbers, rest) = numbers_first(text)?;
            Some((Some(numbers), rest))
        }
    }
}

/// Returns whether edges are flipped, and what follows up to the end of the line.
fn flips_first(text: &[u8]) -> Option<((bool, Option<SmoothOptions>), &[u8])>
    ensures some { IfSome result (λ read. IsFlipsTail read.0 × (text.now ≡ flips_end read.0 ++ read.1.now)) }
    ensures none { IfNone result (BeginsWithNone IsFlipsTail flips_end text.now) }
{
    match behind(text, no_flips()) {
        Some(rest) => {
            let (smoothing, rest) = smoothing_first(rest)?;
            Some(((false, smoothing), rest))
        }
        None => {
            let (smoothing, rest) = smoothing_first(text)?;
            Some(((true, smoothing), rest))
        }
    }
}

/// Returns whether vertices are split, and what follows up to the end of the line.
fn split_first(text: &[u8]) -> Option<((bool, (bool, Option<SmoothOptions>)), &[u8])>
    ensures some { IfSome result (λ read. IsSplitTail read.0 × (text.now ≡ split_end read.0 ++ read.1.now)) }
    ensures none { IfNone result (BeginsWithNone IsSplitTail split_end text.now) }
{
    match behind(text, split()) {
        Some(rest) => {
            let (flips, rest) = flips_first(rest)?;
            Some(((true, flips), rest))
        }
        None => {
            let (flips, rest) = flips_first(text)?;
            Some(((false, flips), rest))
        }
    }
}

/// Returns the position of the first space or line feed, or the length if there is none.
fn stop_of(text: &[u8]) -> usize
    ensures within { result ≤ length text.now }
    ensures before { (k : ℕ) → k < result → IsStop (slice_index text.now k) → ⊥ }
    ensures found { result < length text.now → IsStop (slice_index text.now result) }
{
    for (i, x) in text.iter().enumerate() {
        if *x == b' ' || *x == b'\n' {
            return i;
        }
    }
    text.len()
}

/// Returns whether a number is from 1 on and fits 32 bits.
fn is_number_of_pieces(number: u64) -> bool
    ensures yes { OnTrue result (IsBetween 1 (2 ^ 32 - 1) number) }
    ensures no { OnFalse result (¬ IsBetween 1 (2 ^ 32 - 1) number) }
{
    1 <= number && number <= u32::MAX as u64
}

/// Returns the number at the start of a text that a space or a line feed ends, and the text from there on.
fn number_before_stop(text: &[u8]) -> Option<(u32, &[u8])>
    ensures some { IfSome result (λ read. IsBetween 1 (2 ^ 32 - 1) read.0 × IsStopped read.1.now × (text.now ≡ decimal read.0 ++ read.1.now)) }
    ensures none { IfNone result ((n : ℕ) (rest : List ℕ) → IsBetween 1 (2 ^ 32 - 1) n → IsStopped rest → ¬ (text.now ≡ decimal n ++ rest)) }
{
    let stop = stop_of(text);
    if stop == text.len() {
        return None;
    }
    let number = number_of(&text[..stop])?;
    if is_number_of_pieces(number) {
        Some((number as u32, &text[stop..]))
    } else {
        None
    }
}

/// Returns the number of pieces after its key, and what follows up to the end of the line.
fn pieces_first(text: &[u8]) -> Option<((u32, (bool, (bool, Option<SmoothOptions>))), &[u8])>
    ensures some { IfSome result (λ read. IsCounted read.0 × (text.now ≡ counted_end read.0 ++ read.1.now)) }
    ensures none { IfNone result (BeginsWithNone IsCounted counted_end text.now) }
{
    let (number, rest) = number_before_stop(text)?;
    let (split, rest) = split_first(rest)?;
    Some(((number, split), rest))
}

/// Returns the options up to the end of their line.
pub fn options_first(text: &[u8]) -> Option<(FinishOptions, &[u8])>
    ensures some { IfSome result (λ read. AreOptions read.0 × (text.now ≡ options_end read.0 ++ read.1.now)) }
    ensures none { IfNone result (BeginsWithNone AreOptions options_end text.now) }
{
    match behind(text, pieces()) {
        Some(rest) => {
            let ((number, split), rest) = pieces_first(rest)?;
            Some((options_of(Some(number), split), rest))
        }
        None => {
            let (split, rest) = split_first(text)?;
            Some((options_of(None, split), rest))
        }
    }
}

/// Returns the options with these values.
fn options_of(pieces: Option<u32>, split: (bool, (bool, Option<SmoothOptions>))) -> FinishOptions
    ensures pieces { result.pieces ≡ pieces }
    ensures split { (result.manifold, (result.flips, result.smoothing)) ≡ split }
{
    let (manifold, (flips, smoothing)) = split;
    FinishOptions {
        pieces,
        manifold,
        flips,
        smoothing,
    }
}
