//! The options of `finish`.
ghost use Rattle.std.specs.Prelude.{◌≡◌, map, string_bytes};
ghost use Rattle.mesh_cmd.specs.Options.{finish_options, options_given, smoothing_given, with_options, with_option, with_key_number, without_flips, with_split, without_comments, first_number, with_pieces, with_steps, with_within, limited_in, limited};

use finish_options::{FARTHEST, FinishOptions, MOST_STEPS, SmoothOptions};
use num_text::{all_digits, whole};

/// What is done to a mesh, and whether its file states that.
#[derive(Clone, Copy, Debug, PartialEq, Eq)]
pub struct FinishRequest {
    /// What is done.
    pub options: FinishOptions,
    /// Comments of the header state it (default: true).
    pub comments: bool,
}

/// Options as they are given, one after another.
#[derive(Clone, Copy)]
struct GivenOptions {
    /// How many pieces are kept, if a number is given.
    pieces: Option<u32>,
    /// Whether vertices are split.
    manifold: bool,
    /// Whether edges are flipped.
    flips: bool,
    /// How many steps of smoothing there are, if a number is given.
    steps: Option<u32>,
    /// How far points move, if a number is given.
    within: Option<u32>,
    /// Whether the header has comments.
    comments: bool,
}

/// Returns the options that these arguments are, if they are valid.
pub(crate) fn options_in(words: &[String]) -> Option<FinishRequest>
    ensures { result ≡ finish_options (map string_bytes words.now) }
{
    let none = GivenOptions {
        pieces: None,
        manifold: false,
        flips: true,
        steps: None,
        within: None,
        comments: true,
    };
    options_given(with_all(none, words)?)
}

/// Returns the options that are given so, if smoothing has both numbers or neither.
fn options_given(given: GivenOptions) -> Option<FinishRequest>
    ensures { result ≡ options_given given }
{
    let smoothing = smoothing_given(given.steps, given.within)?;
    let options = FinishOptions {
        pieces: given.pieces,
        manifold: given.manifold,
        flips: given.flips,
        smoothing,
    };
    Some(FinishRequest {
        options,
        comments: given.comments,
    })
}

/// Returns how a mesh is smoothed, if both numbers are given or neither.
fn smoothing_given(steps: Option<u32>, within: Option<u32>) -> Option<Option<SmoothOptions>>
    ensures { result ≡ smoothing_given steps within }
{
    match (steps, within) {
        (None, None) => Some(None),
        (Some(steps), Some(within)) => Some(Some(SmoothOptions { steps, within })),
        (None, Some(_)) => None,
        (Some(_), None) => None,
    }
}

/// Returns the options with those of these arguments, if each is an option that is not given yet.
fn with_all(options: GivenOptions, words: &[String]) -> Option<GivenOptions>
    ensures { result ≡ with_options options (map string_bytes words.now) }
{
    match words {
        [] => Some(options),
        [word, rest @ ..] => {
            let more = with_one(options, word.as_str())?;
            with_all(more, rest)
        }
    }
}

/// Returns the options with that of this argument, if it is one that is not given yet.
fn with_one(options: GivenOptions, word: &str) -> Option<GivenOptions>
    ensures { result ≡ with_option options word.now }
{
    if word == "flips=no" {
        without_flips(options)
    } else if word == "manifold=yes" {
        with_split(options)
    } else if word == "comments=no" {
        without_comments(options)
    } else {
        with_key_number(options, word.as_bytes())
    }
}

/// Returns the options without flips, if they have them.
fn without_flips(options: GivenOptions) -> Option<GivenOptions>
    ensures { result ≡ without_flips options }
{
    if !options.flips {
        return None;
    }
    Some(GivenOptions {
        flips: false,
        ..options
    })
}

/// Returns the options with a split of vertices, if they have none.
fn with_split(options: GivenOptions) -> Option<GivenOptions>
    ensures { result ≡ with_split options }
{
    if options.manifold {
        return None;
    }
    Some(GivenOptions {
        manifold: true,
        ..options
    })
}

/// Returns the options without comments, if they have them.
fn without_comments(options: GivenOptions) -> Option<GivenOptions>
    ensures { result ≡ without_comments options }
{
    if !options.comments {
        return None;
    }
    Some(GivenOptions {
        comments: false,
        ..options
    })
}

/// Returns the options with the number of this argument, if it is one that is not given yet.
fn with_key_number(options: GivenOptions, word: &[u8]) -> Option<GivenOptions>
    ensures { result ≡ with_key_number options word.now }
{
    if word.starts_with(b"pieces=") {
        with_pieces(options, limited_in(u32::MAX, &word[7..])?)
    } else if word.starts_with(b"smooth=") {
        with_steps(options, limited_in(MOST_STEPS, &word[7..])?)
    } else if word.starts_with(b"within=") {
        with_within(options, limited_in(FARTHEST, &word[7..])?)
    } else {
        None
    }
}

/// Returns the options with a number of pieces, if they have none.
fn with_pieces(options: GivenOptions, number: u32) -> Option<GivenOptions>
    ensures { result ≡ with_pieces options number }
{
    let number = first_number(options.pieces, number)?;
    Some(GivenOptions {
        pieces: Some(number),
        ..options
    })
}

/// Returns the options with a number of steps, if they have none.
fn with_steps(options: GivenOptions, number: u32) -> Option<GivenOptions>
    ensures { result ≡ with_steps options number }
{
    let number = first_number(options.steps, number)?;
    Some(GivenOptions {
        steps: Some(number),
        ..options
    })
}

/// Returns the options with a distance, if they have none.
fn with_within(options: GivenOptions, number: u32) -> Option<GivenOptions>
    ensures { result ≡ with_within options number }
{
    let number = first_number(options.within, number)?;
    Some(GivenOptions {
        within: Some(number),
        ..options
    })
}

/// Returns a number, if none is given yet.
pub(crate) fn first_number(given: Option<u32>, number: u32) -> Option<u32>
    ensures { result ≡ first_number given number }
{
    match given {
        None => Some(number),
        Some(_) => None,
    }
}

/// Returns the number from 1 to `most` that digits are.
pub(crate) fn limited_in(most: u32, text: &[u8]) -> Option<u32>
    ensures { result ≡ limited_in most text.now }
{
    if !all_digits(text) {
        return None;
    }
    match whole(text) {
        Ok(number) => limited(most, number.unsigned_abs()),
        Err(_) => None,
    }
}

/// Returns a number, if it is from 1 to `most`.
fn limited(most: u32, number: u64) -> Option<u32>
    ensures { result ≡ limited most number }
{
    if 1 <= number && number <= u64::from(most) {
        Some(number as u32)
    } else {
        None
    }
}
