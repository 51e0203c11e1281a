//! The options of `simplify`.
ghost use Rattle.std.specs.Prelude.{◌≡◌, map, string_bytes};
ghost use Rattle.mesh_cmd.specs.SimplifyRequests.{simplify_request, request_of, faces_or_none, with_arguments, with_argument, with_number_of, unstated, with_surface, with_moves, with_distance, with_faces};

use crate::options::{first_number, limited_in};
use finish_options::{FARTHEST, SimplifyOptions};

/// How a mesh is simplified, and whether its file states that.
#[derive(Clone, Copy, Debug, PartialEq, Eq)]
pub struct SimplifyRequest {
    /// How it is simplified.
    pub options: SimplifyOptions,
    /// Comments of the header state it (default: true).
    pub comments: bool,
}

/// Options as they are given, one after another.
#[derive(Clone, Copy)]
struct GivenNumbers {
    /// How far corners may be from the mesh, if a number is given.
    within: Option<u32>,
    /// How many faces are left at least, if a number is given.
    faces: Option<u32>,
    /// Whether all points have to be near, not corners alone.
    surface: bool,
    /// Whether vertices move.
    moves: bool,
    /// Whether the header has comments.
    comments: bool,
}

/// Returns what these arguments ask for, if they are valid.
pub(crate) fn request_in(words: &[String]) -> Option<SimplifyRequest>
    ensures { result ≡ simplify_request (map string_bytes words.now) }
{
    let none = GivenNumbers {
        within: None,
        faces: None,
        surface: false,
        moves: false,
        comments: true,
    };
    request_of(with_all(none, words)?)
}

/// Returns a number of faces, 0 if none is given.
fn faces_or_none(faces: Option<u32>) -> u32
    ensures { result ≡ faces_or_none faces }
{
    match faces {
        None => 0,
        Some(faces) => faces,
    }
}

/// Returns what is asked for by these options, if a distance is given.
fn request_of(given: GivenNumbers) -> Option<SimplifyRequest>
    ensures { result ≡ request_of given }
{
    let within = given.within?;
    let options = SimplifyOptions {
        within,
        faces: faces_or_none(given.faces),
        surface: given.surface,
        moves: given.moves,
    };
    Some(SimplifyRequest {
        options,
        comments: given.comments,
    })
}

/// Returns the options with those of these arguments, if each is an option that is not given yet.
fn with_all(options: GivenNumbers, words: &[String]) -> Option<GivenNumbers>
    ensures { result ≡ with_arguments options (map string_bytes words.now) }
{
    match words {
        [] => Some(options),
        [word, rest @ ..] => {
            let more = with_one(options, word.as_str())?;
            with_all(more, rest)
        }
    }
}

/// Returns the options with that of this argument, if it is one that is not given yet.
fn with_one(options: GivenNumbers, word: &str) -> Option<GivenNumbers>
    ensures { result ≡ with_argument options word.now }
{
    if word == "comments=no" {
        unstated(options)
    } else if word == "surface=yes" {
        with_surface(options)
    } else if word == "move=yes" {
        with_moves(options)
    } else {
        with_number_of(options, word.as_bytes())
    }
}

/// Returns the options with all points, if they are not given yet.
fn with_surface(options: GivenNumbers) -> Option<GivenNumbers>
    ensures { result ≡ with_surface options }
{
    if options.surface {
        return None;
    }
    Some(GivenNumbers {
        surface: true,
        ..options
    })
}

/// Returns the options with vertices that move, if they are not given yet.
fn with_moves(options: GivenNumbers) -> Option<GivenNumbers>
    ensures { result ≡ with_moves options }
{
    if options.moves {
        return None;
    }
    Some(GivenNumbers {
        moves: true,
        ..options
    })
}

/// Returns the options without comments, if they have them.
fn unstated(options: GivenNumbers) -> Option<GivenNumbers>
    ensures { result ≡ unstated options }
{
    if !options.comments {
        return None;
    }
    Some(GivenNumbers {
        comments: false,
        ..options
    })
}

/// Returns the options with the number of this argument, if it is one that is not given yet.
fn with_number_of(options: GivenNumbers, word: &[u8]) -> Option<GivenNumbers>
    ensures { result ≡ with_number_of options word.now }
{
    if word.starts_with(b"within=") {
        with_distance(options, limited_in(FARTHEST, &word[7..])?)
    } else if word.starts_with(b"faces=") {
        with_faces(options, limited_in(u32::MAX, &word[6..])?)
    } else {
        None
    }
}

/// Returns the options with a distance, if they have none.
fn with_distance(options: GivenNumbers, number: u32) -> Option<GivenNumbers>
    ensures { result ≡ with_distance options number }
{
    let number = first_number(options.within, number)?;
    Some(GivenNumbers {
        within: Some(number),
        ..options
    })
}

/// Returns the options with a number of faces, if they have none.
fn with_faces(options: GivenNumbers, number: u32) -> Option<GivenNumbers>
    ensures { result ≡ with_faces options number }
{
    let number = first_number(options.faces, number)?;
    Some(GivenNumbers {
        faces: Some(number),
        ..options
    })
}
