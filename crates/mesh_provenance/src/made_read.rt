//! Reads the line of what was done to a mesh. Depends on `line_text`, which reads numbers.

ghost use Rattle.std.specs.Prelude.{◌≡◌, ◌++◌, ℕ, List, false, IfSome, IfNone};
ghost use Rattle.line_text.specs.Numbers.{BeginsWithNone};
ghost use Rattle.mesh_provenance.specs.Simplifying.{AreSimplifyOptions, surface_word, covered_text, move_word, moved_text, simplify_end};
ghost use Rattle.mesh_provenance.specs.Texts.{IsMade, made_line};

use crate::options_read::options_first;
use crate::words::{faces, finish, moves, simplify, surface};
use finish_options::{FARTHEST, Made, SimplifyOptions};
use line_text::{behind, counted_within, number_within};

/// Returns whether the text begins with that all points are meant, and what follows.
fn surface_first(text: &[u8]) -> (bool, &[u8])
    ensures is { text.now ≡ covered_text result.0 ++ result.1.now }
    ensures none { result.0 ≡ false → (rest : List ℕ) → ¬ (text.now ≡ surface_word ++ rest) }
{
    match behind(text, surface()) {
        Some(rest) => (true, rest),
        None => (false, text),
    }
}

/// Returns whether the text begins with that vertices move, and what follows.
fn moves_first(text: &[u8]) -> (bool, &[u8])
    ensures is { text.now ≡ moved_text result.0 ++ result.1.now }
    ensures none { result.0 ≡ false → (rest : List ℕ) → ¬ (text.now ≡ move_word ++ rest) }
{
    match behind(text, moves()) {
        Some(rest) => (true, rest),
        None => (false, text),
    }
}

/// Returns the options of simplifying up to the end of their line.
fn simplifying_first(text: &[u8]) -> Option<(SimplifyOptions, &[u8])>
    ensures some { IfSome result (λ read. AreSimplifyOptions read.0 × (text.now ≡ simplify_end read.0 ++ read.1.now)) }
    ensures none { IfNone result (BeginsWithNone AreSimplifyOptions simplify_end text.now) }
{
    let (within, rest) = number_within(text, b' ', 1, FARTHEST as u64)?;
    let (surface, rest) = surface_first(rest);
    let (moves, rest) = moves_first(rest);
    let (count, rest) = counted_within(rest, faces(), 0, u32::MAX as u64)?;
    let options = SimplifyOptions {
        within: within as u32,
        faces: count as u32,
        surface,
        moves,
    };
    Some((options, rest))
}

/// Returns what was done up to the end of its line.
pub fn made_first(text: &[u8]) -> Option<(Made, &[u8])>
    ensures some { IfSome result (λ read. IsMade read.0 × (text.now ≡ made_line read.0 ++ read.1.now)) }
    ensures none { IfNone result (BeginsWithNone IsMade made_line text.now) }
{
    match behind(text, simplify()) {
        Some(rest) => {
            let (options, rest) = simplifying_first(rest)?;
            Some((Made::Simplify(options), rest))
        }
        None => {
            let rest = behind(text, finish())?;
            let (options, rest) = options_first(rest)?;
            Some((Made::Finish(options), rest))
        }
    }
}
