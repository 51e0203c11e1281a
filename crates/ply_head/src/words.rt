//! The tokens of a line: its runs of bytes other than space and tab.

ghost use Rattle.std.specs.Prelude.{◌≡◌, [], ◌∷◌, ◌||◌, IfSome, IfNone, false, length, slice_index, ◌<◌};
ghost use Rattle.std.specs.Str.{bytes_eq};
ghost use Rattle.ply_head.specs.Lines.{words_of, is_blank};
ghost use Rattle.ply_head.specs.Statements.{either_word};

/// Returns whether a word has this spelling.
pub(crate) fn is_word(word: &[u8], text: &[u8]) -> bool
    ensures { result ≡ bytes_eq word.now text.now }
{
    word == text
}

/// Returns whether a word has one of two spellings.
pub(crate) fn is_either(word: &[u8], one: &[u8], other: &[u8]) -> bool
    ensures { result ≡ either_word word.now one.now other.now }
{
    is_word(word, one) || is_word(word, other)
}

fn is_blank_byte(byte: u8) -> bool
    ensures { result ≡ is_blank byte }
{
    byte == b' ' || byte == b'\t'
}

/// Returns the rest of a line after its first blanks.
fn behind_blanks(line: &[u8]) -> &[u8]
    ensures words { words_of result.now ≡ words_of line.now }
    ensures begins { (0 < length result.now) → is_blank (slice_index result.now 0) ≡ false }
{
    for (position, byte) in line.iter().enumerate() {
        if !is_blank_byte(*byte) {
            return &line[position..];
        }
    }
    &line[line.len()..]
}

/// Returns the first word of a line, and the text after it.
#[tactic(auto, using(crate::proofs::WordLemmas::words_nil))]
pub(crate) fn next_word(line: &[u8]) -> Option<(&[u8], &[u8])>
    ensures some { IfSome result (λ found. words_of line.now ≡ found.0.now ∷ words_of found.1.now) }
    ensures none { IfNone result (words_of line.now ≡ []) }
{
    let rest = behind_blanks(line);
    if rest.is_empty() {
        return None;
    }
    for (position, byte) in rest.iter().enumerate() {
        if is_blank_byte(*byte) {
            return Some((&rest[..position], &rest[position + 1..]));
        }
    }
    Some((rest, &rest[rest.len()..]))
}
