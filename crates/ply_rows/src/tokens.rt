//! The tokens of a text: its runs of bytes other than white space.

ghost use Rattle.std.specs.Prelude.{◌≡◌, ◌≤◌, ◌<◌, ◌-◌, ℕ, true, [], ◌∷◌, length, take, drop, slice_index, false, IfSome, IfNone};
ghost use Rattle.ply_rows.specs.Tokens.{is_white_space, tokens_at};

/// Returns whether a byte is space, tab, CR or LF.
fn is_white_space_byte(byte: u8) -> bool
    ensures { result ≡ is_white_space byte }
{
    byte == b' ' || byte == b'\t' || byte == b'\r' || byte == b'\n'
}

/// Returns the first offset, from this one on, without white space.
fn token_start(body: &[u8], place: usize) -> usize
    requires { place ≤ length body.now }
    ensures least { place ≤ result }
    ensures most { result ≤ length body.now }
    ensures tokens { tokens_at body.now result ≡ tokens_at body.now place }
    ensures begins { result < length body.now → is_white_space (slice_index body.now result) ≡ false }
{
    for i in place..body.len() {
        if !is_white_space_byte(body[i]) {
            return i;
        }
    }
    body.len()
}

/// Returns the first offset, from this one on, with white space, or else the body's end.
fn token_end(body: &[u8], start: usize) -> usize
    requires { start ≤ length body.now }
    ensures least { start ≤ result }
    ensures most { result ≤ length body.now }
    ensures inside { (k : ℕ) → start ≤ k → k < result → is_white_space (slice_index body.now k) ≡ false }
    ensures ends { result < length body.now → is_white_space (slice_index body.now result) ≡ true }
{
    for i in start..body.len() {
        if is_white_space_byte(body[i]) {
            return i;
        }
    }
    body.len()
}

/// Returns the next token from an offset on: its start, and the offset after it.
pub(crate) fn next_token(body: &[u8], place: usize) -> Option<(usize, usize)>
    requires { place ≤ length body.now }
    ensures from { IfSome result (λ token. place ≤ token.0) }
    ensures order { IfSome result (λ token. token.0 < token.1) }
    ensures most { IfSome result (λ token. token.1 ≤ length body.now) }
    ensures some { IfSome result (λ token. tokens_at body.now place
        ≡ record { place = token.0; bytes = take (token.1 - token.0) (drop token.0 body.now) } ∷ tokens_at body.now token.1) }
    ensures begins { IfSome result (λ token. tokens_at body.now token.0 ≡ tokens_at body.now place) }
    ensures none { IfNone result (tokens_at body.now place ≡ []) }
{
    let start = token_start(body, place);
    if start == body.len() {
        return None;
    }
    Some((start, token_end(body, start)))
}
