//! The lines of a header: split at LF, each examined once.

ghost use Rattle.std.specs.Prelude.{◌≡◌, IfOk};
ghost use Rattle.ply_head.specs.Lines.{parts_of, line_text};
ghost use Rattle.ply_head.specs.Headers.{Gives};
ghost use Rattle.ply_head.specs.Reading.{line_at, IsEndOf};

use crate::refusal::HeadRefusal;

/// The maximal number of bytes in a line without its end.
const LINE_LIMIT: usize = 1_000;

/// The number of bytes in the longest line with its end, CR LF. If none of the next bytes up to this number is LF, the line is
/// too long.
const LOOK_AHEAD: usize = 1_002;

/// Returns a line without its end: a CR before the LF belongs to it.
fn without_end(line: &[u8]) -> &[u8]
    ensures { result.now ≡ line_text line.now }
{
    let length = line.len();
    if length > 0 && line[length - 1] == b'\r' {
        &line[..length - 1]
    } else {
        line
    }
}

/// Returns the line at the start of the bytes, with this number, without its end, and the bytes after it.
pub(crate) fn line_of(bytes: &[u8], number: u32) -> Result<(&[u8], &[u8]), HeadRefusal>
    ensures line { Gives (λ found. (found.0.now, parts_of found.1.now)) result (line_at number (parts_of bytes.now)) }
    ensures tail { IfOk result (λ found. IsEndOf found.1.now bytes.now) }
{
    for (position, byte) in bytes.iter().enumerate() {
        if position == LOOK_AHEAD {
            return Err(HeadRefusal::LongLine(number));
        }
        if *byte == b'\n' {
            let line = without_end(&bytes[..position]);
            if line.len() > LINE_LIMIT {
                return Err(HeadRefusal::LongLine(number));
            }
            return Ok((line, &bytes[position + 1..]));
        }
    }
    if bytes.len() < LOOK_AHEAD {
        Err(HeadRefusal::HeadCut)
    } else {
        Err(HeadRefusal::LongLine(number))
    }
}
